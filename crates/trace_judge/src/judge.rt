//! The judge of a text.
ghost use Rattle.std.specs.Prelude.{◌≡◌, ◌≤◌, ◌<◌, ◌+◌, ◌∷◌, [], ℕ, List, true, IfOk, OnOk, OnErr, IsOk};
ghost use Rattle.std.specs.Prelude.{◌≢◌, ◌↔◌, IsTrue, length, take, IsErr};
ghost use Rattle.dover_model.specs.Verdict as model;
ghost use Rattle.line_text.specs.declared.cutting.ByteEffect.TheVariants.{More, Line, TooLong};
ghost use Rattle.line_text.specs.Cutting.{IsWholeLine};
ghost use Rattle.trace_judge.specs.declared.judge.Found.TheVariants.{Good, NoMemory};
ghost use Rattle.trace_judge.specs.Reads.{job_lines_in, IsUnchangedFor, IsPaid};
ghost use Rattle.trace_judge.specs.Judging.{StandsFor, Fed, IsOverfed, IsCut, Tells, keeps, steps_told, is_wrong};
ghost use Rattle.trace_judge.specs.Judging.{Misses, Notes, HasPaidFor, PaysFor};

use crate::reader::TraceReader;
use crate::stage::TraceStage;
use crate::verdict::{Expected, Verdict};
use comparison_count::Comparisons;
use dover_model::{Memory, PackedEvent};
use line_text::{ByteEffect, Lines};
use std::alloc::Global;
use std::marker::Model;
use std::sync::ledger::Ledger;

/// What was found of the text so far.
#[derive(Clone, Copy)]
pub enum Found {
    /// No line is wrong.
    Good,
    /// This line, counted from 1, is the first that is wrong.
    Wrong { line: u64, expected: Expected },
    /// There was no memory.
    NoMemory,
}

/// Judges a text that comes in pieces, as a trace. It keeps one line of it, the jobs that aren't over, and the steps of
/// the run where they are asked for.
#[derive(Drop)]
pub struct Judge {
    lines: Lines,
    reader: TraceReader,
    found: Found,
}

impl Model for Judge {
    ghost use Rattle.trace_judge.specs.Judging.{Judged};

    ghost Value = { Judged };

    ghost view = { λ j. record { lines = j.lines; reader = j.reader; found = j.found } };
}

/// What a text is, and where it is accepted, the steps of its run if they were kept, and how many refused lines it has.
#[derive(Drop)]
pub struct Closed {
    /// What the text is.
    pub verdict: Verdict,
    /// The printed steps of the run, or none.
    pub steps: Vec<PackedEvent>,
    pub refused: u64,
}

impl Judge {
    ghost use Rattle.dover_model.specs.Session.{Session};

    /// No text yet. Where `keep` is true, the steps of the run are kept.
    ///
    /// # Errors
    ///
    /// `Memory` where there is none for the first step.
    pub fn new(alloc: Global, keep: bool) -> Result<Judge, Memory>
        ensures stands { IfOk result (λ judge. StandsFor judge []) }
        ensures keep { IfOk result (λ judge. keeps judge ≡ keep) }
        ensures paid { IfOk result (λ judge. (now : ℕ) → HasPaidFor judge [] now now) }
    {
        Ok(Judge {
            lines: Lines::new(),
            reader: TraceReader::new(alloc, keep)?,
            found: Found::Good,
        })
    }

    /// Room for so many jobs more, with their steps where they are kept. On `Memory` all is as before.
    ///
    /// # Errors
    ///
    /// `Memory` where there is none, or `feed` answered it before.
    pub fn reserve(&mut self, more: u32) -> Result<(), Memory>
        ensures stands { (text : List ℕ) → StandsFor self.old text → StandsFor self.new text }
        ensures found { self.new.found ≡ self.old.found }
        ensures keep { keeps self.new ≡ keeps self.old }
        ensures ok { OnOk result (more ≤ self.new.reader.spare) }
        ensures grows { self.old.reader.spare ≤ self.new.reader.spare }
        ensures err { OnErr result (self.new.reader.spare ≡ self.old.reader.spare) }
        ensures enough { (text : List ℕ) → StandsFor self.old text → more ≤ self.old.reader.spare → IsOk result }
        ensures failed { OnOk result (self.old.found ≢ NoMemory) }
        ensures paid { (text : List ℕ) (start now : ℕ) → HasPaidFor self.old text start now
            → HasPaidFor self.new text start now }
    {
        if self.has_failed() {
            return Err(Memory);
        }
        self.reader.reserve(more)
    }

    /// For how many jobs more there is room.
    pub fn spare(&self) -> u32
        ensures { result ≡ self.now.reader.spare }
    {
        self.reader.spare()
    }

    // Some `feed` found no memory.
    fn has_failed(&self) -> bool
        ensures { IsTrue result ↔ (self.now.found ≡ NoMemory) }
    {
        matches!(self.found, Found::NoMemory)
    }

    // The line goes on. Nothing may stand behind a trace that has ended.
    fn go_on(&mut self)
        requires good { self.old.found ≡ Good }
        requires some { 0 < length self.old.lines.line }
        ensures stands { (before text : List ℕ) → IsCut self.old More before text → StandsFor self.new text }
        ensures reader { self.new.reader ≡ self.old.reader }
    {
        if matches!(self.reader.stage(), TraceStage::Ended) {
            self.found = Found::Wrong {
                line: self.lines.count().saturating_add(1),
                expected: Expected::Nothing,
            };
        }
    }

    // The line of this number is wrong.
    #[inline(never)]
    fn miss<L: Ledger>(&mut self, line: u64, comparisons: &mut Comparisons<L>)
        ensures missed { Misses self.old self.new line }
        ensures kept { IsUnchangedFor self.old.reader self.new.reader }
        ensures paid { (start : ℕ) → IsPaid self.old.reader start comparisons.old →
            IsPaid self.new.reader start comparisons.new }
    {
        let expected = self.reader.due(comparisons);
        self.found = Found::Wrong { line, expected };
    }

    // The line is too long.
    fn overrun<L: Ledger>(&mut self, comparisons: &mut Comparisons<L>)
        requires good { self.old.found ≡ Good }
        ensures stands { (before text : List ℕ) → IsCut self.old TooLong before text → StandsFor self.new text }
        ensures kept { IsUnchangedFor self.old.reader self.new.reader }
        ensures paid { (start : ℕ) → IsPaid self.old.reader start comparisons.old →
            IsPaid self.new.reader start comparisons.new }
    {
        let line = self.lines.count().saturating_add(1);
        self.miss(line, comparisons);
    }

    // A line has ended and was counted, and this was told of it.
    #[inline(always)]
    fn note<L: Ledger>(
        &mut self,
        taken: Result<bool, Memory>,
        comparisons: &mut Comparisons<L>,
    ) -> Result<(), Memory>
        ensures notes { Notes self.old self.new taken }
        ensures kept { IsUnchangedFor self.old.reader self.new.reader }
        ensures ok { OnOk result (IsOk taken) }
        ensures err { OnErr result (IsErr taken) }
        ensures failed { OnErr result (self.new.found ≡ NoMemory) }
        ensures paid { (start : ℕ) → IsPaid self.old.reader start comparisons.old →
            IsPaid self.new.reader start comparisons.new }
    {
        let Ok(good) = taken else {
            self.found = Found::NoMemory;
            return Err(Memory);
        };
        if good {
            return Ok(());
        }
        let line = self.lines.count();
        self.miss(line, comparisons);
        Ok(())
    }

    // The line that is kept has ended.
    fn take_line<L: Ledger>(&mut self, comparisons: &mut Comparisons<L>) -> Result<(), Memory>
        requires good { self.old.found ≡ Good }
        requires line { self.old.lines.last ≢ More }
        ensures stands { OnOk result
            ((before text : List ℕ) → IsCut self.old Line before text → StandsFor self.new text) }
        ensures spare { self.old.reader.spare ≤ self.new.reader.spare + job_lines_in self.old.lines.line }
        ensures keep { self.new.reader.keep ≡ self.old.reader.keep }
        ensures room { OnErr result (self.old.reader.spare < job_lines_in self.old.lines.line) }
        ensures failed { OnErr result (self.new.found ≡ NoMemory) }
        ensures jobs { self.new.reader.course.jobs
            ≤ self.old.reader.course.jobs + job_lines_in self.old.lines.line }
        ensures paid { (start : ℕ) → IsPaid self.old.reader start comparisons.old →
            IsPaid self.new.reader start comparisons.new }
    {
        let taken = self.reader.take(self.lines.line(), comparisons);
        self.note(taken, comparisons)
    }

    // The next bytes are a whole line, where no line has begun and none is wrong so far. It is read where it stands.
    #[inline(always)]
    fn take_whole<L: Ledger>(
        &mut self,
        bytes: &[u8],
        comparisons: &mut Comparisons<L>,
    ) -> Result<(), Memory>
        requires good { self.old.found ≡ Good }
        requires whole { IsWholeLine self.old.lines bytes.now }
        ensures fed { OnOk result (Fed self.old self.new bytes.now) }
        ensures room { OnErr result (IsOverfed self.old bytes.now) }
        ensures failed { OnErr result (self.new.found ≡ NoMemory) }
        ensures paid { PaysFor self.old self.new bytes.now comparisons.old comparisons.new }
    {
        let line = self.lines.pass(bytes);
        let taken = self.reader.take(line, comparisons);
        self.note(taken, comparisons)
    }

    // The next byte, where no line is wrong so far.
    #[inline(never)]
    fn take_byte<L: Ledger>(
        &mut self,
        byte: u8,
        comparisons: &mut Comparisons<L>,
    ) -> Result<(), Memory>
        requires good { self.old.found ≡ Good }
        ensures fed { OnOk result (Fed self.old self.new (byte ∷ [])) }
        ensures room { OnErr result (IsOverfed self.old (byte ∷ [])) }
        ensures failed { OnErr result (self.new.found ≡ NoMemory) }
        ensures paid { PaysFor self.old self.new (byte ∷ []) comparisons.old comparisons.new }
    {
        match self.lines.push(byte) {
            ByteEffect::Line => return self.take_line(comparisons),
            ByteEffect::More => self.go_on(),
            ByteEffect::TooLong => self.overrun(comparisons),
        }
        Ok(())
    }

    // The first of the bytes, where no line is wrong so far: a whole line, or one byte. Answers how many.
    #[inline(always)]
    fn take_front<L: Ledger>(
        &mut self,
        bytes: &[u8],
        comparisons: &mut Comparisons<L>,
    ) -> Result<usize, Memory>
        requires some { 0 < length bytes.now }
        requires good { self.old.found ≡ Good }
        ensures fed { IfOk result (λ count. Fed self.old self.new (take count bytes.now)) }
        ensures some { IfOk result (λ count. 1 ≤ count) }
        ensures within { IfOk result (λ count. count ≤ length bytes.now) }
        ensures room { OnErr result (IsOverfed self.old bytes.now) }
        ensures failed { OnErr result (self.new.found ≡ NoMemory) }
        ensures paid { IfOk result (λ count. PaysFor self.old self.new (take count bytes.now) comparisons.old
            comparisons.new) }
        ensures spent { OnErr result (PaysFor self.old self.new bytes.now comparisons.old comparisons.new) }
    {
        let count = self.lines.front(bytes);
        if count > 1 {
            self.take_whole(&bytes[..count], comparisons)?;
            return Ok(count);
        }
        self.take_byte(bytes[0], comparisons)?;
        Ok(1)
    }

    // The first of the bytes. Behind a wrong line all are disregarded. Answers how many.
    #[inline(always)]
    fn take<L: Ledger>(
        &mut self,
        bytes: &[u8],
        comparisons: &mut Comparisons<L>,
    ) -> Result<usize, Memory>
        requires some { 0 < length bytes.now }
        ensures fed { IfOk result (λ count. Fed self.old self.new (take count bytes.now)) }
        ensures some { IfOk result (λ count. 1 ≤ count) }
        ensures within { IfOk result (λ count. count ≤ length bytes.now) }
        ensures room { OnErr result (IsOverfed self.old bytes.now) }
        ensures failed { OnErr result (self.new.found ≡ NoMemory) }
        ensures paid { IfOk result (λ count. PaysFor self.old self.new (take count bytes.now) comparisons.old
            comparisons.new) }
        ensures spent { OnErr result (PaysFor self.old self.new bytes.now comparisons.old comparisons.new) }
    {
        match self.found {
            Found::Good => self.take_front(bytes, comparisons),
            Found::Wrong { .. } => Ok(bytes.len()),
            Found::NoMemory => Err(Memory),
        }
    }

    /// The text goes on by the piece, however it is cut. Behind a wrong line all is disregarded.
    ///
    /// # Errors
    ///
    /// `Memory` where there is none for a job that the piece names, or `feed` answered it before.
    pub fn feed<L: Ledger>(
        &mut self,
        piece: &[u8],
        comparisons: &mut Comparisons<L>,
    ) -> Result<(), Memory>
        ensures fed { OnOk result (Fed self.old self.new piece.now) }
        ensures room { OnErr result (IsOverfed self.old piece.now) }
        ensures failed { OnErr result (self.new.found ≡ NoMemory) }
        ensures stays { OnOk result (self.old.found ≢ NoMemory) }
        ensures paid { PaysFor self.old self.new piece.now comparisons.old comparisons.new }
        ensures decided { (text : List ℕ) → StandsFor self.old text → is_wrong (model.verdict text) ≡ true
            → IsOk result }
    {
        match self.found {
            Found::NoMemory => return Err(Memory),
            Found::Wrong { .. } => return Ok(()),
            Found::Good => {}
        }
        let mut rest = piece;
        while !rest.is_empty() {
            let count = self.take(rest, comparisons)?;
            rest = &rest[count..];
        }
        Ok(())
    }

    /// A line of the text so far is wrong: whatever follows, the verdict stays the same.
    pub fn decided(&self) -> bool
        ensures { (text : List ℕ) → StandsFor self.now text → result ≡ is_wrong (model.verdict text) }
    {
        matches!(self.found, Found::Wrong { .. })
    }

    // What the text so far is.
    fn verdict(&self) -> Result<Verdict, Memory>
        ensures tells { IfOk result (λ verdict. (text : List ℕ) → StandsFor self.now text → Tells verdict text) }
        ensures ok { (text : List ℕ) → StandsFor self.now text → IsOk result }
        ensures failed { OnOk result (self.now.found ≢ NoMemory) }
    {
        match self.found {
            Found::NoMemory => Err(Memory),
            Found::Wrong { line, expected } => Ok(Verdict::Wrong { line, expected }),
            Found::Good => Ok(self.good()),
        }
    }

    // What the text so far is, of which no line is wrong.
    fn good(&self) -> Verdict
        requires { self.now.found ≡ Good }
        ensures { (text : List ℕ) → StandsFor self.now text → Tells result text }
    {
        match self.reader.stage() {
            TraceStage::Ended => self.reader.accepted(),
            TraceStage::Opening => Verdict::Short {
                lines: self.lines.count(),
            },
            TraceStage::Going => Verdict::Short {
                lines: self.lines.count(),
            },
        }
    }

    /// What the text is. It takes no memory.
    ///
    /// # Errors
    ///
    /// `Memory` where `feed` answered it.
    pub fn close(self) -> Result<Closed, Memory>
        ensures tells { IfOk result (λ closed. (text : List ℕ) → StandsFor self text → Tells closed.verdict text) }
        ensures steps { IfOk result (λ closed. (text : List ℕ) → StandsFor self text →
            closed.steps.items ≡ steps_told (keeps self) (model.verdict text)) }
        ensures refused { IfOk result (λ closed. (text : List ℕ) (S : Session) → StandsFor self text →
            model.verdict text ≡ model.Accepted S → closed.refused ≡ model.refused_count S) }
        ensures ok { (text : List ℕ) → StandsFor self text → IsOk result }
        ensures failed { OnOk result (self.found ≢ NoMemory) }
    {
        match self.verdict() {
            Ok(verdict) => Ok(self.told(verdict)),
            Err(error) => Err(error),
        }
    }

    // What is told of a text of this verdict: no steps where it isn't accepted.
    fn told(self, verdict: Verdict) -> Closed
        requires { (text : List ℕ) → StandsFor self text → Tells verdict text }
        ensures verdict { result.verdict ≡ verdict }
        ensures steps { (text : List ℕ) → StandsFor self text →
            result.steps.items ≡ steps_told (keeps self) (model.verdict text) }
        ensures refused { (text : List ℕ) (S : Session) → StandsFor self text →
            model.verdict text ≡ model.Accepted S → result.refused ≡ model.refused_count S }
    {
        let refused = self.reader.refused();
        let mut steps = self.reader.into_steps();
        if !matches!(verdict, Verdict::Accepted { .. }) {
            steps.clear();
        }
        Closed {
            verdict,
            steps,
            refused,
        }
    }
}
