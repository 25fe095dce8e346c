//! A word that reads lines and answers at the end, and the talker that cuts bytes into lines for it.
ghost use Rattle.std.specs.Prelude.{◌≡◌, ◌<◌, ◌++◌, ◌∷◌, ℕ, List, [], true, length};
ghost use Rattle.dover_model.specs.Lines.{lines_of};
ghost use Rattle.line_text.specs.Cutting.{IsWholeLine};
ghost use Rattle.dialogue.specs.Reading.{Reading, lines_talk, read_lines};
ghost use Rattle.dialogue.specs.Taking.{HasTaken, IsOrderly, TakesBytes, TakesLine};
ghost use Rattle.dialogue.specs.Talk.{CanEnd, Talks};
ghost use Rattle.dialogue.specs.Turns.{AllGiven, Answers, StopCause, StopsOn};
ghost use Rattle.dover_port.specs.Causes.{Causes, StopsWith};
ghost use Rattle.dover_port.specs.Moves.{Since, ins};

use crate::{Stop, Talker, converse};
use dover_model::Memory;
use dover_port::{Output, Port, Status};
use line_text::{BackLine, ByteEffect, Lines};

/// What a word that reads lines and answers at the end keeps of them. It says what a line does, when no more are read,
/// and what the answer is.
pub trait LineReader: Drop {
    /// What it counts.
    type Meter;

    /// What a call may be about, as a form or a question, and what stood on the meter before it.
    ghost about: { Type 0 };

    /// What lines come to.
    ghost account: { Type 0 };

    /// What the word says.
    ghost reading: { about → Reading account };

    /// The lines that it stands for with its meter.
    ghost stands: { about → Self → Self.Meter → List (List ℕ) → Type 0 };

    /// What the meter may show at the end, by what the lines come to.
    ghost costs: { about → Self.Meter → account → Type 0 };

    /// What holds of a reading, whatever is read. It does nothing.
    fn laws()
        ensures orderly { (a : about) → IsOrderly (reading a) }
        ensures spent { (a : about) (t : Self) (m : Self.Meter) (ls : List (List ℕ)) →
            stands a t m ls → costs a m (read_lines (reading a) ls) }
        ensures behind { (a : about) (m : Self.Meter) (x : account) (line : List ℕ) →
            costs a m x → costs a m ((reading a).next x line) };

    /// Takes a line without its line feed, and of one that is too long its first 129 bytes.
    ///
    /// # Errors
    ///
    /// `Memory` where there is none; the reader isn't called again.
    fn take_line(&mut self, meter: &mut Self::Meter, line: &[u8]) -> Result<(), Memory>
        requires { (a : about) × (ls : List (List ℕ)) × stands a self.old meter.old ls
            × ((reading a).goes_on (read_lines (reading a) ls) ≡ true) }
        ensures { (a : about) (ls : List (List ℕ)) → stands a self.old meter.old ls →
            (reading a).goes_on (read_lines (reading a) ls) ≡ true →
            TakesLine (reading a) (stands a self.new meter.new) (costs a meter.new) ls line.now result };

    /// Whether more lines are to be read.
    fn goes_on(&self) -> bool
        ensures { (a : about) (m : Self.Meter) (ls : List (List ℕ)) → stands a self.now m ls →
            result ≡ (reading a).goes_on (read_lines (reading a) ls) };

    /// Puts the answer, where no more lines are to be read, or the input has ended. Before it nothing is kept back in
    /// `out`.
    ///
    /// # Errors
    ///
    /// `NoMemory` where there was none for the answer, of which nothing was put then, and `Unwritten` where a write
    /// failed.
    fn answer<P: Port>(
        self,
        meter: &mut Self::Meter,
        port: &mut P,
        out: &mut Output,
    ) -> Result<Status, Stop>
        requires empty { out.old ≡ [] }
        requires stands { (a : about) × (ls : List (List ℕ)) × stands a self meter.old ls }
        ensures answers { (a : about) (ls : List (List ℕ)) → stands a self meter.old ls →
            Answers ((reading a).answer (read_lines (reading a) ls))
            ((reading a).lacks (read_lines (reading a) ls) ((reading a).goes_on (read_lines (reading a) ls)))
            (P.moves port.old) (P.moves port.new) out.new result }
        ensures spent { (a : about) (ls : List (List ℕ)) → stands a self meter.old ls →
            costs a meter.new (read_lines (reading a) ls) }
        ensures cause { StopCause result
            (P.write_faults port.old) (P.write_faults port.new) (P.read_faults port.old) (P.read_faults port.new) }
        ensures stops { StopsOn result (P.calls port.old) (P.calls port.new) };
}

/// The line that has begun, and what reads lines. Nothing is due before the answer.
#[derive(Drop)]
pub(crate) struct LineTalker<R: LineReader> {
    pub(crate) lines: Lines,
    pub(crate) reader: R,
}

impl<R: LineReader> LineTalker<R> {
    /// Takes a byte.
    #[inline(never)]
    fn take_byte(&mut self, meter: &mut R::Meter, byte: u8) -> Result<(), Memory>
        requires { (a : R.about) × (x : List ℕ) × HasTaken (R.stands a self.old.reader meter.old) self.old.lines x
            × ((R.reading a).goes_on (read_lines (R.reading a) (lines_of x)) ≡ true) }
        ensures { (a : R.about) (x : List ℕ) → HasTaken (R.stands a self.old.reader meter.old) self.old.lines x →
            (R.reading a).goes_on (read_lines (R.reading a) (lines_of x)) ≡ true →
            TakesBytes (R.reading a) (HasTaken (R.stands a self.new.reader meter.new) self.new.lines)
            (R.costs a meter.new) (x ++ byte ∷ []) result }
    {
        R::laws();
        match self.lines.push(byte) {
            ByteEffect::More => Ok(()),
            ByteEffect::Line => self.reader.take_line(meter, self.lines.line()),
            ByteEffect::TooLong => self.reader.take_line(meter, self.lines.line()),
        }
    }

    /// Takes a byte, or a whole line with its line feed where no line has begun.
    #[inline(always)]
    fn take_front(&mut self, meter: &mut R::Meter, bytes: &[u8]) -> Result<(), Memory>
        requires some { 0 < length bytes.now }
        requires whole { 1 < length bytes.now → IsWholeLine self.old.lines bytes.now }
        requires taken { (a : R.about) × (x : List ℕ)
            × HasTaken (R.stands a self.old.reader meter.old) self.old.lines x
            × ((R.reading a).goes_on (read_lines (R.reading a) (lines_of x)) ≡ true) }
        ensures { (a : R.about) (x : List ℕ) → HasTaken (R.stands a self.old.reader meter.old) self.old.lines x →
            (R.reading a).goes_on (read_lines (R.reading a) (lines_of x)) ≡ true →
            TakesBytes (R.reading a) (HasTaken (R.stands a self.new.reader meter.new) self.new.lines)
            (R.costs a meter.new) (x ++ bytes.now) result }
    {
        if bytes.len() > 1 {
            return self.reader.take_line(meter, self.lines.pass(bytes));
        }
        self.take_byte(meter, bytes[0])
    }
}

impl<R: LineReader> Talker for LineTalker<R> {
    type Meter = R::Meter;

    ghost about = { R.about };

    ghost talk = { λ a. lines_talk (R.reading a) };

    ghost stands = { λ a t m. AllGiven (HasTaken (R.stands a t.reader m) t.lines) };

    ghost ready = { λ a t m. HasTaken (R.stands a t.reader m) t.lines };

    ghost costs = { λ a m x. R.costs a m (read_lines (R.reading a) (lines_of x)) };

    fn laws() {
        R::laws();
    }

    fn take(&mut self, meter: &mut R::Meter, piece: &[u8]) -> Result<usize, Memory> {
        R::laws();
        let mut rest = piece;
        while !rest.is_empty() {
            let count = self.lines.front(rest);
            match self.take_front(meter, &rest[..count]) {
                Ok(()) => {}
                Err(error) => return Err(error),
            }
            rest = &rest[count..];
            if !self.reader.goes_on() {
                return Ok(piece.len() - rest.len());
            }
        }
        Ok(piece.len())
    }

    fn next_part(&mut self, _meter: &mut R::Meter, _part: &mut BackLine) -> bool {
        false
    }

    fn goes_on(&self, _meter: &R::Meter) -> bool {
        self.reader.goes_on()
    }

    fn answer<P: Port>(
        self,
        meter: &mut R::Meter,
        port: &mut P,
        out: &mut Output,
        _ended: bool,
    ) -> Result<Status, Stop> {
        self.reader.answer(meter, port, out)
    }
}

/// Reads lines while the reader wants more, and then puts its answer, as `converse` does.
pub fn converse_in_lines<P: Port, R: LineReader>(
    port: &mut P,
    reader: R,
    meter: &mut R::Meter,
) -> Status
    requires { (a : R.about) × R.stands a reader meter.old [] }
    ensures talks { (a : R.about) → R.stands a reader meter.old [] → Since (P.moves port.old) (P.moves port.new)
        (λ moves. Talks (lines_talk (R.reading a)) result moves
        × R.costs a meter.new (read_lines (R.reading a) (lines_of (ins moves)))) }
    ensures ends { (a : R.about) → R.stands a reader meter.old [] → CanEnd (Talks (lines_talk (R.reading a))) result }
    ensures causes { Causes result
        (P.read_faults port.old) (P.read_faults port.new) (P.write_faults port.old) (P.write_faults port.new) }
    ensures stops { StopsWith result (P.calls port.old) (P.calls port.new) }
{
    let talker = LineTalker {
        lines: Lines::new(),
        reader,
    };
    converse(port, talker, meter)
}
