//! What is put of an answer.
ghost use Rattle.std.specs.Prelude.{◌≡◌, ◌+◌, ◌*◌, ◌<◌, ◌++◌, ◌∷◌, [], ℕ, List, length, map, codes};
ghost use Rattle.dover_model.specs.Lines.{in_lines, with_numbers};
ghost use Rattle.dover_port.specs.Causes.{HasCause, StopsAtFailure};
ghost use Rattle.dover_port.specs.Moves.{PutsThrough};
ghost use Rattle.dover_port.specs.declared.status.Status.TheVariants.{Refused};
ghost use Rattle.dialogue.specs.Turns.{StopCause, StopsOn};
ghost use Rattle.question_words.specs.Texts.{PutsBy, policy_lines, row_text, text_of, word_of};

use dialogue::Stop;
use dover_model::Piece;
use dover_port::{Failed, Output, Port, Status};
use line_text::BackLine;
use std::alloc::Global;

/// What is known of a stretch of ticks, and of the jobs that are released and due in it.
#[derive(Clone, Copy)]
pub(crate) struct StretchRow {
    pub(crate) from: u64,
    pub(crate) until: u64,
    /// What they are worth together.
    pub(crate) total: u64,
    /// No schedule of them is worth more.
    pub(crate) cap: u64,
    /// What the run completes of it.
    pub(crate) value: u64,
}

/// Which policy a line tells of.
#[derive(Clone, Copy)]
pub(crate) enum Named {
    Edf,
    Dense,
}

/// What a policy's schedule comes to.
#[derive(Clone, Copy)]
pub(crate) struct PolicyRow {
    pub(crate) named: Named,
    pub(crate) value: u64,
    /// How many jobs it serves.
    pub(crate) completed: u64,
    /// How often it stops a job that it hasn't served yet.
    pub(crate) stops: u64,
}

/// What has a line each; behind those of policies comes a last line.
#[derive(Drop)]
pub(crate) enum Rows {
    Pieces(Vec<Piece>),
    Stretches(Vec<StretchRow>),
    Policies(Vec<PolicyRow>, BackLine),
}

/// An answer: its status, its first lines, and the rows whose lines come behind these.
#[derive(Drop)]
pub(crate) struct Answer {
    pub(crate) status: Status,
    pub(crate) head: BackLine,
    pub(crate) rows: Rows,
}

/// What has a line.
trait Row {
    /// What its line says.
    ghost says: { Self → List ℕ };

    /// Its line with its line feed.
    fn line(&self) -> BackLine
        ensures { result ≡ says self.now ++ 10 ∷ [] };
}

/// The line of a word and numbers, with its line feed.
fn line_of(word: &[u8], numbers: &[u64]) -> BackLine
    requires { length word.now + 21 * length numbers.now < 129 }
    ensures { result ≡ with_numbers word.now numbers.now ++ 10 ∷ [] }
{
    let mut line = BackLine::new();
    line.put_with_wide(word, numbers);
    line
}

impl Row for Piece {
    ghost use Rattle.question_words.specs.Texts.{piece_line};

    ghost says = { piece_line };

    fn line(&self) -> BackLine {
        line_of(b"piece", &[self.from, self.until, u64::from(self.number)])
    }
}

impl Row for StretchRow {
    ghost use Rattle.question_words.specs.Texts.{stretch_line};

    ghost says = { stretch_line };

    fn line(&self) -> BackLine {
        line_of(
            b"stretch",
            &[self.from, self.until, self.total, self.cap, self.value],
        )
    }
}

/// The word of a policy's line.
fn word(named: Named) -> &'static [u8]
    ensures { result.now ≡ word_of named }
{
    match named {
        Named::Edf => b"edf",
        Named::Dense => b"dense",
    }
}

impl Row for PolicyRow {
    ghost use Rattle.question_words.specs.Texts.{policy_line};

    ghost says = { policy_line };

    fn line(&self) -> BackLine {
        line_of(word(self.named), &[self.value, self.completed, self.stops])
    }
}

/// Puts the line of each row.
fn put_lines<P: Port, R: Row>(port: &mut P, out: &mut Output, rows: &[R]) -> Result<(), Failed>
    ensures text { PutsThrough (P.moves port.old) (P.moves port.new) result out.old out.new
        (in_lines (map R.says rows.now)) }
    ensures cause { HasCause
        (P.write_faults port.old) (P.write_faults port.new) (P.read_faults port.old) (P.read_faults port.new) result }
    ensures stops { StopsAtFailure (P.calls port.old) (P.calls port.new) result }
{
    for row in rows {
        match out.put(port, row.line().bytes()) {
            Ok(()) => {}
            Err(failed) => return Err(failed),
        }
    }
    Ok(())
}

/// Puts the line of each policy, and the last line.
fn put_compared<P: Port>(
    port: &mut P,
    out: &mut Output,
    policies: &[PolicyRow],
    last: &BackLine,
) -> Result<(), Failed>
    ensures text { PutsThrough (P.moves port.old) (P.moves port.new) result out.old out.new
        (in_lines (policy_lines policies.now) ++ last.now) }
    ensures cause { HasCause
        (P.write_faults port.old) (P.write_faults port.new) (P.read_faults port.old) (P.read_faults port.new) result }
    ensures stops { StopsAtFailure (P.calls port.old) (P.calls port.new) result }
{
    match put_lines(port, out, policies) {
        Ok(()) => {}
        Err(failed) => return Err(failed),
    }
    out.put(port, last.bytes())
}

/// Puts the line of each row.
fn put_rows<P: Port>(port: &mut P, out: &mut Output, rows: &Rows) -> Result<(), Failed>
    ensures text { PutsThrough (P.moves port.old) (P.moves port.new) result out.old out.new
        (row_text rows.now) }
    ensures cause { HasCause
        (P.write_faults port.old) (P.write_faults port.new) (P.read_faults port.old) (P.read_faults port.new) result }
    ensures stops { StopsAtFailure (P.calls port.old) (P.calls port.new) result }
{
    match rows {
        Rows::Pieces(pieces) => put_lines(port, out, pieces.as_slice()),
        Rows::Stretches(stretches) => put_lines(port, out, stretches.as_slice()),
        Rows::Policies(policies, last) => put_compared(port, out, policies, last),
    }
}

impl Answer {
    /// A line that refuses, with its line feed.
    pub(crate) fn refused(alloc: Global, head: BackLine) -> Answer
        ensures status { result.status ≡ Refused }
        ensures text { (line : List ℕ) → head ≡ line ++ 10 ∷ [] → text_of result ≡ in_lines (line ∷ []) }
    {
        Answer {
            status: Status::Refused,
            head,
            rows: Rows::Pieces(Vec::new(alloc)),
        }
    }

    /// The line that refuses jobs that are more than are answered, or worth more or due later.
    pub(crate) fn too_many(alloc: Global) -> Answer
        ensures status { result.status ≡ Refused }
        ensures text { text_of result ≡ in_lines (codes "refused size" ∷ []) }
    {
        let mut head = BackLine::new();
        head.put_word(b"refused size");
        Answer::refused(alloc, head)
    }

    /// Puts its text.
    pub(crate) fn put<P: Port>(&self, port: &mut P, out: &mut Output) -> Result<Status, Stop>
        requires { out.old ≡ [] }
        ensures puts { PutsBy self.now (P.moves port.old) (P.moves port.new) out.new result }
        ensures cause { StopCause result
            (P.write_faults port.old) (P.write_faults port.new) (P.read_faults port.old) (P.read_faults port.new) }
        ensures stops { StopsOn result (P.calls port.old) (P.calls port.new) }
    {
        match out.put(port, self.head.bytes()) {
            Ok(()) => {}
            Err(_) => return Err(Stop::Unwritten),
        }
        match put_rows(port, out, &self.rows) {
            Ok(()) => Ok(self.status),
            Err(_) => Err(Stop::Unwritten),
        }
    }
}
