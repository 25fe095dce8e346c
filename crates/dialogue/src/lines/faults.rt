//! The line that refuses what is read, from one of its lines on.
ghost use Rattle.std.specs.Prelude.{◌≡◌, ◌≤◌, ◌++◌, ◌∷◌, [], length};
ghost use Rattle.dover_model.specs.Due as due;
ghost use Rattle.dover_model.specs.Text.{refused_line};
ghost use Rattle.dialogue.specs.Taking.{IsRefusal};
ghost use Rattle.dialogue.specs.Turns.{Answers, StopCause, StopsOn};
ghost use Rattle.dover_port.specs.Causes.{HasCause, StopsAtFailure};
ghost use Rattle.dover_port.specs.Moves.{PutsThrough};
ghost use Rattle.event_feed.specs.Kept.{cause_of_fault};

use crate::Stop;
use dover_port::{Failed, Output, Port, Status};
use event_feed::{Cause, FeedFault};
use line_text::BackLine;

/// The word for a cause.
fn cause_word(cause: Cause) -> &'static [u8]
    ensures is { result.now ≡ due.cause_word (cause_of_fault cause) }
    ensures short { length result.now ≤ 8 }
{
    match cause {
        Cause::Lines => b"lines",
        Cause::Line => b"line",
        Cause::Declared => b"declared",
        Cause::Order => b"order",
        Cause::BadJob => b"job",
        Cause::Count => b"count",
        Cause::Total => b"total",
        Cause::Ratio { .. } => b"ratio",
        Cause::Short => b"short",
    }
}

/// Writes the line that refuses what is read at the line of this number, before its line feed. The word has at most 20
/// bytes.
#[inline(never)]
pub fn write_refused(number: u64, word: &[u8], line: &mut BackLine)
    requires short { length word.now ≤ 20 }
    requires empty { line.old ≡ 10 ∷ [] }
    ensures text { line.new ≡ refused_line number word.now ++ 10 ∷ [] }
    ensures fits { length line.new ≤ 50 }
{
    line.put_word(word);
    line.put_word(b" ");
    line.put_with_wide(b"refused", &[number]);
}

/// Puts the line that refuses what is read at the line of this number, or keeps it back in `out`. The word has at most
/// 20 bytes. An `Err`: a write failed, and a front of what was kept back and of the line was put, but not all of it.
pub fn put_refused<P: Port>(
    port: &mut P,
    out: &mut Output,
    number: u64,
    word: &[u8],
) -> Result<(), Failed>
    requires { length word.now ≤ 20 }
    ensures text { PutsThrough (P.moves port.old) (P.moves port.new) result out.old out.new
        (refused_line number word.now ++ 10 ∷ []) }
    ensures cause { HasCause (P.write_faults port.old) (P.write_faults port.new) (P.read_faults port.old)
        (P.read_faults port.new) result }
    ensures stops { StopsAtFailure (P.calls port.old) (P.calls port.new) result }
{
    let mut line = BackLine::new();
    write_refused(number, word, &mut line);
    out.put(port, line.bytes())
}

/// Writes the line that refuses a feed before its line feed.
#[inline(never)]
pub(crate) fn write_fault(number: u64, cause: Cause, line: &mut BackLine)
    requires { line.old ≡ 10 ∷ [] }
    ensures text { line.new ≡ due.fault_text number (cause_of_fault cause) ++ 10 ∷ [] }
    ensures fits { length line.new ≤ 50 }
{
    write_refused(number, cause_word(cause), line);
}

/// The line that refuses a feed.
pub fn fault_line(fault: FeedFault) -> BackLine
    ensures { result ≡ due.fault_text fault.line (cause_of_fault fault.cause) ++ 10 ∷ [] }
{
    let mut line = BackLine::new();
    write_fault(fault.line, fault.cause, &mut line);
    line
}

/// Puts the line that refuses a feed, as `put_refused` does.
pub fn put_fault<P: Port>(port: &mut P, out: &mut Output, fault: FeedFault) -> Result<(), Failed>
    ensures text { PutsThrough (P.moves port.old) (P.moves port.new) result out.old out.new
        (due.fault_text fault.line (cause_of_fault fault.cause) ++ 10 ∷ []) }
    ensures cause { HasCause (P.write_faults port.old) (P.write_faults port.new) (P.read_faults port.old)
        (P.read_faults port.new) result }
    ensures stops { StopsAtFailure (P.calls port.old) (P.calls port.new) result }
{
    put_refused(port, out, fault.line, cause_word(fault.cause))
}

/// Puts the line that refuses what is read as the answer. Before it nothing is kept back in `out`.
///
/// # Errors
///
/// `Unwritten` where a write failed.
pub fn refuse<P: Port>(port: &mut P, out: &mut Output, fault: FeedFault) -> Result<Status, Stop>
    requires { out.old ≡ [] }
    ensures answers { Answers (IsRefusal fault) ⊥ (P.moves port.old) (P.moves port.new) out.new result }
    ensures cause { StopCause result
        (P.write_faults port.old) (P.write_faults port.new) (P.read_faults port.old) (P.read_faults port.new) }
    ensures stops { StopsOn result (P.calls port.old) (P.calls port.new) }
{
    match put_fault(port, out, fault) {
        Ok(()) => Ok(Status::Refused),
        Err(_) => Err(Stop::Unwritten),
    }
}
