//! The line of a verdict on its way out.
ghost use Rattle.std.specs.Prelude.{◌≡◌, ◌++◌, ◌∷◌, [], List, ℕ, codes};
ghost use Rattle.dover_model.specs.Lines.{with_numbers};
ghost use Rattle.dover_model.specs.Verdict as model;
ghost use Rattle.dover_port.specs.Causes.{HasCause, StopsAtFailure};
ghost use Rattle.dover_port.specs.Moves.{PutsThrough};
ghost use Rattle.trace_judge.specs.Judging.{Tells};
ghost use Rattle.trace_judge.specs.Reads.{expected_of};
ghost use Rattle.trace_words.specs.judge.Line.{status_of, wrong_front, expected_text, verdict_text};

use dialogue::lines::put_numbers;
use dover_port::{Failed, Output, Port, Status};
use line_text::BackLine;
use line_text::traces::write_event;
use trace_judge::{Expected, Verdict};

/// The line of an accepted trace, whose bound may have 28 digits.
fn accepted_line(value: u64, bound: u128) -> BackLine
    ensures { result ≡ with_numbers (codes "accepted") (value ∷ bound ∷ []) ++ 10 ∷ [] }
{
    let mut line = BackLine::new();
    line.put_long(bound);
    line.put_word(b" ");
    line.put_with_wide(b"accepted", &[value]);
    line
}

/// What stands before the text of what is due, in the line of a wrong text.
fn wrong_front(number: u64) -> BackLine
    ensures { result ≡ wrong_front number }
{
    let mut line = BackLine::empty();
    line.put_word(b" expected ");
    line.put_with_wide(b"wrong", &[number]);
    line
}

/// The text of what is due in place of the wrong line of a text, and the end of the line.
fn due_line(expected: Expected) -> BackLine
    requires { (text : List ℕ) × (line : ℕ) × (model.verdict text ≡ model.Wrong line (expected_of expected)) }
    ensures { result ≡ expected_text (expected_of expected) ++ 10 ∷ [] }
{
    let mut line = BackLine::new();
    match expected {
        Expected::Header => line.put_word(b"header"),
        Expected::Step(event) => write_event(&event, &mut line),
        Expected::Nothing => line.put_word(b"nothing"),
    }
    line
}

/// Puts the line of a text that is wrong.
fn put_wrong<P: Port>(
    port: &mut P,
    out: &mut Output,
    number: u64,
    expected: Expected,
) -> Result<(), Failed>
    requires { (text : List ℕ) × (model.verdict text ≡ model.Wrong number (expected_of expected)) }
    ensures text { PutsThrough (P.moves port.old) (P.moves port.new) result out.old out.new
        (verdict_text (model.Wrong number (expected_of expected))) }
    ensures cause { HasCause
        (P.write_faults port.old) (P.write_faults port.new) (P.read_faults port.old) (P.read_faults port.new) result }
    ensures stops { StopsAtFailure (P.calls port.old) (P.calls port.new) result }
{
    match out.put(port, wrong_front(number).bytes()) {
        Ok(()) => {}
        Err(failed) => return Err(failed),
    }
    out.put(port, due_line(expected).bytes())
}

/// The status of a verdict: `Done` where the text is accepted, and else `No`.
pub fn status_of(verdict: &Verdict) -> Status
    ensures { result ≡ status_of verdict.now }
{
    match verdict {
        Verdict::Accepted { .. } => Status::Done,
        Verdict::Wrong { .. } => Status::No,
        Verdict::Short { .. } => Status::No,
    }
}

/// Puts the line of a verdict, or keeps it back in `out`. An `Err`: a write failed, and a front of what was kept back
/// and of the line was put, but not all of it.
pub fn put_verdict<P: Port>(port: &mut P, out: &mut Output, verdict: &Verdict) -> Result<(), Failed>
    requires { (text : List ℕ) × Tells verdict.now text }
    ensures text { (text : List ℕ) → Tells verdict.now text →
        PutsThrough (P.moves port.old) (P.moves port.new) result out.old out.new (verdict_text (model.verdict text)) }
    ensures cause { HasCause
        (P.write_faults port.old) (P.write_faults port.new) (P.read_faults port.old) (P.read_faults port.new) result }
    ensures stops { StopsAtFailure (P.calls port.old) (P.calls port.new) result }
{
    match verdict {
        Verdict::Accepted { value, bound, .. } => {
            out.put(port, accepted_line(*value, *bound).bytes())
        }
        Verdict::Wrong { line, expected } => put_wrong(port, out, *line, *expected),
        Verdict::Short { lines } => put_numbers(port, out, b"short", &[*lines]),
    }
}
