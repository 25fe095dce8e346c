//! What is told at the end of a text that is judged.
ghost use Rattle.std.specs.Prelude.{◌≡◌, ◌++◌, Bool, ℕ, List, [], false};
ghost use Rattle.dialogue.specs.Turns.{AnswersBy, StopCause, StopsOn};
ghost use Rattle.dover_model.specs.Verdict.{verdict};
ghost use Rattle.dover_port.specs.declared.status.Status.{Status};
ghost use Rattle.trace_words.specs.judge.Talk.{Says, judging_talk, SaysVerdict};
ghost use Rattle.trace_words.specs.judge.Talking.{IsClosed};

use crate::judge::lines::{put_verdict, status_of};
use dialogue::Stop;
use dover_port::{Output, Port, Status};
use trace_judge::Closed;

/// What tells the judge's last word on a text.
pub trait Teller: Drop {
    /// What it says.
    ghost says: { Self → Says };

    /// Where memory may be lacking.
    ghost lacks: { List ℕ → Bool → Type 0 };

    /// Whether it tells of the steps of the run, which the judge then has to keep.
    ghost keeps: { Bool };

    /// What holds of it, whatever the text is. It does nothing.
    fn laws()
        ensures stays { (t : Self) (x y : List ℕ) (status : Status) (text : List ℕ) →
            verdict (x ++ y) ≡ verdict x → says t status x text → says t status (x ++ y) text }
        ensures lacking { (x : List ℕ) → lacks x false };

    /// Puts what it says. Before it nothing is kept back in `out`.
    ///
    /// # Errors
    ///
    /// `NoMemory` where there was none, of which nothing was put then, and `Unwritten` where a write failed.
    fn tell<P: Port>(self, port: &mut P, out: &mut Output, closed: Closed) -> Result<Status, Stop>
        requires empty { out.old ≡ [] }
        requires closed { (x : List ℕ) × IsClosed keeps closed x }
        ensures answers { (x : List ℕ) (ended : Bool) → IsClosed keeps closed x →
            AnswersBy (judging_talk (says self) lacks) x ended (P.moves port.old) (P.moves port.new) out.new result }
        ensures cause { StopCause result
            (P.write_faults port.old) (P.write_faults port.new) (P.read_faults port.old) (P.read_faults port.new) }
        ensures stops { StopsOn result (P.calls port.old) (P.calls port.new) };
}

/// Tells the line of the verdict.
#[derive(Drop)]
pub(crate) struct VerdictLine;

impl Teller for VerdictLine {
    ghost says = { λ t. SaysVerdict };

    ghost lacks = { λ bytes ended. ended ≡ false };

    ghost keeps = { false };

    fn laws() {}

    fn tell<P: Port>(self, port: &mut P, out: &mut Output, closed: Closed) -> Result<Status, Stop> {
        let verdict = closed.verdict;
        drop(closed);
        match put_verdict(port, out, &verdict) {
            Ok(()) => Ok(status_of(&verdict)),
            Err(_) => Err(Stop::Unwritten),
        }
    }
}
