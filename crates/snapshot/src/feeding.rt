//! The lines of a feed, handed in again.
ghost use Rattle.std.specs.Prelude.{◌≡◌, ℕ, List, [], ◌∷◌, ◌++◌, length, false, IfSome, IsNone, is_some};
ghost use Rattle.dover_model.specs.Common.{IsValidSession, Item, JobItem, FinishItem, EarlyFinish, job_numbers};
ghost use Rattle.dover_model.specs.Common.{AreShort};
ghost use Rattle.dover_model.specs.Common.{HasNumerals, DoneLine, feed_text, IsDeclarable};
ghost use Rattle.line_text.specs.feeds.Form.{form_of};
ghost use Rattle.event_feed.specs.Kept.{StandsFor, has_ended};
ghost use Rattle.snapshot.specs.Snapshot as model;
ghost use Rattle.snapshot.specs.Reading.{stored};
ghost use Rattle.snapshot.specs.Forms.{head_in, task_in};
ghost use Rattle.snapshot.specs.Kept.{IsFed, IsRightAt, feed_lines, HasRoom, IsGoodNext, CanPause, job_in};

use crate::forms::{Head, StateLine};
use dover_model::Job;
use event_feed::{Fed, Intake, rules_line};
use line_text::feeds::FeedLine;

/// Hands in a line that isn't at fault and doesn't end the feed.
fn hand(intake: &mut Intake, line: FeedLine)
    requires numerals { HasNumerals (form_of line) }
    requires unended { has_ended intake.old ≡ false }
    requires good { (ls : List (List ℕ)) × IsGoodNext intake.old ls (feed_text (form_of line)) }
    ensures stands { (ls : List (List ℕ)) → StandsFor intake.old ls
        → StandsFor intake.new (ls ++ feed_text (form_of line) ∷ []) }
{
    let Ok(_) = intake.form(line) else {
        unreachable!();
    };
}

/// An intake that was handed the line of the ratio.
pub(crate) fn begin(head: &Head) -> Intake
    requires { IsDeclarable (head_in head.now).rules }
    ensures { IsFed result (head_in head.now) [] }
{
    let mut intake = Intake::new();
    hand(&mut intake, rules_line(head.ratio, head.version));
    intake
}

/// Whether a job is offered.
#[inline(always)]
fn is_job(fed: Fed) -> bool
    ensures { result ≡ is_some (job_in fed) }
{
    matches!(fed, Fed::Job(..))
}

/// Hands in the line of a job. The job comes exactly where it makes a valid session of what was handed in.
pub(crate) fn hand_job(intake: &mut Intake, state: &StateLine) -> Option<Job>
    requires numerals { AreShort (job_numbers (task_in state.now).job) }
    requires fed { (h : model.Head) × (items : List Item) × IsFed intake.old h items × HasRoom h items }
    ensures some { (h : model.Head) (items : List Item) → IsFed intake.old h items → HasRoom h items
        → IfSome result (λ job. (job ≡ (task_in state.now).job)
        × IsValidSession (stored h (items ++ JobItem job ∷ [])) × IsFed intake.new h (items ++ JobItem job ∷ [])) }
    ensures none { (h : model.Head) (items : List Item) → IsFed intake.old h items → HasRoom h items → IsNone result
        → IsValidSession (stored h (items ++ JobItem (task_in state.now).job ∷ [])) → ⊥ }
{
    let line = FeedLine::Job {
        release: state.release,
        work: state.work,
        deadline: state.deadline,
        value: state.value,
    };
    match intake.form(line) {
        Ok(fed) => {
            if !is_job(fed) {
                return None;
            }
            // Made of its numbers again, it needn't be carried through the answer.
            let Some(job) = Job::new(state.release, state.work, state.deadline, state.value) else {
                return None;
            };
            intake.accept(job);
            Some(job)
        }
        Err(_) => None,
    }
}

/// Hands in the line of an early finish, which is right.
pub(crate) fn hand_done(intake: &mut Intake, at: u64, number: u64)
    requires numerals { HasNumerals (DoneLine at number) }
    requires fed { (h : model.Head) × (items : List Item) × (f : EarlyFinish) × IsFed intake.old h items
        × IsRightAt h items at number f }
    ensures { (h : model.Head) (items : List Item) (f : EarlyFinish) → IsFed intake.old h items
        → IsRightAt h items at number f → IsFed intake.new h (items ++ FinishItem f ∷ []) }
{
    hand(intake, FeedLine::Done { at, number });
}

/// Hands in tick lines at the mark for the lines that are left of the feed behind those of so many items.
pub(crate) fn hand_ticks(intake: &mut Intake, head: &Head, handed: u64)
    requires { (items : List Item) × IsFed intake.old (head_in head.now) items × CanPause (head_in head.now) items
        × (handed ≡ length items) }
    ensures stands { (items : List Item) → IsFed intake.old (head_in head.now) items
        → CanPause (head_in head.now) items → handed ≡ length items
        → StandsFor intake.new (feed_lines (head_in head.now) items) }
{
    if head.lines > handed + 1 {
        hand(intake, FeedLine::Tick { at: head.mark });
        intake.skip(head.lines - handed - 2);
    }
}
