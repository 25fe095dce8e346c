//! A trace's line as bytes.
ghost use Rattle.std.specs.Prelude.{◌≡◌, ◌∷◌, ◌++◌, [], codes};
ghost use Rattle.dover_model.specs.Common.{AreShort, job_numbers, step_numbers, with_numbers};
ghost use Rattle.dover_model.specs.Text as form;

use crate::BackLine;
use dover_model::{Event, Job, Refusal};

/// Writes the line of a release before its line feed.
#[inline(always)]
fn write_release(number: u32, job: &Job, to: &mut BackLine)
    requires numbers { AreShort (number ∷ job_numbers job.now) }
    requires empty { to.old ≡ 10 ∷ [] }
    ensures { to.new ≡ with_numbers (codes "job") (number ∷ job_numbers job.now) ++ 10 ∷ [] }
{
    // In two parts, since the compiler unrolls a loop over three numbers, and none over five.
    to.put_numbers(&[job.work(), job.deadline(), job.value()]);
    to.put_with_numbers(b"job", &[u64::from(number), job.release()]);
}

/// Writes the line of a printed step before its line feed.
#[inline(always)]
pub fn write_event(e: &Event, to: &mut BackLine)
    requires numbers { AreShort (step_numbers e.now) }
    requires empty { to.old ≡ 10 ∷ [] }
    ensures { to.new ≡ form.text_of e.now ++ 10 ∷ [] }
{
    match e {
        Event::Release { number, job } => write_release(*number, job, to),
        Event::Run { at, number } => to.put_with_numbers(b"run", &[*at, u64::from(*number)]),
        Event::Preempt { at, stops, starts } => {
            to.put_with_numbers(b"preempt", &[*at, u64::from(*stops), u64::from(*starts)])
        }
        Event::Take { at, stops, starts } => {
            to.put_with_numbers(b"take", &[*at, u64::from(*stops), u64::from(*starts)])
        }
        Event::Complete { at, number } => {
            to.put_with_numbers(b"complete", &[*at, u64::from(*number)])
        }
        Event::Abandon { at, number } => {
            to.put_with_numbers(b"abandon", &[*at, u64::from(*number)])
        }
        Event::End { value } => to.put_with_numbers(b"end", &[*value]),
    }
}

/// The word for why a job line is refused.
pub fn refusal_word(cause: Refusal) -> &'static [u8]
    ensures { result.now ≡ form.refusal_word cause }
{
    match cause {
        Refusal::BadJob => b"job",
        Refusal::Count => b"count",
        Refusal::Total => b"total",
        Refusal::Ratio => b"ratio",
        Refusal::Late => b"order",
        Refusal::Full => b"full",
    }
}
