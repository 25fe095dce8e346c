//! What the run of a feed completes, and its jobs as it observed them: what a completed one had stands for its work.
ghost use Rattle.std.specs.Prelude.{◌≡◌, ℕ, IfOk, length, get_or, false};
ghost use Rattle.dover_model.specs.Common.{IsListable, IsValid, observed, completed_value, CostsAtMost};
ghost use Rattle.event_feed.specs.Listing.{listed_instance, StandAmong};
ghost use Rattle.question_words.specs.Loss.{is_completed};

use crate::completing::{Completion, completed, completed_jobs};
use crate::replaying::replayed;
use comparison_count::Comparisons;
use dover_model::{Job, Memory};
use event_feed::Listed;
use std::alloc::Global;
use std::sync::ledger::Ledger;

/// The value that the run completes, and the jobs as it observed them. Where no job can have finished early these are
/// the listed ones.
///
/// # Errors
///
/// `Memory` where there is none.
pub(crate) fn observe<L: Ledger>(
    alloc: Global,
    listed: Listed,
    comparisons: &mut Comparisons<L>,
) -> Result<(u64, Vec<Job>), Memory>
    requires valid { IsValid (listed_instance listed) }
    requires listable { IsListable (listed_instance listed) }
    requires among { StandAmong listed.jobs.items listed.done_lines.items }
    ensures value { IfOk result (λ it. it.0 ≡ completed_value (listed_instance listed)) }
    ensures jobs { IfOk result (λ it. it.1.items ≡ (observed (listed_instance listed)).jobs) }
    ensures count { CostsAtMost (length listed.jobs.items) comparisons.old comparisons.new }
{
    if listed.done_lines.is_empty() {
        let value = completed(
            alloc,
            listed.version,
            listed.ratio,
            &listed.jobs,
            comparisons,
        )?;
        return Ok((value, listed.jobs));
    }
    let (completion, jobs) = replayed(alloc, &listed, comparisons)?;
    Ok((completion.value, jobs))
}

/// The same, with a flag for each job, by its number, whether it is completed.
///
/// # Errors
///
/// `Memory` where there is none.
pub(crate) fn observe_each<L: Ledger>(
    alloc: Global,
    listed: Listed,
    comparisons: &mut Comparisons<L>,
) -> Result<(Completion, Vec<Job>), Memory>
    requires valid { IsValid (listed_instance listed) }
    requires listable { IsListable (listed_instance listed) }
    requires among { StandAmong listed.jobs.items listed.done_lines.items }
    ensures value { IfOk result (λ it. it.0.value ≡ completed_value (listed_instance listed)) }
    ensures done { IfOk result (λ it. (n : ℕ) →
        get_or it.0.done.items n false ≡ is_completed (listed_instance listed) n) }
    ensures jobs { IfOk result (λ it. it.1.items ≡ (observed (listed_instance listed)).jobs) }
    ensures count { CostsAtMost (length listed.jobs.items) comparisons.old comparisons.new }
{
    if listed.done_lines.is_empty() {
        let completion = completed_jobs(alloc, &listed, comparisons)?;
        return Ok((completion, listed.jobs));
    }
    replayed(alloc, &listed, comparisons)
}
