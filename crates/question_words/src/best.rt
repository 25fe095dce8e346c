//! The word `best`.
ghost use Rattle.std.specs.Prelude.{◌↔◌, IfOk, IsTrue, length};
ghost use Rattle.dover_model.specs.Common.{IsValid, CostsAtMost};
ghost use Rattle.dialogue.specs.Talk.{IsFinal};
ghost use Rattle.event_feed.specs.Listing.{listed_instance, StandAmong};
ghost use Rattle.question_words.specs.Best.{IsFew, SaysBest};
ghost use Rattle.question_words.specs.Texts.{text_of};

use crate::answer::{Answer, Rows};
use crate::bounding::put_bound;
use crate::limits::is_listable;
use crate::observing::observe;
use clairvoyant::best::best;
use comparison_count::Comparisons;
use dover_model::Memory;
use dover_port::Status;
use event_feed::Listed;
use line_text::BackLine;
use std::alloc::Global;
use std::sync::ledger::Ledger;

/// The most jobs of which the best set is sought.
const MOST_JOBS: usize = 20;

/// Whether the best set of the jobs is sought.
fn is_sought(listed: &Listed) -> bool
    ensures { IsTrue result ↔ IsFew (listed_instance listed.now) }
{
    listed.jobs.len() <= MOST_JOBS && is_listable(listed)
}

/// Finds the best set of the jobs, as the run observed them, and says what came of it: how many jobs there are, what
/// the best set of them that one schedule serves is worth, the value that the run completes, the bound on what any
/// schedule is worth, and the schedule of the best set, in stretches of one job. More than 20 jobs are refused, and
/// jobs beyond the limits of version Two. Memory is taken for the search and for the run.
pub(crate) fn answer<L: Ledger>(
    alloc: Global,
    listed: Listed,
    comparisons: &mut Comparisons<L>,
) -> Result<Answer, Memory>
    requires valid { IsValid (listed_instance listed) }
    requires among { StandAmong listed.jobs.items listed.done_lines.items }
    ensures says { IfOk result (λ answer. SaysBest (listed_instance listed) answer.status (text_of answer)) }
    ensures ends { IfOk result (λ answer. IsFinal answer.status) }
    ensures count { CostsAtMost (length listed.jobs.items) comparisons.old comparisons.new }
{
    if !is_sought(&listed) {
        return Ok(Answer::too_many(alloc));
    }
    let ratio = listed.ratio;
    let (value, jobs) = observe(alloc, listed, comparisons)?;
    // There are as many jobs as before.
    let Ok(best) = best(alloc, &jobs) else {
        return Err(Memory);
    };
    let mut head = BackLine::new();
    put_bound(&mut head, value, ratio);
    head.put_with_wide(b"\nvalue", &[value]);
    head.put_with_wide(b"\noptimum", &[best.value]);
    head.put_with_wide(b"jobs", &[jobs.len() as u64]);
    Ok(Answer {
        status: Status::Done,
        head,
        rows: Rows::Pieces(best.pieces),
    })
}
