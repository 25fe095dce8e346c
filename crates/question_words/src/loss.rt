//! The word `loss`.
ghost use Rattle.std.specs.Prelude.{◌≡◌, ◌≤◌, IfOk, length, map, get_or, false};
ghost use Rattle.dover_model.specs.Common.{IsInOrder, IsValid, IsJob, most_jobs, Each, CostsAtMost};
ghost use Rattle.dover_model.specs.declared.events.Version.TheVariants.{Two};
ghost use Rattle.dialogue.specs.Talk.{IsFinal};
ghost use Rattle.event_feed.specs.Listing.{listed_instance, StandAmong};
ghost use Rattle.question_words.specs.Loss.{SaysLoss, row_of};
ghost use Rattle.question_words.specs.Texts.{text_of};

use crate::answer::{Answer, Rows, StretchRow};
use crate::bounding::put_bound;
use crate::limits::is_listable;
use crate::observing::observe_each;
use clairvoyant::overload::{Stretch, cost_of, value_inside};
use comparison_count::Comparisons;
use dover_model::{Job, Memory};
use dover_port::Status;
use event_feed::Listed;
use line_text::BackLine;
use std::alloc::Global;
use std::sync::ledger::Ledger;

/// The stretches, with what is done of the jobs inside.
fn rows(
    alloc: Global,
    jobs: &[Job],
    stretches: &[Stretch],
    done: &[bool],
) -> Result<Vec<StretchRow>, Memory>
    requires in_order { IsInOrder jobs.now }
    requires count { length jobs.now ≤ most_jobs Two }
    requires each { Each IsJob jobs.now }
    ensures { IfOk result (λ rows. rows.items ≡ map (row_of jobs.now (λ n. get_or done.now n false)) stretches.now) }
{
    let mut rows = Vec::new(alloc);
    for x in stretches {
        let value = value_inside(jobs, done, x.from, x.until);
        rows.push(StretchRow {
            from: x.from,
            until: x.until,
            total: x.total,
            cap: x.cap,
            value,
        })?;
    }
    Ok(rows)
}

/// Finds where the jobs, as the run observed them, have more work than there are ticks, and says what came of it: what
/// all jobs are worth, the value that the run completes, what no schedule is worth more than, and the bound on what any
/// schedule is worth; and for each stretch of ticks, what the jobs that are released and due in it are worth, what no
/// schedule of these is worth more than, and what the run completes of them. Jobs beyond the limits of version Two are
/// refused. Memory is taken for the search and for the run.
pub(crate) fn answer<L: Ledger>(
    alloc: Global,
    listed: Listed,
    comparisons: &mut Comparisons<L>,
) -> Result<Answer, Memory>
    requires valid { IsValid (listed_instance listed) }
    requires among { StandAmong listed.jobs.items listed.done_lines.items }
    ensures says { IfOk result (λ answer. SaysLoss (listed_instance listed) answer.status (text_of answer)) }
    ensures ends { IfOk result (λ answer. IsFinal answer.status) }
    ensures count { CostsAtMost (length listed.jobs.items) comparisons.old comparisons.new }
{
    if !is_listable(&listed) {
        return Ok(Answer::too_many(alloc));
    }
    let ratio = listed.ratio;
    let (completed, jobs) = observe_each(alloc, listed, comparisons)?;
    let costed = cost_of(alloc, &jobs, completed.value)?;
    let rows = rows(alloc, &jobs, &costed.stretches, &completed.done)?;
    let mut head = BackLine::new();
    put_bound(&mut head, completed.value, ratio);
    head.put_with_wide(b"\nceiling", &[costed.cap]);
    head.put_with_wide(b"\nvalue", &[completed.value]);
    head.put_with_wide(b"total", &[costed.total]);
    Ok(Answer {
        status: Status::Done,
        head,
        rows: Rows::Stretches(rows),
    })
}
