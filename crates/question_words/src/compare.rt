//! The word `compare`.
ghost use Rattle.std.specs.Prelude.{◌≡◌, IfOk, length};
ghost use Rattle.dover_model.specs.Common.{CostsAtMost, IsListable, IsValid, completed_value, with_factor};
ghost use Rattle.dialogue.specs.Talk.{IsFinal};
ghost use Rattle.event_feed.specs.Listing.{listed_instance, StandAmong};
ghost use Rattle.question_words.specs.Compare.{SaysCompare, by_four, factor_or_two};
ghost use Rattle.question_words.specs.Spending.{CostsRuns};
ghost use Rattle.question_words.specs.Texts.{text_of};

use crate::answer::{Answer, Named, PolicyRow, Rows};
use crate::bounding::put_last_bound;
use crate::completing::completed;
use crate::limits::is_listable;
use crate::observing::observe;
use comparison_count::Comparisons;
use dover_model::{Memory, Ratio, Version};
use dover_port::Status;
use event_feed::Listed;
use line_text::BackLine;
use policy_lab::{Dense, Edf, Outcome, run_policy};
use std::alloc::Global;
use std::sync::ledger::Ledger;

/// What a line tells of a policy's schedule.
fn row(named: Named, outcome: &Outcome) -> PolicyRow
    ensures { result ≡ record {
      named = named;
      value = outcome.now.value;
      completed = outcome.now.completed;
      stops = outcome.now.stops;
    } }
{
    PolicyRow {
        named,
        value: outcome.value,
        completed: outcome.completed,
        stops: outcome.stops,
    }
}

/// The ratio with the factor 2.
fn by_two(ratio: Ratio) -> Ratio
    ensures { result ≡ with_factor ratio 2 1 }
{
    let _known = ratio.factor();
    let Some(doubled) = ratio.with_factor(2, 1) else {
        unreachable!()
    };
    doubled
}

/// The ratio with its factor, or with the factor 2 where it has none.
fn with_some_factor(ratio: Ratio) -> Ratio
    ensures { result ≡ with_factor ratio (factor_or_two ratio.factor).b (factor_or_two ratio.factor).c }
{
    match ratio.factor() {
        Some(_) => ratio,
        None => by_two(ratio),
    }
}

/// The value that the rules of version Four complete of the jobs as they were declared, by their factor, or 2. Memory
/// is taken for the jobs that are ready at once.
fn completed_by_four<L: Ledger>(
    alloc: Global,
    listed: &Listed,
    comparisons: &mut Comparisons<L>,
) -> Result<u64, Memory>
    requires valid { IsValid (listed_instance listed.now) }
    requires listable { IsListable (listed_instance listed.now) }
    ensures value { IfOk result (λ value. value ≡ completed_value (by_four (listed_instance listed.now))) }
    ensures count { CostsAtMost (length listed.now.jobs.items) comparisons.old comparisons.new }
{
    let ratio = with_some_factor(listed.ratio);
    completed(alloc, Version::Four, ratio, &listed.jobs, comparisons)
}

/// Compares the rules with those of version Four and with the policies over the jobs, which these know as the run
/// observed them, and says what came of it: the value that the run completes; the value that version Four completes of
/// the jobs as they were declared; what the schedules by earliest deadline and by greatest density are worth, how many
/// jobs each completes and how often it stops one; and the bound on what any schedule is worth. Jobs that are more, or
/// worth more or due later, than those of version Two may be are refused. Memory is taken for the runs.
pub(crate) fn answer<L: Ledger>(
    alloc: Global,
    listed: Listed,
    comparisons: &mut Comparisons<L>,
) -> Result<Answer, Memory>
    requires valid { IsValid (listed_instance listed) }
    requires among { StandAmong listed.jobs.items listed.done_lines.items }
    ensures says { IfOk result (λ answer. SaysCompare (listed_instance listed) answer.status (text_of answer)) }
    ensures ends { IfOk result (λ answer. IsFinal answer.status) }
    ensures count { CostsRuns 2 (length listed.jobs.items) comparisons.old comparisons.new }
{
    if !is_listable(&listed) {
        return Ok(Answer::too_many(alloc));
    }
    let ratio = listed.ratio;
    let four = completed_by_four(alloc, &listed, comparisons)?;
    let (dover, jobs) = observe(alloc, listed, comparisons)?;
    let edf = run_policy(alloc, &Edf, &jobs)?;
    let dense = run_policy(alloc, &Dense, &jobs)?;
    let mut policies = Vec::new(alloc);
    policies.push(row(Named::Edf, &edf))?;
    policies.push(row(Named::Dense, &dense))?;
    let mut last = BackLine::new();
    put_last_bound(&mut last, dover, ratio);
    let mut head = BackLine::new();
    head.put_with_wide(b"\nfour", &[four]);
    head.put_with_wide(b"dover", &[dover]);
    Ok(Answer {
        status: Status::Done,
        head,
        rows: Rows::Policies(policies, last),
    })
}
