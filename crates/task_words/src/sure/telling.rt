//! What is told of a task.
ghost use Rattle.std.specs.Prelude.{◌≡◌, ◌<◌, ◌≤◌, length, true};
ghost use Rattle.dover_model.specs.Common.{most_value, rules_with};
ghost use Rattle.task_laws.specs.Sure.{is_spread};
ghost use Rattle.root_compare.specs.Least.{least_heavy};
ghost use Rattle.task_words.specs.sure.Kept.{AreSmall, AreSparse, AreSums, told_line};
ghost use Rattle.task_words.specs.sure.Lines.{raise_line, sure_line};
ghost use Rattle.task_words.specs.sure.Streams.{most_against, stream_of, streams_of};

use crate::sure::densities::{Sparse, stays_within};
use crate::sure::sets::most_fitting;
use crate::sure::sums::Sums;
use crate::tasks::PeriodicTask;
use dover_model::jobs::MOST_VALUE;
use dover_model::{Ratio, Version};
use root_compare::{heavy, least_heavy};

/// Of so many jobs of others all sets are tried.
const MOST_TRIED: u64 = 20;

/// What is told of a task.
#[derive(Clone, Copy)]
pub(crate) enum Told {
    /// Other jobs of its own can cross a job's latest start.
    Spread,
    /// Its value is heavy against what can stand against it.
    Sure(u64),
    /// What can stand against it is worth more than a value may be.
    Beyond,
    /// It would be sure with a value that is above the greatest.
    Limit(u64, u64),
    /// It would be sure with a value by which it breaks the ratio.
    Ratio(u64, u64),
    /// It would be sure with this value, and with none below.
    Raise(u64, u64),
}

/// What is known of all tasks together.
#[derive(Clone, Copy)]
pub(crate) struct Together {
    pub(crate) ratio: Ratio,
    pub(crate) version: Version,
    pub(crate) sums: Sums,
    pub(crate) sparse: Sparse,
}

/// Whether no other job of the task can cross the latest start of one.
fn is_spread(task: &PeriodicTask) -> bool
    requires { task.now.work ≤ task.now.deadline }
    ensures { result ≡ is_spread (stream_of task.now) }
{
    task.deadline - task.work < task.period && task.work <= task.period
}

/// What jobs of the other tasks are worth at most that can stand against one of the task. Sets of jobs are tried where
/// the version always chooses by deadline: only there no others hold the processor together.
fn most_against(tasks: &[PeriodicTask], number: usize, version: Version, sums: &Sums) -> u128
    requires small { AreSmall (streams_of tasks.now) }
    requires sums { AreSums (streams_of tasks.now) sums.now }
    requires number { number < length tasks.now }
    ensures { result ≡ most_against version (streams_of tasks.now) number }
{
    if !version.by_density(true) && sums.crossing_beside(tasks, number) <= MOST_TRIED {
        return u128::from(most_fitting(tasks, number));
    }
    sums.worth_beside(tasks, number)
}

/// What is told of a spread task that isn't sure against others that are worth this.
fn tell_raise(tasks: &[PeriodicTask], number: usize, worth: u64, together: &Together) -> Told
    requires small { AreSmall (streams_of tasks.now) }
    requires sparse { AreSparse (streams_of tasks.now) together.now.sparse }
    requires number { number < length tasks.now }
    requires worth { worth ≤ most_value }
    ensures { told_line number result ≡ raise_line together.now.ratio (streams_of tasks.now) number worth
        (least_heavy together.now.ratio worth) }
{
    let value = least_heavy(worth, together.ratio);
    if value > MOST_VALUE {
        return Told::Limit(worth, value);
    }
    if stays_within(tasks, number, value, together.ratio, together.sparse) {
        return Told::Raise(worth, value);
    }
    Told::Ratio(worth, value)
}

/// What is told of the task of this number.
pub(crate) fn tell(tasks: &[PeriodicTask], number: usize, together: &Together) -> Told
    requires small { AreSmall (streams_of tasks.now) }
    requires sums { AreSums (streams_of tasks.now) together.now.sums }
    requires sparse { AreSparse (streams_of tasks.now) together.now.sparse }
    requires number { number < length tasks.now }
    ensures { told_line number result
        ≡ sure_line (rules_with together.now.ratio together.now.version) (streams_of tasks.now) number }
{
    let task = &tasks[number];
    if !is_spread(task) {
        return Told::Spread;
    }
    let against = most_against(tasks, number, together.version, &together.sums);
    if against > u128::from(MOST_VALUE) {
        return Told::Beyond;
    }
    let worth = against as u64;
    if heavy(task.value, worth, together.ratio) {
        return Told::Sure(worth);
    }
    tell_raise(tasks, number, worth, together)
}
