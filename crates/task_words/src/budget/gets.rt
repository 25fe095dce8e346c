//! How often a job of a task gets the processor at most.
ghost use Rattle.std.specs.Prelude.{◌≡◌, ◌<◌, ◌≤◌, length};
ghost use Rattle.dover_model.specs.declared.events.Version.TheVariants.{Two};
ghost use Rattle.dover_model.specs.Limits.{last_tick_in, most_value};
ghost use Rattle.task_words.specs.budget.Budgets.{most_gets, most_preempting, most_taking, task_at};
ghost use Rattle.task_words.specs.sure.Kept.{AreSmall};
ghost use Rattle.task_words.specs.sure.Streams.{streams_of};

use crate::tasks::PeriodicTask;
use dover_model::Ratio;
use root_compare::heavy;

/// How many jobs of the other task may preempt one of the task. The other's period isn't 0.
fn most_preempting(task: &PeriodicTask, other: &PeriodicTask) -> u64
    requires period { 1 ≤ other.now.period }
    ensures is { result ≡ most_preempting task.now other.now }
    ensures few { result ≤ task.now.deadline }
{
    if other.deadline >= task.deadline {
        return 0;
    }
    (task.deadline - other.deadline).div_ceil(other.period)
}

/// How many jobs of the other task may take the processor from one of the task. The other's period isn't 0.
fn most_taking(task: &PeriodicTask, other: &PeriodicTask, ratio: Ratio) -> u64
    requires period { 1 ≤ other.now.period }
    requires value { other.now.value ≤ most_value }
    requires deadline { task.now.deadline ≤ last_tick_in Two }
    requires other { 1 ≤ other.now.deadline }
    requires late { other.now.deadline ≤ last_tick_in Two }
    ensures is { result ≡ most_taking ratio task.now other.now }
    ensures few { result ≤ 2_000_000_000_000 }
{
    if !heavy(other.value, task.value, ratio) {
        return 0;
    }
    (task.deadline + other.deadline - 1).div_ceil(other.period)
}

/// How often a job of the task of this number gets the processor at most, where all jobs are of these tasks.
pub(crate) fn most_gets(tasks: &[PeriodicTask], number: usize, ratio: Ratio) -> u64
    requires small { AreSmall (streams_of tasks.now) }
    requires number { number < length tasks.now }
    ensures { result ≡ most_gets ratio tasks.now (task_at tasks.now number) }
{
    let task = &tasks[number];
    let mut gets = 1u64;
    for other in tasks {
        gets += most_preempting(task, other);
        gets += most_taking(task, other, ratio);
    }
    gets
}
