//! Sets of jobs of other tasks whose work fits the greatest span among them.
ghost use Rattle.std.specs.Prelude.{◌≡◌, ◌<◌, ◌≤◌, ◌*◌, ◌-◌, ◌+◌, length};
ghost use Rattle.dover_model.specs.Common.{most_value, most_work};
ghost use Rattle.task_laws.specs.Sure.{best_of, most_fitting};
ghost use Rattle.task_words.specs.sure.Kept.{AreSmall, copies, left_from};
ghost use Rattle.task_words.specs.sure.Streams.{count_beside, streams_of};

use crate::sure::sums::most_crossing;
use crate::tasks::PeriodicTask;

/// A set of jobs: their work, the greatest span among them, and their value.
#[derive(Clone, Copy)]
pub(crate) struct Chosen {
    pub(crate) work: u64,
    pub(crate) span: u64,
    pub(crate) value: u64,
}

/// How many jobs of task `next` can stand beside one of task `number`.
fn copies_of(tasks: &[PeriodicTask], number: usize, next: usize) -> u64
    requires small { AreSmall (streams_of tasks.now) }
    requires next { next < length tasks.now }
    ensures { result ≡ copies (streams_of tasks.now) number next }
{
    if next == number {
        return 0;
    }
    most_crossing(&tasks[next])
}

/// The greatest worth of some of the jobs that are left, so many of task `next` and all of the tasks behind it but
/// those of task `number`, together with the chosen ones, where all work is at most the greatest span.
fn best_of(tasks: &[PeriodicTask], number: usize, next: usize, left: u64, chosen: Chosen) -> u64
    requires small { AreSmall (streams_of tasks.now) }
    requires next { next < length tasks.now }
    requires few { length (left_from (streams_of tasks.now) number next left) ≤ 20 }
    requires work { chosen.work + length (left_from (streams_of tasks.now) number next left) * most_work
        ≤ 20 * most_work }
    requires value { chosen.value + length (left_from (streams_of tasks.now) number next left) * most_value
        ≤ 20 * most_value }
    ensures { result ≡ best_of (left_from (streams_of tasks.now) number next left) chosen.work chosen.span
        chosen.value }
{
    if left > 0 {
        let task = &tasks[next];
        let with = Chosen {
            work: chosen.work + task.work,
            span: chosen.span.max(task.deadline),
            value: chosen.value + task.value,
        };
        let without = best_of(tasks, number, next, left - 1, chosen);
        return without.max(best_of(tasks, number, next, left - 1, with));
    }
    if next + 1 < tasks.len() {
        let more = copies_of(tasks, number, next + 1);
        return best_of(tasks, number, next + 1, more, chosen);
    }
    if chosen.work <= chosen.span {
        chosen.value
    } else {
        0
    }
}

/// What jobs of the other tasks are worth at most whose work is at most the greatest span among them. At most 20 jobs
/// of others can cross one tick.
pub(crate) fn most_fitting(tasks: &[PeriodicTask], number: usize) -> u64
    requires small { AreSmall (streams_of tasks.now) }
    requires number { number < length tasks.now }
    requires few { count_beside (streams_of tasks.now) number ≤ 20 }
    ensures is { result ≡ most_fitting (streams_of tasks.now) number }
{
    let chosen = Chosen {
        work: 0,
        span: 0,
        value: 0,
    };
    best_of(tasks, number, 0, copies_of(tasks, number, 0), chosen)
}
