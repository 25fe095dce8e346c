//! How many jobs of all tasks can cross one tick, and what they are worth.
ghost use Rattle.std.specs.Prelude.{◌≡◌, ◌<◌, ◌≤◌, ◌*◌, ◌-◌, ◌+◌, length};
ghost use Rattle.task_laws.specs.Sure.{most_beside, most_crossing};
ghost use Rattle.task_words.specs.sure.Kept.{AreSmall, AreSums};
ghost use Rattle.task_words.specs.sure.Streams.{count_beside, stream_of, streams_of};

use crate::tasks::PeriodicTask;

/// The sums over all tasks.
#[derive(Clone, Copy)]
pub(crate) struct Sums {
    /// How many jobs can cross one tick.
    pub(crate) crossing: u64,
    /// What these jobs are worth.
    pub(crate) worth: u128,
}

/// How many jobs of the task can cross one tick. The period isn't 0.
pub(crate) fn most_crossing(task: &PeriodicTask) -> u64
    requires { 1 ≤ task.now.period }
    ensures { result ≡ most_crossing (stream_of task.now) }
{
    task.deadline.div_ceil(task.period)
}

/// The sums over these tasks.
pub(crate) fn sum_up(tasks: &[PeriodicTask]) -> Sums
    requires { AreSmall (streams_of tasks.now) }
    ensures { AreSums (streams_of tasks.now) result }
{
    let mut crossing = 0u64;
    let mut worth = 0u128;
    for task in tasks {
        let more = most_crossing(task);
        crossing += more;
        worth += u128::from(more) * u128::from(task.value);
    }
    Sums { crossing, worth }
}

impl Sums {
    /// How many jobs of the other tasks can cross one tick.
    pub(crate) fn crossing_beside(&self, tasks: &[PeriodicTask], number: usize) -> u64
        requires small { AreSmall (streams_of tasks.now) }
        requires sums { AreSums (streams_of tasks.now) self.now }
        requires number { number < length tasks.now }
        ensures { result ≡ count_beside (streams_of tasks.now) number }
    {
        self.crossing - most_crossing(&tasks[number])
    }

    /// What the jobs of the other tasks are worth that can cross one tick.
    pub(crate) fn worth_beside(&self, tasks: &[PeriodicTask], number: usize) -> u128
        requires small { AreSmall (streams_of tasks.now) }
        requires sums { AreSums (streams_of tasks.now) self.now }
        requires number { number < length tasks.now }
        ensures { result ≡ most_beside (streams_of tasks.now) number }
    {
        let task = &tasks[number];
        self.worth - u128::from(most_crossing(task)) * u128::from(task.value)
    }
}
