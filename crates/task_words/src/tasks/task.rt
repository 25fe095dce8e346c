//! A periodic task.
ghost use Rattle.std.specs.Prelude.{◌≡◌, ◌+◌, ◌-◌, ◌*◌, ◌^◌, ◌≤◌, ◌<◌};
ghost use Rattle.task_words.specs.tasks.Tasks as model;

use crate::tasks::name::TaskName;

/// A task that releases a job at its offset, and one more each period. Times are in ticks. Its numbers may be out of
/// all limits.
#[derive(Clone, Copy)]
pub struct PeriodicTask {
    /// The tick of the first release.
    pub offset: u64,
    /// The ticks from one release to the next.
    pub period: u64,
    /// The work of each job.
    pub work: u64,
    /// The ticks from a job's release to its deadline.
    pub deadline: u64,
    /// The value of each job.
    pub value: u64,
    /// The name, if it has one. It says nothing of the jobs.
    pub name: TaskName,
}

impl PeriodicTask {
    /// How many jobs are released before a tick. The period isn't 0.
    pub fn count_before(&self, until: u64) -> u64
        requires { 1 ≤ self.now.period }
        ensures is { result ≡ model.count_before until self.now }
        ensures few { result ≤ until }
    {
        until.saturating_sub(self.offset).div_ceil(self.period)
    }

    /// The last release before a tick, or the first where none is before it. The period isn't 0.
    pub fn last_release(&self, until: u64) -> u64
        requires period { 1 ≤ self.now.period }
        requires small { self.now.offset + until < 2 ^ 64 }
        ensures is { result ≡ self.now.offset + (model.count_before until self.now - 1) * self.now.period }
        ensures late { result ≤ self.now.offset + until }
    {
        let more = self.count_before(until).saturating_sub(1);
        self.offset + more * self.period
    }
}
