//! A job with a firm deadline.
ghost use Rattle.std.specs.Prelude.{◌≡◌, ◌≤◌, length};
ghost use Rattle.dover_model.specs.declared.events.Version.TheVariants.{Two};
ghost use Rattle.dover_model.specs.Instance.{last_deadline, total_value};
ghost use Rattle.dover_model.specs.JobFacts.{IsJob};
ghost use Rattle.dover_model.specs.Limits.{last_tick, most_jobs};
ghost use Rattle.dover_model.specs.Sound.{Each};

use std::marker::Model;

/// The last tick that a release or a deadline may name in any version. `Version::last_tick` is that of one.
pub const LAST_TICK: u64 = 10_000_000_000_000_000;

/// The most ticks of work that a job may need.
pub const MOST_WORK: u64 = 1_000_000_000_000;

/// The greatest value of a job.
pub const MOST_VALUE: u64 = 1_000_000_000;

/// A job becomes known at its release, and is worth its value if it gets `work` ticks before its deadline.
#[derive(Clone, Copy, Debug, PartialEq, Eq)]
pub struct Job {
    release: u64,
    work: u64,
    deadline: u64,
    value: u64,
}

impl Model for Job {
    ghost use Rattle.dover_model.specs.JobFacts.{JobFacts, IsJob};

    ghost Value = { JobFacts };

    ghost view = { λ j. record { release = j.release; work = j.work; deadline = j.deadline; value = j.value } };

    ghost invariant = { λ j. IsJob
        (record { release = j.release; work = j.work; deadline = j.deadline; value = j.value }) };

    ghost inverse = { λ j. record { release = j.release; work = j.work; deadline = j.deadline; value = j.value } };
}

impl Job {
    ghost use Rattle.std.specs.Prelude.{◌≡◌, ◌↔◌, IsSome, IfSome};
    ghost use Rattle.dover_model.specs.JobFacts.{IsJob};

    /// None exactly where a limit of one job is broken.
    pub fn new(release: u64, work: u64, deadline: u64, value: u64) -> Option<Job>
        ensures allowed { IsSome result ↔ IsJob
            (record { release = release; work = work; deadline = deadline; value = value }) }
        ensures facts { IfSome result
            (λ job. job ≡ record { release = release; work = work; deadline = deadline; value = value }) }
    {
        if work < 1 || work > MOST_WORK || value < 1 || value > MOST_VALUE {
            return None;
        }
        if deadline > LAST_TICK || deadline < work || deadline - work < release {
            return None;
        }
        Some(Job::of(release, work, deadline, value))
    }

    /// The job of these numbers, which keep the limits of one job.
    #[inline(always)]
    pub fn of(release: u64, work: u64, deadline: u64, value: u64) -> Job
        requires { IsJob (record { release = release; work = work; deadline = deadline; value = value }) }
        ensures { result ≡ record { release = release; work = work; deadline = deadline; value = value } }
    {
        Job {
            release,
            work,
            deadline,
            value,
        }
    }

    /// The tick from which it may run, and at which it becomes known: at most 10^16.
    pub fn release(&self) -> u64
        ensures is { result ≡ self.now.release }
        ensures job { IsJob self.now }
    {
        self.release
    }

    /// The ticks of work that it needs: 1 to 10^12.
    pub fn work(&self) -> u64
        ensures is { result ≡ self.now.work }
        ensures job { IsJob self.now }
    {
        self.work
    }

    /// The tick by which it is due: at most 10^16, and late enough for all its work behind its release.
    pub fn deadline(&self) -> u64
        ensures is { result ≡ self.now.deadline }
        ensures job { IsJob self.now }
    {
        self.deadline
    }

    /// What it is worth if it completes in time: 1 to 10^9.
    pub fn value(&self) -> u64
        ensures is { result ≡ self.now.value }
        ensures job { IsJob self.now }
    {
        self.value
    }
}

/// The sum of the values of these jobs, at most 1,000,000.
pub fn total_value(jobs: &[Job]) -> u64
    requires { length jobs.now ≤ most_jobs Two }
    ensures is { result ≡ total_value jobs.now }
    ensures jobs { Each IsJob jobs.now }
{
    let mut value = 0;
    for job in jobs {
        value += job.value();
    }
    value
}

/// The greatest deadline of these jobs, 0 where there is none.
pub fn last_deadline(jobs: &[Job]) -> u64
    ensures is { result ≡ last_deadline jobs.now }
    ensures known { result ≤ last_tick }
{
    let mut last = 0;
    for job in jobs {
        let due = job.deadline();
        if last <= due {
            last = due;
        }
    }
    last
}
