//! What the machine prints, and what a job is to it.
use crate::jobs::{Job, LAST_TICK};

/// The version of a feed: how ties are broken, whether a job that isn't admitted ends the feed, and whether jobs may
/// finish early.
#[derive(Clone, Copy, Debug, PartialEq, Eq)]
pub enum Version {
    /// Ties by the smaller number; a job that isn't admitted ends the feed.
    One,
    /// Ties by the greater value, and then by the smaller number; a job that isn't admitted is passed over.
    Two,
    /// As Two, and jobs may finish early; a job that comes too late, and a done line that isn't right, are passed over.
    Three,
    /// As Three, and once a job was abandoned waiting jobs are chosen by density, until a completion leaves no job
    /// ready.
    Four,
}

impl Version {
    ghost use Rattle.std.specs.Prelude.{◌≡◌, ◌≤◌};
    ghost use Rattle.dover_model.specs.Limits as limits;
    ghost use Rattle.dover_model.specs.Orders as orders;
    ghost use Rattle.dover_model.specs.Session as session;
    ghost use Rattle.dover_model.specs.Text.{version_number};
    ghost use Rattle.dover_model.specs.Verdict.{version_of_number};

    /// The version of this number, if it has one.
    pub fn from_number(number: u64) -> Option<Version>
        ensures { result ≡ version_of_number number }
    {
        match number {
            1 => Some(Version::One),
            2 => Some(Version::Two),
            3 => Some(Version::Three),
            4 => Some(Version::Four),
            _ => None,
        }
    }

    /// The number of this version.
    #[inline(always)]
    pub fn number(self) -> u64
        ensures is { result ≡ version_number self }
        ensures small { result ≤ 4 }
    {
        match self {
            Version::One => 1,
            Version::Two => 2,
            Version::Three => 3,
            Version::Four => 4,
        }
    }

    /// How many jobs there may be.
    #[inline(always)]
    pub fn most_jobs(self) -> u32
        ensures { result ≡ limits.most_jobs self }
    {
        match self {
            Version::One | Version::Two => 1_000_000,
            Version::Three | Version::Four => 4_000_000_000,
        }
    }

    /// The greatest sum of the values of all jobs.
    #[inline(always)]
    pub fn most_total(self) -> u64
        ensures { result ≡ limits.most_total self }
    {
        match self {
            Version::One | Version::Two => 10_000_000_000_000,
            Version::Three | Version::Four => 999_999_999_999_999_999,
        }
    }

    /// The last tick that a release, a deadline or a line of a feed may name.
    #[inline(always)]
    pub fn last_tick(self) -> u64
        ensures { result ≡ limits.last_tick_in self }
    {
        match self {
            Version::One | Version::Two => 1_000_000_000_000,
            Version::Three | Version::Four => LAST_TICK,
        }
    }

    /// How many lines a feed may have.
    #[inline(always)]
    pub fn most_lines(self) -> u64
        ensures { result ≡ limits.most_lines self }
    {
        match self {
            Version::One | Version::Two => 4_000_000,
            Version::Three | Version::Four => 16_000_000_000,
        }
    }

    /// How many items a session may have: the lines of a feed but the first and the last.
    #[inline(always)]
    pub fn most_items(self) -> u64
        ensures { result ≡ limits.most_items self }
    {
        match self {
            Version::One | Version::Two => 3_999_998,
            Version::Three | Version::Four => 15_999_999_998,
        }
    }

    /// Whether a job line that isn't admitted is refused alone, and ends no feed: from version Two on.
    #[inline(always)]
    pub fn refuses_lines(self) -> bool
        ensures { result ≡ session.refuses_lines self }
    {
        match self {
            Version::One => false,
            Version::Two | Version::Three | Version::Four => true,
        }
    }

    /// Whether waiting jobs are chosen by density: in version Four, in a pressed state.
    #[inline(always)]
    pub fn by_density(self, pressed: bool) -> bool
        ensures { result ≡ orders.by_density self pressed }
    {
        match self {
            Version::One | Version::Two | Version::Three => false,
            Version::Four => pressed,
        }
    }

    /// Whether jobs may finish early: from version Three on.
    #[inline(always)]
    pub fn may_finish_early(self) -> bool
        ensures { result ≡ session.may_finish_early self }
    {
        match self {
            Version::One | Version::Two => false,
            Version::Three | Version::Four => true,
        }
    }
}

/// Why a job isn't admitted. One that comes too late is refused from version Three on: before it, that ends the feed.
/// So many ready jobs that no more may come there are from version Three on.
#[derive(Clone, Copy, PartialEq, Eq)]
pub enum Refusal {
    /// Its release, work, deadline or value is out of the limits, or it can't be done from its release on.
    BadJob,
    /// As many jobs are admitted as there may be: 1,000,000, from version Three on 4,000,000,000.
    Count,
    /// With it the values of the admitted jobs would sum up to more than 10^13, from version Three on to 10^18 or more.
    Total,
    /// Its value per tick of work and that of an admitted job differ by more than the declared ratio.
    Ratio,
    /// Its release is below the mark.
    Late,
    /// As many jobs are ready at its release as may be ready at once: 1,000,000.
    Full,
}

/// What a job is at a moment.
#[derive(Clone, Copy, PartialEq, Eq)]
pub enum Role {
    /// It isn't released yet.
    Coming,
    /// It was released in this tick, and isn't decided on yet.
    Fresh,
    /// It is ready and not begun, or was displaced by a take.
    Waiting,
    /// It was preempted by a job of earlier deadline, and goes on behind it.
    Held,
    /// It has the processor.
    Running,
    /// It completed by its deadline.
    Done,
    /// It was abandoned at its latest start.
    Gone,
}

/// A job at a moment, under its number: its role, and the ticks that it has had.
#[derive(Clone, Copy)]
pub struct Task {
    /// Its number: the jobs of a run are numbered from 0 on as they are admitted.
    pub number: u32,
    /// What it asks for.
    pub job: Job,
    /// What it is now.
    pub role: Role,
    /// The ticks that it has had.
    pub had: u64,
}

/// A printed step. `at` is its tick, and the other fields but `job` and `value` are numbers of jobs.
#[derive(Clone, Copy)]
pub enum Event {
    /// The job of this number is released, at the tick that the job names.
    Release { number: u32, job: Job },
    /// The job begins or goes on from the tick `at` on, where the processor is free.
    Run { at: u64, number: u32 },
    /// From the tick `at` on `starts`, which is fresh and due earlier, has the processor, and `stops` is held.
    Preempt { at: u64, stops: u32, starts: u32 },
    /// At its latest start `starts` takes the processor from the tick `at` on; `stops` and all held jobs wait again.
    Take { at: u64, stops: u32, starts: u32 },
    /// The job has had all its work by the tick `at`, which is at or before its deadline.
    Complete { at: u64, number: u32 },
    /// The job is given up at the tick `at`, its latest start.
    Abandon { at: u64, number: u32 },
    /// The run is over. `value` is the sum of the values of the jobs that completed.
    End { value: u64 },
}

/// A job that doesn't run at the moment.
#[derive(Clone, Copy, PartialEq, Eq)]
pub struct Entry {
    /// Its number.
    pub number: u32,
    /// The tick by which it is due.
    pub deadline: u64,
    /// The tick of its latest start: `deadline - left`.
    pub latest: u64,
    /// The ticks of work that it still needs.
    pub left: u64,
    /// What it is worth if it completes.
    pub value: u64,
}
