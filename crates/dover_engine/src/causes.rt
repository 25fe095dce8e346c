//! Why a call of an engine did nothing.
ghost use Rattle.std.specs.Prelude.{◌≡◌, ◌≤◌};
ghost use Rattle.dover_engine.specs.Calls.{cause_behind};
ghost use Rattle.dover_engine.specs.Life.{most_numbered};

use admission::Refused;

/// Why no engine was made.
#[derive(Clone, Copy, Debug, PartialEq, Eq)]
pub enum NotMade {
    /// There is room for at most 1,000,000 open jobs.
    Capacity,
    /// There was no memory.
    Memory,
}

/// Why a job wasn't admitted. The first of these causes that holds is the one that is answered.
#[derive(Clone, Copy, Debug, PartialEq, Eq)]
pub enum NotAdmitted {
    /// The run wasn't taken to the job's release: `step` to it has to answer None first.
    Unsettled,
    /// A limit of one job is broken.
    BadJob,
    /// 1,000,000 jobs were admitted since the last moment of rest, from version Three on 4,000,000,000.
    Count,
    /// The sum of the values since the last moment of rest would pass 10,000,000,000,000, from version Three on
    /// 999,999,999,999,999,999.
    Total,
    /// The job of this number and the job break the ratio, in one direction or the other. It is the first of the least
    /// dense jobs since the last moment of rest, or else the first of the densest.
    Ratio { other: u64 },
    /// As many jobs are open as there is room for.
    Full,
    /// 10,000,000,000,000,000,000 jobs were admitted in all, whose numbers are used up.
    Numbers,
}

// The cause of a refusal among the jobs behind others that were forgotten.
pub(crate) fn cause_behind(forgotten: u64, refused: Refused) -> NotAdmitted
    requires { forgotten ≤ most_numbered }
    ensures { result ≡ cause_behind forgotten refused }
{
    match refused {
        Refused::BadJob => NotAdmitted::BadJob,
        Refused::Count => NotAdmitted::Count,
        Refused::Total => NotAdmitted::Total,
        Refused::Ratio { other } => NotAdmitted::Ratio {
            other: forgotten + u64::from(other),
        },
    }
}

/// Why no step was taken to a mark. The first of these causes that holds is the one that is answered.
#[derive(Clone, Copy, Debug, PartialEq, Eq)]
pub enum NotStepped {
    /// `finish` was called before.
    Finished,
    /// The mark is below the last one.
    Falls,
    /// The mark is above the last tick of the version: 1,000,000,000,000, from version Three on
    /// 10,000,000,000,000,000.
    Late,
}

/// Why a job wasn't taken as done. The first of these causes that holds is the one that is answered.
#[derive(Clone, Copy, Debug, PartialEq, Eq)]
pub enum NotDone {
    /// The engine is of version One or Two, in which no job finishes early.
    Version,
    /// The run wasn't taken to the tick: `step` to it has to answer None first, and then no job to be admitted.
    Unsettled,
    /// The job hasn't the processor.
    NotRunning,
    /// A decision of the tick was given: the job got the processor at it, or a job of this release came before.
    Behind,
}

/// Why an engine wasn't restarted. The first of these causes that holds is the one that is answered.
#[derive(Clone, Copy, Debug, PartialEq, Eq)]
pub enum NotRestarted {
    /// `finish` was called before.
    Finished,
    /// The run wasn't taken to a mark: `step` has to answer None first, and then no job to be admitted or done.
    Unsettled,
    /// A job is open.
    Open,
}
