//! Why a line isn't that of a legal schedule.

/// Why a line isn't that of a legal schedule.
#[derive(Clone, Copy, Debug, PartialEq, Eq)]
pub enum Cause {
    /// The first line isn't `schedule`.
    Header,
    /// The line has none of the forms, or its job's numbers are beyond their limits.
    Line,
    /// Its tick is below that of a line before it.
    Order,
    /// At its tick the job that runs, or the one that is abandoned, is past its deadline.
    Late,
    /// At its tick the job that runs has had more ticks than its work.
    Work,
    /// The job of a `job` line doesn't have the next number.
    Number,
    /// The job that is to run, or that is abandoned, isn't released yet or is over, or it runs already.
    Job,
    /// A job is to run where another one runs.
    Busy,
    /// The job that is to stop, or that completes, doesn't run.
    Turn,
    /// The job that completes has work left.
    Early,
    /// The schedule ends where a job is neither completed nor abandoned.
    Open,
    /// The value at the end isn't that of the completed jobs.
    Value,
}
