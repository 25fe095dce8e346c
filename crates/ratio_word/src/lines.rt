//! The forms of a line of a feed or of a task text.
use task_words::reading::TaskLine;

/// A line of a feed or of a task text. Its numbers are below 10^18 where it was read, and may be out of the limits of
/// either.
#[derive(Clone, Copy)]
pub enum TextLine {
    /// A line that a task text may have. So may a feed, but for the line of a task.
    Plain(TaskLine),
    /// `job R C D V`: release, work and deadline in ticks, and the value.
    Job {
        release: u64,
        work: u64,
        deadline: u64,
        value: u64,
    },
    /// `tick T` or `done T N`, which offers no job.
    Mark,
}
