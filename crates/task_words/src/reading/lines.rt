//! The forms of a task text's line.
use crate::tasks::PeriodicTask;

/// A line of a task text. Its numbers are below 10^18 where it was read, and may be out of the limits of tasks.
#[derive(Clone, Copy)]
pub enum TaskLine {
    /// `k P Q` or `k P Q N`: the ratio, and perhaps the version.
    Declared {
        p: u64,
        q: u64,
        version: Option<u64>,
    },
    /// `k P Q N B C`: the ratio, the version, and the factor. It is a line of version Three alone.
    Factored {
        p: u64,
        q: u64,
        version: u64,
        b: u64,
        c: u64,
    },
    /// `task OFFSET PERIOD WORK DEADLINE VALUE`, and perhaps a name: the deadline counts from the release.
    Task(PeriodicTask),
    /// `end`: no more tasks.
    End,
}
