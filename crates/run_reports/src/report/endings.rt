//! How the jobs of a run ended.

/// How a job ended, and at which tick.
#[derive(Clone, Copy)]
pub enum Ending {
    /// It completed at this tick.
    Completed(u64),
    /// It was abandoned at this tick.
    Abandoned(u64),
}
