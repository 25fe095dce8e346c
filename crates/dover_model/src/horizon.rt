//! How far steps are taken.

/// Up to a mark, at which further jobs may come, or to the end.
#[derive(Clone, Copy, PartialEq, Eq)]
pub enum Horizon {
    /// Up to this tick: what jobs that are released then or later can't change.
    Mark(u64),
    /// To the end: no further job comes.
    End,
}
