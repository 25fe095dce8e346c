//! Stretches of a schedule.

/// The ticks from `from` on and before `until`, in which the job of this number runs.
#[derive(Clone, Copy, PartialEq, Eq)]
pub struct Piece {
    /// The first of its ticks.
    pub from: u64,
    /// The tick behind its last one.
    pub until: u64,
    /// The number of the job that runs in it.
    pub number: u32,
}
