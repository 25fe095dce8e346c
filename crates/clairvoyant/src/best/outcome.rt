//! The best set of a few jobs, as it is answered.
use dover_model::Piece;
use thiserror::Error;

/// The jobs that are worth the most of those that one schedule serves, and such a schedule.
#[derive(Drop)]
pub struct Best {
    /// The sum of their values.
    pub value: u64,
    /// Their numbers, in rising order.
    pub chosen: Vec<u32>,
    /// The longest stretches of one job, where in each tick the job of the set that is due first runs.
    pub pieces: Vec<Piece>,
}

/// Why there is no best set.
#[derive(Clone, Copy, Debug, Error)]
pub enum BestFault {
    /// More than 20 jobs.
    #[error("too many jobs")]
    TooMany,
    /// There was no memory.
    #[error("out of memory")]
    Memory,
}
