//! The jobs of a feed, and the done lines behind them.
use crate::faults::FeedFault;
use dover_model::{Job, Ratio, Version};
use thiserror::Error;

/// A done line: the tick that ends at this one is said to be the last that the job of this number needed.
#[derive(Clone, Copy)]
pub struct DoneLine {
    /// The tick.
    pub at: u64,
    /// The number of the job.
    pub number: u64,
    /// How many jobs were admitted before the line.
    pub behind: usize,
}

/// The ratio and the version that the first line of a feed declared, the jobs that were admitted since, in order, and
/// the done lines among them, but for those that are below the mark or name no job. Whether their finishes are right,
/// the run says.
#[derive(Drop)]
pub struct Listed {
    /// The declared ratio.
    pub ratio: Ratio,
    /// The declared version.
    pub version: Version,
    /// The admitted jobs, by number.
    pub jobs: Vec<Job>,
    /// The done lines, in order.
    pub done_lines: Vec<DoneLine>,
}

/// Why the jobs of a feed aren't listed.
#[derive(Clone, Copy, Debug, Error)]
#[error("the jobs of the feed aren't listed")]
pub enum NotListed {
    /// A line is at fault, or the feed is short.
    Fault(FeedFault),
    /// More than 1,000,000 jobs were to be admitted. Those behind the first 1,000,000 may have found no room, which the
    /// run alone says.
    TooMany,
}
