//! The lines that are due for a feed.
use crate::faults::Cause;
use dover_model::{Event, Ratio, Refusal, Version};

/// A line that is due for a feed.
#[derive(Clone, Copy)]
pub enum DueLine {
    /// The first line of its trace.
    Header(Version, Ratio),
    /// A printed step.
    Step(Event),
    /// A job line that wasn't admitted, with the mark when it came.
    Refuse {
        at: u64,
        release: u64,
        work: u64,
        deadline: u64,
        value: u64,
        cause: Refusal,
    },
    /// A done line whose finish isn't right, with the mark behind it.
    RefuseDone {
        at: u64,
        tick: u64,
        number: u64,
    },
    /// The feed is refused at this line of its own, numbered from 1. Where the line breaks the ratio, the cause names
    /// the other job.
    Refused {
        line: u64,
        cause: Cause,
    },
}
