//! The forms of a trace's line.
use dover_model::{Event, Refusal};

/// A line of a trace.
#[derive(Clone, Copy)]
pub enum TraceLine {
    /// `dover N P Q` or `dover N P Q B C`: the version and the ratio, and perhaps the factor. They are any numerals,
    /// and may be out of the limits.
    Header {
        version: u64,
        p: u64,
        q: u64,
        factor: Option<(u64, u64)>,
    },
    /// A printed step.
    Step(Event),
    /// `refuse T R C D V word`: a job line that wasn't admitted, with the mark when it came.
    Refused {
        at: u64,
        release: u64,
        work: u64,
        deadline: u64,
        value: u64,
        cause: Refusal,
    },
    /// `refuse T U N done`: a line `done U N` that was not right, with the mark behind it.
    RefusedDone {
        at: u64,
        tick: u64,
        number: u64,
    },
}
