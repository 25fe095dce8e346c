//! What a text is, as a trace.
use dover_model::{Event, Ratio, Version};

/// What is due in place of a wrong line.
#[derive(Clone, Copy)]
pub enum Expected {
    /// A header.
    Header,
    /// The line of this step.
    Step(Event),
    /// Nothing: the trace has ended.
    Nothing,
}

/// What a text is, as a trace.
#[derive(Clone, Copy)]
pub enum Verdict {
    /// It is the trace of a valid session of so many jobs, under this ratio and version. The run completes jobs of this
    /// value, and no schedule of its jobs is worth more than the bound.
    Accepted {
        ratio: Ratio,
        version: Version,
        value: u64,
        bound: u128,
        jobs: u32,
    },
    /// With this line, counted from 1, it begins no trace.
    Wrong {
        line: u64,
        expected: Expected,
    },
    /// It begins a trace, with so many whole lines.
    Short {
        lines: u64,
    },
}
