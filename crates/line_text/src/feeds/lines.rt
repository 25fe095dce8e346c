//! The forms of a feed's line.

/// A line of a feed. Its numbers are below 10^18 where it was read, and may be out of the limits of a feed.
#[derive(Clone, Copy)]
pub enum FeedLine {
    /// `k P Q` or `k P Q N`: the ratio, and perhaps the version.
    Declared {
        p: u64,
        q: u64,
        version: Option<u64>,
    },
    /// `k P Q N B C`: the ratio, the version, and the factor. It is a line of version Three alone.
    Factored {
        p: u64,
        q: u64,
        version: u64,
        b: u64,
        c: u64,
    },
    /// `job R C D V`: release, work and deadline in ticks, and the value.
    Job {
        release: u64,
        work: u64,
        deadline: u64,
        value: u64,
    },
    /// `tick T`: no later line names a release or a tick below T.
    Tick {
        at: u64,
    },
    /// `done T N`: the job of number N is done at tick T. It is a line of version Three alone.
    Done {
        at: u64,
        number: u64,
    },
    /// `end`: no more jobs.
    End,
}
