//! What is wrong with a feed.
use admission::Refused;
use thiserror::Error;

/// Why a line is at fault. The first of these causes that holds is the one that is answered.
#[derive(Clone, Copy, Debug)]
pub enum Cause {
    /// The line's number is above 4,000,000, in version Three above 16,000,000,000.
    Lines,
    /// The line is longer than 128 bytes, or has none of the forms. A done line has one in version Three alone.
    Line,
    /// The first line doesn't declare the ratio, or does so out of the limits, or a later line declares it again.
    Declared,
    /// A release or the tick of a tick line is below the mark, or a tick is above the last one, which is 10^12 and in
    /// versions Three and Four 10^16. In those a release below the mark is no fault.
    Order,
    /// A limit of one job is broken.
    BadJob,
    /// As many jobs as there may be were admitted before.
    Count,
    /// The sum of the values would pass its limit.
    Total,
    /// The job and an earlier job, of this number, break the ratio.
    Ratio { other: u32 },
    /// The input ended without an end line.
    Short,
}

impl Cause {
    ghost use Rattle.std.specs.Prelude.{◌≡◌};
    ghost use Rattle.event_feed.specs.Kept.{cause_of_refused};

    /// A job that isn't admitted.
    pub fn of(refused: Refused) -> Cause
        ensures { result ≡ cause_of_refused refused }
    {
        match refused {
            Refused::BadJob => Cause::BadJob,
            Refused::Count => Cause::Count,
            Refused::Total => Cause::Total,
            Refused::Ratio { other } => Cause::Ratio { other },
        }
    }
}

/// The first faulty line of a feed, numbered from 1, and why it is one.
#[derive(Clone, Copy, Debug, Error)]
#[error("a line of the feed is at fault")]
pub struct FeedFault {
    /// The number of the line, from 1 on.
    pub line: u64,
    /// Why it is at fault.
    pub cause: Cause,
}
