//! Intervals in which the processor is busy with the jobs of one overload.

/// From a run of a job while no interval is under way to the completion that leaves no job held: ticks and values.
#[derive(Clone, Copy)]
pub struct Interval {
    /// The tick at which it starts.
    pub from: u64,
    /// The tick at which it ends.
    pub until: u64,
    /// The value completed without a take.
    pub regular: u64,
    /// The value completed after a take.
    pub taken: u64,
    /// The value of all jobs that takes displace.
    pub displaced: u64,
    /// The value abandoned.
    pub abandoned: u64,
}

/// The interval under way, and whether a job was taken in it.
#[derive(Clone, Copy)]
pub struct UnderWay {
    /// The interval as far as it has come.
    pub interval: Interval,
    /// Whether a job was taken in it.
    pub took: bool,
}

impl UnderWay {
    ghost use Rattle.std.specs.Prelude.{◌≡◌};
    ghost use Rattle.run_record.specs.intervals.Pages.{begun, with_take, with_completion, with_abandonment};

    /// The interval that starts at this tick.
    pub fn new(at: u64) -> UnderWay
        ensures { result ≡ begun at }
    {
        UnderWay {
            interval: Interval {
                from: at,
                until: at,
                regular: 0,
                taken: 0,
                displaced: 0,
                abandoned: 0,
            },
            took: false,
        }
    }

    /// A take displaces so much value.
    pub fn displace(&mut self, at: u64, value: u64)
        ensures { self.new ≡ with_take at value self.old }
    {
        self.interval.until = at;
        self.interval.displaced = self.interval.displaced.saturating_add(value);
        self.took = true;
    }

    /// A job of this value is done.
    pub fn complete(&mut self, at: u64, value: u64)
        ensures { self.new ≡ with_completion at value self.old }
    {
        self.interval.until = at;
        if self.took {
            self.interval.taken = self.interval.taken.saturating_add(value);
        } else {
            self.interval.regular = self.interval.regular.saturating_add(value);
        }
    }

    /// A job of this value is gone.
    pub fn abandon(&mut self, at: u64, value: u64)
        ensures { self.new ≡ with_abandonment at value self.old }
    {
        self.interval.until = at;
        self.interval.abandoned = self.interval.abandoned.saturating_add(value);
    }
}
