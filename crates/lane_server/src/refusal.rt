//! Why an input is refused.
ghost use Rattle.std.specs.Prelude.{◌≡◌, ◌≤◌, length};
ghost use Rattle.lane_server.specs.LaneInput.{word_of};

/// Why an input is refused as a whole.
#[derive(Clone, Copy)]
pub enum InputRefusal {
    /// It ends before `close`.
    Short,
    /// It has more than 16,000,000,000 lines.
    TooManyLines,
    /// A line is none of a lane.
    BadLane,
}

impl InputRefusal {
    /// The word for it.
    pub fn word(self) -> &'static [u8]
        ensures is { result.now ≡ word_of self }
        ensures fits { length result.now ≤ 5 }
    {
        match self {
            InputRefusal::Short => b"short",
            InputRefusal::TooManyLines => b"lines",
            InputRefusal::BadLane => b"lane",
        }
    }
}
