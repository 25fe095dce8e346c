//! The end of the input.

/// What is done where the input ends and the feed goes on.
#[derive(Clone, Copy)]
pub enum AtEnd {
    /// It is refused as short.
    Refuse,
    /// It is paused, if its ratio was declared and no line has begun, or refused for its size, if it has more jobs than
    /// a snapshot lists; and else it is refused as short.
    Pause,
}
