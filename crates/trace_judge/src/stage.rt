//! The stages of a trace.

/// How far a trace has come.
#[derive(Clone, Copy)]
pub enum TraceStage {
    /// No line came yet.
    Opening,
    /// The header came, and not the line of the end.
    Going,
    /// The line of the end came.
    Ended,
}
