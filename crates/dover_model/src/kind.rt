//! The kinds of printed steps.

/// What a printed step does.
#[derive(Clone, Copy)]
pub enum Kind {
    /// A release.
    Release,
    /// A run.
    Run,
    /// A preemption.
    Preempt,
    /// A take.
    Take,
    /// A completion.
    Complete,
    /// An abandonment.
    Abandon,
    /// The end.
    End,
}
