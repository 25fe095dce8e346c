//! What the demand test tells.

/// What the demand test tells of tasks whose jobs may come at any ticks that are a period apart or more.
#[derive(Clone, Copy)]
pub enum Demand {
    /// No window has more work in it than ticks, so none of their jobs is ever lost.
    Met,
    /// A window of so many ticks in which they can ask for so much work, which is more.
    Window { ticks: u64, work: u128 },
    /// More than one tick of work a tick in the long run.
    Over,
    /// The test would take too many steps.
    Size,
}
