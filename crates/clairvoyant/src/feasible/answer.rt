//! What is said of a list of jobs.
use dover_model::Piece;

/// Whether some schedule serves every job, and what shows it.
#[derive(Drop)]
pub enum Feasible {
    /// All can be served: the longest stretches of one job, in order, where in each tick the job that is due first
    /// runs.
    All { pieces: Vec<Piece> },
    /// They can't: the jobs that are released at `a` or later and due by `b` have `work` ticks of work, which is more
    /// than `b - a`.
    Window { a: u64, b: u64, work: u64 },
}
