//! Periodic tasks, and the jobs that they release, one by one in order of release.
mod laws;
mod name;
mod sizes;
mod task;
mod unrolling;

pub use laws::unrolled_jobs_are_valid;
pub use name::TaskName;
pub use sizes::fits;
pub use task::PeriodicTask;
pub use unrolling::Unrolling;
