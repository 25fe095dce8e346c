//! A stated list of jobs from a number: four draws of a linear congruential generator for each job. A stated feed draws
//! twice more, for what it says done.
mod draws;
mod generator;
mod laws;
mod turns;

pub use generator::Gen;
pub use laws::generated_jobs_are_valid;
pub use turns::{Done, Turn, TurnGen};
