//! The word `sure`: of each task, whether it passes a test by which no job of it is lost, however all jobs come.
mod answering;
mod densities;
mod laws;
mod lines;
mod sets;
mod sums;
mod telling;

pub(crate) use answering::answer;
pub use laws::sure_tasks_lose_no_job;
