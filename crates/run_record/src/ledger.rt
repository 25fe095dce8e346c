//! What the running and the held jobs are worth, what room they leave a fresh job, and how many ticks the jobs had.
mod reading;
mod under_way;

pub(crate) use reading::before_run;
pub use reading::{rooms, served, weights};
pub(crate) use under_way::JobsUnderWay;
