//! Which jobs are admitted: within the limits of one job and of all jobs, and within the ratio of each other's
//! densities; and the least ratio that jobs keep.
#![tactic(auto)]

mod admitting;
mod densities;
mod extremes;
mod kept_ratio;
mod least;
mod refused;

pub use admitting::Admission;
pub use extremes::{Extremes, Numbered};
pub use kept_ratio::least_kept;
pub use refused::Refused;
