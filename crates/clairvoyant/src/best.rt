//! The most value that any schedule of a few jobs is worth.
mod choice;
mod optimum;
mod outcome;
mod search;

pub use optimum::best;
pub use outcome::{Best, BestFault};
