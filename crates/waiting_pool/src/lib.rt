//! The jobs that wait, with the first by deadline, the first by latest start and, in version Four, the densest at hand.
#![tactic(auto)]

mod pool;
mod short;
mod slot;

pub use pool::Pool;
pub use short::{ShortTask, left};
