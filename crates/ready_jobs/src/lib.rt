//! The machine over the jobs that are released and not over.
#![tactic(auto)]

mod actions;
mod applying;
mod held;
mod parts;
mod ready;
mod settling;
mod taking;

pub use actions::Action;
pub use parts::Parts;
pub use ready::{MOST_READY, Ready};
