//! The state of a feed as a text, from which its run can be gone on with later.
#![tactic(auto)]

mod feeding;
mod forms;
pub mod laws;
mod paused;
mod reader;
mod resuming;
mod writing;

pub use paused::Paused;
pub use reader::{Got, SnapFault, SnapshotReader};
