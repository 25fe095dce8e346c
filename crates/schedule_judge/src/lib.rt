//! Whether a text is a legal schedule of its jobs, whichever policy made it.
#![tactic(auto)]

mod book;
mod causes;
mod intake;
mod jobs;
pub mod laws;
mod reader;
mod text;

pub use causes::Cause;
pub use intake::Standing;
pub use reader::{Closed, ScheduleReader};
