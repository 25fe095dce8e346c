//! What a feed says, line by line, and which line is at fault; the lines that are due for it; and a feed that is
//! read to its end, with its jobs as a list.
#![tactic(auto)]

mod declaring;
mod due_line;
mod faults;
mod fed;
mod gathering;
mod intake;
mod kept_session;
mod laws;
mod listed;

pub use declaring::{declared, declared_with_factor, rules_line};
pub use due_line::DueLine;
pub use faults::{Cause, FeedFault};
pub use fed::Fed;
pub use gathering::Gathering;
pub use intake::Intake;
pub use laws::feeds_of_jobs_are_read;
pub use listed::{DoneLine, Listed, NotListed};
