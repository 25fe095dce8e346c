//! The lines of a trace, read and written.
mod lines;
mod reading;
mod steps;
mod writing;

pub use lines::TraceLine;
pub use reading::{SCHEDULE, TRACE, read_trace_line};
pub use writing::{refusal_word, write_event};
