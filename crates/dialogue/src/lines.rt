//! Lines on their way out: those that are due for feeds, those of feeds, those that refuse what is read, and those of a
//! word and numbers, each written, and put with its line feed through the buffer of a port.
mod due_lines;
mod faults;
mod feed_lines;
mod numbers;

pub use due_lines::{write_next, write_out};
pub use faults::{fault_line, put_fault, put_refused, refuse, write_refused};
pub use feed_lines::{put_feed_line, put_job, put_rules};
pub use numbers::put_numbers;
