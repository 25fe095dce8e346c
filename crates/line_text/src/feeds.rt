//! The lines of a feed, read and written.
mod lines;
mod reading;
mod writing;

pub use lines::FeedLine;
pub use reading::read_feed_line;
pub use writing::write_feed_line;
