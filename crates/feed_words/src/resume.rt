//! The word `resume`: a snapshot is read, and the feed of which it is goes on from where it was paused.
mod opening;
mod resume;
mod resuming;

pub use resume::resume_word;
