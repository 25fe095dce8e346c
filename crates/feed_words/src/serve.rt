//! The word `serve`: a feed is read, and each settled line of its trace is written before the next read.
mod at_end;
mod pause;
mod pausing;
mod serving;
mod told;
mod words;

pub use at_end::AtEnd;
pub use pausing::Pausing;
pub use serving::Serving;
pub use words::{pause_word, serve_word};
