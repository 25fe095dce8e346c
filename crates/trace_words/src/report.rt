//! The words that report on a trace: a text is read and judged, and where it is accepted the report on its run is
//! written.
mod form;
mod word;

pub use form::Form;
pub(crate) use word::put_lines;
pub use word::{is_small, put_size, put_whole, report_word};
