//! Reports on a run, as texts.
mod counts;
mod courses;
mod early;
pub mod endings;
mod fates;
mod kept;
mod limits;
mod lines;
mod report;
mod rows;

pub use counts::{Counts, count, count_by, released};
pub use courses::{Course, courses_of};
pub(crate) use early::left_at;
pub use fates::{Fates, fates_of};
pub use kept::kept_ratio;
pub use limits::is_listable;
pub use report::{Findings, counts_text, summary, text};
pub use rows::TableRows;
