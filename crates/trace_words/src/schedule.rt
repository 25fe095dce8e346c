//! The words that report on a schedule, whichever policy made it: a text is read and judged, and where it is legal the
//! report on it is written.
mod form;
mod lines;
mod talker;
mod word;

pub use form::ScheduleForm;
pub use word::schedule_word;
