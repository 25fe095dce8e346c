//! A task text that comes in pieces is read up to its end, and its tasks are listed.
mod intake;
mod line_reading;
mod lines;
mod listed;
mod reader;
mod task_fields;
mod text;

pub use line_reading::read_task_line;
pub use lines::TaskLine;
pub use listed::ListedTasks;
pub use reader::TaskReader;
