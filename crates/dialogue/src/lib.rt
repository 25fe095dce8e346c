//! What words share: the reading loop of those that read, in which a talker takes what is got, gives what is due for
//! it, and answers at the end; and lines on their way out.
#![tactic(auto)]

mod line_reader;
pub mod lines;
mod talker;
mod turns;

pub use line_reader::{LineReader, converse_in_lines};
pub use talker::{Stop, Talker};
pub use turns::converse;
