//! Lines of text, the numbers and words in them, and the lines of feeds and of traces.
#![tactic(auto)]

mod back_line;
mod cutting;
pub mod feeds;
mod fields;
mod numerals;
mod spelled;
pub mod traces;

pub use back_line::BackLine;
pub use cutting::{ByteEffect, Lines};
pub use fields::{Numbers, behind_word, cut_field, numbers_in, read_numbers};
pub use numerals::{first_number, numeral};
pub use spelled::Spelled;
use thiserror::Error;

/// The most bytes that a line may have, with its line feed.
pub const LINE_BYTES: usize = 129;

/// The bytes aren't a line of the format.
#[derive(Clone, Copy, Debug, Error)]
#[error("not a line of the format")]
pub struct BadLine;
