//! A task text's line from its bytes.
ghost use Rattle.std.specs.Prelude.{◌≡◌, ◌∷◌, Some, None, IfOk, OnErr, option_and_then};
ghost use Rattle.dover_model.specs.Common.{numerals};
ghost use Rattle.line_text.specs.Reading.{fields_left};
ghost use Rattle.task_words.specs.reading.Lines as model;

use crate::reading::lines::TaskLine;
use crate::reading::task_fields::task_of_fields;
use line_text::{BadLine, LINE_BYTES, cut_field, read_numbers};

fn ratio_line(numbers: &[u64]) -> Option<TaskLine>
    ensures { result ≡ model.ratio_line numbers.now }
{
    match numbers {
        [p, q] => Some(TaskLine::Declared {
            p: *p,
            q: *q,
            version: None,
        }),
        [p, q, version] => Some(TaskLine::Declared {
            p: *p,
            q: *q,
            version: Some(*version),
        }),
        [p, q, version, b, c] => Some(TaskLine::Factored {
            p: *p,
            q: *q,
            version: *version,
            b: *b,
            c: *c,
        }),
        _ => None,
    }
}

fn end_line(numbers: &[u64]) -> Option<TaskLine>
    ensures { result ≡ model.end_line numbers.now }
{
    match numbers {
        [] => Some(TaskLine::End),
        _ => None,
    }
}

/// The line of a word and the numbers behind it.
fn line_of_word(word: &[u8], numbers: &[u64]) -> Option<TaskLine>
    ensures { result ≡ model.line_of_word word.now numbers.now }
{
    if word == b"k".as_slice() {
        ratio_line(numbers)
    } else if word == b"end".as_slice() {
        end_line(numbers)
    } else {
        None
    }
}

/// The line of a word and what is left behind it, where that is numbers.
fn plain_line(word: &[u8], rest: Option<&[u8]>) -> Option<TaskLine>
    ensures { result ≡ option_and_then (model.line_of_word word.now) (numerals (fields_left rest.entry)) }
{
    let Some(numbers) = read_numbers(rest) else {
        return None;
    };
    line_of_word(word, numbers.as_slice())
}

/// The line of a word and what is left behind it.
fn line_behind(word: &[u8], rest: Option<&[u8]>) -> Option<TaskLine>
    ensures { result ≡ model.line_of_fields (word.now ∷ fields_left rest.entry) }
{
    if word == b"task".as_slice() {
        task_of_fields(rest)
    } else {
        plain_line(word, rest)
    }
}

/// The line that the bytes spell.
fn read(line: &[u8]) -> Result<TaskLine, BadLine>
    ensures ok { IfOk result (λ read. model.task_line line.now ≡ Some read) }
    ensures err { OnErr result (model.task_line line.now ≡ None) }
{
    if line.len() >= LINE_BYTES {
        return Err(BadLine);
    }
    let (word, rest) = cut_field(line);
    match line_behind(word, rest) {
        Some(read) => Ok(read),
        None => Err(BadLine),
    }
}

/// Reads a line without its line feed.
///
/// # Errors
///
/// `BadLine` exactly where the bytes have none of the forms, with one space between fields, or are more than 128.
pub fn read_task_line(line: &[u8]) -> Result<TaskLine, BadLine>
    ensures ok { IfOk result (λ read. model.task_line line.now ≡ Some read) }
    ensures err { OnErr result (model.task_line line.now ≡ None) }
    ensures short { IfOk result (λ read. model.HasNumerals read) }
{
    read(line)
}
