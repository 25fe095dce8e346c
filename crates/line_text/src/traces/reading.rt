//! A trace's line from its bytes.
ghost use Rattle.std.specs.Prelude.{◌≡◌, Ok, IfOk, option_map, option_and_then};
ghost use Rattle.dover_model.specs.Common.{numerals, fields_of};
ghost use Rattle.dover_model.specs.Verdict as verdict;
ghost use Rattle.line_text.specs.Reading.{fields_left, number_of_first};
ghost use Rattle.line_text.specs.declared.traces.lines.TraceLine.{TraceLine};
ghost use Rattle.line_text.specs.traces.Form.{HasForm, trace_text, item_in, rules_in};
ghost use Rattle.line_text.specs.traces.Reading as model;

use crate::traces::lines::TraceLine;
use crate::traces::steps::{
    abandon_of, complete_of, end_of, preempt_of, release_of, run_of, take_of,
};
use crate::{BadLine, behind_word, cut_field, first_number, numbers_in};
use dover_model::Refusal;

/// The reader of a trace that a run is judged by.
pub const TRACE: u8 = 0;

/// The reader of a schedule of any policy.
pub const SCHEDULE: u8 = 1;

/// A header, of three numbers, or of five.
fn header_with(numbers: &[u64]) -> Option<TraceLine>
    ensures { result ≡ model.header_of numbers.now }
{
    match numbers {
        [version, p, q] => Some(TraceLine::Header {
            version: *version,
            p: *p,
            q: *q,
            factor: None,
        }),
        [version, p, q, b, c] => Some(TraceLine::Header {
            version: *version,
            p: *p,
            q: *q,
            factor: Some((*b, *c)),
        }),
        _ => None,
    }
}

/// The header that fields spell behind its word.
#[tactic(auto, using(crate::proofs::traces::NoLine::no_header))]
fn header_of(fields: &[u8]) -> Option<TraceLine>
    ensures { result ≡ option_and_then model.header_of (numerals (fields_of fields.now)) }
{
    if let Some(numbers) = numbers_in::<3>(fields) {
        return header_with(&numbers);
    }
    let numbers = numbers_in::<5>(fields)?;
    header_with(&numbers)
}

/// The number that the first field left spells, and what is left behind it.
#[inline(always)]
fn next_number(fields: Option<&[u8]>) -> Option<(u64, Option<&[u8]>)>
    ensures { option_map (λ f. (f.0, fields_left f.1)) result ≡ number_of_first (fields_left fields.entry) }
{
    first_number(fields?)
}

/// The refusal that a word stands for.
fn refusal_of_word(word: &[u8]) -> Option<Refusal>
    ensures { result ≡ verdict.refusal_of_word word.now }
{
    if word == b"job".as_slice() {
        Some(Refusal::BadJob)
    } else if word == b"count".as_slice() {
        Some(Refusal::Count)
    } else if word == b"total".as_slice() {
        Some(Refusal::Total)
    } else if word == b"ratio".as_slice() {
        Some(Refusal::Ratio)
    } else if word == b"order".as_slice() {
        Some(Refusal::Late)
    } else if word == b"full".as_slice() {
        Some(Refusal::Full)
    } else {
        None
    }
}

/// The refusal that the one field left is the word of.
#[inline(always)]
fn last_word(fields: Option<&[u8]>) -> Option<Refusal>
    ensures { result ≡ model.last_word (fields_left fields.entry) }
{
    let (word, rest) = cut_field(fields?);
    match rest {
        None => refusal_of_word(word),
        Some(_) => None,
    }
}

#[tactic(auto, unfolding(crate::specs::traces::Reading::refused_of))]
fn refused_of(fields: Option<&[u8]>) -> Option<TraceLine>
    ensures { result ≡ model.refused_of (fields_left fields.entry) }
{
    let (at, rest) = next_number(fields)?;
    let (release, rest) = next_number(rest)?;
    let (work, rest) = next_number(rest)?;
    let (deadline, rest) = next_number(rest)?;
    let (value, rest) = next_number(rest)?;
    let cause = last_word(rest)?;
    Some(TraceLine::Refused {
        at,
        release,
        work,
        deadline,
        value,
        cause,
    })
}

/// The one field left is the word of a refused done line.
fn is_done_left(fields: Option<&[u8]>) -> bool
    ensures { result ≡ model.is_done_left (fields_left fields.entry) }
{
    let Some(fields) = fields else {
        return false;
    };
    let (word, rest) = cut_field(fields);
    match rest {
        None => word == b"done".as_slice(),
        Some(_) => false,
    }
}

#[tactic(auto, unfolding(crate::specs::traces::Reading::refused_done_of))]
fn refused_done_of(fields: Option<&[u8]>) -> Option<TraceLine>
    ensures { result ≡ model.refused_done_of (fields_left fields.entry) }
{
    let (at, rest) = next_number(fields)?;
    let (tick, rest) = next_number(rest)?;
    let (number, rest) = next_number(rest)?;
    if !is_done_left(rest) {
        return None;
    }
    Some(TraceLine::RefusedDone { at, tick, number })
}

/// A refused line, of a job or of a done line.
fn refusal_of(fields: &[u8]) -> Option<TraceLine>
    ensures { result ≡ model.refusal_of (fields_of fields.now) }
{
    match refused_of(Some(fields)) {
        Some(line) => Some(line),
        None => refused_done_of(Some(fields)),
    }
}

/// The line of the fields, by their word. It is too long to be taken in by two, so each reader has one of its own.
fn line_of<const READER: u8>(line: &[u8]) -> Option<TraceLine>
    ensures { result ≡ model.line_of_fields (fields_of line.now) }
{
    if let Some(fields) = behind_word(line, b"job") {
        return release_of(fields);
    }
    if let Some(fields) = behind_word(line, b"run") {
        return run_of(fields);
    }
    if let Some(fields) = behind_word(line, b"complete") {
        return complete_of(fields);
    }
    if let Some(fields) = behind_word(line, b"preempt") {
        return preempt_of(fields);
    }
    if let Some(fields) = behind_word(line, b"abandon") {
        return abandon_of(fields);
    }
    if let Some(fields) = behind_word(line, b"take") {
        return take_of(fields);
    }
    if let Some(fields) = behind_word(line, b"refuse") {
        return refusal_of(fields);
    }
    if let Some(fields) = behind_word(line, b"end") {
        return end_of(fields);
    }
    if let Some(fields) = behind_word(line, b"dover") {
        return header_of(fields);
    }
    None
}

/// Reads a line without its line feed. `READER` says for whom, `TRACE` or `SCHEDULE`. It changes nothing but that each
/// of them has the code to itself, which is then taken in where its lines are taken.
///
/// # Errors
///
/// `BadLine` exactly where the bytes are none of the forms, or a `job` line's fields aren't a job, or a job's number is
/// above 3,999,999,999.
#[inline(always)]
pub fn read_trace_line<const READER: u8>(line: &[u8]) -> Result<TraceLine, BadLine>
    // What is read has a form, and the bytes are its text.
    ensures form { IfOk result (λ read. HasForm read) }
    ensures text { IfOk result (λ read. trace_text read ≡ line.now) }
    // The text of what has a form is read as that.
    ensures only { (read : TraceLine) → HasForm read → trace_text read ≡ line.now → result ≡ Ok read }
    // What the line names.
    ensures item { IfOk result (λ read. verdict.item_of line.now ≡ item_in read) }
    ensures rules { IfOk result (λ read. verdict.rules_of line.now ≡ rules_in read) }
{
    match line_of::<READER>(line) {
        Some(read) => Ok(read),
        None => Err(BadLine),
    }
}
