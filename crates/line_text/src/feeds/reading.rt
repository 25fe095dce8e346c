//! A feed's line from its bytes.
ghost use Rattle.std.specs.Prelude.{◌≡◌, Some, None, IfOk, OnErr, option_map, option_and_then};
ghost use Rattle.dover_model.specs.Common.{fields_of, numerals};
ghost use Rattle.dover_model.specs.FeedLine as model;
ghost use Rattle.line_text.specs.feeds.Form.{form_of};

use crate::feeds::lines::FeedLine;
use crate::{BadLine, LINE_BYTES, behind_word, numbers_in};

fn ratio_line(numbers: &[u64]) -> Option<FeedLine>
    ensures { option_map form_of result ≡ model.ratio_line numbers.now }
{
    match numbers {
        [p, q] => Some(FeedLine::Declared {
            p: *p,
            q: *q,
            version: None,
        }),
        [p, q, version] => Some(FeedLine::Declared {
            p: *p,
            q: *q,
            version: Some(*version),
        }),
        [p, q, version, b, c] => Some(FeedLine::Factored {
            p: *p,
            q: *q,
            version: *version,
            b: *b,
            c: *c,
        }),
        _ => None,
    }
}

fn job_line(numbers: &[u64]) -> Option<FeedLine>
    ensures { option_map form_of result ≡ model.job_line numbers.now }
{
    match numbers {
        [release, work, deadline, value] => Some(FeedLine::Job {
            release: *release,
            work: *work,
            deadline: *deadline,
            value: *value,
        }),
        _ => None,
    }
}

fn tick_line(numbers: &[u64]) -> Option<FeedLine>
    ensures { option_map form_of result ≡ model.tick_line numbers.now }
{
    match numbers {
        [at] => Some(FeedLine::Tick { at: *at }),
        _ => None,
    }
}

fn done_line(numbers: &[u64]) -> Option<FeedLine>
    ensures { option_map form_of result ≡ model.done_line numbers.now }
{
    match numbers {
        [at, number] => Some(FeedLine::Done {
            at: *at,
            number: *number,
        }),
        _ => None,
    }
}

/// The ratio that fields spell behind its word, with a version or without, or with a version and a factor.
#[inline(never)]
#[tactic(auto, using(crate::proofs::feeds::WhatIsRead::no_ratio))]
fn ratio_of(fields: &[u8]) -> Option<FeedLine>
    ensures { option_map form_of result ≡ option_and_then model.ratio_line (numerals (fields_of fields.now)) }
{
    if let Some(numbers) = numbers_in::<2>(fields) {
        return ratio_line(&numbers);
    }
    if let Some(numbers) = numbers_in::<3>(fields) {
        return ratio_line(&numbers);
    }
    let numbers = numbers_in::<5>(fields)?;
    ratio_line(&numbers)
}

/// The job that fields spell behind its word.
#[inline(always)]
#[tactic(auto, using(crate::proofs::feeds::WhatIsRead::no_job))]
fn job_of(fields: &[u8]) -> Option<FeedLine>
    ensures { option_map form_of result ≡ option_and_then model.job_line (numerals (fields_of fields.now)) }
{
    let numbers = numbers_in::<4>(fields)?;
    job_line(&numbers)
}

/// The tick that fields spell behind its word.
#[inline(always)]
#[tactic(auto, using(crate::proofs::feeds::WhatIsRead::no_tick))]
fn tick_of(fields: &[u8]) -> Option<FeedLine>
    ensures { option_map form_of result ≡ option_and_then model.tick_line (numerals (fields_of fields.now)) }
{
    let numbers = numbers_in::<1>(fields)?;
    tick_line(&numbers)
}

/// The job that is done, which fields spell behind its word.
#[inline(never)]
#[tactic(auto, using(crate::proofs::feeds::WhatIsRead::no_done))]
fn done_of(fields: &[u8]) -> Option<FeedLine>
    ensures { option_map form_of result ≡ option_and_then model.done_line (numerals (fields_of fields.now)) }
{
    let numbers = numbers_in::<2>(fields)?;
    done_line(&numbers)
}

/// The line of the fields, by their word.
#[inline(always)]
fn line_of(line: &[u8]) -> Option<FeedLine>
    ensures { option_map form_of result ≡ model.line_of_fields (fields_of line.now) }
{
    if let Some(fields) = behind_word(line, b"job") {
        return job_of(fields);
    }
    if let Some(fields) = behind_word(line, b"tick") {
        return tick_of(fields);
    }
    if let Some(fields) = behind_word(line, b"k") {
        return ratio_of(fields);
    }
    if let Some(fields) = behind_word(line, b"done") {
        return done_of(fields);
    }
    if line == b"end".as_slice() {
        return Some(FeedLine::End);
    }
    None
}

/// The line that the bytes spell.
#[inline(always)]
fn read(line: &[u8]) -> Result<FeedLine, BadLine>
    ensures ok { IfOk result (λ read. model.feed_line line.now ≡ Some (form_of read)) }
    ensures err { OnErr result (model.feed_line line.now ≡ None) }
{
    if line.len() >= LINE_BYTES {
        return Err(BadLine);
    }
    match line_of(line) {
        Some(read) => Ok(read),
        None => Err(BadLine),
    }
}

/// Reads a line without its line feed.
///
/// # Errors
///
/// `BadLine` exactly where the bytes have none of the forms, with one space between fields, or are more than 128.
#[inline(always)]
pub fn read_feed_line(line: &[u8]) -> Result<FeedLine, BadLine>
    ensures ok { IfOk result (λ read. model.feed_line line.now ≡ Some (form_of read)) }
    ensures err { OnErr result (model.feed_line line.now ≡ None) }
    // One spelling: the bytes are the text of what is read.
    ensures text { IfOk result (λ read. model.feed_text (form_of read) ≡ line.now) }
    ensures short { IfOk result (λ read. model.HasNumerals (form_of read)) }
{
    read(line)
}
