//! Why an input was refused, or a text is wrong.
use crate::declared::wrong_declaration;
use crate::forms::{own, wrong_bytes, wrong_form};
use crate::jobs::wrong_job;
use crate::kept::Kept;
use crate::numerals::number;
use crate::said::append_quoted;
use crate::texts::{Text, text_of};
use crate::verdicts::{append_short, append_wrong};
use std::alloc::{AllocError, Global};

/// Why a line isn't of the form that this text has.
fn why_form(alloc: Global, line: &[u8], text: Text) -> Result<Option<String>, AllocError> {
    if let Some(why) = wrong_bytes(line) {
        return own(alloc, Some(why));
    }
    match wrong_form(alloc, std::str::from_utf8(line).unwrap_or(""), text)? {
        Some(why) => Ok(Some(why)),
        None if line.starts_with(&[b'd', b'o', b'n', b'e']) => {
            own(
                alloc,
                Some("only versions 3 and 4 have `done` lines, and line 1 is none"),
            )
        }
        None => own(alloc, Some("no line has this form")),
    }
}

/// Why a line of a cause that needs its numbers is refused.
fn why_numbers(
    alloc: Global,
    at: u64,
    cause: &str,
    line: &[u8],
) -> Result<&'static str, AllocError> {
    let line = std::str::from_utf8(line).unwrap_or("");
    let words: Vec<&str> = line.split(' ').collect(alloc)?;
    if cause == "job" {
        return Ok(wrong_job(words.as_slice()));
    }
    Ok(wrong_declaration(at, words.as_slice()))
}

/// Why a line is refused with a cause that the line alone doesn't tell.
fn why_there(cause: &str) -> Option<&'static str> {
    match cause {
        "order" => Some("its time is below one of an earlier line, or above the last tick"),
        "count" => Some("as many jobs as there may be stand before it"),
        "lines" => Some("as many lines as there may be stand before it"),
        "total" => Some("with it all values sum up to more than they may"),
        "ratio" => Some(
            "its value per tick of work and an earlier one differ by more than k: declare the k of `dover ratio`",
        ),
        "lane" => Some(
            "a line here is a lane's number from 0 to 63, one space and a line of its feed, or `close`",
        ),
        "snapshot" => Some("it isn't as `dover pause` would have written it"),
        _ => None,
    }
}

fn why(
    alloc: Global,
    at: u64,
    cause: &str,
    line: &[u8],
    text: Text,
) -> Result<Option<String>, AllocError> {
    match cause {
        "line" => why_form(alloc, line, text),
        "declared" if wrong_bytes(line).is_some() => own(alloc, wrong_bytes(line)),
        "declared" | "job" => own(alloc, Some(why_numbers(alloc, at, cause, line)?)),
        _ => own(alloc, why_there(cause)),
    }
}

/// The line that an answer names, where it is kept. Behind a snapshot the lines of the whole feed are counted.
fn named<'a>(at: u64, cause: &str, kind: Text, read: &'a Kept) -> Option<&'a [u8]> {
    if kind == Text::Snapshot && cause != "snapshot" {
        return None;
    }
    read.line(at)
}

/// Appends why line `at` was refused with this cause.
fn append_line(
    text: &mut String,
    at: u64,
    cause: &str,
    kind: Text,
    read: &Kept,
) -> Result<(), AllocError> {
    let alloc = *text.allocator();
    match named(at, cause, kind, read) {
        Some(line) => {
            if let Some(why) = why(alloc, at, cause, line, kind)? {
                write!(text, "dover: line {at} is ")?;
                append_quoted(text, line)?;
                write!(text, ": {why}\n")?;
            }
        }
        None => {
            if let Some(why) = why_there(cause) {
                write!(text, "dover: line {at}: {why}\n")?;
            }
        }
    }
    Ok(())
}

/// What doesn't fit the limits of a word.
fn why_size(word: &str) -> &'static str {
    match word {
        "best" => "at most 20 jobs, and as many as `dover report` takes",
        "unroll" =>
            "at most 1000000 jobs, whose values sum up to at most 10000000000000: ask for fewer ticks",
        "pause" | "resume" => "a snapshot has at most 1000000 jobs",
        "duel" => "the jobs of such a duel are beyond the limits of a job or a feed",
        _ =>
            "at most 1000000 jobs, due by 1000000000000, whose values sum up to at most 10000000000000",
    }
}

/// Appends by how much the budget of a task is too great that may get the processor so many times.
fn append_window(text: &mut String, task: &str, gets: u64, read: &Kept) -> Result<(), AllocError> {
    let alloc = *text.allocator();
    let line = read.line(number(task).saturating_add(2)).unwrap_or(&[]);
    let line = std::str::from_utf8(line).unwrap_or("");
    let words: Vec<&str> = line.split(' ').collect(alloc)?;
    let work = crate::numerals::number_at(words.as_slice(), 3);
    let room = crate::numerals::number_at(words.as_slice(), 4).saturating_sub(work);
    if let (Some(most), Some(&"task")) = (room.checked_div(gets), words.as_slice().first()) {
        write!(text, "dover: task {task} is ")?;
        append_quoted(text, line.as_bytes())?;
        write!(
            text,
            ": it may get the processor {gets} times, and has room for at most {most} ticks each time\n"
        )?;
    }
    Ok(())
}

fn append_tasks(text: &mut String, task: &str, other: &str) -> Result<(), AllocError> {
    write!(
        text,
        "dover: with their budgets tasks {task} and {other} differ in value per tick by more than k: "
    )?;
    text.push_str("declare k 1000000 1, and then the k of `dover ratio` of what is written\n")
}

/// Appends why something was refused, by the words behind `refused`.
fn append_refused(
    text: &mut String,
    word: &str,
    kind: Text,
    answer: &[&str],
    read: &Kept,
) -> Result<(), AllocError> {
    match answer {
        ["size"] => {
            let why = why_size(word);
            write!(text, "dover: beyond the limits of {word}: {why}\n")
        }
        ["share"] => text.push_str(
            "dover: A/B is at most 1/(1+sqrt(k))^2, which the rules get of every schedule\n",
        ),
        ["front"] => text.push_str("dover: there are fewer than L jobs\n"),
        ["window", task, gets] => append_window(text, task, number(gets), read),
        ["ratio", task, other] => append_tasks(text, task, other),
        [at, "short"] => append_short(text, number(at), kind.refusing(), read),
        [at, cause] => append_line(text, number(at), cause, kind, read),
        _ => Ok(()),
    }
}

/// Appends what is said of an answer, the last line of what was written: the answer itself where it stands elsewhere,
/// and why it came.
pub(crate) fn reasons(
    text: &mut String,
    words: &[String],
    answer: &str,
    read: &Kept,
    elsewhere: bool,
) -> Result<(), AllocError> {
    let word = words.first().map_or("", |it| it.as_str());
    let next = words.get(1).map_or("", |it| it.as_str());
    let kind = text_of(word, next);
    let alloc = *text.allocator();
    let said: Vec<&str> = answer.split(' ').collect(alloc)?;
    if elsewhere && matches!(said.as_slice(), ["refused" | "wrong" | "short", ..]) {
        write!(text, "dover: {word}: {answer}\n")?;
    }
    match said.as_slice() {
        ["refused", rest @ ..] => append_refused(text, word, kind, rest, read),
        ["wrong", at, ..] => append_wrong(text, number(at), kind, read),
        ["short", at] => append_short(text, number(at).saturating_add(1), kind, read),
        _ => Ok(()),
    }
}
