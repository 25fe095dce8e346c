//! What is wrong with the form of a line.
use crate::numerals::wrong_numeral;
use crate::texts::Text;
use std::alloc::{AllocError, Global};

/// What is wrong with the bytes of a line, whatever it says.
pub(crate) fn wrong_bytes(line: &[u8]) -> Option<&'static str> {
    if line.is_empty() {
        return Some("it is empty, and no line is");
    }
    if line.starts_with(&[0xef, 0xbb, 0xbf]) {
        return Some("it begins with a byte order mark: save the text without one");
    }
    if line.last() == Some(&b'\r') {
        return Some("it ends in a carriage return: `tr -d '\\r'` takes them out");
    }
    if line.first() == Some(&b'#') {
        return Some("it is a comment, and there are none: `grep -v '^#'` takes them out");
    }
    if line.contains(&b'\t') {
        return Some("it has a tab: words are parted by one space");
    }
    if !line
        .iter()
        .all(|byte| byte.is_ascii_graphic() || *byte == b' ')
    {
        return Some("it has a byte that is no sign of ASCII");
    }
    if line.len() > 128 {
        return Some("it has more than 128 bytes");
    }
    None
}

/// What is wrong with the spaces of a line.
fn wrong_spaces(line: &str) -> Option<&'static str> {
    if line.starts_with(' ') {
        return Some("it begins with a space");
    }
    if line.ends_with(' ') {
        return Some("it ends in a space");
    }
    if line.contains("  ") {
        return Some("it has two spaces side by side: words are parted by one");
    }
    None
}

/// What is wrong with the first word of a line, where this text is read.
fn wrong_first(word: &str, text: Text) -> Option<&'static str> {
    match word {
        "k" | "end" => None,
        "job" | "tick" | "done" if text.has_jobs() => None,
        "job" | "tick" | "done" => Some(
            "it is a line of a feed, and tasks are read here: `task` lines",
        ),
        "task" if text.has_tasks() => None,
        "task" => Some(
            "it is a task, and a feed is read here: `dover unroll UNTIL` makes one of tasks",
        ),
        "dover" => Some("it begins a trace, which `dover judge` and `dover report` read"),
        "snapshot" | "state" => Some("it is of a snapshot, which `dover resume` reads"),
        "K" | "JOB" | "Job" | "TICK" | "Tick" | "DONE" | "Done" | "TASK" | "Task" | "END" | "End" =>
            { Some("its first word isn't in small letters") }
        _ if word.contains(',') || word.contains(';') => {
            Some("it is of a table: examples/tasks_of makes a task text of one")
        }
        _ if word.starts_with("//") => Some("it is a comment, and there are none"),
        _ => Some("its first word is of no line here"),
    }
}

/// How many numbers stand behind the first word of a line, at least and at most, and which.
fn numbers_of(word: &str) -> (usize, usize, &'static str) {
    match word {
        "k" => (2, 5, "P Q, or P Q VERSION, or P Q VERSION B C"),
        "job" => (4, 4, "RELEASE WORK DEADLINE VALUE"),
        "task" => (5, 5, "OFFSET PERIOD WORK DEADLINE VALUE, and may be a name"),
        "tick" => (1, 1, "T"),
        "done" => (2, 2, "T N"),
        _ => (0, 0, "nothing"),
    }
}

/// What is wrong with the name of a task.
fn wrong_name(name: &str) -> Option<&'static str> {
    if name.len() > 16 {
        return Some("its name has more than 16 signs");
    }
    if name.bytes().all(|it| it.is_ascii_alphanumeric() || it == b'-' || it == b'_') {
        return None;
    }
    Some("its name has a sign that is no letter, digit, - or _")
}

/// The first of these words that is no numeral, by its number from 1 on.
fn wrong_number(alloc: Global, words: &[&str]) -> Result<Option<String>, AllocError> {
    let mut at: u64 = 1;
    for word in words {
        if let Some(why) = wrong_numeral(word) {
            return Ok(Some(format!(in alloc; "number {at} of it, '{word}', {why}")?));
        }
        at = at.saturating_add(1);
    }
    Ok(None)
}

/// What is wrong with the numbers behind the first word of a line.
fn wrong_numbers(alloc: Global, first: &str, words: &[&str]) -> Result<Option<String>, AllocError> {
    let (least, most, which) = numbers_of(first);
    let numbers = if first == "task" {
        words.get(..most).unwrap_or(words)
    } else {
        words
    };
    if let Some(why) = wrong_number(alloc, numbers)? {
        return Ok(Some(why));
    }
    let count = words.len();
    let named = first == "task" && count > most;
    if count < least || (count > most && !named) || (first == "k" && count == 4) {
        return Ok(Some(format!(in alloc;
            "it has {count} numbers, and behind `{first}` stand {which}"
        )?));
    }
    if !named {
        return Ok(None);
    }
    if count > 6 {
        return Ok(Some(String::from_str(
            alloc,
            "a name has no spaces, and nothing stands behind it",
        )?));
    }
    own(alloc, words.last().and_then(|name| wrong_name(name)))
}

/// A text of one's own.
pub(crate) fn own(alloc: Global, text: Option<&'static str>) -> Result<Option<String>, AllocError> {
    match text {
        Some(text) => Ok(Some(String::from_str(alloc, text)?)),
        None => Ok(None),
    }
}

/// What is wrong with the form of a line, where this text is read. None: it isn't known.
pub(crate) fn wrong_form(
    alloc: Global,
    line: &str,
    text: Text,
) -> Result<Option<String>, AllocError> {
    if let Some(why) = wrong_spaces(line) {
        return own(alloc, Some(why));
    }
    let words: Vec<&str> = line.split(' ').collect(alloc)?;
    match words.as_slice() {
        [first, numbers @ ..] => match wrong_first(first, text) {
            Some(why) => own(alloc, Some(why)),
            None => wrong_numbers(alloc, first, numbers),
        },
        [] => Ok(None),
    }
}
