//! What is said of a text that is judged to be wrong or short.
use crate::forms::wrong_bytes;
use crate::kept::Kept;
use crate::said::append_quoted;
use crate::texts::Text;
use std::alloc::AllocError;

/// What a first line is, where it begins no text of this kind.
fn wrong_start(line: &[u8], kind: Text) -> &'static str {
    if let Some(why) = wrong_bytes(line) {
        return why;
    }
    if line.starts_with("k ".as_bytes()) && kind == Text::Trace {
        return "it begins a feed, and a trace is read here: `dover serve` makes one of a feed";
    }
    if line.starts_with("dover ".as_bytes()) {
        return "it begins a trace, and a schedule is read here: its first line is `schedule`";
    }
    if kind == Text::Schedule {
        return "the first line of a schedule is `schedule`";
    }
    "a trace begins with its version and k, as `dover 4 100 1 2 1`"
}

/// Appends what stands in line `at` of a text that is wrong there.
pub(crate) fn append_wrong(
    text: &mut String,
    at: u64,
    kind: Text,
    read: &Kept,
) -> Result<(), AllocError> {
    // The lines of a trace behind tasks are counted by themselves.
    if kind == Text::TasksAndTrace {
        return Ok(());
    }
    let Some(line) = read.line(at) else {
        return Ok(());
    };
    if line.starts_with("refused ".as_bytes()) {
        text.push_str("dover: the feed of this text was refused before: ")?;
        append_quoted(text, line)?;
        return text.push_str("\n");
    }
    let why = if at == 1 {
        Some(wrong_start(line, kind))
    } else {
        wrong_bytes(line)
    };
    write!(text, "dover: line {at} is ")?;
    append_quoted(text, line)?;
    match why {
        Some(why) => write!(text, ": {why}\n"),
        None => text.push_str("\n"),
    }
}

/// Appends what is missing where the input ends before line `at`.
pub(crate) fn append_short(
    text: &mut String,
    at: u64,
    kind: Text,
    read: &Kept,
) -> Result<(), AllocError> {
    let last = if kind == Text::Lanes { "close" } else { "end" };
    if kind == Text::TasksAndTrace {
        return text.push_str(
            "dover: the trace behind the tasks ends before its line `end`, or there is none\n",
        );
    }
    match read.line(at) {
        Some(line) if !line.is_empty() && kind != Text::Snapshot => {
            write!(text, "dover: line {at} is ")?;
            append_quoted(text, line)?;
            text.push_str(": no line feed ends it, and so it is none\n")
        }
        _ if at == 1 => text.push_str("dover: the input is empty\n"),
        _ => write!(text, "dover: the input ends before its line `{last}`\n"),
    }
}
