//! A line of a feed or of a task text from its bytes.
ghost use Rattle.std.specs.Prelude.{◌≡◌, IfSome};
ghost use Rattle.ratio_word.specs.Lines.{IsShort, feed_only, text_line};

use crate::lines::TextLine;
use line_text::feeds::{FeedLine, read_feed_line};
use task_words::reading::read_task_line;

/// The line that a feed alone may have.
fn feed_line(line: &[u8]) -> Option<TextLine>
    ensures { result ≡ feed_only line.now }
{
    let Ok(read) = read_feed_line(line) else {
        return None;
    };
    match read {
        FeedLine::Job {
            release,
            work,
            deadline,
            value,
        } => Some(TextLine::Job {
            release,
            work,
            deadline,
            value,
        }),
        FeedLine::Tick { .. } => Some(TextLine::Mark),
        FeedLine::Done { .. } => Some(TextLine::Mark),
        _ => None,
    }
}

/// The line that the bytes spell, without a line feed: none where they have no form of either text.
pub(crate) fn read_text_line(line: &[u8]) -> Option<TextLine>
    ensures is { result ≡ text_line line.now }
    ensures short { IfSome result IsShort }
{
    match read_task_line(line) {
        Ok(read) => Some(TextLine::Plain(read)),
        Err(_) => feed_line(line),
    }
}
