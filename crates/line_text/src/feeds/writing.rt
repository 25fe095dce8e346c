//! A feed's line as bytes.
ghost use Rattle.std.specs.Prelude.{◌≡◌, ◌++◌, ◌∷◌, [], Some};
ghost use Rattle.dover_model.specs.FeedLine as model;
ghost use Rattle.line_text.specs.feeds.Form.{form_of};

use crate::BackLine;
use crate::feeds::lines::FeedLine;

#[inline(always)]
fn write(line: &FeedLine, to: &mut BackLine)
    requires empty { to.old ≡ 10 ∷ [] }
    ensures text { to.new ≡ model.feed_text (form_of line.now) ++ 10 ∷ [] }
{
    match line {
        FeedLine::Declared {
            p,
            q,
            version: None,
        } => to.put_with_wide(b"k", &[*p, *q]),
        FeedLine::Declared {
            p,
            q,
            version: Some(version),
        } => to.put_with_wide(b"k", &[*p, *q, *version]),
        FeedLine::Factored {
            p,
            q,
            version,
            b,
            c,
        } => to.put_with_wide(b"k", &[*p, *q, *version, *b, *c]),
        FeedLine::Job {
            release,
            work,
            deadline,
            value,
        } => to.put_with_wide(b"job", &[*release, *work, *deadline, *value]),
        FeedLine::Tick { at } => to.put_with_wide(b"tick", &[*at]),
        FeedLine::Done { at, number } => to.put_with_wide(b"done", &[*at, *number]),
        FeedLine::End => to.put_word(b"end"),
    }
}

/// Writes a line before its line feed. Where its numbers are below 10^18, it is read again as the same line.
#[inline(always)]
pub fn write_feed_line(line: &FeedLine, to: &mut BackLine)
    requires empty { to.old ≡ 10 ∷ [] }
    ensures text { to.new ≡ model.feed_text (form_of line.now) ++ 10 ∷ [] }
    ensures again { model.HasNumerals (form_of line.now) →
        model.feed_line (model.feed_text (form_of line.now)) ≡ Some (form_of line.now) }
{
    write(line, to);
}
