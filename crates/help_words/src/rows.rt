//! The rows of the usage for a word.
ghost use Rattle.std.specs.Prelude.{◌≡◌, ◌++◌, IfOk, codes, map, string_bytes};
ghost use Rattle.help_words.specs.Help.{rows_of, short_usage};

use crate::usage::USAGE;
use std::alloc::{AllocError, Global};

/// What a row of the word begins with.
fn mark(alloc: Global, word: &str) -> Result<String, AllocError>
    ensures { IfOk result (λ mark. string_bytes mark ≡ codes "  " ++ word.now ++ codes " ") }
{
    let mut mark = String::from_str(alloc, "  ")?;
    mark.push_str(word)?;
    mark.push_str(" ")?;
    Ok(mark)
}

/// The rows of the usage for a word, in order.
pub(crate) fn rows(alloc: Global, word: &str) -> Result<Vec<&'static str>, AllocError>
    ensures { IfOk result (λ rows. map (λ row. row.now) rows.items ≡ rows_of word.now) }
{
    let mark = mark(alloc, word)?;
    let mark = mark.as_bytes();
    USAGE
        .lines()
        .filter(|line| line.as_bytes().starts_with(mark))
        .collect(alloc)
}

/// Appends a short usage of these rows.
pub(crate) fn append_usage(text: &mut String, rows: &[&'static str]) -> Result<(), AllocError>
    ensures { IfOk result (λ _. string_bytes text.new
        ≡ string_bytes text.old ++ short_usage (map (λ row. row.now) rows.now)) }
{
    text.push_str("usage: dover WORD.. [< INPUT]\n")?;
    for row in rows {
        text.push_str(row)?;
        text.push_str("\n")?;
    }
    text.push_str("more:     dover WORD --help, man dover, and docs/MANUAL.md\n")?;
    Ok(())
}
