//! Words that ask for nothing.
ghost use Rattle.std.specs.Prelude.{◌≡◌, ◌++◌, IfOk, flat_map, map, string_bytes};
ghost use Rattle.help_words.specs.Help.{hint_by, quoted, rows_of, told_wrong};

use crate::rows::{append_usage, rows};
use crate::usage::USAGE;
use std::alloc::{AllocError, Global};

/// Where to look for words, of which this is the first.
fn hint(alloc: Global, word: &str) -> Result<String, AllocError>
    ensures { IfOk result (λ text. string_bytes text ≡ hint_by (rows_of word.now)) }
{
    let rows = rows(alloc, word)?;
    let mut text = String::new(alloc);
    if rows.is_empty() {
        text.push_str("usage: dover WORD.., and dover help says which words there are\n")?;
    } else {
        append_usage(&mut text, &rows)?;
    }
    Ok(text)
}

/// Appends these words, each in quotes behind a blank.
fn append_quoted(text: &mut String, words: &[String]) -> Result<(), AllocError>
    ensures { IfOk result (λ _. string_bytes text.new
        ≡ string_bytes text.old ++ flat_map quoted (map string_bytes words.now)) }
{
    for word in words {
        text.push_str(" '")?;
        text.push_str(word)?;
        text.push_str("'")?;
    }
    Ok(())
}

/// What is told to words that ask for nothing, whether of `dover` or of the program itself: no words are told the
/// usage, and others the rows of the first one, if it has some, and which words they were.
///
/// # Errors
///
/// `AllocError` where there was no memory for the text.
pub fn wrong_words(alloc: Global, words: &[String]) -> Result<String, AllocError>
    ensures { IfOk result (λ text. string_bytes text ≡ told_wrong (map string_bytes words.now)) }
{
    let Some(word) = words.first() else {
        return String::from_str(alloc, USAGE);
    };
    let mut text = hint(alloc, word)?;
    text.push_str("dover: these words ask for nothing:")?;
    append_quoted(&mut text, words)?;
    text.push_str("\n")?;
    Ok(text)
}
