//! Words that ask about the program itself.
ghost use Rattle.std.specs.Prelude.{◌≡◌, ◌∷◌, [], Some, None, IfOk, IfSome, map, string_bytes};
ghost use Rattle.std.specs.Option.{option_map};
ghost use Rattle.dover_port.specs.Causes.{Causes, StopsWith};
ghost use Rattle.dover_port.specs.Moves.{ArePuts, IsProperPrefix, Since, outs};
ghost use Rattle.help_words.specs.Help.{CanTell, asks_help, asks_version, rows_of, told, told_by};

use crate::rows::{append_usage, rows};
use crate::usage::{USAGE, VERSION};
use dover_port::{Port, Status, put_all};
use std::alloc::{AllocError, Global};

/// Whether the word asks for help.
fn asks_help(word: &str) -> bool
    ensures { result ≡ asks_help word.now }
{
    matches!(word, "help" | "--help" | "-h")
}

/// Whether the word asks for the version.
fn asks_version(word: &str) -> bool
    ensures { result ≡ asks_version word.now }
{
    matches!(word, "version" | "--version")
}

/// What is told of a word, if it has rows.
fn told_of(alloc: Global, word: &str) -> Result<Option<String>, AllocError>
    ensures { IfOk result (λ text. option_map string_bytes text ≡ told_by (rows_of word.now)) }
{
    let rows = rows(alloc, word)?;
    if rows.is_empty() {
        return Ok(None);
    }
    let mut text = String::new(alloc);
    append_usage(&mut text, &rows)?;
    Ok(Some(text))
}

/// What is told of one word alone.
fn told_alone(alloc: Global, word: &str) -> Result<Option<String>, AllocError>
    ensures { IfOk result (λ text. option_map string_bytes text ≡ told (word.now ∷ [])) }
{
    if asks_help(word) {
        return Ok(Some(String::from_str(alloc, USAGE)?));
    }
    if !asks_version(word) {
        return Ok(None);
    }
    let mut text = String::from_str(alloc, "dover ")?;
    text.push_str(VERSION)?;
    text.push_str("\n")?;
    Ok(Some(text))
}

/// What the words are told that ask about the program itself. None where they don't.
fn told(alloc: Global, words: &[String]) -> Result<Option<String>, AllocError>
    ensures { IfOk result (λ text. option_map string_bytes text ≡ told (map string_bytes words.now)) }
{
    match words {
        [] => Ok(None),
        [word] => told_alone(alloc, word),
        [word, next, ..] if asks_help(word) => told_of(alloc, next),
        [word, .., last] if asks_help(last) => told_of(alloc, word),
        _ => Ok(None),
    }
}

/// Writes what is told to words that ask about the program itself. Nothing is read. The rows of words:
///
/// - `help`, `--help` or `-h` alone: the usage.
/// - one of these behind other words, or before them: the rows of the usage for the first of those, if it has some.
/// - `version` or `--version`: the version.
///
/// The statuses: `Done` where all of the text was written; `WriteFault` where a write failed, which is then the last;
/// `Memory` where there was none; `Usage` where the words ask for none of these.
pub fn help_word<P: Port>(alloc: Global, words: &[String], port: &mut P) -> Status
    ensures done { result ≡ Status.Done → IfSome (told (map string_bytes words.now))
        (λ text. Since (P.moves port.old) (P.moves port.new) (λ moves. ArePuts moves × (outs moves ≡ text))) }
    ensures cut { result ≡ Status.WriteFault → IfSome (told (map string_bytes words.now))
        (λ text. Since (P.moves port.old) (P.moves port.new)
        (λ moves. ArePuts moves × IsProperPrefix (outs moves) text)) }
    // Without memory nothing is read or written.
    ensures memory { result ≡ Status.Memory → port.new ≡ port.old }
    // Usage comes where the words ask for nothing here, and then nothing is read or written.
    ensures usage { result ≡ Status.Usage → told (map string_bytes words.now) ≡ None }
    ensures idle { result ≡ Status.Usage → port.new ≡ port.old }
    ensures ends { CanTell result }

    ensures causes { Causes result (P.read_faults port.old) (P.read_faults port.new) (P.write_faults port.old)
        (P.write_faults port.new) }
    ensures stops { StopsWith result (P.calls port.old) (P.calls port.new) }
{
    match told(alloc, words) {
        Ok(Some(text)) => match put_all(port, text.as_bytes()) {
            Ok(()) => Status::Done,
            Err(_) => Status::WriteFault,
        },
        Ok(None) => Status::Usage,
        Err(_) => Status::Memory,
    }
}
