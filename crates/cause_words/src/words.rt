//! What words may have been meant, and what is wrong with their numbers.
use crate::numerals::{number, wrong_numeral};
use help_words::USAGE;
use std::alloc::{AllocError, Global};
use strsim::levenshtein;

/// The first words of the usage, in its order, each as often as it has rows.
fn first_words(alloc: Global) -> Result<Vec<&'static str>, AllocError> {
    USAGE
        .lines()
        .filter(|line| line.starts_with("  "))
        .filter_map(|line| line.split(' ').nth(2))
        .collect(alloc)
}

/// Whether a word may be meant by another: with at most two signs changed, which are fewer than half of it.
fn is_near(alloc: Global, word: &str, meant: &str) -> Result<bool, AllocError> {
    if word.eq_ignore_ascii_case(meant) {
        return Ok(true);
    }
    if word.len() > 20 {
        return Ok(false);
    }
    let far = levenshtein(alloc, word, meant)?;
    Ok(far <= 1 && word.len() > 2 || far == 2 && word.len() > 4)
}

/// The first word of the usage that may be meant.
fn meant_by(alloc: Global, word: &str) -> Result<Option<&'static str>, AllocError> {
    let words = first_words(alloc)?;
    for meant in words.as_slice() {
        if is_near(alloc, word, meant)? {
            return Ok(Some(meant));
        }
    }
    Ok(None)
}

/// What the numbers of a word are, by its first two.
fn names(word: &str, next: &str) -> &'static str {
    match (word, next) {
        ("unroll", _) => "UNTIL, the tick before which jobs are released, at most 1000000000000",
        ("budget", _) => "C, the ticks of a change of hands, at most 1000000000000",
        ("report", "why") => "N, the number of a job, at most 1000000",
        ("report", "timeline" | "svg" | "any" | "tasks") =>
            "FROM and UNTIL, and FROM is below UNTIL",
        ("trial" | "draw", _) =>
            "SEED, COUNT, P and Q: P/Q is k, P at least Q and at most 1000000, Q at most 1000",
        ("bait", _) => "P, Q and N, and may be B and C: P/Q is k, and B/C above 1",
        ("duel", _) => "P, Q, A and B, and may be L: P/Q is k, and A/B above 1/(1+sqrt(k))^2",
        _ => "",
    }
}

/// Whether a word is meant to be a number.
fn is_meant_as_number(word: &str) -> bool {
    word.bytes().any(|byte| byte.is_ascii_digit())
}

/// Appends what is wrong with the numbers of words, which begin with a word that there is.
fn append_numbers(text: &mut String, words: &[String], names: &str) -> Result<(), AllocError> {
    for word in words {
        let word = word.as_str();
        if let (true, Some(why)) = (is_meant_as_number(word), wrong_numeral(word)) {
            write!(text, "dover: '{word}' {why}\n")?;
        }
    }
    if !names.is_empty() {
        write!(text, "dover: its numbers are {names}\n")?;
    }
    Ok(())
}

/// Whether these words have a form with numbers.
fn wants_numbers(words: &[String]) -> bool {
    match words.get(1) {
        None => true,
        Some(next) => {
            let last = words.last().map_or("", |it| it.as_str());
            is_meant_as_number(last) || is_meant_as_number(next.as_str()) || number(last) > 0
        }
    }
}

/// What is told to words that ask for nothing, behind what is wrong with them: the word that may be meant, or what its
/// numbers are.
///
/// # Errors
///
/// `AllocError` where there was no memory for the text.
pub fn near_words(alloc: Global, words: &[String]) -> Result<String, AllocError> {
    let mut text = String::new(alloc);
    let Some(word) = words.first() else {
        return Ok(text);
    };
    let word = word.as_str();
    let known = first_words(alloc)?;
    if !known.as_slice().iter().any(|it| *it == word) {
        if let Some(meant) = meant_by(alloc, word)? {
            write!(text, "dover: did you mean {meant}?\n")?;
        }
        return Ok(text);
    }
    let next = words.get(1).map_or("", |it| it.as_str());
    if wants_numbers(words) {
        append_numbers(&mut text, words, names(word, next))?;
    }
    Ok(text)
}
