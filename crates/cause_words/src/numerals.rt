//! What is wrong with a numeral.

/// Why a word isn't a numeral: 1 to 18 digits without a leading zero, except `0` itself.
pub(crate) fn wrong_numeral(word: &str) -> Option<&'static str> {
    if word.bytes().all(|byte| byte.is_ascii_digit()) {
        if word.len() > 1 && word.starts_with('0') {
            return Some("has a leading zero");
        }
        return if word.len() > 18 {
            Some("has more than 18 digits")
        } else {
            None
        };
    }
    if word.starts_with('+') || word.starts_with('-') {
        return Some("has a sign, and numbers are from 0 on");
    }
    if word.contains('.') {
        return Some("isn't a whole number");
    }
    Some("isn't a number in digits alone")
}

/// The number of a numeral, and 0 of another word.
pub(crate) fn number(word: &str) -> u64 {
    word.parse::<u64>().unwrap_or(0)
}

/// Word `at` of a line as a number, and 0 where there is none.
pub(crate) fn number_at(words: &[&str], at: usize) -> u64 {
    match words.get(at) {
        Some(word) => number(word),
        None => 0,
    }
}
