//! What is wrong with the declaration of k.
use crate::numerals::number_at;

fn wrong_ratio(words: &[&str]) -> Option<&'static str> {
    let above = number_at(words, 1);
    let below = number_at(words, 2);
    if below == 0 || below > 1_000 {
        return Some(
            "k is P/Q, with Q from 1 to 1000: `k 100 1 4 2 1`, if the densest job has 100 times the least",
        );
    }
    if above < below {
        return Some("k is P/Q and at least 1, so P is at least Q");
    }
    if above > 1_000_000 {
        return Some("k is P/Q, with P at most 1000000");
    }
    None
}

fn wrong_factor(words: &[&str]) -> Option<&'static str> {
    let above = number_at(words, 4);
    let below = number_at(words, 5);
    if number_at(words, 3) < 3 {
        return Some("a factor is declared in versions 3 and 4 alone");
    }
    if below == 0 || below > 1_000 {
        return Some("the factor is B/C, with C from 1 to 1000");
    }
    if above <= below {
        return Some("the factor B/C is above 1, as 2 1");
    }
    Some("the factor is B/C, with B at most 1000000")
}

/// Why line `number` declares nothing.
pub(crate) fn wrong_declaration(number: u64, words: &[&str]) -> &'static str {
    if number > 1 {
        return "only line 1 declares k";
    }
    if words.first() != Some(&"k") {
        return "line 1 declares k, as `k 100 1 4 2 1` does: k is 100/1, by version 4 with the factor 2/1";
    }
    if let Some(why) = wrong_ratio(words) {
        return why;
    }
    let version = number_at(words, 3);
    if words.len() > 3 && !(2..=4).contains(&version) {
        return "a version is 2, 3 or 4, and without one it is 1";
    }
    if words.len() > 4 {
        return wrong_factor(words).unwrap_or("the factor is out of its limits");
    }
    "a number is out of its limits"
}
