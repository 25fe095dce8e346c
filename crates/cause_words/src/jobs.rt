//! What is wrong with the numbers of a job or a task.
use crate::numerals::number_at;

fn wrong_work(work: u64, value: u64) -> Option<&'static str> {
    if work == 0 {
        return Some("its work is 0, and at least 1");
    }
    if work > 1_000_000_000_000 {
        return Some("its work is above 1000000000000");
    }
    if value == 0 {
        return Some("its value is 0, and at least 1");
    }
    if value > 1_000_000_000 {
        return Some("its value is above 1000000000");
    }
    None
}

fn wrong_task(words: &[&str]) -> &'static str {
    if number_at(words, 2) == 0 {
        return "its period is 0, and at least 1";
    }
    let work = number_at(words, 3);
    if let Some(why) = wrong_work(work, number_at(words, 5)) {
        return why;
    }
    if work > number_at(words, 4) {
        return "it has more work than ticks to its deadline, so no job of it can be done";
    }
    "a job of it is due behind the last tick"
}

/// Why a limit of one job is broken by these words of a line.
pub(crate) fn wrong_job(words: &[&str]) -> &'static str {
    if words.first() == Some(&"task") {
        return wrong_task(words);
    }
    let work = number_at(words, 2);
    if let Some(why) = wrong_work(work, number_at(words, 4)) {
        return why;
    }
    if number_at(words, 1).saturating_add(work) > number_at(words, 3) {
        return "its release and its work are above its deadline, so it can't be done";
    }
    "it is due behind the last tick"
}
