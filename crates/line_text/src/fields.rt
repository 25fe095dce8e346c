//! The fields of a line, and the numbers in them.
ghost use Rattle.std.specs.Prelude.{◌≡◌, ◌≢◌, ◌∷◌, ◌++◌, ◌<◌, ℕ, List, length, Some, IfSome, IfNone};
ghost use Rattle.dover_model.specs.Common.{fields_of, numerals};
ghost use Rattle.line_text.specs.Reading.{fields_left};

use crate::numerals::first_number;
use std::marker::Model;

/// The most numbers that a line has.
const MOST_NUMBERS: usize = 5;

/// Up to five numbers.
#[derive(Drop)]
pub struct Numbers {
    numbers: [u64; MOST_NUMBERS],
    count: usize,
}

impl Model for Numbers {
    ghost use Rattle.std.specs.Prelude.{ℕ, List, take, ◌≤◌};

    ghost Value = { List ℕ };

    ghost view = { λ n. take n.count n.numbers };

    ghost invariant = { λ n. n.count ≤ 5 };
}

impl Numbers {
    ghost use Rattle.std.specs.Prelude.{[], ◌++◌, ◌≤◌, ◌↔◌, IsTrue};

    /// No number.
    fn new() -> Numbers
        ensures { result ≡ [] }
    {
        Numbers {
            numbers: [0; MOST_NUMBERS],
            count: 0,
        }
    }

    /// Whether there are five.
    fn is_full(&self) -> bool
        ensures { IsTrue result ↔ (5 ≤ length self.now) }
    {
        self.count == MOST_NUMBERS
    }

    /// Adds a number.
    fn push(&mut self, number: u64)
        requires { length self.old < 5 }
        ensures { self.new ≡ self.old ++ number ∷ [] }
    {
        self.numbers[self.count] = number;
        self.count += 1;
    }

    /// The numbers in order.
    pub fn as_slice(&self) -> &[u64]
        ensures { result.now ≡ self.now }
    {
        &self.numbers[..self.count]
    }
}

/// The first field of a line, and what follows the space behind it, if there is one.
pub fn cut_field(line: &[u8]) -> (&[u8], Option<&[u8]>)
    ensures fields { fields_of line.now ≡ result.0.now ∷ fields_left result.1 }
    ensures shorter { IfSome result.1 (λ rest. length rest.now < length line.now) }
{
    for (at, byte) in line.iter().enumerate() {
        if *byte == b' ' {
            return (&line[..at], Some(&line[at + 1..]));
        }
    }
    (line, None)
}

/// The numbers that all fields left of a line spell. None where a field is no numeral, or there are more than five.
pub fn read_numbers(fields: Option<&[u8]>) -> Option<Numbers>
    ensures read { IfSome result (λ ns. numerals (fields_left fields.entry) ≡ Some ns) }
    ensures none { IfNone result ((ns : List ℕ) → numerals (fields_left fields.entry) ≡ Some ns → 5 < length ns) }
{
    let mut numbers = Numbers::new();
    let mut left = fields;
    while let Some(text) = left {
        let Some((number, rest)) = first_number(text) else {
            return None;
        };
        if numbers.is_full() {
            return None;
        }
        numbers.push(number);
        left = rest;
    }
    Some(numbers)
}

/// What is left of a line behind a word and a space, where it begins with them.
#[inline(always)]
pub fn behind_word<'a>(line: &'a [u8], word: &[u8]) -> Option<&'a [u8]>
    ensures some { IfSome result (λ rest. line.now ≡ word.now ++ 32 ∷ rest.now) }
    ensures none { IfNone result ((rest : List ℕ) → line.now ≡ word.now ++ 32 ∷ rest → ⊥) }
{
    let end = word.len();
    if line.len() <= end {
        return None;
    }
    for at in 0..end {
        if line[at] != word[at] {
            return None;
        }
    }
    if line[end] != b' ' {
        return None;
    }
    Some(&line[end + 1..])
}

/// The numbers that all fields of a line spell, where there are so many of them.
#[inline(always)]
pub fn numbers_in<const N: usize>(line: &[u8]) -> Option<[u64; N]>
    ensures read { IfSome result (λ ns. numerals (fields_of line.now) ≡ Some ns) }
    ensures none { IfNone result ((ns : List ℕ) → numerals (fields_of line.now) ≡ Some ns → length ns ≢ N) }
{
    let mut numbers = [0; N];
    let mut left = Some(line);
    for at in 0..N {
        let Some(text) = left else {
            return None;
        };
        let Some((number, rest)) = first_number(text) else {
            return None;
        };
        numbers[at] = number;
        left = rest;
    }
    if left.is_some() {
        return None;
    }
    Some(numbers)
}
