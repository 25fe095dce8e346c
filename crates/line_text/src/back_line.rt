//! A line that is written from its end.
ghost use Rattle.std.specs.Prelude.{◌≡◌, ◌≤◌, ◌+◌, ◌++◌, drop, length};
ghost use Rattle.line_text.specs.Writing.{numbers_behind};

use crate::spelled::{SPELLED_BYTES, Spelled};
use itoa::{Buffer, write_digits};
use std::marker::Model;

// The bytes of the longest line that is written, which is a row of a table.
const WRITTEN_BYTES: usize = 170;

/// The bytes of one line with its line feed. What is written goes before what it has, so the last field comes first.
#[derive(Drop)]
pub struct BackLine {
    bytes: [u8; WRITTEN_BYTES],
    start: usize,
}

/// Writes numbers, each behind a space, so that they end at `end`, and answers where they begin.
#[inline(always)]
pub(crate) fn put_before(bytes: &mut [u8], end: usize, numbers: &[u64]) -> usize
    requires room { length (numbers_behind numbers.now) ≤ end }
    requires end { end ≤ length bytes.old }
    ensures written { drop result bytes.new ≡ numbers_behind numbers.now ++ drop end bytes.old }
    ensures start { result + length (numbers_behind numbers.now) ≡ end }
{
    let mut start = end;
    let mut left = numbers.len();
    while left > 0 {
        left -= 1;
        start = write_digits(numbers[left], bytes, start) - 1;
        bytes[start] = b' ';
    }
    start
}

impl Model for BackLine {
    ghost use Rattle.std.specs.Prelude.{ℕ, List, drop, ◌≤◌};

    ghost Value = { List ℕ };

    ghost view = { λ b. drop b.start b.bytes };

    ghost invariant = { λ b. b.start ≤ 170 };
}

impl BackLine {
    ghost use Rattle.std.specs.Prelude.{◌≡◌, ◌≤◌, ◌+◌, ◌*◌, ◌++◌, ◌∷◌, [], length, decimal};
    ghost use Rattle.dover_model.specs.Lines.{with_numbers};
    ghost use Rattle.dover_model.specs.Numerals.{AreShort};
    ghost use Rattle.line_text.specs.Writing.{most_written, numbers_behind};

    /// A line that has its line feed alone.
    #[inline(always)]
    pub fn new() -> BackLine
        ensures { result ≡ 10 ∷ [] }
    {
        let start = WRITTEN_BYTES - 1;
        let mut bytes = [0; WRITTEN_BYTES];
        bytes[start] = b'\n';
        BackLine { bytes, start }
    }

    /// A line with nothing in it yet, not even a line feed.
    pub fn empty() -> BackLine
        ensures { result ≡ [] }
    {
        BackLine {
            bytes: [0; WRITTEN_BYTES],
            start: WRITTEN_BYTES,
        }
    }

    /// Leaves its line feed alone.
    #[inline(always)]
    pub fn clear(&mut self)
        ensures { self.new ≡ 10 ∷ [] }
    {
        self.start = WRITTEN_BYTES - 1;
        self.bytes[self.start] = b'\n';
    }

    /// Writes a word.
    #[inline(always)]
    pub fn put_word(&mut self, word: &[u8])
        requires { length word.now + length self.old ≤ most_written }
        ensures { self.new ≡ word.now ++ self.old }
    {
        let start = self.start - word.len();
        self.bytes[start..self.start].copy_from_slice(word);
        self.start = start;
    }

    /// Writes a number.
    #[inline(always)]
    pub fn put_number(&mut self, number: u64)
        requires { length (decimal number) + length self.old ≤ most_written }
        ensures { self.new ≡ decimal number ++ self.old }
    {
        self.start = write_digits(number, &mut self.bytes, self.start);
    }

    /// Writes a number of at most 39 digits.
    pub fn put_long(&mut self, number: u128)
        requires { 39 + length self.old ≤ most_written }
        ensures is { self.new ≡ decimal number ++ self.old }
        ensures size { length self.new ≤ 39 + length self.old }
    {
        let mut digits = Buffer::new();
        self.put_word(digits.format(number).as_bytes());
    }

    /// Writes numbers, each behind a space.
    #[inline(always)]
    pub fn put_numbers(&mut self, numbers: &[u64])
        requires short { AreShort numbers.now }
        requires fits { 19 * length numbers.now + length self.old ≤ most_written }
        ensures is { self.new ≡ numbers_behind numbers.now ++ self.old }
        ensures size { length self.new ≤ 19 * length numbers.now + length self.old }
    {
        self.start = put_before(&mut self.bytes, self.start, numbers);
    }

    /// Writes a word and numbers.
    #[inline(always)]
    pub fn put_with_numbers(&mut self, word: &[u8], numbers: &[u64])
        requires short { AreShort numbers.now }
        requires fits { length word.now + 19 * length numbers.now + length self.old ≤ most_written }
        ensures { self.new ≡ with_numbers word.now numbers.now ++ self.old }
    {
        self.start = put_before(&mut self.bytes, self.start, numbers);
        self.put_word(word);
    }

    /// Writes a word and numbers that may be wide. With 21 bytes for each number there is room for them.
    #[inline(always)]
    pub fn put_with_wide(&mut self, word: &[u8], numbers: &[u64])
        requires { length word.now + 21 * length numbers.now + length self.old ≤ most_written }
        ensures is { self.new ≡ with_numbers word.now numbers.now ++ self.old }
        ensures size { length self.new ≤ length word.now + 21 * length numbers.now + length self.old }
    {
        self.start = put_before(&mut self.bytes, self.start, numbers);
        self.put_word(word);
    }

    /// Writes the numbers of a job line, each behind a space, with the text that they come with.
    #[inline(always)]
    pub fn put_spelled(&mut self, spelled: &Spelled)
        requires { 76 + length self.old ≤ most_written }
        ensures is { self.new ≡ numbers_behind spelled.now ++ self.old }
        ensures size { length self.new ≤ 76 + length self.old }
    {
        let low = self.start - SPELLED_BYTES;
        self.bytes[low..self.start].copy_from_slice(&spelled.bytes);
        self.start = low + spelled.start;
    }

    /// The bytes written so far.
    #[inline(always)]
    pub fn bytes(&self) -> &[u8]
        ensures is { result.now ≡ self.now }
        ensures fits { length result.now ≤ 170 }
    {
        &self.bytes[self.start..]
    }
}
