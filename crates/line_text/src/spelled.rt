//! The numbers of a job line with the text that spells them.
ghost use Rattle.std.specs.Prelude.{◌≡◌};

use crate::back_line::put_before;
use block_copy::copy_short;
use std::marker::Model;

/// How many numbers a job line has.
const JOB_NUMBERS: usize = 4;

/// Room for the numbers of a job line, each of at most 18 digits behind a space.
pub(crate) const SPELLED_BYTES: usize = 76;

/// The four numbers of a job line with their text, each number behind a space. So a line that has the same numbers
/// takes the text, and they aren't spelled anew.
#[derive(Drop)]
pub struct Spelled {
    numbers: [u64; JOB_NUMBERS],
    pub(crate) bytes: [u8; SPELLED_BYTES],
    pub(crate) start: usize,
}

impl Model for Spelled {
    ghost use Rattle.std.specs.Prelude.{ℕ, List, drop, ◌≤◌, ◌≡◌};
    ghost use Rattle.line_text.specs.Writing.{numbers_behind};

    ghost Value = { List ℕ };

    ghost view = { λ s. s.numbers };

    ghost invariant = { λ s. (s.start ≤ 76) × (drop s.start s.bytes ≡ numbers_behind s.numbers) };
}

impl Spelled {
    ghost use Rattle.std.specs.Prelude.{◌≡◌, ◌≤◌, ◌∷◌, [], length, IsTrue};
    ghost use Rattle.line_text.specs.Writing.{numbers_behind};

    /// Four zeros.
    pub fn new() -> Spelled
        ensures { result ≡ 0 ∷ 0 ∷ 0 ∷ 0 ∷ [] }
    {
        let numbers = [0; JOB_NUMBERS];
        let mut bytes = [0; SPELLED_BYTES];
        let start = put_before(&mut bytes, SPELLED_BYTES, &numbers);
        Spelled {
            numbers,
            bytes,
            start,
        }
    }

    /// Keeps these numbers with the text that spells them.
    #[inline(always)]
    pub fn keep(&mut self, numbers: &[u64; JOB_NUMBERS], text: &[u8])
        requires spelled { text.now ≡ numbers_behind numbers.now }
        requires fits { length text.now ≤ 76 }
        ensures { self.new ≡ numbers.now }
    {
        let start = SPELLED_BYTES - text.len();
        copy_short(&mut self.bytes[start..], text);
        self.start = start;
        self.numbers = *numbers;
    }

    /// Whether it has these numbers.
    #[inline(always)]
    pub fn has(&self, numbers: &[u64; JOB_NUMBERS]) -> bool
        ensures { IsTrue result → self.now ≡ numbers.now }
    {
        self.numbers == *numbers
    }
}
