//! What is kept of a task text between its bytes.
ghost use Rattle.std.specs.Prelude.{◌≡◌, ◌<◌, ◌∷◌, ◌++◌, ℕ, List, [], length};
ghost use Rattle.line_text.specs.Cutting.{IsWholeLine};
ghost use Rattle.task_words.specs.reading.Account.{account};
ghost use Rattle.task_words.specs.reading.Faults.{NamesIn};
ghost use Rattle.task_words.specs.reading.Keeping.{IsKnown, StandsAt, TextStands};
ghost use Rattle.task_words.specs.declared.reading.intake.Progress.TheVariants.{Open};

use crate::reading::intake::{Progress, TaskIntake};
use line_text::{ByteEffect, Lines};
use std::alloc::Global;

/// What is kept of a task text: the line that has begun, and what the lines before it said.
#[derive(Drop)]
pub(crate) struct TaskText {
    pub(crate) lines: Lines,
    pub(crate) intake: TaskIntake,
}

impl TaskText {
    /// Nothing was read yet.
    pub(crate) fn new(alloc: Global, until: u64) -> TaskText
        requires { IsKnown until }
        ensures { TextStands until result [] }
    {
        TaskText {
            lines: Lines::new(),
            intake: TaskIntake::new(alloc, until),
        }
    }

    /// Takes a byte of the text.
    fn take_byte(&mut self, byte: u8) -> Progress
        requires { (until : ℕ) × (x : List ℕ) × TextStands until self.old x }
        ensures at { (until : ℕ) (x : List ℕ) → TextStands until self.old x →
            StandsAt until result self.new.intake (account until (x ++ byte ∷ [])) }
        ensures stands { (until : ℕ) (x : List ℕ) → TextStands until self.old x → result ≡ Open
            → TextStands until self.new (x ++ byte ∷ []) }
        ensures names { (until : ℕ) (x : List ℕ) → TextStands until self.old x →
            NamesIn until result (x ++ byte ∷ []) }
    {
        match self.lines.push(byte) {
            ByteEffect::More => Progress::Open,
            ByteEffect::Line => self.intake.take_line(self.lines.line()),
            ByteEffect::TooLong => self.intake.take_line(self.lines.line()),
        }
    }

    /// Takes a front of a piece, a byte or a whole line.
    pub(crate) fn take_front(&mut self, bytes: &[u8]) -> Progress
        requires some { 0 < length bytes.now }
        requires whole { 1 < length bytes.now → IsWholeLine self.old.lines bytes.now }
        requires stands { (until : ℕ) × (x : List ℕ) × TextStands until self.old x }
        ensures at { (until : ℕ) (x : List ℕ) → TextStands until self.old x →
            StandsAt until result self.new.intake (account until (x ++ bytes.now)) }
        ensures stands { (until : ℕ) (x : List ℕ) → TextStands until self.old x → result ≡ Open
            → TextStands until self.new (x ++ bytes.now) }
        ensures names { (until : ℕ) (x : List ℕ) → TextStands until self.old x →
            NamesIn until result (x ++ bytes.now) }
    {
        if bytes.len() > 1 {
            return self.intake.take_line(self.lines.pass(bytes));
        }
        self.take_byte(bytes[0])
    }
}
