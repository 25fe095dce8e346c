//! What is kept of a schedule between its bytes.
ghost use Rattle.std.specs.Prelude.{◌≡◌, ◌<◌, ◌∷◌, ◌++◌, ℕ, List, [], true, length, OnOk};
ghost use Rattle.line_text.specs.Cutting.{IsWholeLine};
ghost use Rattle.schedule_judge.specs.Account.{account, is_open};
ghost use Rattle.schedule_judge.specs.Keeping.{StandsFor};

use crate::intake::Intake;
use dover_model::Memory;
use line_text::{ByteEffect, Lines};
use std::alloc::Global;

/// What is kept of a schedule: the line that has begun, and what the lines before it said.
#[derive(Drop)]
pub(crate) struct ScheduleText {
    pub(crate) lines: Lines,
    pub(crate) intake: Intake,
}

impl ScheduleText {
    /// Nothing was read yet.
    pub(crate) fn new(alloc: Global) -> ScheduleText
        ensures { StandsFor result [] }
    {
        ScheduleText {
            lines: Lines::new(),
            intake: Intake::new(alloc),
        }
    }

    /// Takes a byte of a text that goes on.
    fn take_byte(&mut self, byte: u8) -> Result<(), Memory>
        requires { (x : List ℕ) × StandsFor self.old x × (is_open (account x) ≡ true) }
        ensures { (x : List ℕ) → StandsFor self.old x → is_open (account x) ≡ true →
            OnOk result (StandsFor self.new (x ++ byte ∷ [])) }
    {
        match self.lines.push(byte) {
            ByteEffect::More => Ok(()),
            ByteEffect::Line => self.intake.take_line(self.lines.line()),
            ByteEffect::TooLong => self.intake.take_line(self.lines.line()),
        }
    }

    /// Takes a front of a piece, a byte or a whole line, where the text goes on.
    pub(crate) fn take_front(&mut self, bytes: &[u8]) -> Result<(), Memory>
        requires some { 0 < length bytes.now }
        requires whole { 1 < length bytes.now → IsWholeLine self.old.lines bytes.now }
        requires stands { (x : List ℕ) × StandsFor self.old x × (is_open (account x) ≡ true) }
        ensures { (x : List ℕ) → StandsFor self.old x → is_open (account x) ≡ true →
            OnOk result (StandsFor self.new (x ++ bytes.now)) }
    {
        if bytes.len() > 1 {
            return self.intake.take_line(self.lines.pass(bytes));
        }
        self.take_byte(bytes[0])
    }
}
