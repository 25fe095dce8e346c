//! A schedule that comes in pieces.
ghost use Rattle.std.specs.Prelude.{◌≡◌, ◌<◌, ℕ, List, [], true, length, IfOk};
ghost use Rattle.schedule_judge.specs.Account.{account, is_open};
ghost use Rattle.schedule_judge.specs.Keeping.{IsClosed, Reads, TakesFront};

use crate::intake::Standing;
use crate::text::ScheduleText;
use dover_model::{Memory, PackedEvent};
use std::alloc::Global;

/// What is kept of a schedule that comes in pieces.
#[derive(Drop)]
pub struct ScheduleReader {
    text: ScheduleText,
}

/// The last word on a text.
#[derive(Drop)]
pub struct Closed {
    /// How many lines came, up to the first that is wrong.
    pub lines: u64,
    /// How the text stands.
    pub standing: Standing,
    /// The steps of the good lines.
    pub steps: Vec<PackedEvent>,
}

impl ScheduleReader {
    /// Nothing was read yet.
    pub fn new(alloc: Global) -> ScheduleReader
        ensures { Reads result [] }
    {
        ScheduleReader {
            text: ScheduleText::new(alloc),
        }
    }

    /// The text goes on by a front of the piece, and how many bytes that is: those of a whole line, or one. Memory is
    /// taken for each line.
    ///
    /// # Errors
    ///
    /// `Memory` where there is none; the reader isn't called again.
    pub fn take(&mut self, piece: &[u8]) -> Result<usize, Memory>
        requires some { 0 < length piece.now }
        requires open_still { (x : List ℕ) × Reads self.old x × (is_open (account x) ≡ true) }
        ensures takes { (x : List ℕ) → Reads self.old x → is_open (account x) ≡ true →
            IfOk result (λ n. TakesFront self.new x piece.now n) }
    {
        let count = self.text.lines.front(piece);
        match self.text.take_front(&piece[..count]) {
            Ok(()) => Ok(count),
            Err(error) => Err(error),
        }
    }

    /// Whether the text goes on: no line has ended it, none is wrong, and none is one too many.
    pub fn goes_on(&self) -> bool
        ensures { (x : List ℕ) → Reads self.now x → result ≡ is_open (account x) }
    {
        self.text.intake.is_open()
    }

    /// The last word on the text.
    pub fn close(self) -> Closed
        ensures { (x : List ℕ) → Reads self x → IsClosed result (account x) }
    {
        let intake = self.text.intake;
        let lines = intake.lines();
        let standing = intake.standing();
        Closed {
            lines,
            standing,
            steps: intake.into_steps(),
        }
    }
}
