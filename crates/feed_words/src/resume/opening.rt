//! What is read first of a feed that goes on: its snapshot.
ghost use Rattle.std.specs.Prelude.{◌≤◌, ◌<◌, ℕ, List, [], ◌∷◌, ◌++◌, length};
ghost use Rattle.dover_model.specs.Lines.{lines_of};
ghost use Rattle.line_text.specs.Cutting.{IsWholeLine};
ghost use Rattle.snapshot.specs.Reading.{reading_of};
ghost use Rattle.snapshot.specs.Spending.{jobs_read, jobs_kept, HasSpentOn};
ghost use Rattle.feed_words.specs.resume.Opening.{OpeningStands, Takes, TakesFront, HasFewOf};

use comparison_count::Comparisons;
use line_text::{ByteEffect, Lines};
use snapshot::{Got, SnapFault, SnapshotReader};
use std::alloc::Global;
use std::sync::ledger::Ledger;

/// What is kept of a snapshot: the line that has begun, and what the lines before it said.
#[derive(Drop)]
pub(crate) struct Opening {
    pub(crate) lines: Lines,
    pub(crate) reader: SnapshotReader,
}

impl Opening {
    /// Nothing was read yet.
    pub(crate) fn new(alloc: Global) -> Opening
        ensures stands { OpeningStands result [] }
        ensures count { (start : ℕ) → HasSpentOn result.reader start start }
    {
        Opening {
            lines: Lines::new(),
            reader: SnapshotReader::new(alloc),
        }
    }

    /// Takes a byte.
    fn open_byte<L: Ledger>(
        &mut self,
        byte: u8,
        comparisons: &mut Comparisons<L>,
    ) -> Result<Got, SnapFault>
        requires { (x : List ℕ) × OpeningStands self.old x }
        ensures takes { (x : List ℕ) → OpeningStands self.old x → Takes result self.new (x ++ byte ∷ []) }
        ensures jobs { (x : List ℕ) → OpeningStands self.old x →
            jobs_kept self.new.reader ≤ jobs_read (reading_of (lines_of (x ++ byte ∷ []))) }
        ensures count { (start : ℕ) → HasSpentOn self.old.reader start comparisons.old →
            HasSpentOn self.new.reader start comparisons.new }
    {
        match self.lines.push(byte) {
            ByteEffect::More => Ok(Got::More),
            ByteEffect::Line => self.reader.line(self.lines.line(), comparisons),
            ByteEffect::TooLong => self.reader.line(self.lines.line(), comparisons),
        }
    }

    /// Takes a byte, or a whole line with its line feed where no line has begun.
    fn open_front<L: Ledger>(
        &mut self,
        bytes: &[u8],
        comparisons: &mut Comparisons<L>,
    ) -> Result<Got, SnapFault>
        requires some { 0 < length bytes.now }
        requires whole { 1 < length bytes.now → IsWholeLine self.old.lines bytes.now }
        requires stands { (x : List ℕ) × OpeningStands self.old x }
        ensures takes { (x : List ℕ) → OpeningStands self.old x → Takes result self.new (x ++ bytes.now) }
        ensures jobs { (x : List ℕ) → OpeningStands self.old x →
            jobs_kept self.new.reader ≤ jobs_read (reading_of (lines_of (x ++ bytes.now))) }
        ensures count { (start : ℕ) → HasSpentOn self.old.reader start comparisons.old →
            HasSpentOn self.new.reader start comparisons.new }
    {
        if bytes.len() > 1 {
            return self.reader.line(self.lines.pass(bytes), comparisons);
        }
        self.open_byte(bytes[0], comparisons)
    }

    /// Takes a front of a piece, at least a byte, and says how many bytes, and whether the snapshot is whole.
    pub(crate) fn take<L: Ledger>(
        &mut self,
        piece: &[u8],
        comparisons: &mut Comparisons<L>,
    ) -> Result<(usize, Got), SnapFault>
        requires some { 0 < length piece.now }
        requires stands { (x : List ℕ) × OpeningStands self.old x }
        ensures takes { (x : List ℕ) → OpeningStands self.old x → TakesFront result self.new x piece.now }
        ensures jobs { (x : List ℕ) → OpeningStands self.old x → HasFewOf self.new.reader x piece.now }
        ensures count { (start : ℕ) → HasSpentOn self.old.reader start comparisons.old →
            HasSpentOn self.new.reader start comparisons.new }
    {
        let count = self.lines.front(piece);
        match self.open_front(&piece[..count], comparisons) {
            Ok(got) => Ok((count, got)),
            Err(fault) => Err(fault),
        }
    }
}
