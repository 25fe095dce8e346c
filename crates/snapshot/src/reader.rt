//! A snapshot read line by line.
ghost use Rattle.std.specs.Prelude.{◌≡◌, ◌≤◌, ℕ, List, [], ◌∷◌, ◌++◌};
ghost use Rattle.ready_server.specs.Serving.{HasPaid};
ghost use Rattle.snapshot.specs.Kept.{IsReading, IsReady, Answers};
ghost use Rattle.snapshot.specs.Feeds.{Gives};
ghost use Rattle.snapshot.specs.Reading.{reading_of};
ghost use Rattle.snapshot.specs.Spending.{jobs_read, jobs_kept, HasSpentOn};

use crate::resuming::Resuming;
use comparison_count::Comparisons;
use event_feed::Intake;
use ready_server::{ReadyServer, Roster};
use std::alloc::Global;
use std::marker::Model;
use std::sync::ledger::Ledger;
use thiserror::Error;

/// Whether a snapshot was read to its last line.
#[derive(Clone, Copy)]
pub enum Got {
    /// No line so far is refused, and the last is still to come.
    More,
    /// The line was the last, and `take` may be called.
    Ready,
}

/// Why a snapshot isn't taken.
#[derive(Clone, Copy, Debug, Error)]
pub enum SnapFault {
    /// This line, numbered from 1, is the first that no snapshot has there.
    #[error("a line of the snapshot is refused")]
    BadSnapshot { line: u64 },
    /// There was no memory for the run or for a job.
    #[error("out of memory")]
    Memory,
}

/// Reads a snapshot, and runs its jobs again.
#[derive(Drop)]
pub struct SnapshotReader {
    alloc: Global,
    resuming: Option<Resuming>,
}

impl Model for SnapshotReader {
    ghost use Rattle.std.specs.Prelude.{Option};
    ghost use Rattle.snapshot.specs.declared.resuming.Resuming.{Resuming};

    ghost Value = { Option Resuming };

    ghost view = { λ r. r.resuming };
}

impl SnapshotReader {
    /// No line came yet. Takes no memory.
    pub fn new(alloc: Global) -> SnapshotReader
        ensures reading { IsReading result [] }
        ensures count { (start : ℕ) → HasSpentOn result start start }
    {
        SnapshotReader {
            alloc,
            resuming: None,
        }
    }

    /// Takes the first line.
    #[inline(never)]
    fn begin(&mut self, line: &[u8]) -> Result<Got, SnapFault>
        requires { self.old ≡ None }
        ensures answers { Answers result self.new (line.now ∷ []) }
        ensures jobs { jobs_kept self.new ≤ jobs_read (reading_of (line.now ∷ [])) }
        ensures count { (start now : ℕ) → now ≤ start → HasSpentOn self.new start now }
    {
        match Resuming::begin(self.alloc, line) {
            Ok(resuming) => {
                self.resuming = Some(resuming);
                Ok(Got::More)
            }
            Err(fault) => Err(fault),
        }
    }

    /// Takes the next line, without its line feed. After `Ready` or a fault no further line may be handed in.
    ///
    /// # Errors
    ///
    /// `BadSnapshot` at the first line that doesn't stand where it is, and `Memory` where there was none for the run or
    /// for the line's job, and the line stands where it is.
    pub fn line<L: Ledger>(
        &mut self,
        line: &[u8],
        comparisons: &mut Comparisons<L>,
    ) -> Result<Got, SnapFault>
        requires { (ls : List (List ℕ)) × IsReading self.old ls }
        ensures answers { (ls : List (List ℕ)) → IsReading self.old ls → Answers result self.new (ls ++ line.now ∷ []) }
        ensures jobs { (ls : List (List ℕ)) → IsReading self.old ls →
            jobs_kept self.new ≤ jobs_read (reading_of (ls ++ line.now ∷ [])) }
        ensures count { (start : ℕ) → HasSpentOn self.old start comparisons.old
            → HasSpentOn self.new start comparisons.new }
    {
        if let Some(resuming) = &mut self.resuming {
            return resuming.line(line, comparisons);
        }
        self.begin(line)
    }

    /// The server in the state that was stored, the roster of its jobs, an intake that was handed as many lines as the
    /// paused feed had, and the mark from which they go on. `line` has answered `Ready`. Takes no memory.
    pub fn take(self) -> (ReadyServer, Roster, Intake, u64)
        requires { (ls : List (List ℕ)) × IsReady self ls }
        ensures gives { (ls : List (List ℕ)) → IsReady self ls → Gives result.0 result.1 result.2 result.3 ls }
        ensures count { (start now : ℕ) → HasSpentOn self start now → HasPaid result.0 start now }
    {
        let Some(resuming) = self.resuming else {
            unreachable!();
        };
        resuming.into_parts()
    }
}
