//! Reading a snapshot, and what follows it.
ghost use Rattle.dover_port.specs.Causes.{Causes, StopsWith};
ghost use Rattle.dover_port.specs.Moves.{Since};
ghost use Rattle.dialogue.specs.Talk.{CanEnd};
ghost use Rattle.feed_words.specs.resume.Record.{Resumes, IsFrugal};

use crate::resume::opening::Opening;
use crate::resume::resuming::{Resuming, SnapshotStage};
use crate::serve::AtEnd;
use comparison_count::Comparisons;
use dialogue::converse;
use dover_port::{Port, Status};
use std::alloc::Global;
use std::sync::ledger::Ledger;

/// Reads a snapshot and what follows it, and writes what `serve` writes for the whole feed beyond what was due where
/// the feed was paused. Nothing is put before the snapshot is whole. `Refused` at its first line that no snapshot has
/// there, with the number of that line, and then as for a feed that is served from its start, with its lines counted
/// from there.
pub fn resume_word<P: Port, L: Ledger>(
    alloc: Global,
    port: &mut P,
    at_end: AtEnd,
    comparisons: &mut Comparisons<L>,
) -> Status
    ensures resumes { Since (P.moves port.old) (P.moves port.new) (Resumes at_end result) }
    ensures count { Since (P.moves port.old) (P.moves port.new) (IsFrugal comparisons.old comparisons.new) }
    ensures ends { CanEnd (Resumes at_end) result }
    ensures causes { Causes result (P.read_faults port.old) (P.read_faults port.new) (P.write_faults port.old)
        (P.write_faults port.new) }
    ensures stops { StopsWith result (P.calls port.old) (P.calls port.new) }
{
    let resuming = Resuming {
        alloc,
        at_end,
        stage: SnapshotStage::Opening(Opening::new(alloc)),
    };
    converse(port, resuming, comparisons)
}
