//! The word.
ghost use Rattle.dover_port.specs.Causes.{Causes, StopsWith};
ghost use Rattle.dover_port.specs.Moves.{Since};
ghost use Rattle.dialogue.specs.Talk.{CanEnd};
ghost use Rattle.lanes_word.specs.Record.{Serves};
ghost use Rattle.lanes_word.specs.Spending.{IsFrugal};

use crate::hosting::Hosting;
use comparison_count::Comparisons;
use dialogue::converse;
use dover_port::{Port, Status};
use lane_server::LaneInput;
use std::alloc::Global;
use std::marker::PhantomData;
use std::sync::ledger::Ledger;

/// Serves up to 64 feeds that come in one input: reads it to its `close` line, its first fault as a whole or its end,
/// and writes each line that is due for a lane, with the lane's number in front, before the next read. Memory is taken
/// at the start and at lines of lanes alone.
pub fn lanes_word<P: Port, L: Ledger>(
    alloc: Global,
    port: &mut P,
    comparisons: &mut Comparisons<L>,
) -> Status
    ensures serves { Since (P.moves port.old) (P.moves port.new) (Serves result) }
    ensures count { Since (P.moves port.old) (P.moves port.new) (IsFrugal comparisons.old comparisons.new) }
    ensures ends { CanEnd Serves result }
    ensures causes { Causes result (P.read_faults port.old) (P.read_faults port.new) (P.write_faults port.old)
        (P.write_faults port.new) }
    ensures stops { StopsWith result (P.calls port.old) (P.calls port.new) }
{
    match LaneInput::new(alloc) {
        Ok(input) => {
            let hosting = Hosting {
                input,
                counts: PhantomData,
            };
            converse(port, hosting, comparisons)
        }
        Err(_) => Status::Memory,
    }
}
