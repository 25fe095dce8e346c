//! The word.
ghost use Rattle.std.specs.Prelude.{◌≡◌};
ghost use Rattle.dover_port.specs.Causes.{Causes, StopsWith};
ghost use Rattle.dover_port.specs.Moves.{Since};
ghost use Rattle.dialogue.specs.Talk.{Talks, CanEnd};
ghost use Rattle.demand_words.specs.Talk.{demand_talk};

use crate::asking::AskingDemand;
use comparison_count::Comparisons;
use dialogue::converse;
use dover_port::{Port, Status};
use std::alloc::Global;
use std::marker::PhantomData;
use std::sync::ledger::Ledger;
use task_words::reading::TaskReader;

/// Reads a task text to its end, and then writes whether a window can have more work of its tasks in it than ticks,
/// where the jobs of each task come a period apart or more, at any ticks. `met`, with the status `Done`: none can, and
/// no job of theirs is ever lost. `window L W`, with the status `No`: in a window of L ticks they can ask for W. `over`,
/// with the status `No`: they can ask for more than one tick of work a tick in the long run. `refused size`: the test
/// would take too many steps. A text with a fault, or that ends too early, is refused. Memory is taken for each task
/// alone.
pub fn demand_word<P: Port, L: Ledger>(
    alloc: Global,
    port: &mut P,
    comparisons: &mut Comparisons<L>,
) -> Status
    ensures talks { Since (P.moves port.old) (P.moves port.new) (Talks demand_talk result) }
    ensures count { Since (P.moves port.old) (P.moves port.new) (λ moves. comparisons.new ≡ comparisons.old) }
    ensures ends { CanEnd (Talks demand_talk) result }
    ensures causes { Causes result (P.read_faults port.old) (P.read_faults port.new) (P.write_faults port.old)
        (P.write_faults port.new) }
    ensures stops { StopsWith result (P.calls port.old) (P.calls port.new) }
{
    let asking = AskingDemand {
        reader: TaskReader::new(alloc, 0),
        counts: PhantomData,
    };
    converse(port, asking, comparisons)
}
