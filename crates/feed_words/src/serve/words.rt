//! The words.
ghost use Rattle.dover_port.specs.Causes.{Causes, StopsWith};
ghost use Rattle.dover_port.specs.Moves.{Since};
ghost use Rattle.dialogue.specs.Talk.{Talks, CanEnd};
ghost use Rattle.feed_words.specs.serve.Spending.{IsFrugal};
ghost use Rattle.feed_words.specs.serve.Talk.{feed_talk};
ghost use Rattle.feed_words.specs.declared.serve.at_end.AtEnd.TheVariants.{Refuse, Pause};

use crate::serve::pausing::Pausing;
use crate::serve::serving::Serving;
use comparison_count::Comparisons;
use dialogue::converse;
use dover_port::{Port, Status};
use std::alloc::Global;
use std::sync::ledger::Ledger;

/// Serves a feed: reads it to its `end` line, its first faulty line or the end of the input, and writes each line of
/// its trace that is settled before the next read. Memory is taken at the ratio line and for each admitted job alone.
pub fn serve_word<P: Port, L: Ledger>(
    alloc: Global,
    port: &mut P,
    comparisons: &mut Comparisons<L>,
) -> Status
    ensures talks { Since (P.moves port.old) (P.moves port.new) (Talks (feed_talk Refuse) result) }
    ensures count { Since (P.moves port.old) (P.moves port.new) (IsFrugal comparisons.old comparisons.new) }
    ensures ends { CanEnd (Talks (feed_talk Refuse)) result }
    ensures causes { Causes result (P.read_faults port.old) (P.read_faults port.new) (P.write_faults port.old)
        (P.write_faults port.new) }
    ensures stops { StopsWith result (P.calls port.old) (P.calls port.new) }
{
    converse(port, Serving::<L>::new(alloc), comparisons)
}

/// Serves a feed, as `serve_word` does, but for the end of an input behind whole lines: there the feed's snapshot is
/// put behind what is due, or, where the feed has more than 1,000,000 jobs, that it is refused for its size.
pub fn pause_word<P: Port, L: Ledger>(
    alloc: Global,
    port: &mut P,
    comparisons: &mut Comparisons<L>,
) -> Status
    ensures talks { Since (P.moves port.old) (P.moves port.new) (Talks (feed_talk Pause) result) }
    ensures count { Since (P.moves port.old) (P.moves port.new) (IsFrugal comparisons.old comparisons.new) }
    ensures ends { CanEnd (Talks (feed_talk Pause)) result }
    ensures causes { Causes result (P.read_faults port.old) (P.read_faults port.new) (P.write_faults port.old)
        (P.write_faults port.new) }
    ensures stops { StopsWith result (P.calls port.old) (P.calls port.new) }
{
    converse(port, Pausing::<L>::new(alloc), comparisons)
}
