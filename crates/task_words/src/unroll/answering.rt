//! The answer to tasks.
ghost use Rattle.std.specs.Prelude.{◌≡◌, []};
ghost use Rattle.dialogue.specs.Turns.{StopCause, StopsOn};
ghost use Rattle.dover_model.specs.Common.{IsRatio, IsDeclarable};
ghost use Rattle.task_words.specs.tasks.Limits.{AreTasks};
ghost use Rattle.task_words.specs.reading.Keeping.{IsKnown};
ghost use Rattle.task_words.specs.reading.Record.{listed_rules};
ghost use Rattle.task_words.specs.asking.Putting.{SaysBy};
ghost use Rattle.task_words.specs.unroll.Says.{Says};
ghost use Rattle.task_words.specs.unroll.Spending.{UnrollsAtMost};

use crate::reading::ListedTasks;
use crate::tasks::{Unrolling, fits};
use crate::unroll::feeds::put_feed;
use comparison_count::Comparisons;
use dialogue::Stop;
use dover_port::{Output, Port, Status};
use std::alloc::Global;
use std::sync::ledger::Ledger;

/// Puts the feed of the jobs that the tasks release before a tick, or that it would be too large.
pub(crate) fn answer<P: Port, L: Ledger>(
    alloc: Global,
    port: &mut P,
    out: &mut Output,
    listed: ListedTasks,
    until: u64,
    comparisons: &mut Comparisons<L>,
) -> Result<Status, Stop>
    requires empty { out.old ≡ [] }
    requires known { IsKnown until }
    requires ratio { IsRatio (listed_rules listed).ratio }
    requires declarable { IsDeclarable (listed_rules listed) }
    requires are { AreTasks until (listed_rules listed).ratio listed.tasks.items }
    ensures says { SaysBy (Says until (listed_rules listed) listed.tasks.items)
        (P.moves port.old) (P.moves port.new) out.new result }
    ensures count { UnrollsAtMost until listed.tasks.items comparisons.old comparisons.new }
    ensures cause { StopCause result
        (P.write_faults port.old) (P.write_faults port.new) (P.read_faults port.old) (P.read_faults port.new) }
    ensures stops { StopsOn result (P.calls port.old) (P.calls port.new) }
{
    if !fits(&listed.tasks, until) {
        match out.put(port, b"refused size\n") {
            Ok(()) => return Ok(Status::Refused),
            Err(_) => return Err(Stop::Unwritten),
        }
    }
    let rules = (listed.ratio, listed.version);
    let Ok(mut unrolling) = Unrolling::new(alloc, listed.tasks, until, comparisons) else {
        return Err(Stop::NoMemory);
    };
    match put_feed(port, out, rules, &mut unrolling, comparisons) {
        Ok(()) => Ok(Status::Done),
        Err(_) => Err(Stop::Unwritten),
    }
}
