//! The answer on tasks.
ghost use Rattle.std.specs.Prelude.{◌≡◌, [], Err};
ghost use Rattle.dialogue.specs.Turns.{StopCause, StopsOn};
ghost use Rattle.dialogue.specs.declared.talker.Stop.TheVariants as stop;
ghost use Rattle.task_words.specs.tasks.Limits.{AreTasks};
ghost use Rattle.task_words.specs.reading.Record.{listed_rules};
ghost use Rattle.task_words.specs.asking.Putting.{SaysBy};
ghost use Rattle.task_words.specs.sure.Lines.{SaysSure};

use crate::reading::ListedTasks;
use crate::sure::densities::find_sparse;
use crate::sure::lines::put_lines;
use crate::sure::sums::sum_up;
use crate::sure::telling::Together;
use dialogue::Stop;
use dover_port::{Output, Port, Status};

/// Puts a line for each task: whether it passes a test by which no job of it is lost, however all jobs come. It takes no
/// memory.
pub(crate) fn answer<P: Port>(
    port: &mut P,
    out: &mut Output,
    listed: &ListedTasks,
) -> Result<Status, Stop>
    requires empty { out.old ≡ [] }
    requires are { AreTasks 0 (listed_rules listed.now).ratio listed.now.tasks.items }
    ensures says { SaysBy (SaysSure (listed_rules listed.now) listed.now.tasks.items)
        (P.moves port.old) (P.moves port.new) out.new result }
    ensures memory { result ≡ Err stop.NoMemory → ⊥ }
    ensures cause { StopCause result
        (P.write_faults port.old) (P.write_faults port.new) (P.read_faults port.old) (P.read_faults port.new) }
    ensures stops { StopsOn result (P.calls port.old) (P.calls port.new) }
{
    let tasks = listed.tasks.as_slice();
    let together = Together {
        ratio: listed.ratio,
        version: listed.version,
        sums: sum_up(tasks),
        sparse: find_sparse(tasks),
    };
    match put_lines(port, out, tasks, &together) {
        Ok(()) => Ok(Status::Done),
        Err(_) => Err(Stop::Unwritten),
    }
}
