//! The answer on tasks.
ghost use Rattle.std.specs.Prelude.{◌≡◌, ◌++◌, ◌∷◌, [], Err};
ghost use Rattle.dialogue.specs.Turns.{StopCause, StopsOn};
ghost use Rattle.dialogue.specs.declared.talker.Stop.TheVariants as stop;
ghost use Rattle.dover_port.specs.Causes.{HasCause, StopsAtFailure};
ghost use Rattle.dover_port.specs.Moves.{PutsThrough};
ghost use Rattle.task_words.specs.asking.Putting.{SaysBy};
ghost use Rattle.demand_words.specs.Demanded.{AreLimited, all_facts};
ghost use Rattle.demand_words.specs.Says.{SaysDemand, status_of, told_line};

use crate::answers::Demand;
use crate::testing::demand_test;
use dialogue::Stop;
use dialogue::lines::put_numbers;
use dover_port::{Failed, Output, Port, Status};
use task_words::tasks::PeriodicTask;

/// With which status it is told.
fn status_of(told: Demand) -> Status
    ensures { result ≡ status_of told }
{
    match told {
        Demand::Met => Status::Done,
        Demand::Window { .. } => Status::No,
        Demand::Over => Status::No,
        Demand::Size => Status::Refused,
    }
}

/// Puts the line of what is told.
fn put_told<P: Port>(port: &mut P, out: &mut Output, told: Demand) -> Result<(), Failed>
    ensures text { PutsThrough (P.moves port.old) (P.moves port.new) result out.old out.new
        (told_line told ++ 10 ∷ []) }
    ensures cause { HasCause (P.write_faults port.old) (P.write_faults port.new) (P.read_faults port.old)
        (P.read_faults port.new) result }
    ensures stops { StopsAtFailure (P.calls port.old) (P.calls port.new) result }
{
    match told {
        Demand::Met => put_numbers(port, out, b"met", &[]),
        Demand::Window { ticks, work } => {
            let shown = work.min(u128::from(u64::MAX)) as u64;
            put_numbers(port, out, b"window", &[ticks, shown])
        }
        Demand::Over => put_numbers(port, out, b"over", &[]),
        Demand::Size => put_numbers(port, out, b"refused size", &[]),
    }
}

/// Puts the line that says whether a window can have more work of the tasks in it than ticks, where the jobs of each
/// come a period apart or more, at any ticks: `met`, with the status `Done`; `window L W`, a window of L ticks in which
/// they can ask for W, or `over`, more than one tick of work a tick in the long run, with the status `No`; or that the
/// test would take too long, `refused size`. It takes no memory.
pub(crate) fn answer<P: Port>(
    port: &mut P,
    out: &mut Output,
    tasks: &[PeriodicTask],
) -> Result<Status, Stop>
    requires empty { out.old ≡ [] }
    requires limits { AreLimited tasks.now }
    ensures says { SaysBy (SaysDemand (all_facts tasks.now))
        (P.moves port.old) (P.moves port.new) out.new result }
    ensures memory { result ≡ Err stop.NoMemory → ⊥ }
    ensures cause { StopCause result
        (P.write_faults port.old) (P.write_faults port.new) (P.read_faults port.old) (P.read_faults port.new) }
    ensures stops { StopsOn result (P.calls port.old) (P.calls port.new) }
{
    let told = demand_test(tasks);
    match put_told(port, out, told) {
        Ok(()) => Ok(status_of(told)),
        Err(_) => Err(Stop::Unwritten),
    }
}
