//! The answer on tasks.
ghost use Rattle.std.specs.Prelude.{◌≡◌, ◌≤◌, ◌∷◌, ◌++◌, [], length};
ghost use Rattle.dialogue.specs.Turns.{StopCause, StopsOn};
ghost use Rattle.dover_model.specs.Lines.{with_numbers};
ghost use Rattle.task_words.specs.asking.Putting.{SaysBy};
ghost use Rattle.task_words.specs.budget.Budgets.{budgeted};
ghost use Rattle.task_words.specs.budget.Kept.{SaysCause};
ghost use Rattle.task_words.specs.budget.Lines.{FitUpTo, SaysBudgets};
ghost use Rattle.task_words.specs.reading.Record.{listed_rules};
ghost use Rattle.task_words.specs.tasks.Limits.{AreTasks};

use crate::budget::densities::find_breakers;
use crate::budget::lines::put_text;
use crate::budget::paying::{Unpaid, pay};
use crate::reading::ListedTasks;
use crate::tasks::PeriodicTask;
use dialogue::Stop;
use dialogue::lines::put_numbers;
use dover_port::{Output, Port, Status};
use std::alloc::Global;

/// Puts the line that refuses tasks, with two numbers.
fn refuse<P: Port>(
    port: &mut P,
    out: &mut Output,
    word: &[u8],
    numbers: &[u64; 2],
) -> Result<Status, Stop>
    requires empty { out.old ≡ [] }
    requires short { length word.now ≤ 20 }
    ensures says { SaysBy (SaysCause (with_numbers word.now numbers.now ++ 10 ∷ []))
        (P.moves port.old) (P.moves port.new) out.new result }
    ensures cause { StopCause result
        (P.write_faults port.old) (P.write_faults port.new) (P.read_faults port.old) (P.read_faults port.new) }
    ensures stops { StopsOn result (P.calls port.old) (P.calls port.new) }
{
    match put_numbers(port, out, word, numbers) {
        Ok(()) => Ok(Status::Refused),
        Err(_) => Err(Stop::Unwritten),
    }
}

/// Puts the text of the tasks with their budgets, which fit, or which two of them break the ratio.
fn answer_paid<P: Port>(
    port: &mut P,
    out: &mut Output,
    listed: &ListedTasks,
    budgets: &[PeriodicTask],
    cost: u64,
) -> Result<Status, Stop>
    requires empty { out.old ≡ [] }
    requires are { AreTasks 0 (listed_rules listed.now).ratio listed.now.tasks.items }
    requires paid { budgets.now ≡ budgeted listed.now.ratio cost listed.now.tasks.items }
    requires fit { FitUpTo budgets.now (length budgets.now) }
    ensures says { SaysBy (SaysBudgets cost (listed_rules listed.now) listed.now.tasks.items)
        (P.moves port.old) (P.moves port.new) out.new result }
    ensures cause { StopCause result
        (P.write_faults port.old) (P.write_faults port.new) (P.read_faults port.old) (P.read_faults port.new) }
    ensures stops { StopsOn result (P.calls port.old) (P.calls port.new) }
{
    if let Some(two) = find_breakers(budgets, listed.ratio) {
        let numbers = [two.number as u64, two.other as u64];
        return refuse(port, out, b"refused ratio", &numbers);
    }
    match put_text(port, out, (listed.ratio, listed.version), budgets) {
        Ok(()) => Ok(Status::Done),
        Err(_) => Err(Stop::Unwritten),
    }
}

/// Puts the text of the tasks with budgets that pay for changes of hands of at most `cost` ticks, or why they have
/// none. It takes memory for the budgets, and none once the first byte is put.
pub(crate) fn answer<P: Port>(
    alloc: Global,
    port: &mut P,
    out: &mut Output,
    listed: &ListedTasks,
    cost: u64,
) -> Result<Status, Stop>
    requires empty { out.old ≡ [] }
    requires are { AreTasks 0 (listed_rules listed.now).ratio listed.now.tasks.items }
    ensures says { SaysBy (SaysBudgets cost (listed_rules listed.now) listed.now.tasks.items)
        (P.moves port.old) (P.moves port.new) out.new result }
    ensures cause { StopCause result
        (P.write_faults port.old) (P.write_faults port.new) (P.read_faults port.old) (P.read_faults port.new) }
    ensures stops { StopsOn result (P.calls port.old) (P.calls port.new) }
{
    match pay(alloc, &listed.tasks, listed.ratio, cost) {
        Ok(budgets) => answer_paid(port, out, listed, &budgets, cost),
        Err(Unpaid::Window(number, gets)) => {
            refuse(port, out, b"refused window", &[number, gets])
        }
        Err(Unpaid::NoMemory) => Err(Stop::NoMemory),
    }
}
