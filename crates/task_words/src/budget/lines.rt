//! The lines of a task text, on their way out.
ghost use Rattle.std.specs.Prelude.{◌++◌, ◌∷◌, [], map};
ghost use Rattle.dover_model.specs.Common.{rules_with, in_lines};
ghost use Rattle.dover_port.specs.Causes.{HasCause, StopsAtFailure};
ghost use Rattle.dover_port.specs.Moves.{PutsThrough};
ghost use Rattle.task_words.specs.budget.Lines.{task_text, tasks_text};

use crate::tasks::PeriodicTask;
use dialogue::lines::{put_numbers, put_rules};
use dover_model::{Ratio, Version};
use dover_port::{Failed, Output, Port};
use line_text::BackLine;

/// Puts the line of a task.
fn put_task<P: Port>(port: &mut P, out: &mut Output, task: &PeriodicTask) -> Result<(), Failed>
    ensures text { PutsThrough (P.moves port.old) (P.moves port.new) result out.old out.new
        (task_text task.now ++ 10 ∷ []) }
    ensures cause { HasCause (P.write_faults port.old) (P.write_faults port.new) (P.read_faults port.old)
        (P.read_faults port.new) result }
    ensures stops { StopsAtFailure (P.calls port.old) (P.calls port.new) result }
{
    let numbers = [
        task.offset,
        task.period,
        task.work,
        task.deadline,
        task.value,
    ];
    let mut line = BackLine::new();
    task.name.write(&mut line);
    line.put_with_wide(b"task", &numbers);
    out.put(port, line.bytes())
}

/// Puts the line of each task.
fn put_tasks<P: Port>(port: &mut P, out: &mut Output, tasks: &[PeriodicTask]) -> Result<(), Failed>
    ensures text { PutsThrough (P.moves port.old) (P.moves port.new) result out.old out.new
        (in_lines (map task_text tasks.now)) }
    ensures cause { HasCause (P.write_faults port.old) (P.write_faults port.new) (P.read_faults port.old)
        (P.read_faults port.new) result }
    ensures stops { StopsAtFailure (P.calls port.old) (P.calls port.new) result }
{
    for number in 0..tasks.len() {
        match put_task(port, out, &tasks[number]) {
            Ok(()) => {}
            Err(failed) => return Err(failed),
        }
    }
    Ok(())
}

/// Puts the text of the tasks under these rules.
pub(crate) fn put_text<P: Port>(
    port: &mut P,
    out: &mut Output,
    rules: (Ratio, Version),
    tasks: &[PeriodicTask],
) -> Result<(), Failed>
    ensures text { PutsThrough (P.moves port.old) (P.moves port.new) result out.old out.new
        (tasks_text (rules_with rules.0 rules.1) tasks.now) }
    ensures cause { HasCause (P.write_faults port.old) (P.write_faults port.new) (P.read_faults port.old)
        (P.read_faults port.new) result }
    ensures stops { StopsAtFailure (P.calls port.old) (P.calls port.new) result }
{
    match put_rules(port, out, rules.0, rules.1) {
        Ok(()) => {}
        Err(failed) => return Err(failed),
    }
    match put_tasks(port, out, tasks) {
        Ok(()) => {}
        Err(failed) => return Err(failed),
    }
    put_numbers(port, out, b"end", &[])
}
