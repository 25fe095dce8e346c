//! The lines of the report, on their way out.
ghost use Rattle.std.specs.Prelude.{◌≡◌, ◌≤◌, ◌++◌, ◌∷◌, [], List, length};
ghost use Rattle.dover_model.specs.declared.events.Event.{Event};
ghost use Rattle.dover_model.specs.Common.{in_lines, with_numbers};
ghost use Rattle.dover_port.specs.Causes.{HasCause, StopsAtFailure};
ghost use Rattle.dover_port.specs.Moves.{PutsThrough};
ghost use Rattle.task_report.specs.Counting.{Sorted};
ghost use Rattle.task_report.specs.Texts.{other_line, task_line};
ghost use Rattle.task_report.specs.Writing.{report_in, slack_text, task_lines, times_text, values_text};
ghost use Rattle.task_words.specs.tasks.Names.{name_text};

use crate::counting::SortedRun;
use crate::tally::Tally;
use dover_port::{Failed, Output, Port};
use line_text::BackLine;
use task_words::tasks::{PeriodicTask, TaskName};

/// Writes a word, numbers, and what the completed jobs and the lost ones are worth.
fn front_line(word: &[u8], numbers: &[u64], tally: &Tally) -> BackLine
    requires word { length word.now ≤ 5 }
    requires few { length numbers.now ≤ 4 }
    ensures { result ≡ with_numbers word.now numbers.now ++ values_text tally.now }
{
    let mut line = BackLine::empty();
    line.put_long(tally.lost_value);
    line.put_word(b" ");
    line.put_long(tally.value);
    line.put_word(b" ");
    line.put_with_wide(word, numbers);
    line
}

/// Writes the least slack before the name.
fn write_slack(line: &mut BackLine, slack: Option<u64>)
    requires { length line.old ≤ 18 }
    ensures is { line.new ≡ slack_text slack ++ line.old }
    ensures fits { length line.new ≤ 39 }
{
    match slack {
        None => line.put_word(b" -"),
        Some(ticks) => line.put_with_wide(b"", &[ticks]),
    }
}

/// Writes the responses, how often jobs were preempted, the least slack and the name.
fn back_line(tally: &Tally, name: &TaskName) -> BackLine
    ensures { result ≡ times_text tally.now ++ (name_text name.now ++ 10 ∷ []) }
{
    let mut line = BackLine::new();
    name.write(&mut line);
    write_slack(&mut line, tally.slack);
    line.put_long(tally.preempted);
    line.put_word(b" ");
    line.put_long(tally.responses);
    line.put_word(b" ");
    line.put_with_wide(b"", &[tally.longest]);
    line
}

/// Puts a line: a word, numbers, what the jobs came to, and a name.
fn put_line<P: Port>(
    port: &mut P,
    out: &mut Output,
    word: &[u8],
    numbers: &[u64],
    tally: &Tally,
    name: &TaskName,
) -> Result<(), Failed>
    requires word { length word.now ≤ 5 }
    requires few { length numbers.now ≤ 4 }
    ensures text { PutsThrough (P.moves port.old) (P.moves port.new) result out.old out.new
        (with_numbers word.now numbers.now ++ values_text tally.now
        ++ (times_text tally.now ++ (name_text name.now ++ 10 ∷ []))) }
    ensures cause { HasCause (P.write_faults port.old) (P.write_faults port.new) (P.read_faults port.old)
        (P.read_faults port.new) result }
    ensures stops { StopsAtFailure (P.calls port.old) (P.calls port.new) result }
{
    match out.put(port, front_line(word, numbers, tally).bytes()) {
        Ok(()) => {}
        Err(failed) => return Err(failed),
    }
    out.put(port, back_line(tally, name).bytes())
}

/// Puts the line of the task of this number.
fn put_task<P: Port>(
    port: &mut P,
    out: &mut Output,
    task: &PeriodicTask,
    number: usize,
    tally: &Tally,
) -> Result<(), Failed>
    ensures text { PutsThrough (P.moves port.old) (P.moves port.new) result out.old out.new
        (task_line number tally.now task.now.name ++ 10 ∷ []) }
    ensures cause { HasCause (P.write_faults port.old) (P.write_faults port.new) (P.read_faults port.old)
        (P.read_faults port.new) result }
    ensures stops { StopsAtFailure (P.calls port.old) (P.calls port.new) result }
{
    let numbers = [number as u64, tally.jobs, tally.completed, tally.lost];
    put_line(port, out, b"task", &numbers, tally, &task.name)
}

/// Puts the line of the jobs that are of no task.
fn put_other<P: Port>(port: &mut P, out: &mut Output, tally: &Tally) -> Result<(), Failed>
    ensures text { PutsThrough (P.moves port.old) (P.moves port.new) result out.old out.new
        (other_line tally.now ++ 10 ∷ []) }
    ensures cause { HasCause (P.write_faults port.old) (P.write_faults port.new) (P.read_faults port.old)
        (P.read_faults port.new) result }
    ensures stops { StopsAtFailure (P.calls port.old) (P.calls port.new) result }
{
    let numbers = [tally.jobs, tally.completed, tally.lost];
    put_line(port, out, b"other", &numbers, tally, &TaskName::none())
}

/// Puts the line of each task.
fn put_tasks<P: Port>(
    port: &mut P,
    out: &mut Output,
    tasks: &[PeriodicTask],
    run: &SortedRun,
) -> Result<(), Failed>
    requires { (steps : List Event) × Sorted tasks.now steps run.now }
    ensures text { (steps : List Event) → Sorted tasks.now steps run.now →
        PutsThrough (P.moves port.old) (P.moves port.new) result out.old out.new
        (in_lines (task_lines tasks.now steps)) }
    ensures cause { HasCause (P.write_faults port.old) (P.write_faults port.new) (P.read_faults port.old)
        (P.read_faults port.new) result }
    ensures stops { StopsAtFailure (P.calls port.old) (P.calls port.new) result }
{
    for number in 0..tasks.len() {
        let tally = run.tally(number);
        match put_task(port, out, &tasks[number], number, &tally) {
            Ok(()) => {}
            Err(failed) => return Err(failed),
        }
    }
    Ok(())
}

/// Puts the report: the line of each task, and that of the jobs that are of none.
pub(crate) fn put_report<P: Port>(
    port: &mut P,
    out: &mut Output,
    tasks: &[PeriodicTask],
    run: &SortedRun,
) -> Result<(), Failed>
    requires { (steps : List Event) × Sorted tasks.now steps run.now }
    ensures text { (steps : List Event) → Sorted tasks.now steps run.now →
        PutsThrough (P.moves port.old) (P.moves port.new) result out.old out.new (report_in tasks.now steps) }
    ensures cause { HasCause (P.write_faults port.old) (P.write_faults port.new) (P.read_faults port.old)
        (P.read_faults port.new) result }
    ensures stops { StopsAtFailure (P.calls port.old) (P.calls port.new) result }
{
    match put_tasks(port, out, tasks, run) {
        Ok(()) => {}
        Err(failed) => return Err(failed),
    }
    put_other(port, out, &run.tally(tasks.len()))
}
