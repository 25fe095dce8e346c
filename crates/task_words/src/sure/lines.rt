//! The lines of the word `sure`, on their way out.
ghost use Rattle.std.specs.Prelude.{◌<◌, ◌+◌, ◌*◌, ◌++◌, ◌∷◌, [], length};
ghost use Rattle.dover_model.specs.Common.{in_lines, rules_with};
ghost use Rattle.dover_port.specs.Causes.{HasCause, StopsAtFailure};
ghost use Rattle.dover_port.specs.Moves.{PutsThrough};
ghost use Rattle.task_words.specs.sure.Kept.{AreSmall, AreSparse, AreSums, told_line};
ghost use Rattle.task_words.specs.sure.Lines.{none_line, sure_lines};
ghost use Rattle.task_words.specs.sure.Streams.{streams_of};

use crate::sure::telling::{Together, Told, tell};
use crate::tasks::PeriodicTask;
use dialogue::lines::put_numbers;
use dover_port::{Failed, Output, Port};
use line_text::BackLine;

/// Puts the line that no value makes a task sure, with the cause behind a space, and numbers.
fn put_none<P: Port>(
    port: &mut P,
    out: &mut Output,
    number: u64,
    cause: &[u8],
    numbers: &[u64],
) -> Result<(), Failed>
    requires { length cause.now + 21 * length numbers.now < 90 }
    ensures text { PutsThrough (P.moves port.old) (P.moves port.new) result out.old out.new
        (none_line number cause.now numbers.now ++ 10 ∷ []) }
    ensures cause { HasCause (P.write_faults port.old) (P.write_faults port.new) (P.read_faults port.old)
        (P.read_faults port.new) result }
    ensures stops { StopsAtFailure (P.calls port.old) (P.calls port.new) result }
{
    let mut line = BackLine::new();
    line.put_with_wide(cause, numbers);
    line.put_with_wide(b"none", &[number]);
    out.put(port, line.bytes())
}

/// Puts the line of what is told of the task of this number.
fn put_told<P: Port>(port: &mut P, out: &mut Output, number: u64, told: Told) -> Result<(), Failed>
    ensures text { PutsThrough (P.moves port.old) (P.moves port.new) result out.old out.new
        (told_line number told ++ 10 ∷ []) }
    ensures cause { HasCause (P.write_faults port.old) (P.write_faults port.new) (P.read_faults port.old)
        (P.read_faults port.new) result }
    ensures stops { StopsAtFailure (P.calls port.old) (P.calls port.new) result }
{
    match told {
        Told::Spread => put_none(port, out, number, b" spread", &[]),
        Told::Sure(against) => put_numbers(port, out, b"sure", &[number, against]),
        Told::Beyond => put_none(port, out, number, b" limit", &[]),
        Told::Limit(against, value) => put_none(port, out, number, b" limit", &[against, value]),
        Told::Ratio(against, value) => put_none(port, out, number, b" ratio", &[against, value]),
        Told::Raise(against, value) => {
            put_numbers(port, out, b"raise", &[number, against, value])
        }
    }
}

/// Puts the line of each task.
pub(crate) fn put_lines<P: Port>(
    port: &mut P,
    out: &mut Output,
    tasks: &[PeriodicTask],
    together: &Together,
) -> Result<(), Failed>
    requires small { AreSmall (streams_of tasks.now) }
    requires sums { AreSums (streams_of tasks.now) together.now.sums }
    requires sparse { AreSparse (streams_of tasks.now) together.now.sparse }
    ensures text { PutsThrough (P.moves port.old) (P.moves port.new) result out.old out.new
        (in_lines (sure_lines (rules_with together.now.ratio together.now.version) (streams_of tasks.now))) }
    ensures cause { HasCause (P.write_faults port.old) (P.write_faults port.new) (P.read_faults port.old)
        (P.read_faults port.new) result }
    ensures stops { StopsAtFailure (P.calls port.old) (P.calls port.new) result }
{
    for number in 0..tasks.len() {
        let told = tell(tasks, number, together);
        match put_told(port, out, number as u64, told) {
            Ok(()) => {}
            Err(failed) => return Err(failed),
        }
    }
    Ok(())
}
