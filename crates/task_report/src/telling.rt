//! What is told of tasks and of a text that was judged.
ghost use Rattle.std.specs.Prelude.{◌≡◌, ◌≢◌, [], List, ℕ, true};
ghost use Rattle.dover_model.specs.Common.{Session, IsValidSession, instance_of, printed};
ghost use Rattle.dover_model.specs.Verdict.{Accepted, verdict};
ghost use Rattle.dialogue.specs.Turns.{StopCause, StopsOn};
ghost use Rattle.trace_words.specs.judge.Talking.{IsClosed};
ghost use Rattle.task_report.specs.Telling.{IsRunBy, TellsBy};
ghost use Rattle.task_report.specs.declared.form.TaskForm.TheVariants.{Lines};

use crate::counting::SortedRun;
use crate::drawing::picture;
use crate::form::TaskForm;
use crate::lines::put_report;
use dialogue::Stop;
use dover_model::{PackedEvent, Ratio, Version};
use dover_port::{Output, Port, Status};
use std::alloc::Global;
use task_words::tasks::PeriodicTask;
use trace_judge::{Closed, Verdict};
use trace_words::judge::{put_verdict, status_of};
use trace_words::report::{is_small, put_size, put_whole};

/// Puts the lines on the run that prints these steps.
fn tell_lines<P: Port>(
    alloc: Global,
    port: &mut P,
    out: &mut Output,
    tasks: &[PeriodicTask],
    steps: Vec<PackedEvent>,
) -> Result<Status, Stop>
    requires empty { out.old ≡ [] }
    ensures tells { (trace : List ℕ) (S : Session) → IsValidSession S → verdict trace ≡ Accepted S →
        steps.items ≡ printed (instance_of S) →
        TellsBy Lines tasks.now trace (P.moves port.old) (P.moves port.new) out.new result }
    ensures cause { StopCause result
        (P.write_faults port.old) (P.write_faults port.new) (P.read_faults port.old) (P.read_faults port.new) }
    ensures stops { StopsOn result (P.calls port.old) (P.calls port.new) }
{
    let Ok(run) = SortedRun::of(alloc, tasks, &steps) else {
        return Err(Stop::NoMemory);
    };
    match put_report(port, out, tasks, &run) {
        Ok(()) => Ok(Status::Done),
        Err(_) => Err(Stop::Unwritten),
    }
}

/// Puts the picture of the run of this version that prints these steps, and of how many lines were refused, or the line
/// that refuses it where its jobs are more than a report keeps.
fn tell_picture<P: Port>(
    alloc: Global,
    port: &mut P,
    form: TaskForm,
    tasks: &[PeriodicTask],
    version: Version,
    ratio: Ratio,
    steps: Vec<PackedEvent>,
    refused: u64,
) -> Result<Status, Stop>
    requires drawn { form ≢ Lines }
    requires run { (S : Session) × IsRunBy S version ratio steps.items }
    ensures tells { (trace : List ℕ) (S : Session) → verdict trace ≡ Accepted S →
        IsRunBy S version ratio steps.items →
        TellsBy form tasks.now trace (P.moves port.old) (P.moves port.new) [] result }
    ensures cause { StopCause result
        (P.write_faults port.old) (P.write_faults port.new) (P.read_faults port.old) (P.read_faults port.new) }
    ensures stops { StopsOn result (P.calls port.old) (P.calls port.new) }
{
    if is_small(version, &steps) {
        match put_whole(port, picture(alloc, form, tasks, ratio, &steps, refused)) {
            Ok(()) => Ok(Status::Done),
            Err(stop) => Err(stop),
        }
    } else {
        match put_size(port) {
            Ok(()) => Ok(Status::Refused),
            Err(stop) => Err(stop),
        }
    }
}

/// Puts the report on the run of this version that prints these steps, in this form.
fn tell_run<P: Port>(
    alloc: Global,
    port: &mut P,
    out: &mut Output,
    form: TaskForm,
    tasks: &[PeriodicTask],
    version: Version,
    ratio: Ratio,
    steps: Vec<PackedEvent>,
    refused: u64,
) -> Result<Status, Stop>
    requires empty { out.old ≡ [] }
    requires run { (S : Session) × IsRunBy S version ratio steps.items }
    ensures tells { (trace : List ℕ) (S : Session) → verdict trace ≡ Accepted S →
        IsRunBy S version ratio steps.items →
        TellsBy form tasks.now trace (P.moves port.old) (P.moves port.new) out.new result }
    ensures cause { StopCause result
        (P.write_faults port.old) (P.write_faults port.new) (P.read_faults port.old) (P.read_faults port.new) }
    ensures stops { StopsOn result (P.calls port.old) (P.calls port.new) }
{
    match form {
        TaskForm::Lines => tell_lines(alloc, port, out, tasks, steps),
        _ => tell_picture(alloc, port, form, tasks, version, ratio, steps, refused),
    }
}

/// Puts the report on the run of an accepted trace, or else the line of the verdict.
pub(crate) fn tell<P: Port>(
    alloc: Global,
    port: &mut P,
    out: &mut Output,
    form: TaskForm,
    tasks: &[PeriodicTask],
    closed: Closed,
) -> Result<Status, Stop>
    requires empty { out.old ≡ [] }
    requires closed { (trace : List ℕ) × IsClosed true closed trace }
    ensures tells { (trace : List ℕ) → IsClosed true closed trace →
        TellsBy form tasks.now trace (P.moves port.old) (P.moves port.new) out.new result }
    ensures cause { StopCause result
        (P.write_faults port.old) (P.write_faults port.new) (P.read_faults port.old) (P.read_faults port.new) }
    ensures stops { StopsOn result (P.calls port.old) (P.calls port.new) }
{
    let Closed {
        verdict,
        steps,
        refused,
    } = closed;
    match verdict {
        Verdict::Accepted { ratio, version, .. } => {
            tell_run(
                alloc, port, out, form, tasks, version, ratio, steps, refused,
            )
        }
        _ => {
            drop(steps);
            match put_verdict(port, out, &verdict) {
                Ok(()) => Ok(status_of(&verdict)),
                Err(_) => Err(Stop::Unwritten),
            }
        }
    }
}
