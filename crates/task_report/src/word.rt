//! The word as a whole.
ghost use Rattle.dover_port.specs.Causes.{Causes, StopsWith};
ghost use Rattle.dover_port.specs.Moves.{Since};
ghost use Rattle.dialogue.specs.Talk.{Talks, CanEnd};
ghost use Rattle.task_report.specs.Spending.{IsFrugal};
ghost use Rattle.task_report.specs.Talk.{task_report_talk};

use crate::form::TaskForm;
use crate::talker::Reporting;
use comparison_count::Comparisons;
use dialogue::converse;
use dover_port::{Port, Status};
use std::alloc::Global;
use std::marker::PhantomData;
use std::sync::ledger::Ledger;
use task_words::reading::TaskReader;
use trace_judge::Judge;

/// Reports on the jobs of tasks: reads a task text and the trace behind it, to the first fault of the one, the first
/// wrong line of the other, or the end of the input. Then it writes a line for each task on what became of its jobs,
/// and one for the jobs that are of no task, or a picture of the run with the jobs of each task by themselves; or the
/// line that refuses the task text; or the line of the verdict on the trace, whose lines count from its own first
/// one. A picture of jobs beyond the limits of version Two is refused. Memory is taken for the tasks, for the jobs and
/// the steps that the trace names, and for the report, all of it before the first byte is written.
pub fn task_report_word<P: Port, L: Ledger>(
    alloc: Global,
    port: &mut P,
    form: TaskForm,
    comparisons: &mut Comparisons<L>,
) -> Status
    ensures talks { Since (P.moves port.old) (P.moves port.new) (Talks (task_report_talk form) result) }
    ensures count { Since (P.moves port.old) (P.moves port.new) (IsFrugal comparisons.old comparisons.new) }
    ensures ends { CanEnd (Talks (task_report_talk form)) result }
    ensures causes { Causes result
        (P.read_faults port.old) (P.read_faults port.new) (P.write_faults port.old) (P.write_faults port.new) }
    ensures stops { StopsWith result (P.calls port.old) (P.calls port.new) }
{
    let Ok(judge) = Judge::new(alloc, true) else {
        return Status::Memory;
    };
    let reporting = Reporting {
        alloc,
        form,
        reader: TaskReader::new(alloc, 0),
        judge,
        counts: PhantomData,
    };
    converse(port, reporting, comparisons)
}
