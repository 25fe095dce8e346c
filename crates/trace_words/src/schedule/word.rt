//! The word as a whole.
ghost use Rattle.std.specs.Prelude.{◌≡◌};
ghost use Rattle.dover_port.specs.Causes.{Causes, StopsWith};
ghost use Rattle.dover_port.specs.Moves.{Since};
ghost use Rattle.dialogue.specs.Talk.{Talks, CanEnd};
ghost use Rattle.trace_words.specs.schedule.Talk.{schedule_talk};

use crate::schedule::ScheduleForm;
use crate::schedule::talker::Drawing;
use comparison_count::Comparisons;
use dialogue::converse;
use dover_port::{Port, Status};
use schedule_judge::ScheduleReader;
use std::alloc::Global;
use std::marker::PhantomData;
use std::sync::ledger::Ledger;

/// Reports on a schedule, whichever policy made it: reads a text to its `end` line, its first line that isn't legal or
/// the end of the input, and then writes the report on the schedule, or the line that says where it is wrong and why,
/// or that it is short. More than 1,000,000 jobs or 4,000,000 lines are refused. Memory is taken for the jobs and the
/// steps that the text names, and for the report, all of it before the first byte of the report is written.
pub fn schedule_word<P: Port, L: Ledger>(
    alloc: Global,
    port: &mut P,
    form: ScheduleForm,
    comparisons: &mut Comparisons<L>,
) -> Status
    ensures talks { Since (P.moves port.old) (P.moves port.new) (Talks (schedule_talk form) result) }
    ensures count { Since (P.moves port.old) (P.moves port.new) (λ moves. comparisons.new ≡ comparisons.old) }
    ensures ends { CanEnd (Talks (schedule_talk form)) result }
    ensures causes { Causes result (P.read_faults port.old) (P.read_faults port.new) (P.write_faults port.old)
        (P.write_faults port.new) }
    ensures stops { StopsWith result (P.calls port.old) (P.calls port.new) }
{
    let drawing = Drawing {
        alloc,
        form,
        reader: ScheduleReader::new(alloc),
        counts: PhantomData,
    };
    converse(port, drawing, comparisons)
}
