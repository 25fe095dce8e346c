//! What the reading loop calls: a reader of the task text, and a judge of the trace behind it.
ghost use Rattle.dialogue.specs.Turns.{AllGiven};
ghost use Rattle.task_report.specs.Talk.{task_report_talk};
ghost use Rattle.task_report.specs.Talking.{Call, Costs, IsReady};

use crate::form::TaskForm;
use crate::telling::tell;
use comparison_count::Comparisons;
use dialogue::lines::put_fault;
use dialogue::{Stop, Talker};
use dover_model::Memory;
use dover_port::{Output, Port, Status};
use line_text::BackLine;
use std::alloc::Global;
use std::marker::PhantomData;
use std::sync::ledger::Ledger;
use task_words::reading::TaskReader;
use trace_judge::Judge;

/// The task text that is read, and the trace behind it that is judged. Nothing is due before the answer.
#[derive(Drop)]
pub(crate) struct Reporting<L: Ledger> {
    pub(crate) alloc: Global,
    pub(crate) form: TaskForm,
    pub(crate) reader: TaskReader,
    pub(crate) judge: Judge,
    pub(crate) counts: PhantomData<L>,
}

impl<L: Ledger> Talker for Reporting<L> {
    type Meter = Comparisons<L>;

    ghost about = { Call };

    ghost talk = { λ call. task_report_talk call.form };

    ghost stands = { λ call r steps. AllGiven (IsReady call r.form r.reader r.judge steps) };

    ghost ready = { λ call r steps. IsReady call r.form r.reader r.judge steps };

    ghost costs = { λ call steps. Costs call.start steps };

    fn laws() {}

    fn goes_on(&self, _meter: &Comparisons<L>) -> bool {
        if self.reader.goes_on() {
            return true;
        }
        self.reader.has_ended() && !self.judge.decided()
    }

    fn take(&mut self, meter: &mut Comparisons<L>, piece: &[u8]) -> Result<usize, Memory> {
        if self.reader.goes_on() {
            return self.reader.take(piece);
        }
        match self.judge.feed(piece, meter) {
            Ok(()) => Ok(piece.len()),
            Err(error) => Err(error),
        }
    }

    fn next_part(&mut self, _meter: &mut Comparisons<L>, _part: &mut BackLine) -> bool {
        false
    }

    fn answer<P: Port>(
        self,
        _meter: &mut Comparisons<L>,
        port: &mut P,
        out: &mut Output,
        _ended: bool,
    ) -> Result<Status, Stop> {
        match self.reader.close() {
            Ok(listed) => match self.judge.close() {
                Ok(closed) => tell(self.alloc, port, out, self.form, &listed.tasks, closed),
                Err(_) => Err(Stop::NoMemory),
            },
            Err(fault) => match put_fault(port, out, fault) {
                Ok(()) => Ok(Status::Refused),
                Err(_) => Err(Stop::Unwritten),
            },
        }
    }
}
