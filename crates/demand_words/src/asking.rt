//! What the reading loop calls: a reader of the tasks, about which it is asked at the end.
ghost use Rattle.std.specs.Prelude.{◌≡◌, ℕ};
ghost use Rattle.demand_words.specs.Talk.{IsAt, Stands, demand_talk};

use crate::answering::answer;
use comparison_count::Comparisons;
use dialogue::lines::put_fault;
use dialogue::{Stop, Talker};
use dover_model::Memory;
use dover_port::{Output, Port, Status};
use line_text::BackLine;
use std::marker::PhantomData;
use std::sync::ledger::Ledger;
use task_words::reading::TaskReader;

/// The task text that is read. Nothing is due before the answer.
#[derive(Drop)]
pub(crate) struct AskingDemand<L: Ledger> {
    pub(crate) reader: TaskReader,
    pub(crate) counts: PhantomData<L>,
}

impl<L: Ledger> Talker for AskingDemand<L> {
    type Meter = Comparisons<L>;

    ghost about = { ℕ };

    ghost talk = { λ before. demand_talk };

    ghost stands = { λ before a steps. IsAt before a.reader steps };

    ghost ready = { λ before a steps. Stands before a.reader steps };

    ghost costs = { λ before steps bytes. steps ≡ before };

    fn laws() {}

    fn goes_on(&self, _meter: &Comparisons<L>) -> bool {
        self.reader.goes_on()
    }

    fn take(&mut self, _meter: &mut Comparisons<L>, piece: &[u8]) -> Result<usize, Memory> {
        self.reader.take(piece)
    }

    fn next_part(&mut self, _meter: &mut Comparisons<L>, _part: &mut BackLine) -> bool {
        false
    }

    fn answer<P: Port>(
        self,
        _meter: &mut Comparisons<L>,
        port: &mut P,
        out: &mut Output,
        _ended: bool,
    ) -> Result<Status, Stop> {
        match self.reader.close() {
            Ok(listed) => answer(port, out, listed.tasks.as_slice()),
            Err(fault) => match put_fault(port, out, fault) {
                Ok(()) => Ok(Status::Refused),
                Err(_) => Err(Stop::Unwritten),
            },
        }
    }
}
