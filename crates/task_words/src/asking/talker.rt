//! What the reading loop calls: a reader of the tasks, of which something is asked at the end.
ghost use Rattle.std.specs.Prelude.{◌≡◌, [], Err};
ghost use Rattle.dialogue.specs.Turns.{StopCause, StopsOn};
ghost use Rattle.dialogue.specs.declared.talker.Stop.TheVariants as stop;
ghost use Rattle.dover_model.specs.Common.{IsRatio, IsDeclarable};
ghost use Rattle.task_words.specs.tasks.Limits.{AreTasks};
ghost use Rattle.task_words.specs.reading.Keeping.{IsKnown};
ghost use Rattle.task_words.specs.reading.Record.{listed_rules};
ghost use Rattle.task_words.specs.asking.Questions.{CostsFew, Says, until_of};
ghost use Rattle.task_words.specs.asking.Putting.{SaysBy};
ghost use Rattle.task_words.specs.asking.Talk.{tasks_talk};
ghost use Rattle.task_words.specs.asking.Keeping.{Asked, Stands, IsAt};
ghost use Rattle.task_words.specs.asking.Spending.{Costs};

use crate::asking::question::TaskQuestion;
use crate::reading::{ListedTasks, TaskReader};
use crate::{budget, sure, unroll};
use comparison_count::Comparisons;
use dialogue::lines::put_fault;
use dialogue::{Stop, Talker};
use dover_model::Memory;
use dover_port::{Output, Port, Status};
use line_text::BackLine;
use std::alloc::Global;
use std::marker::PhantomData;
use std::sync::ledger::Ledger;

/// The answer to the question on these tasks. That to `Sure` takes no memory.
fn answer<P: Port, L: Ledger>(
    alloc: Global,
    port: &mut P,
    out: &mut Output,
    question: TaskQuestion,
    listed: ListedTasks,
    comparisons: &mut Comparisons<L>,
) -> Result<Status, Stop>
    requires empty { out.old ≡ [] }
    requires known { IsKnown (until_of question) }
    requires ratio { IsRatio (listed_rules listed).ratio }
    requires declarable { IsDeclarable (listed_rules listed) }
    requires are { AreTasks (until_of question) (listed_rules listed).ratio listed.tasks.items }
    ensures says { SaysBy (Says question (listed_rules listed) listed.tasks.items)
        (P.moves port.old) (P.moves port.new) out.new result }
    ensures memory { question ≡ TaskQuestion.Sure → result ≡ Err stop.NoMemory → ⊥ }
    ensures count { CostsFew question listed.tasks.items comparisons.old comparisons.new }
    ensures cause { StopCause result
        (P.write_faults port.old) (P.write_faults port.new) (P.read_faults port.old) (P.read_faults port.new) }
    ensures stops { StopsOn result (P.calls port.old) (P.calls port.new) }
{
    match question {
        TaskQuestion::Unroll { until } => unroll::answer(
            alloc,
            port,
            out,
            listed,
            until,
            comparisons,
        ),
        TaskQuestion::Sure => sure::answer(port, out, &listed),
        TaskQuestion::Budget { cost } => budget::answer(alloc, port, out, &listed, cost),
    }
}

/// The task text that is read, and what is asked of its tasks. Nothing is due before the answer.
#[derive(Drop)]
pub(crate) struct AskingTasks<L: Ledger> {
    pub(crate) alloc: Global,
    pub(crate) question: TaskQuestion,
    pub(crate) reader: TaskReader,
    pub(crate) counts: PhantomData<L>,
}

impl<L: Ledger> Talker for AskingTasks<L> {
    type Meter = Comparisons<L>;

    ghost about = { Asked };

    ghost talk = { λ asked. tasks_talk asked.question };

    ghost stands = { λ asked a steps. IsAt asked a.question a.reader steps };

    ghost ready = { λ asked a steps. Stands asked a.question a.reader steps };

    ghost costs = { λ asked steps. Costs asked.question asked.before steps };

    fn laws() {}

    fn goes_on(&self, _meter: &Comparisons<L>) -> bool {
        self.reader.goes_on()
    }

    fn take(&mut self, _meter: &mut Comparisons<L>, piece: &[u8]) -> Result<usize, Memory> {
        self.reader.take(piece)
    }

    fn next_part(&mut self, _meter: &mut Comparisons<L>, _part: &mut BackLine) -> bool {
        false
    }

    fn answer<P: Port>(
        self,
        meter: &mut Comparisons<L>,
        port: &mut P,
        out: &mut Output,
        _ended: bool,
    ) -> Result<Status, Stop> {
        match self.reader.close() {
            Ok(listed) => answer(self.alloc, port, out, self.question, listed, meter),
            Err(fault) => match put_fault(port, out, fault) {
                Ok(()) => Ok(Status::Refused),
                Err(_) => Err(Stop::Unwritten),
            },
        }
    }
}
