//! What a question does with a line of the feed, and its answer.
ghost use Rattle.std.specs.Prelude.{◌≡◌, ◌∷◌, [], IfOk, length};
ghost use Rattle.dialogue.specs.Talk.{IsFinal};
ghost use Rattle.dover_model.specs.Common.{Account, IsValid, in_lines};
ghost use Rattle.dover_port.specs.declared.status.Status.TheVariants.{Refused};
ghost use Rattle.event_feed.specs.Listing.{listed_instance, StandAmong};
ghost use Rattle.question_words.specs.Questions.{says};
ghost use Rattle.question_words.specs.Talk.{ask_reading};
ghost use Rattle.question_words.specs.Keeping.{Asked, Stands, Costs};
ghost use Rattle.question_words.specs.Spending.{CostsRuns, runs_for};
ghost use Rattle.question_words.specs.Texts.{text_of, refusal_line};

use crate::answer::Answer;
use crate::{Question, best, compare, feasible, loss};
use comparison_count::Comparisons;
use dialogue::lines::fault_line;
use dialogue::{LineReader, Stop};
use dover_model::Memory;
use dover_port::{Output, Port, Status};
use event_feed::{Gathering, Listed, NotListed};
use std::alloc::Global;
use std::marker::PhantomData;
use std::sync::ledger::Ledger;

/// A question on the jobs of the feed that is read.
#[derive(Drop)]
pub(crate) struct Asking<L: Ledger> {
    pub(crate) alloc: Global,
    pub(crate) question: Question,
    pub(crate) feed: Gathering,
    pub(crate) counts: PhantomData<L>,
}

/// The answer to the question on these jobs.
fn answer<L: Ledger>(
    alloc: Global,
    question: Question,
    listed: Listed,
    comparisons: &mut Comparisons<L>,
) -> Result<Answer, Memory>
    requires valid { IsValid (listed_instance listed) }
    requires among { StandAmong listed.jobs.items listed.done_lines.items }
    ensures says { IfOk result
        (λ answer. says question (listed_instance listed) answer.status (text_of answer)) }
    ensures ends { IfOk result (λ answer. IsFinal answer.status) }
    ensures count { CostsRuns (runs_for question) (length listed.jobs.items) comparisons.old comparisons.new }
{
    match question {
        Question::Feasible => feasible::answer(alloc, &listed),
        Question::Best => best::answer(alloc, listed, comparisons),
        Question::Compare => compare::answer(alloc, listed, comparisons),
        Question::Loss => loss::answer(alloc, listed, comparisons),
    }
}

/// The line that refuses a feed whose jobs aren't listed.
fn refused(alloc: Global, why: NotListed) -> Answer
    ensures status { result.status ≡ Refused }
    ensures text { text_of result ≡ in_lines (refusal_line why ∷ []) }
{
    match why {
        NotListed::Fault(fault) => Answer::refused(alloc, fault_line(fault)),
        NotListed::TooMany => Answer::too_many(alloc),
    }
}

impl<L: Ledger> LineReader for Asking<L> {
    type Meter = Comparisons<L>;

    ghost about = { Asked };

    ghost account = { Account };

    ghost reading = { λ asked. ask_reading (says asked.question) };

    ghost stands = { λ asked a steps. Stands asked a.question a.feed steps };

    ghost costs = { λ asked steps. Costs asked steps };

    fn laws() {}

    fn take_line(&mut self, _meter: &mut Comparisons<L>, line: &[u8]) -> Result<(), Memory> {
        self.feed.take_line(line)
    }

    fn goes_on(&self) -> bool {
        self.feed.goes_on()
    }

    fn answer<P: Port>(
        self,
        meter: &mut Comparisons<L>,
        port: &mut P,
        out: &mut Output,
    ) -> Result<Status, Stop> {
        match self.feed.close() {
            Ok(listed) => match answer(self.alloc, self.question, listed, meter) {
                Ok(answer) => answer.put(port, out),
                Err(Memory) => Err(Stop::NoMemory),
            },
            Err(why) => refused(self.alloc, why).put(port, out),
        }
    }
}
