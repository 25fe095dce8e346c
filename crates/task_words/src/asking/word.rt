//! The word.
ghost use Rattle.dover_port.specs.Causes.{Causes, StopsWith};
ghost use Rattle.dover_port.specs.Moves.{Since};
ghost use Rattle.dialogue.specs.Talk.{Talks, CanEnd};
ghost use Rattle.task_words.specs.reading.Keeping.{IsKnown};
ghost use Rattle.task_words.specs.asking.Questions.{until_of};
ghost use Rattle.task_words.specs.asking.Spending.{IsFrugal};
ghost use Rattle.task_words.specs.asking.Talk.{tasks_talk};

use crate::asking::question::{TaskQuestion, until_of};
use crate::asking::talker::AskingTasks;
use crate::reading::TaskReader;
use comparison_count::Comparisons;
use dialogue::converse;
use dover_port::{Port, Status};
use std::alloc::Global;
use std::marker::PhantomData;
use std::sync::ledger::Ledger;

/// Reads a task text to its end, and then answers a question on its tasks. A text with a fault, or that ends too early,
/// is refused. Memory is taken for each task alone, and none once the first byte is written.
///
/// - `Unroll` writes the feed of all jobs that the tasks release before the tick `until`, at most 10^12, in order of
///   release, and those of one tick in the order of the tasks. The feed has no fault. Tasks with more than 1,000,000
///   jobs, or whose jobs are worth more than 10^13, are refused.
/// - `Sure` writes a line for each task: whether it passes a test by which no job of it is lost, however the jobs of all
///   tasks come, and if not the least value that would pass it, if one would. This takes no memory.
/// - `Budget` writes the task text again, with each work made a budget that pays for changes of hands of at most `cost`
///   ticks: the work, and the cost for each time that a job of the task gets the processor at most. Tasks of which a
///   budget is above its deadline are refused, and then those of which two budgets break the ratio: the first such task
///   is named, with how often a job of it gets the processor, or with the first other that it breaks the ratio with.
pub fn tasks_word<P: Port, L: Ledger>(
    alloc: Global,
    port: &mut P,
    question: TaskQuestion,
    comparisons: &mut Comparisons<L>,
) -> Status
    requires { IsKnown (until_of question) }
    ensures talks { Since (P.moves port.old) (P.moves port.new) (Talks (tasks_talk question) result) }
    ensures count { Since (P.moves port.old) (P.moves port.new) (IsFrugal question comparisons.old comparisons.new) }
    ensures ends { CanEnd (Talks (tasks_talk question)) result }
    ensures causes { Causes result (P.read_faults port.old) (P.read_faults port.new) (P.write_faults port.old)
        (P.write_faults port.new) }
    ensures stops { StopsWith result (P.calls port.old) (P.calls port.new) }
{
    let asking = AskingTasks {
        alloc,
        question,
        reader: TaskReader::new(alloc, until_of(question)),
        counts: PhantomData,
    };
    converse(port, asking, comparisons)
}
