//! The questions, each by its word.
ghost use Rattle.dover_port.specs.Causes.{Causes, StopsWith};
ghost use Rattle.dover_port.specs.Moves.{Since};
ghost use Rattle.dialogue.specs.Talk.{Talks, CanEnd};
ghost use Rattle.question_words.specs.Questions.{says};
ghost use Rattle.question_words.specs.Spending.{IsFrugal};
ghost use Rattle.question_words.specs.Talk.{ask_talk};

use crate::asking::Asking;
use comparison_count::Comparisons;
use dialogue::converse_in_lines;
use dover_port::{Port, Status};
use event_feed::Gathering;
use std::alloc::Global;
use std::marker::PhantomData;
use std::sync::ledger::Ledger;

/// What is asked about the jobs of a feed.
#[derive(Clone, Copy)]
pub enum Question {
    /// Whether some schedule serves every job.
    Feasible,
    /// What the best schedule is worth.
    Best,
    /// What the rules complete, what those of version Four do, and what two other policies do.
    Compare,
    /// What the rules lose at most, and where there is too much work.
    Loss,
}

/// Reads a feed to its end, and then answers the question on its jobs. A feed with a fault, or that ends too early, is
/// refused. Refused lines of versions Two and Three are passed over. In version Three jobs may have finished early:
/// `Feasible` is answered on the jobs as they were declared, and the others on the jobs as their run observed them,
/// where what a completed job had stands for its work. What version Four completes `Compare` says of the declared jobs.
/// Jobs that are more, or worth more or due later, than those of version Two may be are refused by each question: those
/// that are more at the first of them, behind which nothing is read, where a job that found no room counts as one. All
/// are kept until the feed ends: memory is taken for each admitted job, for each done line behind one, and for the
/// answer.
pub fn question_word<P: Port, L: Ledger>(
    alloc: Global,
    port: &mut P,
    question: Question,
    comparisons: &mut Comparisons<L>,
) -> Status
    ensures talks { Since (P.moves port.old) (P.moves port.new) (Talks (ask_talk (says question)) result) }
    ensures ends { CanEnd (Talks (ask_talk (says question))) result }
    ensures count { Since (P.moves port.old) (P.moves port.new)
        (IsFrugal question comparisons.old comparisons.new) }
    ensures causes { Causes result
        (P.read_faults port.old) (P.read_faults port.new) (P.write_faults port.old) (P.write_faults port.new) }
    ensures stops { StopsWith result (P.calls port.old) (P.calls port.new) }
{
    let asking = Asking {
        alloc,
        question,
        feed: Gathering::new(alloc),
        counts: PhantomData,
    };
    converse_in_lines(port, asking, comparisons)
}
