//! The word as a whole, and the reading that it shares with reports.
ghost use Rattle.std.specs.Prelude.{◌≡◌};
ghost use Rattle.dover_port.specs.Causes.{Causes, StopsWith};
ghost use Rattle.dover_port.specs.Moves.{Since};
ghost use Rattle.dialogue.specs.Talk.{Talks, CanEnd};
ghost use Rattle.trace_words.specs.judge.Spending.{IsFrugal};
ghost use Rattle.trace_words.specs.judge.Talk.{judging_talk, judge_talk};

use crate::judge::Teller;
use crate::judge::judging::Judging;
use crate::judge::telling::VerdictLine;
use comparison_count::Comparisons;
use dialogue::converse;
use dover_port::{Port, Status};
use std::alloc::Global;
use std::marker::PhantomData;
use std::sync::ledger::Ledger;
use trace_judge::Judge;

/// Reads a text to its first wrong line or the end of the input, and then puts what the teller says of it. Where `keep`
/// is true, the judge keeps the steps of the run for it. Memory is taken at the start and for each job that the text
/// names.
pub fn judge_and_tell<P: Port, T: Teller, L: Ledger>(
    alloc: Global,
    port: &mut P,
    teller: T,
    keep: bool,
    comparisons: &mut Comparisons<L>,
) -> Status
    requires { keep ≡ T.keeps }
    ensures talks { Since (P.moves port.old) (P.moves port.new)
        (Talks (judging_talk (T.says teller) T.lacks) result) }
    ensures count { Since (P.moves port.old) (P.moves port.new) (IsFrugal comparisons.old comparisons.new) }
    ensures ends { CanEnd (Talks (judging_talk (T.says teller) T.lacks)) result }
    ensures causes { Causes result
        (P.read_faults port.old) (P.read_faults port.new) (P.write_faults port.old) (P.write_faults port.new) }
    ensures stops { StopsWith result (P.calls port.old) (P.calls port.new) }
{
    T::laws();
    let Ok(judge) = Judge::new(alloc, keep) else {
        return Status::Memory;
    };
    let judging = Judging {
        judge,
        teller,
        counts: PhantomData,
    };
    converse(port, judging, comparisons)
}

/// Judges a text: reads it to its first wrong line or the end of the input, and then writes its verdict. Memory is
/// taken at the start and for each job that the text names.
pub fn judge_word<P: Port, L: Ledger>(
    alloc: Global,
    port: &mut P,
    comparisons: &mut Comparisons<L>,
) -> Status
    ensures talks { Since (P.moves port.old) (P.moves port.new) (Talks judge_talk result) }
    ensures count { Since (P.moves port.old) (P.moves port.new) (IsFrugal comparisons.old comparisons.new) }
    ensures ends { CanEnd (Talks judge_talk) result }
    ensures causes { Causes result
        (P.read_faults port.old) (P.read_faults port.new) (P.write_faults port.old) (P.write_faults port.new) }
    ensures stops { StopsWith result (P.calls port.old) (P.calls port.new) }
{
    judge_and_tell(alloc, port, VerdictLine, false, comparisons)
}
