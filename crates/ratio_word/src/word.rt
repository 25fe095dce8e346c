//! The word.
ghost use Rattle.std.specs.Prelude.{◌≡◌};
ghost use Rattle.dover_port.specs.Causes.{Causes, StopsWith};
ghost use Rattle.dover_port.specs.Moves.{Since};
ghost use Rattle.dialogue.specs.Talk.{Talks, CanEnd};
ghost use Rattle.ratio_word.specs.Talk.{ratio_talk};

use crate::intake::{Intake, Progress};
use crate::reading::Text;
use comparison_count::Comparisons;
use dialogue::converse_in_lines;
use dover_port::{Port, Status};
use std::marker::PhantomData;
use std::sync::ledger::Ledger;

/// Reads a feed or a task text to its end, whatever ratio its first line declares, and then writes the least ratio
/// within the limits that all its jobs keep: of a task its first job. The first line of the answer declares it, with
/// the version and the factor of the text. Behind it are the first of the least dense jobs and the first of the
/// densest, and the bound: where a run by that ratio completes 1,000,000, no schedule is worth more. Where no ratio
/// within the limits is kept by all, the first line is `none`, and the status `No`.
///
/// Refused are a line that has no form of either text, a first line that declares nothing and a later one that declares
/// again, a job beyond the limits of one job and a task whose first job is, or which has no period, more than
/// 4,000,000,000 of both, more than 16,000,000,000 lines, and a text without its `end` line. Order and sums count for
/// nothing. No memory is taken.
pub fn ratio_word<P: Port, L: Ledger>(port: &mut P, comparisons: &mut Comparisons<L>) -> Status
    ensures talks { Since (P.moves port.old) (P.moves port.new) (Talks ratio_talk result) }
    ensures count { Since (P.moves port.old) (P.moves port.new) (λ moves. comparisons.new ≡ comparisons.old) }
    ensures ends { CanEnd (Talks ratio_talk) result }
    ensures causes { Causes result (P.read_faults port.old) (P.read_faults port.new) (P.write_faults port.old)
        (P.write_faults port.new) }
    ensures stops { StopsWith result (P.calls port.old) (P.calls port.new) }
{
    let text = Text {
        intake: Intake::new(),
        progress: Progress::Open,
        counts: PhantomData,
    };
    converse_in_lines(port, text, comparisons)
}
