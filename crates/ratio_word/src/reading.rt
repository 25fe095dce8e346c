//! What the word does with a line, and what it answers.
ghost use Rattle.std.specs.Prelude.{◌≡◌, ℕ, List, IfErr, IfOk};
ghost use Rattle.dialogue.specs.Taking.{IsFaultAt};
ghost use Rattle.ratio_word.specs.Account.{TextAccount, account_of_lines};
ghost use Rattle.ratio_word.specs.Keeping.{IsEnded, Stands, StandsAt};
ghost use Rattle.ratio_word.specs.Talk.{ratio_reading};

use crate::answering::answer;
use crate::intake::{Declaration, Intake, Progress};
use comparison_count::Comparisons;
use dialogue::lines::refuse;
use dialogue::{LineReader, Stop};
use dover_model::Memory;
use dover_port::{Output, Port, Status};
use event_feed::{Cause, FeedFault};
use std::marker::PhantomData;
use std::sync::ledger::Ledger;

/// What is kept of a text, and how it stands. No memory is taken.
#[derive(Drop)]
pub(crate) struct Text<L: Ledger> {
    pub(crate) intake: Intake,
    pub(crate) progress: Progress,
    pub(crate) counts: PhantomData<L>,
}

/// What is kept of the jobs of a text whose `end` line was read.
///
/// # Errors
///
/// The fault of its first faulty line, or that it is short.
fn close(intake: &Intake, progress: Progress) -> Result<Declaration, FeedFault>
    requires { (ls : List (List ℕ)) × StandsAt progress intake.now (account_of_lines ls) }
    ensures ended { (ls : List (List ℕ)) → StandsAt progress intake.now (account_of_lines ls) →
        IfOk result (λ declared. IsEnded declared (account_of_lines ls)) }
    ensures fault { (ls : List (List ℕ)) → StandsAt progress intake.now (account_of_lines ls) →
        IfErr result (λ fault. IsFaultAt fault (account_of_lines ls).lines (account_of_lines ls).standing) }
{
    match progress {
        Progress::Open => Err(FeedFault {
            line: intake.lines + 1,
            cause: Cause::Short,
        }),
        Progress::Ended => match intake.declared {
            Some(declared) => Ok(declared),
            None => unreachable!(),
        },
        Progress::Refused(cause) => Err(FeedFault {
            line: intake.lines,
            cause,
        }),
    }
}

impl<L: Ledger> LineReader for Text<L> {
    type Meter = Comparisons<L>;

    ghost about = { ℕ };

    ghost account = { TextAccount };

    ghost reading = { λ before. ratio_reading };

    ghost stands = { λ before t steps. Stands before t.intake t.progress steps };

    ghost costs = { λ before steps a. steps ≡ before };

    fn laws() {}

    fn take_line(&mut self, _meter: &mut Comparisons<L>, line: &[u8]) -> Result<(), Memory> {
        self.progress = self.intake.take_line(line);
        Ok(())
    }

    fn goes_on(&self) -> bool {
        matches!(self.progress, Progress::Open)
    }

    fn answer<P: Port>(
        self,
        _meter: &mut Comparisons<L>,
        port: &mut P,
        out: &mut Output,
    ) -> Result<Status, Stop> {
        match close(&self.intake, self.progress) {
            Ok(declared) => answer(port, out, &declared),
            Err(fault) => refuse(port, out, fault),
        }
    }
}
