//! What the reading loop calls: a judge, which takes the text whole, and what tells its last word at the end.
ghost use Rattle.dialogue.specs.Turns.{AllGiven};
ghost use Rattle.trace_words.specs.judge.Talk.{judging_talk};
ghost use Rattle.trace_words.specs.judge.Talking.{Call, IsReady, Costs};

use crate::judge::Teller;
use comparison_count::Comparisons;
use dialogue::{Stop, Talker};
use dover_model::Memory;
use dover_port::{Output, Port, Status};
use line_text::BackLine;
use std::marker::PhantomData;
use std::sync::ledger::Ledger;
use trace_judge::Judge;

/// A judge of the text, and what tells its last word. Nothing is due before the answer.
#[derive(Drop)]
pub(crate) struct Judging<T: Teller, L: Ledger> {
    pub(crate) judge: Judge,
    pub(crate) teller: T,
    pub(crate) counts: PhantomData<L>,
}

impl<T: Teller, L: Ledger> Talker for Judging<T, L> {
    type Meter = Comparisons<L>;

    ghost about = { Call T };

    ghost talk = { λ call. judging_talk (T.says call.teller) T.lacks };

    ghost stands = { λ call j meter. AllGiven (IsReady T.keeps call j.teller j.judge meter) };

    ghost ready = { λ call j meter. IsReady T.keeps call j.teller j.judge meter };

    ghost costs = { λ call meter. Costs call.start meter };

    fn laws() {
        T::laws();
    }

    fn take(&mut self, meter: &mut Comparisons<L>, piece: &[u8]) -> Result<usize, Memory> {
        T::laws();
        match self.judge.feed(piece, meter) {
            Ok(()) => Ok(piece.len()),
            Err(error) => Err(error),
        }
    }

    fn next_part(&mut self, _meter: &mut Comparisons<L>, _part: &mut BackLine) -> bool {
        false
    }

    fn goes_on(&self, _meter: &Comparisons<L>) -> bool {
        !self.judge.decided()
    }

    fn answer<P: Port>(
        self,
        _meter: &mut Comparisons<L>,
        port: &mut P,
        out: &mut Output,
        _ended: bool,
    ) -> Result<Status, Stop> {
        match self.judge.close() {
            Ok(closed) => self.teller.tell(port, out, closed),
            Err(_) => Err(Stop::NoMemory),
        }
    }
}
