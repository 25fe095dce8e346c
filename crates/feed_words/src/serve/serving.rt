//! What the reading loop calls: a feed that is served.
ghost use Rattle.std.specs.Prelude.{◌≡◌, ◌++◌, Bool, ℕ, List, []};
ghost use Rattle.dialogue.specs.Talk.{IsOver};
ghost use Rattle.dialogue.specs.Turns.{AnswersBy, StopCause, StopsOn};
ghost use Rattle.dover_model.specs.Lines.{lines_of};
ghost use Rattle.lane_server.specs.Lane.{Stands};
ghost use Rattle.feed_words.specs.serve.Keeping.{Call, whole_call, serve_talk, IsGiving, IsReady, Costs};
ghost use Rattle.feed_words.specs.declared.serve.at_end.AtEnd.TheVariants.{Refuse};

use comparison_count::Comparisons;
use dialogue::lines::{put_fault, write_next};
use dialogue::{Stop, Talker};
use dover_model::Memory;
use dover_port::{Output, Port, Status};
use lane_server::{Feed, Lane};
use line_text::BackLine;
use std::alloc::Global;
use std::marker::PhantomData;
use std::sync::ledger::Ledger;

/// A feed that is served, and is refused as short where its input ends.
#[derive(Drop)]
pub struct Serving<L: Ledger> {
    pub(crate) feed: Feed,
    pub(crate) counts: PhantomData<L>,
}

impl<L: Ledger> Serving<L> {
    /// A feed of which nothing was read yet.
    pub fn new(alloc: Global) -> Serving<L>
        ensures { (start : ℕ) → IsReady (whole_call start) result.feed start [] }
    {
        Serving {
            feed: Feed::new(alloc),
            counts: PhantomData,
        }
    }
}

/// Tells how a feed ended. One that goes on is refused as short.
fn tell_end<P: Port>(lane: &Lane, port: &mut P, out: &mut Output) -> Result<Status, Stop>
    requires empty { out.old ≡ [] }
    ensures answers { (c : Call) (x : List ℕ) (ended : Bool) → Stands lane.now (lines_of (c.feed ++ x)) [] →
        IsOver (serve_talk Refuse c.feed) x ended →
        AnswersBy (serve_talk Refuse c.feed) x ended (P.moves port.old) (P.moves port.new) out.new result }
    ensures cause { StopCause result
        (P.write_faults port.old) (P.write_faults port.new) (P.read_faults port.old) (P.read_faults port.new) }
    ensures stops { StopsOn result (P.calls port.old) (P.calls port.new) }
{
    let Err(fault) = lane.end() else {
        return Ok(Status::Done);
    };
    if !lane.goes_on() {
        return Ok(Status::Refused);
    }
    match put_fault(port, out, fault) {
        Ok(()) => Ok(Status::Refused),
        Err(_) => Err(Stop::Unwritten),
    }
}

impl<L: Ledger> Talker for Serving<L> {
    type Meter = Comparisons<L>;

    ghost about = { Call };

    ghost talk = { λ call. serve_talk Refuse call.feed };

    ghost stands = { λ call s steps. IsGiving call s.feed steps };

    ghost ready = { λ call s steps. IsReady call s.feed steps };

    ghost costs = { λ call steps. Costs call steps };

    fn laws() {
        Lane::laws();
    }

    fn goes_on(&self, _meter: &Comparisons<L>) -> bool {
        self.feed.lane().goes_on()
    }

    #[inline(always)]
    fn take(&mut self, _meter: &mut Comparisons<L>, piece: &[u8]) -> Result<usize, Memory> {
        Lane::laws();
        self.feed.take(piece)
    }

    #[inline(always)]
    fn next_part(&mut self, meter: &mut Comparisons<L>, part: &mut BackLine) -> bool {
        match self.feed.next_out(meter) {
            Some(out) => {
                write_next(&out, self.feed.lane().spelled(), part);
                true
            }
            None => false,
        }
    }

    fn answer<P: Port>(
        self,
        _meter: &mut Comparisons<L>,
        port: &mut P,
        out: &mut Output,
        _ended: bool,
    ) -> Result<Status, Stop> {
        Lane::laws();
        let told = tell_end(self.feed.lane(), port, out);
        // Let go here, so that no way out of the answer owns it.
        drop(self);
        told
    }
}
