//! What the reading loop calls: lanes that are served.
ghost use Rattle.std.specs.Prelude.{◌≡◌, ℕ, List, true, if◌then◌else◌};
ghost use Rattle.dialogue.specs.Turns.{joined};
ghost use Rattle.dover_port.specs.Causes.{HasCause, StopsAtFailure};
ghost use Rattle.dover_port.specs.Moves.{PutsThrough};
ghost use Rattle.lane_server.specs.Kept.{StandsFor, is_closed};
ghost use Rattle.lanes_word.specs.Talk.{lanes_talk};
ghost use Rattle.lanes_word.specs.Keeping.{parts_of, IsGiving, IsReady, Costs};

use crate::lines::write_in_lane;
use comparison_count::Comparisons;
use dialogue::lines::put_refused;
use dialogue::{Stop, Talker};
use dover_model::Memory;
use dover_port::{Failed, Output, Port, Status};
use lane_server::{LaneInput, Lanes};
use line_text::BackLine;
use std::marker::PhantomData;
use std::sync::ledger::Ledger;

/// Lanes that are served.
#[derive(Drop)]
pub(crate) struct Hosting<L: Ledger> {
    pub(crate) input: LaneInput,
    pub(crate) counts: PhantomData<L>,
}

/// Puts the lines that are left to give behind `close`.
fn put_left<P: Port, L: Ledger>(
    port: &mut P,
    out: &mut Output,
    lanes: &mut Lanes,
    comparisons: &mut Comparisons<L>,
) -> Result<(), Failed>
    requires stands { (ls left : List (List ℕ)) × StandsFor lanes.old ls left }
    requires closed { is_closed lanes.old ≡ true }
    ensures text { (ls left : List (List ℕ)) → StandsFor lanes.old ls left →
        PutsThrough (P.moves port.old) (P.moves port.new) result out.old out.new (joined (parts_of left)) }
    ensures idle { comparisons.new ≡ comparisons.old }
    ensures cause { HasCause (P.write_faults port.old) (P.write_faults port.new) (P.read_faults port.old)
        (P.read_faults port.new) result }
    ensures stops { StopsAtFailure (P.calls port.old) (P.calls port.new) result }
{
    let mut part = BackLine::new();
    for _ in 0..u64::MAX {
        let Some((lane, given)) = lanes.next_out(comparisons) else {
            return Ok(());
        };
        write_in_lane(lane, given, &mut part);
        match out.put(port, part.bytes()) {
            Ok(()) => {}
            Err(failed) => return Err(failed),
        }
    }
    unreachable!()
}

/// The status of a session that was closed.
fn closed_status(all_ended: bool) -> Status
    ensures { result ≡ if all_ended then Status.Done else Status.Refused }
{
    if all_ended {
        Status::Done
    } else {
        Status::Refused
    }
}

impl<L: Ledger> Talker for Hosting<L> {
    type Meter = Comparisons<L>;

    ghost about = { ℕ };

    ghost talk = { λ start. lanes_talk };

    ghost stands = { λ start h steps. IsGiving start h.input steps };

    ghost ready = { λ start h steps. IsReady start h.input steps };

    ghost costs = { λ start steps. Costs start steps };

    fn laws() {
        LaneInput::laws();
    }

    #[inline(always)]
    fn take(&mut self, _meter: &mut Comparisons<L>, piece: &[u8]) -> Result<usize, Memory> {
        LaneInput::laws();
        self.input.take(piece)
    }

    #[inline(always)]
    fn next_part(&mut self, meter: &mut Comparisons<L>, part: &mut BackLine) -> bool {
        match self.input.next_out(meter) {
            Some((lane, out)) => {
                write_in_lane(lane, out, part);
                true
            }
            None => false,
        }
    }

    fn goes_on(&self, _meter: &Comparisons<L>) -> bool {
        self.input.goes_on()
    }

    fn answer<P: Port>(
        self,
        meter: &mut Comparisons<L>,
        port: &mut P,
        out: &mut Output,
        _ended: bool,
    ) -> Result<Status, Stop> {
        LaneInput::laws();
        match self.input.end() {
            Ok(mut lanes) => {
                let status = closed_status(lanes.all_ended());
                match put_left(port, out, &mut lanes, meter) {
                    Ok(()) => Ok(status),
                    Err(_) => Err(Stop::Unwritten),
                }
            }
            Err(refused) => match put_refused(port, out, refused.line, refused.cause.word()) {
                Ok(()) => Ok(Status::Refused),
                Err(_) => Err(Stop::Unwritten),
            },
        }
    }
}
