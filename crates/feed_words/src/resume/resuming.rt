//! What the reading loop calls: a snapshot that is read, and then its feed, which goes on.
ghost use Rattle.std.specs.Prelude.{◌≡◌, Bool, ℕ, List, []};
ghost use Rattle.dialogue.specs.Turns.{AnswersBy, StopCause, StopsOn};
ghost use Rattle.dover_port.specs.declared.status.Status.TheVariants as statuses;
ghost use Rattle.feed_words.specs.resume.Record.{refused_text, IsFrugalFor};
ghost use Rattle.feed_words.specs.resume.Talk.{Asked, resume_talk};
ghost use Rattle.feed_words.specs.resume.Keeping.{IsReady, IsGiving, IsServedOn};
ghost use Rattle.feed_words.specs.declared.resume.opening.Opening.{Opening};
ghost use Rattle.feed_words.specs.declared.resume.resuming.SnapshotStage.TheVariants as stage;
ghost use Rattle.snapshot.specs.Kept.{IsReady as IsWholeFor};

use crate::resume::opening::Opening;
use crate::serve::{AtEnd, Pausing};
use comparison_count::Comparisons;
use dialogue::lines::put_refused;
use dialogue::{Stop, Talker};
use dover_model::Memory;
use dover_port::{Output, Port, Status};
use line_text::BackLine;
use snapshot::{Got, SnapFault, SnapshotReader};
use std::alloc::Global;
use std::mem::replace;
use std::sync::ledger::Ledger;

/// How far a snapshot was read.
#[derive(Drop)]
pub(crate) enum SnapshotStage<L: Ledger> {
    /// Its last line is still to come.
    Opening(Opening),
    /// This line of it is refused.
    Refused(u64),
    /// It was whole, and its feed goes on.
    Serving(Pausing<L>),
}

impl<L: Ledger> SnapshotStage<L> {
    /// Turns to a snapshot that is refused at this line.
    #[inline(never)]
    fn refuse(&mut self, line: u64)
        ensures { self.new ≡ stage.Refused line }
    {
        drop(replace(self, SnapshotStage::Refused(line)));
    }
}

/// A snapshot that is read, and then its feed, with what is done where the input ends.
#[derive(Drop)]
pub(crate) struct Resuming<L: Ledger> {
    pub(crate) alloc: Global,
    pub(crate) at_end: AtEnd,
    pub(crate) stage: SnapshotStage<L>,
}

/// Refuses a snapshot at this line.
fn refuse_snapshot<P: Port>(port: &mut P, out: &mut Output, line: u64) -> Result<Status, Stop>
    requires empty { out.old ≡ [] }
    ensures answers { (a : Asked) (x : List ℕ) (ended : Bool) → (resume_talk a).due x ≡ [] →
        (resume_talk a).answer x ended statuses.Refused (refused_text line) →
        AnswersBy (resume_talk a) x ended (P.moves port.old) (P.moves port.new) out.new result }
    ensures cause { StopCause result
        (P.write_faults port.old) (P.write_faults port.new) (P.read_faults port.old) (P.read_faults port.new) }
    ensures stops { StopsOn result (P.calls port.old) (P.calls port.new) }
{
    match put_refused(port, out, line, b"snapshot") {
        Ok(()) => Ok(Status::Refused),
        Err(_) => Err(Stop::Unwritten),
    }
}

impl<L: Ledger> Resuming<L> {
    /// The snapshot is whole: its feed goes on.
    #[inline(never)]
    fn go_on(&mut self)
        requires { (o : Opening) × (self.old.stage ≡ stage.Opening o)
            × ((ls : List (List ℕ)) × IsWholeFor o.reader ls) }
        ensures goes { (o : Opening) (ls : List (List ℕ)) → self.old.stage ≡ stage.Opening o → IsWholeFor o.reader ls
            → IsServedOn self.new.stage o.reader ls }
        ensures same { self.new.at_end ≡ self.old.at_end }
    {
        let SnapshotStage::Opening(opening) = &mut self.stage else {
            unreachable!();
        };
        let reader = replace(&mut opening.reader, SnapshotReader::new(self.alloc));
        let (server, roster, intake, mark) = reader.take();
        let pausing = Pausing::resumed(self.alloc, server, roster, intake, mark);
        drop(replace(&mut self.stage, SnapshotStage::Serving(pausing)));
    }
}

impl<L: Ledger> Talker for Resuming<L> {
    type Meter = Comparisons<L>;

    ghost about = { Asked };

    ghost talk = { resume_talk };

    ghost stands = { λ a t now x parts. (t.at_end ≡ a.at_end) × IsGiving a t.stage now x parts };

    ghost ready = { λ a t now x. (t.at_end ≡ a.at_end) × IsReady a t.stage now x };

    ghost costs = { λ a now x. IsFrugalFor a.start now x };

    fn laws() {
        Pausing::<L>::laws();
    }

    fn take(&mut self, meter: &mut Comparisons<L>, piece: &[u8]) -> Result<usize, Memory> {
        Pausing::<L>::laws();
        match &mut self.stage {
            SnapshotStage::Opening(opening) => match opening.take(piece, meter) {
                Ok((used, Got::More)) => Ok(used),
                Ok((used, Got::Ready)) => {
                    self.go_on();
                    Ok(used)
                }
                Err(SnapFault::BadSnapshot { line }) => {
                    self.stage.refuse(line);
                    Ok(piece.len())
                }
                Err(SnapFault::Memory) => Err(Memory),
            },
            SnapshotStage::Refused(_) => unreachable!(),
            SnapshotStage::Serving(pausing) => pausing.take(meter, piece),
        }
    }

    fn next_part(&mut self, meter: &mut Comparisons<L>, part: &mut BackLine) -> bool {
        match &mut self.stage {
            SnapshotStage::Opening(_) => false,
            SnapshotStage::Refused(_) => false,
            SnapshotStage::Serving(pausing) => pausing.next_part(meter, part),
        }
    }

    fn goes_on(&self, meter: &Comparisons<L>) -> bool {
        match &self.stage {
            SnapshotStage::Opening(_) => true,
            SnapshotStage::Refused(_) => false,
            SnapshotStage::Serving(pausing) => pausing.goes_on(meter),
        }
    }

    fn answer<P: Port>(
        self,
        meter: &mut Comparisons<L>,
        port: &mut P,
        out: &mut Output,
        ended: bool,
    ) -> Result<Status, Stop> {
        let at_end = self.at_end;
        match self.stage {
            SnapshotStage::Opening(opening) => {
                let line = opening.lines.count() + 1;
                drop(opening);
                refuse_snapshot(port, out, line)
            }
            SnapshotStage::Refused(line) => refuse_snapshot(port, out, line),
            SnapshotStage::Serving(pausing) => match at_end {
                AtEnd::Refuse => pausing.serving.answer(meter, port, out, ended),
                AtEnd::Pause => pausing.answer(meter, port, out, ended),
            },
        }
    }
}
