//! What the reading loop calls: a feed that is served, and may be paused.
ghost use Rattle.std.specs.Prelude.{◌≡◌, ◌<◌, ◌-◌, ◌^◌, ℕ, [], true, length, IsSome};
ghost use Rattle.dover_model.specs.JobFacts.{JobFacts};
ghost use Rattle.dover_model.specs.declared.events.Event.TheVariants.{Release, Complete};
ghost use Rattle.event_feed.specs.declared.due_line.DueLine.TheVariants.{Step};
ghost use Rattle.ready_server.specs.Roster.{HasLine, finish_here};
ghost use Rattle.ready_server.specs.Serving.{HasPaid};
ghost use Rattle.snapshot.specs.Snapshot.{MayPause};
ghost use Rattle.snapshot.specs.Feeds.{ResumesFeed};
ghost use Rattle.feed_words.specs.serve.Keeping.{Call, whole_call, serve_talk, IsListing, IsListed, Costs};
ghost use Rattle.feed_words.specs.serve.Listing.{with_line};
ghost use Rattle.feed_words.specs.declared.serve.at_end.AtEnd.TheVariants.{Pause};

use crate::serve::pause::{is_paused, is_too_large, pause, put_lines};
use crate::serve::serving::Serving;
use crate::serve::told::answer_with;
use comparison_count::Comparisons;
use dialogue::lines::write_next;
use dialogue::{Stop, Talker};
use dover_model::Memory;
use dover_port::{Output, Port, Status};
use event_feed::{DueLine, Intake};
use lane_server::{Feed, Lane};
use line_text::BackLine;
use ready_server::{ReadyServer, Roster};
use std::alloc::Global;
use std::marker::PhantomData;
use std::sync::ledger::Ledger;

/// A feed that is served, and is paused where its input ends, if its ratio was declared and no line has begun. Its
/// roster is kept from the lines that are given, while the feed goes on.
#[derive(Drop)]
pub struct Pausing<L: Ledger> {
    pub(crate) serving: Serving<L>,
    pub(crate) roster: Roster,
}

impl<L: Ledger> Pausing<L> {
    /// A feed of which nothing was read yet.
    pub fn new(alloc: Global) -> Pausing<L>
        ensures { (start : ℕ) → IsListed (whole_call start) result.serving.feed result.roster start [] }
    {
        Pausing {
            serving: Serving::new(alloc),
            roster: Roster::new(alloc),
        }
    }

    /// A feed that goes on from its snapshot, which gave the server, its roster, the intake and the mark. Nothing is
    /// given that was due before the pause.
    pub fn resumed(
        alloc: Global,
        server: ReadyServer,
        roster: Roster,
        intake: Intake,
        mark: u64,
    ) -> Pausing<L>
        ensures { (c : Call) (now : ℕ) → MayPause c.feed → ResumesFeed server roster intake mark c.feed →
            HasPaid server c.start now → IsListed c result.serving.feed result.roster now [] }
    {
        let serving = Serving {
            feed: Feed::behind(alloc, Lane::resumed(intake, server, mark)),
            counts: PhantomData,
        };
        Pausing { serving, roster }
    }
}

/// The roster reads a line that is given, while the feed goes on.
fn read_into(roster: &mut Roster, goes_on: bool, out: &DueLine)
    requires few { goes_on ≡ true → roster.old.roll.takes < 2 ^ 64 - 1 }
    requires room { (n : ℕ) (job : JobFacts) → goes_on ≡ true → out.now ≡ Step (Release n job) → HasLine roster.old }
    requires finish_room { (at n : ℕ) → goes_on ≡ true → out.now ≡ Step (Complete at n)
        → IsSome (finish_here roster.old.roll at) → length roster.old.roll.finishes < roster.old.finish_room }
    ensures roll { goes_on ≡ true → roster.new.roll ≡ with_line roster.old.roll out.now }
    ensures room { (roster.new.room ≡ roster.old.room) × (roster.new.finish_room ≡ roster.old.finish_room) }
{
    if !goes_on {
        return;
    }
    if let DueLine::Step(event) = out {
        roster.read(event);
    }
}

impl<L: Ledger> Talker for Pausing<L> {
    type Meter = Comparisons<L>;

    ghost about = { Call };

    ghost talk = { λ call. serve_talk Pause call.feed };

    ghost stands = { λ call s steps. IsListing call s.serving.feed s.roster steps };

    ghost ready = { λ call s steps. IsListed call s.serving.feed s.roster steps };

    ghost costs = { λ call steps. Costs call steps };

    fn laws() {
        Serving::<L>::laws();
    }

    fn take(&mut self, _meter: &mut Comparisons<L>, piece: &[u8]) -> Result<usize, Memory> {
        Lane::laws();
        let count = match self.serving.feed.take(piece) {
            Ok(count) => count,
            Err(error) => return Err(error),
        };
        match self.roster.make_room(self.serving.feed.lane().most_jobs()) {
            Ok(()) => Ok(count),
            Err(error) => Err(error),
        }
    }

    fn next_part(&mut self, meter: &mut Comparisons<L>, part: &mut BackLine) -> bool {
        match self.serving.feed.next_out(meter) {
            Some(out) => {
                let goes_on = self.serving.feed.lane().goes_on();
                read_into(&mut self.roster, goes_on, &out);
                write_next(&out, self.serving.feed.lane().spelled(), part);
                true
            }
            None => false,
        }
    }

    fn goes_on(&self, meter: &Comparisons<L>) -> bool {
        self.serving.goes_on(meter)
    }

    fn answer<P: Port>(
        self,
        meter: &mut Comparisons<L>,
        port: &mut P,
        out: &mut Output,
        ended: bool,
    ) -> Result<Status, Stop> {
        if is_paused(&self.serving.feed) {
            let mut paused = pause(self);
            let put = put_lines(port, out, &mut paused);
            // Let go here, so that no way out of the answer owns it.
            drop(paused);
            return answer_with(put, Status::Done);
        }
        if is_too_large(&self.serving.feed) {
            // Let go here, as above.
            drop(self);
            Lane::laws();
            let put = out.put(port, b"refused size\n");
            return answer_with(put, Status::Refused);
        }
        self.serving.answer(meter, port, out, ended)
    }
}
