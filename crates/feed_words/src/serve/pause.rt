//! The snapshot of a feed that is paused where its input ends.
ghost use Rattle.std.specs.Prelude.{◌≡◌, ◌↔◌, ℕ, List, IsTrue};
ghost use Rattle.dover_model.specs.Common.{account, due_lines, in_lines, CostsAtMost};
ghost use Rattle.event_feed.specs.Answers.{admitted_in};
ghost use Rattle.dover_port.specs.Causes.{HasCause, StopsAtFailure};
ghost use Rattle.dover_port.specs.Moves.{PutsThrough};
ghost use Rattle.lane_server.specs.Feeding.{FeedRests};
ghost use Rattle.lane_server.specs.Spending.{HasPaid};
ghost use Rattle.ready_server.specs.Roster.{IsRollOf};
ghost use Rattle.feed_words.specs.serve.Talk.{IsTooLarge};
ghost use Rattle.feed_words.specs.serve.Listing.{steps_in};
ghost use Rattle.snapshot.specs.Snapshot.{MayPause, snapshot};

use crate::serve::pausing::Pausing;
use dover_model::Version;
use dover_port::{Failed, Output, Port};
use lane_server::{Feed, Lane};
use line_text::BackLine;
use snapshot::Paused;
use std::sync::ledger::Ledger;

/// Puts the lines of a snapshot.
pub(crate) fn put_lines<P: Port>(
    port: &mut P,
    out: &mut Output,
    paused: &mut Paused,
) -> Result<(), Failed>
    ensures text { PutsThrough (P.moves port.old) (P.moves port.new) result out.old out.new (in_lines paused.old) }
    ensures cause { HasCause (P.write_faults port.old) (P.write_faults port.new) (P.read_faults port.old)
        (P.read_faults port.new) result }
    ensures stops { StopsAtFailure (P.calls port.old) (P.calls port.new) result }
{
    let mut line = BackLine::new();
    while paused.next_line(&mut line) {
        match out.put(port, line.bytes()) {
            Ok(()) => {}
            Err(failed) => return Err(failed),
        }
    }
    Ok(())
}

/// Whether a feed is paused where its input ends: its ratio was declared, it has no more jobs than a snapshot lists, it
/// goes on, and no line has begun.
pub(crate) fn is_paused(feed: &Feed) -> bool
    ensures { (x : List ℕ) → FeedRests feed.now x → IsTrue result ↔ MayPause x }
{
    match feed.lane().jobs() {
        Some(jobs) => jobs <= Version::Two.most_jobs() && feed.lane().goes_on() && feed.rest() == 0,
        None => false,
    }
}

/// Whether a feed would be paused there, had it not more jobs than a snapshot lists.
pub(crate) fn is_too_large(feed: &Feed) -> bool
    ensures { (x : List ℕ) → FeedRests feed.now x → IsTrue result ↔ IsTooLarge x }
{
    match feed.lane().jobs() {
        Some(jobs) => jobs > Version::Two.most_jobs() && feed.lane().goes_on() && feed.rest() == 0,
        None => false,
    }
}

/// A feed that is served and may pause, as the lines of its snapshot.
pub(crate) fn pause<L: Ledger>(pausing: Pausing<L>) -> Paused
    requires { (x : List ℕ) × FeedRests pausing.serving.feed x × MayPause x
        × IsRollOf (steps_in (due_lines (account x))) pausing.roster }
    ensures text { (x : List ℕ) → FeedRests pausing.serving.feed x → MayPause x →
        IsRollOf (steps_in (due_lines (account x))) pausing.roster → in_lines result ≡ snapshot x }
    ensures paid { (x : List ℕ) (start now : ℕ) → FeedRests pausing.serving.feed x → MayPause x →
        HasPaid pausing.serving.feed.lane.server start now →
        CostsAtMost (admitted_in (account x)) start now }
{
    Lane::laws();
    let roster = pausing.roster;
    let lane = pausing.serving.feed.into_lane();
    let lines = lane.lines();
    let mark = lane.mark();
    let Some(server) = lane.into_server() else {
        unreachable!();
    };
    Paused::new(&server, roster, lines, mark)
}
