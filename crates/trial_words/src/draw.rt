//! The word `draw`.
ghost use Rattle.std.specs.Prelude.{◌<◌, ◌≤◌, ◌^◌, [], flat_map};
ghost use Rattle.dialogue.specs.Talk.{CanEnd};
ghost use Rattle.dover_model.specs.declared.events.Version.TheVariants.{Two};
ghost use Rattle.dover_model.specs.Limits.{most_jobs};
ghost use Rattle.dover_port.specs.Causes.{Causes, HasCause, StopsAtFailure, StopsWith};
ghost use Rattle.dover_port.specs.Moves.{PutsThrough, Since};
ghost use Rattle.trial_words.specs.Drawing.{Draws, feed_of_turns, turn_lines, text_of_lines};

use dialogue::lines::{put_feed_line, put_job, put_rules};
use dover_model::{Ratio, Version};
use dover_port::{Failed, Output, Port, Status};
use line_text::feeds::FeedLine;
use stated_jobs::trial::{Turn, TurnGen};

/// Puts the lines of a turn.
fn put_turn<P: Port>(port: &mut P, out: &mut Output, turn: &Turn) -> Result<(), Failed>
    ensures text { PutsThrough (P.moves port.old) (P.moves port.new) result out.old out.new
        (text_of_lines (turn_lines turn.now)) }
    ensures cause { HasCause (P.write_faults port.old) (P.write_faults port.new) (P.read_faults port.old)
        (P.read_faults port.new) result }
    ensures stops { StopsAtFailure (P.calls port.old) (P.calls port.new) result }
{
    match put_job(port, out, &turn.job) {
        Ok(()) => {}
        Err(failed) => return Err(failed),
    }
    match turn.done {
        Some(done) => {
            let line = FeedLine::Done {
                at: done.tick,
                number: done.number,
            };
            put_feed_line(port, out, &line)
        }
        None => Ok(()),
    }
}

/// Puts the lines of the turns that are still to come.
fn put_turns<P: Port>(port: &mut P, out: &mut Output, turns: &mut TurnGen) -> Result<(), Failed>
    ensures text { PutsThrough (P.moves port.old) (P.moves port.new) result out.old out.new
        (text_of_lines (flat_map turn_lines turns.old)) }
    ensures cause { HasCause (P.write_faults port.old) (P.write_faults port.new) (P.read_faults port.old)
        (P.read_faults port.new) result }
    ensures stops { StopsAtFailure (P.calls port.old) (P.calls port.new) result }
{
    while let Some(turn) = turns.next() {
        match put_turn(port, out, &turn) {
            Ok(()) => {}
            Err(failed) => return Err(failed),
        }
    }
    Ok(())
}

/// Puts the feed of these turns.
fn put_feed<P: Port>(
    port: &mut P,
    out: &mut Output,
    k: Ratio,
    turns: &mut TurnGen,
) -> Result<(), Failed>
    ensures text { PutsThrough (P.moves port.old) (P.moves port.new) result out.old []
        (feed_of_turns k turns.old) }
    ensures cause { HasCause (P.write_faults port.old) (P.write_faults port.new) (P.read_faults port.old)
        (P.read_faults port.new) result }
    ensures stops { StopsAtFailure (P.calls port.old) (P.calls port.new) result }
{
    match put_rules(port, out, k, Version::Three) {
        Ok(()) => {}
        Err(failed) => return Err(failed),
    }
    match put_turns(port, out, turns) {
        Ok(()) => {}
        Err(failed) => return Err(failed),
    }
    match put_feed_line(port, out, &FeedLine::End) {
        Ok(()) => {}
        Err(failed) => return Err(failed),
    }
    out.flush(port)
}

/// Writes the stated feed of a seed, of so many jobs within the ratio `k`, in which some are said to be done: what is
/// said is right of some, and is refused of others. Nothing is read, and no memory is taken. The seed is below 2^31,
/// the count at most 1,000,000.
pub fn draw_word<P: Port>(port: &mut P, seed: u32, count: u32, k: Ratio) -> Status
    requires seed { seed < 2 ^ 31 }
    requires count { count ≤ most_jobs Two }
    ensures draws { Since (P.moves port.old) (P.moves port.new) (Draws k seed count result) }
    ensures ends { CanEnd (Draws k seed count) result }
    ensures causes { Causes result (P.read_faults port.old) (P.read_faults port.new) (P.write_faults port.old)
        (P.write_faults port.new) }
    ensures stops { StopsWith result (P.calls port.old) (P.calls port.new) }
{
    let mut turns = TurnGen::new(seed, count, k);
    let mut out = Output::new();
    match put_feed(port, &mut out, k, &mut turns) {
        Ok(()) => Status::Done,
        Err(_) => Status::WriteFault,
    }
}
