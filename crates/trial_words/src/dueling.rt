//! The word `duel`.
ghost use Rattle.std.specs.Prelude.{◌≡◌, ◌≤◌, [], length, take, map};
ghost use Rattle.std.specs.List.{AllByRecursion};
ghost use Rattle.dialogue.specs.Talk.{CanEnd};
ghost use Rattle.dover_model.specs.declared.events.Version.TheVariants.{One};
ghost use Rattle.dover_model.specs.Common.{jobs_under, IsJob, in_lines};
ghost use Rattle.dover_port.specs.Causes.{Causes, HasCause, StopsAtFailure, StopsWith};
ghost use Rattle.dover_port.specs.Moves.{PutsThrough, Since};
ghost use Rattle.stated_jobs.specs.duel.Kept.{IsShare};
ghost use Rattle.trial_words.specs.Dueled.{Duels, no_duel_text};
ghost use Rattle.event_feed.specs.Feeds.{feed_of, job_text};

use dialogue::lines::{put_feed_line, put_job, put_rules};
use dover_model::{Ratio, Version};
use dover_port::{Failed, Output, Port, Status, put_all};
use line_text::feeds::FeedLine;
use stated_jobs::duel::{Coming, Next, NoDuel, Share, front_count};

/// Puts the lines of so many jobs, each of which keeps its limits.
fn put_jobs<P: Port>(
    port: &mut P,
    out: &mut Output,
    coming: &mut Coming,
    count: u32,
) -> Result<(), Failed>
    requires few { count ≤ length coming.old }
    requires each { AllByRecursion IsJob coming.old }
    ensures text { PutsThrough (P.moves port.old) (P.moves port.new) result out.old out.new
        (in_lines (map job_text (take count coming.old))) }
    ensures cause { HasCause (P.write_faults port.old) (P.write_faults port.new) (P.read_faults port.old)
        (P.read_faults port.new) result }
    ensures stops { StopsAtFailure (P.calls port.old) (P.calls port.new) result }
{
    let mut put = 0u32;
    while put < count {
        put += 1;
        let Next::Job(job) = coming.next_job() else {
            unreachable!()
        };
        match put_job(port, out, &job) {
            Ok(()) => {}
            Err(failed) => return Err(failed),
        }
    }
    Ok(())
}

/// Puts the feed of so many of the jobs.
fn put_feed<P: Port>(
    port: &mut P,
    out: &mut Output,
    k: Ratio,
    coming: &mut Coming,
    count: u32,
) -> Result<(), Failed>
    requires few { count ≤ length coming.old }
    requires each { AllByRecursion IsJob coming.old }
    ensures text { PutsThrough (P.moves port.old) (P.moves port.new) result out.old []
        (feed_of (jobs_under One k (take count coming.old))) }
    ensures cause { HasCause (P.write_faults port.old) (P.write_faults port.new) (P.read_faults port.old)
        (P.read_faults port.new) result }
    ensures stops { StopsAtFailure (P.calls port.old) (P.calls port.new) result }
{
    match put_rules(port, out, k, Version::One) {
        Ok(()) => {}
        Err(failed) => return Err(failed),
    }
    match put_jobs(port, out, coming, count) {
        Ok(()) => {}
        Err(failed) => return Err(failed),
    }
    match put_feed_line(port, out, &FeedLine::End) {
        Ok(()) => {}
        Err(failed) => return Err(failed),
    }
    out.flush(port)
}

/// The line that says why there is no duel.
fn refusal(cause: NoDuel) -> &'static [u8]
    ensures { result.now ≡ no_duel_text cause }
{
    match cause {
        NoDuel::Share => b"refused share\n",
        NoDuel::Size => b"refused size\n",
        NoDuel::Front => b"refused front\n",
    }
}

/// Writes the feed of the duel for a share: of jobs on which no on-line scheduler gets this share of the best schedule
/// on each of their fronts. With a front it is the feed of so many of them, the first ones. Nothing is read, and no
/// memory is taken. A share that is no more than the rules save is refused, and so is a duel whose jobs don't fit into
/// a feed, and a front of more jobs than it has.
pub fn duel_word<P: Port>(port: &mut P, k: Ratio, share: Share, front: Option<u32>) -> Status
    requires share { IsShare share }
    ensures duels { Since (P.moves port.old) (P.moves port.new) (Duels k share front result) }
    ensures ends { CanEnd (Duels k share front) result }
    ensures causes { Causes result (P.read_faults port.old) (P.read_faults port.new) (P.write_faults port.old)
        (P.write_faults port.new) }
    ensures stops { StopsWith result (P.calls port.old) (P.calls port.new) }
{
    let count = match front_count(k, share, front) {
        Ok(count) => count,
        Err(cause) => {
            return match put_all(port, refusal(cause)) {
                Ok(()) => Status::Refused,
                Err(_) => Status::WriteFault,
            };
        }
    };
    let mut coming = Coming::new(k, share);
    let mut out = Output::new();
    match put_feed(port, &mut out, k, &mut coming, count) {
        Ok(()) => Status::Done,
        Err(_) => Status::WriteFault,
    }
}
