//! The lines of a feed of jobs, on their way out.
ghost use Rattle.std.specs.Prelude.{◌≤◌, ◌<◌, ◌^◌, ◌+◌, ◌*◌, [], ℕ, length, map};
ghost use Rattle.std.specs.List.{AllByRecursion};
ghost use Rattle.dover_model.specs.declared.events.Version.TheVariants.{Two};
ghost use Rattle.dover_model.specs.Common.{most_jobs, in_lines, rules_with};
ghost use Rattle.dover_port.specs.Causes.{HasCause, StopsAtFailure};
ghost use Rattle.dover_port.specs.Moves.{PutsThrough};
ghost use Rattle.task_words.specs.tasks.Limits.{IsTask};
ghost use Rattle.task_words.specs.tasks.Merging.{StandsBehind};
ghost use Rattle.task_words.specs.tasks.Tasks.{jobs_before, unrolled};
ghost use Rattle.event_feed.specs.Feeds.{feed_of, job_text};

use crate::tasks::Unrolling;
use comparison_count::Comparisons;
use dialogue::lines::{put_feed_line, put_job, put_rules};
use dover_model::{Ratio, Version};
use dover_port::{Failed, Output, Port};
use line_text::feeds::FeedLine;
use std::sync::ledger::Ledger;

/// More jobs than a feed has.
const MORE_JOBS: u32 = 1_000_001;

/// Puts the line of each job, of which none was given yet.
fn put_jobs<P: Port, L: Ledger>(
    port: &mut P,
    out: &mut Output,
    unrolling: &mut Unrolling,
    comparisons: &mut Comparisons<L>,
) -> Result<(), Failed>
    requires stands { StandsBehind unrolling.old [] }
    requires each { AllByRecursion (IsTask unrolling.old.until) unrolling.old.tasks }
    requires few { length (jobs_before unrolling.old.until unrolling.old.tasks) ≤ most_jobs Two }
    ensures text { PutsThrough (P.moves port.old) (P.moves port.new) result out.old out.new
        (in_lines (map job_text (jobs_before unrolling.old.until unrolling.old.tasks))) }
    ensures count { (d : ℕ) → length unrolling.old.tasks + 1 < 2 ^ d →
        comparisons.new ≤ comparisons.old + 4 * d * length (jobs_before unrolling.old.until unrolling.old.tasks) }
    ensures cause { HasCause (P.write_faults port.old) (P.write_faults port.new) (P.read_faults port.old)
        (P.read_faults port.new) result }
    ensures stops { StopsAtFailure (P.calls port.old) (P.calls port.new) result }
{
    let mut count = 0u32;
    while count < MORE_JOBS {
        count += 1;
        let Some(job) = unrolling.next_job(comparisons) else {
            return Ok(());
        };
        match put_job(port, out, &job) {
            Ok(()) => {}
            Err(failed) => return Err(failed),
        }
    }
    unreachable!()
}

/// Puts the lines of the feed of all jobs, of which none was given yet.
pub(crate) fn put_feed<P: Port, L: Ledger>(
    port: &mut P,
    out: &mut Output,
    rules: (Ratio, Version),
    unrolling: &mut Unrolling,
    comparisons: &mut Comparisons<L>,
) -> Result<(), Failed>
    requires stands { StandsBehind unrolling.old [] }
    requires each { AllByRecursion (IsTask unrolling.old.until) unrolling.old.tasks }
    requires few { length (jobs_before unrolling.old.until unrolling.old.tasks) ≤ most_jobs Two }
    ensures text { PutsThrough (P.moves port.old) (P.moves port.new) result out.old out.new
        (feed_of (unrolled unrolling.old.until (rules_with rules.0 rules.1) unrolling.old.tasks)) }
    ensures count { (d : ℕ) → length unrolling.old.tasks + 1 < 2 ^ d →
        comparisons.new ≤ comparisons.old + 4 * d * length (jobs_before unrolling.old.until unrolling.old.tasks) }
    ensures cause { HasCause (P.write_faults port.old) (P.write_faults port.new) (P.read_faults port.old)
        (P.read_faults port.new) result }
    ensures stops { StopsAtFailure (P.calls port.old) (P.calls port.new) result }
{
    match put_rules(port, out, rules.0, rules.1) {
        Ok(()) => {}
        Err(failed) => return Err(failed),
    }
    match put_jobs(port, out, unrolling, comparisons) {
        Ok(()) => {}
        Err(failed) => return Err(failed),
    }
    put_feed_line(port, out, &FeedLine::End)
}
