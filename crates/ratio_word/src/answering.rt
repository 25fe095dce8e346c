//! The answer on what was read.
ghost use Rattle.std.specs.Prelude.{◌≡◌, ◌≤◌, ◌++◌, ◌∷◌, [], List, codes, length};
ghost use Rattle.dialogue.specs.Turns.{Answers, StopCause, StopsOn};
ghost use Rattle.dover_model.specs.Common.{Declaration as Rules, JobFacts, in_lines, rules_with};
ghost use Rattle.dover_port.specs.Causes.{HasCause, StopsAtFailure};
ghost use Rattle.dover_port.specs.Moves.{PutsThrough};
ghost use Rattle.event_feed.specs.Feeds.{rules_text};
ghost use Rattle.ratio_word.specs.Keeping.{KeepsDeclared};
ghost use Rattle.ratio_word.specs.Says.{SaysRatio, bound_line, extreme_lines, job_line};

use crate::intake::Declaration;
use admission::{Extremes, Numbered, least_kept};
use dialogue::Stop;
use dialogue::lines::{put_numbers, put_rules};
use dover_model::{Ratio, Version};
use dover_port::{Failed, Output, Port, Status};
use root_compare::long_bound;

/// What a run is to complete for which the bound is told.
const TOLD: u64 = 1_000_000;

/// Puts the line of a job behind a word.
fn put_job<P: Port>(port: &mut P, out: &mut Output, word: &[u8], x: &Numbered) -> Result<(), Failed>
    requires { length word.now ≤ 8 }
    ensures text { PutsThrough (P.moves port.old) (P.moves port.new) result out.old out.new
        (job_line word.now x.now ++ 10 ∷ []) }
    ensures cause { HasCause (P.write_faults port.old) (P.write_faults port.new) (P.read_faults port.old)
        (P.read_faults port.new) result }
    ensures stops { StopsAtFailure (P.calls port.old) (P.calls port.new) result }
{
    let numbers = [u64::from(x.number), x.job.value(), x.job.work()];
    put_numbers(port, out, word, &numbers)
}

/// Puts the lines of the least dense job and of the densest, if there are jobs.
fn put_extremes<P: Port>(
    port: &mut P,
    out: &mut Output,
    extremes: &Option<Extremes>,
) -> Result<(), Failed>
    ensures text { PutsThrough (P.moves port.old) (P.moves port.new) result out.old out.new
        (in_lines (extreme_lines extremes.now)) }
    ensures cause { HasCause (P.write_faults port.old) (P.write_faults port.new) (P.read_faults port.old)
        (P.read_faults port.new) result }
    ensures stops { StopsAtFailure (P.calls port.old) (P.calls port.new) result }
{
    let Some(e) = extremes else {
        return out.put(port, b"");
    };
    match put_job(port, out, b"least", &e.least) {
        Ok(()) => {}
        Err(failed) => return Err(failed),
    }
    put_job(port, out, b"densest", &e.densest)
}

/// Puts the line of the bound by a ratio.
fn put_bound<P: Port>(port: &mut P, out: &mut Output, k: Ratio) -> Result<(), Failed>
    ensures text { PutsThrough (P.moves port.old) (P.moves port.new) result out.old out.new
        (bound_line k ++ 10 ∷ []) }
    ensures cause { HasCause (P.write_faults port.old) (P.write_faults port.new) (P.read_faults port.old)
        (P.read_faults port.new) result }
    ensures stops { StopsAtFailure (P.calls port.old) (P.calls port.new) result }
{
    let bound = long_bound(TOLD, k) as u64;
    put_numbers(port, out, b"bound", &[TOLD, bound])
}

/// Puts what is said where this is the least ratio.
fn put_found<P: Port>(
    port: &mut P,
    out: &mut Output,
    rules: (Ratio, Version),
    extremes: &Option<Extremes>,
) -> Result<(), Failed>
    ensures text { PutsThrough (P.moves port.old) (P.moves port.new) result out.old out.new
        (in_lines (rules_text (rules_with rules.0 rules.1) ∷ extreme_lines extremes.now ++ bound_line rules.0 ∷ [])) }
    ensures cause { HasCause (P.write_faults port.old) (P.write_faults port.new) (P.read_faults port.old)
        (P.read_faults port.new) result }
    ensures stops { StopsAtFailure (P.calls port.old) (P.calls port.new) result }
{
    match put_rules(port, out, rules.0, rules.1) {
        Ok(()) => {}
        Err(failed) => return Err(failed),
    }
    match put_extremes(port, out, extremes) {
        Ok(()) => {}
        Err(failed) => return Err(failed),
    }
    put_bound(port, out, rules.0)
}

/// Puts what is said where there is no such ratio.
fn put_none<P: Port>(
    port: &mut P,
    out: &mut Output,
    extremes: &Option<Extremes>,
) -> Result<(), Failed>
    ensures text { PutsThrough (P.moves port.old) (P.moves port.new) result out.old out.new
        (in_lines (codes "none" ∷ extreme_lines extremes.now)) }
    ensures cause { HasCause (P.write_faults port.old) (P.write_faults port.new) (P.read_faults port.old)
        (P.read_faults port.new) result }
    ensures stops { StopsAtFailure (P.calls port.old) (P.calls port.new) result }
{
    match out.put(port, b"none\n") {
        Ok(()) => {}
        Err(failed) => return Err(failed),
    }
    put_extremes(port, out, extremes)
}

/// Puts the least ratio that all jobs keep, or that there is none.
pub(crate) fn answer<P: Port>(
    port: &mut P,
    out: &mut Output,
    declared: &Declaration,
) -> Result<Status, Stop>
    requires empty { out.old ≡ [] }
    requires keeps { (rules : Rules) × (jobs : List JobFacts) × KeepsDeclared declared.now rules jobs }
    ensures says { (rules : Rules) (jobs : List JobFacts) → KeepsDeclared declared.now rules jobs →
        Answers (SaysRatio rules jobs) ⊥ (P.moves port.old) (P.moves port.new) out.new result }
    ensures cause { StopCause result
        (P.write_faults port.old) (P.write_faults port.new) (P.read_faults port.old) (P.read_faults port.new) }
    ensures stops { StopsOn result (P.calls port.old) (P.calls port.new) }
{
    match least_kept(&declared.extremes, &declared.ratio) {
        Some(k) => match put_found(port, out, (k, declared.version), &declared.extremes) {
            Ok(()) => Ok(Status::Done),
            Err(_) => Err(Stop::Unwritten),
        },
        None => match put_none(port, out, &declared.extremes) {
            Ok(()) => Ok(Status::No),
            Err(_) => Err(Stop::Unwritten),
        },
    }
}
