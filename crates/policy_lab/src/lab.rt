//! A policy's run over a list of jobs.
ghost use Rattle.std.specs.Prelude.{◌≡◌, ◌≤◌, IfOk, length};
ghost use Rattle.dover_model.specs.declared.events.Version.TheVariants.{Two};
ghost use Rattle.dover_model.specs.Common.{most_total, most_jobs, Rules, IsInOrder, total_value, worth, stretches};
ghost use Rattle.policy_lab.specs.Counts.{served_count, stops};
ghost use Rattle.policy_lab.specs.PolicyRun.{policy_run};

use crate::bench::run_events;
use crate::policy::Policy;
use dover_model::jobs::total_value;
use dover_model::{Job, Memory, Piece};
use std::alloc::Global;

/// What a policy's schedule comes to.
#[derive(Drop)]
pub struct Outcome {
    /// The sum of the values of the jobs that it serves.
    pub value: u64,
    /// How many jobs it serves.
    pub completed: u64,
    /// How often it stops a job that it hasn't served yet.
    pub stops: u64,
    /// Its longest stretches of one job, in the order of their ticks.
    pub pieces: Vec<Piece>,
}

/// Runs the policy over these jobs, at most 1,000,000, whose releases never fall along the list and whose values sum to
/// at most 10^13. It goes from event to event: for n jobs it takes some n·log n steps, however many ticks there are.
///
/// # Errors
///
/// `Memory` where there is none, and nothing else.
pub fn run_policy<P: Policy>(alloc: Global, policy: &P, jobs: &[Job]) -> Result<Outcome, Memory>
    requires in_order { IsInOrder jobs.now }
    requires count { length jobs.now ≤ most_jobs Two }
    requires total { total_value jobs.now ≤ most_total Two }
    ensures value { (rules : Rules) → IfOk result (λ outcome.
        outcome.value ≡ worth (record { rules = rules; jobs = jobs.now }) (policy_run (P.picks policy.now) jobs.now)) }
    ensures completed { IfOk result
        (λ outcome. outcome.completed ≡ served_count jobs.now (policy_run (P.picks policy.now) jobs.now)) }
    ensures stops { IfOk result
        (λ outcome. outcome.stops ≡ stops jobs.now (policy_run (P.picks policy.now) jobs.now)) }
    ensures pieces { IfOk result
        (λ outcome. outcome.pieces.items ≡ stretches (policy_run (P.picks policy.now) jobs.now)) }
{
    let _total = total_value(jobs);
    match run_events(alloc, policy, jobs) {
        Ok((tally, pieces)) => Ok(Outcome {
            value: tally.value,
            completed: tally.completed,
            stops: tally.stops,
            pieces,
        }),
        Err(Memory) => Err(Memory),
    }
}
