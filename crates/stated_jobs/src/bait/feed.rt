//! The baiting feed, job by job.
ghost use Rattle.std.specs.Prelude.{◌≡◌, ◌↔◌, ◌≤◌, ◌<◌, ◌+◌, ◌*◌, IsSome, IfSome, sum};
ghost use Rattle.dover_model.specs.declared.events.Version.TheVariants.{Two};
ghost use Rattle.dover_model.specs.Common.{last_tick, most_value, most_jobs, IsRatio, chain, tight_job};
ghost use Rattle.stated_jobs.specs.bait.Kept.{HasNumbers};

use crate::bait::links::{first_value, light_value, unit};
use dover_model::jobs::MOST_VALUE;
use dover_model::{Job, Ratio, Version};
use std::marker::Model;

/// The numbers of a chain whose values sum to less than 1,000,000.
#[derive(Drop)]
struct Chain {
    first: u64,
    last: u64,
    sum: u64,
    /// The greatest value that isn't heavy against the last one.
    light: u64,
}

/// The numbers of the chain of so many values, at least one. None exactly where they sum to 1,000,000 or more.
fn small_chain(k: Ratio, rounds: u32) -> Option<Chain>
    requires { 1 ≤ rounds }
    ensures small { IsSome result ↔ (sum (chain k rounds) < most_jobs Two) }
    ensures numbers { IfSome result (λ c. HasNumbers k rounds c) }
    ensures ratio { IsRatio k }
{
    let first = first_value(k);
    let mut last = 0;
    let mut light = first - 1;
    let mut sum = 0;
    for _ in 0..rounds {
        last = light + 1;
        sum += last;
        if sum >= u64::from(Version::Two.most_jobs()) {
            return None;
        }
        light = light_value(k, last);
    }
    Some(Chain {
        first,
        last,
        sum,
        light,
    })
}

/// A job without slack, whose value is its density times its work.
fn tight_job(release: u64, work: u64, density: u64) -> Job
    requires some { 1 ≤ work }
    requires due { release + work ≤ last_tick }
    requires worth { 1 ≤ density * work }
    requires modest { density * work ≤ most_value }
    ensures { result ≡ tight_job release work density }
{
    Job::new(release, work, release + work, density * work).unwrap()
}

/// The jobs of a baiting feed that are still to come.
#[derive(Drop)]
pub struct Bait {
    k: Ratio,
    rounds: u32,
    chain: Chain,
    /// The tick in which the bait is released.
    bait_tick: u64,
    /// The present tick.
    tick: u64,
    /// How many jobs of the chain are still to come, and the work and the release of the next one.
    links: u32,
    work: u64,
    release: u64,
    /// Whether the bait was given.
    is_over: bool,
}

impl Model for Bait {
    ghost use Rattle.stated_jobs.specs.bait.Baiting.{Baiting};

    ghost Value = { Baiting };

    ghost use Rattle.stated_jobs.specs.bait.Kept.{baiting_of, IsKept};

    ghost view = { baiting_of };

    ghost invariant = { IsKept };
}

impl Bait {
    ghost use Rattle.std.specs.Prelude.{[], ◌++◌, IsNone, length, option_to_list};
    ghost use Rattle.dover_model.specs.Bait.{last_link, bait_jobs, bait_plan, plan_value};
    ghost use Rattle.dover_model.specs.Run.{completed_value};
    ghost use Rattle.dover_model.specs.Schedules.{worth};
    ghost use Rattle.stated_jobs.specs.bait.BaitingRuns.{baiting_feed, CompletesLastAlone};
    ghost use Rattle.stated_jobs.specs.bait.Baiting.{FitsLimits};

    /// The feed with so many jobs in its chain, at least one. None exactly where it has more than 1,000,000 jobs or a
    /// value above 10^9.
    ///
    /// # Examples
    ///
    /// With k = 1 and 4 rounds there are 27 jobs. The rules complete 15, and the schedule that is set against them is
    /// worth 52.
    pub fn new(k: Ratio, rounds: u32) -> Option<Bait>
        requires { 1 ≤ rounds }
        ensures fits { IsSome result ↔ FitsLimits k rounds }
        ensures feed { IfSome result (λ bait. bait ≡ record { ratio = k; rounds = rounds; jobs = bait_jobs k rounds }) }
    {
        let chain = small_chain(k, rounds)?;
        if chain.light > MOST_VALUE {
            return None;
        }
        Some(Bait {
            k,
            rounds,
            bait_tick: chain.sum - u64::from(rounds),
            tick: 0,
            links: rounds,
            work: chain.first,
            release: 0,
            is_over: false,
            chain,
        })
    }

    /// The next job. None exactly after the last.
    pub fn next_job(&mut self) -> Option<Job>
        ensures jobs { self.old.jobs ≡ option_to_list result ++ self.new.jobs }
        ensures none { IsNone result ↔ (self.old.jobs ≡ []) }
        ensures ratio { self.new.ratio ≡ self.old.ratio }
        ensures rounds { self.new.rounds ≡ self.old.rounds }
    {
        if self.is_over {
            return None;
        }
        if self.links > 0 && self.release == self.tick {
            let job = tight_job(self.release, self.work, 1);
            self.links -= 1;
            self.release += self.work - 1;
            self.work = light_value(self.k, self.work) + 1;
            return Some(job);
        }
        if self.tick < self.bait_tick {
            let job = tight_job(self.tick, 1, unit(self.k));
            self.tick += 1;
            return Some(job);
        }
        let job = tight_job(self.tick, self.chain.light, 1);
        self.is_over = true;
        Some(job)
    }

    /// How many jobs the feed has, those that were given included. At most 1,000,000.
    pub fn jobs(&self) -> u32
        ensures count { result ≡ length (bait_jobs self.now.ratio self.now.rounds) }
        ensures some { 1 ≤ self.now.rounds }
        ensures ratio { IsRatio self.now.ratio }
        ensures fits { FitsLimits self.now.ratio self.now.rounds }
    {
        self.bait_tick as u32 + self.rounds + 1
    }

    /// The value that a run of the feed completes, which is that of the last job of the chain: it completes no other.
    pub fn value(&self) -> u64
        ensures last { result ≡ last_link self.now.ratio self.now.rounds }
        ensures completed { result ≡ completed_value (baiting_feed self.now.ratio self.now.rounds) }
        ensures alone { CompletesLastAlone self.now.ratio self.now.rounds
            (baiting_feed self.now.ratio self.now.rounds) }
    {
        self.chain.last
    }

    /// The value of the schedule that runs each unit job in its tick, and then the bait.
    pub fn schedule_value(&self) -> u64
        ensures plan { result ≡ plan_value self.now.ratio self.now.rounds }
        ensures worth { result ≡ worth (baiting_feed self.now.ratio self.now.rounds)
            (bait_plan self.now.ratio self.now.rounds) }
    {
        unit(self.k) * self.bait_tick + self.chain.light
    }
}
