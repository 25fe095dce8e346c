//! What an overload costs at most, stretch by stretch.
ghost use Rattle.std.specs.Prelude.{◌≡◌, ◌≤◌, ◌<◌, ◌+◌, ◌-◌, ◌&&◌, [], cond, false, get_or, length, OnOk, IfOk};
ghost use Rattle.std.specs.Prelude.{MatchOption};
ghost use Rattle.dover_model.specs.Common.{IsInOrder, total_value, IsJob, last_tick, most_jobs, most_value, Each};
ghost use Rattle.dover_model.specs.Common.{is_inside, last_deadline, last_tick_in, work_inside};
ghost use Rattle.dover_model.specs.declared.events.Version.TheVariants.{Two};
ghost use Rattle.clairvoyant.specs.feasible.Feasibility.{CanMeet};
ghost use Rattle.clairvoyant.specs.overload.Stretches.{IsStretch, IsReached, IsCosted, IsWorth, jobs_inside, sets_of};
ghost use Rattle.clairvoyant.specs.overload.Stretches.{value_inside};
ghost use Rattle.clairvoyant.specs.overload.Collecting.{HasCosted, HasRoom, IsFirst, IsNear};

use crate::feasible::{Feasible, judge_feasible, work_inside};
use crate::overload::caps::{MOST_SETS, cap};
use crate::overload::overfull::{Ticks, overfull};
use crate::overload::released::{is_inside, released};
use crate::overload::stretch::{Costed, Stretch};
use dover_model::jobs::{LAST_TICK, total_value};
use dover_model::{Job, Memory};
use std::alloc::Global;

/// Those of the jobs that are released and due in some ticks.
fn inside(alloc: Global, jobs: &[Job], from: u64, until: u64) -> Result<Vec<Job>, Memory>
    ensures { IfOk result (λ inside. inside.items ≡ jobs_inside jobs.now from until) }
{
    let mut inside = Vec::new(alloc);
    for job in jobs {
        if is_inside(job, from, until) {
            inside.push(*job)?;
        }
    }
    Ok(inside)
}

/// The jobs that are released in some ticks.
fn near(jobs: &[Job], from: u64, until: u64) -> &[Job]
    requires in_order { IsInOrder jobs.now }
    ensures { IsNear jobs.now from until result.now }
{
    let first = released(jobs, from);
    let second = released(jobs, until);
    jobs.get(first..second).unwrap_or(&[])
}

/// What is known of the jobs inside some ticks, which have more work than these are. The best set of them is sought
/// where there are few, out of the sets that may still be looked at.
fn stretch(alloc: Global, jobs: &[Job], ticks: Ticks, sets: &mut u64) -> Result<Stretch, Memory>
    requires in_order { IsInOrder jobs.now }
    requires count { length jobs.now ≤ most_jobs Two }
    requires due { last_deadline jobs.now ≤ last_tick_in Two }
    requires each { Each IsJob jobs.now }
    requires some { ticks.from < ticks.until }
    requires low { ticks.until ≤ last_tick }
    requires overfull { ticks.until - ticks.from < work_inside jobs.now ticks.from ticks.until }
    ensures from { IfOk result (λ x. x.from ≡ ticks.from) }
    ensures until { IfOk result (λ x. x.until ≡ ticks.until) }
    ensures stretch { IfOk result (IsStretch jobs.now) }
    ensures reached { IfOk result (λ x. sets_of (length (jobs_inside jobs.now x.from x.until)) ≤ sets.old →
        IsReached jobs.now x) }
    ensures spent { IfOk result (λ x. sets.old ≤ sets.new +
        sets_of (length (jobs_inside jobs.now x.from x.until))) }
{
    let Ticks { from, until } = ticks;
    let inside = inside(alloc, near(jobs, from, until), from, until)?;
    let total = total_value(&inside);
    let cap = cap(alloc, &inside, total, sets)?;
    Ok(Stretch {
        from,
        until,
        total,
        cap,
    })
}

/// The window between two ticks with more work than ticks that ends first, if there is one.
fn overfull_between(
    alloc: Global,
    jobs: &[Job],
    from: u64,
    until: u64,
) -> Result<Option<Ticks>, Memory>
    requires in_order { IsInOrder jobs.now }
    requires count { length jobs.now ≤ most_jobs Two }
    requires due { last_deadline jobs.now ≤ last_tick_in Two }
    requires each { Each IsJob jobs.now }
    ensures { IfOk result (λ found. MatchOption found
        (CanMeet (jobs_inside jobs.now from until)) (IsFirst jobs.now from until)) }
{
    let between = inside(alloc, near(jobs, from, until), from, until)?;
    match judge_feasible(alloc, &between)? {
        Feasible::All { .. } => Ok(None),
        Feasible::Window { a, b, .. } => Ok(Some(Ticks { from: a, until: b })),
    }
}

/// The stretches so far, where the last ends, and how many sets of jobs may still be looked at.
#[derive(Drop)]
struct Costing {
    costed: Costed,
    at: u64,
    sets: u64,
}

impl Costing {
    /// Puts a stretch behind the others. Between it and the last of them no window has more work than ticks.
    fn push(&mut self, alloc: Global, jobs: &[Job], ticks: Ticks) -> Result<(), Memory>
        requires in_order { IsInOrder jobs.now }
        requires count { length jobs.now ≤ most_jobs Two }
        requires due { last_deadline jobs.now ≤ last_tick_in Two }
        requires each { Each IsJob jobs.now }
        requires costed { HasCosted jobs.now self.old }
        requires first { IsFirst jobs.now self.old.at last_tick ticks }
        ensures costed { OnOk result (HasCosted jobs.now self.new) }
        ensures at { OnOk result (self.new.at ≡ ticks.until) }
    {
        let x = stretch(alloc, jobs, ticks, &mut self.sets)?;
        self.costed.stretches.push(x)?;
        self.costed.cap -= x.total - x.cap;
        self.at = ticks.until;
        Ok(())
    }

    /// Puts stretches behind the others, until no window between the last of them and a tick has more work than ticks.
    fn fill(&mut self, alloc: Global, jobs: &[Job], until: u64) -> Result<(), Memory>
        requires in_order { IsInOrder jobs.now }
        requires count { length jobs.now ≤ most_jobs Two }
        requires due { last_deadline jobs.now ≤ last_tick_in Two }
        requires each { Each IsJob jobs.now }
        requires costed { HasCosted jobs.now self.old }
        requires ahead { self.old.at ≤ until }
        requires low { until ≤ last_tick }
        ensures costed { OnOk result (HasCosted jobs.now self.new) }
        ensures ahead { OnOk result (self.new.at ≤ until) }
        ensures met { OnOk result (CanMeet (jobs_inside jobs.now self.new.at until)) }
    {
        while let Some(ticks) = overfull_between(alloc, jobs, self.at, until)? {
            self.push(alloc, jobs, ticks)?;
        }
        Ok(())
    }

    /// Adds a stretch with these ticks, unless it begins too early or ends too late, or the jobs inside have no more
    /// work.
    fn add(&mut self, alloc: Global, jobs: &[Job], ticks: Ticks) -> Result<(), Memory>
        requires in_order { IsInOrder jobs.now }
        requires count { length jobs.now ≤ most_jobs Two }
        requires due { last_deadline jobs.now ≤ last_tick_in Two }
        requires each { Each IsJob jobs.now }
        requires costed { HasCosted jobs.now self.old }
        ensures { OnOk result (HasCosted jobs.now self.new) }
    {
        let Ticks { from, until } = ticks;
        if from < self.at || until <= from || LAST_TICK < until {
            return Ok(());
        }
        if work_inside(near(jobs, from, until), from, until) <= until - from {
            return Ok(());
        }
        self.fill(alloc, jobs, from)?;
        self.push(alloc, jobs, ticks)
    }

    /// Finds the stretches, where some schedule of the jobs has this value. Where that is all, there is none.
    fn find(&mut self, alloc: Global, jobs: &[Job], value: u64) -> Result<(), Memory>
        requires in_order { IsInOrder jobs.now }
        requires count { length jobs.now ≤ most_jobs Two }
        requires due { last_deadline jobs.now ≤ last_tick_in Two }
        requires each { Each IsJob jobs.now }
        requires costed { HasCosted jobs.now self.old }
        requires value { IsWorth jobs.now value }
        ensures costed { OnOk result (HasCosted jobs.now self.new) }
        ensures met { OnOk result (self.new.costed.stretches.items ≡ [] → CanMeet jobs.now) }
        ensures room { OnOk result (HasRoom jobs.now self.new.at) }
    {
        if self.costed.total <= value {
            return Ok(());
        }
        for ticks in overfull(alloc, jobs)?.iter() {
            self.add(alloc, jobs, *ticks)?;
        }
        self.fill(alloc, jobs, LAST_TICK)?;
        Ok(())
    }
}

/// Where jobs have more work than there are ticks, what they are worth at most there, and what all jobs are worth at
/// most, by the jobs and what some schedule of them is worth: where that is all, there is nothing to look for.
///
/// # Errors
///
/// `Memory` where there is none, and nothing else.
pub fn cost_of(alloc: Global, jobs: &[Job], value: u64) -> Result<Costed, Memory>
    requires in_order { IsInOrder jobs.now }
    requires count { length jobs.now ≤ most_jobs Two }
    requires due { last_deadline jobs.now ≤ last_tick_in Two }
    requires value { IsWorth jobs.now value }
    ensures { IfOk result (IsCosted jobs.now) }
{
    let total = total_value(jobs);
    let mut costing = Costing {
        costed: Costed {
            total,
            cap: total,
            stretches: Vec::new(alloc),
        },
        at: 0,
        sets: MOST_SETS,
    };
    costing.find(alloc, jobs, value)?;
    Ok(costing.costed)
}

/// Whether the job of a place is done.
fn is_done(done: &[bool], place: usize) -> bool
    ensures { result ≡ get_or done.now place false }
{
    done.get(place).copied().unwrap_or(false)
}

/// What a job is worth if it is done, and inside some ticks, and else 0.
fn value_if(job: &Job, done: bool, from: u64, until: u64) -> u64
    ensures is { result ≡ cond (is_inside from until job.now && done) job.now.value 0 }
    ensures modest { result ≤ most_value }
{
    if done && is_inside(job, from, until) {
        return job.value();
    }
    0
}

/// What the jobs that are inside some ticks and done are worth, by whether each job is done.
pub fn value_inside(jobs: &[Job], done: &[bool], from: u64, until: u64) -> u64
    requires in_order { IsInOrder jobs.now }
    requires count { length jobs.now ≤ most_jobs Two }
    requires each { Each IsJob jobs.now }
    ensures { result ≡ value_inside jobs.now (λ n. get_or done.now n false) from until }
{
    let mut place = released(jobs, from);
    let second = released(jobs, until);
    let mut value = 0;
    while place < second {
        value += value_if(&jobs[place], is_done(done, place), from, until);
        place += 1;
    }
    value
}
