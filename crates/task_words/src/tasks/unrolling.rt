//! The jobs of tasks, one by one in order of release.
ghost use Rattle.std.specs.Prelude.{◌≡◌, ◌≤◌, ◌<◌, ◌^◌, ◌+◌, ◌*◌, ◌∷◌, ◌++◌, ℕ, List, [], None, length, is_some};
ghost use Rattle.std.specs.Prelude.{slice_index_or, slice_set, IfOk, IfSome, IsNone};
ghost use Rattle.std.specs.List.{AllByRecursion, count_by};
ghost use Rattle.dover_model.specs.Common.{JobFacts, last_tick_in, most_jobs};
ghost use Rattle.dover_model.specs.declared.events.Version.TheVariants.{Two};
ghost use Rattle.task_words.specs.tasks.Limits.{IsTask};
ghost use Rattle.task_words.specs.tasks.Merging.{StandsBehind, kept_release, merge};
ghost use Rattle.task_words.specs.tasks.Tasks.{jobs_before};

use crate::tasks::task::PeriodicTask;
use comparison_count::Comparisons;
use dover_model::{Job, Memory};
use place_heap::{Heap, Item, ShortRank};
use std::alloc::Global;
use std::marker::Model;
use std::sync::ledger::Ledger;

/// Gives the jobs that tasks release before a tick, one by one in order of release, and those of one tick in the order
/// of the tasks. It keeps the next release of each task, and takes memory when it is made alone.
#[derive(Drop)]
pub struct Unrolling {
    until: u64,
    tasks: Vec<PeriodicTask>,
    next: Heap<ShortRank>,
}

impl Model for Unrolling {
    ghost use Rattle.task_words.specs.tasks.Merging.{Merge};

    ghost Value = { Merge };

    ghost view = { λ u. record { tasks = u.tasks.items; until = u.until; next = u.next } };
}

// Keeps a release of the task of this number, if it is before a tick.
fn keep_release<L: Ledger>(
    next: &mut Heap<ShortRank>,
    number: u32,
    release: u64,
    until: u64,
    comparisons: &mut Comparisons<L>,
)
    requires ready { number < length next.old }
    requires none { slice_index_or next.old number None ≡ None }
    ensures keeps { next.new ≡ slice_set next.old number (kept_release until number release) }
    ensures count { (d : ℕ) → count_by is_some next.old + 1 < 2 ^ d → comparisons.new ≤ comparisons.old + d }
{
    if release < until {
        next.insert(Item::new(release, 0, number, number), comparisons);
    }
}

// Keeps the first release of each task that is before a tick.
fn first_releases<L: Ledger>(
    alloc: Global,
    tasks: &[PeriodicTask],
    until: u64,
    comparisons: &mut Comparisons<L>,
) -> Result<Heap<ShortRank>, Memory>
    requires few { length tasks.now ≤ most_jobs Two }
    requires known { until ≤ last_tick_in Two }
    ensures stands { IfOk result (λ next. StandsBehind (merge tasks.now until next) []) }
    ensures count { (d : ℕ) → length tasks.now + 1 < 2 ^ d → comparisons.new ≤ comparisons.old + d * length tasks.now }
{
    let mut next = Heap::new(alloc);
    next.reserve(tasks.len() as u32)?;
    let mut number = 0u32;
    for task in tasks {
        keep_release(&mut next, number, task.offset, until, comparisons);
        number += 1;
    }
    Ok(next)
}

// Takes the first of the next releases, keeps the one that follows it, and answers its job.
fn take_job<L: Ledger>(
    next: &mut Heap<ShortRank>,
    tasks: &[PeriodicTask],
    until: u64,
    comparisons: &mut Comparisons<L>,
) -> Option<Job>
    requires stands { (done : List JobFacts) × StandsBehind (merge tasks.now until next.old) done }
    requires each { AllByRecursion (IsTask until) tasks.now }
    ensures next { (done : List JobFacts) → StandsBehind (merge tasks.now until next.old) done →
        IfSome result (λ job. StandsBehind (merge tasks.now until next.new) (done ++ job ∷ [])) }
    ensures end { (done : List JobFacts) → StandsBehind (merge tasks.now until next.old) done → IsNone result →
        jobs_before until tasks.now ≡ done }
    ensures count { (d : ℕ) → length tasks.now + 1 < 2 ^ d → comparisons.new ≤ comparisons.old + 4 * d }
    ensures idle { IsNone result → comparisons.new ≡ comparisons.old }
{
    let Some(first) = next.first() else {
        return None;
    };
    let number = first.place();
    let release = first.key();
    let task = tasks[number as usize];
    next.remove(number, comparisons);
    keep_release(
        next,
        number,
        release.saturating_add(task.period),
        until,
        comparisons,
    );
    Job::new(release, task.work, release + task.deadline, task.value)
}

impl Unrolling {
    ghost use Rattle.std.specs.Prelude.{◌≡◌, ◌≤◌, ◌<◌, ◌^◌, ◌+◌, ◌*◌, ◌∷◌, ◌++◌, ℕ, List, [], length};
    ghost use Rattle.std.specs.Prelude.{IfOk, IfSome, IsNone};
    ghost use Rattle.std.specs.List.{AllByRecursion};
    ghost use Rattle.dover_model.specs.JobFacts.{JobFacts};
    ghost use Rattle.dover_model.specs.declared.events.Version.TheVariants.{Two};
    ghost use Rattle.dover_model.specs.Limits.{last_tick_in, most_jobs};
    ghost use Rattle.task_words.specs.tasks.Limits.{IsTask};
    ghost use Rattle.task_words.specs.tasks.Merging.{StandsBehind};
    ghost use Rattle.task_words.specs.tasks.Tasks.{jobs_before};

    /// No job was given yet. Of the t tasks each costs at most d comparisons, where t + 1 has at most d binary digits.
    ///
    /// # Errors
    ///
    /// `Memory` where there is none.
    pub fn new<L: Ledger>(
        alloc: Global,
        tasks: Vec<PeriodicTask>,
        until: u64,
        comparisons: &mut Comparisons<L>,
    ) -> Result<Unrolling, Memory>
        requires few { length tasks.items ≤ most_jobs Two }
        requires known { until ≤ last_tick_in Two }
        ensures stands { IfOk result (λ u. StandsBehind u []) }
        ensures tasks { IfOk result (λ u. u.tasks ≡ tasks.items) }
        ensures until { IfOk result (λ u. u.until ≡ until) }
        ensures count { (d : ℕ) → length tasks.items + 1 < 2 ^ d → comparisons.new ≤ comparisons.old
            + d * length tasks.items }
    {
        let next = first_releases(alloc, &tasks, until, comparisons)?;
        Ok(Unrolling { tasks, until, next })
    }

    /// The next job, if there is one. It costs at most 4 * d comparisons, and that there is none costs none.
    pub fn next_job<L: Ledger>(&mut self, comparisons: &mut Comparisons<L>) -> Option<Job>
        requires stands { (done : List JobFacts) × StandsBehind self.old done }
        requires each { AllByRecursion (IsTask self.old.until) self.old.tasks }
        ensures next { (done : List JobFacts) → StandsBehind self.old done
            → IfSome result (λ job. StandsBehind self.new (done ++ job ∷ [])) }
        ensures end { (done : List JobFacts) → StandsBehind self.old done → IsNone result
            → jobs_before self.old.until self.old.tasks ≡ done }
        ensures tasks { self.new.tasks ≡ self.old.tasks }
        ensures until { self.new.until ≡ self.old.until }
        ensures count { (d : ℕ) → length self.old.tasks + 1 < 2 ^ d → comparisons.new ≤ comparisons.old + 4 * d }
        ensures idle { IsNone result → comparisons.new ≡ comparisons.old }
    {
        take_job(&mut self.next, &self.tasks, self.until, comparisons)
    }
}
