//! What a run completes.
ghost use Rattle.std.specs.Prelude.{◌≡◌, ◌≤◌, ◌||◌, ◌==◌, ℕ, [], IfOk, OnOk, length, get_or, false};
ghost use Rattle.dover_model.specs.Common.{IsValid, jobs_under, completed_value, CostsAtMost};
ghost use Rattle.question_words.specs.Replaying.{bare_instance};
ghost use Rattle.question_words.specs.Loss.{is_completed};

use comparison_count::Comparisons;
use dover_model::{Event, Job, Memory, Ratio, Version};
use event_feed::Listed;
use ready_server::{Watcher, run_list};
use std::alloc::Global;
use std::sync::ledger::Ledger;

/// The value that the End of a run names, 0 before it.
#[derive(Clone, Copy)]
struct EndValue {
    value: u64,
}

impl Watcher for EndValue {
    ghost use Rattle.std.specs.List.{fold};
    ghost use Rattle.dover_model.specs.Run.{value_of_end};

    ghost seen = { λ end events. end.value ≡ fold (λ value e. value_of_end e value) 0 events };

    fn see(&mut self, event: &Event) {
        if let Event::End { value } = event {
            self.value = *value;
        }
    }
}

/// The value that the run of the jobs completes, by the rules of this version and ratio, where none finishes early.
/// Memory is taken for the jobs that are ready at once.
///
/// # Errors
///
/// `Memory` where there is none.
pub(crate) fn completed<L: Ledger>(
    alloc: Global,
    version: Version,
    ratio: Ratio,
    jobs: &[Job],
    comparisons: &mut Comparisons<L>,
) -> Result<u64, Memory>
    requires { IsValid (jobs_under version ratio jobs.now) }
    ensures value { IfOk result (λ value. value ≡ completed_value (jobs_under version ratio jobs.now)) }
    ensures count { CostsAtMost (length jobs.now) comparisons.old comparisons.new }
{
    let mut rest = jobs;
    let mut end = EndValue { value: 0 };
    run_list::<&[Job], EndValue, L>(alloc, version, ratio, &mut rest, &mut end, comparisons)?;
    Ok(end.value)
}

/// The value that the End of a run names, 0 before it, and by its number whether a job is completed, with flags up to
/// the last that is; and whether there was no memory for one.
#[derive(Drop)]
pub(crate) struct Completion {
    pub(crate) value: u64,
    pub(crate) done: Vec<bool>,
    pub(crate) lost: bool,
}

impl Completion {
    ghost use Rattle.question_words.specs.Watching.{HasSeen};

    /// Nothing was seen yet, and there is memory for so many jobs.
    pub(crate) fn none(alloc: Global, count: usize) -> Result<Completion, Memory>
        ensures { IfOk result (λ it. HasSeen it []) }
    {
        Ok(Completion {
            value: 0,
            done: Vec::with_capacity(alloc, count)?,
            lost: false,
        })
    }
}

/// Puts flags behind, none of them set, until there are so many.
fn lengthen(done: &mut Vec<bool>, count: usize) -> Result<(), Memory>
    ensures enough { OnOk result (count ≤ length done.new.items) }
    ensures same { OnOk result ((n : ℕ) → get_or done.new.items n false ≡ get_or done.old.items n false) }
{
    if count <= done.len() {
        return Ok(());
    }
    done.resize(count, false)?;
    Ok(())
}

/// Notes that the job of the number is completed.
fn note(done: &mut Vec<bool>, number: u32) -> Result<(), Memory>
    ensures { OnOk result ((n : ℕ) → get_or done.new.items n false ≡ (get_or done.old.items n false || number == n)) }
{
    let place = number as usize;
    lengthen(done, place + 1)?;
    done[place] = true;
    Ok(())
}

impl Watcher for Completion {
    ghost use Rattle.question_words.specs.Watching.{HasSeen};

    ghost seen = { HasSeen };

    fn see(&mut self, event: &Event) {
        match event {
            Event::Complete { number, .. } => match note(&mut self.done, *number) {
                Ok(()) => {}
                Err(_) => self.lost = true,
            },
            Event::End { value } => self.value = *value,
            _ => {}
        }
    }
}

/// What the run of the listed jobs completes, where none finishes early. Memory is taken for the jobs that are ready at
/// once, and for 1,000,000 flags, one for each job that a feed of version Two may have.
///
/// # Errors
///
/// `Memory` where there is none.
pub(crate) fn completed_jobs<L: Ledger>(
    alloc: Global,
    listed: &Listed,
    comparisons: &mut Comparisons<L>,
) -> Result<Completion, Memory>
    requires { IsValid (bare_instance listed.now) }
    ensures value { IfOk result (λ it. it.value ≡ completed_value (bare_instance listed.now)) }
    ensures done { IfOk result (λ it. (n : ℕ) →
        get_or it.done.items n false ≡ is_completed (bare_instance listed.now) n) }
    ensures count { CostsAtMost (length listed.now.jobs.items) comparisons.old comparisons.new }
{
    let mut jobs = listed.jobs.as_slice();
    let mut completion = Completion::none(alloc, jobs.len())?;
    run_list::<&[Job], Completion, L>(
        alloc,
        listed.version,
        listed.ratio,
        &mut jobs,
        &mut completion,
        comparisons,
    )?;
    if completion.lost {
        return Err(Memory);
    }
    Ok(completion)
}
