//! The search over sets of jobs.
ghost use Rattle.std.specs.Prelude.{◌≡◌, ◌≤◌, length, drop, IfOk};
ghost use Rattle.dover_model.specs.declared.events.Version.TheVariants.{Two};
ghost use Rattle.dover_model.specs.Common.{IsInOrder, total_value, IsJob, Each, last_deadline, last_tick_in};
ghost use Rattle.clairvoyant.specs.best.Search.{IsChoice, IsSearched};

use crate::best::choice::Choice;
use dover_model::{Job, Memory};
use std::alloc::Global;

/// Of the sets that extend this choice by jobs from number `next` on, and are worth at least `wanted`, the earliest of
/// greatest value. Each job is put in before it is left out. `left` is the sum of the values of the jobs from `next`
/// on.
///
/// # Errors
///
/// `Memory` where there is none.
pub fn search(
    alloc: Global,
    jobs: &[Job],
    next: usize,
    choice: Choice,
    left: u64,
    wanted: u64,
) -> Result<Option<Choice>, Memory>
    requires in_order { IsInOrder jobs.now }
    requires count { length jobs.now ≤ 20 }
    requires due { last_deadline jobs.now ≤ last_tick_in Two }
    requires each { Each IsJob jobs.now }
    requires next { next ≤ length jobs.now }
    requires choice { IsChoice jobs.now next choice }
    requires left { left ≡ total_value (drop next jobs.now) }
    ensures { IfOk result (IsSearched jobs.now choice.numbers.items next wanted) }
{
    if choice.value + left < wanted {
        return Ok(None);
    }
    if next == jobs.len() {
        return Ok(Some(choice));
    }
    let left = left - jobs[next].value();
    let found = match choice.with(alloc, next as u32, jobs)? {
        Some(with) => search(alloc, jobs, next + 1, with, left, wanted)?,
        None => None,
    };
    match found {
        None => search(alloc, jobs, next + 1, choice, left, wanted),
        Some(best) => {
            let more = search(alloc, jobs, next + 1, choice, left, best.value + 1)?;
            Ok(Some(match more {
                Some(better) => better,
                None => best,
            }))
        }
    }
}
