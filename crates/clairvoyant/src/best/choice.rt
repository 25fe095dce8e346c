//! Sets of jobs that one schedule serves.
ghost use Rattle.std.specs.Prelude.{◌≡◌, ◌<◌, ◌≤◌, ◌+◌, ◌++◌, ◌∷◌, [], List, length, Some, IfOk};
ghost use Rattle.std.specs.Prelude.{MatchOption};
ghost use Rattle.dover_model.specs.declared.events.Version.TheVariants.{Two};
ghost use Rattle.dover_model.specs.Common.{IsInOrder, IsJob, Each, last_deadline, last_tick_in};
ghost use Rattle.clairvoyant.specs.best.BestSet.{IsGood};
ghost use Rattle.clairvoyant.specs.best.Search.{IsChoice};

use crate::feasible::{Feasible, judge_feasible};
use dover_model::{Job, Memory, Piece};
use std::alloc::Global;

/// Some of the jobs, of which one schedule serves each.
#[derive(Drop)]
pub struct Choice {
    /// Their numbers, in rising order.
    pub numbers: Vec<u32>,
    /// These jobs, in the order of their numbers.
    pub jobs: Vec<Job>,
    /// The sum of their values.
    pub value: u64,
    /// The stretches of a schedule that serves each, under their places among `jobs`.
    pub pieces: Vec<Piece>,
}

impl Choice {
    /// None of the jobs.
    pub fn none(alloc: Global) -> Choice
        ensures numbers { result.numbers.items ≡ [] }
        ensures choice { (all : List Job) → IsChoice all 0 result }
    {
        Choice {
            numbers: Vec::new(alloc),
            jobs: Vec::new(alloc),
            value: 0,
            pieces: Vec::new(alloc),
        }
    }

    /// This set and the job of the next number. None exactly where no schedule serves each of these.
    ///
    /// # Errors
    ///
    /// `Memory` where there is none.
    pub fn with(&self, alloc: Global, number: u32, all: &[Job]) -> Result<Option<Choice>, Memory>
        requires choice { IsChoice all.now number self.now }
        requires number { number < length all.now }
        requires count { length all.now ≤ 20 }
        requires in_order { IsInOrder all.now }
        requires due { last_deadline all.now ≤ last_tick_in Two }
        requires each { Each IsJob all.now }
        ensures none { IfOk result
            (λ with. MatchOption with (IsGood all.now (self.now.numbers.items ++ number ∷ []) → ⊥)
            (λ choice. choice.numbers.items ≡ self.now.numbers.items ++ number ∷ [])) }
        ensures choice { IfOk result
            (λ with. MatchOption with (Unit {0}) (λ choice. IsChoice all.now (number + 1) choice)) }
    {
        let job = all[number as usize];
        let mut jobs = Vec::from_slice(alloc, &self.jobs)?;
        jobs.push(job)?;
        let Feasible::All { pieces } = judge_feasible(alloc, &jobs)? else {
            return Ok(None);
        };
        let mut numbers = Vec::from_slice(alloc, &self.numbers)?;
        numbers.push(number)?;
        Ok(Some(Choice {
            numbers,
            jobs,
            value: self.value + job.value(),
            pieces,
        }))
    }
}
