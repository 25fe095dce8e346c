//! The jobs that are released and not done.
ghost use Rattle.std.specs.Prelude.{◌≡◌, ◌+◌, ◌*◌, ◌^◌, ◌<◌};

use dover_model::Memory;
use std::alloc::Global;
use std::cmp::Reverse;
use std::collections::BinaryHeap;
use std::marker::Model;

/// A job that is released and not done: its deadline and number, and how many of its ticks are left.
#[derive(Clone, Copy)]
pub struct DueJob {
    /// The tick by which it is due.
    pub deadline: u64,
    /// Its number.
    pub number: u32,
    /// The ticks that it still needs.
    pub left: u64,
}

// What one of a deadline counts for in a turn.
const DEADLINE: u64 = 1 << 20;

/// A deadline and a number as one number, so that a comparison is one of two numbers. The ticks of a feed whose
/// jobs are kept are below 2^40.
fn turn_of(deadline: u64, number: u64) -> u64
    requires due { deadline < 2 ^ 44 }
    requires few { number < 2 ^ 20 }
    ensures { result ≡ deadline * 2 ^ 20 + number }
{
    deadline * DEADLINE + number
}

/// The jobs that are released and not done, of which the one that is due first is at hand. The jobs are released in
/// the order of their numbers.
#[derive(Drop)]
pub struct DueQueue {
    left: Vec<u64>,
    turns: BinaryHeap<Reverse<u64>>,
}

impl Model for DueQueue {
    ghost use Rattle.std.specs.Prelude.{length};
    ghost use Rattle.std.specs.BinaryHeap.{heap_items};
    ghost use Rattle.clairvoyant.specs.feasible.Queue.{QueueFacts, kept_of, IsInTurn};

    ghost Value = { QueueFacts };

    ghost view = { λ q. record {
      released = length q.left.items;
      kept = kept_of q.left.items (heap_items q.turns);
    } };

    ghost invariant = { λ q. IsInTurn q.left.items (heap_items q.turns) };
}

impl DueQueue {
    ghost use Rattle.std.specs.Prelude.{◌≡◌, ◌+◌, ◌^◌, ◌<◌, ◌≤◌, ◌∷◌, [], List, OnOk, IfSome, IfNone, IsPermutation};
    ghost use Rattle.clairvoyant.specs.feasible.Queue.{Kept, IsFirst, IsTakenOut};

    /// No job is released.
    pub fn new(alloc: Global) -> DueQueue
        ensures { result ≡ record { released = 0; kept = [] } }
    {
        DueQueue {
            left: Vec::new(alloc),
            turns: BinaryHeap::new(alloc),
        }
    }

    /// How many jobs are released, which is the number of the next one.
    pub fn released(&self) -> usize
        ensures { result ≡ self.now.released }
    {
        self.left.len()
    }

    /// Releases the next job.
    ///
    /// # Errors
    ///
    /// `Memory` where there is none.
    pub fn release(&mut self, deadline: u64, work: u64) -> Result<(), Memory>
        requires due { deadline < 2 ^ 44 }
        requires few { self.old.released < 2 ^ 20 }
        ensures released { OnOk result (self.new.released ≡ self.old.released + 1) }
        ensures kept { OnOk result
            (IsPermutation (((deadline, self.old.released), work) ∷ self.old.kept) self.new.kept) }
        ensures rises { self.old.released ≤ self.new.released }
    {
        let number = self.left.len() as u64;
        self.left.push(work)?;
        self.turns.push(Reverse(turn_of(deadline, number)))?;
        Ok(())
    }

    /// The job that is due first, and of those that are due together the one of the least number.
    pub fn first(&self) -> Option<DueJob>
        ensures some { IfSome result (λ job. IsFirst ((job.deadline, job.number), job.left) self.now.kept) }
        ensures none { IfNone result (self.now.kept ≡ []) }
    {
        match self.turns.peek() {
            Some(Reverse(turn)) => {
                let number = (*turn % DEADLINE) as u32;
                Some(DueJob {
                    deadline: *turn / DEADLINE,
                    number,
                    left: self.left[number as usize],
                })
            }
            None => None,
        }
    }

    /// Leaves so many ticks of the job that is due first, and takes it out where it has none.
    pub fn leave(&mut self, number: u32, ticks: u64)
        requires { (it : Kept) × (rest : List Kept) × (self.old.kept ≡ it ∷ rest) × (it.0.1 ≡ number) }
        ensures released { self.new.released ≡ self.old.released }
        ensures stays { (it : Kept) (rest : List Kept) → self.old.kept ≡ it ∷ rest → 1 ≤ ticks →
            self.new.kept ≡ (it.0, ticks) ∷ rest }
        ensures goes { (it : Kept) (rest : List Kept) → self.old.kept ≡ it ∷ rest → ticks ≡ 0 →
            IsTakenOut it self.old.kept self.new.kept }
    {
        self.left[number as usize] = ticks;
        if ticks == 0 {
            self.turns.pop();
        }
    }
}
