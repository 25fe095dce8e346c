//! The best set of a few jobs.
ghost use Rattle.std.specs.Prelude.{◌≡◌, ◌≤◌, ◌↔◌, ◌<◌, ℕ, List, length, map, IfOk};
ghost use Rattle.dover_model.specs.declared.events.Version.TheVariants.{Two};
ghost use Rattle.dover_model.specs.Common.{Rules, IsInOrder, total_value, worth, spread};
ghost use Rattle.dover_model.specs.Common.{last_deadline, last_tick_in};
ghost use Rattle.clairvoyant.specs.best.BestSet.{IsBestSet, value_of, pieces_of, renumbered};

use crate::best::choice::Choice;
use crate::best::outcome::{Best, BestFault};
use crate::best::search::search;
use dover_model::jobs::total_value;
use dover_model::{Job, Memory, Piece};
use std::alloc::Global;

/// The most jobs of which the best set is sought.
const MOST_JOBS: usize = 20;

/// The piece under the number that its job has among all jobs.
fn renumbered(chosen: &[u32], piece: Piece) -> Piece
    ensures { result ≡ renumbered chosen.now piece }
{
    Piece {
        number: chosen.get(piece.number as usize).copied().unwrap_or(0),
        ..piece
    }
}

/// Puts the pieces under the numbers that their jobs have among all jobs.
fn renumber(chosen: &[u32], pieces: &mut Vec<Piece>)
    ensures { pieces.new.items ≡ map (renumbered chosen.now) pieces.old.items }
{
    for piece in pieces.iter_mut() {
        *piece = renumbered(chosen, *piece);
    }
}

/// The best set of at most 20 jobs.
fn find(alloc: Global, jobs: &[Job]) -> Result<Best, Memory>
    requires in_order { IsInOrder jobs.now }
    requires count { length jobs.now ≤ 20 }
    requires due { last_deadline jobs.now ≤ last_tick_in Two }
    ensures chosen { IfOk result (λ best. IsBestSet jobs.now best.chosen.items) }
    ensures value { IfOk result (λ best. best.value ≡ value_of jobs.now best.chosen.items) }
    ensures pieces { IfOk result (λ best. best.pieces.items ≡ pieces_of jobs.now best.chosen.items) }
    ensures worth { IfOk result (λ best. (rules : Rules) →
        worth (record { rules = rules; jobs = jobs.now }) (spread best.pieces.items) ≡ best.value) }
    ensures most { IfOk result
        (λ best. (rules : Rules) (s : List ℕ) → worth (record { rules = rules; jobs = jobs.now }) s ≤ best.value) }
{
    let left = total_value(jobs);
    let Some(choice) = search(alloc, jobs, 0, Choice::none(alloc), left, 0)? else {
        unreachable!()
    };
    let Choice {
        numbers: chosen,
        jobs: _,
        value,
        mut pieces,
    } = choice;
    renumber(&chosen, &mut pieces);
    Ok(Best {
        value,
        chosen,
        pieces,
    })
}

/// The earliest of the sets of greatest value that one schedule serves. Releases never fall along the list.
///
/// # Errors
///
/// `TooMany` exactly where there are more than 20 jobs. Otherwise `Memory` where there is none, and nothing else.
///
/// # Examples
///
/// Of a job of 10 ticks due at 14, one of 2 ticks due at 5 and one of 3 ticks due at 8, each worth its work and the
/// last two released at 1, no schedule serves all. The best set is 0 and 2, which are worth 13: job 0 runs at tick 0,
/// job 2 up to tick 4, and job 0 up to tick 13.
pub fn best(alloc: Global, jobs: &[Job]) -> Result<Best, BestFault>
    requires in_order { IsInOrder jobs.now }
    requires due { last_deadline jobs.now ≤ last_tick_in Two }
    ensures too_many { (result ≡ Err BestFault.TooMany) ↔ (20 < length jobs.now) }
    ensures chosen { IfOk result (λ best. IsBestSet jobs.now best.chosen.items) }
    ensures value { IfOk result (λ best. best.value ≡ value_of jobs.now best.chosen.items) }
    ensures pieces { IfOk result (λ best. best.pieces.items ≡ pieces_of jobs.now best.chosen.items) }
    ensures worth { IfOk result (λ best. (rules : Rules) →
        worth (record { rules = rules; jobs = jobs.now }) (spread best.pieces.items) ≡ best.value) }
    ensures most { IfOk result
        (λ best. (rules : Rules) (s : List ℕ) → worth (record { rules = rules; jobs = jobs.now }) s ≤ best.value) }
{
    if jobs.len() > MOST_JOBS {
        return Err(BestFault::TooMany);
    }
    match find(alloc, jobs) {
        Ok(best) => Ok(best),
        Err(Memory) => Err(BestFault::Memory),
    }
}
