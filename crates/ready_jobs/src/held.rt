//! The held jobs: a stack whose top is its last one.
ghost use Rattle.std.specs.Prelude.{◌≡◌, ◌↔◌, ◌<◌, ◌+◌, [], ◌∷◌, ◌++◌, length, reverse, vec_len, vec_capacity, IsSome};
ghost use Rattle.std.specs.Prelude.{MatchOption, option_to_list};
ghost use Rattle.ready_jobs.specs.Parts.{head_of};
ghost use Rattle.waiting_pool.specs.Slots.{seen};

use dover_model::Task;
use waiting_pool::ShortTask;

/// The job on top.
#[inline(always)]
pub(crate) fn peek(held: &Vec<ShortTask>) -> Option<&ShortTask>
    ensures { seen result ≡ head_of (reverse held.now.items) }
{
    held.last()
}

/// Takes the job on top out.
#[inline(always)]
pub(crate) fn pop(held: &mut Vec<ShortTask>) -> Option<Task>
    ensures items { held.old.items ≡ held.new.items ++ option_to_list result }
    ensures variant { IsSome result ↔ (0 < vec_len held.old) }
    ensures len { vec_len held.new + length (option_to_list result) ≡ vec_len held.old }
    ensures cases { MatchOption result ((vec_len held.old ≡ 0) × (vec_len held.new ≡ 0))
        (λ _. vec_len held.new + 1 ≡ vec_len held.old) }
    ensures capacity { vec_capacity held.new ≡ vec_capacity held.old }
{
    match held.pop() {
        Some(t) => Some(t.task()),
        None => None,
    }
}

/// Puts a job on top, for which there is room.
#[inline(always)]
pub(crate) fn push(held: &mut Vec<ShortTask>, t: &Task)
    requires { length held.old.items < vec_capacity held.old }
    ensures items { held.new.items ≡ held.old.items ++ t.now ∷ [] }
    ensures capacity { vec_capacity held.new ≡ vec_capacity held.old }
{
    held.push_reserved(ShortTask::of(t));
}
