//! That policies are on-line, as the contract of a function that does nothing.
ghost use Rattle.std.specs.Prelude.{◌≡◌, ◌≤◌, ℕ, List, [], None, slice_index_or};
ghost use Rattle.dover_model.specs.Common.{idle, JobFacts, IsInOrder, known_at};
ghost use Rattle.policy_lab.specs.Picks.{Picks};
ghost use Rattle.policy_lab.specs.PolicyRun.{policy_run};

/// Where two lists of jobs have the same jobs of release at most `t`, the two schedules of a policy are the same in the
/// ticks up to `t`. Behind its last tick a schedule idles.
pub fn policies_are_on_line()
    ensures { (picks : Picks) (t : ℕ) (jobs others : List JobFacts) → picks [] ≡ None → IsInOrder jobs
        → IsInOrder others →
        known_at t jobs ≡ known_at t others → (tick : ℕ) → tick ≤ t →
        slice_index_or (policy_run picks jobs) tick idle ≡ slice_index_or (policy_run picks others) tick idle }
{}
