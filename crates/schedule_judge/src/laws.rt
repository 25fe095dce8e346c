//! What a legal schedule is worth, and that a run is one. Each law is the contract of a function that does nothing.
ghost use Rattle.std.specs.Prelude.{◌≡◌, ◌≤◌, ◌<◌, ◌∷◌, [], ℕ, List, codes, length, map, sum_by};
ghost use Rattle.dover_model.specs.Common.{Instance, IsValid, IsWithin, completed_value, worth, printed, text_of};
ghost use Rattle.dover_model.specs.Common.{in_lines};
ghost use Rattle.dover_model.specs.Instance.{IsListable};
ghost use Rattle.schedule_judge.specs.Account.{account};
ghost use Rattle.schedule_judge.specs.Jobs.{value_done};
ghost use Rattle.schedule_judge.specs.declared.intake.Standing.TheVariants.{Ended};

/// A legal schedule is one: some schedule of its jobs, tick by tick, with one job at most in each, is worth what it
/// completes or more, and so no legal schedule of valid jobs completes more than the bound. And a run in which no job
/// finishes early, of fewer steps than a schedule may have lines, is legal with the first line of a schedule.
pub fn legal_schedules_are_schedules()
    ensures worth { (bytes : List ℕ) (J : Instance) → (account bytes).standing ≡ Ended
        → J.jobs ≡ map (λ told. told.job) (account bytes).schedule.jobs
        → (s : List ℕ) × (sum_by value_done (account bytes).schedule.jobs ≤ worth J s) }
    ensures bound { (bytes : List ℕ) (J : Instance) → IsValid J → (account bytes).standing ≡ Ended
        → J.jobs ≡ map (λ told. told.job) (account bytes).schedule.jobs
        → IsWithin J.rules.ratio (sum_by value_done (account bytes).schedule.jobs) (completed_value J) }
    ensures runs { (J : Instance) → IsValid J → IsListable J → J.rules.finishes ≡ [] → length (printed J) < 4_000_000
        → (account (in_lines (codes "schedule" ∷ map text_of (printed J)))).standing ≡ Ended }
{}
