//! That prices are a certificate, and caps of few jobs are reached.
ghost use Rattle.std.specs.Prelude.{◌*◌, ◌+◌, ◌-◌, ◌≤◌, ℕ, List, get_or, length};
ghost use Rattle.std.specs.List.{sum_by, enumerate_from};
ghost use Rattle.dover_model.specs.Common.{Rules, worth, Each, JobFacts, IsJob};
ghost use Rattle.clairvoyant.specs.declared.overload.stretch.Costed.{Costed};
ghost use Rattle.clairvoyant.specs.declared.overload.stretch.Stretch.{Stretch};
ghost use Rattle.clairvoyant.specs.overload.Pricing.{PaysAtMost, IsRaised};
ghost use Rattle.clairvoyant.specs.overload.Stretches.{Caps, IsCapped, IsCosted, IsReached, value_outside};

/// What holds of prices and caps. Each clause is a law, whose remark stands above. It does nothing.
pub fn laws_of_caps()
    // Where the prices of the jobs inside a window rise, schedules pay for the work of the jobs that they serve at most
    // as much more as all ticks of the window cost at what is added.
    ensures a_layer_costs_its_ticks { (jobs : List JobFacts) (a b more cost : ℕ) (old new : List ℕ)
        → IsRaised jobs a b more old new → PaysAtMost jobs old cost → PaysAtMost jobs new (cost + more * (b - a)) }

    // No schedule is worth more than what schedules pay at most, and what each job is worth beyond the price of its
    // work; at so many units of price for one of value.
    ensures prices_cap_schedules { (jobs : List JobFacts) (prices : List ℕ) (cost w : ℕ) → PaysAtMost jobs prices cost
        → (rules : Rules) (s : List ℕ) → w * worth (record { rules = rules; jobs = jobs }) s
        ≤ cost + sum_by (λ (n, j). w * j.value - get_or prices n 0 * j.work) (enumerate_from 0 jobs) }

    // No schedule is worth more than the jobs outside of all stretches and the caps of the stretches, whatever these
    // are.
    ensures capped_stretches_cap_all { (jobs : List JobFacts) (xs : List Stretch) → Each (IsCapped jobs) xs
        → Caps jobs (value_outside jobs xs + sum_by (λ x. x.cap) xs) }

    // Of so many jobs, at most, some schedule of the jobs inside a stretch is worth its cap, where few are inside:
    // their sets are then few enough, whatever the stretches are.
    ensures caps_of_few_jobs_are_reached { (jobs : List JobFacts) (costed : Costed) → Each IsJob jobs
        → IsCosted jobs costed → length jobs ≤ 327_680 → Each (IsReached jobs) costed.stretches.items }
{}
