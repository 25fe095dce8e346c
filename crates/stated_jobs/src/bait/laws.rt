//! Laws of the baiting feed.
ghost use Rattle.std.specs.Prelude.{◌≡◌, ◌≤◌, ◌+◌, ◌*◌, ◌/◌, ◌^◌, ℕ, List, ◌∷◌, ◌++◌, None};
ghost use Rattle.dover_model.specs.declared.events.Version.{Version};
ghost use Rattle.dover_model.specs.Common.{Fraction, IsRatio, with_factor, IsValid, jobs_under, worth, unit_value};
ghost use Rattle.dover_model.specs.Common.{chain, last_link, bait_value, bait_jobs, bait_plan, plan_value, most_light};
ghost use Rattle.stated_jobs.specs.bait.Baiting.{FitsLimits};
ghost use Rattle.stated_jobs.specs.bait.BaitingRuns.{baiting, CompletesLastAlone};
ghost use Rattle.stated_jobs.specs.bait.Links.{IsLeastUnmoved, IsLeastHeavy, IsMostLight};

/// What holds of baiting feeds. Each clause begins with the name of its law, whose remark stands above. It does
/// nothing.
pub fn laws_of_baits()
    // The jobs of a baiting feed within the limits are valid for its ratio.
    ensures baiting_jobs_are_valid { (k : Fraction) (rounds : ℕ) (version : Version) → IsRatio k → 1 ≤ rounds
        → FitsLimits k rounds → IsValid (jobs_under version k (bait_jobs k rounds)) }

    // The schedule that runs each unit job in its tick, and then the bait, serves exactly these.
    ensures the_plan_is_worth_its_value { (k : Fraction) (rounds : ℕ) (version : Version)
        → worth (jobs_under version k (bait_jobs k rounds))
        (bait_plan k rounds) ≡ plan_value k rounds }

    // At ratio one and with no factor the last value of the chain is one less than a power of two, and the schedule is
    // worth almost four times that.
    ensures links_double_at_ratio_one_last { (k : Fraction) (rounds : ℕ) → IsRatio k → k.factor ≡ None → k.p ≡ k.q
        → 1 ≤ rounds → FitsLimits k rounds → last_link k rounds + 1 ≡ 2 ^ rounds }
    ensures links_double_at_ratio_one_plan { (k : Fraction) (rounds : ℕ) → IsRatio k → k.factor ≡ None → k.p ≡ k.q
        → 1 ≤ rounds → FitsLimits k rounds → plan_value k rounds + 2 * rounds ≡ 4 * last_link k rounds }

    // The first value of the chain is the least, at least 1, against which a unit job isn't heavy; each further one is
    // the least that is heavy against the one before it; and the bait's is the greatest that isn't heavy against the
    // last. By a factor that is so many times the other value, rounded down.
    ensures links_take_by_the_least_value_first { (k : Fraction) (rounds w : ℕ) (rest : List ℕ) → IsRatio k
        → chain k rounds ≡ w ∷ rest → IsLeastUnmoved k (unit_value k) w }
    ensures links_take_by_the_least_value_next { (k : Fraction) (rounds : ℕ) (before rest : List ℕ) (w v : ℕ)
        → IsRatio k → FitsLimits k rounds → chain k rounds ≡ before ++ w ∷ v ∷ rest → IsLeastHeavy k w v }
    ensures links_take_by_the_least_value_bait { (k : Fraction) (rounds : ℕ) → IsRatio k → 1 ≤ rounds
        → FitsLimits k rounds → IsMostLight k (last_link k rounds) (bait_value k rounds) }
    ensures links_take_by_the_least_value_factor { (k : Fraction) (b c w : ℕ) → IsRatio (with_factor k b c)
        → w ≤ 1_000_000 → most_light (with_factor k b c) w ≡ b * w / c }

    // The run of a baiting feed completes the last job of its chain, and no other, and so is worth the last link.
    ensures a_baiting_run_completes_its_last_link { (k : Fraction) (version : Version) (rounds : ℕ) → 1 ≤ rounds
        → IsValid (baiting k version rounds) → CompletesLastAlone k rounds (baiting k version rounds) }
{}
