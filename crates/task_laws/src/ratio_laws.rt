//! Laws of the competitive bound where a schedule has jobs that need more or less, and under another ratio.
ghost use Rattle.std.specs.Prelude.{◌≡◌, ◌≤◌, ℕ, List, Some};
ghost use Rattle.dover_model.specs.Common.{Instance, IsValid, worth, run, completed_value, IsWithin, Fraction};
ghost use Rattle.dover_model.specs.Common.{observed, Rules, State, open_step, settled_steps, settled};
ghost use Rattle.task_laws.specs.Slower.{IsWithinSlower, worth_by, AskAtMost};
ghost use Rattle.task_laws.specs.Switches.{NeedNoLess};
ghost use Rattle.dover_model.specs.Instance.{with_ratio};
ghost use Rattle.dover_model.specs.declared.factors.Factor.{Factor};

/// What holds of other jobs and of other ratios. Each clause begins with the name of its law, whose remark stands
/// above. It does nothing.
pub fn laws_of_ratios()
    // A schedule of jobs that need no less, in windows that are no longer, is worth no more than the run's bound.
    ensures no_schedule_of_longer_jobs_is_worth_more_less { (J K : Instance) (s : List ℕ) → NeedNoLess K.jobs J.jobs
        → worth K s ≤ worth J s }
    ensures no_schedule_of_longer_jobs_is_worth_more_bound { (J K : Instance) (s : List ℕ) → IsValid J
        → NeedNoLess K.jobs J.jobs → IsWithin J.rules.ratio (worth K s) (completed_value J) }

    // Where each job of a run asks for at most 1 + e times what a schedule needs for it, the schedule is worth at most
    // (1 + √k)² · (1 + e · √k) times what the run completes, or where a factor β is declared (1 + e·k)·β + (1 + e)·k +
    // the greater of 1 and (1 + e)·k/(β-1) times it. So it is where budgets have switches in them, and the schedule has
    // none.
    ensures no_schedule_without_switches_is_worth_much_more { (J : Instance) (e : Fraction) (works : ℕ → ℕ) (s : List ℕ)
        → IsValid J → 1 ≤ e.q → AskAtMost e works (observed J)
        → IsWithinSlower J.rules.ratio e (worth_by works (observed J) s) (completed_value J) }

    // Where a factor is declared, no step depends on the ratio beside it: with another ratio, and the same factor, what
    // is settled is the same, and so is the run. So the run keeps the bound of each ratio that its jobs keep.
    ensures a_factor_leaves_the_ratio_free_open_step { (rules : Rules) (k : Fraction) (f : Factor) (s : State)
        → rules.ratio.factor ≡ Some f → k.factor ≡ Some f
        → open_step (record rules { ratio = k }) s ≡ open_step rules s }
    ensures a_factor_leaves_the_ratio_free_settled { (J : Instance) (k : Fraction) (f : Factor) (mark : ℕ)
        → J.rules.ratio.factor ≡ Some f → k.factor ≡ Some f
        → settled_steps (with_ratio k J) mark ≡ settled_steps J mark }
    ensures a_factor_leaves_the_ratio_free_run { (J : Instance) (k : Fraction) (f : Factor)
        → J.rules.ratio.factor ≡ Some f → k.factor ≡ Some f → run (with_ratio k J) ≡ run J }
    ensures a_factor_leaves_the_ratio_free_bound { (J : Instance) (k : Fraction) (f : Factor) (s : List ℕ)
        → J.rules.ratio.factor ≡ Some f → k.factor ≡ Some f → IsValid (with_ratio k J)
        → IsWithin k (worth (observed J) s) (completed_value J) }
    ensures a_factor_leaves_the_ratio_free_slower { (J : Instance) (k e : Fraction) (f : Factor) (works : ℕ → ℕ)
        (s : List ℕ) → J.rules.ratio.factor ≡ Some f → k.factor ≡ Some f → IsValid (with_ratio k J) → 1 ≤ e.q
        → AskAtMost e works (observed J) → IsWithinSlower k e (worth_by works (observed J) s) (completed_value J) }
{}
