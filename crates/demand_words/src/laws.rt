//! What the demand test promises, the contract of a function that does nothing.
ghost use Rattle.std.specs.Prelude.{◌≡◌, ◌≤◌, ℕ, List, false};
ghost use Rattle.dover_model.specs.Common.{Instance, IsValid, Each, run, takes_or_abandons, Meets, Rules};
ghost use Rattle.dover_model.specs.declared.events.Version.TheVariants.{Two};
ghost use Rattle.task_laws.specs.Demand.{AskNoMore, all_soon};
ghost use Rattle.task_words.specs.tasks.Limits.{AreTasks};
ghost use Rattle.dover_model.specs.Common.{Fraction};
ghost use Rattle.task_words.specs.declared.tasks.task.PeriodicTask.{PeriodicTask};
ghost use Rattle.demand_words.specs.Demanded.{AreLimited, Tells, all_facts};
ghost use Rattle.demand_words.specs.declared.answers.Demand.TheVariants.{Met, Window, Over};

/// Tasks that are told met lose nothing: of each valid list of their jobs, those of one task a period apart or more, no
/// job is taken from or abandoned, in any version. Where a window is told, or `Over`, their jobs that come as soon as
/// they may be, all tasks at tick 0 first, can't all be served by any schedule. Tasks of a text are within the limits
/// of the test.
pub fn what_the_demand_test_tells()
    ensures met { (tasks : List PeriodicTask) (of : ℕ → ℕ) (J : Instance) → IsValid J
        → AskNoMore (all_facts tasks) of J → Tells (all_facts tasks) Met
        → Each (λ x. takes_or_abandons x.move ≡ false) (run J) }
    ensures window { (tasks : List PeriodicTask) (rules : Rules) (ticks work : ℕ)
        → Tells (all_facts tasks) (Window ticks work)
        → Meets (record { rules = rules; jobs = all_soon (all_facts tasks) ticks }) → ⊥ }
    ensures over { (tasks : List PeriodicTask) (rules : Rules) → Tells (all_facts tasks) Over
        → (ticks : ℕ) × (Meets (record { rules = rules; jobs = all_soon (all_facts tasks) ticks }) → ⊥) }
    ensures limits { (k : Fraction) (tasks : List PeriodicTask) → AreTasks 0 k tasks → AreLimited tasks }
{}
