//! Laws of a run on several processors, each a clause of a function that does nothing.
ghost use Rattle.std.specs.Prelude.{◌≡◌, ℕ, ◌≤◌, ◌<◌, ◌+◌, ◌*◌, ◌⊎◌, length, map, [], true, false};
ghost use Rattle.std.specs.List.{sum_by, count_by};
ghost use Rattle.dover_model.specs.declared.events.Role.TheVariants.{Fresh, Waiting, Held, Done};
ghost use Rattle.dover_model.specs.Common.{Instance, IsValid, IsMember, Each, numbered, is_due, left};
ghost use Rattle.dover_model.specs.JobFacts.{JobFacts};
ghost use Rattle.dover_model.specs.Run as one_run;
ghost use Rattle.many_processors.specs.State.{State, opening};
ghost use Rattle.many_processors.specs.Step.{Ticks, step, after};
ghost use Rattle.many_processors.specs.Sound.{Keeps};
ghost use Rattle.many_processors.specs.Run.{run, ran, printed, printed_on, completed_value, HasEnd};
ghost use Rattle.many_processors.specs.Schedules.{IsFor, is_named, worth};
ghost use Rattle.many_processors.specs.Books.{given_at};
ghost use Rattle.many_processors.specs.Ticks.{SomeRunsOn, AreDifferent, FewAtOnce, takes_or_abandons};
ghost use Rattle.many_processors.specs.Ticks.{is_preempt_of, is_take_of, is_run, is_complete};
ghost use Rattle.many_processors.specs.Observed.{observed, end_state};

/// What holds of each run on several processors. Each clause is a law, whose remark stands above. It does nothing.
pub fn laws_of_runs()
    // The opening is sound as each processor sees it, and each step of a valid instance keeps a state so: what a
    // processor runs and holds is done in time in the order of deadlines, and no processor runs two jobs.
    ensures sound_opening { (processors : ℕ) (J : Instance) → Keeps processors J (opening J.jobs) }
    ensures sound_steps { (processors : ℕ) (J : Instance) (s : State) → 1 ≤ processors → IsValid J
        → Keeps processors J s → Keeps processors J (after s (step processors J.rules s)) }

    // A run comes to its end, within a tick each up to the last deadline and five steps for each job.
    ensures ends { (processors : ℕ) (J : Instance) → 1 ≤ processors → IsValid J → HasEnd (run processors J) }

    // At most five steps for each job are printed, and End.
    ensures few_steps { (processors : ℕ) (J : Instance) → 1 ≤ processors → IsValid J
        → length (printed processors J) ≤ 5 * length J.jobs + 1 }

    // Over a run a job preempts once at most.
    ensures preempts_once { (processors : ℕ) (J : Instance) (n : ℕ) → 1 ≤ processors → IsValid J
        → count_by (λ x. is_preempt_of n x.move) (run processors J) ≤ 1 }

    // Over a run a job takes a processor once at most.
    ensures takes_once { (processors : ℕ) (J : Instance) (n : ℕ) → 1 ≤ processors → IsValid J
        → count_by (λ x. is_take_of n x.move) (run processors J) ≤ 1 }

    // As often as a job is completed, one begins or goes on at a free processor.
    ensures as_many_runs { (processors : ℕ) (J : Instance) → 1 ≤ processors → IsValid J
        → count_by (λ x. is_run x.move) (run processors J) ≡ count_by (λ x. is_complete x.move) (run processors J) }

    // Each tick of a run is given to at most as many jobs as there are processors.
    ensures few_at_once { (processors : ℕ) (J : Instance) → 1 ≤ processors → IsValid J
        → IsFor processors (ran processors J) }

    // No tick is given to a job twice, so none runs on two processors at once.
    ensures no_job_twice { (processors : ℕ) (J : Instance) → 1 ≤ processors → IsValid J
        → Each AreDifferent (ran processors J) }

    // Each tick that a job has is one of its window, from its release to its deadline.
    ensures in_window { (processors : ℕ) (J : Instance) (n τ : ℕ) (j : JobFacts) → 1 ≤ processors → IsValid J
        → IsMember (n, j) (numbered J) → is_named n (given_at (ran processors J) τ) ≡ true
        → (j.release ≤ τ) × (τ < j.deadline) }

    // In each tick in which a job is fresh or waits, a job runs on each processor.
    ensures none_free { (processors : ℕ) (J : Instance) → 1 ≤ processors → IsValid J
        → Each (λ x. x.move ≡ Ticks → Each (λ p. (p.task.role ≡ Fresh) ⊎ (p.task.role ≡ Waiting)
        → (q : ℕ) → q < processors → SomeRunsOn q x.before) x.before.jobs) (run processors J) }

    // In each tick in which a job is held, a job runs on its processor.
    ensures none_holds { (processors : ℕ) (J : Instance) → 1 ≤ processors → IsValid J
        → Each (λ x. x.move ≡ Ticks → Each (λ p. p.task.role ≡ Held → SomeRunsOn p.owner x.before) x.before.jobs)
        (run processors J) }

    // Where no tick is in the windows of more jobs than there are processors, none is taken late or abandoned, and the
    // run has the value of all.
    ensures none_lost { (processors : ℕ) (J : Instance) → 1 ≤ processors → IsValid J → FewAtOnce processors J
        → Each (λ x. takes_or_abandons x.move ≡ false) (run processors J) }
    ensures all_value { (processors : ℕ) (J : Instance) → 1 ≤ processors → IsValid J → FewAtOnce processors J
        → completed_value processors J ≡ sum_by (λ j. j.value) J.jobs }

    // With one processor a run prints, on processor 0, what it prints by the rules of one processor.
    ensures one_processor { (J : Instance) → IsValid J → printed_on 1 J ≡ map (λ e. (0, e)) (one_run.printed J) }

    // The value that a run ends with is what its own schedule is worth, by the works as the run observed them.
    ensures honest { (processors : ℕ) (J : Instance) → 1 ≤ processors → IsValid J
        → worth (numbered (observed processors J)) (ran processors J) ≡ completed_value processors J }

    // A job that is completed had all its work, or had come to a finish of its own.
    ensures done { (processors : ℕ) (J : Instance) → 1 ≤ processors → IsValid J
        → Each (λ p. p.task.role ≡ Done → (left p.task ≡ 0) ⊎ (is_due J.rules.finishes p.task ≡ true))
        (end_state processors J).jobs }

    // Where no job finishes early, the works that the run observed are the declared ones.
    ensures as_declared { (processors : ℕ) (J : Instance) → 1 ≤ processors → IsValid J → J.rules.finishes ≡ []
        → observed processors J ≡ J }
{}
