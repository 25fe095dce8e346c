//! Laws of what is settled on several processors, each a clause of a function that does nothing.
ghost use Rattle.std.specs.Prelude.{◌≡◌, ◌≤◌, ◌<◌, ℕ, List, [], ◌∷◌, true};
ghost use Rattle.dover_model.specs.declared.events.Role.TheVariants.{Fresh};
ghost use Rattle.dover_model.specs.Common.{Rules, Instance, IsValid, with_jobs, with_finishes, JobFacts, Finish};
ghost use Rattle.dover_model.specs.Common.{Begins};
ghost use Rattle.dover_model.specs.Common.{Each, HaveTheSame, finish_now, known_at, bare};
ghost use Rattle.dover_model.specs.Instance as instances;
ghost use Rattle.many_processors.specs.State.{Placed, State, opening};
ghost use Rattle.dover_model.specs.declared.events.Event.TheVariants.{Complete};
ghost use Rattle.many_processors.specs.Step.{Prints, open_step, step, after};
ghost use Rattle.many_processors.specs.Sound.{Keeps};
ghost use Rattle.many_processors.specs.Run.{printed_on};
ghost use Rattle.many_processors.specs.Settled.{waits_for_mark, with_later, AllComeFrom, settled_steps, settled};
ghost use Rattle.many_processors.specs.Settled.{settled_state, IsBarrier, IsSettledRun};
ghost use Rattle.many_processors.specs.Finishes.{IsDueAlike, AreDueAlike, NoneIsDue, AreYetToCome, CompleteOne};
ghost use Rattle.many_processors.specs.Finishes.{RunsAtMark, AreOverFor};
ghost use Rattle.many_processors.specs.Online.{printed_up_to, finishes_up_to};

/// What holds of what is settled on several processors. Each clause is a law, whose remark stands above. It does
/// nothing.
pub fn laws_of_settled_steps()
    // A settled step is the same, whatever comes at the mark or later.
    ensures same_step { (processors : ℕ) (rules : Rules) (s : State) (more : List Placed) (mark : ℕ)
        → AllComeFrom mark more → (waits_for_mark (open_step processors rules s) ≡ true → s.clock < mark)
        → open_step processors rules (with_later s more) ≡ open_step processors rules s }

    // An open step keeps a state sound, as each processor sees it.
    ensures sound { (processors : ℕ) (J : Instance) (s : State) → 1 ≤ processors → IsValid J → Keeps processors J s
        → Keeps processors J (after s (open_step processors J.rules s)) }

    // The settled steps are all that come before the barrier of the mark.
    ensures reach { (processors : ℕ) (J : Instance) (mark : ℕ) → 1 ≤ processors → IsValid J
        → IsSettledRun processors J.rules mark (opening J.jobs) (settled_steps processors J mark) }

    // There the state is a sound one of the instance's jobs, the clock is the mark, the step is a late one, and no job
    // is fresh.
    ensures sound_at_mark { (processors : ℕ) (J : Instance) (mark : ℕ) → 1 ≤ processors → IsValid J
        → Keeps processors J (settled_state processors J mark) }
    ensures clock_at_mark { (processors : ℕ) (J : Instance) (mark : ℕ) → 1 ≤ processors → IsValid J
        → (settled_state processors J mark).clock ≡ mark }
    ensures barrier_at_mark { (processors : ℕ) (J : Instance) (mark : ℕ) → 1 ≤ processors → IsValid J
        → IsBarrier processors J.rules mark (settled_state processors J mark) }
    ensures none_fresh_at_mark { (processors : ℕ) (J : Instance) (mark : ℕ) → 1 ≤ processors → IsValid J
        → Each (λ p. p.task.role ≡ Fresh → ⊥) (settled_state processors J mark).jobs }

    // Jobs that are released at the mark or later change nothing of what is settled: it begins what is settled at a
    // later mark, and what the run prints.
    ensures while_open { (processors : ℕ) (J : Instance) (more : List JobFacts) (mark mark2 : ℕ) → 1 ≤ processors
        → IsValid (with_jobs J more) → Each (λ j. mark ≤ j.release) more → mark ≤ mark2
        → Begins (settled processors J mark) (settled processors (with_jobs J more) mark2) }
    ensures at_the_end { (processors : ℕ) (J : Instance) (more : List JobFacts) (mark : ℕ) → 1 ≤ processors
        → IsValid (with_jobs J more) → Each (λ j. mark ≤ j.release) more
        → Begins (settled processors J mark) (printed_on processors (with_jobs J more)) }

    // Under the same finishes, what is printed up to a tick depends on the jobs that are released by then alone.
    ensures on_line { (processors t : ℕ) (J K : Instance) → 1 ≤ processors → IsValid J → IsValid K
        → J.rules ≡ K.rules → known_at t J.jobs ≡ known_at t K.jobs
        → printed_up_to processors t J ≡ printed_up_to processors t K }

    // Under whatever finishes, it depends on these jobs, and on the finishes by which the run completes jobs by then,
    // alone.
    ensures on_line_with_finishes { (processors t : ℕ) (J K : Instance) → 1 ≤ processors → IsValid J → IsValid K
        → bare J.rules ≡ bare K.rules → known_at t J.jobs ≡ known_at t K.jobs
        → finishes_up_to processors t J ≡ finishes_up_to processors t K
        → printed_up_to processors t J ≡ printed_up_to processors t K }

    // Where no running job has come to one of some further finishes by what is settled, that begins what is settled at
    // a later mark with them, and what the run prints with them.
    ensures further_while_open { (processors : ℕ) (J : Instance) (more : List Finish) (mark mark2 : ℕ) → 1 ≤ processors
        → IsValid J → mark ≤ mark2
        → Each (λ x. NoneIsDue processors J.rules.version more x.before) (settled_steps processors J mark)
        → Begins (settled_steps processors J mark) (settled_steps processors (with_finishes J more) mark2) }
    ensures further_at_the_end { (processors : ℕ) (J : Instance) (more : List Finish) (mark : ℕ) → 1 ≤ processors
        → IsValid J → Each (λ x. NoneIsDue processors J.rules.version more x.before) (settled_steps processors J mark)
        → Begins (settled processors J mark) (printed_on processors (with_finishes J more)) }

    // Where none has come to one at the mark either, the same is settled with them.
    ensures yet_to_come { (processors : ℕ) (J : Instance) (more : List Finish) (mark : ℕ) → 1 ≤ processors → IsValid J
        → AreYetToCome processors J mark more
        → settled_steps processors (with_finishes J more) mark ≡ settled_steps processors J mark }
    ensures yet_to_come_state { (processors : ℕ) (J : Instance) (more : List Finish) (mark : ℕ) → 1 ≤ processors
        → IsValid J → AreYetToCome processors J mark more
        → settled_state processors (with_finishes J more) mark ≡ settled_state processors J mark }

    // Other finishes, or the same ones in another order, of which up to the mark the first that is due completes the
    // same job at every step, settle the same.
    ensures due_alike { (processors : ℕ) (J : Instance) (finishes : List Finish) (mark : ℕ) → 1 ≤ processors → IsValid J
        → AreDueAlike processors J mark finishes
        → settled_steps processors (instances.finishing J finishes) mark ≡ settled_steps processors J mark }
    ensures due_alike_state { (processors : ℕ) (J : Instance) (finishes : List Finish) (mark : ℕ) → 1 ≤ processors
        → IsValid J → AreDueAlike processors J mark finishes
        → settled_state processors (instances.finishing J finishes) mark ≡ settled_state processors J mark }

    // In a state in which all finishes that are due complete the same job, their order is nothing, nor how often one
    // stands.
    ensures another_order { (processors : ℕ) (J : Instance) (finishes : List Finish) (s : State)
        → HaveTheSame J.rules.finishes finishes → CompleteOne processors J.rules.version J.rules.finishes s
        → IsDueAlike processors J finishes s }

    // A job that runs at the mark may finish there, where of the mark's tick nothing was printed but completions and
    // other jobs that got a free processor: what is settled stays, and its completion is next, on its processor.
    ensures finish_at_mark_stays { (processors : ℕ) (J : Instance) (mark : ℕ) (p : Placed) → 1 ≤ processors → IsValid J
        → RunsAtMark processors J mark p → Begins (settled_steps processors J mark)
        (settled_steps processors (with_finishes J (finish_now p.task ∷ [])) mark) }
    ensures finish_at_mark_next { (processors : ℕ) (J : Instance) (mark : ℕ) (p : Placed) → 1 ≤ processors → IsValid J
        → RunsAtMark processors J mark p → open_step processors (with_finishes J (finish_now p.task ∷ [])).rules
        (settled_state processors J mark) ≡ Prints p.owner (Complete mark p.task.number) }

    // Behind its finish another job that may finish at the mark may do so still. So several may in one tick, in any
    // order.
    ensures finish_at_mark_again { (processors : ℕ) (J : Instance) (mark : ℕ) (p u : Placed) → 1 ≤ processors
        → IsValid J → RunsAtMark processors J mark p → RunsAtMark processors J mark u
        → (p.task.number ≡ u.task.number → ⊥)
        → RunsAtMark processors (with_finishes J (finish_now p.task ∷ [])) mark u }

    // Finishes of jobs that are over change no step.
    ensures finishes_of_jobs_that_are_over_change_no_step_open { (processors : ℕ) (rules : Rules) (s : State)
        → AreOverFor rules.finishes s → open_step processors rules s ≡ open_step processors (bare rules) s }
    ensures finishes_of_jobs_that_are_over_change_no_step_closed { (processors : ℕ) (rules : Rules) (s : State)
        → AreOverFor rules.finishes s → step processors rules s ≡ step processors (bare rules) s }
{}
