//! Laws of the competitive bound of several processors, each a clause of a function that does nothing.
ghost use Rattle.std.specs.Prelude.{◌≡◌, ℕ, ◌≤◌, ◌*◌, ◌-◌, List, length, sum_by};
ghost use Rattle.dover_model.specs.Common.{Fraction, Instance, IsValid, IsHeavy, IsWithin, IsMember, Each, numbered};
ghost use Rattle.dover_model.specs.JobFacts.{JobFacts};
ghost use Rattle.dover_model.specs.Books.{Job, IsLeastDense};
ghost use Rattle.dover_model.specs.Run as one_run;
ghost use Rattle.many_processors.specs.Books.{AreBooks, completed_in};
ghost use Rattle.many_processors.specs.Run.{completed_value, ran};
ghost use Rattle.many_processors.specs.Schedules.{IsFor, worth};
ghost use Rattle.many_processors.specs.MoreProcessors.{IsWithinTimes};
ghost use Rattle.many_processors.specs.Lanes.{LaneSchedule, worth_of_lanes};
ghost use Rattle.many_processors.specs.Observed.{observed};
ghost use Rattle.many_processors.specs.Sure.{IsCompleted};
ghost use Rattle.dover_model.specs.Windows.{worth_beside};

/// What holds of the bound on several processors. Each clause is a law, whose remark stands above. It does nothing.
pub fn laws_of_bounds()
    // Over any books of a run on so many processors, no schedule of g times as many, which may move jobs from one to
    // another in any tick, is worth more, with the factor β, than g(β + k) and the greater of 1 and gk/(β-1), times
    // what the run completes; by the root, than g(1+√k)² times that.
    ensures over_books { (k : Fraction) (v w processors times : ℕ) (jobs : List Job) (ran s : List (List ℕ))
        → (books : AreBooks k v w processors jobs ran) → 1 ≤ times → IsFor (times * processors) s
        → IsWithinTimes times k (worth jobs s) (sum_by completed_in books.intervals) }

    // Each run has books, with the ticks that it gives.
    ensures has_books { (processors : ℕ) (J : Instance) (j : JobFacts) → 1 ≤ processors → IsValid J → IsLeastDense J j
        → AreBooks J.rules.ratio j.value j.work processors (numbered J) (ran processors J) }

    // So no schedule of as many processors is worth more than the bound of what a run completes: the bound of one
    // processor.
    ensures same_number { (processors : ℕ) (J : Instance) (s : List (List ℕ)) → 1 ≤ processors → IsValid J
        → IsFor processors s → IsWithin J.rules.ratio (worth (numbered J) s) (completed_value processors J) }

    // Nor is one of g times as many worth more than `over_books` has, of what a run completes.
    ensures more_processors { (processors times : ℕ) (J : Instance) (s : List (List ℕ)) → 1 ≤ processors → 1 ≤ times
        → IsValid J → IsFor (times * processors) s
        → IsWithinTimes times J.rules.ratio (worth (numbered J) s) (completed_value processors J) }

    // So it is worth no more than the bound of g times what the run completes.
    ensures times_the_bound { (processors times : ℕ) (J : Instance) (s : List (List ℕ)) → 1 ≤ processors → 1 ≤ times
        → IsValid J → IsFor (times * processors) s
        → IsWithin J.rules.ratio (worth (numbered J) s) (times * completed_value processors J) }

    // Where jobs are dealt to lanes in whatever way, and each lane has a run of its own by the rules of one processor,
    // no schedule of the jobs of all lanes on g processors is worth more than that of what all lanes complete together.
    ensures lanes { (k : Fraction) (processors : ℕ) (lanes : List Instance) (s : LaneSchedule) → 1 ≤ processors
        → Each (λ J. IsValid J × (J.rules.ratio ≡ k)) lanes → Each (λ names. length names ≤ processors) s
        → IsWithinTimes processors k (worth_of_lanes lanes s) (sum_by one_run.completed_value lanes) }

    // Where no job is heavy against one, and so many times its value as there are processors is heavy against the
    // values of all other jobs whose windows have its latest start, together, it is completed.
    ensures one_job { (processors n : ℕ) (J : Instance) (j : JobFacts) → 1 ≤ processors → IsValid J
        → IsMember (n, j) (numbered J) → Each (λ i. IsHeavy J.rules.ratio i.value j.value → ⊥) J.jobs
        → IsHeavy J.rules.ratio (processors * j.value) (worth_beside J n (j.deadline - j.work))
        → IsCompleted processors J n }

    // Against the works as the run observed them, where a schedule may know which jobs finish early and when,
    // `more_processors` holds as it is for a ratio k of 2 or more, and but for 1 - k/2 times what the run completes for
    // a lesser one.
    ensures observed_works { (processors times extra : ℕ) (J : Instance) (s : List (List ℕ)) → 1 ≤ processors
        → 1 ≤ times → IsValid J → IsFor (times * processors) s
        → (2 * J.rules.ratio.q - J.rules.ratio.p) * completed_value processors J ≤ 2 * J.rules.ratio.q * extra
        → IsWithinTimes times J.rules.ratio (worth (numbered (observed processors J)) s - extra)
        (completed_value processors J) }
{}
