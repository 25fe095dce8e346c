//! Laws of how often the processor changes hands, and of what that costs; and of sections, which are run to their
//! end before the processor is given away.
ghost use Rattle.std.specs.Prelude.{None, ◌≡◌, ◌≤◌, ◌+◌, ◌-◌, ◌*◌, ℕ, List, length, true, false, count_by};
ghost use Rattle.dover_model.specs.Common.{Instance, IsValid, JobFacts, numbered, ticks_given, run, ran, need};
ghost use Rattle.dover_model.specs.Common.{Fraction, Each, end_state, is_done, IsMember, is_complete, gets};
ghost use Rattle.dover_model.specs.Common.{changes_hands};
ghost use Rattle.task_laws.specs.Forward.{gains_from, AreLoaded};
ghost use Rattle.dover_model.specs.declared.events.Task.{Task};
ghost use Rattle.task_laws.specs.Switches.{is_complete_of, starts, returns, may_preempt, may_take, most_changes};
ghost use Rattle.task_laws.specs.Switches.{useful, AreOfTask, is_preempted, is_taken_from, ComesBehind};
ghost use Rattle.task_laws.specs.Sections.{Sections, AreSections, ArePaid, untouched, SaysDone, AreFinished};

/// What holds of changes of hands and of sections. Each clause begins with the name of its law, whose remark stands
/// above. It does nothing.
pub fn laws_of_switches()
    // A job gets the processor once, and once more for each time that it was preempted or that a take stopped it. Only
    // jobs that are released no sooner and due before it preempt it, only jobs that are heavy against it take the
    // processor from it while it runs, and each of them once at most.
    ensures few_jobs_stop_a_job_paid { (J : Instance) (n_j : ℕ × JobFacts) → IsValid J → IsMember n_j (numbered J)
        → count_by (λ x. gets n_j.0 x.move) (run J)
        ≤ 1 + count_by (λ x. is_preempted n_j.0 x.move) (run J) + count_by (λ x. is_taken_from n_j.0 x.move) (run J) }
    ensures few_jobs_stop_a_job_preempt { (J : Instance) (n_j : ℕ × JobFacts) → IsValid J → IsMember n_j (numbered J)
        → count_by (λ x. is_preempted n_j.0 x.move) (run J) ≤ count_by (may_preempt n_j.1) (numbered J) }
    ensures few_jobs_stop_a_job_take { (J : Instance) (n_j : ℕ × JobFacts) → IsValid J → IsMember n_j (numbered J)
        → count_by (λ x. is_taken_from n_j.0 x.move) (run J) ≤ count_by (may_take J.rules.ratio n_j.1) (numbered J) }
    ensures few_jobs_stop_a_job_gets { (J : Instance) (n_j : ℕ × JobFacts) → IsValid J → IsMember n_j (numbered J)
        → count_by (λ x. gets n_j.0 x.move) (run J) ≤ most_changes J.rules.ratio (numbered J) n_j.1 }

    // Of the jobs of one task few may stop a job: those that preempt it come while its window is longer than theirs
    // would be, and those that take the processor from it have a window that meets its own.
    ensures few_jobs_of_a_task_stop_a_job_preempt { (i : JobFacts) (distance due : ℕ) (jobs : List (ℕ × JobFacts))
        → 1 ≤ distance → AreOfTask distance due jobs
        → distance * count_by (may_preempt i) jobs ≤ (i.deadline - (i.release + due)) + (distance - 1) }
    ensures few_jobs_of_a_task_stop_a_job_take { (k : Fraction) (i : JobFacts) (distance due : ℕ)
        (jobs : List (ℕ × JobFacts)) → 1 ≤ distance → AreOfTask distance due jobs
        → distance * count_by (may_take k i) jobs ≤ (i.deadline + due - (i.release + 1)) + (distance - 1) }

    // Over a run the processor changes hands as often as jobs complete, preempt and take: three times for each job at
    // most, and three times less where there are two jobs or more.
    ensures the_processor_changes_hands_few_times_most { (J : Instance) → IsValid J
        → count_by (λ x. changes_hands x.move) (run J) ≤ 3 * length J.jobs }
    ensures the_processor_changes_hands_few_times_fewer { (J : Instance) → IsValid J → 2 ≤ length J.jobs
        → count_by (λ x. changes_hands x.move) (run J) + 3 ≤ 3 * length J.jobs }

    // Each change of hands is paid for by one job, three times at most: by the one that starts, as it is released, by
    // the one that takes, or by the one that is done, where another gets the processor back right behind it.
    ensures each_change_has_a_payer_starts { (J : Instance) (n_j : ℕ × JobFacts) → IsValid J → IsMember n_j (numbered J)
        → count_by (starts n_j.0) (run J) ≤ 1 }
    ensures each_change_has_a_payer_completes { (J : Instance) (n_j : ℕ × JobFacts) → IsValid J
        → IsMember n_j (numbered J) → count_by (λ x. is_complete_of n_j.0 x.move) (run J) ≤ 1 }
    ensures each_change_has_a_payer_returns { (J : Instance) → IsValid J
        → ComesBehind (λ x. is_complete x.move) returns false (run J) }

    // Where each change of hands costs so many ticks, a job loses no more of what it had than it got the processor,
    // times that. A job that is done got on with all its work, where its budget pays for the most that it may lose.
    ensures budgets_pay_for_changes_given { (J : Instance) (cost : ℕ) (n_j : ℕ × JobFacts) → IsValid J
        → IsMember n_j (numbered J)
        → ticks_given (ran J) n_j.0 n_j.1 ≤ useful cost (ran J) n_j + cost * count_by (λ x. gets n_j.0 x.move) (run J) }
    ensures budgets_pay_for_changes_had { (J : Instance) (cost : ℕ) (t : Task) → IsValid J
        → IsMember t (end_state J).tasks
        → t.had ≤ useful cost (ran J) (t.number, t.job) + cost * count_by (λ x. gets t.number x.move) (run J) }
    ensures budgets_pay_for_changes_enough { (J : Instance) (cost real : ℕ) (t : Task) → IsValid J
        → IsMember t (end_state J).tasks → is_done t ≡ true
        → real + cost * most_changes J.rules.ratio (numbered J) t.job ≤ need J.rules.finishes t.number t.job.work
        → real ≤ useful cost (ran J) (t.number, t.job) }

    // Three ticks a job are enough where each job that starts or takes loads itself in its first tick, and each that is
    // done has loaded the one behind it in its last: no job gets on that the processor doesn't hold, and a job that is
    // done got on with all its work, if its budget is three ticks more.
    ensures three_ticks_pay_for_changes_loaded { (J : Instance) → IsValid J → AreLoaded false false None (run J) }
    ensures three_ticks_pay_for_changes_had { (J : Instance) (t : Task) → IsValid J → IsMember t (end_state J).tasks
        → t.had ≤ gains_from t.number false (run J) + 3 }
    ensures three_ticks_pay_for_changes_enough { (J : Instance) (real : ℕ) (t : Task) → IsValid J
        → IsMember t (end_state J).tasks → is_done t ≡ true → real + 3 ≤ need J.rules.finishes t.number t.job.work
        → real ≤ gains_from t.number false (run J) }

    // Budgets pay for sections that are run to their end before the processor is given away. A job loses ticks where it
    // preempts, to the section of one that it may preempt, and where it takes, to that of one that it is heavy against.
    // Where its budget holds both beside its own work, and the dispatcher says that a job is done as soon as it is and
    // no section is under way, each job that is done had all its own work, whatever sections were begun before a
    // preemption, a take or an abandonment. Twice the longest section is enough for all.
    ensures budgets_pay_for_sections_each { (J : Instance) (k : Sections) (start take : ℕ → ℕ) → IsValid J
        → AreSections k → ArePaid J k start take → SaysDone k untouched (run J) → AreFinished k untouched (run J) }
    ensures budgets_pay_for_sections_all { (J : Instance) (k : Sections) (longest : ℕ) → IsValid J → AreSections k
        → ((n had : ℕ) → k.inside n had ≤ longest) → Each (λ n_j. k.own n_j.0 + 2 * longest ≤ n_j.1.work) (numbered J)
        → SaysDone k untouched (run J) → AreFinished k untouched (run J) }
{}
