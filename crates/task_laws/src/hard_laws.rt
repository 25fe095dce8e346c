//! Laws of hard work, which has the processor as soon as it comes, above a run that knows nothing of it.
ghost use Rattle.std.specs.Prelude.{◌≡◌, ◌≤◌, ◌<◌, ◌+◌, ◌-◌, ℕ, List, true};
ghost use Rattle.dover_model.specs.Common.{Instance, IsValid, JobFacts, ticks_given, worth, ran, completed_value};
ghost use Rattle.dover_model.specs.Common.{need, IsMember, Each, is_done, end_state, observed, idle};
ghost use Rattle.dover_model.specs.declared.events.Task.{Task};
ghost use Rattle.task_laws.specs.HardWork.{open_before, comes_in, hard_in, ComesAtMost, left_by_hard, hard_beside};
ghost use Rattle.task_laws.specs.HardWork.{free_in, stands_at, stretched, AreByClock, HardTask, HardJob, AreJobsOf};
ghost use Rattle.task_laws.specs.HardWork.{comes_of, most_of};

/// What holds beside hard work. Each clause begins with the name of its law, whose remark stands above. It does
/// nothing.
pub fn laws_of_hard_work()
    // In any so many ticks hard work has no more of them than come in the first of these at most, and all behind,
    // whatever is open as they begin. Where it is known what is open and what comes, it has no more than these. What
    // comes of tasks whose jobs are apart is, of each, a job at the first tick and one more behind each distance at
    // most.
    ensures hard_work_has_few_ticks_known { (comes : ℕ → ℕ) (from length first : ℕ) → first ≤ length
        → hard_in comes from length ≤ open_before comes from + comes_in comes from first + (length - first) }
    ensures hard_work_has_few_ticks_window { (most comes : ℕ → ℕ) (from length first : ℕ) → ComesAtMost most comes
        → first ≤ length → hard_in comes from length ≤ most first + (length - first) }
    ensures hard_work_has_few_ticks_tasks { (tasks : List (HardTask × List HardJob))
        → Each (λ h_jobs. AreJobsOf h_jobs.0 h_jobs.1) tasks → ComesAtMost (most_of tasks) (comes_of tasks) }

    // Of what a job has in its window it loses no more than the ticks that hard work has there. A job that is done has
    // had all its own work, where its budget holds these too.
    ensures budgets_pay_for_hard_work_given { (comes : ℕ → ℕ) (s : List ℕ) (n_j : ℕ × JobFacts)
        → ticks_given s n_j.0 n_j.1 ≤ left_by_hard comes s n_j + hard_beside comes n_j.1 }
    ensures budgets_pay_for_hard_work_enough { (J : Instance) (most comes : ℕ → ℕ) (real first : ℕ) (t : Task)
        → IsValid J → IsMember t (end_state J).tasks → is_done t ≡ true → ComesAtMost most comes
        → first ≤ t.job.deadline - t.job.release
        → real + (most first + (t.job.deadline - t.job.release - first)) ≤ need J.rules.finishes t.number t.job.work
        → real ≤ left_by_hard comes (ran J) (t.number, t.job) }

    // A clock that stands still in the ticks of hard work: in any so many ticks it goes on by at least as many as hard
    // work leaves of the first of these. What a schedule by that clock gives to a job, the processor gives to it in its
    // own window. So a run of jobs by that clock completes no more than it is worth on the processor, to jobs that need
    // what it saw them need.
    ensures a_clock_that_stands_still_is_in_time_goes_on { (most comes : ℕ → ℕ) (from length first : ℕ)
        → ComesAtMost most comes → first ≤ length → first ≤ free_in comes from length + most first }
    ensures a_clock_that_stands_still_is_in_time_shows { (comes : ℕ → ℕ) (from length : ℕ)
        → stands_at comes (from + length) ≡ stands_at comes from + free_in comes from length }
    ensures a_clock_that_stands_still_is_in_time_given { (comes : ℕ → ℕ) (s : List ℕ) (n ticks : ℕ) (i j : JobFacts)
        → n < idle → j.deadline ≤ ticks → i.release ≡ stands_at comes j.release
        → i.deadline ≤ stands_at comes j.deadline → ticks_given s n i ≤ ticks_given (stretched comes 0 ticks s) n j }
    ensures a_clock_that_stands_still_is_in_time_worth { (comes : ℕ → ℕ) (s : List ℕ) (ticks : ℕ) (I K : Instance)
        → IsValid I → AreByClock comes I.jobs K.jobs → Each (λ j. j.deadline ≤ ticks) K.jobs
        → worth I s ≤ worth K (stretched comes 0 ticks s) }
    ensures a_clock_that_stands_still_is_in_time_run { (comes : ℕ → ℕ) (ticks : ℕ) (I K : Instance) → IsValid I
        → AreByClock comes (observed I).jobs K.jobs → Each (λ j. j.deadline ≤ ticks) K.jobs
        → completed_value I ≤ worth K (stretched comes 0 ticks (ran I)) }
{}
