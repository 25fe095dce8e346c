//! Laws of jobs that no run loses: what holds the processor together, and what a job has to be heavy against.
ghost use Rattle.std.specs.Prelude.{◌≡◌, ◌≤◌, ◌<◌, ◌+◌, ◌-◌, ℕ, List, true};
ghost use Rattle.dover_model.specs.Common.{Instance, IsValid, run, JobFacts, numbered, IsHeavy, Fraction, IsMember};
ghost use Rattle.dover_model.specs.Common.{Each};
ghost use Rattle.task_laws.specs.Sure.{IsHeavyAt, NoneDisplaces, IsCompleted, Stream, stream_at};
ghost use Rattle.dover_model.specs.Windows.{worth_beside};
ghost use Rattle.task_laws.specs.Sure.{AreOfStreams, is_spread, most_beside, most_fitting, CanStack, worth_of, IsSure};
ghost use Rattle.task_laws.specs.Sure.{IsOfStream, FitWindows, NoneMeets};
ghost use Rattle.dover_model.specs.Orders.{IsByDeadline};

/// What holds of jobs that no run loses. Each clause begins with the name of its law, whose remark stands above. It
/// does nothing.
pub fn laws_of_sure_jobs()
    // In each state of a run the running job and the held ones fit their windows together: for each of them, all the
    // work of it and of those due no later is at most what lies between its release and its deadline.
    ensures what_holds_the_processor_fits { (J : Instance) → IsValid J → IsByDeadline J.rules.version
        → Each (λ x. FitWindows x.before.tasks) (run J) }

    // A job is completed in time, whatever its neighbours are and however early they finish, where its value is heavy
    // against any jobs that can hold the processor together: at each tick from its latest start to its deadline, or at
    // its latest start alone where no job can displace it. It is enough that it is heavy against all others that cross
    // the tick.
    ensures a_heavy_job_is_completed_throughout { (J : Instance) (n : ℕ) (j : JobFacts) → IsValid J
        → IsByDeadline J.rules.version → IsMember (n, j) (numbered J)
        → ((t : ℕ) → j.deadline ≤ t + j.work → t < j.deadline → IsHeavyAt J n j t) → IsCompleted J n j }
    ensures a_heavy_job_is_completed_undisturbed { (J : Instance) (n : ℕ) (j : JobFacts) → IsValid J
        → IsByDeadline J.rules.version → IsMember (n, j) (numbered J) → IsHeavyAt J n j (j.deadline - j.work)
        → NoneDisplaces J j → IsCompleted J n j }
    ensures a_heavy_job_is_completed_by_sum { (J : Instance) (n : ℕ) (j : JobFacts) (t : ℕ)
        → IsHeavy J.rules.ratio j.value (worth_beside J n t) → IsHeavyAt J n j t }
    ensures a_heavy_job_is_completed_in_all { (J : Instance) (n : ℕ) (j : JobFacts) → IsValid J
        → IsMember (n, j) (numbered J) → IsHeavy J.rules.ratio j.value (worth_beside J n (j.deadline - j.work))
        → NoneMeets J j → IsCompleted J n j }

    // Where jobs come in streams, those of one stream apart, a job that is sure is completed in time, however they
    // come, where jobs are chosen by deadline; in every version, where its value is heavy against all jobs of the
    // others that can cross one tick. A job that is all that its stream allows is sure where the stream is spread, and
    // its value heavy against what can hold the processor together; it is enough that it is heavy against all jobs of
    // the others that can cross one tick, or against those of them whose work is at most the greatest span among them.
    ensures a_sure_job_is_completed_completed { (J : Instance) (streams : List Stream) (of : ℕ → ℕ) (n : ℕ)
        (j : JobFacts) → IsValid J → IsByDeadline J.rules.version → AreOfStreams streams of J
        → IsMember (n, j) (numbered J) → IsSure J.rules.ratio streams (of n) j → IsCompleted J n j }
    ensures a_sure_job_is_completed_in_all { (J : Instance) (streams : List Stream) (of : ℕ → ℕ) (n : ℕ) (j : JobFacts)
        → IsValid J → AreOfStreams streams of J → IsMember (n, j) (numbered J) → IsSure J.rules.ratio streams (of n) j
        → IsHeavy J.rules.ratio j.value (most_beside streams (of n)) → IsCompleted J n j }
    ensures a_sure_job_is_completed_of_stream { (k : Fraction) (streams : List Stream) (x : ℕ) (j : JobFacts)
        → is_spread (stream_at streams x) ≡ true → ((counts : ℕ → ℕ) → CanStack streams x counts
        → IsHeavy k (stream_at streams x).value (worth_of counts streams)) → IsOfStream (stream_at streams x) j
        → IsSure k streams x j }
    ensures a_sure_job_is_completed_by_sum { (k : Fraction) (streams : List Stream) (x v : ℕ)
        → IsHeavy k v (most_beside streams x) → (counts : ℕ → ℕ) → CanStack streams x counts
        → IsHeavy k v (worth_of counts streams) }
    ensures a_sure_job_is_completed_by_sets { (k : Fraction) (streams : List Stream) (x v : ℕ)
        → IsHeavy k v (most_fitting streams x) → (counts : ℕ → ℕ) → CanStack streams x counts
        → IsHeavy k v (worth_of counts streams) }
{}
