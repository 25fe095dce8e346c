//! What `sure` promises, the contract of a function that does nothing.
ghost use Rattle.std.specs.Prelude.{◌≡◌, ◌≤◌, ◌<◌, ◌↔◌, ℕ, List, length, true};
ghost use Rattle.dover_model.specs.Common.{Fraction, IsRatio, Instance, IsValid, JobFacts, most_value, numbered};
ghost use Rattle.dover_model.specs.Common.{IsMember};
ghost use Rattle.task_laws.specs.Sure.{AreOfStreams, IsCompleted, IsOfStream, Stream, is_spread};
ghost use Rattle.task_laws.specs.Sure.{stream_at};
ghost use Rattle.root_compare.specs.Least.{least_heavy};
ghost use Rattle.dover_model.specs.declared.events.Version.{Version};
ghost use Rattle.task_words.specs.sure.Streams.{HoldsIn, is_sure, most_against, with_value};

/// A task that is told sure loses no job: of each valid list of jobs of these tasks, those of one task a period apart
/// or more, each job of it is completed in time, whatever finishes early: in every version that always chooses by
/// deadline, and where all that can stand against it is looked at, in each. A spread task becomes sure with the least
/// value that is heavy against what can stand against it, and with each greater one, and with none below.
pub fn sure_tasks_lose_no_job()
    ensures completed { (v : Version) (J : Instance) (streams : List Stream) (of : ℕ → ℕ) (n : ℕ) (j : JobFacts)
        → IsValid J → HoldsIn v J.rules.version → AreOfStreams streams of J → IsMember (n, j) (numbered J)
        → IsOfStream (stream_at streams (of n)) j → is_sure J.rules.ratio v streams (of n) ≡ true → IsCompleted J n j }
    ensures raised { (k : Fraction) (w : Version) (streams : List Stream) (x v : ℕ) → IsRatio k → x < length streams
        → is_spread (stream_at streams x) ≡ true → most_against w streams x ≤ most_value
        → (is_sure k w (with_value streams x v) x ≡ true) ↔ (least_heavy k (most_against w streams x) ≤ v) }
{}
