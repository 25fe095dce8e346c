//! A law of the jobs that tasks release, the contract of a function that does nothing.
ghost use Rattle.std.specs.Prelude.{ℕ, List};
ghost use Rattle.dover_model.specs.Common.{IsRatio, Declaration, IsValid};
ghost use Rattle.task_words.specs.tasks.Tasks.{unrolled};
ghost use Rattle.task_words.specs.tasks.Limits.{AreTasks, Fits};
ghost use Rattle.task_words.specs.declared.tasks.task.PeriodicTask.{PeriodicTask};

/// The jobs that tasks within their limits release are valid, where they are neither too many nor worth too much.
pub fn unrolled_jobs_are_valid()
    ensures { (until : ℕ) (rules : Declaration) (tasks : List PeriodicTask) → IsRatio rules.ratio
        → AreTasks until rules.ratio tasks →
        Fits until tasks → IsValid (unrolled until rules tasks) }
{}
