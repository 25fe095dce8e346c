//! What budgets promise, the contract of a function that does nothing.
ghost use Rattle.std.specs.Prelude.{◌≡◌, ◌≤◌, ◌<◌, ℕ, List, length, true};
ghost use Rattle.dover_model.specs.declared.events.Task.{Task};
ghost use Rattle.dover_model.specs.Common.{need, Instance, IsValid, JobFacts, end_state, ran, numbered, IsMember};
ghost use Rattle.dover_model.specs.Common.{is_done};
ghost use Rattle.task_laws.specs.Switches.{most_changes, useful};
ghost use Rattle.task_words.specs.budget.Budgets.{AreOfTasks, budgeted, most_gets, task_at};
ghost use Rattle.task_words.specs.declared.tasks.task.PeriodicTask.{PeriodicTask};

/// Of each list of valid jobs of the tasks with their budgets, in any version and with any early finishes: a job gets
/// the processor no more often than its task's jobs do at most, counted task by task. So each job that is done, by its
/// whole budget, has had all its real work in time, where each change of hands costs no more than the budgets pay for.
pub fn budgets_of_tasks_are_enough()
    ensures gets { (J : Instance) (cost : ℕ) (tasks : List PeriodicTask) (of : ℕ → ℕ) (n_j : ℕ × JobFacts) → IsValid J
        → AreOfTasks (budgeted J.rules.ratio cost tasks) of J
        → ((y : ℕ) → y < length tasks → 1 ≤ (task_at tasks y).period) → IsMember n_j (numbered J)
        → most_changes J.rules.ratio (numbered J) n_j.1 ≤ most_gets J.rules.ratio tasks (task_at tasks (of n_j.0)) }
    ensures enough { (J : Instance) (cost : ℕ) (tasks : List PeriodicTask) (of : ℕ → ℕ) (t : Task) → IsValid J
        → AreOfTasks (budgeted J.rules.ratio cost tasks) of J
        → ((y : ℕ) → y < length tasks → 1 ≤ (task_at tasks y).period) → IsMember t (end_state J).tasks
        → is_done t ≡ true → need J.rules.finishes t.number t.job.work ≡ t.job.work
        → (task_at tasks (of t.number)).work ≤ useful cost (ran J) (t.number, t.job) }
{}
