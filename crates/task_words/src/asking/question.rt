//! What is asked of tasks.
ghost use Rattle.std.specs.Prelude.{◌≡◌};
ghost use Rattle.task_words.specs.asking.Questions.{until_of};

/// What is asked of the tasks of a text.
#[derive(Clone, Copy)]
pub enum TaskQuestion {
    /// The feed of the jobs that they release before a tick.
    Unroll { until: u64 },
    /// Of each, whether it passes a test by which no job of it is lost.
    Sure,
    /// The tasks with their works made budgets that pay for changes of hands of at most `cost` ticks.
    Budget { cost: u64 },
}

/// The tick before which the tasks release the jobs that are asked for. Where none are, a task is tested by its first.
pub(crate) fn until_of(question: TaskQuestion) -> u64
    ensures { result ≡ until_of question }
{
    match question {
        TaskQuestion::Unroll { until } => until,
        TaskQuestion::Sure => 0,
        TaskQuestion::Budget { .. } => 0,
    }
}
