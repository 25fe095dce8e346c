//! The least dense tasks, and whether a task of another value would be within the ratio of all others.
ghost use Rattle.std.specs.Prelude.{◌≡◌, ◌<◌, ◌≤◌, ◌*◌, List, false, get_or, length, true};
ghost use Rattle.dover_model.specs.Common.{most_value};
ghost use Rattle.task_laws.specs.Sure.{Stream};
ghost use Rattle.task_words.specs.tasks.Merging.{blank_task};
ghost use Rattle.task_words.specs.sure.Kept.{AreSmall, AreSparse, IsSparsest};
ghost use Rattle.task_words.specs.sure.Streams.{stays_within, streams_of};

use crate::tasks::PeriodicTask;
use dover_model::Ratio;

/// The numbers of the least dense task, and of the least dense of the others. Where there is none, the number of tasks.
#[derive(Clone, Copy)]
pub(crate) struct Sparse {
    pub(crate) first: usize,
    pub(crate) second: usize,
}

/// Whether task `number` is less dense than task `best`, or there is no task of that number.
fn comes_under(tasks: &[PeriodicTask], number: usize, best: usize) -> bool
    requires small { AreSmall (streams_of tasks.now) }
    requires number { number < length tasks.now }
    requires best { best ≤ length tasks.now }
    ensures under { result ≡ true → best < length tasks.now
        → (get_or tasks.now number blank_task).value * (get_or tasks.now best blank_task).work
        < (get_or tasks.now best blank_task).value * (get_or tasks.now number blank_task).work }
    ensures above { result ≡ false → (best < length tasks.now)
        × ((get_or tasks.now best blank_task).value * (get_or tasks.now number blank_task).work
        ≤ (get_or tasks.now number blank_task).value * (get_or tasks.now best blank_task).work) }
{
    if best == tasks.len() {
        return true;
    }
    let (a, b) = (&tasks[number], &tasks[best]);
    u128::from(a.value) * u128::from(b.work) < u128::from(b.value) * u128::from(a.work)
}

/// The number of the least dense task but `without`. Where there is none, the number of tasks.
fn sparsest(tasks: &[PeriodicTask], without: usize) -> usize
    requires { AreSmall (streams_of tasks.now) }
    ensures { IsSparsest (streams_of tasks.now) without result }
{
    let mut best = tasks.len();
    for number in 0..tasks.len() {
        if number != without && comes_under(tasks, number, best) {
            best = number;
        }
    }
    best
}

/// The two least dense tasks.
pub(crate) fn find_sparse(tasks: &[PeriodicTask]) -> Sparse
    requires { AreSmall (streams_of tasks.now) }
    ensures { AreSparse (streams_of tasks.now) result }
{
    let first = sparsest(tasks, tasks.len());
    let second = sparsest(tasks, first);
    Sparse { first, second }
}

impl Sparse {
    /// The least dense task but this one.
    fn rival(self, number: usize) -> usize
        ensures { (streams : List Stream) → AreSparse streams self → number < length streams
            → IsSparsest streams number result }
    {
        if number == self.first {
            return self.second;
        }
        self.first
    }
}

/// Whether the task would be within the ratio of each other with this value.
pub(crate) fn stays_within(
    tasks: &[PeriodicTask],
    number: usize,
    value: u64,
    ratio: Ratio,
    sparse: Sparse,
) -> bool
    requires small { AreSmall (streams_of tasks.now) }
    requires sparse { AreSparse (streams_of tasks.now) sparse }
    requires number { number < length tasks.now }
    requires value { value ≤ most_value }
    ensures { result ≡ stays_within ratio (streams_of tasks.now) number value }
{
    let rival = sparse.rival(number);
    if rival == tasks.len() {
        return true;
    }
    let (p, q) = (u128::from(ratio.p()), u128::from(ratio.q()));
    let other = &tasks[rival];
    q * u128::from(value) * u128::from(other.work)
        <= p * u128::from(other.value) * u128::from(tasks[number].work)
}
