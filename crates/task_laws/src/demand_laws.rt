//! Laws of what the jobs of tasks ask for in a window, of whether a deadline can ever be missed, and of when an
//! overload is over.
ghost use Rattle.std.specs.Prelude.{◌≡◌, ◌≤◌, ◌<◌, ◌-◌, ◌*◌, ◌+◌, ℕ, List, false, map, length};
ghost use Rattle.std.specs.List.{sum_by};
ghost use Rattle.dover_model.specs.Common.{Instance, IsValid, IsOverfull, Each, run, completed_value};
ghost use Rattle.dover_model.specs.Common.{takes_or_abandons, total_value, work_inside, Meets, Rules, after, JobFacts};
ghost use Rattle.task_laws.specs.Demand.{TaskFacts, demand, AskNoMore, AreMet, AreShares, soon, all_soon};
ghost use Rattle.task_laws.specs.Switches.{AreSpaced, AreOfTask};
ghost use Rattle.task_laws.specs.Recovery.{work_due_behind, RestsWithin};

/// What holds of the jobs of tasks. Each clause begins with the name of its law, whose remark stands above. It does
/// nothing.
pub fn laws_of_demand()
    // Where no window has more work in it than ticks, some schedule serves all jobs, and the run loses none.
    ensures where_no_window_is_overfull_none_is_lost_meets { (J : Instance) → IsValid J
        → ((a b w : ℕ) → IsOverfull J.jobs a b w → ⊥) → Meets J }
    ensures where_no_window_is_overfull_none_is_lost_none_lost { (J : Instance) → IsValid J
        → ((a b w : ℕ) → IsOverfull J.jobs a b w → ⊥) → Each (λ x. takes_or_abandons x.move ≡ false) (run J) }
    ensures where_no_window_is_overfull_none_is_lost_all_value { (J : Instance) → IsValid J
        → ((a b w : ℕ) → IsOverfull J.jobs a b w → ⊥) → completed_value J ≡ total_value J.jobs }

    // The jobs of tasks ask in a window for no more than their demand. So where that is never more than the window has,
    // none of these jobs is lost, whenever they come.
    ensures tasks_that_are_met_lose_nothing_inside { (tasks : List TaskFacts) (of : ℕ → ℕ) (J : Instance) (a b : ℕ)
        → AskNoMore tasks of J → a ≤ b → work_inside J.jobs a b ≤ demand tasks (b - a) }
    ensures tasks_that_are_met_lose_nothing_meets { (tasks : List TaskFacts) (of : ℕ → ℕ) (J : Instance) → IsValid J
        → AskNoMore tasks of J → AreMet tasks → Meets J }
    ensures tasks_that_are_met_lose_nothing_none_lost { (tasks : List TaskFacts) (of : ℕ → ℕ) (J : Instance) → IsValid J
        → AskNoMore tasks of J → AreMet tasks → Each (λ x. takes_or_abandons x.move ≡ false) (run J) }
    ensures tasks_that_are_met_lose_nothing_all_value { (tasks : List TaskFacts) (of : ℕ → ℕ) (J : Instance) → IsValid J
        → AskNoMore tasks of J → AreMet tasks → completed_value J ≡ total_value J.jobs }

    // Few windows tell of all: those below a horizon, which shares of the processor give; or those up to a common
    // multiple of the distances and the last deadline, where the work that comes in that time is no more than it. A
    // window whose demand is no more than it has tells of all between its demand and itself.
    ensures few_windows_tell_of_all_horizon { (tasks : List TaskFacts) (scale horizon : ℕ) (share : TaskFacts → ℕ)
        → AreShares tasks scale share
        → sum_by (λ task. share task * (task.distance - task.due)) tasks ≤ (scale - sum_by share tasks) * horizon
        → ((length : ℕ) → length < horizon → demand tasks length ≤ length) → AreMet tasks }
    ensures few_windows_tell_of_all_period { (tasks : List TaskFacts) (period last : ℕ) (times : TaskFacts → ℕ)
        → 1 ≤ period → Each (λ task. 1 ≤ task.distance) tasks → Each (λ task. period ≡ times task * task.distance) tasks
        → Each (λ task. task.due ≤ last) tasks → sum_by (λ task. task.work * times task) tasks ≤ period
        → ((length : ℕ) → length ≤ last + period → demand tasks length ≤ length) → AreMet tasks }
    ensures few_windows_tell_of_all_below { (tasks : List TaskFacts) (long length : ℕ)
        → Each (λ task. 1 ≤ task.distance) tasks → demand tasks long ≤ length → length ≤ long
        → demand tasks length ≤ length }

    // Where a window has less than the demand, the tasks' jobs that come as soon as they may be, all of them at once at
    // first, ask for all of it, and no schedule serves them.
    ensures a_demand_above_a_window_cannot_be_met_apart { (task : TaskFacts) (from count : ℕ)
        → AreSpaced task.distance (map (λ j. j.release) (soon task from count)) }
    ensures a_demand_above_a_window_cannot_be_met_asked { (tasks : List TaskFacts) (length : ℕ)
        → work_inside (all_soon tasks length) 0 length ≡ demand tasks length }
    ensures a_demand_above_a_window_cannot_be_met_unmet { (tasks : List TaskFacts) (length : ℕ) (rules : Rules)
        → length < demand tasks length → Meets (record { rules = rules; jobs = all_soon tasks length }) → ⊥ }

    // An overload ends. Where all the work that is due behind one tick and released before a later one is no more than
    // the time between the two, the run comes to rest by the later one, from any tick up to the first on. What was
    // lost, or done early, only makes that sooner. Of one task's jobs, each due so long after its release, few come
    // then, and so little is their work.
    ensures the_processor_comes_to_rest_rests { (J : Instance) (from due until : ℕ) → IsValid J → from ≤ due
        → due + sum_by (work_due_behind due until) J.jobs ≤ until → RestsWithin J from until }
    ensures the_processor_comes_to_rest_of_a_task { (distance after work due until : ℕ) (jobs : List (ℕ × JobFacts))
        → 1 ≤ distance → AreOfTask distance after jobs → Each (λ n_j. n_j.1.work ≤ work) jobs
        → distance * sum_by (λ n_j. work_due_behind due until n_j.1) jobs
        ≤ work * ((until - (due + 1 - after)) + (distance - 1)) }
{}
