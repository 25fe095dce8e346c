//! What an engine gives over its whole life, whatever calls are made of it: each law is the contract of a function that
//! does nothing.
ghost use Rattle.std.specs.Prelude.{◌≡◌, ◌≤◌, ◌+◌, ◌++◌, ℕ, List, [], ◌∷◌, true, false, Option, Some, None, option_map};
ghost use Rattle.std.specs.List.{enumerate_from, sum_by};
ghost use Rattle.dover_model.specs.declared.events.Version.{Version};
ghost use Rattle.dover_model.specs.declared.events.Event.{Event};
ghost use Rattle.dover_model.specs.declared.events.Event.TheVariants as events;
ghost use Rattle.dover_model.specs.Common.{Finish, Fraction, observed, total_value, printed, completed_value, Prints};
ghost use Rattle.dover_model.specs.Common.{Each, takes_or_abandons, settled, Meets, worth, IsWithin, Begins};
ghost use Rattle.dover_model.specs.declared.horizon.Horizon.{Horizon};
ghost use Rattle.dover_model.specs.declared.horizon.Horizon.TheVariants.{Mark};
ghost use Rattle.dover_engine.specs.declared.decision.Decision.{Decision};
ghost use Rattle.dover_engine.specs.Decisions.{event_in};
ghost use Rattle.dover_engine.specs.Life.{Life, done_value, has_ended, IsAtRest, successor_of};
ghost use Rattle.dover_engine.specs.Calls.{Call, Done, Stepped, Lives, admitted, jobs_in, finishes_in, all_jobs};
ghost use Rattle.dover_engine.specs.Calls.{decided, LeadsAll};
ghost use Rattle.dover_engine.specs.Restarts.{Past, LivesOn, jobs_anew, in_one_time, value_anew};

/// Whatever jobs were admitted, done early and forgotten, and steps taken: the jobs are numbered from 0 in the order in
/// which they were admitted, and the decisions that were given are those of the one run of all of them, in which those
/// that were done early finish so. Where a step to a mark answers None, they are all that is settled there; behind a
/// job that was done, its completion is the next; at rest they are all but the End; after the End they are the whole
/// run. Nothing that was given is changed by what comes later.
pub fn a_life_is_one_run()
    ensures numbers { (version : Version) (k : Fraction) (calls : List Call) (w : Life) → Lives version k calls w →
        admitted calls ≡ enumerate_from 0 (jobs_in calls) }
    ensures settled { (version : Version) (k : Fraction) (calls : List Call) (mark : ℕ) (w : Life) →
        Lives version k (calls ++ (Stepped (Mark mark) None ∷ [])) w →
        decided calls ≡ settled (all_jobs version k calls) mark }
    ensures done { (version : Version) (k : Fraction) (calls : List Call) (at : ℕ) (f : Finish) (to : Horizon)
        (answer : Option Decision) (w : Life) →
        Lives version k (calls ++ (Done at f ∷ Stepped to answer ∷ [])) w →
        event_in answer ≡ Some (events.Complete at f.number) }
    ensures at_rest { (version : Version) (k : Fraction) (calls : List Call) (w : Life) → Lives version k calls w →
        IsAtRest w →
        decided calls ++ (events.End (done_value w) ∷ []) ≡ printed (all_jobs version k calls) }
    ensures ended { (version : Version) (k : Fraction) (calls : List Call) (w : Life) → Lives version k calls w →
        has_ended w ≡ true →
        decided calls ≡ printed (all_jobs version k calls) }
    ensures begins { (version : Version) (k : Fraction) (calls : List Call) (w : Life) → Lives version k calls w →
        Begins (decided calls) (printed (all_jobs version k calls)) }
    ensures online { (version : Version) (k : Fraction) (calls more : List Call) (w : Life) →
        Lives version k (calls ++ more) w →
        has_ended w ≡ true → (later : List Event)
        × (printed (all_jobs version k (calls ++ more)) ≡ decided calls ++ later) }
{}

/// Of an engine that is asked which job would be next, and is told right behind that, at a tick for which all is given,
/// that the job that has the processor is done there, the decision behind the completion is that the named job runs, or
/// with none named there is none up to the tick.
pub fn the_successor_is_next()
    ensures { (version : Version) (k : Fraction) (calls : List Call) (at : ℕ) (f : Finish) (a b : Option Decision)
        (v w : Life) → Lives version k calls v →
        LeadsAll (Done at f ∷ Stepped (Mark at) a ∷ Stepped (Mark at) b ∷ []) v w →
        event_in b ≡ option_map (events.Run at) (successor_of v) }
{}

/// So that run is what no schedule of all the jobs is worth much more than: with its ratio k, no schedule is worth more
/// than (1 + √k)² times what it completes, neither of the jobs as they were declared nor as they were observed, each
/// that completed with what it had for its work. Of these, which are the declared ones where none was done early, some
/// schedule is worth that much. Where one schedule serves all the jobs as declared, it completes all of them, and no
/// decision that was given is a take or an abandonment. At rest the engine's value is what it completes.
pub fn a_life_is_worth_enough()
    ensures within { (version : Version) (k : Fraction) (calls : List Call) (w : Life) (s : List ℕ) →
        Lives version k calls w →
        IsWithin k (worth (all_jobs version k calls) s) (completed_value (all_jobs version k calls)) }
    ensures observed { (version : Version) (k : Fraction) (calls : List Call) (w : Life) (s : List ℕ) →
        Lives version k calls w →
        IsWithin k (worth (observed (all_jobs version k calls)) s) (completed_value (all_jobs version k calls)) }
    ensures as_declared { (version : Version) (k : Fraction) (calls : List Call) (w : Life) → Lives version k calls w →
        finishes_in calls ≡ [] → observed (all_jobs version k calls) ≡ all_jobs version k calls }
    ensures honest { (version : Version) (k : Fraction) (calls : List Call) (w : Life) → Lives version k calls w →
        (s : List ℕ) × (completed_value (all_jobs version k calls) ≤ worth (observed (all_jobs version k calls)) s) }
    ensures underload { (version : Version) (k : Fraction) (calls : List Call) (w : Life) → Lives version k calls w →
        Meets (all_jobs version k calls) → completed_value (all_jobs version k calls) ≡ total_value (jobs_in calls) }
    ensures none_lost { (version : Version) (k : Fraction) (calls : List Call) (w : Life) → Lives version k calls w →
        Meets (all_jobs version k calls) → Each (λ e. takes_or_abandons (Prints e) ≡ false) (decided calls) }
    ensures value { (version : Version) (k : Fraction) (calls : List Call) (w : Life) → Lives version k calls w →
        IsAtRest w →
        done_value w ≡ completed_value (all_jobs version k calls) }
{}

/// Of an engine that is restarted at rest, as often as its program likes: behind a restart it lives as one that was
/// just made, so that the laws above hold of each life. In one time, in which each life but the first begins at the
/// tick that was taken off the clock, and its jobs are numbered behind those before: what was given begins the one run
/// of all the jobs that were ever admitted, at rest it is all of that but the End, and after the End it is the whole.
/// With its ratio k, no schedule of all the jobs is worth more than (1 + √k)² times what that run completes, or what
/// the factor allows, neither as they were declared nor as they were observed. It completes what the engine told as its
/// value before each restart, and what the life since completes.
pub fn lives_anew_are_one_run()
    ensures life { (version : Version) (k : Fraction) (pasts : List Past) (calls : List Call) (w : Life) →
        LivesOn version k pasts calls w →
        Lives version k calls w }
    ensures begins { (version : Version) (k : Fraction) (pasts : List Past) (calls : List Call) (w : Life) →
        LivesOn version k pasts calls w →
        Begins (in_one_time pasts (decided calls)) (printed (jobs_anew version k pasts calls)) }
    ensures at_rest { (version : Version) (k : Fraction) (pasts : List Past) (calls : List Call) (w : Life) →
        LivesOn version k pasts calls w → IsAtRest w →
        in_one_time pasts (decided calls) ++ (events.End (value_anew pasts w) ∷ [])
        ≡ printed (jobs_anew version k pasts calls) }
    ensures ended { (version : Version) (k : Fraction) (pasts : List Past) (calls : List Call) (w : Life) →
        LivesOn version k pasts calls w → has_ended w ≡ true →
        in_one_time pasts (decided calls) ≡ printed (jobs_anew version k pasts calls) }
    ensures within { (version : Version) (k : Fraction) (pasts : List Past) (calls : List Call) (w : Life)
        (s : List ℕ) → LivesOn version k pasts calls w →
        IsWithin k (worth (jobs_anew version k pasts calls) s)
        (completed_value (jobs_anew version k pasts calls)) }
    ensures observed { (version : Version) (k : Fraction) (pasts : List Past) (calls : List Call) (w : Life)
        (s : List ℕ) → LivesOn version k pasts calls w →
        IsWithin k (worth (observed (jobs_anew version k pasts calls)) s)
        (completed_value (jobs_anew version k pasts calls)) }
    ensures value { (version : Version) (k : Fraction) (pasts : List Past) (calls : List Call) (w : Life) →
        LivesOn version k pasts calls w →
        completed_value (jobs_anew version k pasts calls)
        ≡ sum_by (λ past. past.value) pasts + completed_value (all_jobs version k calls) }
{}
