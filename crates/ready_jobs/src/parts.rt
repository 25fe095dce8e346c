//! The ready jobs by their roles, what is seen of them, and how they change.
ghost use Rattle.std.specs.Prelude.{◌≡◌, ℕ, ◌+◌, ◌-◌, ◌*◌, ◌^◌, ◌<◌, ◌≤◌, [], ◌∷◌, ◌++◌, length, map, max, Some, None};
ghost use Rattle.std.specs.Prelude.{option_map, IfOk, IsOk, OnOk, OnErr, IsTrue, ◌↔◌, ◌&&◌};
ghost use Rattle.std.specs.Prelude.{true, false};
ghost use Rattle.std.specs.List.{filter, find, list_any};
ghost use Rattle.std.specs.Option.{option_to_list};
ghost use Rattle.dover_model.specs.declared.events.Role.TheVariants.{Fresh, Waiting, Held, Running};
ghost use Rattle.dover_model.specs.declared.events.Task.{Task};
ghost use Rattle.dover_model.specs.Common.{most_ready, entry_of, is_fresh};
ghost use Rattle.dover_model.specs.Common.{running, held, waiting, privileged, room, left, latest_start, value_sum};
ghost use Rattle.dover_model.specs.Common.{due_first, starts_before, first, open_step, view, with_role};
ghost use Rattle.dover_model.specs.Common.{is_less_dense, by_density, preempts, is_open_job};
ghost use Rattle.dover_model.specs.Common.{is_at_latest_start, resumed, runs, ticked_by, Each};
ghost use Rattle.ready_jobs.specs.Cases.{decision_of, alarm_of, next_ready};
ghost use Rattle.ready_jobs.specs.Dues.{still_ticks, until_done};
ghost use Rattle.ready_jobs.specs.Changed.{made_wait, completed};
ghost use Rattle.ready_jobs.specs.Deeds.{step_at, Finds};
ghost use Rattle.waiting_pool.specs.Reordered.{IsReordered};
ghost use Rattle.waiting_pool.specs.Short.{no_number};
ghost use Rattle.waiting_pool.specs.Pools.{orders_of, IsByDensity};
ghost use Rattle.waiting_pool.specs.Slots.{seen};
ghost use Rattle.ready_jobs.specs.Parts.{Parted, AreSound, HaveRoles, ready_of, state_of, first_by, head_of, tail_of};

use crate::actions::Action;
use crate::held::{peek, pop, push};
use crate::taking::{displace, in_role};
use comparison_count::Comparisons;
use dover_model::{Entry, Job, Memory, Ratio, Role, Task, Version};
use held_stack::Rooms;
use root_compare::heavy;
use std::alloc::Global;
use std::marker::Model;
use std::sync::ledger::Ledger;
use waiting_pool::{Pool, ShortTask, left};

/// The ready jobs by their roles. Those that wait are in a pool, the held ones on a stack with their rooms.
#[derive(Drop)]
pub struct Parts {
    clock: u64,
    // A job was abandoned, and since then some job was ready at each moment.
    pressed: bool,
    running: Option<Task>,
    fresh: Option<Task>,
    held: Vec<ShortTask>,
    rooms: Rooms,
    pool: Pool,
    room: u32,
}

impl Model for Parts {
    ghost use Rattle.ready_jobs.specs.Parts.{Parted};
    ghost use Rattle.ready_jobs.specs.Kept.{parted_of, IsKept};

    ghost Value = { Parted };

    ghost view = { parted_of };

    ghost invariant = { IsKept };
}

// The job as one that doesn't run.
#[inline(always)]
fn entry_of(t: &Task) -> Entry
    ensures { result ≡ entry_of t.now }
{
    let left = left(t);
    Entry {
        number: t.number,
        deadline: t.job.deadline(),
        latest: t.job.deadline().saturating_sub(left),
        left,
        value: t.job.value(),
    }
}

// The job with so many ticks more, if it runs.
#[inline(always)]
fn later(t: &mut Task, ticks: u64)
    requires { t.old.had + ticks < 2 ^ 64 }
    ensures { t.new ≡ ticked_by ticks t.old }
{
    if matches!(t.role, Role::Running) {
        t.had += ticks;
    }
}

// The same of the running job, if one does.
#[inline(always)]
fn later_running(running: &mut Option<Task>, ticks: u64)
    requires { Each (λ t. t.had + ticks < 2 ^ 64) (option_to_list running.old) }
    ensures { running.new ≡ option_map (ticked_by ticks) running.old }
{
    if let Some(t) = running {
        later(t, ticks);
    }
}

// The job i is less dense than j. It stands apart, so that what calls it stays small.
#[inline(never)]
fn is_less_dense(i: &Task, j: &Task) -> bool
    ensures { result ≡ is_less_dense i.now j.now }
{
    u128::from(i.job.value()) * u128::from(j.job.work())
        < u128::from(j.job.value()) * u128::from(i.job.work())
}

// How many jobs it is.
#[inline(always)]
fn count_of(job: &Option<Task>) -> u32
    ensures is { result ≡ length (option_to_list job.now) }
    ensures most { result ≤ 1 }
{
    match job {
        Some(_) => 1,
        None => 0,
    }
}

impl Parts {
    /// No jobs, and no room.
    pub fn new(alloc: Global, version: Version) -> Result<Parts, Memory>
        ensures { IfOk result (λ p. p ≡ record {
          version = version;
          clock = 0;
          pressed = false;
          running = None;
          fresh = None;
          held = [];
          waiting = [];
          room = 0;
        }) }
    {
        Ok(Parts {
            clock: 0,
            pressed: false,
            running: None,
            fresh: None,
            held: Vec::new(alloc),
            rooms: Rooms::new(alloc),
            pool: Pool::new(alloc, version),
            room: 0,
        })
    }

    /// What holds of the parts. It does nothing.
    #[inline(always)]
    pub fn laws(&self)
        ensures roles { HaveRoles self.now }
        ensures few { length (ready_of self.now) ≤ self.now.room }
        ensures most { self.now.room ≤ most_ready }
    {
        // What is kept of the parts is known where a field is read.
        let _ = &self.room;
    }

    /// The clock.
    #[inline(always)]
    pub fn clock(&self) -> u64
        ensures { result ≡ self.now.clock }
    {
        self.clock
    }

    /// The version.
    #[inline(always)]
    pub fn version(&self) -> Version
        ensures { result ≡ self.now.version }
    {
        self.pool.version()
    }

    /// The job that runs.
    #[inline(always)]
    pub fn running(&self) -> Option<Task>
        ensures is { result ≡ self.now.running }
        ensures seen { result ≡ running (state_of self.now) }
    {
        self.running
    }

    /// The fresh job.
    #[inline(always)]
    pub fn fresh(&self) -> Option<Task>
        ensures is { result ≡ self.now.fresh }
        ensures seen { result ≡ find is_fresh (state_of self.now).tasks }
    {
        self.fresh
    }

    /// How many jobs are ready.
    #[inline(always)]
    pub fn count(&self) -> u32
        ensures { result ≡ length (ready_of self.now) }
    {
        let waiting = self.pool.count() + self.held.len() as u32;
        count_of(&self.running) + count_of(&self.fresh) + waiting
    }

    /// No job is ready.
    #[inline(always)]
    pub fn is_empty(&self) -> bool
        ensures { IsTrue result ↔ (ready_of self.now ≡ []) }
    {
        self.running.is_none() && self.count() == 0
    }

    /// For how many ready jobs there is room.
    pub fn room(&self) -> u32
        ensures { result ≡ self.now.room }
    {
        self.room
    }

    /// The first held job.
    #[inline(always)]
    pub(crate) fn first_held(&self) -> Option<&ShortTask>
        ensures is { seen result ≡ head_of self.now.held }
        ensures seen { seen result ≡ first (due_first self.now.version) (held (state_of self.now)) }
    {
        peek(&self.held)
    }

    /// The first waiting job: by deadline, or by density.
    #[inline(always)]
    pub(crate) fn first_waiting(&self) -> Option<&ShortTask>
        requires { AreSound self.now }
        ensures is { seen result ≡ first (first_by self.now) self.now.waiting }
        ensures seen { seen result ≡ (view self.now.version (state_of self.now)).first_waiting }
    {
        self.pool.first_waiting(self.pressed)
    }

    /// Of the waiting jobs at their latest start, the first in that order.
    #[inline(always)]
    pub(crate) fn first_late(&self) -> Option<&ShortTask>
        requires { AreSound self.now }
        ensures is { (x : Task) → seen result ≡ Some x
            → first (starts_before self.now.version) self.now.waiting ≡ Some x }
        ensures seen { seen result ≡ first (starts_before self.now.version)
            (filter (is_at_latest_start (state_of self.now)) (waiting (state_of self.now))) }
    {
        let start = self.pool.first_start()?;
        if start != self.clock {
            return None;
        }
        self.pool.first_latest()
    }

    // The room of the held jobs.
    #[inline(always)]
    fn room_held(&self) -> u64
        ensures { result ≡ room self.now.clock (held (state_of self.now)) }
    {
        self.rooms.room(self.clock).unwrap_or(0)
    }

    // The room of the running job r and the held jobs.
    #[inline(always)]
    fn room_busy(&self, r: &Task) -> u64
        requires sound { AreSound self.now }
        requires running { self.now.running ≡ Some r.now }
        ensures { result ≡ room self.now.clock (privileged (state_of self.now)) }
    {
        self.rooms.room_with(&entry_of(r), self.clock)
    }

    // The value of the running job r and the held jobs.
    #[inline(always)]
    fn value_busy(&self, r: &Task) -> u64
        requires sound { AreSound self.now }
        requires running { self.now.running ≡ Some r.now }
        ensures { result ≡ value_sum (privileged (state_of self.now)) }
    {
        r.job.value() + self.rooms.value_sum()
    }

    // The fresh job f yields to the running job r: waiting jobs are chosen by density, and it is less dense.
    #[inline(always)]
    fn yields(&self, r: &Task, f: &Task) -> bool
        ensures { result ≡ (by_density self.now.version self.now.pressed && is_less_dense f.now r.now) }
    {
        self.version().by_density(self.pressed) && is_less_dense(f, r)
    }

    // The fresh job f preempts the running job r: it is due before r, its work fits the room, and it doesn't yield.
    #[inline(always)]
    fn preempts(&self, r: &Task, f: &Task) -> bool
        requires sound { AreSound self.now }
        requires running { self.now.running ≡ Some r.now }
        ensures { result ≡ preempts (view self.now.version (state_of self.now)) f.now r.now }
    {
        if f.job.deadline() < r.job.deadline() && f.job.work() <= self.room_busy(r) {
            return !self.yields(r, f);
        }
        false
    }

    // The fresh job f preempts the running job r, or waits.
    #[inline(always)]
    fn decision(&self, r: &Task, f: &Task) -> Action
        requires sound { AreSound self.now }
        requires running { self.now.running ≡ Some r.now }
        ensures is { step_at self.now.clock result
            ≡ decision_of (view self.now.version (state_of self.now)) r.now f.now }
        ensures finds { Finds (view self.now.version (state_of self.now)) result }
    {
        if self.preempts(r, f) {
            Action::Preempt {
                stops: r.number,
                starts: f.number,
            }
        } else {
            Action::Wait { number: f.number }
        }
    }

    // The job x takes the processor from the running job r, or is abandoned.
    #[inline(always)]
    fn alarm(&self, k: &Ratio, r: &Task, x: &ShortTask) -> Action
        requires sound { AreSound self.now }
        requires running { self.now.running ≡ Some r.now }
        ensures is { step_at self.now.clock result
            ≡ alarm_of k.now (view self.now.version (state_of self.now)) r.now x.now }
        ensures finds { Finds (view self.now.version (state_of self.now)) result }
    {
        if heavy(x.value(), self.value_busy(r), *k) {
            Action::Take {
                stops: r.number,
                starts: x.number(),
            }
        } else {
            Action::Abandon { number: x.number() }
        }
    }

    // The next step while r runs.
    #[inline(always)]
    fn busy_step(&self, k: &Ratio, r: &Task) -> Action
        requires sound { AreSound self.now }
        requires running { self.now.running ≡ Some r.now }
        requires runs { running (state_of self.now) ≡ Some r.now }
        ensures is { step_at self.now.clock result
            ≡ open_step (record { ratio = k.now; version = self.now.version; finishes = [] }) (state_of self.now) }
        ensures finds { Finds (view self.now.version (state_of self.now)) result }
    {
        if left(r) == 0 {
            return Action::Complete { number: r.number };
        }
        if let Some(f) = self.fresh() {
            return self.decision(r, &f);
        }
        // That no job is to come is known by the laws.
        self.laws();
        match self.first_late() {
            Some(x) => self.alarm(k, r, x),
            None => Action::Tick,
        }
    }

    // While p is held: the first waiting job runs, if it is due before p and fits the room of the held jobs, else p.
    #[inline(always)]
    fn resumed(&self, p: &ShortTask) -> Action
        requires sound { AreSound self.now }
        requires held { (view self.now.version (state_of self.now)).first_held ≡ Some p.now }
        ensures is { let v = view self.now.version (state_of self.now) in
            step_at self.now.clock result ≡ runs v (resumed v p.now v.first_waiting) }
        ensures finds { Finds (view self.now.version (state_of self.now)) result }
    {
        match self.first_waiting() {
            Some(o) if o.deadline() < p.deadline() && o.left() <= self.room_held() => {
                Action::Start { number: o.number() }
            }
            _ => Action::Resume { number: p.number() },
        }
    }

    // While p is held: the number of the job that gets the processor where it is free.
    #[inline(always)]
    fn successor_to_held(&self, p: &ShortTask) -> u32
        requires sound { AreSound self.now }
        ensures { let v = view self.now.version (state_of self.now) in
            result ≡ (resumed v p.now v.first_waiting).number }
    {
        match self.first_waiting() {
            Some(o) if o.deadline() < p.deadline() && o.left() <= self.room_held() => o.number(),
            _ => p.number(),
        }
    }

    /// The number of the job that gets the processor where it is free and none is fresh, if any is held or waits.
    pub fn successor(&self) -> Option<u32>
        requires { AreSound self.now }
        ensures { result ≡ option_map (λ t. t.number) (next_ready self.now.version (state_of self.now)) }
    {
        match self.first_held() {
            Some(p) => Some(self.successor_to_held(p)),
            None => self.first_to_wait(),
        }
    }

    // The number of the first waiting job.
    #[inline(always)]
    fn first_to_wait(&self) -> Option<u32>
        requires { AreSound self.now }
        ensures { result ≡ option_map (λ t. t.number)
            (view self.now.version (state_of self.now)).first_waiting }
    {
        match self.first_waiting() {
            Some(o) => Some(o.number()),
            None => None,
        }
    }

    // The next step while no job runs.
    #[inline(always)]
    fn free_step(&self, k: &Ratio) -> Action
        requires sound { AreSound self.now }
        requires free { running (state_of self.now) ≡ None }
        ensures is { step_at self.now.clock result
            ≡ open_step (record { ratio = k.now; version = self.now.version; finishes = [] }) (state_of self.now) }
        ensures finds { Finds (view self.now.version (state_of self.now)) result }
    {
        // A ratio is known to be one where it is read.
        let _ = k.p();
        if let Some(p) = self.first_held() {
            return self.resumed(p);
        }
        if let Some(o) = self.first_waiting() {
            return Action::Start { number: o.number() };
        }
        if let Some(f) = self.fresh() {
            return Action::Begin { number: f.number };
        }
        // That no job is to come is known by the laws.
        self.laws();
        Action::Tick
    }

    /// The next step where further jobs may come.
    #[inline(always)]
    pub fn open_step(&self, k: &Ratio) -> Action
        requires { AreSound self.now }
        ensures is { step_at self.now.clock result
            ≡ open_step (record { ratio = k.now; version = self.now.version; finishes = [] }) (state_of self.now) }
        ensures finds { Finds (view self.now.version (state_of self.now)) result }
    {
        match self.running() {
            Some(r) => self.busy_step(k, &r),
            None => self.free_step(k),
        }
    }

    // At most so many ticks, and what the running job has left.
    #[inline(always)]
    fn until_done(&self, most: u64) -> u64
        ensures is { result ≡ until_done (running (state_of self.now)) most }
        ensures most { result ≤ most }
        ensures done { (r : Task) → self.now.running ≡ Some r → result ≤ left r }
    {
        match self.running() {
            Some(r) => most.min(left(&r)),
            None => most,
        }
    }

    /// How many silent ticks come before anything is due, at most `most`: while a job runs, none where it is done or a
    /// waiting job is at its latest start.
    #[inline(always)]
    pub fn silent_ticks(&self, most: u64) -> u64
        requires { AreSound self.now }
        ensures still { Each (λ t. self.now.clock < latest_start t) self.now.waiting →
            result ≡ still_ticks most (state_of self.now) }
        ensures most { result ≤ most }
        ensures done { (r : Task) → self.now.running ≡ Some r → result ≤ left r }
        ensures start { (x : Task) → first (starts_before self.now.version) self.now.waiting ≡ Some x →
            result ≤ latest_start x - self.now.clock }
    {
        let before = self.until_done(most);
        match self.pool.first_start() {
            Some(start) => before.min(start.saturating_sub(self.clock)),
            None => before,
        }
    }

    /// Another version in place of version Four, whose room serves any, where no job waits.
    pub fn declare(&mut self, version: Version)
        requires none { self.old.waiting ≡ [] }
        requires dense { IsByDensity self.old.version }
        ensures { self.new ≡ record self.old { version = version } }
    {
        self.pool.declare(version);
    }

    /// The clock is 0 again.
    pub fn reset_clock(&mut self)
        ensures { self.new ≡ record self.old { clock = 0 } }
    {
        self.clock = 0;
    }

    /// Room for so many ready jobs in all. Where there is, it takes no memory; want of it leaves all as before.
    pub fn reserve(&mut self, room: u32) -> Result<(), Memory>
        requires { room ≤ most_ready }
        ensures kept { self.new ≡ record self.old { waiting = self.new.waiting; room = self.new.room } }
        ensures same { self.new.waiting ≡ self.old.waiting }
        ensures ok { OnOk result (self.new.room ≡ max self.old.room room) }
        ensures err { OnErr result (self.new.room ≡ self.old.room) }
        ensures enough { room ≤ self.old.room → IsOk result }
    {
        if room <= self.room {
            return Ok(());
        }
        let held = self.held.len();
        self.held.reserve(room as usize - held)?;
        self.rooms.reserve(room - held as u32)?;
        self.pool.reserve(room)?;
        self.room = room;
        Ok(())
    }

    // Whether the state stays pressed: it is, and some job is ready.
    fn stays_pressed(&self) -> bool
        ensures { result ≡ (self.now.pressed && list_any is_open_job (ready_of self.now)) }
    {
        self.pressed && !self.is_empty()
    }

    /// The running job is done, or goes.
    pub fn complete(&mut self)
        ensures { self.new ≡ completed self.old }
    {
        self.running = None;
        self.pressed = self.stays_pressed();
    }

    /// The first held job runs on.
    #[inline(always)]
    pub fn resume(&mut self)
        requires { self.old.running ≡ None }
        ensures { self.new ≡ record self.old {
          running = option_map (λ p. with_role p Running) (head_of self.old.held);
          held = tail_of self.old.held;
        } }
    {
        if let Some(p) = pop(&mut self.held) {
            self.rooms.release_one(p.job.value());
            self.running = Some(in_role(&p, Role::Running));
        }
    }

    /// The first waiting job runs.
    pub fn start<L: Ledger>(&mut self, comparisons: &mut Comparisons<L>)
        requires sound { AreSound self.old }
        requires free { self.old.running ≡ None }
        ensures runs { self.new.running
            ≡ option_map (λ o. with_role o Running) (first (first_by self.old) self.old.waiting) }
        ensures rest { (o : Task) → first (first_by self.old) self.old.waiting ≡ Some o →
            IsReordered self.old.waiting (o ∷ self.new.waiting) }
        ensures kept { self.new ≡ record self.old { running = self.new.running; waiting = self.new.waiting } }
        ensures count { (d : ℕ) → length self.old.waiting + 1 < 2 ^ d →
            comparisons.new ≤ comparisons.old + 3 * orders_of self.old.version * d }
    {
        if let Some(o) = self.pool.take_waiting(self.pressed, comparisons) {
            self.running = Some(in_role(&o, Role::Running));
        }
    }

    /// The fresh job runs.
    #[inline(always)]
    pub fn begin(&mut self)
        requires { self.old.running ≡ None }
        ensures { self.new ≡ record self.old {
          running = option_map (λ f. with_role f Running) self.old.fresh;
          fresh = None;
        } }
    {
        if let Some(f) = self.fresh {
            self.fresh = None;
            self.running = Some(in_role(&f, Role::Running));
        }
    }

    /// The fresh job f waits.
    pub fn stay<L: Ledger>(&mut self, f: &Task, comparisons: &mut Comparisons<L>)
        requires fresh { self.old.fresh ≡ Some f.now }
        ensures waits { IsReordered (with_role f.now Waiting ∷ self.old.waiting) self.new.waiting }
        ensures kept { self.new ≡ record self.old { fresh = None; waiting = self.new.waiting } }
        ensures count { (d : ℕ) → length self.old.waiting + 1 < 2 ^ d →
            comparisons.new ≤ comparisons.old + orders_of self.old.version * d }
    {
        self.fresh = None;
        self.pool.add(in_role(f, Role::Waiting), comparisons);
    }

    /// The first waiting job by latest start is taken out, and gone. From then on the state is pressed.
    pub fn abandon<L: Ledger>(&mut self, comparisons: &mut Comparisons<L>)
        requires sound { AreSound self.old }
        ensures rest { (x : Task) → first (starts_before self.old.version) self.old.waiting ≡ Some x →
            IsReordered self.old.waiting (x ∷ self.new.waiting) }
        ensures kept { self.new ≡ record self.old { pressed = true; waiting = self.new.waiting } }
        ensures count { (d : ℕ) → length self.old.waiting + 1 < 2 ^ d →
            comparisons.new ≤ comparisons.old + 3 * orders_of self.old.version * d }
    {
        self.pool.take_latest(comparisons);
        self.pressed = true;
    }

    /// A job comes, and is fresh.
    #[inline(always)]
    pub fn come(&mut self, number: u32, job: Job)
        requires stale { self.old.fresh ≡ None }
        requires room { length (ready_of self.old) < self.old.room }
        requires number { number < no_number }
        requires ahead { self.old.clock ≤ job.release }
        ensures { self.new ≡ record self.old {
          clock = job.release;
          fresh = Some (record { number = number; job = job; role = Fresh; had = 0 });
        } }
    {
        self.clock = job.release();
        self.fresh = Some(Task {
            number,
            job,
            role: Role::Fresh,
            had: 0,
        });
    }

    /// The running job r is held, and the fresh job f runs.
    pub fn preempt(&mut self, r: &Task, f: &Task)
        requires sound { AreSound self.old }
        requires running { self.old.running ≡ Some r.now }
        requires fresh { self.old.fresh ≡ Some f.now }
        ensures { self.new ≡ record self.old {
          running = Some (with_role f.now Running);
          fresh = None;
          held = with_role r.now Held ∷ self.old.held;
        } }
    {
        self.rooms.hold(&entry_of(r));
        push(&mut self.held, &in_role(r, Role::Held));
        self.fresh = None;
        self.running = Some(in_role(f, Role::Running));
    }

    /// The job x, of those that wait the first by latest start, runs. The running job r and all held ones wait.
    pub fn take<L: Ledger>(&mut self, r: &Task, x: &Task, comparisons: &mut Comparisons<L>)
        requires sound { AreSound self.old }
        requires running { self.old.running ≡ Some r.now }
        requires late { first (starts_before self.old.version) self.old.waiting ≡ Some x.now }
        ensures rest { IsReordered (map made_wait (r.now ∷ self.old.held) ++ self.old.waiting)
            (x.now ∷ self.new.waiting) }
        ensures kept { self.new ≡ record self.old {
          running = Some (with_role x.now Running);
          held = [];
          waiting = self.new.waiting;
        } }
        ensures count { (d : ℕ) → length (ready_of self.old) + 1 < 2 ^ d →
            comparisons.new ≤ comparisons.old + orders_of self.old.version * d * (4 + length self.old.held) }
    {
        self.pool.take_latest(comparisons);
        self.pool.add(in_role(r, Role::Waiting), comparisons);
        displace(&mut self.held, &mut self.pool, comparisons);
        self.rooms.clear();
        self.running = Some(in_role(x, Role::Running));
    }

    /// The running job has so many ticks more, and the clock goes on.
    #[inline(always)]
    pub fn tick(&mut self, ticks: u64)
        requires had { Each (λ t. t.had + ticks < 2 ^ 64) (option_to_list self.old.running) }
        requires known { self.old.clock + ticks < 2 ^ 64 }
        ensures { self.new ≡ record self.old {
          clock = self.old.clock + ticks;
          running = option_map (ticked_by ticks) self.old.running;
        } }
    {
        later_running(&mut self.running, ticks);
        self.clock += ticks;
    }
}
