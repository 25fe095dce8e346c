//! The jobs of a run by number, kept from its printed steps alone.
ghost use Rattle.std.specs.Prelude.{◌≡◌, ◌≤◌, ◌<◌, ◌-◌, ◌^◌, ℕ, length, OnOk, IsOk, IfSome, IsSome, slice_get};
ghost use Rattle.std.specs.Prelude.{option_map, vec_capacity};
ghost use Rattle.dover_model.specs.declared.events.Event.TheVariants.{Release, Complete};
ghost use Rattle.dover_model.specs.JobFacts.{JobFacts};
ghost use Rattle.ready_server.specs.Roster as model;
ghost use Rattle.ready_server.specs.Roster.{empty_roll, with_event, job_at, finish_here};

use dover_model::{Event, Job, Memory, Role, Task};
use std::alloc::Global;
use std::marker::Model;
use waiting_pool::ShortTask;

/// A job as it was when it last had the processor.
#[derive(Drop)]
pub struct ListedJob {
    task: ShortTask,
    /// How many takes there were when it stopped: with one more, a held job waits.
    takes: u64,
}

impl Model for ListedJob {
    ghost use Rattle.std.specs.Prelude.{◌≤◌};
    ghost use Rattle.ready_server.specs.Roster.{ListedJob};

    ghost Value = { ListedJob };

    ghost view = { λ l. record { task = l.task; takes = l.takes } };

    ghost invariant = { λ l. l.task.had ≤ l.task.job.work };
}

/// The ticks that a job has had with so many more, at most its work.
fn had_with(ticks: u64, task: &ShortTask) -> u64
    ensures { result ≡ model.had_with ticks task.now }
{
    task.work()
        .saturating_sub(task.left().saturating_sub(ticks))
}

impl ListedJob {
    /// A job that is released.
    fn released(number: u32, job: Job) -> ListedJob
        ensures { result ≡ model.released number job }
    {
        ListedJob {
            task: ShortTask::of(&Task {
                number,
                job,
                role: Role::Waiting,
                had: 0,
            }),
            takes: 0,
        }
    }

    /// It stops after so many ticks more in this role, where there were so many takes.
    fn stop(&mut self, ticks: u64, role: Role, takes: u64)
        ensures { self.new ≡ model.stopped ticks role takes self.old }
    {
        let had = had_with(ticks, &self.task);
        self.task.stop(role, had);
        self.takes = takes;
    }

    /// Whether a take since it stopped displaces it.
    fn is_displaced(&self, role: Role, takes: u64) -> bool
        requires { role ≡ self.now.task.role }
        ensures { result ≡ model.is_displaced takes self.now }
    {
        role == Role::Held && self.takes != takes
    }
}

/// Makes room for so many items. Where there is room, it takes no memory.
fn make_room_in<T>(items: &mut Vec<T>, many: usize) -> Result<(), Memory>
    ensures same { items.new.items ≡ items.old.items }
    ensures room { OnOk result (many ≤ vec_capacity items.new) }
    ensures enough { many ≤ vec_capacity items.old → IsOk result }
{
    if many <= items.capacity() {
        return Ok(());
    }
    let count = items.len();
    items.reserve(count.max(many.saturating_sub(count)))?;
    Ok(())
}

/// A job that was done before it had all its work: its number, the tick, and how many jobs were released by then.
#[derive(Clone, Copy)]
pub struct ListedFinish {
    pub at: u64,
    pub number: u32,
    pub behind: usize,
}

/// The jobs of a run that were released so far by number, as far as a snapshot names them: what each asks for, what it
/// is, and the ticks that it has had; and the early finishes in order. Both are kept from the printed steps of the run
/// alone.
#[derive(Drop)]
pub struct Roster {
    jobs: Vec<ListedJob>,
    finishes: Vec<ListedFinish>,
    takes: u64,
    turn: Option<u32>,
    since: u64,
}

impl Model for Roster {
    ghost use Rattle.std.specs.Prelude.{vec_capacity};
    ghost use Rattle.ready_server.specs.Roster.{Kept};

    ghost Value = { Kept };

    ghost view = { λ r. record {
      roll = record {
        jobs = r.jobs.items;
        finishes = r.finishes.items;
        takes = r.takes;
        turn = r.turn;
        since = r.since;
      };
      room = vec_capacity r.jobs;
      finish_room = vec_capacity r.finishes;
    } };
}

impl Roster {
    /// No job was released yet. Takes no memory.
    pub fn new(alloc: Global) -> Roster
        ensures { result.roll ≡ empty_roll }
    {
        Roster {
            jobs: Vec::new(alloc),
            finishes: Vec::new(alloc),
            takes: 0,
            turn: None,
            since: 0,
        }
    }

    /// How many jobs were released.
    pub fn count(&self) -> usize
        ensures is { result ≡ length self.now.roll.jobs }
        ensures few { result < 2 ^ 63 }
    {
        self.jobs.len()
    }

    /// Makes room for so many jobs, and for the early finish of each. Where there is room, it takes no memory.
    pub fn make_room(&mut self, jobs: usize) -> Result<(), Memory>
        ensures same { self.new.roll ≡ self.old.roll }
        ensures room { OnOk result ((jobs ≤ self.new.room) × (jobs ≤ self.new.finish_room)) }
        ensures enough { jobs ≤ self.old.room → jobs ≤ self.old.finish_room → IsOk result }
    {
        make_room_in(&mut self.jobs, jobs)?;
        make_room_in(&mut self.finishes, jobs)
    }

    /// Takes the next printed step into account. No memory is taken.
    pub fn read(&mut self, event: &Event)
        requires few { self.old.roll.takes < 2 ^ 64 - 1 }
        requires room { (n : ℕ) (job : JobFacts) → event.now ≡ Release n job
            → length self.old.roll.jobs < self.old.room }
        requires finish_room { (at n : ℕ) → event.now ≡ Complete at n → IsSome (finish_here self.old.roll at)
            → length self.old.roll.finishes < self.old.finish_room }
        ensures roll { self.new.roll ≡ with_event self.old.roll event.now }
        ensures room { (self.new.room ≡ self.old.room) × (self.new.finish_room ≡ self.old.finish_room) }
    {
        match *event {
            Event::Release { number, job } => self
                .jobs
                .push_reserved(ListedJob::released(number, job)),
            Event::Run { at, number } => self.start(at, number),
            Event::Preempt { at, starts, .. } => {
                self.halt(at, Role::Held);
                self.start(at, starts);
            }
            Event::Take { at, starts, .. } => {
                self.halt(at, Role::Waiting);
                self.takes += 1;
                self.start(at, starts);
            }
            Event::Complete { at, .. } => {
                let finish = self.finish_at(at);
                self.halt(at, Role::Done);
                self.keep(finish);
            }
            Event::Abandon { number, .. } => self.stop(number, 0, Role::Gone),
            Event::End { .. } => {}
        }
    }

    /// The job of this number stops after so many ticks more, in this role.
    fn stop(&mut self, number: u32, ticks: u64, role: Role)
        ensures roll { self.new.roll ≡ model.with_stop self.old.roll number ticks role }
        ensures room { (self.new.room ≡ self.old.room) × (self.new.finish_room ≡ self.old.finish_room) }
    {
        let takes = self.takes;
        if let Some(job) = self.jobs.get_mut(number as usize) {
            job.stop(ticks, role, takes);
        }
    }

    /// The job that runs stops in this role.
    fn halt(&mut self, at: u64, role: Role)
        ensures roll { self.new.roll ≡ model.halted self.old.roll at role }
        ensures room { (self.new.room ≡ self.old.room) × (self.new.finish_room ≡ self.old.finish_room) }
    {
        if let Some(number) = self.turn {
            self.stop(number, at.saturating_sub(self.since), role);
            self.turn = None;
        }
    }

    /// The job of this number runs from this tick on.
    fn start(&mut self, at: u64, number: u32)
        ensures roll { self.new.roll ≡ model.started self.old.roll at number }
        ensures room { (self.new.room ≡ self.old.room) × (self.new.finish_room ≡ self.old.finish_room) }
    {
        self.turn = Some(number);
        self.since = at;
    }

    /// The early finish of this job, which runs, if it is done at this tick with work left.
    fn finish_of(&self, at: u64, number: u32, job: &ListedJob) -> Option<ListedFinish>
        ensures { result ≡ model.finish_of self.now.roll at number job.now }
    {
        let had = had_with(at.saturating_sub(self.since), &job.task);
        (had < job.task.work()).then_some(ListedFinish {
            at,
            number,
            behind: self.jobs.len(),
        })
    }

    /// The early finish of the job that runs, if it is done at this tick with work left.
    fn finish_at(&self, at: u64) -> Option<ListedFinish>
        ensures { result ≡ model.finish_here self.now.roll at }
    {
        let number = self.turn?;
        let job = self.jobs.get(number as usize)?;
        self.finish_of(at, number, job)
    }

    /// Keeps an early finish, if there is one.
    fn keep(&mut self, finish: Option<ListedFinish>)
        requires { IsSome finish → length self.old.roll.finishes < self.old.finish_room }
        ensures roll { self.new.roll ≡ model.with_finish self.old.roll finish }
        ensures room { (self.new.room ≡ self.old.room) × (self.new.finish_room ≡ self.old.finish_room) }
    {
        if let Some(finish) = finish {
            self.finishes.push_reserved(finish);
        }
    }

    /// The early finish of this number, from 0 on, in the order in which they came. None where there are no more.
    pub fn finish(&self, number: usize) -> Option<ListedFinish>
        ensures { result ≡ slice_get self.now.roll.finishes number }
    {
        self.finishes.get(number).copied()
    }

    /// The job of this number, as it is at a tick. None where it wasn't released.
    pub fn job(&self, number: usize, clock: u64) -> Option<Task>
        ensures modest { IfSome result (λ t. t.had ≤ t.job.work) }
        ensures is { result ≡ option_map (job_at self.now.roll clock) (slice_get self.now.roll.jobs number) }
    {
        let listed = self.jobs.get(number)?;
        let task = listed.task.task();
        if self.turn == Some(task.number) {
            return Some(Task {
                number: task.number,
                job: task.job,
                role: Role::Running,
                had: had_with(clock.saturating_sub(self.since), &listed.task),
            });
        }
        let displaced = listed.is_displaced(task.role, self.takes);
        Some(Task {
            number: task.number,
            job: task.job,
            role: if displaced { Role::Waiting } else { task.role },
            had: task.had,
        })
    }
}
