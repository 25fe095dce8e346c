//! What is kept of a task text between its lines.
ghost use Rattle.std.specs.Prelude.{◌≡◌, ℕ, List, ◌∷◌, ◌++◌, [], Option, Some, IfErr, option_map, is_some, false};
ghost use Rattle.dover_model.specs.Common.{Declaration as Rules, rules_with};
ghost use Rattle.dover_model.specs.Feed as feed;
ghost use Rattle.task_words.specs.declared.tasks.task.PeriodicTask.{PeriodicTask};
ghost use Rattle.task_words.specs.reading.Account.{TaskAccount, account_of_lines, cause_of, with_line};
ghost use Rattle.task_words.specs.reading.Keeping.{Declares, IsKnown, Keeps, KeepsAccount, KeepsDeclared, KeepsRules};
ghost use Rattle.task_words.specs.reading.Keeping.{StandsAt, Takes};
ghost use Rattle.task_words.specs.reading.Faults.{NamesOther, NamesAt};
ghost use Rattle.task_words.specs.reading.Lines.{HasNumerals, task_line};
ghost use Rattle.task_words.specs.declared.reading.lines.TaskLine.{TaskLine};
ghost use Rattle.task_words.specs.declared.reading.intake.Progress.TheVariants as progress;
ghost use Rattle.task_words.specs.declared.reading.lines.TaskLine.TheVariants as line;

use crate::reading::line_reading::read_task_line;
use crate::reading::lines::TaskLine;
use crate::tasks::PeriodicTask;
use admission::Admission;
use dover_model::{Ratio, Version};
use event_feed::{Cause, declared, declared_with_factor};
use std::alloc::Global;

/// How many lines a task text may have, as many as a feed of version Two.
const MOST_LINES: u64 = 4_000_000;

/// How a task text stands after a line.
#[derive(Clone, Copy)]
pub(crate) enum Progress {
    /// It goes on.
    Open,
    /// Its `end` line was read.
    Ended,
    /// The line is faulty.
    Refused(Cause),
    /// There was no memory for a task.
    NoMemory,
}

/// The version, and of the ratio and the tasks so far what the next one needs: whatever the version is, with the limits
/// of version Two.
#[derive(Drop)]
pub(crate) struct Declaration {
    pub(crate) version: Version,
    pub(crate) admission: Admission,
}

impl Declaration {
    /// Takes a task in behind the others, or says why it can't be: the first cause that holds.
    fn take(&mut self, task: &PeriodicTask, until: u64) -> Result<(), Cause>
        requires known { IsKnown until }
        requires short { HasNumerals (line.Task task.now) }
        ensures takes { (rules : Rules) (tasks : List PeriodicTask) → KeepsDeclared until self.old rules tasks →
            Takes until task.now (Some rules) tasks (Some self.new) result }
        ensures names { (rules : Rules) (tasks : List PeriodicTask) → KeepsDeclared until self.old rules tasks →
            IfErr result (λ cause. NamesOther until (Some (line.Task task.now)) (Some rules) tasks cause) }
    {
        if task.period == 0 {
            return Err(Cause::BadJob);
        }
        let release = task.last_release(until);
        match self
            .admission
            .check(release, task.work, release + task.deadline, task.value)
        {
            Ok(job) => {
                self.admission.admit(job);
                Ok(())
            }
            Err(refused) => Err(Cause::of(refused)),
        }
    }
}

/// Takes a task in behind the others, or says why it can't be: before the ratio is declared no task can.
fn take_in(declared: &mut Option<Declaration>, task: &PeriodicTask, until: u64) -> Result<(), Cause>
    requires known { IsKnown until }
    requires short { HasNumerals (line.Task task.now) }
    ensures takes { (rules : Option Rules) (tasks : List PeriodicTask) → KeepsRules until declared.old rules tasks →
        Takes until task.now rules tasks declared.new result }
    ensures names { (rules : Option Rules) (tasks : List PeriodicTask) → KeepsRules until declared.old rules tasks →
        IfErr result (λ cause. NamesOther until (Some (line.Task task.now)) rules tasks cause) }
{
    match declared {
        Some(declared) => declared.take(task, until),
        None => Err(Cause::Declared),
    }
}

/// What is kept of a task text: up to which tick jobs are released, how many lines came, what the first one declared,
/// and the tasks.
#[derive(Drop)]
pub(crate) struct TaskIntake {
    pub(crate) until: u64,
    pub(crate) lines: u64,
    pub(crate) declared: Option<Declaration>,
    pub(crate) tasks: Vec<PeriodicTask>,
}

impl TaskIntake {
    /// No line came yet.
    pub(crate) fn new(alloc: Global, until: u64) -> TaskIntake
        requires { IsKnown until }
        ensures { Keeps until result [] }
    {
        TaskIntake {
            until,
            lines: 0,
            declared: None,
            tasks: Vec::new(alloc),
        }
    }

    /// A line that declares these rules, the first one, and is counted.
    fn begin(&mut self, declared: (Ratio, Version))
        requires { is_some self.old.declared ≡ false }
        ensures stands { (until : ℕ) (read : TaskLine) (a : TaskAccount) →
            Declares read (Some (rules_with declared.0 declared.1)) →
            a.standing ≡ feed.Open → KeepsAccount until self.old a →
            StandsAt until progress.Open self.new (with_line a read (cause_of until a read)) }
        ensures lines { self.new.lines ≡ self.old.lines }
    {
        let (ratio, version) = declared;
        self.declared = Some(Declaration {
            version,
            admission: Admission::new(Version::Two, ratio),
        });
    }

    /// A line that declares these rules, or nothing, and is counted.
    fn declare(&mut self, rules: Option<(Ratio, Version)>) -> Progress
        ensures stands { (until : ℕ) (read : TaskLine) (a : TaskAccount) →
            Declares read (option_map (λ declared. rules_with declared.0 declared.1) rules) →
            a.standing ≡ feed.Open → KeepsAccount until self.old a →
            StandsAt until result self.new (with_line a read (cause_of until a read)) }
        ensures names { (until : ℕ) (line : Option TaskLine) (a : TaskAccount) → NamesAt until line a result }
        ensures lines { self.new.lines ≡ self.old.lines }
    {
        if self.declared.is_some() {
            return Progress::Refused(Cause::Declared);
        }
        match rules {
            Some(declared) => {
                self.begin(declared);
                Progress::Open
            }
            None => Progress::Refused(Cause::Declared),
        }
    }

    /// The line of a task, which is counted.
    fn add(&mut self, task: PeriodicTask) -> Progress
        requires known { IsKnown self.old.until }
        requires short { HasNumerals (line.Task task) }
        ensures stands { (until : ℕ) (a : TaskAccount) → a.standing ≡ feed.Open → KeepsAccount until self.old a →
            StandsAt until result self.new (with_line a (line.Task task) (cause_of until a (line.Task task))) }
        ensures names { (until : ℕ) (a : TaskAccount) → KeepsAccount until self.old a →
            NamesAt until (Some (line.Task task)) a result }
        ensures lines { self.new.lines ≡ self.old.lines }
    {
        match take_in(&mut self.declared, &task, self.until) {
            Ok(()) => {}
            Err(cause) => return Progress::Refused(cause),
        }
        match self.tasks.push(task) {
            Ok(()) => Progress::Open,
            Err(_) => Progress::NoMemory,
        }
    }

    /// The line of the end, which is counted.
    fn end(&self) -> Progress
        ensures stands { (until : ℕ) (a : TaskAccount) → a.standing ≡ feed.Open → KeepsAccount until self.now a →
            StandsAt until result self.now (with_line a line.End (cause_of until a line.End)) }
        ensures names { (until : ℕ) (line : Option TaskLine) (a : TaskAccount) → NamesAt until line a result }
    {
        if self.declared.is_none() {
            return Progress::Refused(Cause::Declared);
        }
        Progress::Ended
    }

    /// A line that has one of the forms, which is counted.
    fn take(&mut self, read: TaskLine) -> Progress
        requires known { IsKnown self.old.until }
        requires short { HasNumerals read }
        ensures stands { (until : ℕ) (a : TaskAccount) → a.standing ≡ feed.Open → KeepsAccount until self.old a →
            StandsAt until result self.new (with_line a read (cause_of until a read)) }
        ensures names { (until : ℕ) (a : TaskAccount) → KeepsAccount until self.old a →
            NamesAt until (Some read) a result }
        ensures lines { self.new.lines ≡ self.old.lines }
    {
        match read {
            TaskLine::Declared { p, q, version } => self.declare(declared(p, q, version)),
            TaskLine::Factored {
                p,
                q,
                version,
                b,
                c,
            } => self.declare(declared_with_factor(p, q, version, b, c)),
            TaskLine::Task(task) => self.add(task),
            TaskLine::End => self.end(),
        }
    }

    /// Takes a line of the text.
    pub(crate) fn take_line(&mut self, line: &[u8]) -> Progress
        requires { (until : ℕ) × (ls : List (List ℕ)) × Keeps until self.old ls }
        ensures stands { (until : ℕ) (ls : List (List ℕ)) → Keeps until self.old ls →
            StandsAt until result self.new (account_of_lines until (ls ++ line.now ∷ [])) }
        ensures keeps { (until : ℕ) (ls : List (List ℕ)) → Keeps until self.old ls → result ≡ progress.Open →
            Keeps until self.new (ls ++ line.now ∷ []) }
        ensures names { (until : ℕ) (ls : List (List ℕ)) → Keeps until self.old ls →
            NamesAt until (task_line line.now) (account_of_lines until ls) result }
    {
        self.lines += 1;
        if self.lines > MOST_LINES {
            return Progress::Refused(Cause::Lines);
        }
        match read_task_line(line) {
            Ok(read) => self.take(read),
            Err(_) => Progress::Refused(Cause::Line),
        }
    }
}
