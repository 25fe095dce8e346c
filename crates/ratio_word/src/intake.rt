//! What is kept of a text between its lines.
ghost use Rattle.std.specs.Prelude.{◌≡◌, ◌<◌, ◌+◌, ℕ, List, ◌∷◌, ◌++◌, [], option_map, None, IsSome};
ghost use Rattle.dover_model.specs.Common.{Declaration as Rules, JobFacts, IsJob, job_of_numbers, most_jobs};
ghost use Rattle.dover_model.specs.Feed.{rules_with};
ghost use Rattle.dover_model.specs.Feed as feed;
ghost use Rattle.dover_model.specs.declared.events.Version.TheVariants.{Three};
ghost use Rattle.ratio_word.specs.Account.{TextAccount, account_of_lines, cause_of, with_line};
ghost use Rattle.ratio_word.specs.Keeping.{Declares, KeepsAccount, KeepsDeclared, StandsAt, Takes, offer_cause};
ghost use Rattle.ratio_word.specs.Keeping.{with_offer};
ghost use Rattle.ratio_word.specs.Lines.{IsShort};
ghost use Rattle.ratio_word.specs.declared.lines.TextLine.{TextLine};
ghost use Rattle.event_feed.specs.declared.faults.Cause.TheVariants as cause;
ghost use Rattle.ratio_word.specs.declared.lines.TextLine.TheVariants as line;
ghost use Rattle.task_words.specs.declared.reading.lines.TaskLine.TheVariants as plain;
ghost use Rattle.ratio_word.specs.declared.intake.Progress.TheVariants as progress;

use crate::line_reading::read_text_line;
use crate::lines::TextLine;
use admission::{Extremes, Numbered};
use dover_model::{Job, Ratio, Version};
use event_feed::{Cause, declared, declared_with_factor};
use task_words::reading::TaskLine;
use task_words::tasks::PeriodicTask;

/// How many lines a text may have, as many as a feed of version Three.
const MOST_LINES: u64 = 16_000_000_000;

/// How many jobs it may have, and tasks.
const MOST_JOBS: u32 = 4_000_000_000;

/// How a text stands after a line.
#[derive(Clone, Copy)]
pub(crate) enum Progress {
    /// It goes on.
    Open,
    /// Its `end` line was read.
    Ended,
    /// The line is faulty.
    Refused(Cause),
}

/// The declared ratio and version, and of the jobs so far how many they are, the least dense and the densest.
#[derive(Clone, Copy)]
pub(crate) struct Declaration {
    pub(crate) ratio: Ratio,
    pub(crate) version: Version,
    pub(crate) count: u32,
    pub(crate) extremes: Option<Extremes>,
}

impl Declaration {
    /// Takes a job in behind the others.
    fn keep(&mut self, job: Job)
        requires room { self.old.count < most_jobs Three }
        requires job { IsJob job }
        ensures { (rules : Rules) (jobs : List JobFacts) → KeepsDeclared self.old rules jobs →
            KeepsDeclared self.new rules (jobs ++ job ∷ []) }
    {
        let next = Numbered {
            number: self.count,
            job,
        };
        match &mut self.extremes {
            Some(extremes) => extremes.add(&self.ratio, &next),
            None => self.extremes = Some(Extremes::of(&self.ratio, next)),
        }
        self.count += 1;
    }

    /// Takes the job of these numbers in behind the others, or says why it can't be: the first cause that holds.
    fn take(&mut self, release: u64, work: u64, deadline: u64, value: u64) -> Result<(), Cause>
        ensures { (rules : Rules) (jobs : List JobFacts) → KeepsDeclared self.old rules jobs →
            Takes (job_of_numbers release work deadline value) rules jobs self.new result }
    {
        let Some(job) = Job::new(release, work, deadline, value) else {
            return Err(Cause::BadJob);
        };
        if deadline > self.version.last_tick() {
            return Err(Cause::BadJob);
        }
        if self.count >= MOST_JOBS {
            return Err(Cause::Count);
        }
        self.keep(job);
        Ok(())
    }
}

/// What is kept of a text: how many lines came, and what they declared and offered.
#[derive(Clone, Copy)]
pub(crate) struct Intake {
    pub(crate) lines: u64,
    pub(crate) declared: Option<Declaration>,
}

impl Intake {
    /// No line came yet.
    pub(crate) fn new() -> Intake
        ensures { StandsAt progress.Open result (account_of_lines []) }
    {
        Intake {
            lines: 0,
            declared: None,
        }
    }

    /// A line that declares these rules, or nothing, and is counted.
    fn declare(&mut self, rules: Option<(Ratio, Version)>) -> Progress
        ensures { (read : TextLine) (a : TextAccount) →
            Declares read (option_map (λ declared. rules_with declared.0 declared.1) rules) →
            a.standing ≡ feed.Open → KeepsAccount self.old a →
            StandsAt result self.new (with_line a read (cause_of a read)) }
    {
        if self.declared.is_some() {
            return Progress::Refused(Cause::Declared);
        }
        match rules {
            Some((ratio, version)) => {
                self.declared = Some(Declaration {
                    ratio,
                    version,
                    count: 0,
                    extremes: None,
                });
                Progress::Open
            }
            None => Progress::Refused(Cause::Declared),
        }
    }

    /// A line that offers the job of these numbers, and is counted.
    fn offer(&mut self, release: u64, work: u64, deadline: u64, value: u64) -> Progress
        ensures { (a : TextAccount) → a.standing ≡ feed.Open → KeepsAccount self.old a →
            StandsAt result self.new (with_offer a (job_of_numbers release work deadline value)
            (offer_cause a (job_of_numbers release work deadline value))) }
    {
        match &mut self.declared {
            None => Progress::Refused(Cause::Declared),
            Some(declared) => match declared.take(release, work, deadline, value) {
                Ok(()) => Progress::Open,
                Err(cause) => Progress::Refused(cause),
            },
        }
    }

    /// The line of a task, which is counted.
    fn task(&mut self, task: &PeriodicTask) -> Progress
        requires { IsShort (line.Plain (plain.Task task.now)) }
        ensures { (a : TextAccount) → a.standing ≡ feed.Open → KeepsAccount self.old a →
            StandsAt result self.new (with_line a (line.Plain (plain.Task task.now))
            (cause_of a (line.Plain (plain.Task task.now)))) }
    {
        if task.period == 0 {
            return self.pass(Progress::Refused(Cause::BadJob));
        }
        self.offer(
            task.offset,
            task.work,
            task.offset + task.deadline,
            task.value,
        )
    }

    /// A line that offers nothing and declares nothing, which is counted. The text then stands so, if it may go on.
    fn pass(&self, then: Progress) -> Progress
        ensures none { self.now.declared ≡ None → result ≡ progress.Refused cause.Declared }
        ensures some { IsSome self.now.declared → result ≡ then }
    {
        if self.declared.is_none() {
            return Progress::Refused(Cause::Declared);
        }
        then
    }

    /// A line that a task text may have, which is counted.
    fn take_plain(&mut self, read: TaskLine) -> Progress
        requires { IsShort (line.Plain read) }
        ensures { (a : TextAccount) → a.standing ≡ feed.Open → KeepsAccount self.old a →
            StandsAt result self.new (with_line a (line.Plain read) (cause_of a (line.Plain read))) }
    {
        match read {
            TaskLine::Declared { p, q, version } => self.declare(declared(p, q, version)),
            TaskLine::Factored {
                p,
                q,
                version,
                b,
                c,
            } => self.declare(declared_with_factor(p, q, version, b, c)),
            TaskLine::Task(task) => self.task(&task),
            TaskLine::End => self.pass(Progress::Ended),
        }
    }

    /// A line that has one of the forms, which is counted.
    fn take(&mut self, read: TextLine) -> Progress
        requires { IsShort read }
        ensures { (a : TextAccount) → a.standing ≡ feed.Open → KeepsAccount self.old a →
            StandsAt result self.new (with_line a read (cause_of a read)) }
    {
        match read {
            TextLine::Plain(read) => self.take_plain(read),
            TextLine::Job {
                release,
                work,
                deadline,
                value,
            } => self.offer(release, work, deadline, value),
            TextLine::Mark => self.pass(Progress::Open),
        }
    }

    /// Takes a line of the text.
    pub(crate) fn take_line(&mut self, line: &[u8]) -> Progress
        requires { (ls : List (List ℕ)) × StandsAt progress.Open self.old (account_of_lines ls) }
        ensures { (ls : List (List ℕ)) → StandsAt progress.Open self.old (account_of_lines ls) →
            StandsAt result self.new (account_of_lines (ls ++ line.now ∷ [])) }
    {
        self.lines += 1;
        if self.lines > MOST_LINES {
            return Progress::Refused(Cause::Lines);
        }
        match read_text_line(line) {
            Some(read) => self.take(read),
            None => Progress::Refused(Cause::Line),
        }
    }
}
