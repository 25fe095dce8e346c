//! A task text that comes in pieces.
ghost use Rattle.std.specs.Prelude.{◌≡◌, ◌<◌, ◌≤◌, ◌↔◌, ◌++◌, ℕ, List, [], true, length, take, IsTrue, IfOk, IfErr};
ghost use Rattle.dover_model.specs.Feed.{Ended};
ghost use Rattle.dover_model.specs.Lines.{whole_lines};
ghost use Rattle.event_feed.specs.Answers.{short_after};
ghost use Rattle.task_words.specs.reading.Account.{account, is_open};
ghost use Rattle.task_words.specs.reading.Keeping.{IsKnown, StandsAt, TextStands, StandsFor, TakesFront};
ghost use Rattle.task_words.specs.reading.Record.{IsEnded, IsRefusedBy};
ghost use Rattle.task_words.specs.declared.reading.intake.Progress.TheVariants as progress;

use crate::reading::intake::{Progress, TaskIntake};
use crate::reading::listed::ListedTasks;
use crate::reading::text::TaskText;
use dover_model::Memory;
use event_feed::{Cause, FeedFault};
use std::alloc::Global;

/// What is kept of a task text that comes in pieces: the line that has begun, and the tasks of the lines before it.
#[derive(Drop)]
pub struct TaskReader {
    text: TaskText,
    progress: Progress,
}

/// The fault of a text whose input has ended before it.
fn short_fault(text: &TaskText) -> FeedFault
    requires { (until : ℕ) × (x : List ℕ) × TextStands until text.now x }
    ensures { (until : ℕ) (x : List ℕ) → TextStands until text.now x → result ≡ short_after (length (whole_lines x)) }
{
    FeedFault {
        line: text.intake.lines + 1,
        cause: Cause::Short,
    }
}

/// The tasks of a text whose `end` line was read.
fn listed(intake: TaskIntake) -> ListedTasks
    requires { (until : ℕ) × (x : List ℕ) × StandsAt until progress.Ended intake (account until x) }
    ensures { (until : ℕ) (x : List ℕ) → StandsAt until progress.Ended intake (account until x)
        → IsEnded until result x }
{
    let TaskIntake {
        declared,
        tasks,
        ..
    } = intake;
    match declared {
        Some(declared) => ListedTasks {
            ratio: declared.admission.ratio(),
            version: declared.version,
            tasks,
        },
        None => unreachable!(),
    }
}

impl TaskReader {
    /// Nothing was read yet. The tasks release jobs before the tick `until`.
    pub fn new(alloc: Global, until: u64) -> TaskReader
        requires { IsKnown until }
        ensures { StandsFor until result [] }
    {
        TaskReader {
            text: TaskText::new(alloc, until),
            progress: Progress::Open,
        }
    }

    /// The text goes on by a front of the piece, and how many bytes that is: those of a whole line, or one. Memory is
    /// taken for each task alone.
    ///
    /// # Errors
    ///
    /// `Memory` where there is none for a task; the reader isn't called again.
    pub fn take(&mut self, piece: &[u8]) -> Result<usize, Memory>
        requires some { 0 < length piece.now }
        requires open_still { (until : ℕ) × (x : List ℕ) × StandsFor until self.old x
            × (is_open (account until x) ≡ true) }
        ensures takes { (until : ℕ) (x : List ℕ) → StandsFor until self.old x → is_open (account until x) ≡ true →
            IfOk result (λ n. TakesFront until self.new x piece.now n) }
        ensures few { IfOk result (λ n. n ≤ 129) }
        ensures fronts { (until : ℕ) (x : List ℕ) → StandsFor until self.old x → is_open (account until x) ≡ true →
            IfOk result (λ n. (k : ℕ) → k < n → is_open (account until (x ++ take k piece.now)) ≡ true) }
    {
        let count = self.text.lines.front(piece);
        match self.text.take_front(&piece[..count]) {
            Progress::NoMemory => Err(Memory),
            progress => {
                self.progress = progress;
                Ok(count)
            }
        }
    }

    /// Whether the text goes on: no line has ended it, and none is faulty.
    pub fn goes_on(&self) -> bool
        ensures { (until : ℕ) (x : List ℕ) → StandsFor until self.now x → result ≡ is_open (account until x) }
    {
        matches!(self.progress, Progress::Open)
    }

    /// Whether the text has ended without a fault.
    pub fn has_ended(&self) -> bool
        ensures { (until : ℕ) (x : List ℕ) → StandsFor until self.now x →
            IsTrue result ↔ ((account until x).standing ≡ Ended) }
    {
        matches!(self.progress, Progress::Ended)
    }

    /// The tasks of a text whose `end` line was read.
    ///
    /// # Errors
    ///
    /// The fault of the first faulty line, which names the earlier task that breaks the ratio with it, by its number
    /// from 0 on, or that the text is short.
    pub fn close(self) -> Result<ListedTasks, FeedFault>
        requires { (until : ℕ) × (x : List ℕ) × StandsFor until self x }
        ensures tasks { (until : ℕ) (x : List ℕ) → StandsFor until self x → IfOk result
            (λ listed. IsEnded until listed x) }
        ensures fault { (until : ℕ) (x : List ℕ) → StandsFor until self x → IfErr result
            (λ fault. IsRefusedBy until fault x) }
    {
        match self.progress {
            Progress::Open => Err(short_fault(&self.text)),
            Progress::Ended => Ok(listed(self.text.intake)),
            Progress::Refused(cause) => Err(FeedFault {
                line: self.text.intake.lines,
                cause,
            }),
            Progress::NoMemory => unreachable!(),
        }
    }
}
