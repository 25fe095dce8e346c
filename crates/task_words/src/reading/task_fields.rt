//! A task from the fields of its line.
ghost use Rattle.std.specs.Prelude.{◌≡◌, ◌≢◌, ℕ, List, length, take, drop, Some, None, IfSome, IfNone};
ghost use Rattle.dover_model.specs.Common.{numerals};
ghost use Rattle.line_text.specs.Reading.{fields_left};
ghost use Rattle.task_words.specs.declared.reading.lines.TaskLine.TheVariants.{Task};
ghost use Rattle.task_words.specs.reading.Lines as model;

use crate::reading::lines::TaskLine;
use crate::tasks::{PeriodicTask, TaskName};
use line_text::{cut_field, first_number};

/// How many numbers a task has.
const TASK_NUMBERS: usize = 5;

/// Reads the numbers of the first five fields, and answers what is left behind them. None where they aren't numbers.
fn five_numbers<'a>(
    fields: Option<&'a [u8]>,
    numbers: &mut [u64; TASK_NUMBERS],
) -> Option<Option<&'a [u8]>>
    ensures read { IfSome result (λ left. numerals (take 5 (fields_left fields.entry)) ≡ Some numbers.new) }
    ensures left { IfSome result (λ left. drop 5 (fields_left fields.entry) ≡ fields_left left) }
    ensures none { IfNone result ((ns : List ℕ) → numerals (take 5 (fields_left fields.entry)) ≡ Some ns →
        length ns ≢ 5) }
{
    let mut left = fields;
    for at in 0..TASK_NUMBERS {
        let Some(text) = left else {
            return None;
        };
        let Some((number, rest)) = first_number(text) else {
            return None;
        };
        numbers[at] = number;
        left = rest;
    }
    Some(left)
}

/// The name that stands behind a task's numbers, or none where nothing does.
fn name_left(fields: Option<&[u8]>) -> Option<TaskName>
    ensures { result ≡ model.name_of (fields_left fields.entry) }
{
    let Some(text) = fields else {
        return Some(TaskName::none());
    };
    match cut_field(text) {
        (name, None) => TaskName::of(name),
        (_, Some(_)) => None,
    }
}

/// The task of a name and five numbers.
fn task_of_numbers(name: TaskName, numbers: &[u64; TASK_NUMBERS]) -> PeriodicTask
    ensures { model.task_numbers_line name numbers.now ≡ Some (Task result) }
{
    PeriodicTask {
        offset: numbers[0],
        period: numbers[1],
        work: numbers[2],
        deadline: numbers[3],
        value: numbers[4],
        name,
    }
}

/// The task of these fields: five numbers, and perhaps a name.
pub(crate) fn task_of_fields(fields: Option<&[u8]>) -> Option<TaskLine>
    ensures { result ≡ model.task_of_fields (fields_left fields.entry) }
{
    let mut numbers = [0; TASK_NUMBERS];
    let Some(left) = five_numbers(fields, &mut numbers) else {
        return None;
    };
    let Some(name) = name_left(left) else {
        return None;
    };
    Some(TaskLine::Task(task_of_numbers(name, &numbers)))
}
