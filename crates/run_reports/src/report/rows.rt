//! The table of jobs, row by row.
ghost use Rattle.std.specs.Prelude.{◌≡◌, ◌≤◌, ◌+◌, ◌++◌, ◌∷◌, [], length, map, IfOk, decimal};
ghost use Rattle.dover_model.specs.Common.{Instance, job_numbers, in_lines, Fraction, table};
ghost use Rattle.run_record.specs.intervals.Rows.{IsRunOf};
ghost use Rattle.line_text.specs.Writing.{most_written};
ghost use Rattle.run_reports.specs.report.Courses.{starts_fields};
ghost use Rattle.run_reports.specs.report.Rows.{after_commas, ending_fields, had_fields, names_line, row_text};
ghost use Rattle.run_reports.specs.report.Rows.{FindsNext, GivesRow, schedule_table};

use crate::report::counts::releases;
use crate::report::courses::{Course, course_at, courses_of};
use crate::report::early::{had_at, served_where};
use crate::report::endings::Ending;
use dover_model::{Event, Job, Memory, PackedEvent, Version};
use line_text::BackLine;
use std::alloc::Global;
use std::marker::Model;

/// The table of a run: the row of names, and the rows of its jobs that are not yet given.
#[derive(Drop)]
pub struct TableRows {
    run: Vec<PackedEvent>,
    early: bool,
    served: Vec<u64>,
    courses: Vec<Course>,
    // How many steps are behind, and how many jobs they release.
    next: usize,
    number: usize,
}

impl Model for TableRows {
    ghost use Rattle.std.specs.Prelude.{◌≤◌, length};
    ghost use Rattle.run_reports.specs.report.Rows.{Table, rows_left};

    ghost Value = { Table };

    ghost view = { λ t. rows_left t.run.items t.early t.served.items t.courses.items t.next
        t.number };

    ghost invariant = { λ t.
        (t.number ≤ t.next) × (t.next ≤ length t.run.items) × (length t.run.items ≤ 5_000_001) };
}

impl TableRows {
    /// All rows of the table of the run of this version that prints these steps. A row tells when the job first had the
    /// processor and how often it got it, and the ticks that it had where jobs may finish early. The jobs of the run
    /// are valid for some ratio, and within the limits of version Two. Want of memory is the only error, and no call
    /// takes memory after this one.
    pub fn of(alloc: Global, version: Version, run: Vec<PackedEvent>) -> Result<TableRows, Memory>
        requires { (k : Fraction) × ((J : Instance) × IsRunOf k run.items J) }
        ensures { (k : Fraction) (J : Instance) → IsRunOf k run.items J → J.rules.version ≡ version
            → IfOk result (λ t. t.names ++ in_lines t.rows ≡ table J) }
    {
        let early = version.may_finish_early();
        let served = served_where(alloc, early, &run)?;
        let courses = courses_of(alloc, &run, releases(&run))?;
        Ok(TableRows {
            run,
            early,
            served,
            courses,
            next: 0,
            number: 0,
        })
    }

    /// All rows of the table of a schedule with these steps, whichever policy made it, of which there are no more than
    /// 1,000,000 jobs make. A row tells when the job first had the processor and how often it got it. Want of memory is
    /// the only error, and no call takes memory after this one.
    pub fn of_schedule(alloc: Global, run: Vec<PackedEvent>) -> Result<TableRows, Memory>
        requires { length run.items ≤ 5_000_001 }
        ensures { IfOk result (λ t. t.names ++ in_lines t.rows ≡ schedule_table run.items) }
    {
        let courses = courses_of(alloc, &run, releases(&run))?;
        Ok(TableRows {
            run,
            early: false,
            served: Vec::new(alloc),
            courses,
            next: 0,
            number: 0,
        })
    }

    /// The row of names with its line feed.
    pub fn names(&self) -> &'static [u8]
        ensures is { result.now ≡ self.now.names }
        ensures fits { length result.now ≤ 60 }
    {
        names_line(self.early)
    }

    /// Whether there is a next row, which `line` then holds with its line feed, whatever it held before. Where there is
    /// none, all stays as it is.
    #[inline(always)]
    pub fn next_row(&mut self, line: &mut BackLine) -> bool
        ensures { GivesRow self.old self.new line.old line.new result }
    {
        let Some((next, job)) = next_release(&self.run, self.next) else {
            return false;
        };
        let had = had_at(self.early, &self.served, self.number);
        let course = course_at(&self.courses, self.number);
        line.clear();
        write_row(line, self.number as u64, &job, had, &course);
        self.next = next;
        self.number += 1;
        true
    }
}

/// The names of the fields, by whether the ticks that a job had are among them.
fn names_line(early: bool) -> &'static [u8]
    ensures is { result.now ≡ names_line early }
    ensures fits { length result.now ≤ 60 }
{
    if early {
        return b"job,release,work,deadline,value,fate,tick,had,start,runs\n";
    }
    b"job,release,work,deadline,value,fate,tick,start,runs\n"
}

/// The job that is released next, where so many steps are behind, and how many steps are behind after its release.
#[inline(always)]
fn next_release(run: &[PackedEvent], next: usize) -> Option<(usize, Job)>
    requires { next ≤ length run.now }
    ensures { FindsNext run.now next result }
{
    for place in next..run.len() {
        if let Event::Release { job, .. } = run[place].event() {
            return Some((place + 1, job));
        }
    }
    None
}

/// Writes the row of a job before a line feed, with the ticks that it had, if these are told, and its course.
#[inline(always)]
fn write_row(line: &mut BackLine, number: u64, job: &Job, had: Option<u64>, course: &Course)
    requires empty { line.old ≡ 10 ∷ [] }
    requires few { number ≤ 5_000_001 }
    ensures text { line.new ≡ row_text number job.now had course.now ++ 10 ∷ [] }
    ensures fits { length line.new ≤ 168 }
{
    write_starts(line, course);
    write_had(line, had);
    write_ending(line, course.ending);
    write_job(line, job);
    line.put_number(number);
}

/// Writes a number and a comma before it.
#[inline(always)]
fn write_field(line: &mut BackLine, number: u64)
    requires { length (decimal number) + length line.old + 1 ≤ most_written }
    ensures is { line.new ≡ 44 ∷ decimal number ++ line.old }
    ensures size { length line.new ≡ length (decimal number) + length line.old + 1 }
{
    line.put_number(number);
    line.put_word(b",");
}

/// Writes when a job first had the processor behind a comma, which is nothing where it never did, and how often it got
/// it behind another.
#[inline(always)]
fn write_starts(line: &mut BackLine, course: &Course)
    requires { 42 + length line.old ≤ most_written }
    ensures is { line.new ≡ after_commas (starts_fields course.now) ++ line.old }
    ensures fits { length line.new ≤ 42 + length line.old }
{
    write_field(line, course.count);
    match course.first {
        None => line.put_word(b","),
        Some(at) => write_field(line, at),
    }
}

/// Writes the ticks that a job had behind a comma, if these are told.
#[inline(always)]
fn write_had(line: &mut BackLine, had: Option<u64>)
    requires { 21 + length line.old ≤ most_written }
    ensures is { line.new ≡ after_commas (had_fields had) ++ line.old }
    ensures fits { length line.new ≤ 21 + length line.old }
{
    if let Some(had) = had {
        write_field(line, had);
    }
}

/// Writes the fields of an ending, each behind a comma.
#[inline(always)]
fn write_ending(line: &mut BackLine, ending: Option<Ending>)
    requires { 30 + length line.old ≤ most_written }
    ensures is { line.new ≡ after_commas (ending_fields ending) ++ line.old }
    ensures fits { length line.new ≤ 30 + length line.old }
{
    match ending {
        None => {}
        Some(Ending::Completed(at)) => {
            line.put_number(at);
            line.put_word(b",complete,");
        }
        Some(Ending::Abandoned(at)) => {
            line.put_number(at);
            line.put_word(b",abandon,");
        }
    }
}

/// Writes the numbers of a job, each behind a comma.
#[inline(always)]
fn write_job(line: &mut BackLine, job: &Job)
    requires { 61 + length line.old ≤ most_written }
    ensures is { line.new ≡ after_commas (map decimal (job_numbers job.now)) ++ line.old }
    ensures fits { length line.new ≤ 61 + length line.old }
{
    write_field(line, job.value());
    write_field(line, job.deadline());
    write_field(line, job.work());
    write_field(line, job.release());
}
