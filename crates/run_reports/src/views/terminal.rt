//! A picture of a run for a terminal.
ghost use Rattle.std.specs.Prelude.{◌≡◌, ◌≤◌, ◌<◌, ◌*◌, ◌^◌, ◌++◌, [], ℕ, List, length, map, OnOk, IfOk, codes};
ghost use Rattle.std.specs.Prelude.{if◌then◌else◌, slice_index_or};
ghost use Rattle.run_record.specs.intervals.Rows.{IsRunOf};
ghost use Rattle.dover_model.specs.declared.events.Event.{Event};
ghost use Rattle.dover_model.specs.Instance.{Instance};
ghost use Rattle.run_reports.specs.report.Counts.{counts_lines};
ghost use Rattle.run_reports.specs.report.Courses.{course_in, ending_in, unseen};
ghost use Rattle.run_reports.specs.views.Book.{Keeps};
ghost use Rattle.run_reports.specs.views.Stays.{stays_of};
ghost use Rattle.run_reports.specs.views.Timeline as picture;

use crate::report::endings::Ending;
use crate::report::{Counts, Course, Fates, count, courses_of, fates_of, released};
use crate::views::signs::{put_blanks, put_signs};
use crate::views::stays::{Stay, Stays};
use crate::views::template::{put, put_wide};
use crate::views::window::Window;
use dover_model::jobs::last_deadline;
use dover_model::{Job, Memory, PackedEvent, Ratio};
use itoa::Buffer;
use run_record::intervals::Charge;
use std::alloc::Global;

/// The run that prints these steps as a picture for a terminal, in the ticks of the window, or in all up to the last
/// deadline: its summary, a ruler, and for each job that has a tick in the window a line of at most 80 bytes, with
/// its number, a sign for each of at most 60 columns, and its value. The jobs of the run are valid for the ratio
/// `k`, and within the limits of version Two. Want of memory is the only error.
pub fn timeline(
    alloc: Global,
    k: Ratio,
    run: &[PackedEvent],
    window: Option<Window>,
) -> Result<Vec<u8>, Memory>
    requires { (J : Instance) × IsRunOf k run.now J }
    ensures { (J : Instance) → IsRunOf k run.now J →
        IfOk result (λ written. written.items ≡ picture.timeline window J) }
{
    grouped_timeline(alloc, k, run, window, &[], &[])
}

/// The same picture with the jobs in groups, which are given by number for each job: the label of each group, and below
/// it the lines of its jobs. Without labels there are no groups.
pub fn grouped_timeline(
    alloc: Global,
    k: Ratio,
    run: &[PackedEvent],
    window: Option<Window>,
    of: &[usize],
    labels: &[Vec<u8>],
) -> Result<Vec<u8>, Memory>
    requires { (J : Instance) × IsRunOf k run.now J }
    ensures { (J : Instance) → IsRunOf k run.now J → IfOk result (λ written. written.items
        ≡ picture.grouped_timeline window of.now (map (λ label. label.items) labels.now) J) }
{
    let charge = Charge::of(alloc, k, run)?;
    let jobs = released(alloc, run)?;
    let window = window_or(window, &jobs);
    let mut text = Vec::new(alloc);
    put_summary(&mut text, count(k, &charge))?;
    put_frame(&mut text, &window)?;
    put_lines(alloc, &mut text, &window, run, &jobs, of, labels)?;
    Ok(text)
}

/// The schedule with these steps as a picture for a terminal, whichever policy made it, in the ticks of the window, or
/// in all up to the last deadline: what it comes to, and behind that the ruler and the lines of a run's picture. Want
/// of memory is the only error.
pub fn schedule_timeline(
    alloc: Global,
    run: &[PackedEvent],
    window: Option<Window>,
) -> Result<Vec<u8>, Memory>
    requires { length run.now ≤ 5_000_001 }
    ensures { IfOk result (λ written. written.items ≡ picture.schedule_timeline window run.now) }
{
    let jobs = released(alloc, run)?;
    let window = window_or(window, &jobs);
    let mut text = Vec::new(alloc);
    put_fates(&mut text, fates_of(&jobs, run))?;
    put_frame(&mut text, &window)?;
    put_jobs(alloc, &mut text, &window, run, &jobs)?;
    Ok(text)
}

/// Appends what a schedule comes to.
fn put_fates(text: &mut Vec<u8>, fates: Fates) -> Result<(), Memory>
    ensures { OnOk result (text.new.items ≡ text.old.items ++ picture.fates_line fates) }
{
    put(
        text,
        b"jobs @, completed @ @, abandoned @ @, taken @\n",
        &[
            fates.jobs,
            fates.completed,
            fates.value,
            fates.abandoned,
            fates.lost,
            fates.taken,
        ],
    )
}

/// The window that is asked for, or the ticks up to the last deadline.
fn window_or(window: Option<Window>, jobs: &[Job]) -> Window
    ensures { result ≡ picture.window_or window jobs.now }
{
    match window {
        Some(window) => window,
        None => Window {
            from: 0,
            until: last_deadline(jobs).max(1),
        },
    }
}

/// Appends the lines of a summary, as one.
fn put_summary(text: &mut Vec<u8>, counts: Counts) -> Result<(), Memory>
    ensures { OnOk result (text.new.items ≡ text.old.items ++ picture.summed_up (counts_lines counts)) }
{
    put(
        text,
        b"jobs @, completed @ @, abandoned @ @, taken @, bound ",
        &[
            counts.jobs,
            counts.completed,
            counts.value,
            counts.abandoned,
            counts.lost,
            counts.taken,
        ],
    )?;
    put_wide(text, counts.bound)?;
    text.extend_from_slice(b"\n")?;
    Ok(())
}

/// Appends the ticks of a column, and the ruler: the first tick of each 20th column, above it.
fn put_frame(text: &mut Vec<u8>, window: &Window) -> Result<(), Memory>
    ensures { OnOk result (text.new.items ≡ text.old.items ++ picture.frame window.now) }
{
    let last = window.column_of(window.until.saturating_sub(1));
    put(
        text,
        b"       ticks of a column: @\n       ",
        &[window.column_ticks()],
    )?;
    put_labels(text, window, last / 20)?;
    text.extend_from_slice(b"\n")?;
    Ok(())
}

/// Appends the first ticks of so many columns from the first on, each the 20th behind the one before it, and then the
/// last one's.
fn put_labels(text: &mut Vec<u8>, window: &Window, more: u64) -> Result<(), Memory>
    requires { 20 * more < 2 ^ 64 }
    ensures { OnOk result (text.new.items ≡ text.old.items ++ picture.labels_from window.now more 0) }
{
    for index in 0..more {
        put_padded(text, window.first_tick(20 * index))?;
    }
    put_wide(text, window.first_tick(20 * more))
}

/// Appends the number, with blanks behind it to 20 places.
fn put_padded(text: &mut Vec<u8>, number: u128) -> Result<(), Memory>
    ensures { OnOk result (text.new.items ≡ text.old.items ++ picture.padded number) }
{
    let mut buffer = Buffer::new();
    let digits = buffer.format(number).as_bytes();
    text.extend_from_slice(digits)?;
    put_blanks(text, 20u64.saturating_sub(digits.len() as u64))
}

/// Appends the lines of the jobs that meet the window, or where there are labels, those of each group below its own.
fn put_lines(
    alloc: Global,
    text: &mut Vec<u8>,
    window: &Window,
    run: &[PackedEvent],
    jobs: &[Job],
    of: &[usize],
    labels: &[Vec<u8>],
) -> Result<(), Memory>
    ensures { OnOk result (text.new.items ≡ text.old.items
        ++ picture.all_lines window.now run.now of.now (map (λ label. label.items) labels.now) jobs.now) }
{
    if labels.is_empty() {
        return put_jobs(alloc, text, window, run, jobs);
    }
    put_groups(alloc, text, window, run, jobs, of, labels)
}

/// Appends the label of each group, and below it the lines of its jobs.
fn put_groups(
    alloc: Global,
    text: &mut Vec<u8>,
    window: &Window,
    run: &[PackedEvent],
    jobs: &[Job],
    of: &[usize],
    labels: &[Vec<u8>],
) -> Result<(), Memory>
    ensures { OnOk result (text.new.items ≡ text.old.items
        ++ picture.group_lines window.now run.now of.now jobs.now 0 (map (λ label. label.items) labels.now)) }
{
    let courses = courses_of(alloc, run, jobs.len())?;
    let stays = Stays::of(alloc, run, jobs.len())?;
    let mut own = Vec::new(alloc);
    for group in 0..labels.len() {
        put_label(text, &labels[group])?;
        put_group(
            text, window, run, jobs, &courses, &stays, &mut own, of, group,
        )?;
    }
    Ok(())
}

/// Appends a label as a line.
fn put_label(text: &mut Vec<u8>, label: &[u8]) -> Result<(), Memory>
    ensures { OnOk result (text.new.items ≡ text.old.items ++ picture.label_line label.now) }
{
    text.extend_from_slice(label)?;
    text.extend_from_slice(b"\n")?;
    Ok(())
}

/// Appends the lines of the jobs of a group that meet the window.
fn put_group(
    text: &mut Vec<u8>,
    window: &Window,
    run: &[PackedEvent],
    jobs: &[Job],
    courses: &[Course],
    stays: &Stays,
    own: &mut Vec<Stay>,
    of: &[usize],
    group: usize,
) -> Result<(), Memory>
    requires courses { length courses.now ≡ length jobs.now }
    requires each { (n : ℕ) → n < length jobs.now → slice_index_or courses.now n unseen ≡ course_in run.now n }
    requires stays { length stays.now.firsts ≡ length jobs.now }
    requires keeps { Keeps stays.now run.now }
    ensures { OnOk result (text.new.items
        ≡ text.old.items ++ picture.lines_of window.now run.now of.now group 0 jobs.now) }
{
    for (number, job) in jobs.iter().enumerate() {
        let ending = courses[number].ending;
        let member = is_of(of, number, group);
        put_member(text, window, member, number, job, stays, own, ending)?;
    }
    Ok(())
}

/// Appends the line of a job where it is a member of the group and meets the window.
fn put_member(
    text: &mut Vec<u8>,
    window: &Window,
    member: bool,
    number: usize,
    job: &Job,
    stays: &Stays,
    own: &mut Vec<Stay>,
    ending: Option<Ending>,
) -> Result<(), Memory>
    requires known { number < length stays.now.firsts }
    requires keeps { (run : List Event) × Keeps stays.now run }
    ensures { (run : List Event) → Keeps stays.now run → ending ≡ ending_in run number →
        OnOk result (text.new.items ≡ text.old.items
        ++ (if member then picture.job_line_at window.now run number job.now else [])) }
{
    if !member {
        return Ok(());
    }
    put_met(text, window, number, job, stays, own, ending)
}

/// The job of this number is of this group: of the first one where none is given.
fn is_of(of: &[usize], number: usize, group: usize) -> bool
    ensures { result ≡ picture.is_of of.now number group }
{
    match of.get(number) {
        Some(given) => *given == group,
        None => group == 0,
    }
}

/// Appends the lines of the jobs that meet the window.
fn put_jobs(
    alloc: Global,
    text: &mut Vec<u8>,
    window: &Window,
    run: &[PackedEvent],
    jobs: &[Job],
) -> Result<(), Memory>
    ensures { OnOk result (text.new.items
        ≡ text.old.items ++ picture.job_lines window.now run.now 0 jobs.now) }
{
    let courses = courses_of(alloc, run, jobs.len())?;
    let stays = Stays::of(alloc, run, jobs.len())?;
    let mut own = Vec::new(alloc);
    for (number, job) in jobs.iter().enumerate() {
        let ending = courses[number].ending;
        put_met(text, window, number, job, &stays, &mut own, ending)?;
    }
    Ok(())
}

/// Appends the line of a job where it meets the window. Its stays are copied to `own`.
fn put_met(
    text: &mut Vec<u8>,
    window: &Window,
    number: usize,
    job: &Job,
    stays: &Stays,
    own: &mut Vec<Stay>,
    ending: Option<Ending>,
) -> Result<(), Memory>
    requires known { number < length stays.now.firsts }
    requires keeps { (run : List Event) × Keeps stays.now run }
    ensures { (run : List Event) → Keeps stays.now run → OnOk result (text.new.items ≡ text.old.items
        ++ (if picture.meets window.now job.now
        then picture.job_line window.now number job.now (stays_of number run) ending else [])) }
{
    if !window.meets(job) {
        return Ok(());
    }
    stays.copy_to(number, own)?;
    put_job(text, window, number as u64, job, own, ending)
}

/// Appends the line of a job: its number, its signs and its value.
fn put_job(
    text: &mut Vec<u8>,
    window: &Window,
    number: u64,
    job: &Job,
    own: &[Stay],
    ending: Option<Ending>,
) -> Result<(), Memory>
    ensures { OnOk result (text.new.items
        ≡ text.old.items ++ picture.job_line window.now number job.now own.now ending) }
{
    put_placed(text, number)?;
    text.extend_from_slice(b" ")?;
    put_signs(text, window, job, own, ending)?;
    put(text, value_line(ending), &[job.value()])
}

/// Appends the number, with blanks in front of it to six places.
fn put_placed(text: &mut Vec<u8>, number: u64) -> Result<(), Memory>
    ensures { OnOk result (text.new.items ≡ text.old.items ++ picture.placed number) }
{
    let mut buffer = Buffer::new();
    let digits = buffer.format(number).as_bytes();
    put_blanks(text, 6u64.saturating_sub(digits.len() as u64))?;
    text.extend_from_slice(digits)?;
    Ok(())
}

/// The end of a job's line, with its value, and a minus where the job is lost.
fn value_line(ending: Option<Ending>) -> &'static [u8]
    ensures { result.now ≡ codes " " ++ (picture.loss_sign ending ++ codes "@\n") }
{
    if let Some(Ending::Abandoned(_)) = ending {
        return b" -@\n";
    }
    b" @\n"
}
