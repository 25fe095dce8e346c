//! What happened to one job.
ghost use Rattle.std.specs.Prelude.{◌≡◌, ◌≤◌, ◌++◌, ◌∷◌, ◌*◌, List, Some, None, false, length, drop, OnOk, IfOk};
ghost use Rattle.std.specs.Prelude.{IsTrue, true};
ghost use Rattle.std.specs.List.{AllByRecursion};
ghost use Rattle.run_record.specs.intervals.Rows.{IsRunOf};
ghost use Rattle.run_record.specs.intervals.Rows as rows;
ghost use Rattle.run_record.specs.ledger.Rooms as tests;
ghost use Rattle.dover_model.specs.declared.events.Event.{Event};
ghost use Rattle.dover_model.specs.Common.{Fraction, Instance, most_total, most_value};
ghost use Rattle.dover_model.specs.Fraction.{is_factor};
ghost use Rattle.dover_model.specs.Observed as observed;
ghost use Rattle.dover_model.specs.declared.events.Version.TheVariants.{Two};
ghost use Rattle.run_reports.specs.views.Why as story;

use crate::report::{left_at, released};
use crate::views::template::{put, put_wide};
use crate::views::threshold::greatest_ratio;
use dover_model::{Event, Factor, Job, Memory, PackedEvent, Ratio, Version};
use root_compare::least_heavy;
use run_record::ledger::{rooms, served, weights};
use std::alloc::Global;

/// The job that is asked about.
#[derive(Clone, Copy)]
pub struct Asked {
    /// The version of its run.
    pub version: Version,
    /// The ratio of its run.
    pub k: Ratio,
    /// Its number.
    pub number: u32,
    /// Its value.
    pub value: u64,
}

/// What is weighed at a step.
#[derive(Clone, Copy)]
pub struct Weighed {
    /// What the running and the held jobs are worth.
    pub worth: u64,
    /// The work of the job that preempts, or of the one that completes, in ticks.
    pub work: u64,
    /// The room that the running and the held jobs leave a fresh job, in ticks.
    pub room: u64,
    /// The work that is left of the job that completes, in ticks.
    pub left: u64,
}

/// What happened to the job of this number in the run of this version that prints these steps, and by which test, line
/// by line; one line where there is no such job. The jobs of the run are valid for the ratio `k`, and within the limits
/// of version Two. Want of memory is the only error.
pub fn why(
    alloc: Global,
    version: Version,
    k: Ratio,
    run: &[PackedEvent],
    number: u32,
) -> Result<Vec<u8>, Memory>
    requires { (J : Instance) × IsRunOf k run.now J }
    ensures { (J : Instance) → IsRunOf k run.now J → J.rules.version ≡ version
        → IfOk result (λ written. written.items ≡ story.why number J) }
{
    let jobs = released(alloc, run)?;
    match jobs.get(number as usize) {
        Some(job) => story_of(alloc, version, k, run, &jobs, number, job),
        None => unknown(alloc, number, jobs.len() as u64),
    }
}

/// The text of the job of this number among those of the run of this version.
fn story_of(
    alloc: Global,
    version: Version,
    k: Ratio,
    run: &[PackedEvent],
    jobs: &[Job],
    number: u32,
    job: &Job,
) -> Result<Vec<u8>, Memory>
    requires { (J : Instance) × IsRunOf k run.now J × (jobs.now ≡ J.jobs) }
    ensures { (J : Instance) → IsRunOf k run.now J → jobs.now ≡ J.jobs → J.rules.version ≡ version
        → IfOk result (λ text. text.items ≡ story.answer number J (Some job.now)) }
{
    let mut text = Vec::new(alloc);
    put_asked(&mut text, number, job)?;
    let asked = Asked {
        version,
        k,
        number,
        value: job.value(),
    };
    put_weighed(alloc, &mut text, &asked, jobs, run)?;
    Ok(text)
}

/// Appends what the steps of the run mean for the job, with what is weighed at each.
fn put_weighed(
    alloc: Global,
    text: &mut Vec<u8>,
    asked: &Asked,
    jobs: &[Job],
    run: &[PackedEvent],
) -> Result<(), Memory>
    requires run { (J : Instance) × IsRunOf asked.now.k run.now J × (jobs.now ≡ J.jobs) }
    requires value { asked.now.value ≤ most_value }
    ensures { (J : Instance) → IsRunOf asked.now.k run.now J → jobs.now ≡ J.jobs
        → OnOk result (text.new.items ≡ text.old.items ++ story.story_from
        asked.now.version asked.now.k asked.now.number asked.now.value jobs.now (observed.served J) false run.now
        (rows.weights J) (tests.rooms J)) }
{
    let worths = weights(alloc, asked.k, run)?;
    let rooms = rooms(alloc, asked.k, run)?;
    let served = served(alloc, jobs, run)?;
    put_story(text, asked, jobs, &served, run, &worths, &rooms)
}

/// The text where there is no such job.
fn unknown(alloc: Global, number: u32, count: u64) -> Result<Vec<u8>, Memory>
    ensures { IfOk result (λ text. text.items ≡ story.unknown number count) }
{
    let mut text = Vec::new(alloc);
    let numbers = [u64::from(number), count];
    put(&mut text, b"no job @ among @\n", &numbers)?;
    Ok(text)
}

/// Appends the numbers of the job.
fn put_asked(text: &mut Vec<u8>, number: u32, job: &Job) -> Result<(), Memory>
    ensures { OnOk result (text.new.items ≡ text.old.items ++ story.asked number job.now) }
{
    put(
        text,
        b"job @: release @, work @, deadline @, value @\n",
        &[
            u64::from(number),
            job.release(),
            job.work(),
            job.deadline(),
            job.value(),
        ],
    )
}

/// Appends what these steps mean for the job, before each of which the jobs under way are worth so much and leave so
/// much room. The jobs have had so many ticks at the end.
fn put_story(
    text: &mut Vec<u8>,
    asked: &Asked,
    jobs: &[Job],
    served: &[u64],
    run: &[PackedEvent],
    worths: &[u64],
    rooms: &[u64],
) -> Result<(), Memory>
    requires same { length worths.now ≡ length run.now }
    requires as_many { length rooms.now ≡ length run.now }
    requires value { asked.now.value ≤ most_value }
    requires small { AllByRecursion (λ worth. worth ≤ most_total Two) worths.now }
    ensures { OnOk result (text.new.items ≡ text.old.items ++ story.story_from
        asked.now.version asked.now.k asked.now.number asked.now.value jobs.now served.now false run.now worths.now
        rooms.now) }
{
    let mut on = false;
    for (index, event) in run.iter().enumerate() {
        let weighed = Weighed {
            worth: worths[index],
            work: work_of(jobs, event),
            room: rooms[index],
            left: left_at(jobs, served, event),
        };
        let starts = starts_at(asked.number, run, index + 1);
        put_told(text, asked, on, starts, &weighed, event)?;
        on = is_on_after(asked.number, on, event);
    }
    Ok(())
}

/// The work that counts at a step: that of the job that preempts, or of the one that completes.
fn work_of(jobs: &[Job], event: &PackedEvent) -> u64
    ensures { result ≡ story.work_of jobs.now event.now }
{
    match event.event() {
        Event::Preempt { starts, .. } => work_in(jobs, starts),
        Event::Complete { number, .. } => work_in(jobs, number),
        _ => 0,
    }
}

/// The work of a job.
fn work_in(jobs: &[Job], number: u32) -> u64
    ensures { result ≡ story.work_in jobs.now number }
{
    match jobs.get(number as usize) {
        Some(job) => job.work(),
        None => 0,
    }
}

/// Whether the step at this place starts the job of this number.
fn starts_at(number: u32, run: &[PackedEvent], index: usize) -> bool
    ensures { result ≡ story.starts_first number (drop index run.now) }
{
    match run.get(index) {
        Some(event) => starts(number, event),
        None => false,
    }
}

/// Whether a step starts the job of this number.
fn starts(number: u32, event: &PackedEvent) -> bool
    ensures { (more : List Event) → result ≡ story.starts_first number (event.now ∷ more) }
{
    match event.event() {
        Event::Run { number: other, .. } => other == number,
        Event::Preempt { starts, .. } => starts == number,
        _ => false,
    }
}

/// Whether the job runs or is held after a step.
fn is_on_after(number: u32, on: bool, event: &PackedEvent) -> bool
    ensures { result ≡ story.on_after number on event.now }
{
    match event.event() {
        Event::Run { number: other, .. } => on || other == number,
        Event::Preempt { starts, .. } => on || starts == number,
        Event::Take { starts, .. } => starts == number,
        Event::Complete { number: other, .. } => on && other != number,
        _ => on,
    }
}

/// Appends what a step means for the job, which runs or is held where `on` is true, and starts next where `starts` is.
fn put_told(
    text: &mut Vec<u8>,
    asked: &Asked,
    on: bool,
    starts: bool,
    weighed: &Weighed,
    event: &PackedEvent,
) -> Result<(), Memory>
    requires value { asked.now.value ≤ most_value }
    requires worth { weighed.now.worth ≤ most_total Two }
    ensures { OnOk result (text.new.items ≡ text.old.items
        ++ story.told asked.now.version asked.now.k asked.now.number asked.now.value on starts weighed.now
        event.now) }
{
    match event.event() {
        Event::Release { number, job } => put_arrived(
            text,
            asked,
            number,
            starts,
            &job,
            weighed.room,
        ),
        Event::Run { at, number } => put_own(text, number == asked.number, at, b"at @ it runs\n"),
        Event::Preempt { at, stops, starts } => put_preempted(
            text,
            asked.number,
            at,
            stops,
            starts,
            weighed,
        ),
        Event::Take { at, stops, starts } => put_taken(
            text,
            asked,
            on,
            at,
            stops,
            starts,
            weighed.worth,
        ),
        Event::Complete { at, number } => put_completed(text, number == asked.number, at, weighed),
        Event::Abandon { at, number } => put_gone(text, asked, at, number, weighed.worth),
        Event::End { .. } => Ok(()),
    }
}

/// Appends a line at a tick, where the step is the job's own.
fn put_own(text: &mut Vec<u8>, mine: bool, at: u64, line: &[u8]) -> Result<(), Memory>
    ensures { OnOk result (text.new.items ≡ text.old.items ++ story.own mine at line.now) }
{
    if mine {
        return put(text, line, &[at]);
    }
    Ok(())
}

/// Appends what a completion means for the job, where the step is its own.
fn put_completed(text: &mut Vec<u8>, mine: bool, at: u64, weighed: &Weighed) -> Result<(), Memory>
    ensures { OnOk result (text.new.items
        ≡ text.old.items ++ story.completed mine at weighed.now.left weighed.now.work) }
{
    let (left, work) = (weighed.left, weighed.work);
    if mine {
        return put(text, completed_line(left > 0), &[at, left, work]);
    }
    Ok(())
}

/// The line of a job that is completed, by whether work is left of it.
fn completed_line(early: bool) -> &'static [u8]
    ensures { result.now ≡ story.completed_line early }
{
    if early {
        return b"at @ it is completed, with @ of its @ ticks left\n";
    }
    b"at @ it is completed\n"
}

/// Appends what a preemption means for the job of this number.
fn put_preempted(
    text: &mut Vec<u8>,
    number: u32,
    at: u64,
    stops: u32,
    starts: u32,
    weighed: &Weighed,
) -> Result<(), Memory>
    ensures { OnOk result (text.new.items ≡ text.old.items
        ++ story.preempted number at stops starts weighed.now.work weighed.now.room) }
{
    let (work, room) = (weighed.work, weighed.room);
    if starts == number {
        let other = u64::from(stops);
        return put(text, preempts_line(work <= room), &[at, other, work, room]);
    }
    if stops == number {
        let other = u64::from(starts);
        return put(text, preempted_line(work <= room), &[at, other, work, room]);
    }
    Ok(())
}

/// The line of a job that preempts another, by whether its work is within the room.
fn preempts_line(fits: bool) -> &'static [u8]
    ensures { result.now ≡ story.preempts_line fits }
{
    if fits {
        return b"at @ it preempts job @, which is due later, its work @ within the room @\n";
    }
    b"at @ it preempts job @, which is due later, its work @ above the room @\n"
}

/// The line of a job that another preempts, by whether that one's work is within the room.
fn preempted_line(fits: bool) -> &'static [u8]
    ensures { result.now ≡ story.preempted_line fits }
{
    if fits {
        return b"at @ it is preempted by job @, which is due earlier, its work @ within the room @\n";
    }
    b"at @ it is preempted by job @, which is due earlier, its work @ above the room @\n"
}

/// Appends what a release means for the job, which starts at once or else waits, and why it does.
fn put_arrived(
    text: &mut Vec<u8>,
    asked: &Asked,
    other: u32,
    starts: bool,
    job: &Job,
    room: u64,
) -> Result<(), Memory>
    ensures { OnOk result (text.new.items ≡ text.old.items ++ story.arrived
        asked.now.version asked.now.number other job.now.release starts job.now.work room) }
{
    if other == asked.number && !starts {
        let (at, work) = (job.release(), job.work());
        let line = waits_line(asked.version, work <= room);
        return put(text, line, &[at, work, room]);
    }
    Ok(())
}

/// The line of a job that waits in a run of this version, by whether its work is within the room.
fn waits_line(version: Version, fits: bool) -> &'static [u8]
    ensures { result.now ≡ story.waits_line version fits }
{
    if !fits {
        return b"at @ it waits, its work @ above the room @\n";
    }
    if version.by_density(true) {
        return b"at @ it waits, due no earlier than the job that runs or less dense, its work @ within the room @\n";
    }
    b"at @ it waits, due no earlier than the job that runs, its work @ within the room @\n"
}

/// Appends what a take means for the job, which runs or is held where `on` is true.
fn put_taken(
    text: &mut Vec<u8>,
    asked: &Asked,
    on: bool,
    at: u64,
    stops: u32,
    starts: u32,
    worth: u64,
) -> Result<(), Memory>
    requires value { asked.now.value ≤ most_value }
    requires worth { worth ≤ most_total Two }
    ensures { OnOk result (text.new.items
        ≡ text.old.items ++ story.taken asked.now.k asked.now.number asked.now.value on at stops starts worth) }
{
    if starts == asked.number {
        return put_takes(text, asked, at, stops, worth);
    }
    if on {
        return put(
            text,
            b"at @ it is displaced by job @\n",
            &[at, u64::from(starts)],
        );
    }
    Ok(())
}

/// Appends that at this tick the job takes the processor.
fn put_takes(
    text: &mut Vec<u8>,
    asked: &Asked,
    at: u64,
    stops: u32,
    worth: u64,
) -> Result<(), Memory>
    requires value { asked.now.value ≤ most_value }
    requires worth { worth ≤ most_total Two }
    ensures { OnOk result (text.new.items ≡ text.old.items ++ story.takes asked.now.k asked.now.value at stops worth) }
{
    put(
        text,
        b"at @ it takes the processor from job @",
        &[at, u64::from(stops)],
    )?;
    put_tested(text, asked, worth, b" above")?;
    text.extend_from_slice(b"\n")?;
    Ok(())
}

/// Appends what an abandonment means for the job.
fn put_gone(
    text: &mut Vec<u8>,
    asked: &Asked,
    at: u64,
    number: u32,
    worth: u64,
) -> Result<(), Memory>
    requires value { asked.now.value ≤ most_value }
    requires worth { worth ≤ most_total Two }
    ensures { OnOk result (text.new.items
        ≡ text.old.items ++ story.gone asked.now.k asked.now.number asked.now.value at number worth) }
{
    if number == asked.number {
        return put_goes(text, asked, at, worth);
    }
    Ok(())
}

/// Appends that at this tick the job is abandoned.
fn put_goes(text: &mut Vec<u8>, asked: &Asked, at: u64, worth: u64) -> Result<(), Memory>
    requires value { asked.now.value ≤ most_value }
    requires worth { worth ≤ most_total Two }
    ensures { OnOk result (text.new.items ≡ text.old.items ++ story.goes asked.now.k asked.now.value at worth) }
{
    put(text, b"at @ it is abandoned", &[at])?;
    put_tested(text, asked, worth, b" not above")?;
    put_by_ratios(text, asked, worth)?;
    text.extend_from_slice(b"\n")?;
    Ok(())
}

/// Appends for which ratios its value would be heavy, where no factor is declared.
fn put_by_ratios(text: &mut Vec<u8>, asked: &Asked, worth: u64) -> Result<(), Memory>
    requires value { asked.now.value ≤ most_value }
    requires worth { worth ≤ most_total Two }
    ensures { OnOk result (text.new.items
        ≡ text.old.items ++ story.by_ratios asked.now.k asked.now.k.factor asked.now.value worth) }
{
    match asked.k.factor() {
        Some(_) => Ok(()),
        None => {
            let q = asked.k.q();
            put_up_to(text, u64::from(q), greatest_ratio(asked.value, worth, q))
        }
    }
}

/// Appends up to which ratio with this denominator a value is heavy.
fn put_up_to(text: &mut Vec<u8>, q: u64, greatest: Option<u64>) -> Result<(), Memory>
    ensures { OnOk result (text.new.items ≡ text.old.items ++ story.up_to q greatest) }
{
    match greatest {
        None => put(text, b", with this value for no k", &[]),
        Some(p) => put(text, b", with this value for k up to @/@", &[p, q]),
    }
}

/// Appends the test of its value against that of the jobs under way.
fn put_tested(text: &mut Vec<u8>, asked: &Asked, worth: u64, answer: &[u8]) -> Result<(), Memory>
    requires value { asked.now.value ≤ most_value }
    requires worth { worth ≤ most_total Two }
    ensures { OnOk result (text.new.items
        ≡ text.old.items ++ story.tested asked.now.k asked.now.value worth answer.now) }
{
    put(
        text,
        b", its value @ against @ under way:",
        &[asked.value, worth],
    )?;
    put_sides(text, asked, worth, answer)?;
    put(text, b"; heavy from @ on", &[least_heavy(worth, asked.k)])
}

/// Appends both sides of the test.
fn put_sides(text: &mut Vec<u8>, asked: &Asked, worth: u64, answer: &[u8]) -> Result<(), Memory>
    requires value { asked.now.value ≤ most_value }
    requires worth { worth ≤ most_total Two }
    ensures { OnOk result (text.new.items
        ≡ text.old.items ++ story.sides asked.now.k asked.now.k.factor asked.now.value worth answer.now) }
{
    match asked.k.factor() {
        None => put_squares(text, asked, worth, answer),
        Some(factor) => put_products(text, factor, asked.value, worth, answer),
    }
}

/// Appends both sides of the test by the ratio.
fn put_squares(text: &mut Vec<u8>, asked: &Asked, worth: u64, answer: &[u8]) -> Result<(), Memory>
    requires value { asked.now.value ≤ most_value }
    requires worth { worth ≤ most_total Two }
    ensures { OnOk result (text.new.items
        ≡ text.old.items ++ story.sides asked.now.k None asked.now.value worth answer.now) }
{
    put_square(text, asked.k.q(), asked.value.saturating_sub(worth))?;
    text.extend_from_slice(answer)?;
    put_square(text, asked.k.p(), worth)
}

/// Appends both sides of the test by a factor.
fn put_products(
    text: &mut Vec<u8>,
    factor: Factor,
    value: u64,
    worth: u64,
    answer: &[u8],
) -> Result<(), Memory>
    requires value { value ≤ most_value }
    requires worth { worth ≤ most_total Two }
    requires factor { IsTrue (is_factor factor) }
    ensures { (k : Fraction) → OnOk result (text.new.items
        ≡ text.old.items ++ story.sides k (Some factor) value worth answer.now) }
{
    put_product(text, factor.c, value)?;
    text.extend_from_slice(answer)?;
    put_product(text, factor.b, worth)
}

/// Appends a part of a factor times a value.
fn put_product(text: &mut Vec<u8>, part: u32, value: u64) -> Result<(), Memory>
    requires part { part ≤ 1_000_000 }
    requires value { value ≤ most_total Two }
    ensures { OnOk result (text.new.items ≡ text.old.items ++ story.product part value) }
{
    let part = u64::from(part);
    put(text, b" @ * @ = @", &[part, value, part * value])
}

/// Appends a part of a ratio times the square of a value.
fn put_square(text: &mut Vec<u8>, part: u32, value: u64) -> Result<(), Memory>
    requires part { part ≤ 1_000_000 }
    requires value { value ≤ most_total Two }
    ensures { OnOk result (text.new.items ≡ text.old.items ++ story.square part value) }
{
    put(text, b" @ * @^2 = ", &[u64::from(part), value])?;
    put_wide(text, times_square(part, value))
}

/// A part of a ratio times a square.
fn times_square(part: u32, value: u64) -> u128
    requires part { part ≤ 1_000_000 }
    requires value { value ≤ most_total Two }
    ensures { result ≡ part * value * value }
{
    let value = u128::from(value);
    u128::from(part) * value * value
}
