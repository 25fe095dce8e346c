//! The picture as a whole.
ghost use Rattle.std.specs.Prelude.{◌≤◌, length};
ghost use Rattle.dover_model.specs.Instance.{Instance};
ghost use Rattle.run_record.specs.intervals.Rows.{IsRunOf};

use crate::frame::{Totals, put_axis, put_bands, put_page};
use crate::heads::put_heads;
use crate::labels::put_labels;
use crate::lanes::{Lanes, shown};
use crate::legends::{put_lanes_legend, put_load_legend};
use crate::marks::{put_crosses, put_holds, put_pieces, put_preemptions, put_takes};
use crate::panels::{put_columns, put_ready, put_values};
use crate::processor::put_strip;
use crate::scale::Scale;
use crate::seen::{Seen, told};
use crate::sheet::Sheet;
use crate::windows::put_windows;
use dover_model::{Memory, PackedEvent, Ratio, Version};
use run_record::intervals::{Charge, Interval};
use run_record::ledger::weights;
use run_reports::report::{count, fates_of, released};
use run_reports::views::Window;
use std::alloc::Global;

/// The steps that are drawn, and what is told of all of them.
#[derive(Clone, Copy)]
struct Subject<'a> {
    run: &'a [PackedEvent],
    totals: &'a Totals,
    rows: &'a [Interval],
}

/// The run that prints these steps as SVG: the processor, a lane for each job that the window shows, or above 400 of
/// them, or above 75,000 bytes, the load in columns, and the values so far. Without a window all of the run is shown.
/// The title says how many lines were refused.
/// The jobs of the run are valid for the ratio `k`, and within the limits of version Two. Want of memory is the only
/// error. What is drawn is tested, and not proved.
pub fn picture(
    alloc: Global,
    k: Ratio,
    run: &[PackedEvent],
    refused: u64,
    asked: Option<Window>,
) -> Result<Vec<u8>, Memory>
    requires { (J : Instance) × IsRunOf k run.now J }
{
    let labels = jobs_labels(alloc)?;
    grouped_picture(alloc, k, run, refused, asked, &[], &labels)
}

/// The only label where the jobs aren't in groups.
fn jobs_labels(alloc: Global) -> Result<Vec<Vec<u8>>, Memory> {
    let label = Vec::from_slice(alloc, b"jobs")?;
    let mut labels = Vec::new(alloc);
    labels.push(label)?;
    Ok(labels)
}

/// The same picture with the jobs in groups, which are given by number for each job. The lanes of a group stand below
/// those of the group before, with its label beside them, and above 400 groups the load is shown.
pub fn grouped_picture(
    alloc: Global,
    k: Ratio,
    run: &[PackedEvent],
    refused: u64,
    asked: Option<Window>,
    of: &[usize],
    labels: &[Vec<u8>],
) -> Result<Vec<u8>, Memory>
    requires { (J : Instance) × IsRunOf k run.now J }
{
    let jobs = jobs_of(alloc, k, run, of)?;
    let charge = Charge::of(alloc, k, run)?;
    let counts = count(k, &charge);
    let totals = Totals::OfRun(counts, refused);
    let subject = Subject {
        run,
        totals: &totals,
        rows: charge.rows(),
    };
    drawn(alloc, asked, subject, labels, jobs)
}

/// What the steps of a run tell of its jobs, which are of these groups.
fn jobs_of(alloc: Global, k: Ratio, run: &[PackedEvent], of: &[usize]) -> Result<Vec<Seen>, Memory>
    requires { (J : Instance) × IsRunOf k run.now J }
{
    let worths = weights(alloc, k, run)?;
    told(alloc, run, &worths, of)
}

/// The schedule with these steps as SVG, whichever policy made it: as the picture of a run, but without intervals,
/// without a bound, and without what was weighed. Want of memory is the only error.
pub fn schedule_picture(
    alloc: Global,
    run: &[PackedEvent],
    asked: Option<Window>,
) -> Result<Vec<u8>, Memory>
    requires { length run.now ≤ 5_000_001 }
{
    let totals = totals_of(alloc, run)?;
    let jobs = told(alloc, run, &[], &[])?;
    let labels = jobs_labels(alloc)?;
    let subject = Subject {
        run,
        totals: &totals,
        rows: &[],
    };
    drawn(alloc, asked, subject, &labels, jobs)
}

/// What a schedule comes to.
fn totals_of(alloc: Global, run: &[PackedEvent]) -> Result<Totals, Memory>
    requires { length run.now ≤ 5_000_001 }
{
    let jobs = released(alloc, run)?;
    Ok(Totals::OfSchedule(fates_of(&jobs, run)))
}

/// The window that is asked for, up to the last tick of version Two, or all of the run.
fn scale_of(asked: Option<Window>, jobs: &[Seen]) -> Scale {
    if let Some(window) = asked {
        let last = Version::Two.last_tick().saturating_add(1);
        return Scale {
            from: window.from.min(last),
            until: window.until.min(last),
        };
    }
    let mut last = 0;
    for job in jobs {
        last = job.deadline.max(last);
    }
    Scale {
        from: 0,
        until: last.saturating_add(1),
    }
}

/// Lanes where at most 400 jobs are shown, they are in no more groups, and they take at most 75,000 bytes, and else the
/// load.
fn drawn(
    alloc: Global,
    asked: Option<Window>,
    subject: Subject<'_>,
    labels: &[Vec<u8>],
    jobs: Vec<Seen>,
) -> Result<Vec<u8>, Memory> {
    let scale = scale_of(asked, &jobs);
    if labels.len() > 400 || shown(scale, &jobs) > 400 {
        return loaded(alloc, scale, subject, &jobs);
    }
    let lanes = Lanes::new(alloc, scale, labels.len(), jobs)?;
    let mut sheet = Sheet::new(alloc, scale);
    put_by_lanes(&mut sheet, subject, labels, &lanes)?;
    if sheet.len() <= 75_000 {
        return Ok(sheet.into_text());
    }
    loaded(alloc, scale, subject, &lanes.jobs)
}

/// Appends a picture with a lane for each job that is shown, where the groups have these labels.
fn put_by_lanes(
    sheet: &mut Sheet,
    subject: Subject<'_>,
    labels: &[Vec<u8>],
    lanes: &Lanes,
) -> Result<(), Memory> {
    let bottom = lanes.height().saturating_add(236);
    put_page(sheet, bottom.saturating_add(36), subject.totals)?;
    put_axis(sheet, bottom)?;
    put_lanes_legend(sheet, subject.totals)?;
    put_bands(sheet, 1, bottom, subject.rows)?;
    put_strip(sheet, 1, &lanes.jobs, subject.run)?;
    put_heads(sheet, lanes, labels)?;
    put_lanes(sheet, subject, lanes)?;
    put_values(sheet, false, bottom, &lanes.jobs, subject.run)?;
    sheet.put_text(b"</svg>\n")
}

/// Appends all that stands in the lanes.
fn put_lanes(sheet: &mut Sheet, subject: Subject<'_>, lanes: &Lanes) -> Result<(), Memory> {
    let run = subject.run;
    let weighs = subject.totals.weighs();
    put_windows(sheet, lanes, weighs)?;
    put_holds(sheet, lanes, run)?;
    put_pieces(sheet, lanes, b'c', run)?;
    put_pieces(sheet, lanes, b't', run)?;
    put_pieces(sheet, lanes, b'l', run)?;
    put_preemptions(sheet, lanes, run)?;
    put_takes(sheet, lanes, run)?;
    put_crosses(sheet, lanes, run)?;
    put_labels(sheet, lanes, weighs)
}

/// The load: the processor, the ready jobs, and the values by column.
fn loaded(
    alloc: Global,
    scale: Scale,
    subject: Subject<'_>,
    jobs: &[Seen],
) -> Result<Vec<u8>, Memory> {
    let mut sheet = Sheet::new(alloc, scale);
    put_by_load(&mut sheet, subject, jobs)?;
    Ok(sheet.into_text())
}

/// Appends a picture of the load.
fn put_by_load(sheet: &mut Sheet, subject: Subject<'_>, jobs: &[Seen]) -> Result<(), Memory> {
    put_page(sheet, 510, subject.totals)?;
    put_axis(sheet, 474)?;
    put_load_legend(sheet, subject.totals)?;
    put_bands(sheet, 0, 474, subject.rows)?;
    put_strip(sheet, 0, jobs, subject.run)?;
    put_ready(sheet, subject.run)?;
    put_columns(sheet, jobs, subject.run)?;
    put_values(sheet, true, 474, jobs, subject.run)?;
    sheet.put_text(b"</svg>\n")
}
