//! The jobs' windows, with their tooltips.
use crate::lanes::Lanes;
use crate::seen::Seen;
use crate::sheet::Sheet;
use dover_model::Memory;
use run_reports::report::endings::Ending;

/// Appends the windows of the jobs that are shown, with what they were weighed against where jobs are weighed.
pub fn put_windows(sheet: &mut Sheet, lanes: &Lanes, weighs: bool) -> Result<(), Memory> {
    let high = lanes.unit.saturating_sub(3);
    sheet.put(b"<g class='w' stroke-width='@'>\n", &[high])?;
    for job in &lanes.jobs {
        if job.is_shown(sheet.scale) {
            put_window(sheet, lanes.middle(job), job)?;
            put_weighed(sheet, weighs, job)?;
            put_ended(sheet, job.ending)?;
        }
    }
    sheet.put_text(b"</g>\n")
}

/// Appends the bar of a job at this height, and the begin of its tooltip.
fn put_window(sheet: &mut Sheet, y: u64, job: &Seen) -> Result<(), Memory> {
    sheet.put_text(front(job.is_gone()))?;
    sheet.put_bar(1, job.release, job.deadline, y)?;
    let number = u64::from(job.number);
    sheet.put(
        b"'><title>job @: @ to @, work @, value @",
        &[number, job.release, job.deadline, job.work, job.value],
    )
}

/// The front of the bar, by whether the job is abandoned.
fn front(gone: bool) -> &'static [u8] {
    if gone {
        return b"<path class='g' d='";
    }
    b"<path d='"
}

/// Appends what stood against the job's value, where it was weighed and jobs are.
fn put_weighed(sheet: &mut Sheet, weighs: bool, job: &Seen) -> Result<(), Memory> {
    if !weighs {
        return Ok(());
    }
    if job.is_gone() {
        return sheet.put(b" against @", &[job.against]);
    }
    if job.took {
        return sheet.put(b" against @, taken", &[job.against]);
    }
    Ok(())
}

/// Appends how a job ended, and the end of its bar.
fn put_ended(sheet: &mut Sheet, ending: Option<Ending>) -> Result<(), Memory> {
    match ending {
        None => sheet.put_text(b"</title></path>\n"),
        Some(Ending::Completed(at)) => sheet.put(b", complete @</title></path>\n", &[at]),
        Some(Ending::Abandoned(at)) => sheet.put(b", abandon @</title></path>\n", &[at]),
    }
}
