//! What is written in the lanes.
use crate::lanes::Lanes;
use crate::scale::Scale;
use crate::seen::Seen;
use crate::sheet::Sheet;
use crate::sizes::room;
use dover_model::Memory;

/// A place for words behind a cross: from the pixel x on, so many pixels long, around the height y.
#[derive(Clone, Copy)]
struct Place {
    x: u64,
    y: u64,
    long: u64,
}

/// Appends what is written in all lanes, where rows are high enough, with what losses were weighed against where jobs
/// are weighed.
pub fn put_labels(sheet: &mut Sheet, lanes: &Lanes, weighs: bool) -> Result<(), Memory> {
    if lanes.unit < 12 {
        return Ok(());
    }
    sheet.put_text(b"<g class='j'>\n")?;
    for job in &lanes.jobs {
        if job.is_shown(sheet.scale) {
            put_label(sheet, lanes.middle(job).saturating_add(4), weighs, job)?;
        }
    }
    sheet.put_text(b"</g>\n")
}

/// Appends what is written in the lane of a job, around the height y.
fn put_label(sheet: &mut Sheet, y: u64, weighs: bool, job: &Seen) -> Result<(), Memory> {
    let named = has_number(sheet.scale, job);
    if named {
        let x = sheet.scale.x_at(job.release) + 2;
        sheet.put(
            b"<text x='@' y='@'>@</text>\n",
            &[x, y, u64::from(job.number)],
        )?;
    }
    if !has_cross(sheet.scale, job) {
        return Ok(());
    }
    let tick = job.end_tick();
    let place = Place {
        x: sheet.scale.x_at(tick) + 6,
        y,
        long: sheet.scale.pixels(tick, job.deadline),
    };
    if named {
        return put_loss(sheet, place, weighs, job);
    }
    put_named_loss(sheet, place, weighs, job)
}

/// The tick at which the job is abandoned is shown.
fn has_cross(scale: Scale, job: &Seen) -> bool {
    job.is_gone() && scale.has(job.end_tick())
}

/// There is room for the job's number, up to its cross or else its deadline.
fn has_number(scale: Scale, job: &Seen) -> bool {
    let end = if has_cross(scale, job) {
        job.end_tick()
    } else {
        job.deadline
    };
    room(1, &[u64::from(job.number)]) <= scale.pixels(job.release, end)
}

/// Appends the value that is lost with a job, and where jobs are weighed what it was weighed against, as far as there
/// is room.
fn put_loss(sheet: &mut Sheet, place: Place, weighs: bool, job: &Seen) -> Result<(), Memory> {
    let Place { x, y, long } = place;
    if weighs && room(12, &[job.value, job.against]) <= long {
        return sheet.put(
            b"<text class='v' x='@' y='@'>-@ against @</text>\n",
            &[x, y, job.value, job.against],
        );
    }
    if room(2, &[job.value]) <= long {
        return sheet.put(
            b"<text class='v' x='@' y='@'>-@</text>\n",
            &[x, y, job.value],
        );
    }
    Ok(())
}

/// Appends the same behind the job's number.
fn put_named_loss(sheet: &mut Sheet, place: Place, weighs: bool, job: &Seen) -> Result<(), Memory> {
    let Place { x, y, long } = place;
    let number = u64::from(job.number);
    if weighs && room(14, &[number, job.value, job.against]) <= long {
        return sheet.put(
            b"<text class='v' x='@' y='@'>@: -@ against @</text>\n",
            &[x, y, number, job.value, job.against],
        );
    }
    if room(5, &[number, job.value]) <= long {
        return sheet.put(
            b"<text class='v' x='@' y='@'>@: -@</text>\n",
            &[x, y, number, job.value],
        );
    }
    if room(2, &[number]) <= long {
        return sheet.put(b"<text x='@' y='@'>@</text>\n", &[x, y, number]);
    }
    Ok(())
}
