//! The texts of a picture that don't depend on the run.
use crate::frame::Totals;
use crate::sheet::Sheet;
use dover_model::Memory;

/// Appends how texts, bars, lines and outlines look. The colors of bars are those of Okabe and Ito, which the
/// color-blind can tell apart.
pub fn put_styles(sheet: &mut Sheet) -> Result<(), Memory> {
    sheet.put_text(
        b"<style>text{font:12px sans-serif;fill:#222}.s{font-size:10px}.r{text-anchor:end}\n\
        .m{text-anchor:middle}.b{font-weight:bold;font-size:14px}\n\
        .i text{font-size:9px;fill:#fff;text-anchor:middle}\n",
    )?;
    sheet.put_text(
        b".j text{font-size:10px;paint-order:stroke;stroke:#fff;stroke-width:3px;stroke-linejoin:round}\n\
        text.v{font-size:9px;fill:#a33c00;paint-order:stroke;stroke:#fff;stroke-width:2px}\n",
    )?;
    sheet.put_text(
        b"path{fill:none;pointer-events:none}text{pointer-events:none}.w path{pointer-events:stroke}\n\
        .w{stroke:#dfe5ec}.g{stroke:#f4d5c4}.h{stroke:#9db8cc}.c{stroke:#0072b2}.t{stroke:#e69f00}\n\
        .l{stroke:#d55e00}\n",
    )?;
    sheet.put_text(
        b".o{stroke:#d55e00;stroke-opacity:.08}.f{fill:none;stroke:#bbb}.a{stroke:#e2e2e2}.p{stroke:#444}\n\
        .k{stroke:#b87a00;stroke-width:2}.x{stroke:#a33c00;stroke-width:2}\n\
        .C{fill:#0072b2}.L{fill:#d55e00}.Q{fill:#8a949e}</style>\n",
    )
}

/// Appends the legend of the processor.
pub fn put_legend(sheet: &mut Sheet) -> Result<(), Memory> {
    sheet.put_text(
        b"<g stroke-width='12'><path class='c' d='M90 40h14'/><path class='t' d='M205 40h14'/>\n\
        <path class='l' d='M385 40h14'/></g><text class='s' x='109' y='44'>ran, completed</text>\n\
        <text class='s' x='224' y='44'>ran, completed, after a take</text>\n\
        <text class='s' x='404' y='44'>ran, then abandoned: lost work</text>\n",
    )
}

/// Appends what bands mean in the load.
fn put_bands_legend(sheet: &mut Sheet) -> Result<(), Memory> {
    sheet.put_text(
        b"<path class='o' stroke-width='12' d='M580 40h14'/>\n\
        <text class='s' x='599' y='44'>interval with lost value</text>\n",
    )
}

/// Appends the legend of the lanes of a run.
fn put_run_lanes_legend(sheet: &mut Sheet) -> Result<(), Memory> {
    sheet.put_text(
        b"<g stroke-width='12'><path class='w' d='M580 40h14'/><path class='g' d='M715 40h14'/>\n\
        <path class='h' d='M855 40h14'/><path class='o' d='M990 40h14'/></g>\n",
    )?;
    sheet.put_text(
        b"<text class='s' x='599' y='44'>release to deadline</text>\n\
        <text class='s' x='734' y='44'>the same, abandoned</text>\n\
        <text class='s' x='874' y='44'>started, not running</text>\n",
    )?;
    sheet.put_text(
        b"<text class='s' x='1009' y='44'>interval with lost value</text>\n\
        <text class='s' x='1139' y='44'>X abandoned: -value against that under way</text>\n",
    )
}

/// Appends the legend of the lanes of a schedule, whichever policy made it.
fn put_schedule_lanes_legend(sheet: &mut Sheet) -> Result<(), Memory> {
    sheet.put_text(
        b"<g stroke-width='12'><path class='w' d='M580 40h14'/><path class='g' d='M715 40h14'/>\n\
        <path class='h' d='M855 40h14'/></g>\n",
    )?;
    sheet.put_text(
        b"<text class='s' x='599' y='44'>release to deadline</text>\n\
        <text class='s' x='734' y='44'>the same, abandoned</text>\n\
        <text class='s' x='874' y='44'>started, not running</text>\n",
    )?;
    sheet.put_text(b"<text class='s' x='990' y='44'>X abandoned: -value</text>\n")
}

/// Appends the legend of the lanes, by what is drawn.
pub fn put_lanes_legend(sheet: &mut Sheet, totals: &Totals) -> Result<(), Memory> {
    match totals {
        Totals::OfRun(..) => put_run_lanes_legend(sheet),
        Totals::OfSchedule(..) => put_schedule_lanes_legend(sheet),
    }
}

/// Appends the legend of the load, by what is drawn.
pub fn put_load_legend(sheet: &mut Sheet, totals: &Totals) -> Result<(), Memory> {
    match totals {
        Totals::OfRun(..) => put_bands_legend(sheet),
        Totals::OfSchedule(..) => Ok(()),
    }
}
