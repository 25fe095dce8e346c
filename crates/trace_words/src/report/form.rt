use run_reports::views::Window;

/// The form of a report on a run.
#[derive(Clone, Copy)]
pub enum Form {
    /// The ratio, the summary and the intervals, line by line.
    Text,
    /// The table of the jobs with their fates, as comma-separated fields.
    Table,
    /// The run as events for a viewer of traces.
    Chrome,
    /// What happened to the job of this number, and by which test.
    Why(u32),
    /// A picture of the run for a terminal: of this window, or of all its ticks.
    Timeline(Option<Window>),
    /// A picture of the run as SVG: of this window, or of all its ticks.
    Svg(Option<Window>),
}
