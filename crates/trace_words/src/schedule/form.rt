use run_reports::views::Window;

/// The form of a report on a schedule.
#[derive(Clone, Copy)]
pub enum ScheduleForm {
    /// The table of the jobs with their fates, as comma-separated fields.
    Table,
    /// A picture for a terminal: of this window, or of all its ticks.
    Timeline(Option<Window>),
    /// A picture as SVG: of this window, or of all its ticks.
    Svg(Option<Window>),
}
