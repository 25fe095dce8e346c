use run_reports::views::Window;

/// The form of a report on the jobs of tasks.
#[derive(Clone, Copy)]
pub enum TaskForm {
    /// A line for each task.
    Lines,
    /// A picture of the run for a terminal, each task below its name: of this window, or of all its ticks.
    Timeline(Option<Window>),
    /// A picture of the run as SVG, each task in lanes of its own: of this window, or of all its ticks.
    Svg(Option<Window>),
}
