//! Whether jobs can all be served, with a schedule or an overfull window as the certificate.
mod answer;
mod judging;
mod laws;
mod pieces;
mod queue;
mod simulation;
mod window;

pub use answer::Feasible;
pub use judging::judge_feasible;
pub use laws::an_overfull_window_excludes_meeting;
pub use pieces::add_piece;
pub use window::work_inside;
