//! Laws that no part of the machine stands on: of jobs that are never lost, of changes of hands and sections, of hard
//! work, of what tasks can ask for, and of other jobs and ratios.
#![tactic(auto)]

pub mod demand_laws;
pub mod hard_laws;
pub mod ratio_laws;
pub mod sure_laws;
pub mod switch_laws;
