//! That an overfull window is a certificate, as the contract of a function that does nothing.
ghost use Rattle.std.specs.Prelude.{ℕ};
ghost use Rattle.dover_model.specs.Common.{Instance, Meets, IsOverfull};

/// Where the jobs of a window have more work than it has ticks, no schedule serves every job.
pub fn an_overfull_window_excludes_meeting()
    ensures { (J : Instance) (a b w : ℕ) → IsOverfull J.jobs a b w → Meets J → ⊥ }
{}
