//! That each stated list is valid, as the contract of a function that does nothing.
ghost use Rattle.std.specs.Prelude.{ℕ, ◌≤◌};
ghost use Rattle.dover_model.specs.declared.events.Version.{Version};
ghost use Rattle.dover_model.specs.declared.events.Version.TheVariants.{Two};
ghost use Rattle.dover_model.specs.Common.{Fraction, IsRatio, most_jobs, IsValid, jobs_under, generated_jobs};

/// The jobs of a seed, as many as may be, are valid for their ratio.
pub fn generated_jobs_are_valid()
    ensures { (seed count : ℕ) (k : Fraction) (version : Version) → IsRatio k → count ≤ most_jobs Two →
        IsValid (jobs_under version k (generated_jobs seed count k)) }
{}
