//! The least ratio that the jobs of a run keep.
ghost use Rattle.std.specs.Prelude.{◌≡◌, ◌≤◌, ◌+◌, ◌++◌, ◌∷◌, [], ℕ, List, OnOk, Some, length, option_to_list};
ghost use Rattle.dover_model.specs.Common.{Instance, IsWithin, JobFacts, completed_value, in_lines, observed, worth};
ghost use Rattle.dover_model.specs.declared.factors.Factor.{Factor};
ghost use Rattle.admission.specs.Least.{IsLeast};
ghost use Rattle.run_record.specs.intervals.Rows.{IsRunOf};
ghost use Rattle.run_reports.specs.report.Counts.{job_released, jobs_released};
ghost use Rattle.run_reports.specs.report.Kept.{AreKeptBy, HaveDensities, kept_lines};

use admission::{Extremes, Numbered, least_kept};
use dover_model::{Event, Job, Memory, PackedEvent, Ratio};
use line_text::BackLine;
use root_compare::long_bound;

/// The least ratio that the jobs of a run keep, and the bound by it of what the run completes.
#[derive(Clone, Copy)]
pub(crate) struct Kept {
    least: Ratio,
    bound: u128,
}

/// Of the jobs so far how many they are, the least dense and the densest.
#[derive(Clone, Copy)]
struct Densities {
    count: u32,
    extremes: Option<Extremes>,
}

/// Takes a job in behind the others.
fn take_in(kept: &mut Densities, k: &Ratio, job: Job)
    requires { kept.old.count ≤ 5_000_001 }
    ensures count { kept.new.count ≡ kept.old.count + 1 }
    ensures kept { (jobs : List JobFacts) → HaveDensities k.now jobs kept.old
        → HaveDensities k.now (jobs ++ job ∷ []) kept.new }
{
    let next = Numbered {
        number: kept.count,
        job,
    };
    match &mut kept.extremes {
        Some(extremes) => extremes.add(k, &next),
        None => kept.extremes = Some(Extremes::of(k, next)),
    }
    kept.count += 1;
}

/// Takes the job that the step releases in behind the others, if it releases one.
fn take_released(kept: &mut Densities, k: &Ratio, event: &PackedEvent)
    requires { kept.old.count ≤ 5_000_001 }
    ensures count { kept.new.count ≤ kept.old.count + 1 }
    ensures kept { (jobs : List JobFacts) → HaveDensities k.now jobs kept.old
        → HaveDensities k.now (jobs ++ option_to_list (job_released event.now)) kept.new }
{
    if let Event::Release { job, .. } = event.event() {
        take_in(kept, k, job);
    }
}

/// The densities of the jobs that these steps release.
fn densities_of(k: &Ratio, run: &[PackedEvent]) -> Densities
    requires { length run.now ≤ 5_000_001 }
    ensures { HaveDensities k.now (jobs_released run.now) result }
{
    let mut kept = Densities {
        count: 0,
        extremes: None,
    };
    for event in run {
        take_released(&mut kept, k, event);
    }
    kept
}

/// The least ratio within the limits that the jobs of a run keep, in lowest terms, with the factor of the ratio `k` for
/// which they are valid: 1/1 where there is no job. Where a factor is declared, no schedule of the jobs is worth more than
/// the bound by it of what the run completes. It tries each denominator, and takes no memory.
pub fn kept_ratio(k: Ratio, run: &[PackedEvent]) -> Ratio
    requires { (J : Instance) × IsRunOf k run.now J }
    ensures least { (J : Instance) → IsRunOf k run.now J → IsLeast k.factor J.jobs result }
    ensures bound { (J : Instance) (f : Factor) (s : List ℕ) → IsRunOf k run.now J → k.factor ≡ Some f
        → IsWithin result (worth (observed J) s) (completed_value J) }
{
    let kept = densities_of(&k, run);
    match least_kept(&kept.extremes, &k) {
        Some(least) => least,
        None => k,
    }
}

/// What is kept by the jobs of the run, which completes this value: nothing where no factor is declared.
pub(crate) fn kept_of(k: Ratio, run: &[PackedEvent], value: u64) -> Option<Kept>
    requires { (J : Instance) × IsRunOf k run.now J × (value ≡ completed_value J) }
    ensures { (J : Instance) → IsRunOf k run.now J → value ≡ completed_value J
        → AreKeptBy k.factor J (kept_lines result) }
{
    match k.factor() {
        None => None,
        Some(_) => {
            let least = kept_ratio(k, run);
            let bound = long_bound(value, least);
            Some(Kept { least, bound })
        }
    }
}

/// Appends its line, if anything is kept.
pub(crate) fn put_kept(text: &mut Vec<u8>, kept: Option<Kept>) -> Result<(), Memory>
    ensures { OnOk result (text.new.items ≡ text.old.items ++ in_lines (kept_lines kept)) }
{
    let Some(it) = kept else {
        return Ok(());
    };
    let (p, q) = (u64::from(it.least.p()), u64::from(it.least.q()));
    let mut line = BackLine::new();
    line.put_long(it.bound);
    line.put_word(b" ");
    line.put_with_wide(b"kept", &[p, q]);
    text.extend_from_slice(line.bytes())?;
    Ok(())
}
