//! How many jobs a duel has, and whether they may be served.
ghost use Rattle.std.specs.Prelude.{◌≡◌, ◌↔◌, ◌++◌, ◌∷◌, [], List, length, false, None, true, IfSome, IsSome};
ghost use Rattle.admission.specs.Kept.{StandsFor};
ghost use Rattle.dover_model.specs.Common.{refusal_of, JobFacts};
ghost use Rattle.dover_model.specs.declared.events.Version.TheVariants.{One};
ghost use Rattle.stated_jobs.specs.duel.Game.{AreValid};
ghost use Rattle.stated_jobs.specs.duel.Jobs.{duel_jobs};
ghost use Rattle.stated_jobs.specs.duel.Kept.{IsShare};

use crate::duel::coming::{Coming, Next};
use crate::duel::links::Share;
use admission::Admission;
use dover_model::{Job, Ratio, Version};

/// Admits the job, if it may be.
fn admit(admission: &mut Admission, job: &Job) -> bool
    ensures admitted { (jobs : List JobFacts) → StandsFor admission.old jobs → result ≡ true →
        StandsFor admission.new (jobs ++ job.now ∷ []) × (refusal_of admission.old.rules jobs job.now ≡ None) }
    ensures refused { (jobs : List JobFacts) → StandsFor admission.old jobs → result ≡ false →
        refusal_of admission.old.rules jobs job.now ≡ None → ⊥ }
    ensures rules { admission.new.rules ≡ admission.old.rules }
{
    match admission.check_job(*job) {
        Ok(job) => {
            admission.admit(job);
            true
        }
        Err(_) => false,
    }
}

/// How many jobs the duel for a share has. None exactly where they aren't valid: where they, or one of them, are too
/// large for a feed.
pub(crate) fn job_count(k: Ratio, share: Share) -> Option<u32>
    requires { IsShare share }
    ensures count { IfSome result (λ count. count ≡ length (duel_jobs k share.whole share.part)) }
    ensures valid { IsSome result ↔ AreValid One k (duel_jobs k share.whole share.part) }
{
    let mut coming = Coming::new(k, share);
    let mut admission = Admission::new(Version::One, k);
    while admission.count() <= Version::One.most_jobs() {
        match coming.next_job() {
            Next::Over => return Some(admission.count()),
            Next::TooLarge => return None,
            Next::Job(job) => {
                if !admit(&mut admission, &job) {
                    return None;
                }
            }
        }
    }
    unreachable!()
}
