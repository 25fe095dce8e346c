//! What is answered where a duel is asked for.
ghost use Rattle.stated_jobs.specs.duel.Answers.{Answers};
ghost use Rattle.stated_jobs.specs.duel.Kept.{IsShare};

use crate::duel::counting::job_count;
use crate::duel::links::{Share, is_too_much};
use dover_model::Ratio;

/// Why there is no duel.
#[derive(Clone, Copy)]
pub enum NoDuel {
    /// The share is no more than the rules save: they get it on all jobs.
    Share,
    /// The duel's jobs don't fit into a feed.
    Size,
    /// It has fewer jobs than the front that is asked for.
    Front,
}

/// How many jobs the front of the duel has: so many as are asked for, or all.
///
/// # Errors
///
/// The first cause of `NoDuel`, in their order, for which there is none.
pub fn front_count(k: Ratio, share: Share, front: Option<u32>) -> Result<u32, NoDuel>
    requires { IsShare share }
    ensures { Answers k share front result }
{
    if !is_too_much(k, share) {
        return Err(NoDuel::Share);
    }
    let Some(count) = job_count(k, share) else {
        return Err(NoDuel::Size);
    };
    match front {
        None => Ok(count),
        Some(asked) if asked <= count => Ok(asked),
        Some(_) => Err(NoDuel::Front),
    }
}
