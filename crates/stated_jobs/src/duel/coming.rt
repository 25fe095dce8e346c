//! The jobs of a duel, one by one.
ghost use Rattle.std.specs.Prelude.{◌≡◌, ◌≤◌, ◌+◌, ◌*◌, ◌∷◌, [], false, IfSome, IsNone, IsTrue};
ghost use Rattle.dover_model.specs.Common.{tight_job, IsJob, last_tick};
ghost use Rattle.stated_jobs.specs.duel.Jobs.{jobs_of_links};
ghost use Rattle.stated_jobs.specs.duel.Kept.{IsShare, IsModest, GoesOn, link_of};

use crate::duel::links::{Link, Share, first_work, is_last, next_work, small_work};
use dover_model::{Job, Ratio};
use std::marker::Model;

/// How many links there may be behind the first.
const MORE_LINKS: u32 = 1_000_000;

/// What comes next.
#[derive(Drop)]
pub enum Next {
    /// This job.
    Job(Job),
    /// All jobs were given.
    Over,
    /// The next job breaks a limit of one job.
    TooLarge,
}

/// A job without slack, whose value is its density times its work. None exactly where it breaks a limit.
fn tight_job(release: u64, work: u64, density: u64) -> Option<Job>
    requires early { release ≤ last_tick }
    requires modest { work ≤ 1_000_000_000_000_001 }
    requires worth { density * work ≤ 1_000_000_000_000_001_000 }
    ensures some { IfSome result (λ job. job ≡ tight_job release work density) }
    ensures none { IsNone result → IsJob (tight_job release work density) → ⊥ }
{
    Job::new(release, work, release + work, density * work)
}

/// Whether no link comes behind this one, where there may be so many more.
fn ends(k: Ratio, share: Share, more: u32, link: Link) -> bool
    requires share { IsShare share }
    requires modest { IsModest link }
    ensures over { IsTrue result → jobs_of_links k share.whole share.part more (link_of link)
        ≡ tight_job link.release link.work k.q ∷ [] }
    ensures on { result ≡ false → GoesOn k share.whole share.part more (link_of link) }
{
    if more == 0 {
        return true;
    }
    is_last(k, share, link)
}

/// The jobs of a duel that are still to come.
#[derive(Drop)]
pub struct Coming {
    k: Ratio,
    share: Share,
    /// The next tick, and the ticks that small jobs still have from it on, in pieces of this size.
    tick: u64,
    left: u64,
    size: u128,
    /// The work of the link behind them, and how many more there may be behind it.
    work: u64,
    more: u32,
    is_over: bool,
}

impl Model for Coming {
    ghost use Rattle.std.specs.Prelude.{List};
    ghost use Rattle.dover_model.specs.JobFacts.{JobFacts};

    ghost Value = { List JobFacts };

    ghost use Rattle.stated_jobs.specs.duel.Kept.{coming_of, IsKept};

    ghost view = { coming_of };

    ghost invariant = { IsKept };
}

impl Coming {
    ghost use Rattle.std.specs.Prelude.{◌≡◌};
    ghost use Rattle.dover_model.specs.Fraction.{IsRatio};
    ghost use Rattle.stated_jobs.specs.duel.Jobs.{duel_jobs};
    ghost use Rattle.stated_jobs.specs.duel.Kept.{Gives, IsShare};

    /// All jobs of the duel for a share.
    pub fn new(k: Ratio, share: Share) -> Coming
        requires { IsShare share }
        ensures jobs { result ≡ duel_jobs k share.whole share.part }
        ensures ratio { IsRatio k }
    {
        // That the numbers of a ratio are within its limits is what reading one of them tells.
        let _ = k.p();
        Coming {
            k,
            share,
            tick: 0,
            left: 0,
            size: 1,
            work: first_work(k, share),
            more: MORE_LINKS,
            is_over: false,
        }
    }

    /// Gives the next job.
    pub fn next_job(&mut self) -> Next
        ensures { Gives result self.old self.new }
    {
        if self.is_over {
            return Next::Over;
        }
        if self.left > 0 {
            let work = self.size.min(u128::from(self.left)) as u64;
            let Some(job) = tight_job(self.tick, work, u64::from(self.k.p())) else {
                return Next::TooLarge;
            };
            self.tick += work;
            self.left -= work;
            return Next::Job(job);
        }
        let link = Link {
            release: self.tick,
            work: self.work,
        };
        let Some(job) = tight_job(link.release, link.work, u64::from(self.k.q())) else {
            return Next::TooLarge;
        };
        self.is_over = ends(self.k, self.share, self.more, link);
        if self.is_over {
            return Next::Job(job);
        }
        self.more -= 1;
        self.left = link.work - 1;
        self.size = small_work(self.k, self.share, link);
        self.work = next_work(self.k, self.share, link);
        Next::Job(job)
    }
}
