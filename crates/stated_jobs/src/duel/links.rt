//! The numbers of a duel's links and of their small jobs.
ghost use Rattle.std.specs.Prelude.{◌≡◌, ◌≤◌, ◌↔◌, IsTrue};
ghost use Rattle.stated_jobs.specs.duel.Jobs.{first_link, is_last, small_work};
ghost use Rattle.stated_jobs.specs.duel.Kept.{IsShare, IsModest, link_of};
ghost use Rattle.stated_jobs.specs.duel.Links.{IsTooMuch, leaving, next_link};

use dover_model::Ratio;

/// A part of a whole, both from 1 to 1,000,000: what no on-line scheduler is to get of the best schedule.
#[derive(Clone, Copy)]
pub struct Share {
    /// The numerator.
    pub part: u64,
    /// The denominator.
    pub whole: u64,
}

/// A link: its release and its work.
#[derive(Clone, Copy)]
pub(crate) struct Link {
    pub(crate) release: u64,
    pub(crate) work: u64,
}

/// Whether the share is more than the rules save.
pub(crate) fn is_too_much(k: Ratio, share: Share) -> bool
    requires { IsShare share }
    ensures { IsTrue result ↔ IsTooMuch k share.whole share.part }
{
    let (p, q, part) = (u128::from(k.p()), u128::from(k.q()), u128::from(share.part));
    let over = (q * u128::from(share.whole)).saturating_sub((p + q) * part);
    over * over < 4 * p * q * part * part
}

/// The work of the first link.
pub(crate) fn first_work(k: Ratio, share: Share) -> u64
    requires { IsShare share }
    ensures is { result ≡ (first_link k share.whole share.part).1 }
    ensures some { 1 ≤ result }
    ensures small { result ≤ 1_000_000_000_001 }
{
    share.whole * u64::from(k.p()) / (share.part * u64::from(k.q())) + 1
}

/// So many times what the small jobs before a link and the link itself are worth, as the share's part says.
fn leaving(k: Ratio, share: Share, link: Link) -> u128
    requires share { IsShare share }
    requires modest { IsModest link }
    ensures { result ≡ leaving k share.part (link_of link) }
{
    let (p, q) = (u128::from(k.p()), u128::from(k.q()));
    u128::from(share.part) * (p * u128::from(link.release) + q * u128::from(link.work))
}

/// Whether staying with the link is a loss without a further one.
pub(crate) fn is_last(k: Ratio, share: Share, link: Link) -> bool
    requires share { IsShare share }
    requires modest { IsModest link }
    ensures { result ≡ is_last k share.whole share.part (link_of link) }
{
    let staying = u128::from(share.whole) * (u128::from(k.q()) * u128::from(link.work));
    staying < leaving(k, share, link)
}

/// The work of a small job beside the link.
pub(crate) fn small_work(k: Ratio, share: Share, link: Link) -> u128
    requires share { IsShare share }
    requires modest { IsModest link }
    ensures is { result ≡ small_work k share.whole share.part (link_of link) }
    ensures some { 1 ≤ result }
{
    let paid = u128::from(share.whole) * u128::from(k.p());
    ((leaving(k, share, link) - 1) / paid).max(1)
}

/// The work of the link that comes in the last tick of this one.
pub(crate) fn next_work(k: Ratio, share: Share, link: Link) -> u64
    requires share { IsShare share }
    requires modest { IsModest link }
    ensures is { result ≡ (next_link k share.whole share.part (link_of link)).1 }
    ensures some { 1 ≤ result }
    ensures small { result ≤ 1_000_000_000_000_001 }
{
    let (p, q) = (u128::from(k.p()), u128::from(k.q()));
    let (part, whole) = (u128::from(share.part), u128::from(share.whole));
    let release = u128::from(link.release + link.work - 1);
    let missing = (whole * q * u128::from(link.work)).saturating_sub(part * p * release);
    (missing / (part * q) + 1) as u64
}
