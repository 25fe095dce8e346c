//! A cap on many jobs, by prices for ticks in layers.
ghost use Rattle.std.specs.Prelude.{◌≡◌, ◌≤◌, ◌+◌, ◌-◌, ◌*◌, ℕ, List, cond, get_or, length, OnOk, IfOk};
ghost use Rattle.dover_model.specs.Common.{IsInOrder, Rules, total_value, most_jobs, worth, is_inside};
ghost use Rattle.dover_model.specs.declared.events.Version.TheVariants.{Two};
ghost use Rattle.clairvoyant.specs.overload.Pricing.{HasPriced, IsRaised};
ghost use Rattle.clairvoyant.specs.overload.Stretches.{Caps};

use crate::overload::overfull::{Ticks, overfull};
use crate::overload::released::{is_inside, released};
use dover_model::jobs::LAST_TICK;
use dover_model::{Job, Memory};
use std::alloc::Global;

/// How many units of price one of value has.
const SCALE: u128 = 1_000_000_000_000_000;

/// How many rounds of layers there are.
const LAYERS: u32 = 6;

/// A layer of prices costs no more than this, and no layer is put on what costs more.
const MOST_COST: u128 = 1_000_000_000_000_000_000_000_000_000_000_000_000;

/// For each job what one of its ticks is priced at, and what schedules pay at most for the work of the jobs that they
/// serve; in units of price.
#[derive(Drop)]
struct Priced {
    prices: Vec<u128>,
    cost: u128,
}

/// What a job is worth beyond the price of its work, in units of price.
fn beyond(job: &Job, price: u128) -> u128
    ensures is { result ≡ 1_000_000_000_000_000 * job.now.value - price * job.now.work }
    ensures small { result ≤ 1_000_000_000_000_000_000_000_000 }
{
    let value = SCALE * u128::from(job.value());
    value.saturating_sub(price.saturating_mul(u128::from(job.work())))
}

/// The jobs that are worth more than the price of their work.
fn rest(alloc: Global, jobs: &[Job], prices: &[u128]) -> Result<Vec<Job>, Memory> {
    let mut rest = Vec::new(alloc);
    for (place, job) in jobs.iter().enumerate() {
        if 0 < beyond(job, prices.get(place).copied().unwrap_or(0)) {
            rest.push(*job)?;
        }
    }
    Ok(rest)
}

/// The work of the jobs that are worth more than its price inside some ticks, each by how much a tick of it is worth
/// more.
fn offers(
    alloc: Global,
    jobs: &[Job],
    prices: &[u128],
    ticks: Ticks,
) -> Result<Vec<(u128, u64)>, Memory>
    requires { IsInOrder jobs.now }
{
    let mut offers = Vec::new(alloc);
    for place in released(jobs, ticks.from)..released(jobs, ticks.until) {
        let (Some(job), Some(price)) = (jobs.get(place), prices.get(place)) else {
            break;
        };
        let more = beyond(job, *price);
        if 0 < more && job.deadline() <= ticks.until {
            offers.push((more / u128::from(job.work()), job.work()))?;
        }
    }
    Ok(offers)
}

/// How much a tick is to cost more: by falling offers, that with which there is more work than ticks. Nothing is
/// claimed of it.
fn dearer(offers: &mut [(u128, u64)], ticks: u64) -> u128 {
    offers.sort_unstable();
    let mut work: u64 = 0;
    for (more, offered) in offers.iter().rev() {
        work = work.saturating_add(*offered);
        if ticks < work {
            return *more;
        }
    }
    0
}

/// The price that a tick of a job goes up to.
fn raised(price: u128, job: &Job, ticks: Ticks, more: u128) -> u128
    ensures { result ≤ price + cond (is_inside ticks.from ticks.until job.now) more 0 }
{
    if is_inside(job, ticks.from, ticks.until) {
        return price.saturating_add(more);
    }
    price
}

/// Raises the prices of the jobs inside some ticks.
fn raise(prices: &mut [u128], jobs: &[Job], ticks: Ticks, more: u128)
    requires in_order { IsInOrder jobs.now }
    requires count { length prices.old ≡ length jobs.now }
    ensures count { length prices.new ≡ length prices.old }
    ensures raised { IsRaised jobs.now ticks.from ticks.until more prices.old prices.new }
{
    let mut place = released(jobs, ticks.from);
    let second = released(jobs, ticks.until);
    while place < second {
        prices[place] = raised(prices[place], &jobs[place], ticks, more);
        place += 1;
    }
}

impl Priced {
    /// Puts one more layer on some ticks, unless it is too dear to be counted.
    fn put(&mut self, jobs: &[Job], ticks: Ticks, more: u128)
        requires in_order { IsInOrder jobs.now }
        requires priced { HasPriced jobs.now self.old }
        ensures { HasPriced jobs.now self.new }
    {
        let Ticks { from, until } = ticks;
        if until < from || LAST_TICK < until || MOST_COST < self.cost {
            return;
        }
        let Some(cost) = more.checked_mul(u128::from(until - from)) else {
            return;
        };
        if MOST_COST < cost {
            return;
        }
        self.cost += cost;
        raise(&mut self.prices, jobs, ticks, more);
    }

    /// Puts a layer on each of these stretches, at half of what would be best if it were the last.
    fn put_each(
        &mut self,
        alloc: Global,
        jobs: &[Job],
        stretches: &[Ticks],
        is_last: bool,
    ) -> Result<(), Memory>
        requires in_order { IsInOrder jobs.now }
        requires priced { HasPriced jobs.now self.old }
        ensures { OnOk result (HasPriced jobs.now self.new) }
    {
        for ticks in stretches {
            let mut offers = offers(alloc, jobs, &self.prices, *ticks)?;
            let more = dearer(&mut offers, ticks.until.saturating_sub(ticks.from));
            self.put(jobs, *ticks, if is_last { more } else { more / 2 });
        }
        Ok(())
    }

    /// Puts layers where the jobs that are worth more than their price are too many.
    fn round(&mut self, alloc: Global, jobs: &[Job], is_last: bool) -> Result<(), Memory>
        requires in_order { IsInOrder jobs.now }
        requires priced { HasPriced jobs.now self.old }
        ensures { OnOk result (HasPriced jobs.now self.new) }
    {
        let rest = rest(alloc, jobs, &self.prices)?;
        let stretches = overfull(alloc, &rest)?;
        self.put_each(alloc, jobs, &stretches, is_last)
    }

    /// What no schedule is worth more than, in units of price.
    fn most(&self, jobs: &[Job]) -> u128
        requires count { length jobs.now ≤ most_jobs Two }
        requires priced { HasPriced jobs.now self.now }
        ensures { (rules : Rules) (s : List ℕ) →
            1_000_000_000_000_000 * worth (record { rules = rules; jobs = jobs.now }) s ≤ result }
    {
        let mut most = self.cost;
        let mut place = 0;
        while place < jobs.len() {
            most += beyond(&jobs[place], self.prices[place]);
            place += 1;
        }
        most
    }
}

/// No price for any job.
fn unpriced(alloc: Global, count: usize) -> Result<Vec<u128>, Memory>
    ensures count { IfOk result (λ prices. length prices.items ≡ count) }
    ensures none { IfOk result (λ prices. (n : ℕ) → get_or prices.items n 0 ≡ 0) }
{
    Ok(vec![in alloc; 0; count]?)
}

/// A cap on jobs: no schedule of them is worth more. `total` is their value.
///
/// # Errors
///
/// `Memory` where there is none, and nothing else.
pub(crate) fn cap_by_prices(alloc: Global, jobs: &[Job], total: u64) -> Result<u64, Memory>
    requires in_order { IsInOrder jobs.now }
    requires count { length jobs.now ≤ most_jobs Two }
    requires total { total ≡ total_value jobs.now }
    ensures cap { IfOk result (λ cap. Caps jobs.now cap) }
    ensures less { IfOk result (λ cap. cap ≤ total) }
{
    let mut priced = Priced {
        prices: unpriced(alloc, jobs.len())?,
        cost: 0,
    };
    for layer in 1..=LAYERS {
        priced.round(alloc, jobs, layer == LAYERS)?;
    }
    let most = priced.most(jobs) / SCALE;
    if most < u128::from(total) {
        return Ok(most as u64);
    }
    Ok(total)
}
