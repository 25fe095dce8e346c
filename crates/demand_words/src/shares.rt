//! Shares of the processor, in parts of a scale, and the horizon that they give.
ghost use Rattle.std.specs.Prelude.{◌≡◌, ◌≤◌, ◌<◌, ◌*◌, ◌-◌, ◌/◌, ◌^◌, ℕ, IfSome, IsNone};
ghost use Rattle.std.specs.List.{sum_by};
ghost use Rattle.dover_model.specs.Limits.{most_work};
ghost use Rattle.demand_words.specs.Demanded.{AreLimited, all_facts, facts, share};
ghost use Rattle.demand_words.specs.Looks.{SharesTell};

use task_words::tasks::PeriodicTask;

/// The sums over all tasks, in parts of a scale.
#[derive(Clone, Copy)]
struct Shares {
    /// Their shares, rounded up.
    most: u128,
    /// Their shares, rounded down.
    least: u128,
    /// What they ask for beyond their shares at most.
    beyond: u128,
}

/// What shares of the processor tell.
#[derive(Clone, Copy)]
pub(crate) enum Told {
    /// Together they are more than the scale.
    Over,
    /// From this length on no window is too short.
    Horizon(u64),
    /// They are too close to the scale, or above it.
    Unknown,
}

/// A task's work in parts of the scale. It doesn't exceed 2^104.
fn scaled(task: &PeriodicTask, scale: u128) -> u128
    requires work { task.now.work ≤ most_work }
    requires scale { scale ≤ 2 ^ 64 }
    ensures is { result ≡ scale * task.now.work }
    ensures few { result ≤ 2 ^ 104 }
{
    scale * u128::from(task.work)
}

/// A task's share, rounded up.
fn most_share(task: &PeriodicTask, scale: u128) -> u128
    requires period { 1 ≤ task.now.period }
    requires work { task.now.work ≤ most_work }
    requires scale { scale ≤ 2 ^ 64 }
    ensures is { result ≡ share scale (facts task.now) }
    ensures few { result ≤ 2 ^ 104 }
{
    scaled(task, scale).div_ceil(u128::from(task.period))
}

/// A task's share, rounded down.
fn least_share(task: &PeriodicTask, scale: u128) -> u128
    requires period { 1 ≤ task.now.period }
    requires work { task.now.work ≤ most_work }
    requires scale { scale ≤ 2 ^ 64 }
    ensures is { result ≡ scale * task.now.work / task.now.period }
    ensures few { result ≤ 2 ^ 104 }
{
    scaled(task, scale) / u128::from(task.period)
}

/// What a task asks for beyond its share at most.
fn beyond(task: &PeriodicTask, scale: u128) -> u128
    requires period { 1 ≤ task.now.period }
    requires work { task.now.work ≤ most_work }
    requires scale { scale ≤ 2 ^ 64 }
    ensures is { result ≡ share scale (facts task.now) * (task.now.period - task.now.deadline) }
    ensures few { result ≤ 2 ^ 105 }
{
    most_share(task, scale) * u128::from(task.period.saturating_sub(task.deadline))
}

/// The sums over these tasks.
fn sum_shares(tasks: &[PeriodicTask], scale: u128) -> Shares
    requires limits { AreLimited tasks.now }
    requires scale { scale ≤ 2 ^ 64 }
    ensures most { result.most ≡ sum_by (share scale) (all_facts tasks.now) }
    ensures least { result.least ≡ sum_by (λ t. scale * t.work / t.distance) (all_facts tasks.now) }
    ensures beyond { result.beyond
        ≡ sum_by (λ t. share scale t * (t.distance - t.due)) (all_facts tasks.now) }
{
    let mut sums = Shares {
        most: 0,
        least: 0,
        beyond: 0,
    };
    for task in tasks {
        sums.most += most_share(task, scale);
        sums.least += least_share(task, scale);
        sums.beyond += beyond(task, scale);
    }
    sums
}

/// The first length from which on no window is too short by these shares, if they give one below 2^64.
fn horizon(shares: &Shares, scale: u128) -> Option<u64>
    ensures all { IfSome result (λ horizon. shares.now.most ≤ scale) }
    ensures far { IfSome result (λ horizon. shares.now.beyond ≤ (scale - shares.now.most) * horizon) }
    ensures first { (x : ℕ) → shares.now.most ≤ scale → shares.now.beyond ≤ (scale - shares.now.most) * x
        → IfSome result (λ horizon. horizon ≤ x) }
    ensures none { (x : ℕ) → shares.now.most ≤ scale → shares.now.beyond ≤ (scale - shares.now.most) * x
        → IsNone result → 2 ^ 64 ≤ x }
{
    if shares.most > scale {
        return None;
    }
    if shares.beyond == 0 {
        return Some(0);
    }
    if shares.most == scale {
        return None;
    }
    let horizon = shares.beyond.div_ceil(scale - shares.most);
    if horizon > u128::from(u64::MAX) {
        return None;
    }
    Some(horizon as u64)
}

/// What the shares of the tasks tell, in parts of a scale.
pub(crate) fn told_by_shares(tasks: &[PeriodicTask], scale: u128) -> Told
    requires limits { AreLimited tasks.now }
    requires some { 1 ≤ scale }
    requires scale { scale ≤ 2 ^ 64 }
    ensures { SharesTell (all_facts tasks.now) scale result }
{
    let shares = sum_shares(tasks, scale);
    if shares.least > scale {
        return Told::Over;
    }
    match horizon(&shares, scale) {
        Some(horizon) => Told::Horizon(horizon),
        None => Told::Unknown,
    }
}
