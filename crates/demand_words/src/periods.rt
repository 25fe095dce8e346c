//! A common multiple of the periods.
ghost use Rattle.std.specs.Prelude.{◌≡◌, ◌≤◌, ◌<◌, ◌^◌, ℕ, length, IfSome};
ghost use Rattle.std.specs.Int.{IsGcd, ◌∣◌};
ghost use Rattle.task_words.specs.budget.Budgets.{task_at};
ghost use Rattle.demand_words.specs.Demanded.{AreLimited};

use task_words::tasks::PeriodicTask;

/// The greatest common multiple that is looked for: 2^62.
const MOST: u128 = 0x4000_0000_0000_0000;

/// The greatest common divisor.
fn common_divisor(a: u64, b: u64) -> u64
    ensures { IsGcd a b result }
{
    let mut first = a;
    let mut second = b;
    while second != 0 {
        let rest = first % second;
        first = second;
        second = rest;
    }
    first
}

/// A common multiple of two numbers that aren't 0, by their greatest common divisor, if it is at most 2^62.
fn common_multiple(a: u64, b: u64) -> Option<u64>
    requires a { 1 ≤ a }
    requires b { 1 ≤ b }
    ensures first { IfSome result (λ multiple. a ∣ multiple) }
    ensures second { IfSome result (λ multiple. b ∣ multiple) }
    ensures some { IfSome result (λ multiple. 1 ≤ multiple) }
    ensures small { IfSome result (λ multiple. multiple ≤ 2 ^ 62) }
{
    let multiple = u128::from(a / common_divisor(a, b)) * u128::from(b);
    if multiple > MOST {
        return None;
    }
    Some(multiple as u64)
}

/// A common multiple of all periods, if one is found that is at most 2^62.
pub(crate) fn common_period(tasks: &[PeriodicTask]) -> Option<u64>
    requires { AreLimited tasks.now }
    ensures each { IfSome result (λ period. (y : ℕ) → y < length tasks.now → (task_at tasks.now y).period ∣ period) }
    ensures some { IfSome result (λ period. 1 ≤ period) }
    ensures small { IfSome result (λ period. period ≤ 2 ^ 62) }
{
    let mut period = 1u64;
    for task in tasks {
        match common_multiple(period, task.period) {
            Some(multiple) => period = multiple,
            None => return None,
        }
    }
    Some(period)
}

/// The greatest deadline.
pub(crate) fn last_deadline(tasks: &[PeriodicTask]) -> u64
    requires { AreLimited tasks.now }
    ensures each { (y : ℕ) → y < length tasks.now → (task_at tasks.now y).deadline ≤ result }
    ensures small { result ≤ 1_000_000_000_000 }
{
    let mut last = 0u64;
    for task in tasks {
        last = last.max(task.deadline);
    }
    last
}
