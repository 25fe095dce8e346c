//! Draws, and the job of four of them.
ghost use Rattle.std.specs.Prelude.{◌≡◌, ◌<◌, ◌≤◌, ◌^◌, ◌+◌, ◌/◌, ◌%◌, ◌*◌};
ghost use Rattle.dover_model.specs.Generator.{next_state, high_bits, job_of_draws};

use dover_model::{Job, Ratio};

/// The state after one more draw.
pub fn drawn(state: u64) -> u64
    requires { state < 2 ^ 31 }
    ensures is { result ≡ next_state state }
    ensures small { result < 2 ^ 31 }
{
    (1_103_515_245 * state + 12_345) % 2_147_483_648
}

/// The job of four draws, whose release comes at the last release or up to 7 ticks later.
pub fn drawn_job(k: Ratio, last: u64, release: u64, work: u64, slack: u64, density: u64) -> Job
    requires early { last ≤ 16_000_000 }
    ensures { result
        ≡ job_of_draws k last (high_bits release) (high_bits work) (high_bits slack) (high_bits density) }
{
    let most = u64::from(k.p() / k.q()).min(1_000);
    let from = last + release / 65_536 % 8;
    let ticks = 1 + work / 65_536 % 20;
    let value = (1 + density / 65_536 % most) * ticks;
    Job::new(from, ticks, from + ticks + slack / 65_536 % 30, value).unwrap()
}
