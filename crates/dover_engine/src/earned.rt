//! What jobs that are forgotten have earned.
ghost use Rattle.std.specs.Prelude.{◌≡◌, ◌+◌, ◌<◌, ◌^◌};

use std::marker::Model;

// A sum of values in two words. They ask for a place at a multiple of 8 bytes, where 128 bits would ask for 16.
#[derive(Drop)]
pub(crate) struct Earned {
    high: u64,
    low: u64,
}

impl Model for Earned {
    ghost use Rattle.std.specs.Prelude.{ℕ, ◌+◌, ◌*◌, ◌^◌};

    ghost Value = { ℕ };

    ghost view = { λ e. e.high * 2 ^ 64 + e.low };
}

impl Earned {
    // No job is forgotten yet.
    pub(crate) fn nothing() -> Earned
        ensures { result ≡ 0 }
    {
        Earned { high: 0, low: 0 }
    }

    // The sum.
    pub(crate) fn total(&self) -> u128
        ensures { result ≡ self.now }
    {
        u128::from(self.high) * (1 << 64) + u128::from(self.low)
    }

    // So much more.
    pub(crate) fn add(&mut self, value: u64)
        requires { self.old + value < 2 ^ 128 }
        ensures { self.new ≡ self.old + value }
    {
        let free = u64::MAX - self.low;
        if value <= free {
            self.low += value;
            return;
        }
        self.high += 1;
        self.low = value - free - 1;
    }
}
