//! Whole square roots.
ghost use Rattle.std.specs.Prelude.{ℕ, ◌≤◌, ◌<◌, ◌+◌, ◌*◌, ◌^◌, ◌↔◌, IsTrue};

/// The greatest number whose square is at most `x`, found bit by bit from the highest of its 64.
pub fn isqrt(x: u128) -> u128
    ensures within { result * result ≤ x }
    ensures greatest { (root : ℕ) → root * root ≤ x → root ≤ result }
{
    let mut root: u128 = 0;
    for bit in (0..64u32).rev() {
        let next = root + (1 << bit);
        if next * next <= x {
            root = next;
        }
    }
    root
}

/// The greatest number whose square is at most `m` times the square of `a`, also where that square has more than 128
/// bits: `root * a` and a rest up to `a`, where `root` is the whole root of `m`. The rest is found bit by bit from the
/// highest of its 60.
pub(crate) fn scaled_root(m: u128, a: u128) -> u128
    requires factor { m < 2 ^ 32 }
    requires scale { a < 2 ^ 60 }
    ensures within { result * result ≤ m * a * a }
    ensures greatest { (x : ℕ) → x * x ≤ m * a * a → x ≤ result }
{
    let root = isqrt(m);
    let mut rest: u128 = 0;
    for bit in (0..60u32).rev() {
        let next = rest + (1 << bit);
        if is_below_root(m, root, a, next) {
            rest = next;
        }
    }
    root * a + rest
}

/// Whether the square of `root * a + rest` is at most `m * a * a`, where `root` is the whole root of `m`. What is left
/// of both sides without the square of `root * a` is divided by `a`, so that no number has more than 128 bits.
fn is_below_root(m: u128, root: u128, a: u128, rest: u128) -> bool
    requires factor { m < 2 ^ 32 }
    requires scale { a < 2 ^ 60 }
    requires rest { rest < 2 ^ 60 }
    requires within { root * root ≤ m }
    requires greatest { m < (root + 1) * (root + 1) }
    ensures { IsTrue result ↔ ((root * a + rest) * (root * a + rest) ≤ m * a * a) }
{
    let left = ((m - root * root) * a).saturating_sub(2 * root * rest);
    rest <= a && rest * rest <= a * left.min(a)
}
