//! The importance ratio.
use crate::factors::Factor;
use std::marker::Model;

/// The greatest numerator.
pub const MOST_P: u32 = 1_000_000;

/// The greatest denominator.
pub const MOST_Q: u32 = 1_000;

/// The ratio `p/q`, at least one, that bounds the greatest density of value divided by the least.
#[derive(Clone, Copy, Debug, PartialEq, Eq)]
pub struct Ratio {
    p: u32,
    q: u32,
    factor: Option<Factor>,
}

impl Model for Ratio {
    ghost use Rattle.dover_model.specs.Fraction.{Fraction, IsRatio};

    ghost Value = { Fraction };

    ghost view = { λ k. record { p = k.p; q = k.q; factor = k.factor } };

    ghost invariant = { λ k. IsRatio (record { p = k.p; q = k.q; factor = k.factor }) };

    ghost inverse = { λ k. record { p = k.p; q = k.q; factor = k.factor } };
}

impl Ratio {
    ghost use Rattle.std.specs.Prelude.{◌≡◌, ◌↔◌, IsSome, IfSome, IfNone};
    ghost use Rattle.std.specs.Bool.{then_some};
    ghost use Rattle.dover_model.specs.Fraction.{IsRatio, is_ratio, fraction, with_factor, ratio_with};

    /// None exactly where p or q is out of the limits.
    pub fn new(p: u32, q: u32) -> Option<Ratio>
        ensures allowed { IsSome result ↔ IsRatio (fraction p q) }
        ensures facts { IfSome result (λ k. k ≡ fraction p q) }
    {
        if q < 1 || q > MOST_Q || p < q || p > MOST_P {
            return None;
        }
        Some(Ratio { p, q, factor: None })
    }

    /// The ratio of numbers that were read, of any size. None exactly where they are out of the limits.
    pub fn from_numbers(p: u64, q: u64) -> Option<Ratio>
        ensures is { result ≡ then_some (is_ratio (fraction p q)) (fraction p q) }
        ensures some { IfSome result (λ k. (k ≡ fraction p q) × IsRatio k) }
        ensures none { IfNone result (IsRatio (fraction p q) → ⊥) }
    {
        match (u32::try_from(p), u32::try_from(q)) {
            (Ok(p), Ok(q)) => Ratio::new(p, q),
            _ => None,
        }
    }

    /// The ratio of numbers that were read, of any size, with a factor or without. None exactly where they are out of
    /// the limits.
    pub fn of_numbers(p: u64, q: u64, factor: Option<(u64, u64)>) -> Option<Ratio>
        ensures is { result ≡ then_some (is_ratio (ratio_with p q factor)) (ratio_with p q factor) }
        ensures some { IfSome result (λ k. (k ≡ ratio_with p q factor) × IsRatio k) }
        ensures none { IfNone result (IsRatio (ratio_with p q factor) → ⊥) }
    {
        let ratio = Ratio::from_numbers(p, q)?;
        match factor {
            None => Some(ratio),
            Some((b, c)) => ratio.with_factor_of(b, c),
        }
    }

    /// The same ratio with the factor of numbers that were read, of any size. None exactly where they are out of the
    /// limits.
    fn with_factor_of(self, b: u64, c: u64) -> Option<Ratio>
        ensures is { result ≡ then_some (is_ratio (with_factor self b c)) (with_factor self b c) }
    {
        match (u32::try_from(b), u32::try_from(c)) {
            (Ok(b), Ok(c)) => self.with_factor(b, c),
            _ => None,
        }
    }

    /// The same ratio with the factor `b/c`, in the place of any that it has. None exactly where the factor is out of
    /// the limits: it is more than one.
    pub fn with_factor(self, b: u32, c: u32) -> Option<Ratio>
        ensures allowed { IsSome result ↔ IsRatio (with_factor self b c) }
        ensures facts { IfSome result (λ k. k ≡ with_factor self b c) }
    {
        if c < 1 || c > MOST_Q || b <= c || b > MOST_P {
            return None;
        }
        Some(Ratio {
            p: self.p,
            q: self.q,
            factor: Some(Factor { b, c }),
        })
    }

    /// The factor, where one is declared: more than one.
    pub fn factor(&self) -> Option<Factor>
        ensures is { result ≡ self.now.factor }
        ensures ratio { IsRatio self.now }
    {
        self.factor
    }

    /// The numerator: at least the denominator, and at most 1,000,000.
    pub fn p(&self) -> u32
        ensures is { result ≡ self.now.p }
        ensures ratio { IsRatio self.now }
    {
        self.p
    }

    /// The denominator: 1 to 1,000.
    pub fn q(&self) -> u32
        ensures is { result ≡ self.now.q }
        ensures ratio { IsRatio self.now }
    {
        self.q
    }
}
