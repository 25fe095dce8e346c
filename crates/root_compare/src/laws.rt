//! Laws of numbers below a root, each the contract of a function that does nothing.
ghost use Rattle.std.specs.Prelude.{◌≤◌, ◌<◌, ◌+◌, ◌-◌, ◌*◌, ◌↔◌, ℕ, List, sum_by};
ghost use Rattle.dover_model.specs.Common.{Fraction, IsHeavy, Each, IsExcess};
ghost use Rattle.root_compare.specs.Roots.{IsBelowRoot};

/// Numbers below a root times a number multiply and add up, and less stays below more.
pub fn numbers_below_a_root()
    ensures product { (m x y a b : ℕ) → IsBelowRoot m x a → IsBelowRoot m y b → x * y ≤ m * a * b }
    ensures sum { (m x y a b : ℕ) → IsBelowRoot m x a → IsBelowRoot m y b → IsBelowRoot m (x + y) (a + b) }
    ensures sums { (m : ℕ) (pairs : List (ℕ × ℕ)) → Each (λ x_a. IsBelowRoot m x_a.0 x_a.1) pairs →
        IsBelowRoot m (sum_by (λ x_a. x_a.0) pairs) (sum_by (λ x_a. x_a.1) pairs) }
    ensures less { (m x y a b : ℕ) → y ≤ x → a ≤ b → IsBelowRoot m x a → IsBelowRoot m y b }
{}

/// The inequalities of an interval, each as a number below the root of p times q.
pub fn forms_of_rows()
    ensures displaced { (k : Fraction) (d z : ℕ) → 1 ≤ k.q → k.q ≤ k.p →
        (k.p * d * d ≤ k.q * z * z) ↔ IsBelowRoot (k.p * k.q) (k.p * d) z }
    ensures excess { (k : Fraction) (y a : ℕ) → 1 ≤ k.q → k.q ≤ k.p →
        (k.q * y * y ≤ k.p * a * a) ↔ IsBelowRoot (k.p * k.q) (k.q * y) a }
    ensures regular { (k : Fraction) (r : ℕ) → 1 ≤ k.q → k.q ≤ k.p → IsBelowRoot (k.p * k.q) (k.q * r) r }
{}

/// A value that is heavy is more, and one that isn't heavy exceeds by little.
pub fn light_values_exceed_by_little()
    ensures heavy { (k : Fraction) (v w : ℕ) → IsHeavy k v w → w < v }
    ensures light { (k : Fraction) (v w : ℕ) → (IsHeavy k v w → ⊥) → IsExcess k (v - w) w }
{}
