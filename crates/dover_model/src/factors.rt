//! A factor that is declared beside the ratio.

/// The factor `b/c`: a value is heavy where it is more than so many times what it is compared with.
#[derive(Clone, Copy, Debug, PartialEq, Eq)]
pub struct Factor {
    /// The numerator: more than the denominator, and at most 1,000,000.
    pub b: u32,
    /// The denominator: 1 to 1,000.
    pub c: u32,
}
