//! Values against the root of the ratio, at numbers.
use dover_model::Ratio;
use dover_model::jobs::MOST_VALUE;
use root_compare::{bound, heavy, isqrt, long_bound};

/// Ratios with a value, what it is compared with, and whether it is heavy against that.
static WEIGHTS: [(u32, u32, u64, u64, bool); 16] = [
    (1, 1, 20, 10, false),
    (1, 1, 21, 10, true),
    (2, 1, 24, 10, false),
    (2, 1, 25, 10, true),
    (9, 4, 25, 10, false),
    (9, 4, 26, 10, true),
    (4, 1, 30, 10, false),
    (4, 1, 31, 10, true),
    (100, 1, 110, 10, false),
    (100, 1, 111, 10, true),
    (1_000_000, 1, 10_010, 10, false),
    (1_000_000, 1, 10_011, 10, true),
    (
        1_000_000,
        1_000,
        1_000_000_000,
        18_446_744_073_709_551_615,
        false,
    ),
    (1_000_000, 1, 1_000_000_000, 999_001, false),
    (1_000_000, 1, 1_000_000_000, 999_000, true),
    (1_000_000, 1, 1_000_000_000, 0, true),
];

fn are_weighed(rows: &[(u32, u32, u64, u64, bool)]) -> bool {
    for (p, q, value, other, is_heavy) in rows {
        match Ratio::new(*p, *q) {
            Some(k) if *value <= MOST_VALUE && heavy(*value, *other, k) == *is_heavy => {}
            _ => return false,
        }
    }
    true
}

/// Ratios with a sum of values and its bound. Those of the greatest sum, 10^18 - 1, were computed with whole numbers of
/// any length.
static BOUNDS: [(u32, u32, u64, u128); 17] = [
    (1, 1, 10, 40),
    (2, 1, 10, 58),
    (9, 4, 10, 62),
    (4, 1, 10, 90),
    (100, 1, 10, 1_210),
    (1_000_000, 1, 10, 10_020_010),
    (1_000_000, 1, 10_000_000_000_000, 10_020_010_000_000_000_000),
    (1, 1, 10_000_000_000_000, 40_000_000_000_000),
    (1_000_000, 1, 0, 0),
    (1, 1, 999_999_999_999_999_999, 3_999_999_999_999_999_996),
    (2, 1, 999_999_999_999_999_999, 5_828_427_124_746_190_091),
    (9, 4, 999_999_999_999_999_999, 6_249_999_999_999_999_993),
    (
        1_000,
        999,
        999_999_999_999_999_999,
        4_002_001_751_626_548_364,
    ),
    (
        1_000_000,
        999,
        999_999_999_999_999_999,
        1_065_278_200_717_834_266_292,
    ),
    (
        1_000_000,
        1,
        999_999_999_999_999_999,
        1_002_000_999_999_999_998_997_999,
    ),
    (
        999_983,
        997,
        123_456_789_012_345_678,
        131_769_390_548_896_072_172,
    ),
    (1_000_000, 1, 10_000_000_000_001, 10_020_010_000_001_002_001),
];

// Whether this is the bound of the sum, which is small enough and goes by the root, also by the function for such sums.
fn is_short_bound(sum: u64, k: Ratio, most: u128) -> bool {
    if sum > 10_000_000_000_000 {
        return true;
    }
    match k.factor() {
        None => u128::from(bound(sum, k)) == most,
        Some(_) => true,
    }
}

fn is_bound(sum: u64, k: Ratio, most: u128) -> bool {
    sum < 1_000_000_000_000_000_000 && long_bound(sum, k) == most && is_short_bound(sum, k, most)
}

fn are_bounds(rows: &[(u32, u32, u64, u128)]) -> bool {
    for (p, q, sum, most) in rows {
        match Ratio::new(*p, *q) {
            Some(k) if is_bound(*sum, k, *most) => {}
            _ => return false,
        }
    }
    true
}

/// Numbers and their roots.
static ROOTS: [(u128, u128); 8] = [
    (0, 0),
    (1, 1),
    (3, 1),
    (4, 2),
    (800, 28),
    (840, 28),
    (841, 29),
    (u128::MAX, 18_446_744_073_709_551_615),
];

fn are_roots(rows: &[(u128, u128)]) -> bool {
    for (square, root) in rows {
        if isqrt(*square) != *root {
            return false;
        }
    }
    true
}

#[test]
fn thresholds_are_exact(rt: HostRuntime) {
    assert!(rt; are_weighed(&WEIGHTS));
}

#[test]
fn bounds_are_exact(rt: HostRuntime) {
    assert!(rt; are_bounds(&BOUNDS));
}

#[test]
fn roots_are_whole(rt: HostRuntime) {
    assert!(rt; are_roots(&ROOTS));
}
