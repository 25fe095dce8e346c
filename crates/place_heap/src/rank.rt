//! How the four numbers of an item are kept.
ghost use Rattle.std.specs.Prelude.{◌≡◌, ◌+◌, ◌*◌, ◌<◌, ◌^◌};
ghost use Rattle.std.proofs.Common.{ap};
ghost use Rattle.place_heap.specs.Items.{ItemFacts, is_before, facts_of, low_of};
ghost use Rattle.place_heap.specs.Ranks.{low_back};

use std::mem::size_of;

// How many numbers a job may have, which is what a tie counts for beside one.
const NUMBERS: u128 = 1 << 32;

// What the key counts for beside the tie and the number.
const WORD: u128 = 1 << 64;

/// The four numbers of an item, kept so that two are compared fast.
pub trait Rank: Copy {
    /// What the four numbers are.
    ghost facts: { Self → ItemFacts };

    /// How these four are kept.
    ghost of_facts: { ItemFacts → Self };

    /// It is kept so that no two are kept alike.
    ghost back: { (r : Self) → of_facts (facts r) ≡ r };

    /// The place.
    fn place(self) -> u32
        ensures { result ≡ (facts self).place };

    /// Whether it comes before the other.
    fn is_before(self, other: Self) -> bool
        ensures { result ≡ is_before (facts self) (facts other) };
}

/// A key of one word, and a tie below 2^32 in another with the number.
#[derive(Clone, Copy)]
pub struct ShortRank {
    key: u64,
    low: u64,
    place: u32,
}

const _: () = prove!(size_of::<ShortRank>() == 24);

impl ShortRank {
    /// The rank of these four numbers.
    #[inline(always)]
    pub(crate) fn new(key: u64, tie: u32, number: u32, place: u32) -> ShortRank
        ensures { facts_of result.key result.low result.place
            ≡ record { key = key; tie = tie; number = number; place = place } }
    {
        ShortRank {
            key,
            low: tie as u64 * NUMBERS as u64 + number as u64,
            place,
        }
    }

    // The key, the tie and the number as one.
    #[inline(always)]
    fn order(self) -> u128
        ensures { result ≡ self.key * 2 ^ 64 + self.low }
    {
        self.key as u128 * WORD + self.low as u128
    }

    /// The key.
    #[inline(always)]
    pub(crate) fn key(self) -> u64
        ensures { result ≡ self.key }
    {
        self.key
    }
}

impl Rank for ShortRank {
    ghost facts = { λ r. facts_of r.key r.low r.place };

    ghost of_facts = { λ i. record { key = i.key; low = low_of i; place = i.place } };

    ghost back = { λ r. ap (λ n. record { key = r.key; low = n; place = r.place }) (low_back r.key r.low r.place) };

    #[inline(always)]
    fn place(self) -> u32 {
        self.place
    }

    #[inline(always)]
    fn is_before(self, other: ShortRank) -> bool {
        self.order() < other.order()
    }
}

/// A key below 2^128, and a tie below 2^96 in another number with that of the job.
#[derive(Clone, Copy)]
pub struct LongRank {
    key: u128,
    low: u128,
    place: u32,
}

const _: () = prove!(size_of::<LongRank>() == 48);

impl LongRank {
    /// The rank of these four numbers.
    #[inline(always)]
    pub(crate) fn new(key: u128, tie: u128, number: u32, place: u32) -> LongRank
        requires { tie < 2 ^ 96 }
        ensures { facts_of result.key result.low result.place
            ≡ record { key = key; tie = tie; number = number; place = place } }
    {
        LongRank {
            key,
            low: tie * NUMBERS + number as u128,
            place,
        }
    }
}

impl Rank for LongRank {
    ghost facts = { λ r. facts_of r.key r.low r.place };

    ghost of_facts = { λ i. record { key = i.key; low = low_of i; place = i.place } };

    ghost back = { λ r. ap (λ n. record { key = r.key; low = n; place = r.place }) (low_back r.key r.low r.place) };

    #[inline(always)]
    fn place(self) -> u32 {
        self.place
    }

    #[inline(always)]
    fn is_before(self, other: LongRank) -> bool {
        if self.key != other.key {
            return self.key < other.key;
        }
        self.low < other.low
    }
}
