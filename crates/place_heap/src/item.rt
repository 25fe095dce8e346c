//! What the heap holds.
ghost use Rattle.std.specs.Prelude.{◌≡◌, ◌+◌, ◌<◌, ◌^◌};
ghost use Rattle.place_heap.specs.Items.{ItemFacts, is_before};

use crate::rank::{LongRank, Rank, ShortRank};
use comparison_count::Comparisons;
use std::alloc::AllocError;
use std::marker::Model;
use std::mem::size_of;
use std::sync::ledger::Ledger;

/// A job as a heap keeps it: the key, the tie and the number that give its order, and the place where the caller keeps
/// it. The rank says in how many bytes.
pub struct Item<R: Rank> {
    rank: R,
}

impl<R: Rank> Clone for Item<R> {
    ghost is_clone = { λ x y. y ≡ x };

    ghost is_infallible = { λ _. Unit {0} };

    fn clone(&self) -> Result<Item<R>, AllocError> {
        Ok(*self)
    }
}

impl<R: Rank> Copy for Item<R> {}

const _: () = prove!(size_of::<Item<ShortRank>>() == 24);

impl<R: Rank> Model for Item<R> {
    ghost use Rattle.std.proofs.Common.{ap};
    ghost use Rattle.place_heap.specs.Items.{ItemFacts};

    ghost Value = { ItemFacts };

    ghost view = { λ i. R.facts i.rank };

    ghost inverse = { λ facts. record { rank = R.of_facts facts } };

    ghost inverse_ok = { λ i _. ap (λ r. record { rank = r }) (R.back i.rank) };
}

impl<R: Rank> Item<R> {
    /// The item of these four numbers, as the rank has them.
    #[inline(always)]
    pub fn of(rank: R) -> Item<R>
        ensures { result ≡ R.facts rank }
    {
        Item { rank }
    }

    /// Where the caller keeps it.
    #[inline(always)]
    pub fn place(&self) -> u32
        ensures { result ≡ self.now.place }
    {
        self.rank.place()
    }

    /// Whether it comes before the other, as one step.
    #[inline(always)]
    pub(crate) fn is_before<L: Ledger>(
        &self,
        other: &Item<R>,
        comparisons: &mut Comparisons<L>,
    ) -> bool
        ensures answer { result ≡ is_before self.now other.now }
        ensures count { comparisons.new ≡ comparisons.old + 1 }
    {
        comparisons.tick();
        self.rank.is_before(other.rank)
    }
}

impl Item<ShortRank> {
    /// The item of these four numbers.
    #[inline(always)]
    pub fn new(key: u64, tie: u32, number: u32, place: u32) -> Item<ShortRank>
        ensures { result ≡ record { key = key; tie = tie; number = number; place = place } }
    {
        Item::of(ShortRank::new(key, tie, number, place))
    }

    /// By what it is compared first.
    #[inline(always)]
    pub fn key(&self) -> u64
        ensures { result ≡ self.now.key }
    {
        self.rank.key()
    }
}

impl Item<LongRank> {
    /// The item of these four numbers.
    #[inline(always)]
    pub fn long(key: u128, tie: u128, number: u32, place: u32) -> Item<LongRank>
        requires { tie < 2 ^ 96 }
        ensures { result ≡ record { key = key; tie = tie; number = number; place = place } }
    {
        Item::of(LongRank::new(key, tie, number, place))
    }
}
