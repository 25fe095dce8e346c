//! A count of comparisons that costs nothing when the program runs.
#![tactic(auto)]

ghost use Rattle.std.specs.Prelude.{◌≡◌, ◌+◌, ◌<◌, ℕ};

use std::marker::Model;
use std::rt::Memory;
use std::sync::ledger::{Blank, Book, Ledger, Share};

/// How many comparisons were made. It takes no bytes, and only `tick` changes it. `new` asks for the handle of the
/// process's memory, which a program's `main`, tests and exported functions alone are given, and which an allocator
/// doesn't hand on. So no function below them makes a counter: what it is charged stands on the counter that its caller
/// handed it.
#[derive(Drop)]
pub struct Comparisons<L: Ledger> {
    book: Book<L>,
    share: Share<L>,
}

impl<L: Ledger> Model for Comparisons<L> {
    ghost Value = { ℕ };

    ghost view = { λ s. s.book.total };

    ghost invariant = { λ s. 0 < s.share.parts };
}

impl<L: Ledger> Comparisons<L> {
    /// No comparisons yet. The handle isn't used: it shows that the caller is at the edge of the program.
    pub fn new(_memory: Memory, blank: Blank) -> Comparisons<L>
        requires name { blank.name ≡ L.name }
        requires parts { blank.parts ≡ L.parts }
        requires some { 0 < blank.parts }
        ensures { result ≡ 0 }
    {
        let (book, share) = blank.open();
        Comparisons { book, share }
    }

    /// One comparison more.
    pub fn tick(&mut self)
        ensures { self.new ≡ self.old + 1 }
    {
        self.book.add(&mut self.share, 1);
    }
}
