//! Counts of the words that a walk reads.
ghost use Rattle.std.specs.Prelude.{◌≡◌, ℕ, ◌+◌, ◌<◌};

use std::marker::Model;
use std::sync::ledger::{Blank, Book, Ledger, Share};

/// What is told of each word that a walk reads from a kept set.
///
/// One word is one call of `layer0` to `layer3` of one set that is kept, as a `BitSet` is. A virtual
/// set reads the words of its parts.
pub trait Counter {
    /// The second state is the first, told of that many words more.
    ghost ticked: { Self → ℕ → Self → Type 0 };

    /// Tells of one word.
    fn tick(&mut self)
        ensures { ticked self.old 1 self.new };

    /// Nothing was told.
    ghost ticked_none: { (count : Self) → ticked count 0 count };

    /// What was told first and what was told then add up.
    ghost ticked_both: { (before between after : Self) (first then : ℕ) → ticked before first between
        → ticked between then after → ticked before (first + then) after };
}

/// Counts nothing, at no cost.
#[derive(Clone, Copy, Drop)]
pub struct Uncounted;

impl Counter for Uncounted {
    ghost ticked = { λ _ _ _. Unit {0} };

    ghost ticked_none = { λ _. tt };

    ghost ticked_both = { λ _ _ _ _ _ _ _. tt };

    fn tick(&mut self) {}
}

/// How many words were read. It takes no bytes, and only `tick` changes it.
///
/// One that counts for a caller is lent on: `set.iter_counted(steps)`, then `next_counted(steps)`.
#[derive(Drop)]
pub struct Steps<L: Ledger> {
    book: Book<L>,
    share: Share<L>,
}

impl<L: Ledger> Model for Steps<L> {
    ghost Value = { ℕ };

    ghost view = { λ s. s.book.total };

    ghost invariant = { λ s. 0 < s.share.parts };
}

impl<L: Ledger> Steps<L> {
    /// No word was read. The blank is the ledger's own, in at least one part.
    pub fn new(blank: Blank) -> Self
        requires name { blank.name ≡ L.name }
        requires parts { blank.parts ≡ L.parts }
        requires some { 0 < blank.parts }
        ensures { result ≡ 0 }
    {
        let (book, share) = blank.open::<L>();
        Steps { book, share }
    }
}

impl<L: Ledger> Counter for Steps<L> {
    ghost use Rattle.hibitset_sets.specs.TickLemmas.{ticked-none, ticked-both};

    ghost ticked = { λ before words after. after ≡ before + words };

    ghost ticked_none = { ticked-none };

    ghost ticked_both = { ticked-both };

    fn tick(&mut self) {
        self.book.add(&mut self.share, 1);
    }
}
