//! Events that are of an index.
ghost use Rattle.std.specs.Prelude.{◌≡◌, ℕ};

use hibitset_sets::Index;

/// An event of an index, of which there is the same at any other index.
pub trait IndexEvent {
    /// The index that it is of.
    ghost index_of: { Self → ℕ };

    /// The same event of an index.
    ghost same_at: { Self → ℕ → Self };

    /// The index that it is of.
    fn index(&self) -> Index
        ensures { result ≡ index_of self.now };

    /// The same event of an index.
    fn at(&self, index: Index) -> Self
    where
        Self: Sized,
        ensures { result ≡ same_at self.now index };

    /// It is of that index.
    ghost index_at: { (event : Self) (index : ℕ) → index_of (same_at event index) ≡ index };

    /// What is the same as one is the same as the other.
    ghost same_again: { (event : Self) (one other : ℕ) → same_at (same_at event one) other ≡ same_at event other };
}

/// An index tells of itself.
impl IndexEvent for Index {
    ghost use Rattle.std.specs.Prelude.{refl};

    ghost index_of = { λ event. event };

    ghost same_at = { λ _ index. index };

    ghost index_at = { λ _ _. refl };

    ghost same_again = { λ _ _ _. refl };

    fn index(&self) -> Index {
        *self
    }

    fn at(&self, index: Index) -> Index {
        index
    }
}
