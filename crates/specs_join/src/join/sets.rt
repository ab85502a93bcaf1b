//! Sets join by their indices.
mod and;
mod atomic;
mod lent;
mod not;
mod or;
mod owned;
mod xor;

use super::Join;
use hibitset::{BitSet, Index};

impl<'a> Join for &'a BitSet {
    type Type = Index;

    type Shown = Index;

    type Value = ();

    type Mask = &'a BitSet;

    ghost use Rattle.std.specs.Prelude.{Some, ◌≡◌, false};
    ghost use Rattle.std.specs.FinSet as set;
    ghost use Rattle.specs_join.specs.Joins.{member};

    ghost show = { λ index. index };

    ghost joins = { λ set_ index. member (set.contains set_.now.members index) index };

    ghost opens = { λ set_ mask. mask.now ≡ set_.now };

    ghost unconstrained = { false };

    ghost value_at = { λ _ index. Some index };

    fn open(self) -> (&'a BitSet, ()) {
        (self, ())
    }

    fn get(_values: &(), index: Index) -> Index
        ensures { Some index ≡ Some result }
    {
        index
    }

    fn is_unconstrained() -> bool
        ensures { result ≡ false }
    {
        false
    }
}
