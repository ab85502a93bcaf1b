//! A set for several threads joins by its indices.
use crate::join::Join;
use hibitset::{AtomicBitSet, Index};

impl<'a> Join for &'a AtomicBitSet {
    type Type = Index;

    type Shown = Index;

    type Value = ();

    type Mask = &'a AtomicBitSet;

    ghost use Rattle.std.specs.Prelude.{◌≡◌, Some, false};
    ghost use Rattle.std.specs.FinSet as set;
    ghost use Rattle.specs_join.specs.Joins.{member};

    ghost show = { λ index. index };

    ghost joins = { λ set_ index. member (set.contains set_.now.members index) index };

    ghost opens = { λ set_ mask. mask.now ≡ set_.now };

    ghost unconstrained = { false };

    ghost value_at = { λ _ index. Some index };

    fn open(self) -> (&'a AtomicBitSet, ()) {
        (self, ())
    }

    fn get(_values: &(), id: Index) -> Index
        ensures { Some id ≡ Some result }
    {
        id
    }

    fn is_unconstrained() -> bool
        ensures { result ≡ false }
    {
        false
    }
}
