//! A set for several threads, which the walk owns, joins by its indices.
use crate::join::Join;
use hibitset::{AtomicBitSet, Index};

impl Join for AtomicBitSet {
    type Type = Index;

    type Shown = Index;

    type Value = ();

    type Mask = AtomicBitSet;

    ghost use Rattle.std.specs.Prelude.{◌≡◌, Some, false};
    ghost use Rattle.std.specs.FinSet as set;
    ghost use Rattle.specs_join.specs.Joins.{member};

    ghost show = { λ index. index };

    ghost joins = { λ set_ index. member (set.contains set_.members index) index };

    ghost opens = { λ set_ mask. mask ≡ set_ };

    ghost unconstrained = { false };

    ghost value_at = { λ _ index. Some index };

    fn open(self) -> (AtomicBitSet, ()) {
        (self, ())
    }

    fn get(_values: &(), id: Index) -> Index {
        id
    }

    fn is_unconstrained() -> bool {
        false
    }
}
