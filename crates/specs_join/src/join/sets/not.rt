//! What a set lacks joins by its indices.
use crate::join::Join;
use hibitset::{BitSetLike, BitSetNot, Index};

impl<A: BitSetLike + Drop> Join for BitSetNot<A> {
    type Type = Index;

    type Shown = Index;

    type Value = ();

    type Mask = BitSetNot<A>;

    ghost use Rattle.std.specs.Prelude.{◌≡◌, Some, false, not};
    ghost use Rattle.specs_join.specs.Joins.{member};

    ghost show = { λ index. index };

    ghost joins = { λ mask index. member (not (A.members mask.0 index)) index };

    ghost opens = { λ set_ mask. mask ≡ set_ };

    ghost unconstrained = { false };

    ghost value_at = { λ _ index. Some index };

    fn open(self) -> (BitSetNot<A>, ()) {
        (self, ())
    }

    fn get(_values: &(), id: Index) -> Index {
        id
    }

    fn is_unconstrained() -> bool {
        false
    }
}
