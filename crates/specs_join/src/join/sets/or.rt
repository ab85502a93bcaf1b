//! What is in one of two sets, or in both, joins by its indices.
use crate::join::Join;
use hibitset::{BitSetLike, BitSetOr, Index};

impl<A: BitSetLike + Drop, B: BitSetLike + Drop> Join for BitSetOr<A, B> {
    type Type = Index;

    type Shown = Index;

    type Value = ();

    type Mask = BitSetOr<A, B>;

    ghost use Rattle.std.specs.Prelude.{◌≡◌, Some, false, ◌||◌};
    ghost use Rattle.specs_join.specs.Joins.{member};

    ghost show = { λ index. index };

    ghost joins = { λ mask index. member (A.members mask.0 index || B.members mask.1 index) index };

    ghost opens = { λ set_ mask. mask ≡ set_ };

    ghost unconstrained = { false };

    ghost value_at = { λ _ index. Some index };

    fn open(self) -> (BitSetOr<A, B>, ()) {
        (self, ())
    }

    fn get(_values: &(), id: Index) -> Index {
        id
    }

    fn is_unconstrained() -> bool {
        false
    }
}
