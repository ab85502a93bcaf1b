//! What a set that is read in place lacks joins by its indices.
use crate::join::Join;
use hibitset::{BitSetLike, BitSetNot, Index};

impl<'a, A: BitSetLike> Join for &'a BitSetNot<A> {
    type Type = Index;

    type Shown = Index;

    type Value = ();

    type Mask = &'a BitSetNot<A>;

    ghost use Rattle.std.specs.Prelude.{◌≡◌, Some, false, not};
    ghost use Rattle.specs_join.specs.Joins.{member};

    ghost show = { λ index. index };

    ghost joins = { λ mask index. member (not (A.members mask.now.0 index)) index };

    ghost opens = { λ set_ mask. mask.now ≡ set_.now };

    ghost unconstrained = { false };

    ghost value_at = { λ _ index. Some index };

    fn open(self) -> (&'a BitSetNot<A>, ()) {
        (self, ())
    }

    fn get(_values: &(), id: Index) -> Index {
        id
    }

    fn is_unconstrained() -> bool {
        false
    }
}
