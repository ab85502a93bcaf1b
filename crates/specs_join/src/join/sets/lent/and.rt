//! What is in two sets that are read in place joins by its indices.
use crate::join::Join;
use hibitset::{BitSetAnd, BitSetLike, Index};

impl<'a, A: BitSetLike, B: BitSetLike> Join for &'a BitSetAnd<A, B> {
    type Type = Index;

    type Shown = Index;

    type Value = ();

    type Mask = &'a BitSetAnd<A, B>;

    ghost use Rattle.std.specs.Prelude.{◌≡◌, Some, false, ◌&&◌};
    ghost use Rattle.specs_join.specs.Joins.{member};

    ghost show = { λ index. index };

    ghost joins = { λ mask index. member (A.members mask.now.0 index && B.members mask.now.1 index) index };

    ghost opens = { λ set_ mask. mask.now ≡ set_.now };

    ghost unconstrained = { false };

    ghost value_at = { λ _ index. Some index };

    fn open(self) -> (&'a BitSetAnd<A, B>, ()) {
        (self, ())
    }

    fn get(_values: &(), id: Index) -> Index {
        id
    }

    fn is_unconstrained() -> bool {
        false
    }
}
