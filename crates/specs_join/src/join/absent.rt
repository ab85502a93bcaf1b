//! Where a storage has no part.
use super::Join;
use hibitset::{BitSet, BitSetNot, Index};

/// The indices at which a storage with this mask has no part, each with nothing.
#[derive(Clone, Copy)]
pub struct AntiStorage<'a>(pub &'a BitSet);

impl<'a> Join for AntiStorage<'a> {
    type Type = ();

    type Shown = ();

    type Value = ();

    type Mask = BitSetNot<&'a BitSet>;

    ghost use Rattle.std.specs.Prelude.{Some, ◌≡◌, false};
    ghost use Rattle.std.specs.FinSet as set;
    ghost use Rattle.specs_join.specs.Joins.{lacking};

    ghost show = { λ nothing. nothing };

    ghost joins = { λ anti index. lacking (set.contains anti.0.now.members index) };

    ghost opens = { λ anti mask. mask.0.now ≡ anti.0.now };

    ghost unconstrained = { false };

    ghost value_at = { λ _ _. Some tt };

    fn open(self) -> (BitSetNot<&'a BitSet>, ()) {
        (BitSetNot(self.0), ())
    }

    fn get(_values: &(), _id: Index)
        ensures { Some tt ≡ Some result }
    {}

    fn is_unconstrained() -> bool
        ensures { result ≡ false }
    {
        false
    }
}
