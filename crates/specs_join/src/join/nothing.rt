//! A join of nothing.
use super::Join;
use hibitset::{BitSetAll, Index};

/// An item at every index, which says nothing. Beside other joins in a tuple it constrains nothing.
impl Join for () {
    type Type = ();

    type Shown = ();

    type Value = ();

    type Mask = BitSetAll;

    ghost use Rattle.std.specs.Prelude.{◌≡◌, Some, true};

    ghost show = { λ nothing. nothing };

    ghost joins = { λ _ _. Some tt };

    ghost opens = { λ _ _. Unit {0} };

    ghost unconstrained = { true };

    ghost value_at = { λ _ _. Some tt };

    fn open(self) -> (BitSetAll, ()) {
        (BitSetAll, ())
    }

    fn get(_values: &(), _id: Index)
        ensures { Some tt ≡ Some result }
    {}

    fn is_unconstrained() -> bool
        ensures { result ≡ true }
    {
        true
    }
}
