//! Sets whose walk threads can share.
ghost use Rattle.std.specs.Prelude.{◌≡◌};

use crate::par_iter::BitParIter;
use hibitset_sets::BitSetLike;

/// What every set has, for walks in several threads.
pub trait ParBitSetLike: BitSetLike {
    ghost use Rattle.hibitset.specs.Shared.{shared_set, layers_of};

    /// A walk over the members below `MAX_EID` that threads share. Three of its layers may be split.
    final fn par_iter(self) -> BitParIter<Self>
    where
        Self: Sized,
        ensures set { shared_set result ≡ self }
        ensures layers { layers_of result ≡ 3 }
    {
        BitParIter::new(self)
    }
}

impl<T: BitSetLike> ParBitSetLike for T {}
