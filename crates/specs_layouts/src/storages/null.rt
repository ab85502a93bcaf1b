//! One value for all indices.
ghost use Rattle.std.specs.Prelude.{◌≡◌};

use crate::unprotected::{DistinctStorage, TryDefault, UnprotectedStorage};
use hibitset_sets::{BitSet, BitSetLike, Index};
use std::alloc::{AllocError, AllocFailed, Global};

/// A type whose values are all equal.
pub trait Single: Default + Drop {
    /// Two values are the same.
    ghost same: { (x y : Self) → x ≡ y };
}

/// A storage of parts that are all equal: it keeps which indices have one, and one value.
#[derive(Drop)]
pub struct NullStorage<T> {
    value: T,
    present: BitSet,
}

impl<T: Single> TryDefault for NullStorage<T> {
    ghost use Rattle.std.specs.Prelude.{◌≡◌, true};
    ghost use Rattle.std.specs.FinSet as set;
    ghost use Rattle.specs_layouts.specs.Flags.{flagged};

    ghost is_default = { λ s. flagged s ≡ set.empty };

    ghost always = { true };

    fn try_default(alloc: Global) -> Result<Self, &'static str> {
        Ok(NullStorage {
            value: T::default(),
            present: BitSet::new(alloc),
        })
    }
}

impl<T: Single> UnprotectedStorage<T> for NullStorage<T> {
    ghost use Rattle.specs_layouts.specs.Channels.{no_log};
    ghost use Rattle.std.specs.Prelude.{[], false, refl};
    ghost use Rattle.specs_layouts.specs.Flags.{flag_part, with_flag_part};
    ghost use Rattle.specs_layouts.specs.FlagLemmas.{with_flag_part-puts, flags-start};

    ghost part_at = { flag_part };

    ghost written = { with_flag_part };

    ghost events = { λ _. no_log };

    ghost emits = { λ _. false };

    ghost has_room = { λ _ _. Unit {0} };

    ghost written_puts = { with_flag_part-puts T.same };

    ghost written_tells = { λ _ _ _. refl };

    ghost written_emits = { λ _ _ _. refl };

    ghost written_room = { λ _ _ _ _ room. room };

    ghost room_for_fewer = { λ _ _ room. room };

    ghost starts_empty = { flags-start };

    fn clean<B: BitSetLike + Drop>(&mut self, _has: B) {
        self.present.clear();
    }

    fn get(&self, _id: Index) -> &T {
        &self.value
    }

    fn get_mut(&mut self, _id: Index) -> Result<&mut T, AllocError> {
        Ok(&mut self.value)
    }

    fn insert(&mut self, id: Index, part: T) -> Result<(), AllocFailed<T>> {
        match self.present.add(id) {
            Ok(_) => Ok(()),
            Err(_) => Err(AllocFailed { value: part }),
        }
    }

    fn remove(&mut self, id: Index) -> Result<T, AllocError> {
        let _ = self.present.remove(id);
        Ok(T::default())
    }

    fn make_room(&mut self, _count: usize) -> Result<(), AllocError> {
        Ok(())
    }
}

impl<T: Single> DistinctStorage<T> for NullStorage<T> {
    ghost use Rattle.std.specs.Prelude.{refl};

    ghost silent = { λ _. refl };
}
