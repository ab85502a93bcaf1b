//! Storages join by their parts, whether they are lent for reading or for writing.
use crate::loan::Loan;
use crate::storage::Storage;
use hibitset::{BitSet, Index};
use specs_join::{AntiStorage, Join};
use specs_layouts::{Component, MaskedStorage, UnprotectedStorage};
use std::alloc::AllocError;
use std::clone::Clone;
use std::ops::Not;

impl<'a, 'e, T: Component + 'a, D: Loan<T> + 'a> Join for &'a Storage<'e, T, D>
where
    T::Storage: 'a,
{
    type Type = &'a T;

    type Shown = T;

    type Value = &'a T::Storage;

    type Mask = &'a BitSet;

    ghost use Rattle.std.specs.Prelude.{◌≡◌, false};
    ghost use Rattle.specs_layouts.specs.Masked.{Agrees};

    ghost show = { λ part. part.now };

    ghost joins = { λ storage. T.Storage.part_at (D.lent storage.now.store).inner };

    ghost opens = { λ storage mask. Agrees mask.now (T.Storage.part_at (D.lent storage.now.store).inner) };

    ghost unconstrained = { false };

    ghost value_at = { λ inner. T.Storage.part_at inner.now };

    fn open(self) -> (&'a BitSet, &'a T::Storage) {
        (self.mask(), self.unprotected_storage())
    }

    fn get(values: &&'a T::Storage, id: Index) -> &'a T {
        let inner: &'a T::Storage = *values;
        inner.get(id)
    }

    fn is_unconstrained() -> bool {
        false
    }
}

impl<'a, 'e, T: Component + 'a, D: Loan<T> + 'a> Not for &'a Storage<'e, T, D>
where
    T::Storage: 'a,
{
    type Output = AntiStorage<'a>;

    ghost use Rattle.specs_layouts.specs.Masked.{Agrees};

    ghost not_gives = { λ storage anti. Agrees anti.0.now (T.Storage.part_at (D.lent storage.now.store).inner) };

    /// The indices at which the storage has no part.
    fn not(self) -> AntiStorage<'a> {
        AntiStorage(self.mask())
    }
}

impl<'e, T: Component + 'e> Clone for Storage<'e, T, &'e MaskedStorage<T>>
where
    T::Storage: 'e,
{
    ghost use Rattle.std.specs.Prelude.{◌≡◌, ⊤};

    ghost is_clone = { λ storage copy. copy ≡ storage };

    ghost is_infallible = { λ _. ⊤ };

    /// The same storage lent once more. Takes no memory.
    fn clone(&self) -> Result<Self, AllocError> {
        Ok(Storage::new(self.entities, self.store))
    }
}
