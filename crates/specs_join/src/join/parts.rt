//! Storages join by their parts.
use super::Join;
use hibitset::{BitSet, Index};
use specs_layouts::{Component, MaskedStorage, UnprotectedStorage};

impl<'a, T: Component + 'a> Join for &'a MaskedStorage<T>
where
    T::Storage: 'a,
{
    type Type = &'a T;

    type Shown = T;

    type Value = &'a T::Storage;

    type Mask = &'a BitSet;

    ghost use Rattle.std.specs.Prelude.{◌≡◌, false};

    ghost show = { λ part. part.now };

    ghost joins = { λ storage. T.Storage.part_at storage.now.inner };

    ghost opens = { λ storage mask. mask.now ≡ storage.now.mask };

    ghost unconstrained = { false };

    ghost value_at = { λ inner. T.Storage.part_at inner.now };

    fn open(self) -> (&'a BitSet, &'a T::Storage) {
        (self.mask(), self.inner())
    }

    fn get(values: &&'a T::Storage, id: Index) -> &'a T {
        let inner: &'a T::Storage = *values;
        inner.get(id)
    }

    fn is_unconstrained() -> bool {
        false
    }
}
