//! Storages that are restricted for writing join by pairs that are read.
use super::pair_at;
use crate::restrict::RestrictedStorageMut;
use crate::restrict::pair::PairedStorage;
use hibitset::{BitSet, Index};
use specs_entity::EntitiesRes;
use specs_join::Join;
use specs_layouts::{Component, MaskedStorage, UnprotectedStorage};

impl<'a, 'e, T: Component + 'a, R: 'a> Join for &'a RestrictedStorageMut<'e, T, R>
where
    T::Storage: 'a,
{
    type Type = PairedStorage<'a, T, R>;

    type Shown = (EntitiesRes, MaskedStorage<T>, Index);

    type Value = (&'a EntitiesRes, &'a MaskedStorage<T>);

    type Mask = &'a BitSet;

    ghost use Rattle.std.specs.Prelude.{◌≡◌, false};
    ghost use Rattle.specs_storage.specs.Paired as paired;
    ghost use Rattle.specs_storage.specs.Pairs.{shown_at};
    ghost use Rattle.specs_storage.specs.RestrictedMut.{entities_of, store_of};

    ghost show = { λ pair. ((paired.entities_of pair).now, (paired.store_of pair).now, paired.index_of pair) };

    ghost joins = { λ storage. shown_at T.Storage.part_at (entities_of storage.now).now (store_of storage.now).now };

    ghost opens = { λ storage mask. mask.now ≡ (store_of storage.now).now.mask };

    ghost unconstrained = { false };

    ghost value_at = { λ values. shown_at T.Storage.part_at values.0.now values.1.now };

    fn open(self) -> (&'a BitSet, (&'a EntitiesRes, &'a MaskedStorage<T>)) {
        let store: &'a MaskedStorage<T> = self.store;
        (store.mask(), (self.entities, store))
    }

    fn get(
        values: &(&'a EntitiesRes, &'a MaskedStorage<T>),
        index: Index,
    ) -> PairedStorage<'a, T, R> {
        pair_at(values.0, values.1, index)
    }

    fn is_unconstrained() -> bool {
        false
    }
}
