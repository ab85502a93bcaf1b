//! Restricted storages join by their pairs.
ghost use Rattle.std.specs.Prelude.{◌≡◌, IsSome};

mod writing;

use crate::restrict::RestrictedStorage;
use crate::restrict::pair::PairedStorage;
use hibitset::{BitSet, Index};
use specs_entity::EntitiesRes;
use specs_join::Join;
use specs_layouts::{Component, MaskedStorage, UnprotectedStorage};
use std::marker::PhantomData;

impl<'a, 'e, T: Component + 'a, R: 'a> Join for &'a RestrictedStorage<'e, T, R>
where
    T::Storage: 'a,
{
    type Type = PairedStorage<'a, T, R>;

    type Shown = (EntitiesRes, MaskedStorage<T>, Index);

    type Value = (&'a EntitiesRes, &'a MaskedStorage<T>);

    type Mask = &'a BitSet;

    ghost use Rattle.std.specs.Prelude.{◌≡◌, false};
    ghost use Rattle.specs_storage.specs.Paired as paired;
    ghost use Rattle.specs_storage.specs.Pairs.{shown_at};
    ghost use Rattle.specs_storage.specs.Restricted.{entities_of, store_of};

    ghost show = { λ pair. ((paired.entities_of pair).now, (paired.store_of pair).now, paired.index_of pair) };

    ghost joins = { λ storage. shown_at T.Storage.part_at (entities_of storage.now).now (store_of storage.now).now };

    ghost opens = { λ storage mask. mask.now ≡ (store_of storage.now).now.mask };

    ghost unconstrained = { false };

    ghost value_at = { λ values. shown_at T.Storage.part_at values.0.now values.1.now };

    fn open(self) -> (&'a BitSet, (&'a EntitiesRes, &'a MaskedStorage<T>)) {
        let store: &'a MaskedStorage<T> = self.store;
        (store.mask(), (self.entities, store))
    }

    fn get(
        values: &(&'a EntitiesRes, &'a MaskedStorage<T>),
        index: Index,
    ) -> PairedStorage<'a, T, R> {
        pair_at(values.0, values.1, index)
    }

    fn is_unconstrained() -> bool {
        false
    }
}

/// The pair at an index that has a part.
fn pair_at<'a, T: Component, R>(
    entities: &'a EntitiesRes,
    store: &'a MaskedStorage<T>,
    index: Index,
) -> PairedStorage<'a, T, R>
    requires { IsSome (T.Storage.part_at store.now.inner index) }
    ensures entities { result.entities.now ≡ entities.now }
    ensures store { result.store.now ≡ store.now }
    ensures index { result.index ≡ index }
{
    PairedStorage {
        entities,
        store,
        index,
        kind: PhantomData,
    }
}
