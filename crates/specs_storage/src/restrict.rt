//! Storages whose parts are read and written alone.
pub mod cursor;
mod join;
pub mod pair;

use crate::loan::Loan;
use crate::storage::Storage;
use specs_entity::EntitiesRes;
use specs_layouts::{Component, MaskedStorage};
use std::marker::PhantomData;

/// One caller reads and writes.
pub enum SequentialRestriction {}

/// Many callers, each of which may get what is at its own index alone.
pub enum MutableParallelRestriction {}

/// Many callers, which read.
pub enum ImmutableParallelRestriction {}

/// Restrictions under which the parts of other entities can be read.
pub trait ImmutableAliasing {}

impl ImmutableAliasing for SequentialRestriction {}

impl ImmutableAliasing for ImmutableParallelRestriction {}

/// A storage of which parts are read, and none is put or taken out.
#[derive(Drop)]
pub struct RestrictedStorage<'a, T: Component, R> {
    pub(crate) entities: &'a EntitiesRes,
    pub(crate) store: &'a MaskedStorage<T>,
    pub(crate) kind: PhantomData<R>,
}

/// A storage of which parts are read and written, and none is put or taken out.
#[derive(Drop)]
pub struct RestrictedStorageMut<'a, T: Component, R> {
    pub(crate) entities: &'a EntitiesRes,
    pub(crate) store: &'a mut MaskedStorage<T>,
    pub(crate) kind: PhantomData<R>,
}

/// Storages whose parts can be read alone.
pub trait Restrict<T: Component> {
    ghost use Rattle.std.specs.Prelude.{◌≡◌};
    ghost use Rattle.specs_entity.specs.Births.{Births};
    ghost use Rattle.specs_layouts.specs.Masked.{Masked};
    ghost use Rattle.specs_storage.specs.Restricted.{entities_of, store_of};

    /// The births of the entities.
    ghost births: { Self → Births };

    /// The parts with their mask.
    ghost masked: { Self → Masked T.Storage };

    /// The parts, for reading by many callers.
    fn restrict(&self) -> RestrictedStorage<'_, T, ImmutableParallelRestriction>
        ensures entities { (entities_of result).now ≡ births self.now }
        ensures store { (store_of result).now ≡ masked self.now };
}

impl<'e, T: Component, D: Loan<T>> Restrict<T> for Storage<'e, T, D> {
    ghost births = { λ storage. storage.entities.now };

    ghost masked = { λ storage. D.lent storage.store };

    fn restrict(&self) -> RestrictedStorage<'_, T, ImmutableParallelRestriction> {
        RestrictedStorage {
            entities: self.entities,
            store: self.store.storage(),
            kind: PhantomData,
        }
    }
}

/// Storages whose parts can be written.
pub trait RestrictMut<T: Component>: Restrict<T> {
    ghost use Rattle.std.specs.Prelude.{◌≡◌};
    ghost use Rattle.std.specs.Borrow.{sem, Lends};
    ghost use Rattle.specs_layouts.specs.Masked.{Masked};
    ghost use Rattle.specs_storage.specs.RestrictedMut.{entities_of, store_of};
    ghost use Rattle.specs_layouts.specs.MaskedLends.{masked_row};

    /// The storage with other parts.
    ghost with_left: { Self → Masked T.Storage → Self };

    /// The parts, for reading and writing by one caller.
    fn restrict_mut(&mut self) -> RestrictedStorageMut<'_, T, SequentialRestriction>
        ensures* writes_back { sem 𝓛 (Lends Self.row
            (masked_row T.row T.Storage.row T.Storage.UnprotectedStorage) self.entry (store_of result)
            (with_left self.old)) }
        ensures entities { (entities_of result).now ≡ Self.births self.old }
        ensures store { (store_of result).now ≡ Self.masked self.old };

    /// The parts, for many callers, each of which may get what is at its own index alone.
    fn par_restrict_mut(&mut self) -> RestrictedStorageMut<'_, T, MutableParallelRestriction>
        ensures* writes_back { sem 𝓛 (Lends Self.row
            (masked_row T.row T.Storage.row T.Storage.UnprotectedStorage) self.entry (store_of result)
            (with_left self.old)) }
        ensures entities { (entities_of result).now ≡ Self.births self.old }
        ensures store { (store_of result).now ≡ Self.masked self.old };
}

impl<'e, T: Component> RestrictMut<T> for Storage<'e, T, &'e mut MaskedStorage<T>> {
    ghost use Rattle.specs_storage.specs.StorageLends.{with_store};

    ghost with_left = { with_store };

    fn restrict_mut(&mut self) -> RestrictedStorageMut<'_, T, SequentialRestriction> {
        RestrictedStorageMut {
            entities: self.entities,
            store: self.store,
            kind: PhantomData,
        }
    }

    fn par_restrict_mut(&mut self) -> RestrictedStorageMut<'_, T, MutableParallelRestriction> {
        RestrictedStorageMut {
            entities: self.entities,
            store: self.store,
            kind: PhantomData,
        }
    }
}
