//! An index that has a part, with the storage.
ghost use Rattle.std.specs.Prelude.{◌≡◌, ◌↔◌, Some, IsSome, IsTrue, option_copied, false, IsOk, IfOk, IfErr, IsErrOf};
ghost use Rattle.std.specs.Borrow.{sem};
ghost use Rattle.specs_storage.specs.EntryLends.{lends_at};
ghost use Rattle.specs_storage.specs.Found.{Finds, HasPart};
ghost use Rattle.specs_storage.specs.declared.storage.LendError.TheVariants as lending;

use crate::restrict::ImmutableAliasing;
use crate::storage::LendError;
use hibitset::Index;
use specs_entity::{EntitiesRes, Entity};
use specs_layouts::{Component, MaskedStorage, UnprotectedStorage};
use std::alloc::AllocError;
use std::marker::PhantomData;

/// A storage with an index that has a part, for reading.
#[derive(Drop)]
pub struct PairedStorage<'a, T: Component, R> {
    pub(crate) entities: &'a EntitiesRes,
    pub(crate) store: &'a MaskedStorage<T>,
    pub(crate) index: Index,
    pub(crate) kind: PhantomData<R>,
    ghost there: { IsSome (T.Storage.part_at store.now.inner index) },
}

/// A storage with an index that has a part, for reading and writing by one caller.
pub struct PairedStorageMut<'a, T: Component> {
    pub(crate) entities: &'a EntitiesRes,
    pub(crate) store: &'a mut MaskedStorage<T>,
    pub(crate) index: Index,
    ghost there: { IsSome (T.Storage.part_at store.now.inner index) },
}

impl<T: Component> Drop for PairedStorageMut<'_, T> {
    ghost use Rattle.specs_storage.specs.PairedMut.{store_of};

    /// Leaves the storage as it is.
    fn drop(self)
        ensures { self.exit.1.0.now ≡ (store_of self.entry).now }
    {
        let PairedStorageMut {
            entities: _,
            store: _,
            index: _,
        } = self;
    }
}

impl<'a, T: Component, R> PairedStorage<'a, T, R> {
    ghost use Rattle.specs_storage.specs.Paired.{store_of, index_of};

    /// The part at the index.
    pub fn get_unchecked(&self) -> &T
        ensures { T.Storage.part_at (store_of self.now).now.inner (index_of self.now) ≡ Some result.now }
    {
        self.store.get(self.index)
    }
}

impl<'a, T: Component, R: ImmutableAliasing> PairedStorage<'a, T, R> {
    ghost use Rattle.specs_storage.specs.Paired.{entities_of, store_of};

    /// The part of an entity, or none where the entity isn't alive or has none.
    pub fn get(&self, entity: Entity) -> Option<&T>
        ensures { Finds (entities_of self.now).now (T.Storage.part_at (store_of self.now).now.inner) entity
            (option_copied result) }
    {
        part_of(self.store, self.entities, entity)
    }
}

impl<'a, T: Component> PairedStorageMut<'a, T> {
    ghost use Rattle.specs_storage.specs.PairedMut.{entities_of, store_of, index_of};
    ghost use Rattle.specs_storage.specs.Pairs.{lends_pair};

    /// The part at the index.
    pub fn get_unchecked(&self) -> &T
        ensures { T.Storage.part_at (store_of self.now).now.inner (index_of self.now) ≡ Some result.now }
    {
        let index = self.index;
        self.store.get(index)
    }

    /// The part of an entity, or none where the entity isn't alive or has none.
    pub fn get(&self, entity: Entity) -> Option<&T>
        ensures { Finds (entities_of self.now).now (T.Storage.part_at (store_of self.now).now.inner) entity
            (option_copied result) }
    {
        let entities = self.entities;
        part_of(self.store, entities, entity)
    }

    /// The part at the index, for writing.
    ///
    /// Errors: `AllocError`, where the storage emits, and nothing changed.
    pub fn get_mut_unchecked(&mut self) -> Result<&mut T, AllocError>
        ensures* writes_back { sem 𝓛 (lends_pair T.row T.Storage.row self.entry (index_of self.old) result) }
        ensures value { IfOk result (λ part. T.Storage.part_at (store_of self.old).now.inner (index_of self.old)
            ≡ Some part.now) }
        ensures succeeds { T.Storage.emits (store_of self.old).now.inner ≡ false → IsOk result }
        ensures within_room { T.Storage.has_room (store_of self.old).now.inner 1 → IsOk result }
    {
        let index = self.index;
        self.store.get_mut(index)
    }

    /// The part of an entity, for writing.
    ///
    /// Errors: `Absent` if the entity isn't alive or has no part, and `Memory`, where the storage emits. Nothing changed.
    pub fn get_mut(&mut self, entity: Entity) -> Result<&mut T, LendError>
        ensures* writes_back { sem 𝓛 (lends_pair T.row T.Storage.row self.entry entity.id result) }
        ensures value { IfOk result (λ part. T.Storage.part_at (store_of self.old).now.inner entity.id
            ≡ Some part.now) }
        ensures absent { IsErrOf result lending.Absent
            ↔ ¬ (HasPart (entities_of self.old).now (T.Storage.part_at (store_of self.old).now.inner) entity) }
        ensures succeeds { T.Storage.emits (store_of self.old).now.inner ≡ false
            → HasPart (entities_of self.old).now (T.Storage.part_at (store_of self.old).now.inner) entity
            → IsOk result }
        ensures within_room { T.Storage.has_room (store_of self.old).now.inner 1
            → HasPart (entities_of self.old).now (T.Storage.part_at (store_of self.old).now.inner) entity
            → IsOk result }
    {
        let entities = self.entities;
        if !has_part(self.store, entities, entity) {
            return Err(LendError::Absent);
        }
        lend_at(self.store, entity.id())
    }
}

/// The part of an entity in a storage, or none where the entity isn't alive or has none.
pub(crate) fn part_of<'a, T: Component>(
    store: &'a MaskedStorage<T>,
    entities: &EntitiesRes,
    entity: Entity,
) -> Option<&'a T>
    ensures { Finds entities.now (T.Storage.part_at store.now.inner) entity (option_copied result) }
{
    if has_part(store, entities, entity) {
        Some(store.get(entity.id()))
    } else {
        None
    }
}

/// Whether an entity is alive and has a part in a storage.
pub(crate) fn has_part<T: Component>(
    store: &MaskedStorage<T>,
    entities: &EntitiesRes,
    entity: Entity,
) -> bool
    ensures { IsTrue result ↔ HasPart entities.now (T.Storage.part_at store.now.inner) entity }
{
    store.contains(entity.id()) && entities.is_alive(entity)
}

/// The part at an index that has one, for writing.
pub(crate) fn lend_at<T: Component>(
    store: &mut MaskedStorage<T>,
    index: Index,
) -> Result<&mut T, LendError>
    requires { IsSome (T.Storage.part_at store.old.inner index) }
    ensures* writes_back { sem 𝓛 (lends_at T.row T.Storage.row T.Storage.UnprotectedStorage store.entry index result) }
    ensures value { IfOk result (λ part. T.Storage.part_at store.old.inner index ≡ Some part.now) }
    ensures memory { IfErr result (λ refusal. refusal ≡ lending.Memory) }
    ensures succeeds { T.Storage.emits store.old.inner ≡ false → IsOk result }
    ensures within_room { T.Storage.has_room store.old.inner 1 → IsOk result }
{
    let part = store.get_mut(index)?;
    Ok(part)
}
