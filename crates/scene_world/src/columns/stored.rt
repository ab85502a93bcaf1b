//! Parts that name one entity at most, and their storages as columns.
ghost use Rattle.std.specs.Prelude.{◌≡◌, [], IfOk, IfSome, option_map};
ghost use Rattle.std.specs.Option.{option_to_list};
ghost use Rattle.hibitset_sets.specs.BitSet.{has_member};
ghost use Rattle.hibitset_sets.specs.Walk.{walk};
ghost use Rattle.scene_world.specs.Putting.{StoresAs, part_read, each_there};

use super::Column;
use crate::{Store, catch_up_reader, gain_reader, told_indices};
use hibitset_sets::{BitSet, BitSetLike};
use specs_entity::Entity;
use specs_layouts::{Component, MaskedStorage, ReaderId, Tracked};
use std::alloc::{AllocError, Global};

/// A part that names one entity at most.
///
/// `part_of` is what a datum is as a part in a document, and `stored` what is stored for a part: the entity that it names,
/// and what is written for it by that entity's id.
pub trait PlainPart: Component {
    ghost use Rattle.std.specs.Prelude.{[], false};
    ghost use Rattle.specs_layouts.specs.Parts.{HasNone};
    ghost use Rattle.scene_model.specs.Parts.{Part};
    ghost use Rattle.scene_world.specs.Stored.{Stored};

    /// Data of parts, of this type among others.
    type Data: Drop;

    /// The part that a datum is.
    ghost part_of: { Self.Data → Part };

    /// What is stored for a part.
    ghost stored: { Self → Stored };

    /// A storage without parts: what `scene_storage` makes of the store. Takes no memory.
    fn storage(alloc: Global, store: Store) -> Self::Storage
        ensures { HasNone (Self.Storage.part_at result) };

    /// The part that a datum is, where this is the entity that it refers to; none where it is no datum of this type, or
    /// refers to another number of entities, or there is no memory.
    fn from_data(datum: &Self::Data, named: Option<Entity>) -> Option<Self>
    where
        Self: Sized,
        ensures { IfSome result (λ part. StoresAs (part_of datum.now) (option_to_list named) (stored part)) };

    /// The datum of a part, where the entity that it names has this id; none where it names another number of entities, or
    /// there is no memory.
    fn to_data(&self, id: Option<u64>) -> Option<Self::Data>
        ensures { IfSome result (λ datum. part_of datum ≡ part_read (option_to_list id) (stored self.now)) };

    /// The entity that a part names, if it names one.
    fn named(&self) -> Option<Entity>
        ensures { option_to_list result ≡ (stored self.now).named };

    /// Whether parts of this type may name an entity.
    fn refers() -> bool
    where
        Self: Sized,
        ensures { result ≡ false → (part : Self) → (stored part).named ≡ [] };
}

/// The part that a datum is, where these are the entities that it refers to; none where it is no datum of this type, or
/// refers to another number of entities, or there is no memory.
fn part_naming<T: PlainPart>(datum: &T::Data, named: &[Entity]) -> Option<T>
    ensures { IfSome result (λ part. StoresAs (T.part_of datum.now) named.now (T.stored part)) }
{
    match named {
        [] => T::from_data(datum, None),
        [entity] => T::from_data(datum, Some(*entity)),
        _ => None,
    }
}

/// The datum of a part, where the entities that it names have these ids; none where it names another number of entities, or
/// there is no memory.
fn datum_naming<T: PlainPart>(part: &T, ids: &[u64]) -> Option<T::Data>
    ensures { IfSome result (λ datum. T.part_of datum ≡ part_read ids.now (T.stored part.now)) }
{
    match ids {
        [] => part.to_data(None),
        [id] => part.to_data(Some(*id)),
        _ => None,
    }
}

/// The datum of the part at an index, if there is one, where the entities that it names have these ids.
///
/// Errors: want of memory, and where it names another number of entities.
fn datum_at<T: PlainPart>(
    parts: &MaskedStorage<T>,
    index: u32,
    ids: &[u64],
) -> Result<Option<T::Data>, AllocError>
    ensures { IfOk result (λ datum. option_map T.part_of datum
        ≡ option_map (part_read ids.now) (option_map T.stored (T.Storage.part_at parts.now.inner index))) }
{
    if !parts.contains(index) {
        return Ok(None);
    }
    match datum_naming(parts.get(index), ids) {
        Some(datum) => Ok(Some(datum)),
        None => Err(AllocError),
    }
}

/// The data of the parts at the indices of these entities, which name nobody, each behind the number behind which its entity
/// stands.
///
/// Errors: want of memory, and where a part names an entity.
fn data_at<T: PlainPart>(
    parts: &MaskedStorage<T>,
    entities: &[(u64, u32)],
    alloc: Global,
) -> Result<Vec<(u64, Option<T::Data>)>, AllocError>
    ensures { IfOk result (λ found. each_there (option_map T.part_of) found.items
        ≡ each_there (λ index. option_map (part_read [])
        (option_map T.stored (T.Storage.part_at parts.now.inner index))) entities.now) }
{
    let mut found = Vec::with_capacity(alloc, entities.len())?;
    for entity in entities {
        let datum = datum_at(parts, entity.1, &[])?;
        found.push((entity.0, datum))?;
    }
    Ok(found)
}

/// The members of a set, ascending. Errors: want of memory.
fn members_of(set: &BitSet, alloc: Global) -> Result<Vec<u32>, AllocError>
    ensures { IfOk result (λ indices. indices.items ≡ walk (has_member set.now)) }
{
    let mut indices = Vec::new(alloc);
    for index in set.iter() {
        indices.push(index)?;
    }
    Ok(indices)
}

impl<T: PlainPart> Column for MaskedStorage<T>
where
    T::Storage: Tracked<T>,
{
    type Data = T::Data;

    ghost part_of = { T.part_of };

    ghost stored_at = { λ parts index. option_map T.stored (T.Storage.part_at parts.inner index) };

    ghost log = { λ parts. T.Storage.events parts.inner };

    ghost telling = { λ parts. T.Storage.emits parts.inner };

    fn empty(alloc: Global, store: Store) -> Self {
        MaskedStorage::new(alloc, T::storage(alloc, store))
    }

    fn put(&mut self, index: u32, datum: &T::Data, named: &[Entity]) -> Result<(), AllocError> {
        let Some(part) = part_naming::<T>(datum, named) else {
            return Err(AllocError);
        };
        match self.insert(index, part) {
            Ok(_) => Ok(()),
            Err(_) => Err(AllocError),
        }
    }

    fn take(&mut self, index: u32) -> Result<(), AllocError> {
        self.drop(index)
    }

    fn reader(&mut self) -> Result<ReaderId, AllocError> {
        gain_reader(self)
    }

    fn events(&self, reader: &ReaderId, into: &mut BitSet) -> Result<(), AllocError> {
        told_indices(self, reader, into)
    }

    fn catch_up(&mut self, reader: &ReaderId) {
        catch_up_reader(self, reader);
    }

    fn named_at(&self, index: u32, named: &mut Vec<Entity>) -> Result<(), AllocError> {
        if !self.contains(index) {
            return Ok(());
        }
        if let Some(entity) = MaskedStorage::get(self, index).named() {
            named.push(entity)?;
        }
        Ok(())
    }

    fn get(&self, index: u32, ids: &[u64]) -> Result<Option<T::Data>, AllocError> {
        datum_at(self, index, ids)
    }

    fn indices(&self, alloc: Global) -> Result<Vec<u32>, AllocError> {
        members_of(self.mask(), alloc)
    }

    fn names_nobody(&self) -> bool {
        !T::refers() || self.mask().is_empty()
    }

    fn holders(&self) -> Option<&BitSet> {
        if T::refers() { Some(self.mask()) } else { None }
    }

    fn get_each(
        &self,
        entities: &[(u64, u32)],
        alloc: Global,
    ) -> Result<Option<Vec<(u64, Option<T::Data>)>>, AllocError> {
        if T::refers() {
            return Ok(None);
        }
        let found = data_at(self, entities, alloc)?;
        Ok(Some(found))
    }
}
