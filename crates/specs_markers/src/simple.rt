//! Markers with whole numbers as ids.
ghost use Rattle.std.specs.Prelude.{◌≡◌, ◌↔◌, ◌<◌, ℕ, nat_eq, Some, None, IsSome, IfOk, IfErr, IsErrOf, OnOk, OnErr};
ghost use Rattle.std.specs.HashMap as table;
ghost use Rattle.std.specs.Map.{update_all};
ghost use Rattle.specs_entity.specs.declared.errors.Error.TheVariants as refusal;
ghost use Rattle.specs_layouts.specs.Dense.{dense_part};
ghost use Rattle.specs_markers.specs.Noting.{marked_list, pairs_of};
ghost use Rattle.specs_markers.specs.Marks.{Notes, IsAsked, IsNoteOfLast};

use crate::allocator::MarkerAllocator;
use crate::marker::Marker;
use specs_entity::{EntitiesRes, Entity, Error};
use specs_join::Join;
use specs_layouts::{Component, DenseVecStorage, MaskedStorage, UnprotectedStorage};
use std::alloc::{AllocError, Global};
use std::collections::HashMap;
use std::marker::{Model, PhantomData};

/// A marker whose id is a whole number. `T` tells kinds of markers apart, and no value of it is kept.
#[derive_where(Clone, Copy, PartialEq, Eq, Hash, Debug)]
pub struct SimpleMarker<T> {
    number: u64,
    kind: PhantomData<T>,
}

impl<T> Model for SimpleMarker<T> {
    ghost use Rattle.std.specs.Prelude.{ℕ};

    ghost Value = { ℕ };

    ghost view = { λ m. m.number };

    ghost inverse = { λ number. record { number = number; kind = record {} } };
}

impl<T> SimpleMarker<T> {
    /// The marker with this id, as it is read from what was saved. No allocator knows of it.
    pub fn new(number: u64) -> SimpleMarker<T>
        ensures { result ≡ number }
    {
        SimpleMarker {
            number,
            kind: PhantomData,
        }
    }
}

impl<T> Component for SimpleMarker<T> {
    type Storage = DenseVecStorage<SimpleMarker<T>>;
}

impl<T> Marker for SimpleMarker<T> {
    type Identifier = u64;

    type Allocator = SimpleMarkerAllocator<T>;

    ghost id_of = { λ marker. marker };

    fn id(&self) -> u64 {
        self.number
    }
}

/// Gives markers by a counter, from 0 on.
///
/// Contracts see the counter and a finite map from id to the entity last noted.
#[derive(Drop)]
pub struct SimpleMarkerAllocator<T> {
    next: u64,
    mapping: HashMap<u64, Entity>,
    alloc: Global,
    kind: PhantomData<T>,
}

impl<T> Model for SimpleMarkerAllocator<T> {
    ghost use Rattle.std.specs.FinMap as map;
    ghost use Rattle.specs_markers.specs.Simple.{Noting, noting_code};

    ghost Value = { Noting };

    ghost coded = { noting_code };

    ghost view = { λ a. record { next = a.next; noted = map.from_entries a.mapping.entries } };
}

impl<T> SimpleMarkerAllocator<T> {
    ghost use Rattle.specs_markers.specs.Simple.{none_noted};

    /// An allocator whose first marker has the id 0. Takes no memory.
    pub fn new(alloc: Global) -> SimpleMarkerAllocator<T>
        ensures { result ≡ none_noted }
    {
        SimpleMarkerAllocator {
            next: 0,
            mapping: HashMap::new(alloc),
            alloc,
            kind: PhantomData,
        }
    }
}

impl<T> Clone for SimpleMarkerAllocator<T> {
    ghost use Rattle.std.specs.Prelude.{◌≡◌};

    ghost is_clone = { λ one other. other ≡ one };

    /// An allocator with the same counter and the same notes.
    ///
    /// Errors: `AllocError`.
    fn clone(&self) -> Result<SimpleMarkerAllocator<T>, AllocError> {
        Ok(SimpleMarkerAllocator {
            next: self.next,
            mapping: self.mapping.clone()?,
            alloc: self.alloc,
            kind: PhantomData,
        })
    }
}

/// The notes of the living marked entities, each under its marker's id, taken ascending by index.
fn notes_of<'a, T: 'a>(
    alloc: Global,
    entities: &'a EntitiesRes,
    storage: &'a MaskedStorage<SimpleMarker<T>>,
) -> Result<HashMap<u64, Entity>, AllocError>
    ensures ok { IfOk result (λ notes. (id : ℕ) → table.get nat_eq notes id ≡ update_all nat_eq (λ _. None)
        (pairs_of (λ marker. marker) (marked_list entities.now (dense_part storage.now.inner))) id) }
    ensures range { (index : ℕ) → IsSome (dense_part storage.now.inner index) → index < 16777216 }
{
    let _mask = storage.mask();
    let mut notes = HashMap::new(alloc);
    for (entity, marker) in (entities, storage).join() {
        notes.insert(marker.id(), entity)?;
    }
    Ok(notes)
}

impl<T> MarkerAllocator<SimpleMarker<T>> for SimpleMarkerAllocator<T> {
    ghost use Rattle.specs_markers.specs.Simple.{IsSpent, RefusesMarker, Gives, allocated, given_id, noted_under};

    ghost noted = { noted_under };

    ghost allocates = { Gives };

    ghost refuses = { RefusesMarker };

    /// Gives a marker for an entity, and notes the entity under its id.
    ///
    /// The id is the one asked for, or else the counter. The counter is raised above it, where it isn't.
    ///
    /// Errors: `MarkersSpent` if the id would be 18,446,744,073,709,551,615, and `Memory`, only where nothing is
    /// noted under it. The allocator is as it was.
    fn allocate(&mut self, entity: Entity, id: Option<u64>) -> Result<SimpleMarker<T>, Error>
        ensures value { IfOk result (λ marker. Gives self.old entity id marker self.new) }
        ensures asked { IfOk result (λ marker. IsAsked id marker) }
        ensures ok { IfOk result (λ marker. Notes (noted_under self.old) marker entity (noted_under self.new)) }
        ensures refused { IfErr result (RefusesMarker self.old id) }
        ensures spent { IsErrOf result refusal.MarkersSpent ↔ IsSpent self.old id }
        ensures err { OnErr result (self.new ≡ self.old) }
    {
        let number = id.unwrap_or(self.next);
        if number == u64::MAX {
            return Err(Error::MarkersSpent);
        }
        match self.mapping.insert(number, entity) {
            Ok(_) => {}
            Err(_) => return Err(Error::Memory),
        }
        self.next = self.next.max(number + 1);
        Ok(SimpleMarker::new(number))
    }

    fn retrieve_entity_internal(&self, id: u64) -> Option<Entity> {
        self.mapping.get(&id).copied()
    }

    /// Notes the living marked entities alone, each under its marker's id; of two with one id that of the
    /// greater index. The counter stays.
    ///
    /// Errors: `Memory`, and the allocator is as it was.
    fn maintain(
        &mut self,
        entities: &EntitiesRes,
        storage: &MaskedStorage<SimpleMarker<T>>,
    ) -> Result<(), Error>
        ensures ok { OnOk result ((id : ℕ) → IsNoteOfLast (λ marker. marker) entities.now (dense_part storage.now.inner)
            id (noted_under self.new id)) }
        ensures counter { self.new.next ≡ self.old.next }
        ensures refused { IfErr result (λ error. error ≡ refusal.Memory) }
        ensures err { OnErr result (self.new ≡ self.old) }
    {
        let mapping = notes_of(self.alloc, entities, storage)?;
        self.mapping = mapping;
        Ok(())
    }
}
