//! Markers with UUIDs as ids.
ghost use Rattle.std.specs.Prelude.{◌≡◌, ◌<◌, ℕ, List, Some, None, IsSome, IfOk, IfErr, OnOk, OnErr};
ghost use Rattle.std.specs.HashMap as table;
ghost use Rattle.std.specs.Map.{update_all};
ghost use Rattle.std.specs.Str.{bytes_eq};
ghost use Rattle.uuid.specs.Uuid.{version_num};
ghost use Rattle.specs_entity.specs.declared.errors.Error.TheVariants as refusal;
ghost use Rattle.specs_layouts.specs.Slots.{slot_at, slots_of};
ghost use Rattle.specs_markers.specs.Noting.{marked_list, pairs_of};
ghost use Rattle.specs_markers.specs.Marks.{Notes, IsAsked, IsNoteOfLast};
ghost use Rattle.specs_markers.specs.Uuids.{IsDrawn};

use crate::allocator::MarkerAllocator;
use crate::marker::Marker;
use rand_core::Rng;
use specs_entity::{EntitiesRes, Entity, Error};
use specs_join::Join;
use specs_layouts::{Component, MaskedStorage, UnprotectedStorage, VecStorage};
use std::alloc::{AllocError, Global};
use std::collections::HashMap;
use std::marker::{Model, PhantomData};
use uuid::Uuid;

/// A marker whose id is a UUID. `R` is the source that its allocator draws from, and no value of it is kept.
#[derive(Drop)]
#[derive_where(Clone, PartialEq, Eq, Hash, Debug)]
pub struct UuidMarker<R> {
    uuid: Uuid,
    source: PhantomData<R>,
}

impl<R> Model for UuidMarker<R> {
    ghost use Rattle.std.specs.Prelude.{ℕ, List};

    ghost Value = { List ℕ };

    ghost view = { λ m. m.uuid };

    ghost inverse = { λ bytes. record { uuid = bytes; source = record {} } };
}

impl<R> UuidMarker<R> {
    /// The marker with this UUID, as it is read from what was saved. No allocator knows of it.
    pub fn new(uuid: Uuid) -> UuidMarker<R>
        ensures { result ≡ uuid }
    {
        UuidMarker {
            uuid,
            source: PhantomData,
        }
    }

    /// The UUID.
    pub fn uuid(&self) -> Uuid
        ensures { result ≡ self.now }
    {
        self.uuid
    }
}

impl<R: Rng> UuidMarker<R> {
    /// A marker with a random UUID (version 4 of RFC 9562), from the source's next sixteen bytes.
    pub fn new_random(source: &mut R) -> UuidMarker<R>
        ensures drawn { IsDrawn (R.stream source.old) result (R.stream source.new) }
        ensures version { version_num result ≡ 4 }
    {
        UuidMarker::new(Uuid::new_v4(source))
    }
}

impl<R> Component for UuidMarker<R> {
    type Storage = VecStorage<UuidMarker<R>>;
}

impl<R: Rng> Marker for UuidMarker<R> {
    type Identifier = Uuid;

    type Allocator = UuidMarkerAllocator<R>;

    ghost id_of = { λ marker. marker };

    fn id(&self) -> Uuid {
        self.uuid()
    }
}

/// Gives markers with random UUIDs, from a source that it keeps.
///
/// Contracts see a finite map from UUID to the entity last noted, and the source.
#[derive(Drop)]
pub struct UuidMarkerAllocator<R> {
    mapping: HashMap<Uuid, Entity>,
    alloc: Global,
    source: R,
}

impl<R> Model for UuidMarkerAllocator<R> {
    ghost use Rattle.std.specs.FinMap as map;
    ghost use Rattle.specs_markers.specs.Uuids.{Drawing, drawing_code};

    ghost Value = { Drawing R };

    ghost coded = { drawing_code R.code };

    ghost view = { λ a. record { noted = map.from_entries a.mapping.entries; source = a.source } };
}

impl<R> UuidMarkerAllocator<R> {
    ghost use Rattle.specs_markers.specs.Uuids.{none_drawn};

    /// An allocator that has noted nothing, and draws from this source. Takes no memory.
    pub fn new(alloc: Global, source: R) -> UuidMarkerAllocator<R>
        ensures { result ≡ none_drawn source }
    {
        UuidMarkerAllocator {
            mapping: HashMap::new(alloc),
            alloc,
            source,
        }
    }
}

impl<R: Rng> UuidMarkerAllocator<R> {
    ghost use Rattle.specs_markers.specs.Uuids.{GivesUuid, drawn_under};

    /// Notes an entity under the id that is asked for.
    fn note(&mut self, uuid: Uuid, entity: Entity) -> Result<(), AllocError>
        ensures value { OnOk result (GivesUuid R.stream self.old entity (Some uuid) uuid self.new) }
        ensures absent { OnErr result (drawn_under self.old uuid ≡ None) }
        ensures err { OnErr result (self.new ≡ self.old) }
    {
        self.mapping.insert(uuid, entity)?;
        Ok(())
    }

    /// Notes an entity under a random id, for which room is made before it is drawn.
    fn note_random(&mut self, entity: Entity) -> Result<Uuid, AllocError>
        ensures value { IfOk result (λ uuid. GivesUuid R.stream self.old entity None uuid self.new) }
        ensures err { OnErr result (self.new ≡ self.old) }
    {
        self.mapping.reserve(1)?;
        let uuid = Uuid::new_v4(&mut self.source);
        match self.mapping.insert(uuid, entity) {
            Ok(_) => Ok(uuid),
            Err(_) => unreachable!(),
        }
    }
}

/// The notes of the living marked entities, each under its marker's id, taken ascending by index.
fn notes_of<'a, R: 'a>(
    alloc: Global,
    entities: &'a EntitiesRes,
    storage: &'a MaskedStorage<UuidMarker<R>>,
) -> Result<HashMap<Uuid, Entity>, AllocError>
    ensures ok { IfOk result (λ notes. (id : List ℕ) → table.get bytes_eq notes id
        ≡ update_all bytes_eq (λ _. None)
        (pairs_of (λ marker. marker) (marked_list entities.now (slot_at (slots_of storage.now.inner)))) id) }
    ensures range { (index : ℕ) → IsSome (slot_at (slots_of storage.now.inner) index) → index < 16777216 }
{
    let _mask = storage.mask();
    let mut notes = HashMap::new(alloc);
    for (entity, marker) in (entities, storage).join() {
        notes.insert(marker.uuid(), entity)?;
    }
    Ok(notes)
}

impl<R: Rng> MarkerAllocator<UuidMarker<R>> for UuidMarkerAllocator<R> {
    ghost use Rattle.specs_markers.specs.Uuids.{GivesUuid, RefusesUuid, drawn_under};

    ghost noted = { drawn_under };

    ghost allocates = { GivesUuid R.stream };

    ghost refuses = { RefusesUuid };

    /// Gives a marker for an entity, and notes the entity under its id.
    ///
    /// The id is the one asked for, or else a random one that is drawn from the source. That two random ones differ
    /// isn't claimed.
    ///
    /// Errors: `Memory`, only where nothing is noted under an id that is asked for. The allocator is as it was, the
    /// source too.
    fn allocate(&mut self, entity: Entity, id: Option<Uuid>) -> Result<UuidMarker<R>, Error>
        ensures value { IfOk result (λ marker. GivesUuid R.stream self.old entity id marker self.new) }
        ensures asked { IfOk result (λ marker. IsAsked id marker) }
        ensures ok { IfOk result (λ marker. Notes (drawn_under self.old) marker entity (drawn_under self.new)) }
        ensures refused { IfErr result (RefusesUuid self.old id) }
        ensures err { OnErr result (self.new ≡ self.old) }
    {
        match id {
            Some(uuid) => {
                self.note(uuid, entity)?;
                Ok(UuidMarker::new(uuid))
            }
            None => {
                let uuid = self.note_random(entity)?;
                Ok(UuidMarker::new(uuid))
            }
        }
    }

    fn retrieve_entity_internal(&self, id: Uuid) -> Option<Entity> {
        self.mapping.get(&id).copied()
    }

    /// Notes the living marked entities alone, each under its marker's id; of two with one id that of the
    /// greater index. The source stays.
    ///
    /// Errors: `Memory`, and the allocator is as it was.
    fn maintain(
        &mut self,
        entities: &EntitiesRes,
        storage: &MaskedStorage<UuidMarker<R>>,
    ) -> Result<(), Error>
        ensures ok { OnOk result ((id : List ℕ) → IsNoteOfLast (λ marker. marker) entities.now
            (slot_at (slots_of storage.now.inner)) id (drawn_under self.new id)) }
        ensures source { self.new.source ≡ self.old.source }
        ensures refused { IfErr result (λ error. error ≡ refusal.Memory) }
        ensures err { OnErr result (self.new ≡ self.old) }
    {
        let mapping = notes_of(self.alloc, entities, storage)?;
        self.mapping = mapping;
        Ok(())
    }
}
