//! The markers of a scene's entities.
ghost use Rattle.std.specs.Prelude.{◌≡◌, ◌↔◌, ◌<◌, ℕ, nat_eq, [], true, None, IsSome, IfOk, IfErr, IsErrOf, OnOk};
ghost use Rattle.std.specs.Prelude.{OnErr};
ghost use Rattle.std.specs.FinMap as map;
ghost use Rattle.std.specs.HashMap as table;
ghost use Rattle.std.specs.Map.{update_all};
ghost use Rattle.specs_entity.specs.declared.errors.Error.TheVariants as refusal;
ghost use Rattle.specs_markers.specs.Noting.{marked_list, pairs_of};
ghost use Rattle.specs_markers.specs.Marks.{Notes, IsAsked, IsNoteOfLast};
ghost use Rattle.specs_layouts.specs.Parts.{HasNone};
ghost use Rattle.scene_world.specs.Markers.{marker_at};

use specs_entity::{EntitiesRes, Entity, Error};
use specs_join::Join;
use specs_layouts::{
    Component, FlaggedStorage, MaskedStorage, TryDefault, UnprotectedStorage, VecStorage,
};
use specs_markers::{Marker, MarkerAllocator};
use std::alloc::{AllocError, Global};
use std::collections::HashMap;
use std::marker::Model;

/// The marker of an entity of a scene: its id in the documents and texts of that scene.
///
/// Each entity of a scene has one, so they lie in a slot for each index, and their storage tells of each that comes or
/// goes.
#[derive(Clone, Copy, PartialEq, Eq, Hash, Debug)]
pub struct SceneMarker {
    number: u64,
}

impl Model for SceneMarker {
    ghost use Rattle.std.specs.Prelude.{ℕ};

    ghost Value = { ℕ };

    ghost view = { λ m. m.number };

    ghost inverse = { λ number. record { number = number } };
}

impl SceneMarker {
    /// The marker with this id. No allocator knows of it.
    pub fn new(number: u64) -> SceneMarker
        ensures { result ≡ number }
    {
        SceneMarker { number }
    }
}

impl Component for SceneMarker {
    type Storage = FlaggedStorage<SceneMarker, VecStorage<SceneMarker>>;
}

impl Marker for SceneMarker {
    type Identifier = u64;

    type Allocator = SceneMarkerAllocator;

    ghost id_of = { λ marker. marker };

    fn id(&self) -> u64 {
        self.number
    }
}

/// Gives the markers of a scene's entities: by the id that a document says, or else by the scene's next id.
///
/// Contracts see the next id, and a finite map from id to the entity last noted.
#[derive(Drop)]
pub struct SceneMarkerAllocator {
    next: u64,
    mapping: HashMap<u64, Entity>,
    alloc: Global,
}

impl Model for SceneMarkerAllocator {
    ghost use Rattle.std.specs.FinMap as map;
    ghost use Rattle.specs_markers.specs.Simple.{Noting, noting_code};

    ghost Value = { Noting };

    ghost coded = { noting_code };

    ghost view = { λ a. record { next = a.next; noted = map.from_entries a.mapping.entries } };
}

impl SceneMarkerAllocator {
    /// An allocator that has noted nothing, under a scene's next id. Takes no memory.
    pub fn new(alloc: Global, next: u64) -> SceneMarkerAllocator
        ensures { result ≡ record { next = next; noted = map.empty } }
    {
        SceneMarkerAllocator {
            next,
            mapping: HashMap::new(alloc),
            alloc,
        }
    }

    /// The scene's next id: that of the marker that is given next where no id is asked for.
    pub fn next(&self) -> u64
        ensures { result ≡ self.now.next }
    {
        self.next
    }

    /// Takes out what is noted under an id, as where its entity died. Takes no memory, and the next id stays.
    pub fn forget(&mut self, id: u64)
        ensures { self.new ≡ record { next = self.old.next; noted = map.remove self.old.noted id } }
    {
        let _ = self.mapping.remove(&id);
    }
}

/// A storage of markers in which there is none, with emission on and no reader yet. Takes no memory.
pub fn no_markers(alloc: Global) -> MaskedStorage<SceneMarker>
    ensures none { HasNone (marker_at result) }
    ensures held { result.inner.channel.held ≡ [] }
    ensures places { result.inner.channel.places ≡ [] }
    ensures emission { result.inner.emission ≡ true }
{
    MaskedStorage::new(
        alloc,
        FlaggedStorage::over(alloc, VecStorage::unwrap_default(alloc)),
    )
}

/// The notes of the living marked entities, each under its marker's id, taken ascending by index.
fn notes_of(
    alloc: Global,
    entities: &EntitiesRes,
    storage: &MaskedStorage<SceneMarker>,
) -> Result<HashMap<u64, Entity>, AllocError>
    ensures ok { IfOk result (λ notes. (id : ℕ) → table.get nat_eq notes id ≡ update_all nat_eq (λ _. None)
        (pairs_of (λ marker. marker) (marked_list entities.now (marker_at storage.now))) id) }
    ensures range { (index : ℕ) → IsSome (marker_at storage.now index) → index < 16777216 }
{
    let _mask = storage.mask();
    let mut notes = HashMap::new(alloc);
    for (entity, marker) in (entities, storage).join() {
        notes.insert(marker.id(), entity)?;
    }
    Ok(notes)
}

impl MarkerAllocator<SceneMarker> for SceneMarkerAllocator {
    ghost use Rattle.specs_markers.specs.Simple.{IsSpent, RefusesMarker, Gives, noted_under};

    ghost noted = { noted_under };

    ghost allocates = { Gives };

    ghost refuses = { RefusesMarker };

    /// Gives a marker for an entity, and notes the entity under its id.
    ///
    /// The id is the one asked for, or else the next one. The next id is raised above it, where it isn't.
    ///
    /// Errors: `MarkersSpent` if the id would be 18,446,744,073,709,551,615, and `Memory`, only where nothing is
    /// noted under it. The allocator is as it was.
    fn allocate(&mut self, entity: Entity, id: Option<u64>) -> Result<SceneMarker, Error>
        ensures value { IfOk result (λ marker. Gives self.old entity id marker self.new) }
        ensures asked { IfOk result (λ marker. IsAsked id marker) }
        ensures ok { IfOk result (λ marker. Notes (noted_under self.old) marker entity (noted_under self.new)) }
        ensures refused { IfErr result (RefusesMarker self.old id) }
        ensures spent { IsErrOf result refusal.MarkersSpent ↔ IsSpent self.old id }
        ensures err { OnErr result (self.new ≡ self.old) }
    {
        let number = id.unwrap_or(self.next);
        if number == u64::MAX {
            return Err(Error::MarkersSpent);
        }
        match self.mapping.insert(number, entity) {
            Ok(_) => {}
            Err(_) => return Err(Error::Memory),
        }
        self.next = self.next.max(number + 1);
        Ok(SceneMarker::new(number))
    }

    fn retrieve_entity_internal(&self, id: u64) -> Option<Entity> {
        self.mapping.get(&id).copied()
    }

    /// Notes the living marked entities alone, each under its marker's id; of two with one id that of the
    /// greater index. The next id stays.
    ///
    /// Errors: `Memory`, and the allocator is as it was.
    fn maintain(
        &mut self,
        entities: &EntitiesRes,
        storage: &MaskedStorage<SceneMarker>,
    ) -> Result<(), Error>
        ensures ok { OnOk result ((id : ℕ) → IsNoteOfLast (λ marker. marker) entities.now (marker_at storage.now)
            id (noted_under self.new id)) }
        ensures next { self.new.next ≡ self.old.next }
        ensures refused { IfErr result (λ error. error ≡ refusal.Memory) }
        ensures err { OnErr result (self.new ≡ self.old) }
    {
        let mapping = notes_of(self.alloc, entities, storage)?;
        self.mapping = mapping;
        Ok(())
    }
}
