//! Loading: entities and their parts made of a list of data.
ghost use Rattle.std.specs.Prelude.{◌≡◌, ◌≢◌, ◌<◌, [], ◌∷◌, ◌++◌, ℕ, List, flat_map, length, map, slice_get, take};
ghost use Rattle.std.specs.Prelude.{Option, Some, IfOk, IfErr, OnOk, OnErr};
ghost use Rattle.specs_entity.specs.declared.ids.Entity.{Entity};
ghost use Rattle.specs_join.specs.Joins.{both};
ghost use Rattle.specs_saveload.specs.Bearing.{IsAmong};
ghost use Rattle.specs_saveload.specs.Finding.{AreBearers, Finds, FindsBefore, LoadsFound, LoadsFoundBefore};
ghost use Rattle.specs_saveload.specs.Finding.{GivesThenRefuses};
ghost use Rattle.specs_saveload.specs.Loading.{AreGivenParts, GivesEach, GivesEntry, GivesPart, GivesUntil};
ghost use Rattle.specs_saveload.specs.Loading.{StaysAsItWas};
ghost use Rattle.specs_saveload.specs.Known.{AddsBearers, AddsBirth, IsClean, KeepsBearers, RefusesBearers};
ghost use Rattle.specs_saveload.specs.Known.{bearer_in, known_of};
ghost use Rattle.specs_saveload.specs.Loading.{IsLoaded, Loads, LoadsBefore, RefusesEntry, RefusesLoad};
ghost use Rattle.specs_saveload.specs.Loading.{StaysSound, StopsInPair};
ghost use Rattle.specs_saveload.specs.Retrieved.{RetrievesEach, RetrievesFoundSome, RetrievesLoaded};
ghost use Rattle.specs_saveload.specs.Retrieved.{RetrievesLoadedSome, RetrievesSome};
ghost use Rattle.specs_saveload.specs.Saved.{named_in, plain_in};
ghost use Rattle.specs_entity.specs.Births.{IsAlive};

use crate::EntityData;
use crate::bearers::bearer;
use crate::convert::ConvertSaveload;
use crate::names::SavedMarker;
use crate::serialize::SerializeComponents;
use hibitset::Index;
use specs_entity::{EntitiesRes, Entity, Error};
use specs_layouts::{Component, MaskedStorage, UnprotectedStorage};
use specs_markers::{Marker, MarkerAllocator};
use std::alloc::{AllocError, Global};
use thiserror::Error as ThisError;

/// Storages whose parts are loaded: one, or a tuple of such, which nest.
///
/// The name and the calls are those of `specs`.
pub trait DeserializeComponents<M: SavedMarker>: SerializeComponents<M> {
    /// The markers that stand in data.
    ghost markers_of: { Self.Data → List M };

    /// The parts of data, under a map from marker to entity; none where a marker has none.
    ghost loaded: { (M → Option Entity) → Self.Data → Option Self.Parts };

    /// What giving an index these parts makes of the storages, the events with it that tell of each.
    ghost gives: { ℕ → Self.Parts → Self → Self → Type 0 };

    /// What is left of the storages where one of the parts of data is refused to an index: those before it are given,
    /// the others stay.
    ghost stops: { (M → Option Entity) → Self.Data → ℕ → Self → Self → Type 0 };

    /// Gives a living entity the parts of data, and takes from it those that are absent there. A dead one gets none.
    ///
    /// Errors: those of `convert_from` at the first part that is refused, and `Memory`. The parts before it are loaded,
    /// that one and those behind it stay, and no other index has other parts than before.
    fn deserialize_entity<G: MarkerAllocator<M>>(
        &mut self,
        alloc: Global,
        entity: Entity,
        saved: Self::Data,
        entities: &mut EntitiesRes,
        markers: &mut MaskedStorage<M>,
        allocator: &mut G,
    ) -> Result<(), Error>
        ensures ok { OnOk result (IsAlive entities.old entity → loaded (bearer_in G.noted M.Storage.part_at M.id_of
            entities.new allocator.new markers.new) saved ≡ Some (Self.parts_at self.new entity.id)) }
        ensures adds { OnOk result (AddsBearers G.noted M.Storage.part_at M.id_of
            entities.old entities.new allocator.old allocator.new markers.old markers.new (markers_of saved)) }
        ensures retrieves { OnOk result (RetrievesEach G.noted G.allocates M.id_of M.Storage.UnprotectedStorage
            (markers_of saved) (known_of entities.old allocator.old markers.old)
            (known_of entities.new allocator.new markers.new)) }
        ensures leaves { IfErr result (λ error. RetrievesSome G.noted G.allocates M.id_of
            M.Storage.UnprotectedStorage G.refuses
            error (markers_of saved) (known_of entities.old allocator.old markers.old)
            (known_of entities.new allocator.new markers.new)) }
        ensures refused { IfErr result (RefusesBearers G.refuses M.id_of entities.new allocator.new
            (markers_of saved)) }
        ensures keeps { KeepsBearers G.noted M.Storage.part_at M.id_of
            entities.old entities.new allocator.old allocator.new markers.old markers.new }
        ensures gives { OnOk result (IsAlive entities.old entity → AreGivenParts
            (loaded (bearer_in G.noted M.Storage.part_at M.id_of entities.new allocator.new markers.new) saved)
            (gives entity.id) self.old self.new) }
        ensures stops { OnErr result (IsAlive entities.old entity → stops (bearer_in G.noted M.Storage.part_at M.id_of
            entities.new allocator.new markers.new) saved entity.id self.old self.new) }
        ensures others { (index : ℕ) → index ≢ entity.id → Self.parts_at self.new index ≡ Self.parts_at self.old
            index }
        ensures dead { ¬ (IsAlive entities.new entity) → self.new ≡ self.old };

    /// Loads the entries of a list. First the entity that bears an entry's marker is found, or made where there is
    /// none, entry after entry; then each has, in the same order, just the parts of its entry's data. So those that
    /// are made come in the list's order, also where the data of an entry names a later one.
    ///
    /// Each entry's marker is looked for once, and once each marker in its data.
    ///
    /// Errors: those of `EntitiesRes::create`, and of `allocate` at the id of a marker that stands in the entry, and
    /// `Memory`, with the place of the entry. Those before it are loaded, and what the refused one made and set until
    /// then stays. The entities of those behind it may be there, marked and without the parts of their data.
    final fn deserialize<G: MarkerAllocator<M>>(
        &mut self,
        alloc: Global,
        list: Vec<EntityData<M, Self::Data>>,
        entities: &mut EntitiesRes,
        markers: &mut MaskedStorage<M>,
        allocator: &mut G,
    ) -> Result<(), LoadError>
    where
        Self: Sized,
        ensures ok { OnOk result (Loads G.noted M.Storage.part_at M.id_of markers_of loaded list.items
            (known_of entities.old allocator.old markers.old) (known_of entities.new allocator.new markers.new)
            (Self.parts_at self.old) (Self.parts_at self.new)) }
        ensures retrieves { OnOk result (RetrievesLoaded G.noted G.allocates M.id_of M.Storage.UnprotectedStorage
            markers_of
            list.items (known_of entities.old allocator.old markers.old)
            (known_of entities.new allocator.new markers.new)) }
        ensures leaves { IfErr result (λ refused. RetrievesLoadedSome G.noted G.allocates M.id_of
            M.Storage.UnprotectedStorage
            markers_of list.items G.refuses refused.place refused.error
            (known_of entities.old allocator.old markers.old) (known_of entities.new allocator.new markers.new)) }
        ensures err { IfErr result (λ refused. LoadsBefore G.noted M.Storage.part_at M.id_of markers_of loaded
            list.items (known_of entities.old allocator.old markers.old)
            (known_of entities.new allocator.new markers.new) (Self.parts_at self.old) (Self.parts_at self.new)
            refused.place) }
        ensures refused { IfErr result (λ refused. RefusesLoad G.noted M.Storage.part_at M.id_of markers_of
            list.items
            (RefusesBearers G.refuses M.id_of) (known_of entities.old allocator.old markers.old)
            (known_of entities.new allocator.new markers.new) refused.place refused.error) }
        ensures gives { OnOk result (GivesEach loaded gives (bearer_in G.noted M.Storage.part_at M.id_of
            entities.new allocator.new markers.new) list.items self.old self.new) }
        ensures stops { IfErr result (λ why. GivesUntil loaded gives (bearer_in G.noted M.Storage.part_at M.id_of
            entities.new allocator.new markers.new) stops list.items why.place self.old self.new) }
        ensures clean { OnOk result (IsClean M.Storage.part_at (known_of entities.old allocator.old markers.old)
            → IsClean M.Storage.part_at (known_of entities.new allocator.new markers.new)) }
        ensures stays { OnErr result (StaysSound G.noted M.Storage.part_at M.id_of markers_of list.items
            (known_of entities.old allocator.old markers.old)
            (known_of entities.new allocator.new markers.new)) }
    {
        load_all(self, alloc, list, entities, markers, allocator)
    }

    /// Each marker that stands in the data of parts is that of an entity.
    ghost stands: { (names : Entity → Option M) (parts : Self.Parts) (saved : Self.Data) (marker : M)
        → Self.plain names parts ≡ Some saved → IsAmong marker (markers_of saved)
        → (entity : Entity) × (names entity ≡ Some marker) };

    /// Under a map that knows more bearers, data has the parts that it had.
    ghost kept: { (one other : M → Option Entity) (saved : Self.Data) (parts : Self.Parts)
        → ((marker : M) (entity : Entity) → one marker ≡ Some entity → other marker ≡ Some entity)
        → loaded one saved ≡ Some parts → loaded other saved ≡ Some parts };

    /// What was loaded is saved as it was, where each bearer has just the marker that it is known by.
    ghost back: { (bearers : M → Option Entity) (names : Entity → Option M) (saved : Self.Data) (parts : Self.Parts)
        → ((marker : M) (entity : Entity) → bearers marker ≡ Some entity → names entity ≡ Some marker)
        → loaded bearers saved ≡ Some parts → Self.plain names parts ≡ Some saved };
}

/// The part of data, where there is one.
fn convert_part<M: SavedMarker, C: ConvertSaveload<M>, A: MarkerAllocator<M>>(
    saved: Option<C::Data>,
    alloc: Global,
    entities: &mut EntitiesRes,
    markers: &mut MaskedStorage<M>,
    allocator: &mut A,
) -> Result<Option<C>, Error>
    ensures ok { IfOk result (λ part. plain_in (C.loaded (bearer_in A.noted M.Storage.part_at M.id_of
        entities.new allocator.new markers.new)) saved ≡ Some part) }
    ensures adds { OnOk result (AddsBearers A.noted M.Storage.part_at M.id_of entities.old entities.new
        allocator.old allocator.new markers.old markers.new (named_in C.markers_of saved)) }
    ensures retrieves { OnOk result (RetrievesEach A.noted A.allocates M.id_of M.Storage.UnprotectedStorage
        (named_in C.markers_of saved)
        (known_of entities.old allocator.old markers.old) (known_of entities.new allocator.new markers.new)) }
    ensures leaves { IfErr result (λ error. RetrievesSome A.noted A.allocates M.id_of M.Storage.UnprotectedStorage
        A.refuses error
        (named_in C.markers_of saved) (known_of entities.old allocator.old markers.old)
        (known_of entities.new allocator.new markers.new)) }
    ensures refused { IfErr result (RefusesBearers A.refuses M.id_of entities.new allocator.new
        (named_in C.markers_of saved)) }
    ensures keeps { KeepsBearers A.noted M.Storage.part_at M.id_of
        entities.old entities.new allocator.old allocator.new markers.old markers.new }
{
    match saved {
        Some(saved) => {
            let part = C::convert_from(saved, alloc, entities, markers, allocator)?;
            Ok(Some(part))
        }
        None => Ok(None),
    }
}

/// Gives an index a part, or takes out the one that it has.
fn settle<C: Component>(
    storage: &mut MaskedStorage<C>,
    id: Index,
    part: Option<C>,
) -> Result<(), AllocError>
    requires { id < 16777216 }
    ensures ok { OnOk result (GivesPart C.Storage.part_at C.Storage.emits C.Storage.events id part storage.old
        storage.new) }
    ensures err { OnErr result (StaysAsItWas C.Storage.part_at C.Storage.emits C.Storage.events storage.old
        storage.new) }
{
    match part {
        Some(part) => {
            storage.insert(id, part)?;
            Ok(())
        }
        None => storage.drop(id),
    }
}

/// Loads an entity's parts into two storages, the first one's first.
fn load_two<M, A, B, G>(
    one: &mut A,
    other: &mut B,
    alloc: Global,
    entity: Entity,
    saved: (A::Data, B::Data),
    entities: &mut EntitiesRes,
    markers: &mut MaskedStorage<M>,
    allocator: &mut G,
) -> Result<(), Error>
where
    M: SavedMarker,
    A: DeserializeComponents<M>,
    B: DeserializeComponents<M>,
    G: MarkerAllocator<M>,
    ensures ok { OnOk result (IsAlive entities.old entity → both
        (A.loaded (bearer_in G.noted M.Storage.part_at M.id_of entities.new allocator.new markers.new) saved.0)
        (B.loaded (bearer_in G.noted M.Storage.part_at M.id_of entities.new allocator.new markers.new) saved.1)
        ≡ Some (A.parts_at one.new entity.id, B.parts_at other.new entity.id)) }
    ensures adds { OnOk result (AddsBearers G.noted M.Storage.part_at M.id_of entities.old entities.new
        allocator.old allocator.new markers.old markers.new (A.markers_of saved.0 ++ B.markers_of saved.1)) }
    ensures retrieves { OnOk result (RetrievesEach G.noted G.allocates M.id_of M.Storage.UnprotectedStorage
        (A.markers_of saved.0 ++ B.markers_of saved.1) (known_of entities.old allocator.old markers.old)
        (known_of entities.new allocator.new markers.new)) }
    ensures leaves { IfErr result (λ error. RetrievesSome G.noted G.allocates M.id_of M.Storage.UnprotectedStorage
        G.refuses error
        (A.markers_of saved.0 ++ B.markers_of saved.1) (known_of entities.old allocator.old markers.old)
        (known_of entities.new allocator.new markers.new)) }
    ensures refused { IfErr result (RefusesBearers G.refuses M.id_of entities.new allocator.new
        (A.markers_of saved.0 ++ B.markers_of saved.1)) }
    ensures keeps { KeepsBearers G.noted M.Storage.part_at M.id_of
        entities.old entities.new allocator.old allocator.new markers.old markers.new }
    ensures gives { OnOk result (IsAlive entities.old entity → AreGivenParts
        (A.loaded (bearer_in G.noted M.Storage.part_at M.id_of entities.new allocator.new markers.new) saved.0)
        (A.gives entity.id) one.old one.new) }
    ensures gives_too { OnOk result (IsAlive entities.old entity → AreGivenParts
        (B.loaded (bearer_in G.noted M.Storage.part_at M.id_of entities.new allocator.new markers.new) saved.1)
        (B.gives entity.id) other.old other.new) }
    ensures stops { OnErr result (IsAlive entities.old entity
        → let bearer = bearer_in G.noted M.Storage.part_at M.id_of entities.new allocator.new markers.new in
        StopsInPair (A.loaded bearer) (A.gives entity.id) (λ saved. A.stops bearer saved entity.id)
        (λ saved. B.stops bearer saved entity.id) saved (one.old, other.old) (one.new, other.new)) }
    ensures others { (index : ℕ) → index ≢ entity.id → A.parts_at one.new index ≡ A.parts_at one.old index }
    ensures others_too { (index : ℕ) → index ≢ entity.id → B.parts_at other.new index ≡ B.parts_at other.old index }
    ensures dead { ¬ (IsAlive entities.new entity) → one.new ≡ one.old }
    ensures dead_too { ¬ (IsAlive entities.new entity) → other.new ≡ other.old }
{
    let (first, second) = saved;
    match one.deserialize_entity(alloc, entity, first, entities, markers, allocator) {
        Ok(()) => other.deserialize_entity(alloc, entity, second, entities, markers, allocator),
        Err(error) => Err(error),
    }
}

/// The parts of one kind.
impl<M: SavedMarker, C: Component + ConvertSaveload<M>> DeserializeComponents<M>
    for MaskedStorage<C> {
    ghost use Rattle.specs_saveload.specs.Loading.{GivesPart, StaysAsItWas};
    ghost use Rattle.specs_saveload.specs.Saved.{named_in, plain_in};
    ghost use Rattle.specs_saveload.specs.LoadingLemmas.{option-back, option-kept, option-stands};

    ghost markers_of = { named_in C.markers_of };

    ghost loaded = { λ bearers. plain_in (C.loaded bearers) };

    ghost gives = { λ index part before after. GivesPart C.Storage.part_at C.Storage.emits C.Storage.events index
        part before after };

    ghost stops = { λ bearers saved index before after. StaysAsItWas C.Storage.part_at C.Storage.emits C.Storage.events
        before after };

    fn deserialize_entity<G: MarkerAllocator<M>>(
        &mut self,
        alloc: Global,
        entity: Entity,
        saved: Option<C::Data>,
        entities: &mut EntitiesRes,
        markers: &mut MaskedStorage<M>,
        allocator: &mut G,
    ) -> Result<(), Error> {
        let part = convert_part(saved, alloc, entities, markers, allocator)?;
        if entities.is_alive(entity) {
            settle(self, entity.id(), part)?;
        }
        Ok(())
    }

    ghost stands = { λ names. option-stands names C.markers_of (C.plain names) (C.stands names) };

    ghost kept = { λ one other saved parts more. option-kept (C.loaded one) (C.loaded other)
        (λ given value. C.kept one other given value more) saved parts };

    ghost back = { λ bearers names saved parts same. option-back (C.loaded bearers) (C.plain names)
        (λ given value. C.back bearers names given value same) saved parts };
}

/// The parts of both.
impl<
    M: SavedMarker,
    A: DeserializeComponents<M>,
    B: DeserializeComponents<M>,
> DeserializeComponents<M> for (A, B) {
    ghost use Rattle.std.specs.Prelude.{◌++◌};
    ghost use Rattle.specs_join.specs.Joins.{both};
    ghost use Rattle.specs_saveload.specs.Loading.{StopsInPair};
    ghost use Rattle.specs_saveload.specs.LoadingLemmas.{both-back, both-kept, both-stands};

    ghost markers_of = { λ saved. A.markers_of saved.0 ++ B.markers_of saved.1 };

    ghost loaded = { λ bearers saved. both (A.loaded bearers saved.0) (B.loaded bearers saved.1) };

    ghost gives = { λ index parts before after. A.gives index parts.0 before.0 after.0
        × B.gives index parts.1 before.1 after.1 };

    ghost stops = { λ bearers saved index before after. StopsInPair (A.loaded bearers) (A.gives index)
        (λ saved. A.stops bearers saved index) (λ saved. B.stops bearers saved index) saved before after };

    fn deserialize_entity<G: MarkerAllocator<M>>(
        &mut self,
        alloc: Global,
        entity: Entity,
        saved: (A::Data, B::Data),
        entities: &mut EntitiesRes,
        markers: &mut MaskedStorage<M>,
        allocator: &mut G,
    ) -> Result<(), Error> {
        load_two(
            &mut self.0,
            &mut self.1,
            alloc,
            entity,
            saved,
            entities,
            markers,
            allocator,
        )
    }

    ghost stands = { λ names parts saved marker. both-stands names (A.plain names parts.0) (B.plain names parts.1)
        A.markers_of B.markers_of saved marker (λ first. A.stands names parts.0 first marker)
        (λ second. B.stands names parts.1 second marker) };

    ghost kept = { λ one other saved parts more. both-kept (A.loaded one saved.0) (A.loaded other saved.0)
        (B.loaded one saved.1) (B.loaded other saved.1) parts
        (λ part. A.kept one other saved.0 part more) (λ part. B.kept one other saved.1 part more) };

    ghost back = { λ bearers names saved parts same. both-back (A.loaded bearers saved.0) (B.loaded bearers saved.1)
        (A.plain names) (B.plain names) saved parts (λ part. A.back bearers names saved.0 part same)
        (λ part. B.back bearers names saved.1 part same) };
}

/// The parts of all three.
impl<
    M: SavedMarker,
    A: DeserializeComponents<M>,
    B: DeserializeComponents<M>,
    C: DeserializeComponents<M>,
> DeserializeComponents<M> for (A, B, C) {
    ghost use Rattle.std.specs.Prelude.{◌++◌};
    ghost use Rattle.specs_join.specs.Joins.{all_three};
    ghost use Rattle.specs_saveload.specs.Loading.{StopsInPair};
    ghost use Rattle.specs_saveload.specs.LoadingLemmas.{three-back, three-kept, three-stands};

    ghost markers_of = { λ saved. A.markers_of saved.0 ++ (B.markers_of saved.1 ++ C.markers_of saved.2) };

    ghost loaded = { λ bearers saved. all_three (A.loaded bearers saved.0) (B.loaded bearers saved.1)
        (C.loaded bearers saved.2) };

    ghost gives = { λ index parts before after. A.gives index parts.0 before.0 after.0
        × B.gives index parts.1 before.1 after.1 × C.gives index parts.2 before.2 after.2 };

    ghost stops = { λ bearers saved index before after. StopsInPair (A.loaded bearers) (A.gives index)
        (λ saved. A.stops bearers saved index)
        (StopsInPair (B.loaded bearers) (B.gives index) (λ saved. B.stops bearers saved index)
        (λ saved. C.stops bearers saved index))
        (saved.0, (saved.1, saved.2)) (before.0, (before.1, before.2)) (after.0, (after.1, after.2)) };

    fn deserialize_entity<G: MarkerAllocator<M>>(
        &mut self,
        alloc: Global,
        entity: Entity,
        saved: (A::Data, B::Data, C::Data),
        entities: &mut EntitiesRes,
        markers: &mut MaskedStorage<M>,
        allocator: &mut G,
    ) -> Result<(), Error> {
        let (first, second, third) = saved;
        match self
            .0
            .deserialize_entity(alloc, entity, first, entities, markers, allocator)
        {
            Ok(()) => load_two(
                &mut self.1,
                &mut self.2,
                alloc,
                entity,
                (second, third),
                entities,
                markers,
                allocator,
            ),
            Err(error) => Err(error),
        }
    }

    ghost stands = { λ names parts saved marker. three-stands names (A.plain names parts.0) (B.plain names parts.1)
        (C.plain names parts.2) A.markers_of B.markers_of C.markers_of saved marker
        (λ first. A.stands names parts.0 first marker) (λ second. B.stands names parts.1 second marker)
        (λ third. C.stands names parts.2 third marker) };

    ghost kept = { λ one other saved parts more. three-kept (A.loaded one saved.0) (A.loaded other saved.0)
        (B.loaded one saved.1) (B.loaded other saved.1) (C.loaded one saved.2) (C.loaded other saved.2) parts
        (λ part. A.kept one other saved.0 part more) (λ part. B.kept one other saved.1 part more)
        (λ part. C.kept one other saved.2 part more) };

    ghost back = { λ bearers names saved parts same. three-back (A.loaded bearers saved.0) (B.loaded bearers saved.1)
        (C.loaded bearers saved.2) (A.plain names) (B.plain names) (C.plain names) saved parts
        (λ part. A.back bearers names saved.0 part same) (λ part. B.back bearers names saved.1 part same)
        (λ part. C.back bearers names saved.2 part same) };
}

/// The parts of all four.
impl<
    M: SavedMarker,
    A: DeserializeComponents<M>,
    B: DeserializeComponents<M>,
    C: DeserializeComponents<M>,
    D: DeserializeComponents<M>,
> DeserializeComponents<M> for (A, B, C, D) {
    ghost use Rattle.std.specs.Prelude.{◌++◌};
    ghost use Rattle.specs_join.specs.Joins.{both};
    ghost use Rattle.specs_saveload.specs.Loading.{StopsInPair};
    ghost use Rattle.specs_saveload.specs.LoadingLemmas.{both-back, both-kept, both-stands};

    ghost markers_of = { λ saved. (A.markers_of saved.0.0 ++ B.markers_of saved.0.1)
        ++ (C.markers_of saved.1.0 ++ D.markers_of saved.1.1) };

    ghost loaded = { λ bearers saved. both (both (A.loaded bearers saved.0.0) (B.loaded bearers saved.0.1))
        (both (C.loaded bearers saved.1.0) (D.loaded bearers saved.1.1)) };

    ghost gives = { λ index parts before after. A.gives index parts.0.0 before.0 after.0
        × B.gives index parts.0.1 before.1 after.1 × C.gives index parts.1.0 before.2 after.2
        × D.gives index parts.1.1 before.3 after.3 };

    ghost stops = { λ bearers saved index before after. StopsInPair
        (λ two. both (A.loaded bearers two.0) (B.loaded bearers two.1))
        (λ two before after. A.gives index two.0 before.0 after.0 × B.gives index two.1 before.1 after.1)
        (StopsInPair (A.loaded bearers) (A.gives index) (λ saved. A.stops bearers saved index)
        (λ saved. B.stops bearers saved index))
        (StopsInPair (C.loaded bearers) (C.gives index) (λ saved. C.stops bearers saved index)
        (λ saved. D.stops bearers saved index))
        saved ((before.0, before.1), (before.2, before.3)) ((after.0, after.1), (after.2, after.3)) };

    fn deserialize_entity<G: MarkerAllocator<M>>(
        &mut self,
        alloc: Global,
        entity: Entity,
        saved: ((A::Data, B::Data), (C::Data, D::Data)),
        entities: &mut EntitiesRes,
        markers: &mut MaskedStorage<M>,
        allocator: &mut G,
    ) -> Result<(), Error> {
        let (first, second) = saved;
        match load_two(
            &mut self.0,
            &mut self.1,
            alloc,
            entity,
            first,
            entities,
            markers,
            allocator,
        ) {
            Ok(()) => load_two(
                &mut self.2,
                &mut self.3,
                alloc,
                entity,
                second,
                entities,
                markers,
                allocator,
            ),
            Err(error) => Err(error),
        }
    }

    ghost stands = { λ names parts saved marker. both-stands names
        (both (A.plain names parts.0.0) (B.plain names parts.0.1))
        (both (C.plain names parts.1.0) (D.plain names parts.1.1))
        (λ two. A.markers_of two.0 ++ B.markers_of two.1) (λ two. C.markers_of two.0 ++ D.markers_of two.1)
        saved marker
        (λ two. both-stands names (A.plain names parts.0.0) (B.plain names parts.0.1) A.markers_of B.markers_of two
        marker (λ first. A.stands names parts.0.0 first marker) (λ second. B.stands names parts.0.1 second marker))
        (λ two. both-stands names (C.plain names parts.1.0) (D.plain names parts.1.1) C.markers_of D.markers_of two
        marker (λ first. C.stands names parts.1.0 first marker) (λ second. D.stands names parts.1.1 second marker)) };

    ghost kept = { λ one other saved parts more. both-kept
        (both (A.loaded one saved.0.0) (B.loaded one saved.0.1))
        (both (A.loaded other saved.0.0) (B.loaded other saved.0.1))
        (both (C.loaded one saved.1.0) (D.loaded one saved.1.1))
        (both (C.loaded other saved.1.0) (D.loaded other saved.1.1))
        parts
        (λ two. both-kept (A.loaded one saved.0.0) (A.loaded other saved.0.0) (B.loaded one saved.0.1)
        (B.loaded other saved.0.1) two (λ part. A.kept one other saved.0.0 part more)
        (λ part. B.kept one other saved.0.1 part more))
        (λ two. both-kept (C.loaded one saved.1.0) (C.loaded other saved.1.0) (D.loaded one saved.1.1)
        (D.loaded other saved.1.1) two (λ part. C.kept one other saved.1.0 part more)
        (λ part. D.kept one other saved.1.1 part more)) };

    ghost back = { λ bearers names saved parts same. both-back
        (both (A.loaded bearers saved.0.0) (B.loaded bearers saved.0.1))
        (both (C.loaded bearers saved.1.0) (D.loaded bearers saved.1.1))
        (λ two. both (A.plain names two.0) (B.plain names two.1))
        (λ two. both (C.plain names two.0) (D.plain names two.1))
        saved parts
        (λ two. both-back (A.loaded bearers saved.0.0) (B.loaded bearers saved.0.1) (A.plain names) (B.plain names)
        saved.0 two (λ part. A.back bearers names saved.0.0 part same)
        (λ part. B.back bearers names saved.0.1 part same))
        (λ two. both-back (C.loaded bearers saved.1.0) (D.loaded bearers saved.1.1) (C.plain names) (D.plain names)
        saved.1 two (λ part. C.back bearers names saved.1.0 part same)
        (λ part. D.back bearers names saved.1.1 part same)) };
}

/// Why a list isn't loaded, and where.
#[derive(Debug, Drop, ThisError)]
#[error("the entry at {place} is not loaded: {error}")]
pub struct LoadError {
    /// The place of the entry in the list, counted from 0. Those before it are loaded.
    pub place: usize,
    /// The refusal.
    pub error: Error,
}

/// The entity that bears a marker which stays where it is, made where there is none.
fn find_one<M: SavedMarker, A: MarkerAllocator<M>>(
    marker: &M,
    entities: &mut EntitiesRes,
    markers: &mut MaskedStorage<M>,
    allocator: &mut A,
) -> Result<Entity, Error>
    ensures ok { IfOk result (λ entity. bearer_in A.noted M.Storage.part_at M.id_of
        entities.new allocator.new markers.new marker.now ≡ Some entity) }
    ensures births { IfOk result (AddsBirth entities.old entities.new) }
    ensures adds { OnOk result (AddsBearers A.noted M.Storage.part_at M.id_of
        entities.old entities.new allocator.old allocator.new markers.old markers.new (marker.now ∷ [])) }
    ensures retrieves { OnOk result (RetrievesEach A.noted A.allocates M.id_of M.Storage.UnprotectedStorage
        (marker.now ∷ [])
        (known_of entities.old allocator.old markers.old) (known_of entities.new allocator.new markers.new)) }
    ensures leaves { IfErr result (λ error. RetrievesSome A.noted A.allocates M.id_of M.Storage.UnprotectedStorage
        A.refuses error
        (marker.now ∷ []) (known_of entities.old allocator.old markers.old)
        (known_of entities.new allocator.new markers.new)) }
    ensures keeps { KeepsBearers A.noted M.Storage.part_at M.id_of
        entities.old entities.new allocator.old allocator.new markers.old markers.new }
    ensures refused { IfErr result (RefusesBearers A.refuses M.id_of entities.new allocator.new (marker.now ∷ [])) }
{
    match marker.copy() {
        Ok(same) => bearer(same, entities, markers, allocator),
        Err(_) => Err(Error::Memory),
    }
}

/// Finds the entities that bear the markers of a list's entries, or makes them, one after the other, and puts each
/// behind those that were found before.
fn find_all<M: SavedMarker, D, A: MarkerAllocator<M>>(
    list: &[EntityData<M, D>],
    found: &mut Vec<Entity>,
    entities: &mut EntitiesRes,
    markers: &mut MaskedStorage<M>,
    allocator: &mut A,
) -> Result<(), LoadError>
    requires none { found.old.items ≡ [] }
    ensures ok { OnOk result (Finds A.noted M.Storage.part_at M.id_of list.now
        (known_of entities.old allocator.old markers.old) (known_of entities.new allocator.new markers.new)) }
    ensures bearers { OnOk result (AreBearers (bearer_in A.noted M.Storage.part_at M.id_of
        entities.new allocator.new markers.new) list.now found.new.items) }
    ensures retrieves { OnOk result (RetrievesEach A.noted A.allocates M.id_of M.Storage.UnprotectedStorage
        (map (λ entry. entry.marker) list.now) (known_of entities.old allocator.old markers.old)
        (known_of entities.new allocator.new markers.new)) }
    ensures err { IfErr result (λ refused. FindsBefore A.noted M.Storage.part_at M.id_of list.now
        (known_of entities.old allocator.old markers.old) (known_of entities.new allocator.new markers.new)
        refused.place) }
    ensures bearers_before { IfErr result (λ refused. AreBearers (bearer_in A.noted M.Storage.part_at M.id_of
        entities.new allocator.new markers.new) (take refused.place list.now) found.new.items) }
    ensures leaves { IfErr result (λ refused. RetrievesSome A.noted A.allocates M.id_of
        M.Storage.UnprotectedStorage A.refuses
        refused.error (map (λ entry. entry.marker) list.now) (known_of entities.old allocator.old markers.old)
        (known_of entities.new allocator.new markers.new)) }
    ensures refused { IfErr result (λ refused. RefusesEntry (λ components. []) list.now
        (RefusesBearers A.refuses M.id_of entities.new allocator.new) refused.place refused.error) }
{
    for (place, entry) in list.iter().enumerate() {
        let entity = match find_one(&entry.marker, entities, markers, allocator) {
            Ok(entity) => entity,
            Err(error) => return Err(LoadError { place, error }),
        };
        match found.push(entity) {
            Ok(()) => {}
            Err(_) => {
                let error = Error::Memory;
                return Err(LoadError { place, error });
            }
        }
    }
    Ok(())
}

/// The entity at a place.
fn found_at(found: &[Entity], place: usize) -> Entity
    requires { place < length found.now }
    ensures { Some result ≡ slice_get found.now place }
{
    found[place]
}

/// Loads one entry: the parts of the entity that bears its marker.
fn load_one<M: SavedMarker, S: DeserializeComponents<M>, A: MarkerAllocator<M>>(
    storages: &mut S,
    alloc: Global,
    entity: Entity,
    entry: EntityData<M, S::Data>,
    entities: &mut EntitiesRes,
    markers: &mut MaskedStorage<M>,
    allocator: &mut A,
) -> Result<(), Error>
    requires bearer { bearer_in A.noted M.Storage.part_at M.id_of
        entities.old allocator.old markers.old entry.marker ≡ Some entity }
    ensures ok { OnOk result (IsLoaded S.loaded (bearer_in A.noted M.Storage.part_at M.id_of
        entities.new allocator.new markers.new) (S.parts_at storages.new) entry) }
    ensures adds { OnOk result (AddsBearers A.noted M.Storage.part_at M.id_of entities.old entities.new
        allocator.old allocator.new markers.old markers.new (entry.marker ∷ S.markers_of entry.components)) }
    ensures retrieves { OnOk result (RetrievesEach A.noted A.allocates M.id_of M.Storage.UnprotectedStorage
        (S.markers_of entry.components) (known_of entities.old allocator.old markers.old)
        (known_of entities.new allocator.new markers.new)) }
    ensures leaves { IfErr result (λ error. RetrievesSome A.noted A.allocates M.id_of M.Storage.UnprotectedStorage
        A.refuses error
        (S.markers_of entry.components) (known_of entities.old allocator.old markers.old)
        (known_of entities.new allocator.new markers.new)) }
    ensures refused { IfErr result (RefusesBearers A.refuses M.id_of entities.new allocator.new
        (entry.marker ∷ S.markers_of entry.components)) }
    ensures keeps { KeepsBearers A.noted M.Storage.part_at M.id_of
        entities.old entities.new allocator.old allocator.new markers.old markers.new }
    ensures elsewhere { (index : ℕ) → ((entity : Entity) → bearer_in A.noted M.Storage.part_at M.id_of
        entities.new allocator.new markers.new entry.marker ≡ Some entity → index ≢ entity.id)
        → S.parts_at storages.new index ≡ S.parts_at storages.old index }
    ensures gives { OnOk result (GivesEntry S.loaded S.gives (bearer_in A.noted M.Storage.part_at M.id_of
        entities.new allocator.new markers.new) entry storages.old storages.new) }
    ensures stops { OnErr result ((bearer_in A.noted M.Storage.part_at M.id_of
        entities.new allocator.new markers.new entry.marker ≡ Some entity)
        × S.stops (bearer_in A.noted M.Storage.part_at M.id_of entities.new allocator.new markers.new)
        entry.components entity.id storages.old storages.new) }
{
    let EntityData {
        marker: _,
        components,
    } = entry;
    storages.deserialize_entity(alloc, entity, components, entities, markers, allocator)
}

/// Loads the entries of a list, whose entities were found, one after the other.
fn load_each<M: SavedMarker, S: DeserializeComponents<M>, A: MarkerAllocator<M>>(
    storages: &mut S,
    alloc: Global,
    list: Vec<EntityData<M, S::Data>>,
    found: &[Entity],
    entities: &mut EntitiesRes,
    markers: &mut MaskedStorage<M>,
    allocator: &mut A,
) -> Result<(), LoadError>
    requires bearers { AreBearers (bearer_in A.noted M.Storage.part_at M.id_of
        entities.old allocator.old markers.old) list.items found.now }
    ensures ok { OnOk result (LoadsFound A.noted M.Storage.part_at M.id_of S.markers_of S.loaded list.items
        (known_of entities.old allocator.old markers.old) (known_of entities.new allocator.new markers.new)
        (S.parts_at storages.old) (S.parts_at storages.new)) }
    ensures retrieves { OnOk result (RetrievesEach A.noted A.allocates M.id_of M.Storage.UnprotectedStorage
        (flat_map (λ entry. S.markers_of entry.components) list.items)
        (known_of entities.old allocator.old markers.old) (known_of entities.new allocator.new markers.new)) }
    ensures err { IfErr result (λ refused. LoadsFoundBefore A.noted M.Storage.part_at M.id_of S.markers_of S.loaded
        list.items (known_of entities.old allocator.old markers.old)
        (known_of entities.new allocator.new markers.new) (S.parts_at storages.old) (S.parts_at storages.new)
        refused.place) }
    ensures leaves { IfErr result (λ refused. RetrievesFoundSome A.noted A.allocates M.id_of
        M.Storage.UnprotectedStorage S.markers_of
        list.items A.refuses refused.place refused.error (known_of entities.old allocator.old markers.old)
        (known_of entities.new allocator.new markers.new)) }
    ensures refused { IfErr result (λ refused. RefusesEntry S.markers_of list.items
        (RefusesBearers A.refuses M.id_of entities.new allocator.new) refused.place refused.error) }
    ensures gives { OnOk result (GivesEach S.loaded S.gives (bearer_in A.noted M.Storage.part_at M.id_of
        entities.new allocator.new markers.new) list.items storages.old storages.new) }
    ensures stops { IfErr result (λ refused. GivesThenRefuses S.loaded S.gives (bearer_in A.noted M.Storage.part_at
        M.id_of entities.new allocator.new markers.new) S.stops list.items refused.place storages.old
        storages.new) }
{
    let _count = list.as_slice().len();
    let mut place = 0;
    for entry in list {
        let entity = found_at(found, place);
        match load_one(storages, alloc, entity, entry, entities, markers, allocator) {
            Ok(()) => place += 1,
            Err(error) => return Err(LoadError { place, error }),
        }
    }
    Ok(())
}

/// Finds or makes the entities of a list's entries, and loads the entries then. Where the entity of one isn't had,
/// those before it are loaded.
fn load_all<M: SavedMarker, S: DeserializeComponents<M>, A: MarkerAllocator<M>>(
    storages: &mut S,
    alloc: Global,
    mut list: Vec<EntityData<M, S::Data>>,
    entities: &mut EntitiesRes,
    markers: &mut MaskedStorage<M>,
    allocator: &mut A,
) -> Result<(), LoadError>
    ensures ok { OnOk result (Loads A.noted M.Storage.part_at M.id_of S.markers_of S.loaded list.items
        (known_of entities.old allocator.old markers.old) (known_of entities.new allocator.new markers.new)
        (S.parts_at storages.old) (S.parts_at storages.new)) }
    ensures retrieves { OnOk result (RetrievesLoaded A.noted A.allocates M.id_of M.Storage.UnprotectedStorage
        S.markers_of list.items
        (known_of entities.old allocator.old markers.old) (known_of entities.new allocator.new markers.new)) }
    ensures leaves { IfErr result (λ refused. RetrievesLoadedSome A.noted A.allocates M.id_of
        M.Storage.UnprotectedStorage S.markers_of
        list.items A.refuses refused.place refused.error (known_of entities.old allocator.old markers.old)
        (known_of entities.new allocator.new markers.new)) }
    ensures err { IfErr result (λ refused. LoadsBefore A.noted M.Storage.part_at M.id_of S.markers_of S.loaded
        list.items (known_of entities.old allocator.old markers.old)
        (known_of entities.new allocator.new markers.new) (S.parts_at storages.old) (S.parts_at storages.new)
        refused.place) }
    ensures refused { IfErr result (λ refused. RefusesLoad A.noted M.Storage.part_at M.id_of S.markers_of list.items
        (RefusesBearers A.refuses M.id_of) (known_of entities.old allocator.old markers.old)
        (known_of entities.new allocator.new markers.new) refused.place refused.error) }
    ensures gives { OnOk result (GivesEach S.loaded S.gives (bearer_in A.noted M.Storage.part_at M.id_of
        entities.new allocator.new markers.new) list.items storages.old storages.new) }
    ensures stops { IfErr result (λ refused. GivesUntil S.loaded S.gives (bearer_in A.noted M.Storage.part_at
        M.id_of entities.new allocator.new markers.new) S.stops list.items refused.place storages.old
        storages.new) }
{
    let mut found = Vec::new(alloc);
    match find_all(list.as_slice(), &mut found, entities, markers, allocator) {
        Ok(()) => load_each(
            storages,
            alloc,
            list,
            found.as_slice(),
            entities,
            markers,
            allocator,
        ),
        Err(refused) => {
            list.truncate(refused.place);
            match load_each(
                storages,
                alloc,
                list,
                found.as_slice(),
                entities,
                markers,
                allocator,
            ) {
                Ok(()) => Err(refused),
                Err(earlier) => Err(earlier),
            }
        }
    }
}
