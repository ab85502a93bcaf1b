//! What a part is in what is saved.
ghost use Rattle.std.specs.Prelude.{◌≡◌, ◌++◌, ◌⊎◌, ◌↔◌, List, Option, Some};
ghost use Rattle.std.specs.Prelude.{None, IsSome, Ok, IfOk, IfErr, OnOk, IsErrOf};
ghost use Rattle.specs_entity.specs.declared.ids.Entity.{Entity};
ghost use Rattle.specs_entity.specs.declared.errors.Error.TheVariants as refusal;
ghost use Rattle.specs_saveload.specs.Bearing.{IsAmong};
ghost use Rattle.specs_saveload.specs.Known.{AddsBearers, KeepsBearers, RefusesBearers, bearer_in, known_of};
ghost use Rattle.specs_saveload.specs.Retrieved.{RetrievesEach, RetrievesSome};

use crate::JsonForm;
use crate::bearers::bearer;
use crate::names::{Names, SavedMarker};
use specs_entity::{EntitiesRes, Entity, Error};
use specs_layouts::{Component, MaskedStorage, UnprotectedStorage};
use specs_markers::{Marker, MarkerAllocator};
use std::alloc::{AllocError, Global};

/// A value that is saved as data: where it names an entity, the data has the marker that stands for it.
///
/// The name and the calls are those of `specs`.
pub trait ConvertSaveload<M: SavedMarker>: Sized {
    /// The data.
    type Data: JsonForm;

    /// The entities that a value names.
    ghost refers_to: { Self → List Entity };

    /// The markers that stand in data.
    ghost markers_of: { Self.Data → List M };

    /// The data of a value, under a map from entity to marker; none where it names an entity that has none.
    ghost plain: { (Entity → Option M) → Self → Option Self.Data };

    /// The value of data, under a map from marker to entity; none where a marker has none.
    ghost loaded: { (M → Option Entity) → Self.Data → Option Self };

    /// Puts the entities that the value names behind a list.
    ///
    /// Errors: `AllocError`.
    fn references(&self, list: &mut Vec<Entity>) -> Result<(), AllocError>
        ensures { OnOk result (list.new.items ≡ list.old.items ++ refers_to self.now) };

    /// The data of the value.
    ///
    /// Errors: `Unmarked` if it names an entity that has no marker; `Memory`.
    fn convert_into<N: Names<M>>(&self, alloc: Global, names: &N) -> Result<Self::Data, Error>
        ensures ok { IfOk result (λ saved. plain (N.name names.now) self.now ≡ Some saved) }
        ensures unmarked { IsErrOf result refusal.Unmarked → plain (N.name names.now) self.now ≡ None }
        ensures refused { IfErr result (λ error. (error ≡ refusal.Unmarked) ⊎ (error ≡ refusal.Memory)) };

    /// The value of data. Each marker in it stands for the entity that bears it, which is made where there is none.
    /// They are looked for in the order of `markers_of`, once each.
    ///
    /// Errors: those of `bearer`, and `Memory`. Each bearer that was known stays so.
    fn convert_from<A: MarkerAllocator<M>>(
        saved: Self::Data,
        alloc: Global,
        entities: &mut EntitiesRes,
        markers: &mut MaskedStorage<M>,
        allocator: &mut A,
    ) -> Result<Self, Error>
        ensures ok { IfOk result (λ value. loaded (bearer_in A.noted M.Storage.part_at M.id_of
            entities.new allocator.new markers.new) saved ≡ Some value) }
        ensures adds { OnOk result (AddsBearers A.noted M.Storage.part_at M.id_of
            entities.old entities.new allocator.old allocator.new markers.old markers.new (markers_of saved)) }
        ensures retrieves { OnOk result (RetrievesEach A.noted A.allocates M.id_of M.Storage.UnprotectedStorage
            (markers_of saved) (known_of entities.old allocator.old markers.old)
            (known_of entities.new allocator.new markers.new)) }
        ensures leaves { IfErr result (λ error. RetrievesSome A.noted A.allocates M.id_of
            M.Storage.UnprotectedStorage A.refuses
            error (markers_of saved) (known_of entities.old allocator.old markers.old)
            (known_of entities.new allocator.new markers.new)) }
        ensures refused { IfErr result (RefusesBearers A.refuses M.id_of entities.new allocator.new
            (markers_of saved)) }
        ensures keeps { KeepsBearers A.noted M.Storage.part_at M.id_of
            entities.old entities.new allocator.old allocator.new markers.old markers.new };

    /// A value has data just where each entity that it names has a marker.
    ghost named: { (names : Entity → Option M) (value : Self)
        → IsSome (plain names value) ↔ ((entity : Entity) → IsAmong entity (refers_to value) → IsSome
        (names entity)) };

    /// Each marker that stands in the data of a value is that of an entity.
    ghost stands: { (names : Entity → Option M) (value : Self) (saved : Self.Data) (marker : M)
        → plain names value ≡ Some saved → IsAmong marker (markers_of saved)
        → (entity : Entity) × (names entity ≡ Some marker) };

    /// Under a map that knows more bearers, data has the value that it had.
    ghost kept: { (one other : M → Option Entity) (saved : Self.Data) (value : Self)
        → ((marker : M) (entity : Entity) → one marker ≡ Some entity → other marker ≡ Some entity)
        → loaded one saved ≡ Some value → loaded other saved ≡ Some value };

    /// What was loaded is saved as it was, where each bearer has just the marker that it is known by.
    ghost back: { (bearers : M → Option Entity) (names : Entity → Option M) (saved : Self.Data) (value : Self)
        → ((marker : M) (entity : Entity) → bearers marker ≡ Some entity → names entity ≡ Some marker)
        → loaded bearers saved ≡ Some value → plain names value ≡ Some saved };
}

/// The data of a value that names no entity: the value itself.
///
/// Errors: `Memory`.
pub fn plain_into<T: Clone>(value: &T) -> Result<T, Error>
    ensures ok { IfOk result (T.is_clone value.now) }
    ensures refused { IfErr result (λ error. error ≡ refusal.Memory) }
{
    Ok(value.clone()?)
}

/// The value of data that names no entity: the data itself.
pub fn plain_from<T>(saved: T) -> Result<T, Error>
    ensures { result ≡ Ok saved }
{
    Ok(saved)
}

/// An entity is saved as the marker that stands for it.
impl<M: SavedMarker> ConvertSaveload<M> for Entity {
    type Data = M;

    ghost use Rattle.std.specs.Prelude.{[], ◌∷◌};
    ghost use Rattle.specs_saveload.specs.NamingLemmas.{one-named, one-stands};

    ghost refers_to = { λ entity. entity ∷ [] };

    ghost markers_of = { λ marker. marker ∷ [] };

    ghost plain = { λ names entity. names entity };

    ghost loaded = { λ bearers marker. bearers marker };

    fn references(&self, list: &mut Vec<Entity>) -> Result<(), AllocError> {
        list.push(*self)?;
        Ok(())
    }

    fn convert_into<N: Names<M>>(&self, _alloc: Global, names: &N) -> Result<M, Error> {
        match names.name(*self)? {
            Some(marker) => Ok(marker),
            None => Err(Error::Unmarked),
        }
    }

    fn convert_from<A: MarkerAllocator<M>>(
        saved: M,
        _alloc: Global,
        entities: &mut EntitiesRes,
        markers: &mut MaskedStorage<M>,
        allocator: &mut A,
    ) -> Result<Entity, Error> {
        bearer(saved, entities, markers, allocator)
    }

    ghost named = { one-named };

    ghost stands = { λ names entity saved marker is among. (entity, one-stands (names entity) saved marker is among) };

    ghost kept = { λ one other marker entity more is. more marker entity is };

    ghost back = { λ bearers names marker entity same is. same marker entity is };
}
