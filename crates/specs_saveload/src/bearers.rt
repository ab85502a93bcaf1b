//! The entities that markers stand for in what is loaded.
ghost use Rattle.std.specs.Prelude.{◌≡◌, [], ◌∷◌, Some, IfOk, IfErr, OnOk};
ghost use Rattle.specs_markers.specs.Marking.{RefusesRetrieval};
ghost use Rattle.specs_saveload.specs.Known.{AddsBearers, AddsBirth, KeepsBearers, RefusesBearers};
ghost use Rattle.specs_saveload.specs.Known.{bearer_in, known_of};
ghost use Rattle.specs_saveload.specs.Retrieved.{RetrievesEach, RetrievesSome};

use crate::names::SavedMarker;
use specs_entity::{EntitiesRes, Entity, Error};
use specs_layouts::{Component, MaskedStorage, UnprotectedStorage};
use specs_markers::{Marker, MarkerAllocator};

/// The entity that bears a marker, made where there is none.
///
/// Errors: those of `retrieve_entity`. Each bearer that was known stays so.
pub fn bearer<M: SavedMarker, A: MarkerAllocator<M>>(
    marker: M,
    entities: &mut EntitiesRes,
    markers: &mut MaskedStorage<M>,
    allocator: &mut A,
) -> Result<Entity, Error>
    ensures ok { IfOk result (λ entity. bearer_in A.noted M.Storage.part_at M.id_of
        entities.new allocator.new markers.new marker ≡ Some entity) }
    ensures births { IfOk result (AddsBirth entities.old entities.new) }
    ensures adds { OnOk result (AddsBearers A.noted M.Storage.part_at M.id_of
        entities.old entities.new allocator.old allocator.new markers.old markers.new (marker ∷ [])) }
    ensures retrieves { OnOk result (RetrievesEach A.noted A.allocates M.id_of M.Storage.UnprotectedStorage
        (marker ∷ [])
        (known_of entities.old allocator.old markers.old) (known_of entities.new allocator.new markers.new)) }
    ensures leaves { IfErr result (λ error. RetrievesSome A.noted A.allocates M.id_of M.Storage.UnprotectedStorage
        A.refuses error
        (marker ∷ []) (known_of entities.old allocator.old markers.old)
        (known_of entities.new allocator.new markers.new)) }
    ensures keeps { KeepsBearers A.noted M.Storage.part_at M.id_of
        entities.old entities.new allocator.old allocator.new markers.old markers.new }
    ensures unborn { IfErr result (RefusesBearers A.refuses M.id_of entities.new allocator.new (marker ∷ [])) }
    ensures refused { IfErr result (RefusesRetrieval A.noted A.allocates M.id_of M.Storage.UnprotectedStorage
        (M.id_of marker) entities.old entities.new allocator.old allocator.new markers.old markers.new A.refuses) }
{
    match allocator.retrieve_entity(marker, markers, entities) {
        Ok(entity) => Ok(entity),
        Err((error, _)) => Err(error),
    }
}
