//! The steps of which marking an entity, and looking for one by its marker, are made.
ghost use Rattle.std.specs.Prelude.{◌≡◌, ◌⊎◌, ◌+◌, ◌<◌, ℕ, None, Some, IsSome, MatchOption, IfOk, IfErr};
ghost use Rattle.std.specs.Prelude.{OnOk, OnErr, IsOk, IfSome, option_map, false};
ghost use Rattle.specs_entity.specs.Births.{IsAlive};
ghost use Rattle.specs_entity.specs.declared.errors.Error.TheVariants as refusal;
ghost use Rattle.specs_layouts.specs.Parts.{told};
ghost use Rattle.specs_layouts.specs.MaskedChanges.{KeepsParts, told_in, told_put};
ghost use Rattle.specs_layouts.specs.declared.track.ComponentEvent.TheVariants as event;
ghost use Rattle.specs_markers.specs.Marking.{IsGiven, IsKnown, IsUnknown, IsUntold, IsUpdated, Marks};
ghost use Rattle.specs_markers.specs.Marking.{MakesMarked, RefusesMaking, RefusesGift, RefusesMark};

use crate::allocator::MarkerAllocator;
use crate::marker::Marker;
use hibitset::Index;
use specs_entity::{EntitiesRes, Entity, Error};
use specs_layouts::{Component, MaskedStorage, UnprotectedStorage};
use std::alloc::AllocFailed;

/// Gives an entity a marker, for an id or for none, and puts it at the entity's index.
pub(crate) fn give<M: Marker, A: MarkerAllocator<M>>(
    allocator: &mut A,
    entity: Entity,
    id: Option<M::Identifier>,
    storage: &mut MaskedStorage<M>,
) -> Result<(), Error>
    requires { entity.id < 16777216 }
    ensures ok { OnOk result (IsGiven A.noted A.allocates M.id_of M.Storage.UnprotectedStorage id entity
        allocator.old allocator.new storage.old storage.new) }
    ensures refused { IfErr result (RefusesGift A.noted A.allocates M.id_of A.refuses id entity
        allocator.old allocator.new) }
    ensures events { OnOk result (M.Storage.events storage.new.inner
        ≡ told_put M.Storage.part_at M.Storage.emits M.Storage.events storage.old entity.id) }
    ensures emission { M.Storage.emits storage.new.inner ≡ M.Storage.emits storage.old.inner }
    ensures untold { OnErr result (IsUntold M.Storage.UnprotectedStorage storage.old storage.new) }
    ensures room { (count : ℕ) → M.Storage.has_room storage.old.inner (count + 1)
        → M.Storage.has_room storage.new.inner count }
{
    let marker = allocator.allocate(entity, id)?;
    match storage.insert(entity.id(), marker) {
        Ok(_) => Ok(()),
        Err(_) => Err(Error::Memory),
    }
}

/// Lends the marker of an index for writing, and leaves it.
fn touch<M: Marker>(storage: &mut MaskedStorage<M>, id: Index) -> Result<(), Error>
    requires { IsSome (M.Storage.part_at storage.old.inner id) }
    ensures parts { KeepsParts M.Storage.part_at storage.old storage.new }
    ensures events { OnOk result (M.Storage.events storage.new.inner
        ≡ told_in M.Storage.emits M.Storage.events storage.old (event.Modified id)) }
    ensures emission { M.Storage.emits storage.new.inner ≡ M.Storage.emits storage.old.inner }
    ensures err { OnErr result (storage.new ≡ storage.old) }
    ensures refused { IfErr result (λ error. error ≡ refusal.Memory) }
    ensures succeeds { M.Storage.emits storage.old.inner ≡ false → IsOk result }
    ensures within_room { M.Storage.has_room storage.old.inner 1 → IsOk result }
{
    match storage.get_mut(id) {
        Ok(_) => Ok(()),
        Err(_) => Err(Error::Memory),
    }
}

/// Gives an entity that has no marker a new one.
fn mark_new<M: Marker, A: MarkerAllocator<M>>(
    allocator: &mut A,
    entity: Entity,
    storage: &mut MaskedStorage<M>,
) -> Result<(), Error>
    requires range { entity.id < 16777216 }
    requires unmarked { M.Storage.part_at storage.old.inner entity.id ≡ None }
    ensures ok { OnOk result (IsGiven A.noted A.allocates M.id_of M.Storage.UnprotectedStorage None entity
        allocator.old allocator.new storage.old storage.new) }
    ensures events { OnOk result (M.Storage.events storage.new.inner ≡ told (M.Storage.emits storage.old.inner)
        (told_in M.Storage.emits M.Storage.events storage.old (event.Inserted entity.id)) (event.Modified entity.id)) }
    ensures emission { M.Storage.emits storage.new.inner ≡ M.Storage.emits storage.old.inner }
    ensures untold { OnErr result (IsUntold M.Storage.UnprotectedStorage storage.old storage.new) }
    ensures refused { IfErr result (RefusesMark A.noted A.allocates M.id_of A.refuses entity
        allocator.old allocator.new) }
{
    storage.make_room(2)?;
    give(allocator, entity, None, storage)?;
    match touch(storage, entity.id()) {
        Ok(()) => Ok(()),
        Err(_) => unreachable!(),
    }
}

/// Marks an entity, and answers whether its marker is new, or none where the entity isn't alive.
pub(crate) fn mark_at<M: Marker, A: MarkerAllocator<M>>(
    allocator: &mut A,
    entity: Entity,
    storage: &mut MaskedStorage<M>,
    entities: &EntitiesRes,
) -> Result<Option<bool>, Error>
    ensures ok { IfOk result (Marks A.noted A.allocates M.id_of M.Storage.UnprotectedStorage entities.now entity
        allocator.old allocator.new storage.old storage.new) }
    ensures untold { OnErr result (IsUntold M.Storage.UnprotectedStorage storage.old storage.new) }
    ensures refused { IfErr result (RefusesMark A.noted A.allocates M.id_of A.refuses entity
        allocator.old allocator.new) }
    ensures alive { OnErr result (IsAlive entities.now entity) }
    ensures succeeds { IsSome (M.Storage.part_at storage.old.inner entity.id)
        → M.Storage.emits storage.old.inner ≡ false → IsOk result }
{
    if !entities.is_alive(entity) {
        return Ok(None);
    }
    if storage.contains(entity.id()) {
        touch(storage, entity.id())?;
        return Ok(Some(false));
    }
    mark_new(allocator, entity, storage)?;
    Ok(Some(true))
}

/// The id of the marker at an index, beside whether it is new, where an entity was marked there.
pub(crate) fn tell<M: Marker>(
    storage: &MaskedStorage<M>,
    id: Index,
    new: Option<bool>,
) -> Option<(M::Identifier, bool)>
    requires { IsSome new → IsSome (M.Storage.part_at storage.now.inner id) }
    ensures new { option_map (λ mark. mark.1) result ≡ new }
    ensures id { IfSome result (λ mark. option_map M.id_of (M.Storage.part_at storage.now.inner id) ≡ Some mark.0) }
{
    match new {
        Some(new) => Some((storage.get(id).id(), new)),
        None => None,
    }
}

/// The entity that is noted under an id, alive and marked.
pub(crate) fn known<M: Marker, A: MarkerAllocator<M>>(
    allocator: &A,
    id: M::Identifier,
    storage: &MaskedStorage<M>,
    entities: &EntitiesRes,
) -> Option<Entity>
    ensures { MatchOption result
        (IsUnknown A.noted M.Storage.part_at id entities.now allocator.now storage.now)
        (IsKnown A.noted M.Storage.part_at id entities.now allocator.now storage.now) }
{
    match allocator.retrieve_entity_internal(id) {
        Some(entity) if entities.is_alive(entity) && storage.contains(entity.id()) => Some(entity),
        _ => None,
    }
}

/// Brings the marker of an index up to date.
pub(crate) fn renew<M: Marker>(
    storage: &mut MaskedStorage<M>,
    id: Index,
    marker: M,
) -> Result<(), AllocFailed<M>>
    requires { IsSome (M.Storage.part_at storage.old.inner id) }
    ensures ok { OnOk result (IsUpdated M.Storage.UnprotectedStorage M.id_of (M.id_of marker) id
        storage.old storage.new) }
    ensures err { OnErr result (storage.new ≡ storage.old) }
    ensures handed_back { IfErr result (λ refused. refused.value ≡ marker) }
    ensures succeeds { M.Storage.emits storage.old.inner ≡ false → IsOk result }
{
    match storage.get_mut(id) {
        Ok(place) => {
            place.update(marker);
            Ok(())
        }
        Err(_) => Err(AllocFailed { value: marker }),
    }
}

/// Creates an entity, and gives it a marker of that one's id.
pub(crate) fn create_marked<M: Marker, A: MarkerAllocator<M>>(
    allocator: &mut A,
    marker: M,
    storage: &mut MaskedStorage<M>,
    entities: &mut EntitiesRes,
) -> Result<Entity, (Error, M)>
    requires { IsUnknown A.noted M.Storage.part_at (M.id_of marker) entities.old allocator.old storage.old }
    ensures ok { IfOk result (MakesMarked A.noted A.allocates M.id_of M.Storage.UnprotectedStorage (M.id_of marker)
        entities.old entities.new allocator.old allocator.new storage.old storage.new) }
    ensures refused { IfErr result
        (λ refused. RefusesMaking A.noted A.allocates M.id_of M.Storage.UnprotectedStorage (M.id_of marker)
        entities.old entities.new allocator.old allocator.new storage.old storage.new A.refuses refused.0) }
    ensures handed_back { IfErr result (λ refused. refused.1 ≡ marker) }
{
    let entity = match entities.create() {
        Ok(entity) => entity,
        Err(error) => return Err((error, marker)),
    };
    match give(allocator, entity, Some(marker.id()), storage) {
        Ok(()) => Ok(entity),
        Err(error) => {
            let _ = entities.delete(entity);
            Err((error, marker))
        }
    }
}
