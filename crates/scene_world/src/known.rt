//! Who is known in a world by an id, as a system sees it, by the values of the world alone, whatever the rules are.
ghost use Rattle.std.specs.Prelude.{◌≡◌, IfOk};
ghost use Rattle.specs_entity.specs.Births.{living};
ghost use Rattle.specs_markers.specs.Simple.{noted_under};
ghost use Rattle.scene_world.specs.Rolls.{is_life, index_of};
ghost use Rattle.scene_world.specs.Known.{ids_known_at, known_at, roll_held};

use crate::SceneValue;
use shred_world::Holder;
use specs_entity::Entity;
use specs_markers::{Marker, MarkerAllocator};
use std::alloc::{AllocError, Global};
use std::collections::BTreeSet;

/// The entity that is noted under an id, if one is.
fn noted_entity<V: SceneValue<D>, D: Drop, W: Holder<V>>(view: &W, id: u64) -> Option<Entity>
    ensures { result ≡ noted_under (roll_held ⟦<V as SceneValue<D>>⟧.places (W.slots view.now)).noting id }
{
    let value = view.value(<V as SceneValue<D>>::allocator_id())?;
    let allocator = <V as SceneValue<D>>::allocator(value)?;
    allocator.retrieve_entity_internal(id)
}

/// Whether an entity is alive.
fn is_living<V: SceneValue<D>, D: Drop, W: Holder<V>>(view: &W, entity: Entity) -> bool
    ensures { result ≡ is_life entity.generation
        (living (roll_held ⟦<V as SceneValue<D>>⟧.places (W.slots view.now)).births entity.id) }
{
    let Some(value) = view.value(<V as SceneValue<D>>::entities_id()) else {
        return false;
    };
    match <V as SceneValue<D>>::entities(value) {
        Some(entities) => entities.is_alive(entity),
        None => false,
    }
}

/// The id with which an index is marked, if it is.
fn marked_id<V: SceneValue<D>, D: Drop, W: Holder<V>>(view: &W, index: u32) -> Option<u64>
    ensures { result ≡ (roll_held ⟦<V as SceneValue<D>>⟧.places (W.slots view.now)).marker index }
{
    let value = view.value(<V as SceneValue<D>>::markers_id())?;
    let markers = <V as SceneValue<D>>::markers(value)?;
    if markers.contains(index) {
        Some(markers.get(index).id())
    } else {
        None
    }
}

/// The index of the entity that is known under an id: the one noted under it, where that is alive and marked with it.
pub fn index_under<V: SceneValue<D>, D: Drop, W: Holder<V>>(view: &W, id: u64) -> Option<u32>
    ensures { result ≡ index_of (roll_held ⟦<V as SceneValue<D>>⟧.places (W.slots view.now)) id }
{
    let entity = noted_entity::<V, D, W>(view, id)?;
    if is_living::<V, D, W>(view, entity) && marked_id::<V, D, W>(view, entity.id()) == Some(id) {
        Some(entity.id())
    } else {
        None
    }
}

/// The id under which the entity at an index is known, if it is known under one.
pub fn id_known<V: SceneValue<D>, D: Drop, W: Holder<V>>(view: &W, index: u32) -> Option<u64>
    ensures { result ≡ known_at (roll_held ⟦<V as SceneValue<D>>⟧.places (W.slots view.now)) index }
{
    let id = marked_id::<V, D, W>(view, index)?;
    if index_under::<V, D, W>(view, id) == Some(index) {
        Some(id)
    } else {
        None
    }
}

/// The ids under which entities at these indices are known, each once. Errors: want of memory.
fn ids_known<V: SceneValue<D>, D: Drop, W: Holder<V>>(
    alloc: Global,
    view: &W,
    indices: &[u32],
) -> Result<BTreeSet<u64>, AllocError>
    ensures { IfOk result (λ ids. ids.keys
        ≡ ids_known_at (roll_held ⟦<V as SceneValue<D>>⟧.places (W.slots view.now)) indices.now) }
{
    let mut ids = BTreeSet::new(alloc);
    for place in (0..indices.len()).rev() {
        if let Some(id) = id_known::<V, D, W>(view, indices[place]) {
            ids.insert(id)?;
        }
    }
    Ok(ids)
}

/// The ids of a set in order. Errors: want of memory.
fn in_order(alloc: Global, ids: BTreeSet<u64>) -> Result<Vec<u64>, AllocError>
    ensures { IfOk result (λ list. list.items ≡ ids.keys) }
{
    ids.into_iter().collect(alloc)
}

/// The ids under which entities at these indices are known, each once, in their order: that in which a system of rules
/// asks for its commands, so that they hang on no order of storing.
///
/// Errors: want of memory.
pub fn ids_in_order<V: SceneValue<D>, D: Drop, W: Holder<V>>(
    alloc: Global,
    view: &W,
    indices: &[u32],
) -> Result<Vec<u64>, AllocError>
    ensures { IfOk result (λ ids. ids.items
        ≡ ids_known_at (roll_held ⟦<V as SceneValue<D>>⟧.places (W.slots view.now)) indices.now) }
{
    let ids = ids_known::<V, D, W>(alloc, view, indices)?;
    in_order(alloc, ids)
}
