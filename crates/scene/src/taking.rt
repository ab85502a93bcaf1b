//! What is taken off a world to be kept: who lives, the datum at an index, the globals and the next id.
ghost use Rattle.std.specs.Prelude.{◌≡◌, ℕ, true, map, Some, option_map, IfOk};
ghost use Rattle.scene_world.specs.Markers.{marker_at, marker_log};
ghost use Rattle.scene_model.specs.Parts.{is_among};
ghost use Rattle.scene_model.specs.Declaring.{texts};
ghost use Rattle.scene_world.specs.Standing.{roll_of, value_of, marker_events_in, IsSceneWorld};
ghost use Rattle.scene_world.specs.Members.{kinds_by};
ghost use Rattle.scene_commands.specs.Acts.{seen_of};
ghost use Rattle.scene.specs.Taken.{AreMarkersOf, ArePairs, AreMarkedBy, AreOfPairs, part_at};

use hibitset::BitSetLike;
use scene_commands::id_marked;
use scene_world::{Rules, SceneMarker, SceneValue};
use shred_world::World;
use specs_entity::Entity;
use specs_layouts::MaskedStorage;
use specs_markers::Marker;
use std::alloc::{AllocError, Global};

/// The markers of a world. Errors: where it has none.
pub(crate) fn markers_in<R: Rules>(
    world: &World<R::Value>,
) -> Result<&MaskedStorage<SceneMarker>, AllocError>
    ensures each { IfOk result (λ markers. (index : ℕ) → (roll_of (kinds_by R.Rules R.Value.SceneValue)
        (seen_of world.now)).marker index ≡ marker_at markers.now index) }
    ensures events { IfOk result (λ markers. marker_events_in (kinds_by R.Rules R.Value.SceneValue)
        (seen_of world.now (kinds_by R.Rules R.Value.SceneValue).markers_id) ≡ marker_log markers.now) }
{
    let Some(value) = world.get_raw(<R::Value as SceneValue<R::Data>>::markers_id()) else {
        return Err(AllocError);
    };
    match <R::Value as SceneValue<R::Data>>::markers(value) {
        Some(markers) => Ok(markers),
        None => Err(AllocError),
    }
}

/// The id of each marker, before the index that it marks. Errors: want of memory.
fn pairs_of(
    markers: &MaskedStorage<SceneMarker>,
    alloc: Global,
) -> Result<Vec<(u64, u32)>, AllocError>
    ensures { IfOk result (λ pairs. AreMarkersOf markers.now pairs.items) }
{
    let mut pairs = Vec::new(alloc);
    for index in markers.mask().iter() {
        pairs.push((markers.get(index).id(), index))?;
    }
    Ok(pairs)
}

/// The ids of the living, each before the index of its entity, in the order of the indices.
///
/// Errors: want of memory, and where the world has no markers.
pub(crate) fn pairs_in<R: Rules>(
    rules: &R,
    world: &World<R::Value>,
    alloc: Global,
) -> Result<Vec<(u64, u32)>, AllocError>
    requires stands { IsSceneWorld (kinds_by R.Rules R.Value.SceneValue) (R.book rules.now)
        (seen_of world.now) }
    ensures { IfOk result
        (λ pairs. ArePairs (roll_of (kinds_by R.Rules R.Value.SceneValue) (seen_of world.now)) pairs.items) }
{
    let markers = markers_in::<R>(world)?;
    pairs_of(markers, alloc)
}

/// The ids with which the indices of entities are marked, in their order.
///
/// Errors: want of memory, and where one is not marked.
fn ids_marked<R: Rules>(
    world: &World<R::Value>,
    named: &[Entity],
    alloc: Global,
) -> Result<Vec<u64>, AllocError>
    ensures { IfOk result (λ ids. AreMarkedBy
        (roll_of (kinds_by R.Rules R.Value.SceneValue) (seen_of world.now)) named.now ids.items) }
{
    let mut ids = Vec::new(alloc);
    for entity in named {
        let Some(id) = id_marked::<R>(world, entity.id()) else {
            return Err(AllocError);
        };
        ids.push(id)?;
    }
    Ok(ids)
}

/// The datum of a kind at an index, if there is one, by what stands for the parts of that kind. What the list held is
/// forgotten.
///
/// Errors: want of memory.
fn datum_at<R: Rules>(
    rules: &R,
    world: &World<R::Value>,
    kind: &str,
    value: &R::Value,
    index: u32,
    named: &mut Vec<Entity>,
    alloc: Global,
) -> Result<Option<R::Data>, AllocError>
    requires stands { IsSceneWorld (kinds_by R.Rules R.Value.SceneValue) (R.book rules.now)
        (seen_of world.now) }
    requires known { is_among kind.now R.columns.part_names ≡ true }
    requires column { Some value.now ≡ seen_of world.now (R.columns.part_id kind.now) }
    ensures { IfOk result (λ datum. option_map R.part_of datum ≡ part_at (kinds_by R.Rules R.Value.SceneValue)
        (seen_of world.now) index kind.now) }
{
    named.clear();
    R::named_at(value, kind, index, named)?;
    let ids = ids_marked::<R>(world, named, alloc)?;
    R::get(value, kind, index, &ids, alloc)
}

/// The data of a kind at the indices of these pairs, by what stands for the parts of that kind: each behind the id of its
/// pair.
///
/// Errors: want of memory.
pub(crate) fn data_at<R: Rules>(
    rules: &R,
    world: &World<R::Value>,
    kind: &str,
    value: &R::Value,
    pairs: &[(u64, u32)],
    alloc: Global,
) -> Result<Vec<(u64, Option<R::Data>)>, AllocError>
    requires stands { IsSceneWorld (kinds_by R.Rules R.Value.SceneValue) (R.book rules.now)
        (seen_of world.now) }
    requires known { is_among kind.now R.columns.part_names ≡ true }
    requires column { Some value.now ≡ seen_of world.now (R.columns.part_id kind.now) }
    ensures { IfOk result (λ found. AreOfPairs (kinds_by R.Rules R.Value.SceneValue) R.part_of
        (seen_of world.now) kind.now pairs.now found.items) }
{
    let mut found = Vec::new(alloc);
    let mut named = Vec::new(alloc);
    for pair in pairs {
        if let Some(datum) = datum_at(rules, world, kind, value, pair.1, &mut named, alloc)? {
            found.push((pair.0, Some(datum)))?;
        }
    }
    Ok(found)
}

/// A global's value, if it has one. Errors: want of memory.
fn global_in<R: Rules>(world: &World<R::Value>, name: &str) -> Result<Option<R::Global>, AllocError>
    ensures { IfOk result (λ global. option_map R.global_of global ≡ value_of
        (kinds_by R.Rules R.Value.SceneValue) (seen_of world.now) name.now) }
{
    let Some(value) = world.get_raw(R::global_id(name)) else {
        return Ok(None);
    };
    let Some(global) = R::as_global(name, value) else {
        return Ok(None);
    };
    let copy = global.clone()?;
    Ok(Some(copy))
}

/// The values of globals, each at the place of its name among these.
///
/// Errors: want of memory.
pub(crate) fn globals_in<R: Rules>(
    world: &World<R::Value>,
    names: &[&'static str],
    alloc: Global,
) -> Result<Vec<Option<R::Global>>, AllocError>
    ensures { IfOk result (λ globals. map (option_map R.global_of) globals.items ≡ map
        (value_of (kinds_by R.Rules R.Value.SceneValue) (seen_of world.now)) (texts names.now)) }
{
    let mut globals = Vec::new(alloc);
    for name in names {
        globals.push(global_in::<R>(world, name)?)?;
    }
    Ok(globals)
}

/// The next id of a world. Errors: where the world has no allocator of ids.
pub(crate) fn next_in<R: Rules>(world: &World<R::Value>) -> Result<u64, AllocError>
    ensures { IfOk result
        (λ next. next ≡ (roll_of (kinds_by R.Rules R.Value.SceneValue) (seen_of world.now)).noting.next) }
{
    let Some(value) = world.get_raw(<R::Value as SceneValue<R::Data>>::allocator_id()) else {
        return Err(AllocError);
    };
    match <R::Value as SceneValue<R::Data>>::allocator(value) {
        Some(allocator) => Ok(allocator.next()),
        None => Err(AllocError),
    }
}
