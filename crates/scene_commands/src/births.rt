//! Entities that are born into a world, with their ids and parts.
ghost use Rattle.std.specs.Prelude.{◌≡◌, ◌<◌, true, false, map, All, AllPairs, IsTrue, IfOk, IfErr, IfSome, OnOk};
ghost use Rattle.std.specs.List.{list_all};
ghost use Rattle.std.specs.Str.{bytes_eq};
ghost use Rattle.specs_entity.specs.Births.{Births, RefusesBirth};
ghost use Rattle.scene_model.specs.Parts.{is_among};
ghost use Rattle.scene_model.specs.Commands.{refs_live};
ghost use Rattle.scene_model.specs.Rulebook.{spawn};
ghost use Rattle.scene_model.specs.Queues.{plain_entry};
ghost use Rattle.scene_world.specs.Standing.{roll_of};
ghost use Rattle.scene_world.specs.Rolls.{ids_in};
ghost use Rattle.scene_world.specs.Members.{kinds_by};
ghost use Rattle.scene_commands.specs.Acts.{seen_of, MayAct, Acts, StaysElsewhere, GoesOn};
ghost use Rattle.scene_commands.specs.Newborns.{RefusesLife, RefusesSpawn, ComesToLife, GetsId, Marks, GivesPart};
ghost use Rattle.scene_commands.specs.Newborns.{GivesParts, Settles};

use crate::lending::{allocator_at, entities_at};
use crate::looking::entities_under;
use crate::parts::put_at;
use scene_model::{DocumentRules, FrameRefusal};
use scene_world::{Rules, SceneMarker, SceneValue};
use shred_world::World;
use specs_entity::{Entity, Error};
use specs_markers::{Marker, MarkerAllocator};
use std::alloc::{AllocError, Global};

/// Whether all references of a datum are to ids that live. Errors: want of memory.
fn are_live<R: Rules>(
    rules: &R,
    world: &World<R::Value>,
    datum: &R::Data,
    alloc: Global,
) -> Result<bool, AllocError>
    ensures { IfOk result (λ live. live ≡ refs_live
        (ids_in (roll_of (kinds_by R.Rules R.Value.SceneValue) (seen_of world.now))) (R.part_of datum.now)) }
{
    let refs = rules.refs(alloc, datum)?;
    let found = entities_under::<R>(world, refs.as_slice(), alloc)?;
    Ok(found.is_some())
}

/// Whether all references of parts are to ids that live. Errors: want of memory.
fn all_live<R: Rules>(
    rules: &R,
    world: &World<R::Value>,
    parts: &[(&'static str, R::Data)],
    alloc: Global,
) -> Result<bool, AllocError>
    ensures { IfOk result (λ live. live ≡ list_all (λ entry. refs_live
        (ids_in (roll_of (kinds_by R.Rules R.Value.SceneValue) (seen_of world.now))) entry.1)
        (map (plain_entry R.part_of) parts.now)) }
{
    for part in parts {
        if !are_live(rules, world, &part.1, alloc)? {
            return Ok(false);
        }
    }
    Ok(true)
}

/// The id that comes next, if there is an allocator of ids.
pub(crate) fn next_id<R: Rules>(world: &World<R::Value>) -> Option<u64>
    ensures { IfSome result
        (λ next. next ≡ (roll_of (kinds_by R.Rules R.Value.SceneValue) (seen_of world.now)).noting.next) }
{
    let value = world.get_raw(<R::Value as SceneValue<R::Data>>::allocator_id())?;
    let allocator = <R::Value as SceneValue<R::Data>>::allocator(value)?;
    Some(allocator.next())
}

/// Why a birth was refused, as the refusal of a frame.
fn refusal_of(error: Error) -> FrameRefusal
    ensures { (births : Births) → RefusesBirth births error → RefusesLife births result }
{
    match error {
        Error::IndicesSpent => FrameRefusal::IndicesSpent,
        Error::GenerationsSpent => FrameRefusal::GenerationsSpent,
        _ => FrameRefusal::Memory,
    }
}

/// Brings the next entity of a world to life.
///
/// Errors: `IndicesSpent`; `GenerationsSpent`; `Memory`.
pub fn bring_to_life<R: Rules>(world: &mut World<R::Value>) -> Result<Entity, FrameRefusal>
    ensures ok { IfOk result (λ entity. ComesToLife (kinds_by R.Rules R.Value.SceneValue) entity
        (seen_of world.old) (seen_of world.new)) }
    ensures range { IfOk result (λ entity. entity.id < 16777216) }
    ensures refused { IfErr result
        (RefusesLife (roll_of (kinds_by R.Rules R.Value.SceneValue) (seen_of world.old)).births) }
{
    let place = <R::Value as SceneValue<R::Data>>::entities_id();
    let Some(entities) = entities_at::<R>(world, place) else {
        return Err(FrameRefusal::Memory);
    };
    match entities.allocate() {
        Ok(entity) => Ok(entity),
        Err(error) => Err(refusal_of(error)),
    }
}

/// Notes an entity under the id that comes next, and answers that id. Errors: want of memory, and where no id is left.
fn give_id<R: Rules>(world: &mut World<R::Value>, entity: Entity) -> Result<u64, AllocError>
    ensures { IfOk result (λ id. GetsId (kinds_by R.Rules R.Value.SceneValue) entity id (seen_of world.old)
        (seen_of world.new)) }
{
    let place = <R::Value as SceneValue<R::Data>>::allocator_id();
    let Some(allocator) = allocator_at::<R>(world, place) else {
        return Err(AllocError);
    };
    match allocator.allocate(entity, None) {
        Ok(marker) => Ok(marker.id()),
        Err(error) => {
            drop(error);
            Err(AllocError)
        }
    }
}

/// Marks an index with an id. Errors: want of memory.
pub fn mark<R: Rules>(world: &mut World<R::Value>, index: u32, given: u64) -> Result<(), AllocError>
    requires { index < 16777216 }
    ensures { OnOk result
        (Marks (kinds_by R.Rules R.Value.SceneValue) index given (seen_of world.old) (seen_of world.new)) }
{
    let Some(value) = world.get_mut_raw(<R::Value as SceneValue<R::Data>>::markers_id()) else {
        return Err(AllocError);
    };
    <R::Value as SceneValue<R::Data>>::insert_marker(value, index, SceneMarker::new(given))?;
    Ok(())
}

/// Puts a part of a newborn in. Errors: want of memory, and where one of its references is to nobody.
fn give_part<R: Rules>(
    rules: &R,
    world: &mut World<R::Value>,
    index: u32,
    kind: &str,
    datum: &R::Data,
    alloc: Global,
) -> Result<(), AllocError>
    requires known { IsTrue (is_among kind.now R.columns.part_names) }
    requires within { index < 16777216 }
    ensures { OnOk result (GivesPart (kinds_by R.Rules R.Value.SceneValue) kind.now index (R.part_of datum.now)
        (seen_of world.old) (seen_of world.new)) }
{
    let refs = rules.refs(alloc, datum)?;
    let Some(named) = entities_under::<R>(world, refs.as_slice(), alloc)? else {
        return Err(AllocError);
    };
    put_at::<R>(world, kind, index, datum, named.as_slice())
}

/// Puts the parts of a newborn in, each under its kind. Errors: want of memory, and where a reference is to nobody.
fn give_parts<R: Rules>(
    rules: &R,
    world: &mut World<R::Value>,
    index: u32,
    parts: &[(&'static str, R::Data)],
    alloc: Global,
) -> Result<(), AllocError>
    requires within { index < 16777216 }
    requires known { All (λ entry. is_among entry.0 R.columns.part_names ≡ true)
        (map (plain_entry R.part_of) parts.now) }
    requires apart { AllPairs (λ one other. bytes_eq one.0 other.0 ≡ false) (map (plain_entry R.part_of) parts.now) }
    ensures { OnOk result (GivesParts (kinds_by R.Rules R.Value.SceneValue)
        (roll_of (kinds_by R.Rules R.Value.SceneValue) (seen_of world.old)) index
        (map (plain_entry R.part_of) parts.now) (seen_of world.old) (seen_of world.new)) }
{
    for part in parts {
        give_part(rules, world, index, part.0, &part.1, alloc)?;
    }
    Ok(())
}

/// Gives an entity that came to life its id and its parts. Errors: want of memory, and where a reference is to nobody.
fn settle<R: Rules>(
    rules: &R,
    world: &mut World<R::Value>,
    entity: Entity,
    parts: &[(&'static str, R::Data)],
    alloc: Global,
) -> Result<(), AllocError>
    requires within { entity.id < 16777216 }
    requires known { All (λ entry. is_among entry.0 R.columns.part_names ≡ true)
        (map (plain_entry R.part_of) parts.now) }
    requires apart { AllPairs (λ one other. bytes_eq one.0 other.0 ≡ false) (map (plain_entry R.part_of) parts.now) }
    ensures { OnOk result (Settles (kinds_by R.Rules R.Value.SceneValue) entity
        (map (plain_entry R.part_of) parts.now) (seen_of world.old) (seen_of world.new)) }
{
    let id = give_id::<R>(world, entity)?;
    mark::<R>(world, entity.id(), id)?;
    give_parts(rules, world, entity.id(), parts, alloc)
}

/// Brings an entity with these parts to life, under the id that comes next: carries the command out that asks for it.
///
/// Each part stands under its own kind of the rules. The answer is whether it was done: where a reference of a part is
/// to none that lives, it is skipped, and the world is as it was.
///
/// Errors: `IdsSpent`, where the id that comes next is 18,446,744,073,709,551,615; `IndicesSpent` and
/// `GenerationsSpent`, where the entities of the world are at their limits; `Memory`.
pub fn spawn_entity<R: Rules>(
    rules: &R,
    world: &mut World<R::Value>,
    parts: &[(&'static str, R::Data)],
    alloc: Global,
) -> Result<bool, FrameRefusal>
    requires may { MayAct (kinds_by R.Rules R.Value.SceneValue) world.old }
    requires known { All (λ entry. is_among entry.0 R.columns.part_names ≡ true)
        (map (plain_entry R.part_of) parts.now) }
    requires apart { AllPairs (λ one other. bytes_eq one.0 other.0 ≡ false) (map (plain_entry R.part_of) parts.now) }
    ensures acts { IfOk result (λ done. Acts (kinds_by R.Rules R.Value.SceneValue)
        (spawn (map (plain_entry R.part_of) parts.now)) done world.old world.new) }
    ensures may { OnOk result (MayAct (kinds_by R.Rules R.Value.SceneValue) world.new) }
    ensures elsewhere { OnOk result (StaysElsewhere (kinds_by R.Rules R.Value.SceneValue) world.old world.new) }
    ensures goes_on { OnOk result (GoesOn (kinds_by R.Rules R.Value.SceneValue) world.old world.new) }
    ensures refused { IfErr result
        (RefusesSpawn (kinds_by R.Rules R.Value.SceneValue) (map (plain_entry R.part_of) parts.now) world.old) }
{
    match all_live(rules, world, parts, alloc) {
        Ok(true) => {}
        Ok(false) => return Ok(false),
        Err(_) => return Err(FrameRefusal::Memory),
    }
    let Some(next) = next_id::<R>(world) else {
        return Err(FrameRefusal::Memory);
    };
    if next == u64::MAX {
        return Err(FrameRefusal::IdsSpent);
    }
    let entity = bring_to_life::<R>(world)?;
    match settle(rules, world, entity, parts, alloc) {
        Ok(()) => Ok(true),
        Err(_) => Err(FrameRefusal::Memory),
    }
}
