//! Entities that die in a world, with their parts and markers.
ghost use Rattle.std.specs.Prelude.{◌≡◌, ◌<◌, ◌∷◌, [], true, Some, None, IsTrue, IfOk, OnOk};
ghost use Rattle.specs_markers.specs.Simple.{noted_under};
ghost use Rattle.scene_model.specs.Rulebook.{kill};
ghost use Rattle.scene_model.specs.Declaring.{texts};
ghost use Rattle.scene_world.specs.Standing.{roll_of};
ghost use Rattle.scene_world.specs.Members.{kinds_by};
ghost use Rattle.scene_commands.specs.Acts.{seen_of, entity_under, MayAct, Acts, StaysElsewhere, GoesOn};
ghost use Rattle.scene_commands.specs.Deaths.{DropsParts, Unmarks, Forgets, LetsDie};
ghost use Rattle.scene_commands.specs.Links.{Covers};
ghost use Rattle.scene_commands.specs.Owning.{HaveDied, IsKilled};

use crate::holders::Holders;
use crate::lending::{allocator_at, entities_at};
use crate::looking::entity_under;
use crate::owning::{dying_with, make_holders, owning_among};
use crate::parts::take_at;
use scene_model::DocumentRules;
use scene_world::{Rules, SceneMarker, SceneValue};
use shred_world::World;
use specs_entity::{EntitiesRes, Entity};
use specs_layouts::MaskedStorage;
use std::alloc::{AllocError, Global};

/// Takes the parts at an index under some kinds of the rules out. Errors: want of memory.
fn take_all<R: Rules>(
    world: &mut World<R::Value>,
    names: &[&'static str],
    index: u32,
) -> Result<(), AllocError>
    requires { texts names.now ≡ R.columns.part_names }
    ensures { OnOk result (DropsParts (kinds_by R.Rules R.Value.SceneValue) index R.columns.part_names
        (seen_of world.old) (seen_of world.new)) }
{
    for kind in names {
        take_at::<R>(world, kind, index)?;
    }
    Ok(())
}

/// Takes the marker at an index out of a world. Errors: want of memory.
fn unmark<R: Rules>(world: &mut World<R::Value>, index: u32) -> Result<(), AllocError>
    ensures { OnOk result
        (Unmarks (kinds_by R.Rules R.Value.SceneValue) index (seen_of world.old) (seen_of world.new)) }
{
    let Some(value) = world.get_mut_raw(<R::Value as SceneValue<R::Data>>::markers_id()) else {
        return Err(AllocError);
    };
    <R::Value as SceneValue<R::Data>>::drop_marker(value, index)?;
    Ok(())
}

/// Takes out what the allocator of ids notes under an id. Errors: where the world has none, told as want of memory.
fn forget<R: Rules>(world: &mut World<R::Value>, id: u64) -> Result<(), AllocError>
    ensures { OnOk result
        (Forgets (kinds_by R.Rules R.Value.SceneValue) id (seen_of world.old) (seen_of world.new)) }
{
    let place = <R::Value as SceneValue<R::Data>>::allocator_id();
    let Some(allocator) = allocator_at::<R>(world, place) else {
        return Err(AllocError);
    };
    allocator.forget(id);
    Ok(())
}

/// Lets an entity of a world die. Errors: where it isn't alive, or the world has no entities, told as want of memory.
fn let_die<R: Rules>(world: &mut World<R::Value>, entity: Entity) -> Result<(), AllocError>
    ensures { OnOk result
        (LetsDie (kinds_by R.Rules R.Value.SceneValue) entity.id (seen_of world.old) (seen_of world.new)) }
{
    let place = <R::Value as SceneValue<R::Data>>::entities_id();
    let Some(entities) = entities_at::<R>(world, place) else {
        return Err(AllocError);
    };
    match entities.kill(&[entity]) {
        Ok(()) => Ok(()),
        Err(error) => {
            drop(error);
            Err(AllocError)
        }
    }
}

/// Lets the entity under an id die, with its parts, its marker and what is noted under the id. Nobody dies with it.
///
/// Errors: want of memory, and where nobody lives under the id.
fn kill_one<R: Rules>(rules: &R, world: &mut World<R::Value>, id: u64) -> Result<(), AllocError>
    requires { MayAct (kinds_by R.Rules R.Value.SceneValue) world.old }
    ensures { OnOk result (HaveDied (kinds_by R.Rules R.Value.SceneValue) (id ∷ []) world.old world.new) }
{
    let Some(entity) = entity_under::<R>(world, id) else {
        return Err(AllocError);
    };
    take_all::<R>(world, rules.part_names(), entity.id())?;
    unmark::<R>(world, entity.id())?;
    forget::<R>(world, id)?;
    let_die::<R>(world, entity)?;
    Ok(())
}

/// Lets the entities under ids die, one after another.
///
/// Errors: want of memory, and where nobody lives under one of them; some may have died then.
fn kill_each<R: Rules>(
    rules: &R,
    world: &mut World<R::Value>,
    ids: &[u64],
) -> Result<(), AllocError>
    requires { MayAct (kinds_by R.Rules R.Value.SceneValue) world.old }
    ensures { OnOk result (HaveDied (kinds_by R.Rules R.Value.SceneValue) ids.now world.old world.new) }
{
    for id in ids {
        kill_one(rules, world, *id)?;
    }
    Ok(())
}

/// Lets the entity that is known under an id die, and all that die with it.
///
/// Errors: want of memory.
fn kill_with<R: Rules>(
    rules: &R,
    world: &mut World<R::Value>,
    holders: &mut Holders,
    id: u64,
    entity: Entity,
    alloc: Global,
) -> Result<(), AllocError>
    requires may { MayAct (kinds_by R.Rules R.Value.SceneValue) world.old }
    requires under { entity_under (roll_of (kinds_by R.Rules R.Value.SceneValue) (seen_of world.old)) id
        ≡ Some entity }
    requires range { entity.id < 16777216 }
    requires covers { Covers (kinds_by R.Rules R.Value.SceneValue) holders.old world.old }
    ensures killed { OnOk result (IsKilled (kinds_by R.Rules R.Value.SceneValue) id world.old world.new) }
    ensures covered { OnOk result (Covers (kinds_by R.Rules R.Value.SceneValue) holders.new world.old) }
{
    let names = owning_among::<R>(world, rules.part_names(), alloc)?;
    if names.is_empty() {
        kill_one(rules, world, id)?;
        return Ok(());
    }
    make_holders::<R>(world, names.as_slice(), holders, alloc)?;
    let ids = dying_with::<R>(world, names.as_slice(), holders, entity, alloc)?;
    kill_each(rules, world, ids.as_slice())?;
    Ok(())
}

/// Lets the entity under an id die, with its parts, its marker and what is noted under the id, and with it all that hang
/// on it by references that own their holder: carries the command out that asks for it. From then on references to them
/// are gone.
///
/// The answer is whether it was done. Where nobody lives under the id it is skipped, and the world is as it was.
///
/// Where a part that refers to an entity owns its holder, it finds those that hang on it by the index of holders. The
/// first kill that needs this makes it, by a look at the parts of this kind of all entities.
///
/// Errors: want of memory.
pub fn kill_entity<R: Rules>(
    rules: &R,
    world: &mut World<R::Value>,
    holders: &mut Holders,
    id: u64,
    alloc: Global,
) -> Result<bool, AllocError>
    requires may { MayAct (kinds_by R.Rules R.Value.SceneValue) world.old }
    requires covers { Covers (kinds_by R.Rules R.Value.SceneValue) holders.old world.old }
    ensures acts { IfOk result
        (λ done. Acts (kinds_by R.Rules R.Value.SceneValue) (kill id) done world.old world.new) }
    ensures forgotten { IfOk result (λ done. IsTrue done
        → noted_under (roll_of (kinds_by R.Rules R.Value.SceneValue) (seen_of world.new)).noting id ≡ None) }
    ensures may { OnOk result (MayAct (kinds_by R.Rules R.Value.SceneValue) world.new) }
    ensures elsewhere { OnOk result (StaysElsewhere (kinds_by R.Rules R.Value.SceneValue) world.old world.new) }
    ensures goes_on { OnOk result (GoesOn (kinds_by R.Rules R.Value.SceneValue) world.old world.new) }
    ensures covers { OnOk result (Covers (kinds_by R.Rules R.Value.SceneValue) holders.new world.new) }
{
    let Some(entity) = entity_under::<R>(world, id) else {
        return Ok(false);
    };
    kill_with(rules, world, holders, id, entity, alloc)?;
    Ok(true)
}
