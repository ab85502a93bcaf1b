//! Who may refer to others in a world.
ghost use Rattle.std.specs.Prelude.{◌≡◌, ℕ, true, IfOk, OnOk, IsSome};
ghost use Rattle.hibitset_sets.specs.BitSet.{has_member};
ghost use Rattle.specs_entity.specs.Births.{living};
ghost use Rattle.scene_model.specs.Declaring.{texts};
ghost use Rattle.scene_world.specs.Standing.{column_of};
ghost use Rattle.scene_world.specs.Putting.{named_in};
ghost use Rattle.scene_world.specs.Members.{kinds_by};
ghost use Rattle.scene_commands.specs.Acts.{seen_of};
ghost use Rattle.scene_commands.specs.Gone.{names_some, AreLivingAt, AreHolders};

use hibitset_sets::{BitSet, BitSetLike};
use scene_world::{Rules, SceneValue};
use shred_world::World;
use specs_entity::laws::the_living_are_below_the_limit;
use specs_entity::{EntitiesRes, Entity};
use std::alloc::{AllocError, Global};

/// Puts the indices at which a part of a kind may refer to an entity into a set: those that the rules tell, else those
/// of all who live.
///
/// Errors: want of memory.
fn add_holders<R: Rules>(
    world: &World<R::Value>,
    entities: &EntitiesRes,
    kind: &str,
    holders: &mut BitSet,
) -> Result<(), AllocError>
    ensures kept { OnOk result ((index : ℕ) → has_member holders.old index ≡ true
        → has_member holders.new index ≡ true) }
    ensures held { OnOk result ((index : ℕ) → IsSome (living entities.now index)
        → names_some (named_in (column_of (kinds_by R.Rules R.Value.SceneValue) (seen_of world.now) kind.now index))
        ≡ true → has_member holders.new index ≡ true) }
{
    let Some(value) = world.get_raw(R::part_id(kind)) else {
        return Ok(());
    };
    the_living_are_below_the_limit(entities);
    let _ = holders.layer0_as_slice();
    match R::holders(value, kind) {
        Some(told) => holders.bitor_assign(told)?,
        None => holders.bitor_assign(entities.mask())?,
    }
    Ok(())
}

/// The entities that live at the indices of a set. Errors: want of memory.
fn living_at(
    entities: &EntitiesRes,
    indices: &BitSet,
    alloc: Global,
) -> Result<Vec<Entity>, AllocError>
    ensures { IfOk result (λ found. AreLivingAt entities.now (has_member indices.now) found.items) }
{
    the_living_are_below_the_limit(entities);
    let mut found = Vec::new(alloc);
    for index in indices.iter() {
        let entity = entities.entity(index);
        if entities.is_alive(entity) {
            found.push(entity)?;
        }
    }
    Ok(found)
}

/// The entities that live and may refer to others by parts of some kinds: each that does is among them.
///
/// Errors: want of memory, and where the world has no entities.
pub(crate) fn holders_in<R: Rules>(
    world: &World<R::Value>,
    names: &[&'static str],
    alloc: Global,
) -> Result<Vec<Entity>, AllocError>
    ensures { IfOk result (λ found. AreHolders (kinds_by R.Rules R.Value.SceneValue) (seen_of world.now)
        (texts names.now) found.items) }
{
    let Some(value) = world.get_raw(<R::Value as SceneValue<R::Data>>::entities_id()) else {
        return Err(AllocError);
    };
    let Some(entities) = <R::Value as SceneValue<R::Data>>::entities(value) else {
        return Err(AllocError);
    };
    let mut indices = BitSet::new(alloc);
    for kind in names {
        add_holders::<R>(world, entities, kind, &mut indices)?;
    }
    let found = living_at(entities, &indices, alloc)?;
    Ok(found)
}
