//! Entities that fall with another, by the references that own their holders.
ghost use Rattle.std.specs.Prelude.{◌≡◌, ◌<◌, ◌++◌, ℕ, [], true, false, map, Some, All, IfOk, OnOk};
ghost use Rattle.std.specs.List.{filter};
ghost use Rattle.specs_entity.specs.Births.{IsAlive};
ghost use Rattle.scene_model.specs.Declaring.{texts};
ghost use Rattle.scene_world.specs.Standing.{roll_of, column_of, owning_in};
ghost use Rattle.scene_world.specs.Putting.{named_in};
ghost use Rattle.scene_world.specs.Members.{kinds_by};
ghost use Rattle.scene_commands.specs.Acts.{seen_of, MayAct};
ghost use Rattle.scene_commands.specs.Links.{IsChained, Covers, Grows, end_in};
ghost use Rattle.scene_commands.specs.Owning.{pairs_under, pairs_of, pairs_among, PairAlike, ArePairs, IsNoted};
ghost use Rattle.scene_commands.specs.Owning.{Falls, AreDying};

use crate::gone::id_marked;
use crate::holders::Holders;
use crate::lending::entities_at;
use crate::naming::holders_in;
use crate::reaching::reached_from;
use scene_world::{Rules, SceneValue};
use shred_world::World;
use specs_entity::Entity;
use std::alloc::{AllocError, Global};

/// Whether a part of a kind may refer to an entity, as far as the rules tell at once.
fn may_refer<R: Rules>(world: &World<R::Value>, kind: &str) -> bool
    ensures { result ≡ false → (index : ℕ) → named_in
        (column_of (kinds_by R.Rules R.Value.SceneValue) (seen_of world.now) kind.now index) ≡ [] }
{
    match world.get_raw(R::part_id(kind)) {
        Some(value) => !R::names_nobody(value, kind),
        None => false,
    }
}

/// Whether a part of a kind may own its holder.
fn may_own<R: Rules>(world: &World<R::Value>, kind: &str) -> bool
    ensures owning { result ≡ true → R.columns.owning kind.now ≡ true }
    ensures none { result ≡ false → R.columns.owning kind.now ≡ true → (index : ℕ) → named_in
        (column_of (kinds_by R.Rules R.Value.SceneValue) (seen_of world.now) kind.now index) ≡ [] }
{
    if !R::owning(kind) {
        return false;
    }
    may_refer::<R>(world, kind)
}

/// Those of some kinds whose parts may own their holder: whoever hangs on another by one of the kinds does so by one of
/// these.
///
/// Errors: want of memory.
pub(crate) fn owning_among<R: Rules>(
    world: &World<R::Value>,
    names: &[&'static str],
    alloc: Global,
) -> Result<Vec<&'static str>, AllocError>
    ensures { IfOk result (λ kinds. PairAlike (kinds_by R.Rules R.Value.SceneValue) (seen_of world.now)
        (texts kinds.items) (filter R.columns.owning (texts names.now))) }
{
    let mut kinds = Vec::new(alloc);
    for kind in names {
        if may_own::<R>(world, kind) {
            kinds.push(*kind)?;
        }
    }
    Ok(kinds)
}

/// Puts an entity with each that its part of a kind refers to behind other pairs. What the list held is forgotten.
///
/// Errors: want of memory.
fn pair_under<R: Rules>(
    world: &World<R::Value>,
    kind: &str,
    entity: Entity,
    named: &mut Vec<Entity>,
    pairs: &mut Vec<(Entity, Entity)>,
) -> Result<(), AllocError>
    ensures { OnOk result (pairs.new.items ≡ pairs.old.items
        ++ pairs_under (kinds_by R.Rules R.Value.SceneValue) (seen_of world.now) entity kind.now) }
{
    let Some(value) = world.get_raw(R::part_id(kind)) else {
        return Ok(());
    };
    named.clear();
    R::named_at(value, kind, entity.id(), named)?;
    for target in named.as_slice() {
        pairs.push((entity, *target))?;
    }
    Ok(())
}

/// So of its parts of some kinds.
///
/// Errors: want of memory.
fn pair_all<R: Rules>(
    world: &World<R::Value>,
    names: &[&'static str],
    entity: Entity,
    named: &mut Vec<Entity>,
    pairs: &mut Vec<(Entity, Entity)>,
) -> Result<(), AllocError>
    ensures { OnOk result (pairs.new.items ≡ pairs.old.items
        ++ pairs_of (kinds_by R.Rules R.Value.SceneValue) (seen_of world.now) (texts names.now) entity) }
{
    for kind in names {
        pair_under::<R>(world, kind, entity, named, pairs)?;
    }
    Ok(())
}

/// Each of some entities with each that its parts of some kinds refer to.
///
/// Errors: want of memory.
fn pairs_among<R: Rules>(
    world: &World<R::Value>,
    names: &[&'static str],
    entities: &[Entity],
    alloc: Global,
) -> Result<Vec<(Entity, Entity)>, AllocError>
    ensures { IfOk result (λ pairs. pairs.items ≡ pairs_among (kinds_by R.Rules R.Value.SceneValue)
        (seen_of world.now) (texts names.now) entities.now) }
{
    let mut named = Vec::new(alloc);
    let mut pairs = Vec::new(alloc);
    for entity in entities {
        pair_all::<R>(world, names, *entity, &mut named, &mut pairs)?;
    }
    Ok(pairs)
}

/// Each entity that lives with each that its parts of some kinds refer to. It looks at the indices that the rules tell.
///
/// Errors: want of memory.
fn pairs_in<R: Rules>(
    world: &World<R::Value>,
    names: &[&'static str],
    alloc: Global,
) -> Result<Vec<(Entity, Entity)>, AllocError>
    ensures { IfOk result (λ pairs. ArePairs (kinds_by R.Rules R.Value.SceneValue) (seen_of world.now)
        (texts names.now) pairs.items) }
{
    let entities = holders_in::<R>(world, names, alloc)?;
    pairs_among::<R>(world, names, entities.as_slice(), alloc)
}

/// Notes the ids of a pair of entities, where both are marked.
///
/// Errors: want of memory.
fn note_pair<R: Rules>(
    world: &World<R::Value>,
    holders: &mut Holders,
    pair: (Entity, Entity),
) -> Result<(), AllocError>
    requires { IsChained (end_in holders.old.ends) holders.old.links.items }
    ensures grows { OnOk result (Grows holders.old holders.new) }
    ensures noted { OnOk result (IsNoted (kinds_by R.Rules R.Value.SceneValue) (seen_of world.now) holders.new
        pair) }
{
    let Some(holder) = id_marked::<R>(world, pair.0.id()) else {
        return Ok(());
    };
    let Some(target) = id_marked::<R>(world, pair.1.id()) else {
        return Ok(());
    };
    holders.push(holder, target)
}

/// So of each of some pairs.
///
/// Errors: want of memory.
fn note_pairs<R: Rules>(
    world: &World<R::Value>,
    holders: &mut Holders,
    pairs: &[(Entity, Entity)],
) -> Result<(), AllocError>
    requires { IsChained (end_in holders.old.ends) holders.old.links.items }
    ensures grows { OnOk result (Grows holders.old holders.new) }
    ensures noted { OnOk result
        (All (IsNoted (kinds_by R.Rules R.Value.SceneValue) (seen_of world.now) holders.new) pairs.now) }
{
    for pair in pairs {
        note_pair::<R>(world, holders, *pair)?;
    }
    Ok(())
}

/// Makes the index of holders, where it isn't made yet: by one walk over the parts of these kinds, where nobody hangs on
/// another but by these.
///
/// Errors: want of memory.
pub(crate) fn make_holders<R: Rules>(
    world: &World<R::Value>,
    names: &[&'static str],
    holders: &mut Holders,
    alloc: Global,
) -> Result<(), AllocError>
    requires may { MayAct (kinds_by R.Rules R.Value.SceneValue) world.now }
    requires alike { PairAlike (kinds_by R.Rules R.Value.SceneValue) (seen_of world.now) (texts names.now)
        (owning_in (kinds_by R.Rules R.Value.SceneValue)) }
    requires covers { Covers (kinds_by R.Rules R.Value.SceneValue) holders.old world.now }
    ensures covers { OnOk result (Covers (kinds_by R.Rules R.Value.SceneValue) holders.new world.now) }
    ensures made { OnOk result (holders.new.made ≡ true) }
{
    if holders.made {
        return Ok(());
    }
    let pairs = pairs_in::<R>(world, names, alloc)?;
    note_pairs::<R>(world, holders, pairs.as_slice())?;
    holders.made = true;
    Ok(())
}

/// The entities that fall with one, where each pair is of a holder and its target. Nobody dies yet.
///
/// Errors: want of memory, and where the entity isn't alive or the world has no entities.
fn fallen_with<R: Rules>(
    world: &mut World<R::Value>,
    entity: Entity,
    pairs: &[(Entity, Entity)],
) -> Result<Vec<Entity>, AllocError>
    ensures { IfOk result (λ entities. Falls (kinds_by R.Rules R.Value.SceneValue) entity pairs.now
        (seen_of world.old) (seen_of world.new) entities.items) }
{
    let place = <R::Value as SceneValue<R::Data>>::entities_id();
    let Some(entities) = entities_at::<R>(world, place) else {
        return Err(AllocError);
    };
    match entities.closure(&[entity], pairs) {
        Ok(fallen) => Ok(fallen),
        Err(_) => Err(AllocError),
    }
}

/// The ids with which entities are marked. Errors: want of memory, and where one isn't marked.
fn ids_of<R: Rules>(
    world: &World<R::Value>,
    entities: &[Entity],
    alloc: Global,
) -> Result<Vec<u64>, AllocError>
    ensures { IfOk result (λ ids. map (λ entity. (roll_of (kinds_by R.Rules R.Value.SceneValue)
        (seen_of world.now)).marker entity.id) entities.now ≡ map (λ id. Some id) ids.items) }
{
    let mut ids = Vec::new(alloc);
    for entity in entities {
        let Some(id) = id_marked::<R>(world, entity.id()) else {
            return Err(AllocError);
        };
        ids.push(id)?;
    }
    Ok(ids)
}

/// The ids that die with the one of an entity, ascending by index, where nobody hangs on another but by parts of these kinds.
/// Nobody dies yet.
///
/// It looks at the parts of these kinds of the entities that the index has for those that die. Errors: want of memory.
pub(crate) fn dying_with<R: Rules>(
    world: &mut World<R::Value>,
    names: &[&'static str],
    holders: &Holders,
    entity: Entity,
    alloc: Global,
) -> Result<Vec<u64>, AllocError>
    requires may { MayAct (kinds_by R.Rules R.Value.SceneValue) world.old }
    requires alike { PairAlike (kinds_by R.Rules R.Value.SceneValue) (seen_of world.old) (texts names.now)
        (owning_in (kinds_by R.Rules R.Value.SceneValue)) }
    requires made { holders.now.made ≡ true }
    requires covers { Covers (kinds_by R.Rules R.Value.SceneValue) holders.now world.old }
    requires alive { IsAlive (roll_of (kinds_by R.Rules R.Value.SceneValue) (seen_of world.old)).births entity }
    requires range { entity.id < 16777216 }
    ensures { IfOk result (λ ids. AreDying (kinds_by R.Rules R.Value.SceneValue) entity (seen_of world.old)
        (seen_of world.new) ids.items) }
{
    let reached = reached_from::<R>(world, names, holders, entity, alloc)?;
    let pairs = pairs_among::<R>(world, names, reached.entities.as_slice(), alloc)?;
    let entities = fallen_with::<R>(world, entity, pairs.as_slice())?;
    let ids = ids_of::<R>(world, entities.as_slice(), alloc)?;
    Ok(ids)
}
