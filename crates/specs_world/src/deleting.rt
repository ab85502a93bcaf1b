//! Entities of a world that die with their parts.
ghost use Rattle.std.specs.Prelude.{ℕ, ◌≡◌, ◌↔◌, None, Some, ◌⊎◌, IsOk, OnOk, OnErr, IfOk, IfErr, IsErrOf, false, true};
ghost use Rattle.std.specs.Option.{OnSome, MatchOption};
ghost use Rattle.std.specs.FinMap as map;
ghost use Rattle.std.specs.FinSet as set;
ghost use Rattle.shred_world.specs.ResourceIds.{id_of};
ghost use Rattle.shred_world.specs.Worlds.{resource_at, AreDistinct};
ghost use Rattle.specs_entity.specs.Births.{living, all_buried, all_deleted, all_living, merged, indices_of, is_named};
ghost use Rattle.specs_entity.specs.Births.{Continues, CanKill, LivesBut, RefusesKill};
ghost use Rattle.specs_entity.specs.Closures.{IsClosure, RefusesClosure};
ghost use Rattle.specs_entity.specs.declared.errors.Error.TheVariants as refusal;
ghost use Rattle.specs_layouts.specs.Drops.{ids_of};
ghost use Rattle.specs_world.specs.Resources.{held, place};
ghost use Rattle.specs_world.specs.Dropping.{Rests, StayOut, DropsIn, DropsComponents, Kills, RefusesDeath, RefusesIn};

use crate::dropping::{drop_in, make_room_in};
use crate::held::Held;
use crate::taking::{put_in, take_out};
use shred_world::{MetaTable, Resource, World};
use specs_entity::{EntitiesRes, Entity, Error};
use specs_layouts::AnyStorage;
use std::alloc::AllocError;

/// Lets entities die that are out of the world, with their parts in the storages of a list of kinds.
fn kill_with_parts<V: AnyStorage>(
    world: &mut World<V>,
    births: &mut EntitiesRes,
    kinds: &[u32],
    entities: &[Entity],
) -> Result<(), Error>
    requires once { AreDistinct kinds.now }
    ensures births { OnOk result (births.new ≡ all_buried births.old (indices_of entities.now)) }
    ensures continues { OnOk result (Continues births.old births.new) }
    ensures killable { OnOk result (CanKill (living births.old) entities.now) }
    ensures lives { OnOk result (LivesBut (is_named entities.now) births.old births.new) }
    ensures parts { OnOk result (DropsIn V.drops kinds.now (ids_of entities.now) world.old world.new) }
    ensures refused { IfErr result (RefusesDeath births.old entities.now) }
    ensures same { OnErr result (births.new ≡ births.old) }
    ensures rests { OnErr result (Rests V.drops world.old world.new) }
    ensures outs { StayOut world.old world.new }
{
    births.test_kill(entities)?;
    make_room_in(world, kinds, entities.len())?;
    births.bury_each(entities);
    drop_in(world, kinds, entities);
    Ok(())
}

/// Lets entities die that are out of the world, with their parts in each registered storage.
pub(crate) fn kill_registered<V: AnyStorage + Drop>(
    world: &mut World<V>,
    births: &mut EntitiesRes,
    entities: &[Entity],
) -> Result<(), Error>
where
    MetaTable: Resource<V>,
    ensures ok { OnOk result (Kills
        ⟦<MetaTable as Held<V>>⟧.stands_at
        V.drops entities.now births.old births.new world.old world.new) }
    ensures rests { OnErr result (Rests V.drops world.old world.new) }
    ensures same { OnErr result (births.new ≡ births.old) }
    ensures refused { IfErr result (RefusesIn (Some births.old)
        (held ⟦<MetaTable as Held<V>>⟧.stands_at world.old) false (λ b. RefusesDeath b entities.now)) }
    ensures outs { StayOut world.old world.new }
{
    let Some(table) = take_out::<V, MetaTable>(world) else {
        return Err(Error::NotRegistered);
    };
    let result = kill_with_parts(world, births, table.iter_mut().kinds, entities);
    put_in(world, table);
    result
}

/// Drops the parts at the indices of entities from the storages of a list of kinds.
fn drop_with_room<V: AnyStorage>(
    world: &mut World<V>,
    kinds: &[u32],
    entities: &[Entity],
) -> Result<(), AllocError>
    requires once { AreDistinct kinds.now }
    ensures parts { OnOk result (DropsIn V.drops kinds.now (ids_of entities.now) world.old world.new) }
    ensures rests { OnErr result (Rests V.drops world.old world.new) }
    ensures outs { StayOut world.old world.new }
{
    make_room_in(world, kinds, entities.len())?;
    drop_in(world, kinds, entities);
    Ok(())
}

/// Drops the parts at the indices of entities from each registered storage.
pub(crate) fn drop_registered<V: AnyStorage + Drop>(
    world: &mut World<V>,
    entities: &[Entity],
) -> Result<(), Error>
where
    MetaTable: Resource<V>,
    ensures ok { OnOk result (DropsComponents
        ⟦<MetaTable as Held<V>>⟧.stands_at
        V.drops entities.now world.old world.new) }
    ensures rests { OnErr result (Rests V.drops world.old world.new) }
    ensures not_registered { IsErrOf result refusal.NotRegistered
        ↔ (held ⟦<MetaTable as Held<V>>⟧.stands_at world.old ≡ None) }
    ensures refused { IfErr result (λ error. (error ≡ refusal.NotRegistered) ⊎ (error ≡ refusal.Memory)) }
{
    let Some(table) = take_out::<V, MetaTable>(world) else {
        return Err(Error::NotRegistered);
    };
    let result = drop_with_room(world, table.iter_mut().kinds, entities);
    put_in(world, table);
    match result {
        Ok(()) => Ok(()),
        Err(_) => Err(Error::Memory),
    }
}

/// Merges entities that are out of the world, and drops the parts of those that die from the storages of a list of kinds.
fn merge_with_parts<V: AnyStorage>(
    world: &mut World<V>,
    births: &mut EntitiesRes,
    kinds: &[u32],
) -> Result<Vec<Entity>, AllocError>
    requires once { AreDistinct kinds.now }
    ensures births { OnOk result (births.new ≡ merged births.old) }
    ensures dead { IfOk result (λ deleted. deleted.items ≡ all_deleted births.old) }
    ensures named { IfOk result (λ deleted. (index : ℕ) → is_named deleted.items index
        ≡ set.contains births.old.deletions index) }
    ensures lives { OnOk result (LivesBut (set.contains births.old.deletions) births.old births.new) }
    ensures done { OnOk result (births.new.deletions ≡ set.empty) }
    ensures continues { OnOk result (Continues births.old births.new) }
    ensures parts { IfOk result (λ deleted. DropsIn V.drops kinds.now (ids_of deleted.items) world.old world.new) }
    ensures same { OnErr result (births.new ≡ births.old) }
    ensures rests { OnErr result (Rests V.drops world.old world.new) }
    ensures outs { StayOut world.old world.new }
{
    make_room_in(world, kinds, births.accepted())?;
    let deleted = births.merge()?;
    drop_in(world, kinds, &deleted);
    Ok(deleted)
}

/// Merges entities that are out of the world, and drops the parts of those that die from each registered storage.
pub(crate) fn merge_registered<V: AnyStorage + Drop>(
    world: &mut World<V>,
    births: &mut EntitiesRes,
) -> Result<Vec<Entity>, Error>
where
    MetaTable: Resource<V>,
    ensures births { OnOk result (births.new ≡ merged births.old) }
    ensures dead { IfOk result (λ deleted. deleted.items ≡ all_deleted births.old) }
    ensures named { IfOk result (λ deleted. (index : ℕ) → is_named deleted.items index
        ≡ set.contains births.old.deletions index) }
    ensures lives { OnOk result (LivesBut (set.contains births.old.deletions) births.old births.new) }
    ensures done { OnOk result (births.new.deletions ≡ set.empty) }
    ensures continues { OnOk result (Continues births.old births.new) }
    ensures parts { IfOk result (λ deleted. DropsComponents
        ⟦<MetaTable as Held<V>>⟧.stands_at
        V.drops deleted.items world.old world.new) }
    ensures same { OnErr result (births.new ≡ births.old) }
    ensures rests { OnErr result (Rests V.drops world.old world.new) }
    ensures refused { IfErr result (RefusesIn (Some births.old)
        (held ⟦<MetaTable as Held<V>>⟧.stands_at world.old) false (λ _ error. error ≡ refusal.Memory)) }
    ensures outs { StayOut world.old world.new }
{
    let Some(table) = take_out::<V, MetaTable>(world) else {
        return Err(Error::NotRegistered);
    };
    let result = merge_with_parts(world, births, table.iter_mut().kinds);
    put_in(world, table);
    match result {
        Ok(deleted) => Ok(deleted),
        Err(_) => Err(Error::Memory),
    }
}

/// Lets all entities die that are out of the world and live, with their parts in each registered storage.
pub(crate) fn kill_living<V: AnyStorage + Drop>(
    world: &mut World<V>,
    births: &mut EntitiesRes,
) -> Result<(), Error>
where
    MetaTable: Resource<V>,
    ensures ok { OnOk result (Kills
        ⟦<MetaTable as Held<V>>⟧.stands_at
        V.drops (all_living births.old) births.old births.new world.old world.new) }
    ensures rests { OnErr result (Rests V.drops world.old world.new) }
    ensures same { OnErr result (births.new ≡ births.old) }
    ensures refused { IfErr result (RefusesIn (Some births.old)
        (held ⟦<MetaTable as Held<V>>⟧.stands_at world.old) false (λ _ error. error ≡ refusal.Memory)) }
    ensures outs { StayOut world.old world.new }
{
    if world.try_fetch::<MetaTable>().is_none() {
        return Err(Error::NotRegistered);
    }
    let entities = births.living_entities()?;
    match kill_registered(world, births, &entities) {
        Ok(()) => Ok(()),
        Err(error) => Err(error),
    }
}

/// Lets the entities die that are out of the world and fall with some roots, with their parts in each registered storage,
/// and answers them, ascending by index.
pub(crate) fn close_registered<V: AnyStorage + Drop>(
    world: &mut World<V>,
    births: &mut EntitiesRes,
    roots: &[Entity],
    pairs: &[(Entity, Entity)],
) -> Result<Vec<Entity>, Error>
where
    MetaTable: Resource<V>,
    ensures closure { IfOk result (λ entities. IsClosure births.old roots.now pairs.now entities.items) }
    ensures ok { IfOk result (λ entities. Kills
        ⟦<MetaTable as Held<V>>⟧.stands_at
        V.drops entities.items births.old births.new world.old world.new) }
    ensures rests { OnErr result (Rests V.drops world.old world.new) }
    ensures same { OnErr result (births.new ≡ births.old) }
    ensures refused { IfErr result (RefusesIn (Some births.old)
        (held ⟦<MetaTable as Held<V>>⟧.stands_at world.old) false (λ b. RefusesClosure b roots.now)) }
    ensures outs { StayOut world.old world.new }
{
    let Some(_) = world.try_fetch::<MetaTable>() else {
        return Err(Error::NotRegistered);
    };
    let entities = births.closure(roots, pairs)?;
    match kill_registered(world, births, &entities) {
        Ok(()) => Ok(entities),
        Err(error) => Err(error),
    }
}
