//! The parts of the two kinds in the values of a world.
ghost use Rattle.std.specs.Prelude.{◌≡◌, ◌<◌, ◌++◌, [], ◌∷◌, length, IfOk, OnOk, OnErr, option_map};
ghost use Rattle.specs_layouts.specs.Shows.{Shows};
ghost use Rattle.scene_world.specs.Telling.{GainsReader, CatchesUp, TakesTold, TakesSome};
ghost use Rattle.scene_world.specs.Putting.{named_in, part_read, PutsIn, TakesOut, SameColumn, Registers};
ghost use Rattle.scene_cases.specs.Owning.{owned_by, ranked, part_of, owning_columns, owner_column, rank_column};
ghost use Rattle.scene_cases.specs.Owning.{owner_events, owner_emits, rank_events, rank_emits};

use crate::commands::datum::Datum;
use crate::commands::values::{Owner, Rank, Value};
use hibitset_sets::BitSet;
use scene_world::{Store, catch_up_reader, gain_reader, scene_storage, told_indices};
use shred_world::World;
use specs_entity::Entity;
use specs_layouts::{MaskedStorage, ReaderId};
use std::alloc::{AllocError, Global};

/// Puts an empty storage of each kind into a world. Errors: want of memory.
pub(crate) fn register_both(
    world: &mut World<Value>,
    store: Store,
    alloc: Global,
) -> Result<(), AllocError>
    ensures { OnOk result (Registers owning_columns world.old world.new) }
{
    let owners: MaskedStorage<Owner> = MaskedStorage::new(alloc, scene_storage(alloc, store));
    let ranks: MaskedStorage<Rank> = MaskedStorage::new(alloc, scene_storage(alloc, store));
    let Ok(()) = world.insert(owners) else {
        return Err(AllocError);
    };
    match world.insert(ranks) {
        Ok(()) => Ok(()),
        Err(_) => Err(AllocError),
    }
}

/// Puts in that an entity belongs to another. Errors: want of memory, and where the value has no owners or no entity is
/// named.
pub(crate) fn put_owner(
    value: &mut Value,
    index: u32,
    id: u64,
    named: &[Entity],
) -> Result<(), AllocError>
    requires within { index < 16777216 }
    requires as_many { length named.now ≡ 1 }
    ensures ok { OnOk result (PutsIn owner_column index (owned_by id) named.now value.old value.new) }
    ensures err { OnErr result (SameColumn owner_column value.old value.new) }
    ensures shown { Shows owner_column owner_events owner_emits value.old value.new }
{
    let Value::OwnerValue(owners) = value else {
        return Err(AllocError);
    };
    let Some(entity) = named.first() else {
        return Err(AllocError);
    };
    match owners.insert(index, Owner(*entity)) {
        Ok(_) => Ok(()),
        Err(_) => Err(AllocError),
    }
}

/// Puts a rank in. Errors: want of memory, and where the value has no ranks.
pub(crate) fn put_rank(value: &mut Value, index: u32, number: u64) -> Result<(), AllocError>
    requires { index < 16777216 }
    ensures ok { OnOk result (PutsIn rank_column index (ranked number) [] value.old value.new) }
    ensures err { OnErr result (SameColumn rank_column value.old value.new) }
    ensures shown { Shows rank_column rank_events rank_emits value.old value.new }
{
    let Value::RankValue(ranks) = value else {
        return Err(AllocError);
    };
    match ranks.insert(index, Rank(number)) {
        Ok(_) => Ok(()),
        Err(_) => Err(AllocError),
    }
}

/// Takes an owner out. Errors: want of memory.
pub(crate) fn take_owner(value: &mut Value, index: u32) -> Result<(), AllocError>
    ensures ok { OnOk result (TakesOut owner_column index value.old value.new) }
    ensures err { OnErr result (SameColumn owner_column value.old value.new) }
    ensures shown { Shows owner_column owner_events owner_emits value.old value.new }
{
    let Value::OwnerValue(owners) = value else {
        return Ok(());
    };
    match owners.drop(index) {
        Ok(()) => Ok(()),
        Err(_) => Err(AllocError),
    }
}

/// Takes a rank out. Errors: want of memory.
pub(crate) fn take_rank(value: &mut Value, index: u32) -> Result<(), AllocError>
    ensures ok { OnOk result (TakesOut rank_column index value.old value.new) }
    ensures err { OnErr result (SameColumn rank_column value.old value.new) }
    ensures shown { Shows rank_column rank_events rank_emits value.old value.new }
{
    let Value::RankValue(ranks) = value else {
        return Ok(());
    };
    match ranks.drop(index) {
        Ok(()) => Ok(()),
        Err(_) => Err(AllocError),
    }
}

/// Puts the owner at an index, if there is one, behind others. Errors: want of memory.
pub(crate) fn push_owner(
    value: &Value,
    index: u32,
    named: &mut Vec<Entity>,
) -> Result<(), AllocError>
    ensures { OnOk result (named.new.items ≡ named.old.items ++ named_in (owner_column value.now index)) }
{
    let Value::OwnerValue(owners) = value else {
        return Ok(());
    };
    if owners.contains(index) {
        named.push(owners.get(index).0)?;
    }
    Ok(())
}

/// The owner at an index, if there is one, by its id.
pub(crate) fn owner_datum(value: &Value, index: u32, ids: &[u64]) -> Option<Datum>
    requires { length ids.now ≡ length (named_in (owner_column value.now index)) }
    ensures { option_map part_of result ≡ option_map (part_read ids.now) (owner_column value.now index) }
{
    let Value::OwnerValue(owners) = value else {
        return None;
    };
    if owners.contains(index) {
        Some(Datum::OwnedBy(ids[0]))
    } else {
        None
    }
}

/// The rank at an index, if there is one.
pub(crate) fn rank_datum(value: &Value, index: u32, ids: &[u64]) -> Option<Datum>
    requires { length ids.now ≡ length (named_in (rank_column value.now index)) }
    ensures { option_map part_of result ≡ option_map (part_read ids.now) (rank_column value.now index) }
{
    let Value::RankValue(ranks) = value else {
        return None;
    };
    if ranks.contains(index) {
        Some(Datum::Ranked(ranks.get(index).0))
    } else {
        None
    }
}

/// Registers a reader of the events of owners and turns emission on.
///
/// Errors: want of memory, and where the value has no owners; all is as it was.
pub(crate) fn owner_reader(value: &mut Value) -> Result<ReaderId, AllocError>
    ensures ok { IfOk result
        (λ reader. GainsReader owner_column owner_events owner_emits reader value.old value.new) }
    ensures err { OnErr result (value.new ≡ value.old) }
{
    let Value::OwnerValue(owners) = value else {
        return Err(AllocError);
    };
    match gain_reader(owners) {
        Ok(reader) => Ok(reader),
        Err(_) => Err(AllocError),
    }
}

/// Puts the indices of which a reader of the events of owners has yet to read events into a set.
///
/// Errors: want of memory; some of the indices are in.
pub(crate) fn told_owners(
    value: &Value,
    reader: &ReaderId,
    into: &mut BitSet,
) -> Result<(), AllocError>
    ensures ok { OnOk result (TakesTold (owner_events value.now) reader.now into.old into.new) }
    ensures err { OnErr result (TakesSome (owner_events value.now) reader.now into.old into.new) }
{
    let Value::OwnerValue(owners) = value else {
        return Ok(());
    };
    match told_indices(owners, reader, into) {
        Ok(()) => Ok(()),
        Err(_) => Err(AllocError),
    }
}

/// A reader of the events of owners has read all of them.
pub(crate) fn catch_up_owners(value: &mut Value, reader: &ReaderId)
    ensures { CatchesUp owner_column owner_events owner_emits reader.now value.old value.new }
{
    let Value::OwnerValue(owners) = value else {
        return;
    };
    catch_up_reader(owners, reader);
}

/// Registers a reader of the events of ranks and turns emission on.
///
/// Errors: want of memory, and where the value has no ranks; all is as it was.
pub(crate) fn rank_reader(value: &mut Value) -> Result<ReaderId, AllocError>
    ensures ok { IfOk result
        (λ reader. GainsReader rank_column rank_events rank_emits reader value.old value.new) }
    ensures err { OnErr result (value.new ≡ value.old) }
{
    let Value::RankValue(ranks) = value else {
        return Err(AllocError);
    };
    match gain_reader(ranks) {
        Ok(reader) => Ok(reader),
        Err(_) => Err(AllocError),
    }
}

/// Puts the indices of which a reader of the events of ranks has yet to read events into a set.
///
/// Errors: want of memory; some of the indices are in.
pub(crate) fn told_ranks(
    value: &Value,
    reader: &ReaderId,
    into: &mut BitSet,
) -> Result<(), AllocError>
    ensures ok { OnOk result (TakesTold (rank_events value.now) reader.now into.old into.new) }
    ensures err { OnErr result (TakesSome (rank_events value.now) reader.now into.old into.new) }
{
    let Value::RankValue(ranks) = value else {
        return Ok(());
    };
    match told_indices(ranks, reader, into) {
        Ok(()) => Ok(()),
        Err(_) => Err(AllocError),
    }
}

/// A reader of the events of ranks has read all of them.
pub(crate) fn catch_up_ranks(value: &mut Value, reader: &ReaderId)
    ensures { CatchesUp rank_column rank_events rank_emits reader.now value.old value.new }
{
    let Value::RankValue(ranks) = value else {
        return;
    };
    catch_up_reader(ranks, reader);
}
