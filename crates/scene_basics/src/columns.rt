//! The parts of the five kinds in the values of a world.
ghost use Rattle.std.specs.Prelude.{◌≡◌, ◌<◌, ◌++◌, [], length, map, None, IfOk, OnOk, OnErr, option_map};
ghost use Rattle.specs_layouts.specs.Masked.{Agrees};
ghost use Rattle.specs_layouts.specs.Shows.{Shows};
ghost use Rattle.scene_world.specs.Telling.{GainsReader, CatchesUp, TakesTold, TakesSome};
ghost use Rattle.scene_world.specs.Putting.{named_in, part_read, each_there, PutsIn, TakesOut, SameColumn, Registers};
ghost use Rattle.scene_basics.specs.declared.data.Datum.TheVariants.{Whole as DatumWhole};
ghost use Rattle.scene_basics.specs.Values.{whole_at};
ghost use Rattle.scene_basics.specs.Numbers.{counting, referring, part_of};
ghost use Rattle.scene_basics.specs.Columns.{part_id, number_column, owner_column, basic_columns};
ghost use Rattle.scene_basics.specs.Columns.{number_events, number_emits, owner_events, owner_emits};
ghost use Rattle.scene_basics.specs.Registering.{HasNumbers, HasOwners};

use crate::data::{BOND, Datum, HP, OWNER, POS, VEL};
use crate::values::{Owner, Value, Whole};
use hibitset::BitSet;
use scene_world::{AnyStore, Store, catch_up_reader, gain_reader, scene_storage, told_indices};
use shred_world::{ResourceId, World};
use specs_entity::Entity;
use specs_layouts::{MaskedStorage, ReaderId, UnprotectedStorage};
use std::alloc::{AllocError, Global};

/// Where the parts of a kind stand.
pub(crate) fn part_id(kind: &str) -> ResourceId
    ensures { result ≡ part_id kind.now }
{
    if kind == OWNER {
        return ResourceId::from_type_id(4);
    }
    if kind == HP {
        return ResourceId::from_type_id(5);
    }
    if kind == POS {
        return ResourceId::from_type_id(6);
    }
    if kind == BOND {
        return ResourceId::from_type_id(9);
    }
    ResourceId::from_type_id(7)
}

/// Puts empty numbers of a kind into a world. Errors: want of memory.
fn register_numbers(
    world: &mut World<Value>,
    kind: &str,
    store: Store,
    alloc: Global,
) -> Result<(), AllocError>
    ensures { OnOk result (HasNumbers (part_id kind.now) world.old world.new) }
{
    let numbers: MaskedStorage<Whole> = MaskedStorage::new(alloc, scene_storage(alloc, store));
    match world.insert_raw(part_id(kind), Value::NumbersValue(numbers)) {
        Ok(_) => Ok(()),
        Err(_) => Err(AllocError),
    }
}

/// Puts owners of a kind, of which there is none, into a world. Errors: want of memory.
fn register_owners(
    world: &mut World<Value>,
    kind: &str,
    store: Store,
    alloc: Global,
) -> Result<(), AllocError>
    ensures { OnOk result (HasOwners (part_id kind.now) world.old world.new) }
{
    let owners: MaskedStorage<Owner> = MaskedStorage::new(alloc, scene_storage(alloc, store));
    match world.insert_raw(part_id(kind), Value::OwnersValue(owners)) {
        Ok(_) => Ok(()),
        Err(_) => Err(AllocError),
    }
}

/// Puts an empty storage of each kind into a world. Errors: want of memory.
pub(crate) fn register_all(
    world: &mut World<Value>,
    store: Store,
    alloc: Global,
) -> Result<(), AllocError>
    ensures { OnOk result (Registers basic_columns world.old world.new) }
{
    register_owners(world, BOND, store, alloc)?;
    register_numbers(world, HP, store, alloc)?;
    register_owners(world, OWNER, store, alloc)?;
    register_numbers(world, POS, store, alloc)?;
    register_numbers(world, VEL, store, alloc)
}

/// Puts a number in. Errors: want of memory, and where the value has no numbers.
pub(crate) fn put_number(value: &mut Value, index: u32, number: i64) -> Result<(), AllocError>
    requires { index < 16777216 }
    ensures ok { OnOk result (PutsIn number_column index (counting number) [] value.old value.new) }
    ensures err { OnErr result (SameColumn number_column value.old value.new) }
    ensures shown { Shows number_column number_events number_emits value.old value.new }
{
    let Value::NumbersValue(numbers) = value else {
        return Err(AllocError);
    };
    match numbers.insert(index, Whole(number)) {
        Ok(_) => Ok(()),
        Err(_) => Err(AllocError),
    }
}

/// Puts in that an entity owns another. Errors: want of memory, and where the value has no owners or no entity is named.
pub(crate) fn put_owner(
    value: &mut Value,
    index: u32,
    id: u64,
    named: &[Entity],
) -> Result<(), AllocError>
    requires within { index < 16777216 }
    requires as_many { length named.now ≡ 1 }
    ensures ok { OnOk result (PutsIn owner_column index (referring id) named.now value.old value.new) }
    ensures err { OnErr result (SameColumn owner_column value.old value.new) }
    ensures shown { Shows owner_column owner_events owner_emits value.old value.new }
{
    let Value::OwnersValue(owners) = value else {
        return Err(AllocError);
    };
    let Some(entity) = named.first() else {
        return Err(AllocError);
    };
    match owners.insert(index, Owner(*entity)) {
        Ok(_) => Ok(()),
        Err(_) => Err(AllocError),
    }
}

/// Takes a number out. Errors: want of memory.
pub(crate) fn take_number(value: &mut Value, index: u32) -> Result<(), AllocError>
    ensures ok { OnOk result (TakesOut number_column index value.old value.new) }
    ensures err { OnErr result (SameColumn number_column value.old value.new) }
    ensures shown { Shows number_column number_events number_emits value.old value.new }
{
    let Value::NumbersValue(numbers) = value else {
        return Ok(());
    };
    match numbers.drop(index) {
        Ok(()) => Ok(()),
        Err(_) => Err(AllocError),
    }
}

/// Takes an owner out. Errors: want of memory.
pub(crate) fn take_owner(value: &mut Value, index: u32) -> Result<(), AllocError>
    ensures ok { OnOk result (TakesOut owner_column index value.old value.new) }
    ensures err { OnErr result (SameColumn owner_column value.old value.new) }
    ensures shown { Shows owner_column owner_events owner_emits value.old value.new }
{
    let Value::OwnersValue(owners) = value else {
        return Ok(());
    };
    match owners.drop(index) {
        Ok(()) => Ok(()),
        Err(_) => Err(AllocError),
    }
}

/// Puts the owner at an index, if there is one, behind others. Errors: want of memory.
pub(crate) fn push_owner(
    value: &Value,
    index: u32,
    named: &mut Vec<Entity>,
) -> Result<(), AllocError>
    ensures { OnOk result (named.new.items ≡ named.old.items ++ named_in (owner_column value.now index)) }
{
    let Value::OwnersValue(owners) = value else {
        return Ok(());
    };
    if owners.contains(index) {
        named.push(owners.get(index).0)?;
    }
    Ok(())
}

/// The owner at an index, if there is one, by its id.
pub(crate) fn owner_datum(value: &Value, index: u32, ids: &[u64]) -> Option<Datum>
    requires { length ids.now ≡ length (named_in (owner_column value.now index)) }
    ensures { option_map part_of result ≡ option_map (part_read ids.now) (owner_column value.now index) }
{
    let Value::OwnersValue(owners) = value else {
        return None;
    };
    if owners.contains(index) {
        Some(Datum::Owner(ids[0]))
    } else {
        None
    }
}

/// The number at an index, if there is one.
fn number_at(numbers: &MaskedStorage<Whole>, index: u32) -> Option<Datum>
    ensures { result ≡ option_map (λ whole. DatumWhole whole.0) (whole_at numbers.now index) }
{
    if numbers.contains(index) {
        Some(Datum::Whole(numbers.get(index).0))
    } else {
        None
    }
}

/// The number of a layout at an index, if there is one. The indices with a number are those of `mask`.
fn number_in<L: UnprotectedStorage<Whole>>(mask: &BitSet, layout: &L, index: u32) -> Option<Datum>
    requires { Agrees mask.now (L.part_at layout.now) }
    ensures { result ≡ option_map (λ whole. DatumWhole whole.0) (L.part_at layout.now index) }
{
    if mask.contains(index) {
        Some(Datum::Whole(layout.get(index).0))
    } else {
        None
    }
}

/// The numbers of a layout at the indices of these entities, each behind the id behind which its entity stands. The indices
/// with a number are those of `mask`. Errors: want of memory.
fn numbers_in<L: UnprotectedStorage<Whole>>(
    mask: &BitSet,
    layout: &L,
    entities: &[(u64, u32)],
    alloc: Global,
) -> Result<Vec<(u64, Option<Datum>)>, AllocError>
    requires { Agrees mask.now (L.part_at layout.now) }
    ensures { IfOk result (λ found. each_there (λ datum. datum) found.items
        ≡ each_there (λ index. option_map (λ whole. DatumWhole whole.0) (L.part_at layout.now index)) entities.now) }
{
    let mut found = Vec::with_capacity(alloc, entities.len())?;
    for entity in entities {
        if let Some(datum) = number_in(mask, layout, entity.1) {
            found.push((entity.0, Some(datum)))?;
        }
    }
    Ok(found)
}

/// The number at an index, if there is one.
pub(crate) fn number_datum(value: &Value, index: u32, ids: &[u64]) -> Option<Datum>
    requires { length ids.now ≡ length (named_in (number_column value.now index)) }
    ensures { option_map part_of result ≡ option_map (part_read ids.now) (number_column value.now index) }
{
    let Value::NumbersValue(numbers) = value else {
        return None;
    };
    number_at(numbers, index)
}

/// The numbers at the indices of these entities, each behind the id behind which its entity stands. Errors: want of memory.
pub(crate) fn numbers_each(
    numbers: &MaskedStorage<Whole>,
    entities: &[(u64, u32)],
    alloc: Global,
) -> Result<Vec<(u64, Option<Datum>)>, AllocError>
    ensures { IfOk result (λ found. each_there (λ datum. datum) found.items
        ≡ each_there (λ index. option_map (λ whole. DatumWhole whole.0) (whole_at numbers.now index)) entities.now) }
{
    let mask = numbers.mask();
    match numbers.inner().inner() {
        AnyStore::Vec(layout) => numbers_in(mask, layout, entities, alloc),
        AnyStore::Dense(layout) => numbers_in(mask, layout, entities, alloc),
        AnyStore::Hash(layout) => numbers_in(mask, layout, entities, alloc),
        AnyStore::BTree(layout) => numbers_in(mask, layout, entities, alloc),
    }
}

/// Registers a reader of the events of numbers and turns emission on.
///
/// Errors: want of memory, and where the value has no numbers; all is as it was.
pub(crate) fn number_reader(value: &mut Value) -> Result<ReaderId, AllocError>
    ensures ok { IfOk result
        (λ reader. GainsReader number_column number_events number_emits reader value.old value.new) }
    ensures err { OnErr result (value.new ≡ value.old) }
{
    let Value::NumbersValue(numbers) = value else {
        return Err(AllocError);
    };
    match gain_reader(numbers) {
        Ok(reader) => Ok(reader),
        Err(_) => Err(AllocError),
    }
}

/// Puts the indices of which a reader of the events of numbers has yet to read events into a set.
///
/// Errors: want of memory; some of the indices are in.
pub(crate) fn told_numbers(
    value: &Value,
    reader: &ReaderId,
    into: &mut BitSet,
) -> Result<(), AllocError>
    ensures ok { OnOk result (TakesTold (number_events value.now) reader.now into.old into.new) }
    ensures err { OnErr result (TakesSome (number_events value.now) reader.now into.old into.new) }
{
    let Value::NumbersValue(numbers) = value else {
        return Ok(());
    };
    match told_indices(numbers, reader, into) {
        Ok(()) => Ok(()),
        Err(_) => Err(AllocError),
    }
}

/// A reader of the events of numbers has read all of them.
pub(crate) fn catch_up_numbers(value: &mut Value, reader: &ReaderId)
    ensures { CatchesUp number_column number_events number_emits reader.now value.old value.new }
{
    let Value::NumbersValue(numbers) = value else {
        return;
    };
    catch_up_reader(numbers, reader);
}

/// Registers a reader of the events of owners and turns emission on.
///
/// Errors: want of memory, and where the value has no owners; all is as it was.
pub(crate) fn owner_reader(value: &mut Value) -> Result<ReaderId, AllocError>
    ensures ok { IfOk result
        (λ reader. GainsReader owner_column owner_events owner_emits reader value.old value.new) }
    ensures err { OnErr result (value.new ≡ value.old) }
{
    let Value::OwnersValue(owners) = value else {
        return Err(AllocError);
    };
    match gain_reader(owners) {
        Ok(reader) => Ok(reader),
        Err(_) => Err(AllocError),
    }
}

/// Puts the indices of which a reader of the events of owners has yet to read events into a set.
///
/// Errors: want of memory; some of the indices are in.
pub(crate) fn told_owners(
    value: &Value,
    reader: &ReaderId,
    into: &mut BitSet,
) -> Result<(), AllocError>
    ensures ok { OnOk result (TakesTold (owner_events value.now) reader.now into.old into.new) }
    ensures err { OnErr result (TakesSome (owner_events value.now) reader.now into.old into.new) }
{
    let Value::OwnersValue(owners) = value else {
        return Ok(());
    };
    match told_indices(owners, reader, into) {
        Ok(()) => Ok(()),
        Err(_) => Err(AllocError),
    }
}

/// A reader of the events of owners has read all of them.
pub(crate) fn catch_up_owners(value: &mut Value, reader: &ReaderId)
    ensures { CatchesUp owner_column owner_events owner_emits reader.now value.old value.new }
{
    let Value::OwnersValue(owners) = value else {
        return;
    };
    catch_up_reader(owners, reader);
}
