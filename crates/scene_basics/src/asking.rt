//! The systems in a world that ask for deaths or births.
ghost use Rattle.std.specs.Prelude.{◌≡◌, option_copied, ◌==◌, ◌++◌, ℕ, true, OnOk, IfOk, IfErr, MatchResult, []};
ghost use Rattle.std.specs.Prelude.{option_map};
ghost use Rattle.std.specs.List.{filter_map, list_any};
ghost use Rattle.std.specs.Option.{option_to_list};
ghost use Rattle.specs_layouts.specs.Masked.{Agrees};
ghost use Rattle.scene_model.specs.Rulebook.{leaves};
ghost use Rattle.scene_model.specs.Queues.{waiting, plain_command, plain_commands};
ghost use Rattle.scene_basics.specs.Names.{hp_kind, pos_kind};
ghost use Rattle.scene_basics.specs.Numbers.{counting, part_of};
ghost use Rattle.scene_basics.specs.Asks.{death_by, birth_by, asks, asked_for, asked_of, Asking, IsNotAsked};
ghost use Rattle.scene_basics.specs.Values.{numbers_in};
ghost use Rattle.scene_basics.specs.Asked.{number_seen, number_under, asks_where, asks_at, lent_for, StopsAsking};

use crate::columns::part_id;
use crate::data::{Ask, Datum, HP, POS};
use crate::values::{Value, Whole};
use hibitset::{BitSet, BitSetLike};
use scene_model::{Command, Queue};
use scene_world::known::{ids_in_order, index_under};
use scene_world::{AnyStore, stop_for};
use shred_stages::Stop;
use shred_world::Holder;
use specs_layouts::{MaskedStorage, UnprotectedStorage};
use std::alloc::{AllocError, Global};

/// The number at an index under a kind.
fn number_at<W: Holder<Value>>(view: &W, kind: &str, index: u32) -> Option<i64>
    ensures { result ≡ number_seen (W.slots view.now) kind.now index }
{
    match view.value(part_id(kind)) {
        Some(Value::NumbersValue(numbers)) if numbers.contains(index) => {
            Some(numbers.get(index).0)
        }
        _ => None,
    }
}

/// The number of an id under a kind.
fn number_of<W: Holder<Value>>(view: &W, kind: &str, id: u64) -> Option<i64>
    ensures { result ≡ number_under (W.slots view.now) kind.now id }
{
    let index = index_under::<Value, Datum, W>(view, id)?;
    number_at(view, kind, index)
}

/// The death of an entity, where its hp is at most 0.
fn death_of<W: Holder<Value>>(view: &W, id: u64) -> Option<Command<Datum>>
    ensures { option_map (plain_command part_of) result
        ≡ death_by id (number_under (W.slots view.now) hp_kind id) }
{
    let hp = number_of(view, HP, id)?;
    if hp <= 0 {
        Some(Command::Kill(id))
    } else {
        None
    }
}

/// The birth by an entity at its pos, where its hp is at least 10.
///
/// Errors: for want of memory.
fn birth_of<W: Holder<Value>>(
    alloc: Global,
    view: &W,
    id: u64,
) -> Result<Option<Command<Datum>>, AllocError>
    ensures { IfOk result (λ one. option_map (plain_command part_of) one
        ≡ birth_by (number_under (W.slots view.now) hp_kind id)
        (option_map counting (number_under (W.slots view.now) pos_kind id))) }
{
    let Some(hp) = number_of(view, HP, id) else {
        return Ok(None);
    };
    if hp < 10 {
        return Ok(None);
    }
    let Some(place) = number_of(view, POS, id) else {
        return Ok(None);
    };
    Ok(Some(Command::Spawn(vec![in alloc; (HP, Datum::Whole(1)), (POS, Datum::Whole(place))]?)))
}

/// The command that is asked for an entity, if one is.
///
/// Errors: for want of memory.
fn command_of<W: Holder<Value>>(
    alloc: Global,
    view: &W,
    ask: Ask,
    id: u64,
) -> Result<Option<Command<Datum>>, AllocError>
    ensures { IfOk result (λ command. option_map (plain_command part_of) command
        ≡ asked_for ask (lent_for ask (W.slots view.now)) id) }
{
    match ask {
        Ask::Deaths => Ok(death_of(view, id)),
        Ask::Births => birth_of(alloc, view, id),
    }
}

/// Puts a command into a queue, if there is one.
///
/// Errors: `Full`, `Memory`; the queue is then as it was.
fn ask_for(queue: &mut Queue<Datum>, command: Option<Command<Datum>>) -> Result<(), Stop>
    ensures ok { OnOk result (plain_commands part_of (waiting queue.new)
        ≡ plain_commands part_of (waiting queue.old) ++ option_to_list (option_map (plain_command part_of) command)) }
    ensures err { IfErr result
        (IsNotAsked (option_map (plain_command part_of) command) (plain_commands part_of (waiting queue.old))
        (plain_commands part_of (waiting queue.new))) }
{
    match command {
        None => Ok(()),
        Some(command) => match queue.push(command) {
            Ok(()) => Ok(()),
            Err(refused) => Err(stop_for(refused)),
        },
    }
}

/// Whether something may be asked for an entity of this hp.
fn may_ask(ask: Ask, hp: &Whole) -> bool
    ensures { result ≡ asks ask hp.now.0 }
{
    match ask {
        Ask::Deaths => hp.0 <= 0,
        Ask::Births => 10 <= hp.0,
    }
}

/// The indices of a layout at which something may be asked, where those with a number are those of a mask. Errors: want of
/// memory.
fn indices_in<L: UnprotectedStorage<Whole>>(
    alloc: Global,
    mask: &BitSet,
    layout: &L,
    ask: Ask,
) -> Result<Vec<u32>, AllocError>
    requires { Agrees mask.now (L.part_at layout.now) }
    ensures { IfOk result (λ indices. (index : ℕ) → asks_where ask (L.part_at layout.now) index ≡ true
        → list_any (λ other. index == other) indices.items ≡ true) }
{
    let _words = mask.layer0_as_slice();
    let mut indices = Vec::new(alloc);
    for index in mask.iter() {
        if may_ask(ask, layout.get(index)) {
            indices.push(index)?;
        }
    }
    Ok(indices)
}

/// The indices at which something may be asked. Errors: want of memory.
fn indices_asking(
    alloc: Global,
    numbers: &MaskedStorage<Whole>,
    ask: Ask,
) -> Result<Vec<u32>, AllocError>
    ensures { IfOk result (λ indices. (index : ℕ) → asks_at ask numbers.now index ≡ true
        → list_any (λ other. index == other) indices.items ≡ true) }
{
    let mask = numbers.mask();
    match numbers.inner().inner() {
        AnyStore::Vec(layout) => indices_in(alloc, mask, layout, ask),
        AnyStore::Dense(layout) => indices_in(alloc, mask, layout, ask),
        AnyStore::Hash(layout) => indices_in(alloc, mask, layout, ask),
        AnyStore::BTree(layout) => indices_in(alloc, mask, layout, ask),
    }
}

/// The numbers that a value holds, if it holds some.
fn numbers_in(value: &Value) -> Option<&MaskedStorage<Whole>>
    ensures { option_copied result ≡ numbers_in value.now }
{
    match value {
        Value::NumbersValue(numbers) => Some(numbers),
        _ => None,
    }
}

/// The ids for which something may be asked, in order: all that is asked for is asked for one of these.
///
/// Errors: want of memory.
fn ids_asking<W: Holder<Value>>(alloc: Global, view: &W, ask: Ask) -> Result<Vec<u64>, AllocError>
    ensures { IfOk result (λ ids. filter_map (asked_for ask (lent_for ask (W.slots view.now))) ids.items
        ≡ asked_of ask (lent_for ask (W.slots view.now))) }
{
    let Some(value) = view.value(part_id(HP)) else {
        return Ok(Vec::new(alloc));
    };
    let Some(numbers) = numbers_in(value) else {
        return Ok(Vec::new(alloc));
    };
    let indices = indices_asking(alloc, numbers, ask)?;
    ids_in_order::<Value, Datum, W>(alloc, view, indices.as_slice())
}

/// Asks for what is asked of each entity, in the order of the ids. It looks at the hp of each, and else at those alone for
/// whom something may be asked.
///
/// Errors: `Full`, where the queue is full of the first of it; `Memory`.
pub(crate) fn ask_all<H: AllocGlobal, W: Holder<Value>>(
    rt: &H,
    view: &W,
    ask: Ask,
    queue: &mut Queue<Datum>,
) -> Result<(), Stop>
    requires empty { waiting queue.old ≡ [] }
    ensures { MatchResult result
        (λ _. Asking ask (lent_for ask (W.slots view.now)) (leaves (lent_for ask (W.slots view.now))
        (plain_commands part_of (waiting queue.new))))
        (StopsAsking ask (lent_for ask (W.slots view.now)) (plain_commands part_of (waiting queue.new))) }
{
    let Ok(list) = ids_asking(rt.alloc(), view, ask) else {
        return Err(Stop::Memory);
    };
    let ids = list.as_slice();
    for place in 0..ids.len() {
        let Ok(command) = command_of(rt.alloc(), view, ask, ids[place]) else {
            return Err(Stop::Memory);
        };
        ask_for(queue, command)?;
    }
    Ok(())
}
