//! Systems that ask for commands, for one id after the other.
ghost use Rattle.std.specs.Prelude.{◌≡◌, ◌++◌, IfErr, OnOk, option_map};
ghost use Rattle.std.specs.List.{filter_map};
ghost use Rattle.std.specs.Option.{option_to_list};
ghost use Rattle.scene_model.specs.Queues.{waiting, plain_command, plain_commands};
ghost use Rattle.scene_world.specs.Asking.{IsNotAsked, AsksFor};
ghost use Rattle.scene_world.specs.Columns.{column_in, column_held, ids_having};
ghost use Rattle.scene_world.specs.Known.{roll_held};

use crate::columns::ids_with;
use crate::{Column, SceneValue, stop_for};
use scene_model::{Command, Queue};
use shred_stages::Stop;
use shred_world::{Holder, Resource};
use std::alloc::{AllocError, Global};

/// What is asked for an id, by what is held of a world.
pub trait Asks<V, D: Drop> {
    ghost use Rattle.std.specs.Prelude.{◌≡◌, IfOk, ℕ, Option, option_map};
    ghost use Rattle.shred_world.specs.Bundles.{Holding};
    ghost use Rattle.scene_model.specs.Parts.{Part};
    ghost use Rattle.scene_model.specs.Queues.{plain_command};
    ghost use Rattle.scene_model.specs.Rulebook as plain;

    /// The part that a datum is in a document.
    ghost part_of: { D → Part };

    /// The command that is asked for an id, if one is.
    ghost asked: { Self → Holding V → ℕ → Option plain.Command };

    /// The command that is asked for an id, if one is.
    ///
    /// Errors: want of memory.
    fn command_for<W: Holder<V>>(
        &self,
        alloc: Global,
        view: &W,
        id: u64,
    ) -> Result<Option<Command<D>>, AllocError>
        ensures { IfOk result (λ command. option_map (plain_command part_of) command
            ≡ asked self.now (W.slots view.now) id) };
}

/// Puts a command into a queue, if there is one.
///
/// Errors: `Full`, `Memory`; the queue is then as it was.
fn ask_for<A: Asks<V, D>, V, D: Drop>(
    queue: &mut Queue<D>,
    command: Option<Command<D>>,
) -> Result<(), Stop>
    ensures ok { OnOk result (plain_commands A.part_of (waiting queue.new)
        ≡ plain_commands A.part_of (waiting queue.old)
        ++ option_to_list (option_map (plain_command A.part_of) command)) }
    ensures err { IfErr result (IsNotAsked (option_map (plain_command A.part_of) command)
        (plain_commands A.part_of (waiting queue.old)) (plain_commands A.part_of (waiting queue.new))) }
{
    match command {
        None => Ok(()),
        Some(command) => match queue.push(command) {
            Ok(()) => Ok(()),
            Err(refused) => Err(stop_for(refused)),
        },
    }
}

/// Asks for what is asked for an id, if something is.
///
/// Errors: `Full`, where the queue is full; `Memory`.
fn ask_one<A: Asks<V, D>, V, D: Drop, W: Holder<V>>(
    alloc: Global,
    view: &W,
    asks: &A,
    id: u64,
    queue: &mut Queue<D>,
) -> Result<(), Stop>
    ensures ok { OnOk result (plain_commands A.part_of (waiting queue.new)
        ≡ plain_commands A.part_of (waiting queue.old)
        ++ option_to_list (A.asked asks.now (W.slots view.now) id)) }
    ensures err { IfErr result (IsNotAsked (A.asked asks.now (W.slots view.now) id)
        (plain_commands A.part_of (waiting queue.old)) (plain_commands A.part_of (waiting queue.new))) }
{
    match asks.command_for(alloc, view, id) {
        Ok(command) => ask_for::<A, V, D>(queue, command),
        Err(_) => Err(Stop::Memory),
    }
}

/// Asks for what is asked for each of these ids, in their order.
///
/// Errors: `Full`, where the queue is full of the first of it; `Memory`.
pub fn ask_each<A: Asks<V, D>, V, D: Drop, W: Holder<V>>(
    alloc: Global,
    view: &W,
    asks: &A,
    ids: &[u64],
    queue: &mut Queue<D>,
) -> Result<(), Stop>
    ensures { AsksFor result (plain_commands A.part_of (waiting queue.old))
        (filter_map (A.asked asks.now (W.slots view.now)) ids.now) (plain_commands A.part_of (waiting queue.new)) }
{
    for place in 0..ids.len() {
        ask_one::<A, V, D, W>(alloc, view, asks, ids[place], queue)?;
    }
    Ok(())
}

/// Asks for what is asked for each that has a part in a column, in the order of their ids.
///
/// Errors: `Full`, where the queue is full of the first of it; `Memory`.
pub fn ask_with<S: Column + Resource<V>, A: Asks<V, S::Data>, V: SceneValue<S::Data>, W: Holder<V>>(
    alloc: Global,
    view: &W,
    asks: &A,
    queue: &mut Queue<S::Data>,
) -> Result<(), Stop>
    ensures { AsksFor result (plain_commands A.part_of (waiting queue.old))
        (filter_map (A.asked asks.now (W.slots view.now))
        (ids_having (roll_held ⟦<V as SceneValue<S::Data>>⟧.places (W.slots view.now))
        (column_held (column_in S.part S.stored_at) S.kind_number (W.slots view.now))))
        (plain_commands A.part_of (waiting queue.new)) }
{
    match ids_with::<S, V, W>(alloc, view) {
        Ok(ids) => ask_each::<A, V, S::Data, W>(alloc, view, asks, ids.as_slice(), queue),
        Err(_) => Err(Stop::Memory),
    }
}
