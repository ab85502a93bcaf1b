//! `bury` in a world.
ghost use Rattle.std.specs.Prelude.{◌≡◌, [], MatchResult, option_map};
ghost use Rattle.scene_model.specs.Queues.{waiting, plain_command, plain_commands};
ghost use Rattle.scene_world.specs.Asking.{StopsAsking};
ghost use Rattle.duel.specs.Names.{part_of};
ghost use Rattle.duel.specs.Burying.{down_at, asked_seen, all_asked};

use crate::data::{Ask, Datum, Hp, Target};
use crate::values::Value;
use scene_model::{Command, Queue};
use scene_world::columns::{entity_at, number_at};
use scene_world::known::index_under;
use scene_world::{Asks, ask_with};
use shred_stages::Stop;
use shred_world::Holder;
use specs_layouts::MaskedStorage;
use std::alloc::{AllocError, Global};

/// Whether no hp is left at an index.
fn down_at<W: Holder<Value>>(view: &W, index: u32) -> bool
    ensures { result ≡ down_at (W.slots view.now) index }
{
    number_at::<Hp, Value, W>(view, index) == Some(0)
}

/// What is asked for an id, if something is.
fn asked<W: Holder<Value>>(view: &W, ask: Ask, id: u64) -> Option<Command<Datum>>
    ensures { option_map (plain_command part_of) result ≡ asked_seen ask (W.slots view.now) id }
{
    let index = index_under::<Value, Datum, W>(view, id)?;
    match ask {
        Ask::Deaths if down_at(view, index) => Some(Command::Kill(id)),
        Ask::Losses if !down_at(view, index) => {
            let target = entity_at::<Target, Value, W>(view, index)?;
            if down_at(view, target.id()) {
                Some(Command::Take(id, "target"))
            } else {
                None
            }
        }
        _ => None,
    }
}

impl Asks<Value, Datum> for Ask {
    ghost part_of = { part_of };

    ghost asked = { asked_seen };

    fn command_for<W: Holder<Value>>(
        &self,
        _alloc: Global,
        view: &W,
        id: u64,
    ) -> Result<Option<Command<Datum>>, AllocError> {
        Ok(asked(view, *self, id))
    }
}

/// Asks for the death of each whose hp is 0, and that each other whose target's hp is 0 has no target any more.
///
/// Errors: `Full`, where the queue is full of the first of these; `Memory`.
pub(crate) fn bury<H: AllocGlobal, W: Holder<Value>>(
    rt: &H,
    view: &W,
    queue: &mut Queue<Datum>,
) -> Result<(), Stop>
    requires empty { waiting queue.old ≡ [] }
    ensures { MatchResult result
        (λ _. plain_commands part_of (waiting queue.new) ≡ all_asked (W.slots view.now))
        (StopsAsking (all_asked (W.slots view.now)) (plain_commands part_of (waiting queue.new))) }
{
    ask_with::<MaskedStorage<Hp>, Ask, Value, W>(rt.alloc(), view, &Ask::Deaths, queue)?;
    ask_with::<MaskedStorage<Target>, Ask, Value, W>(rt.alloc(), view, &Ask::Losses, queue)
}
