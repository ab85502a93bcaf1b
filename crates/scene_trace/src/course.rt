//! The systems and commands of a document.
ghost use Rattle.std.specs.Prelude.{◌≡◌};
ghost use Rattle.scene_model.specs.Parts.{Part};
ghost use Rattle.scene_model.specs.Queues.{plain_commands};
ghost use Rattle.scene_document.specs.Loading.{commands_at};

use scene_dispatch::{SceneDispatcher, stage_systems};
use scene_document::{DocumentDraft, EntryDraft, Limits, LoadError, commands_of, read_document};
use scene_model::Command;
use scene_world::Rules;
use serde_json::Value;
use std::alloc::{AllocError, Global};
use std::collections::BTreeMap;

/// The kind of each system by its place among the entries, from 1.
pub type Kinds = BTreeMap<u32, String>;

/// The systems of a document on a dispatcher, their kinds, and its commands for each frame.
#[derive(Drop)]
pub(crate) struct Course<R: Rules>
where
    R::Value: Drop,
{
    pub(crate) dispatcher: SceneDispatcher<R>,
    pub(crate) kinds: Kinds,
    pub(crate) commands: Vec<Vec<Command<R::Data>>>,
}

fn kinds_of<S>(alloc: Global, entries: &[EntryDraft<'_, S>]) -> Result<Kinds, AllocError> {
    let mut kinds = BTreeMap::new(alloc);
    let mut place: u32 = 0;
    for entry in entries {
        place = place.saturating_add(1);
        if let EntryDraft::System(system) = entry {
            let kind = String::from_str(alloc, system.kind)?;
            drop(kinds.insert(place, kind)?);
        }
    }
    Ok(kinds)
}

/// The systems and commands of the document that a JSON is.
///
/// Errors: those of `read_document`.
pub(crate) fn course_of<R: Rules>(
    alloc: Global,
    rules: &R,
    limits: Limits,
    value: &Value,
) -> Result<Course<R>, LoadError>
where
    R::Value: Drop,
{
    let draft = read_document(alloc, rules, limits, value)?;
    let DocumentDraft {
        next: _,
        entities: _,
        globals: _,
        entries,
        frames: _,
        commands,
        workers,
        store: _,
    } = draft;
    let kinds = kinds_of(alloc, &entries)?;
    let commands = commands_of::<R>(alloc, commands)?;
    let dispatcher = stage_systems(rules, entries, workers as usize, alloc)?;
    Ok(Course {
        dispatcher,
        kinds,
        commands,
    })
}

/// The commands of a document for a frame, by its number from 1.
pub(crate) fn given_for<D: Drop>(lists: &[Vec<Command<D>>], number: u32) -> &[Command<D>]
    ensures { (part_of : D → Part) → plain_commands part_of result.now ≡ commands_at part_of lists.now number }
{
    if number == 0 {
        return &[];
    }
    match lists.get(number as usize - 1) {
        Some(list) => list.as_slice(),
        None => &[],
    }
}
