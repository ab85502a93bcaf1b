//! The shape of a document: its JSON as a draft.
ghost use Rattle.std.specs.Prelude.{◌≡◌, Option, None, Some, MatchResult};
ghost use Rattle.serde_json.specs.View.{view};
ghost use Rattle.scene_document.specs.Drafts.{Draft, draft_from, document_keys, keys_within};
ghost use Rattle.scene_document.specs.DraftViews.{IsDraft, AreMade};
ghost use Rattle.scene_document.specs.Apart.{IsApart};
ghost use Rattle.scene_document.specs.ShapeWords.{members_seen, draft_around, AreRead, ReadsDraft};
ghost use Rattle.scene_model.specs.Parts.{Json};
ghost use Rattle.scene_model.specs.declared.reading.ReadError.TheVariants.{Shape};

use crate::draft::{DocumentDraft, EntityDraft};
use scene_model::{DocumentRules, ReadError};
use serde_json::{Map, Value};
use std::alloc::Global;

mod commands;
mod entities;
mod entries;
mod fields;

use crate::shape::commands::read_commands;
use crate::shape::entities::{read_entities, read_globals};
use crate::shape::entries::read_entries;
use crate::shape::fields::{has_only_keys, read_frames, read_store, read_whole, read_whole_or};

/// The draft that a JSON is, where its shape is right.
///
/// Errors: `Shape` where it is none; `Memory`.
pub fn read_draft<'a, R: DocumentRules>(
    alloc: Global,
    rules: &R,
    value: &'a Value,
) -> Result<DocumentDraft<'a, R::Data, R::Global, R::System>, ReadError>
    ensures { MatchResult result
        (λ draft. (plain : Draft) × (draft_from (R.book rules.now) (view value.now) ≡ Some plain)
        × IsDraft R.part_of R.global_of R.kind_of R.config_of (R.book rules.now) plain draft
        × AreMade R.declared R.said_time (R.made_by rules.now) draft.entries.items)
        (λ error. error ≡ Shape → draft_from (R.book rules.now) (view value.now) ≡ None) }
{
    let Some(members) = value.as_object() else {
        return Err(ReadError::Shape);
    };
    if !has_document_keys(members) {
        return Err(ReadError::Shape);
    }
    let entities = read_entities(alloc, rules, value.get("entities"))?;
    read_around(alloc, rules, value, entities)
}

/// The draft that a JSON is whose entities stand apart and were read: what they say, and the rest of the JSON.
///
/// Errors: `Shape` where it is none; `Memory`.
pub fn read_draft_with<'a, R: DocumentRules>(
    alloc: Global,
    rules: &R,
    rest: &'a Value,
    entities: Vec<EntityDraft<R::Data>>,
) -> Result<DocumentDraft<'a, R::Data, R::Global, R::System>, ReadError>
    ensures { (json : Json) → let book = R.book rules.now in IsApart R.part_of book json (view rest.now) entities.items
        → MatchResult result
        (λ draft. (one : Draft) × (draft_from book json ≡ Some one)
        × IsDraft R.part_of R.global_of R.kind_of R.config_of book one draft
        × AreMade R.declared R.said_time (R.made_by rules.now) draft.entries.items)
        (λ why. why ≡ Shape → draft_from book json ≡ None) }
{
    let Some(members) = rest.as_object() else {
        return Err(ReadError::Shape);
    };
    if !has_document_keys(members) {
        return Err(ReadError::Shape);
    }
    read_around(alloc, rules, rest, entities)
}

/// The draft of a document whose keys are known, of its entities and of what stands under its other keys.
///
/// Errors: `Shape` where one of them has not its shape; `Memory`.
fn read_around<'a, R: DocumentRules>(
    alloc: Global,
    rules: &R,
    value: &'a Value,
    entities: Vec<EntityDraft<R::Data>>,
) -> Result<DocumentDraft<'a, R::Data, R::Global, R::System>, ReadError>
    ensures { (found : Option Json) → AreRead R.part_of (R.book rules.now) found entities.items
        → ReadsDraft R.part_of R.global_of R.kind_of R.config_of R.declared R.said_time (R.made_by rules.now)
        (R.book rules.now) (draft_around (R.book rules.now) (view value.now) found) result }
{
    let Some(next) = read_whole(value.get("next")) else {
        return Err(ReadError::Shape);
    };
    let globals = read_globals(alloc, rules, value.get("globals"))?;
    let entries = read_entries(alloc, rules, value.get("systems"))?;
    let Some(frames) = read_frames(value.get("frames")) else {
        return Err(ReadError::Shape);
    };
    let commands = read_commands(alloc, rules, value.get("commands"))?;
    let Some(workers) = read_whole_or(1, value.get("workers")) else {
        return Err(ReadError::Shape);
    };
    let Some(store) = read_store(value.get("store")) else {
        return Err(ReadError::Shape);
    };
    Ok(DocumentDraft {
        next,
        entities,
        globals,
        entries,
        frames,
        commands,
        workers,
        store,
    })
}

/// Whether an object has no other keys than a document.
fn has_document_keys(members: &Map<String, Value>) -> bool
    ensures { result ≡ keys_within document_keys (members_seen members.now.entries) }
{
    has_only_keys(
        members,
        &[
            "next", "entities", "globals", "systems", "frames", "commands", "workers", "store",
        ],
    )
}
