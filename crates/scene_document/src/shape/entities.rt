//! The entities and globals of a document, read by the rules.
ghost use Rattle.std.specs.Prelude.{[], map, All, length, option_and_then};
ghost use Rattle.serde_json.specs.View.{view};
ghost use Rattle.scene_document.specs.Drafts.{each, part_under, parts_from, entity_from, entities_from, global_under};
ghost use Rattle.scene_document.specs.Drafts.{globals_from, read_or};
ghost use Rattle.scene_document.specs.DraftViews.{seen, named, plain_entity, IsPlaced, IsPart, IsEntity};
ghost use Rattle.scene_document.specs.ShapeWords.{items_seen, members_seen, Reads};

use crate::draft::EntityDraft;
use crate::shape::fields::{has_only_keys, known_place, read_whole};
use scene_model::{DocumentRules, ReadError};
use serde_json::{Map, Value};
use std::alloc::Global;

/// The entities of a document.
///
/// Errors: `Shape` where it is no list, or one of it is no entity; `Memory`.
pub(crate) fn read_entities<R: DocumentRules>(
    alloc: Global,
    rules: &R,
    found: Option<&Value>,
) -> Result<Vec<EntityDraft<R::Data>>, ReadError>
    ensures { Reads
        (λ entities. map (plain_entity R.part_of (R.book rules.now).part_names) entities.items)
        (λ entities. All (IsEntity R.part_of (R.book rules.now)) entities.items)
        (option_and_then (entities_from (R.book rules.now)) (seen found.entry)) result }
{
    match found {
        None => Err(ReadError::Shape),
        Some(value) => match value.as_array() {
            None => Err(ReadError::Shape),
            Some(values) => read_each_entity(alloc, rules, values),
        },
    }
}

fn read_each_entity<R: DocumentRules>(
    alloc: Global,
    rules: &R,
    values: &[Value],
) -> Result<Vec<EntityDraft<R::Data>>, ReadError>
    ensures { Reads
        (λ entities. map (plain_entity R.part_of (R.book rules.now).part_names) entities.items)
        (λ entities. All (IsEntity R.part_of (R.book rules.now)) entities.items)
        (each (entity_from (R.book rules.now)) (items_seen values.now)) result }
{
    let mut entities = Vec::with_capacity(alloc, values.len())?;
    for value in values {
        let entity = read_entity(alloc, rules, value)?;
        entities.push(entity)?;
    }
    Ok(entities)
}

/// An entity, of its id and its parts.
///
/// Errors: `Shape` where it is none; `Memory`.
fn read_entity<R: DocumentRules>(
    alloc: Global,
    rules: &R,
    value: &Value,
) -> Result<EntityDraft<R::Data>, ReadError>
    ensures { Reads
        (plain_entity R.part_of (R.book rules.now).part_names)
        (IsEntity R.part_of (R.book rules.now))
        (entity_from (R.book rules.now) (view value.now)) result }
{
    let Some(members) = value.as_object() else {
        return Err(ReadError::Shape);
    };
    if !has_only_keys(members, &["id", "parts"]) {
        return Err(ReadError::Shape);
    }
    let Some(id) = read_whole(value.get("id")) else {
        return Err(ReadError::Shape);
    };
    let parts = read_parts(alloc, rules, value.get("parts"))?;
    Ok(EntityDraft { id, parts })
}

/// The parts of an entity, each at the place of its kind among the rules' kinds.
///
/// Errors: `Shape` where there is no object, or the rules do not read one of it; `Memory`.
fn read_parts<R: DocumentRules>(
    alloc: Global,
    rules: &R,
    found: Option<&Value>,
) -> Result<Vec<Option<(usize, R::Data)>>, ReadError>
    ensures { Reads
        (λ parts. map (named R.part_of (R.book rules.now).part_names) parts.items)
        (λ parts. All (IsPart R.part_of (R.book rules.now)) parts.items)
        (option_and_then (parts_from (R.book rules.now)) (seen found.entry)) result }
{
    match found {
        None => Err(ReadError::Shape),
        Some(value) => match value.as_object() {
            None => Err(ReadError::Shape),
            Some(members) => read_each_part(alloc, rules, members),
        },
    }
}

fn read_each_part<R: DocumentRules>(
    alloc: Global,
    rules: &R,
    members: &Map<String, Value>,
) -> Result<Vec<Option<(usize, R::Data)>>, ReadError>
    ensures { Reads
        (λ parts. map (named R.part_of (R.book rules.now).part_names) parts.items)
        (λ parts. All (IsPart R.part_of (R.book rules.now)) parts.items)
        (each (part_under (R.book rules.now)) (members_seen members.now.entries)) result }
{
    let mut parts = Vec::with_capacity(alloc, members.len())?;
    for (kind, value) in members {
        let part = read_part(alloc, rules, kind.as_str(), value)?;
        parts.push(part)?;
    }
    Ok(parts)
}

/// A part at the place of its kind, or none where the kind is unknown.
///
/// Errors: `Shape` where the rules do not read it; `Memory`.
fn read_part<R: DocumentRules>(
    alloc: Global,
    rules: &R,
    kind: &str,
    value: &Value,
) -> Result<Option<(usize, R::Data)>, ReadError>
    ensures { Reads
        (named R.part_of (R.book rules.now).part_names)
        (IsPart R.part_of (R.book rules.now))
        (part_under (R.book rules.now) (kind.now, view value.now)) result }
{
    let Some(place) = known_place(rules.part_names(), kind) else {
        return Ok(None);
    };
    let datum = rules.read_data(alloc, kind, value)?;
    Ok(Some((place, datum)))
}

/// The globals of a document, each at the place of its name among the rules' globals; there are none where nothing
/// was found.
///
/// Errors: `Shape` where it is no object, or the rules do not read one of it; `Memory`.
pub(crate) fn read_globals<R: DocumentRules>(
    alloc: Global,
    rules: &R,
    found: Option<&Value>,
) -> Result<Vec<Option<(usize, R::Global)>>, ReadError>
    ensures { Reads
        (λ globals. map (named R.global_of (R.book rules.now).global_names) globals.items)
        (λ globals. All (IsPlaced (length (R.book rules.now).global_names)) globals.items)
        (read_or [] (globals_from (R.book rules.now)) (seen found.entry)) result }
{
    match found {
        None => Ok(Vec::new(alloc)),
        Some(value) => match value.as_object() {
            None => Err(ReadError::Shape),
            Some(members) => read_each_global(alloc, rules, members),
        },
    }
}

fn read_each_global<R: DocumentRules>(
    alloc: Global,
    rules: &R,
    members: &Map<String, Value>,
) -> Result<Vec<Option<(usize, R::Global)>>, ReadError>
    ensures { Reads
        (λ globals. map (named R.global_of (R.book rules.now).global_names) globals.items)
        (λ globals. All (IsPlaced (length (R.book rules.now).global_names)) globals.items)
        (each (global_under (R.book rules.now)) (members_seen members.now.entries)) result }
{
    let mut globals = Vec::new(alloc);
    for (name, value) in members {
        let global = read_one_global(alloc, rules, name.as_str(), value)?;
        globals.push(global)?;
    }
    Ok(globals)
}

/// A global at the place of its name, or none where the name is unknown.
///
/// Errors: `Shape` where the rules do not read it; `Memory`.
fn read_one_global<R: DocumentRules>(
    alloc: Global,
    rules: &R,
    name: &str,
    value: &Value,
) -> Result<Option<(usize, R::Global)>, ReadError>
    ensures { Reads
        (named R.global_of (R.book rules.now).global_names)
        (IsPlaced (length (R.book rules.now).global_names))
        (global_under (R.book rules.now) (name.now, view value.now)) result }
{
    let Some(place) = known_place(rules.global_names(), name) else {
        return Ok(None);
    };
    let global = rules.read_global(alloc, name, value)?;
    Ok(Some((place, global)))
}
