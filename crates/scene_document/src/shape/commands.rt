//! The lists of commands of a document.
ghost use Rattle.std.specs.Prelude.{◌≡◌, [], All, map, option_map, option_and_then};
ghost use Rattle.serde_json.specs.View.{view};
ghost use Rattle.scene_document.specs.Drafts.{each, part_under, parts_from, command_under, only_member, command_from};
ghost use Rattle.scene_document.specs.Drafts.{command_list_from, commands_from, put_from, take_from, known_kind};
ghost use Rattle.scene_document.specs.Drafts.{read_or};
ghost use Rattle.scene_document.specs.DraftViews.{seen, plain_part, plain_asked, plain_list, IsKnownDraft, AreApart};
ghost use Rattle.scene_document.specs.ShapeWords.{items_seen, members_seen, Reads, IsAsked};

use crate::draft::CommandDraft;
use crate::shape::fields::{has_only_keys, known_name, read_text, read_whole};
use scene_model::{DocumentRules, ReadError};
use serde_json::{Map, Value};
use std::alloc::Global;

/// The lists of commands, the first for the first frame; there are none where nothing was found.
///
/// Errors: `Shape` where it is no list, or one of it is no list of commands; `Memory`.
pub(crate) fn read_commands<R: DocumentRules>(
    alloc: Global,
    rules: &R,
    found: Option<&Value>,
) -> Result<Vec<Vec<CommandDraft<R::Data>>>, ReadError>
    ensures { Reads
        (λ lists. map (plain_list R.part_of) lists.items)
        (λ lists. All (λ list. All (IsAsked R.part_of (R.book rules.now)) list.items) lists.items)
        (read_or [] (commands_from (R.book rules.now)) (seen found.entry)) result }
{
    match found {
        None => Ok(Vec::new(alloc)),
        Some(value) => match value.as_array() {
            None => Err(ReadError::Shape),
            Some(values) => read_each_list(alloc, rules, values),
        },
    }
}

fn read_each_list<R: DocumentRules>(
    alloc: Global,
    rules: &R,
    values: &[Value],
) -> Result<Vec<Vec<CommandDraft<R::Data>>>, ReadError>
    ensures { Reads
        (λ lists. map (plain_list R.part_of) lists.items)
        (λ lists. All (λ list. All (IsAsked R.part_of (R.book rules.now)) list.items) lists.items)
        (each (command_list_from (R.book rules.now)) (items_seen values.now)) result }
{
    let mut lists = Vec::new(alloc);
    for value in values {
        let list = read_list(alloc, rules, value)?;
        lists.push(list)?;
    }
    Ok(lists)
}

/// The commands of a frame.
///
/// Errors: `Shape` where it is no list, or one of it is no command; `Memory`.
fn read_list<R: DocumentRules>(
    alloc: Global,
    rules: &R,
    value: &Value,
) -> Result<Vec<CommandDraft<R::Data>>, ReadError>
    ensures { Reads
        (plain_list R.part_of)
        (λ list. All (IsAsked R.part_of (R.book rules.now)) list.items)
        (command_list_from (R.book rules.now) (view value.now)) result }
{
    match value.as_array() {
        None => Err(ReadError::Shape),
        Some(values) => read_each_command(alloc, rules, values),
    }
}

fn read_each_command<R: DocumentRules>(
    alloc: Global,
    rules: &R,
    values: &[Value],
) -> Result<Vec<CommandDraft<R::Data>>, ReadError>
    ensures { Reads
        (plain_list R.part_of)
        (λ list. All (IsAsked R.part_of (R.book rules.now)) list.items)
        (each (command_from (R.book rules.now)) (items_seen values.now)) result }
{
    let mut list = Vec::with_capacity(alloc, values.len())?;
    for value in values {
        let command = read_command(alloc, rules, value)?;
        list.push(command)?;
    }
    Ok(list)
}

/// A command: an object of one key.
///
/// Errors: `Shape` where it is none; `Memory`.
fn read_command<R: DocumentRules>(
    alloc: Global,
    rules: &R,
    value: &Value,
) -> Result<CommandDraft<R::Data>, ReadError>
    ensures { Reads
        (plain_asked R.part_of)
        (IsAsked R.part_of (R.book rules.now))
        (command_from (R.book rules.now) (view value.now)) result }
{
    match value.as_object() {
        None => Err(ReadError::Shape),
        Some(members) => read_only(alloc, rules, members),
    }
}

fn read_only<R: DocumentRules>(
    alloc: Global,
    rules: &R,
    members: &Map<String, Value>,
) -> Result<CommandDraft<R::Data>, ReadError>
    ensures { Reads
        (plain_asked R.part_of)
        (IsAsked R.part_of (R.book rules.now))
        (option_and_then (command_under (R.book rules.now)) (only_member (members_seen members.now.entries))) result }
{
    if members.len() != 1 {
        return Err(ReadError::Shape);
    }
    for (key, value) in members {
        return read_under(alloc, rules, key.as_str(), value);
    }
    Err(ReadError::Shape)
}

/// A command by its key.
///
/// Errors: `Shape` where it is none; `Memory`.
fn read_under<R: DocumentRules>(
    alloc: Global,
    rules: &R,
    key: &str,
    value: &Value,
) -> Result<CommandDraft<R::Data>, ReadError>
    ensures { Reads
        (plain_asked R.part_of)
        (IsAsked R.part_of (R.book rules.now))
        (command_under (R.book rules.now) (key.now, view value.now)) result }
{
    if key == "spawn" {
        let parts = read_spawned(alloc, rules, value)?;
        return Ok(CommandDraft::Spawn(parts));
    }
    if key == "kill" {
        let Some(id) = value.as_u64() else {
            return Err(ReadError::Shape);
        };
        return Ok(CommandDraft::Kill(id));
    }
    if key == "put" {
        return read_put(alloc, rules, value);
    }
    if key == "take" {
        return read_take(rules, value);
    }
    Err(ReadError::Shape)
}

/// The parts of a spawn, each under its kind.
///
/// Errors: `Shape` where it is no object, or the rules do not read one of it; `Memory`.
fn read_spawned<R: DocumentRules>(
    alloc: Global,
    rules: &R,
    value: &Value,
) -> Result<Vec<Option<(&'static str, R::Data)>>, ReadError>
    ensures { Reads
        (λ parts. map (plain_part R.part_of) parts.items)
        (λ parts. All (IsKnownDraft (R.book rules.now)) (map (plain_part R.part_of) parts.items)
        × AreApart (map (plain_part R.part_of) parts.items))
        (parts_from (R.book rules.now) (view value.now)) result }
{
    match value.as_object() {
        None => Err(ReadError::Shape),
        Some(members) => read_each_spawned(alloc, rules, members),
    }
}

fn read_each_spawned<R: DocumentRules>(
    alloc: Global,
    rules: &R,
    members: &Map<String, Value>,
) -> Result<Vec<Option<(&'static str, R::Data)>>, ReadError>
    ensures { Reads
        (λ parts. map (plain_part R.part_of) parts.items)
        (λ parts. All (IsKnownDraft (R.book rules.now)) (map (plain_part R.part_of) parts.items)
        × AreApart (map (plain_part R.part_of) parts.items))
        (each (part_under (R.book rules.now)) (members_seen members.now.entries)) result }
{
    let mut parts = Vec::with_capacity(alloc, members.len())?;
    for (kind, value) in members {
        let part = read_known(alloc, rules, kind.as_str(), value)?;
        parts.push(part)?;
    }
    Ok(parts)
}

/// A part under the rules' own name of its kind, or none where the kind is unknown.
///
/// Errors: `Shape` where the rules do not read it; `Memory`.
fn read_known<R: DocumentRules>(
    alloc: Global,
    rules: &R,
    kind: &str,
    value: &Value,
) -> Result<Option<(&'static str, R::Data)>, ReadError>
    ensures { Reads
        (plain_part R.part_of)
        (λ part. IsKnownDraft (R.book rules.now) (plain_part R.part_of part))
        (part_under (R.book rules.now) (kind.now, view value.now)) result }
{
    let Some(known) = known_name(rules.part_names(), kind) else {
        return Ok(None);
    };
    let datum = rules.read_data(alloc, kind, value)?;
    Ok(Some((known, datum)))
}

/// A put: an id, a kind, and a part of that kind.
///
/// Errors: `Shape` where it is none; `Memory`.
fn read_put<R: DocumentRules>(
    alloc: Global,
    rules: &R,
    value: &Value,
) -> Result<CommandDraft<R::Data>, ReadError>
    ensures { Reads
        (plain_asked R.part_of)
        (IsAsked R.part_of (R.book rules.now))
        (put_from (R.book rules.now) (view value.now)) result }
{
    let Some(members) = value.as_object() else {
        return Err(ReadError::Shape);
    };
    if !has_only_keys(members, &["id", "kind", "value"]) {
        return Err(ReadError::Shape);
    }
    let Some(id) = read_whole(value.get("id")) else {
        return Err(ReadError::Shape);
    };
    let Some(kind) = read_text(value.get("kind")) else {
        return Err(ReadError::Shape);
    };
    let Some(found) = value.get("value") else {
        return Err(ReadError::Shape);
    };
    let part = read_known(alloc, rules, kind, found)?;
    Ok(CommandDraft::Put(id, part))
}

/// A take: an id and a kind.
///
/// Errors: `Shape` where it is none; `Memory`.
fn read_take<R: DocumentRules>(rules: &R, value: &Value) -> Result<CommandDraft<R::Data>, ReadError>
    ensures { Reads
        (plain_asked R.part_of)
        (IsAsked R.part_of (R.book rules.now))
        (take_from (R.book rules.now) (view value.now)) result }
{
    let Some(members) = value.as_object() else {
        return Err(ReadError::Shape);
    };
    if !has_only_keys(members, &["id", "kind"]) {
        return Err(ReadError::Shape);
    }
    let Some(id) = read_whole(value.get("id")) else {
        return Err(ReadError::Shape);
    };
    let Some(kind) = read_text(value.get("kind")) else {
        return Err(ReadError::Shape);
    };
    Ok(CommandDraft::Take(id, known_name(rules.part_names(), kind)))
}
