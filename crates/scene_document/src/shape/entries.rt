//! The list of systems of a document.
ghost use Rattle.std.specs.Prelude.{[], All, map, option_map, option_and_then};
ghost use Rattle.std.specs.Prelude.{◌≡◌};
ghost use Rattle.serde_json.specs.View.{view};
ghost use Rattle.scene_document.specs.Drafts.{each, keys_within, entry_keys, entry_from, entries_from, facts_in_shape};
ghost use Rattle.scene_document.specs.Drafts.{system, read_or};
ghost use Rattle.scene_document.specs.DraftViews.{seen, config_seen, facts_of, plain_system, plain_draft};
ghost use Rattle.scene_document.specs.ShapeWords.{items_seen, members_seen, entry_in, Reads, IsRuled, IsEntry};

use crate::draft::{EntryDraft, MadeDraft, SystemDraft};
use crate::shape::fields::{has_only_keys, read_flag, read_name, read_names, read_text, says_true};
use scene_model::{DocumentRules, ReadError};
use serde_json::{Map, Value};
use std::alloc::Global;

/// The entries of the list of systems; there are none where nothing was found.
///
/// Errors: `Shape` where it is no list, or one of it is no entry; `Memory`.
pub(crate) fn read_entries<'a, R: DocumentRules>(
    alloc: Global,
    rules: &R,
    found: Option<&'a Value>,
) -> Result<Vec<EntryDraft<'a, R::System>>, ReadError>
    ensures { Reads
        (λ entries. map plain_draft entries.items)
        (λ entries. All (IsEntry R.kind_of R.config_of R.declared R.said_time (R.made_by rules.now)
        (R.book rules.now)) entries.items)
        (read_or [] (entries_from (R.book rules.now)) (seen found.entry)) result }
{
    match found {
        None => Ok(Vec::new(alloc)),
        Some(value) => match value.as_array() {
            None => Err(ReadError::Shape),
            Some(values) => read_each_entry(alloc, rules, values),
        },
    }
}

fn read_each_entry<'a, R: DocumentRules>(
    alloc: Global,
    rules: &R,
    values: &'a [Value],
) -> Result<Vec<EntryDraft<'a, R::System>>, ReadError>
    ensures { Reads
        (λ entries. map plain_draft entries.items)
        (λ entries. All (IsEntry R.kind_of R.config_of R.declared R.said_time (R.made_by rules.now)
        (R.book rules.now)) entries.items)
        (each (entry_from (R.book rules.now)) (items_seen values.now)) result }
{
    let mut entries = Vec::new(alloc);
    for value in values {
        let entry = read_entry(alloc, rules, value)?;
        entries.push(entry)?;
    }
    Ok(entries)
}

/// An entry: a barrier or a system.
///
/// Errors: `Shape` where it is none; `Memory`.
fn read_entry<'a, R: DocumentRules>(
    alloc: Global,
    rules: &R,
    value: &'a Value,
) -> Result<EntryDraft<'a, R::System>, ReadError>
    ensures { Reads plain_draft
        (IsEntry R.kind_of R.config_of R.declared R.said_time (R.made_by rules.now) (R.book rules.now))
        (entry_from (R.book rules.now) (view value.now)) result }
{
    let Some(members) = value.as_object() else {
        return Err(ReadError::Shape);
    };
    if has_only_keys(members, &["barrier"]) {
        if says_true(value.get("barrier")) {
            return Ok(EntryDraft::Barrier);
        }
        return Err(ReadError::Shape);
    }
    if !has_entry_keys(members, says_true(value.get("local"))) {
        return Err(ReadError::Shape);
    }
    let system = read_system(alloc, rules, value)?;
    Ok(EntryDraft::System(system))
}

/// Whether an entry of a system has no other keys than it may have; a local one has neither a name nor names that it
/// comes after.
fn has_entry_keys(members: &Map<String, Value>, local: bool) -> bool
    ensures { result ≡ keys_within (entry_keys local) (members_seen members.now.entries) }
{
    if local {
        has_only_keys(members, &["kind", "config", "local"])
    } else {
        has_only_keys(members, &["kind", "name", "after", "config", "local"])
    }
}

/// A system of an entry whose keys are known, made where its kind is known.
///
/// Errors: `Shape` where it is none; `Memory`.
fn read_system<'a, R: DocumentRules>(
    alloc: Global,
    rules: &R,
    value: &'a Value,
) -> Result<SystemDraft<'a, R::System>, ReadError>
    ensures { Reads
        (λ draft. system (plain_system draft))
        (λ draft. IsRuled R.kind_of R.config_of R.declared R.said_time (R.made_by rules.now) (R.book rules.now)
        draft.kind.now (config_seen (seen draft.config)) draft.made)
        (entry_in (R.book rules.now) (view value.now)) result }
{
    let Some(kind) = read_text(value.get("kind")) else {
        return Err(ReadError::Shape);
    };
    let Some(name) = read_name(value.get("name")) else {
        return Err(ReadError::Shape);
    };
    let after = read_names(alloc, value.get("after"))?;
    let Some(local) = read_flag(value.get("local")) else {
        return Err(ReadError::Shape);
    };
    let config = value.get("config");
    let made = make_system(alloc, rules, kind, config)?;
    Ok(SystemDraft {
        kind,
        name,
        after,
        config,
        local,
        made,
    })
}

/// The system of a kind with a configuration, or none where the kind is unknown; the configuration is null where
/// nothing was found.
///
/// Errors: `Shape` where the configuration is none of that kind; `Memory`.
fn make_system<R: DocumentRules>(
    alloc: Global,
    rules: &R,
    kind: &str,
    found: Option<&Value>,
) -> Result<Option<MadeDraft<R::System>>, ReadError>
    ensures { Reads
        (λ made. option_map facts_of made)
        (IsRuled R.kind_of R.config_of R.declared R.said_time (R.made_by rules.now) (R.book rules.now) kind.now
        (config_seen (seen found.entry)))
        (facts_in_shape ((R.book rules.now).system kind.now (config_seen (seen found.entry)))) result }
{
    match found {
        Some(config) => make_configured(alloc, rules, kind, config),
        None => make_configured(alloc, rules, kind, &Value::Null),
    }
}

fn make_configured<R: DocumentRules>(
    alloc: Global,
    rules: &R,
    kind: &str,
    config: &Value,
) -> Result<Option<MadeDraft<R::System>>, ReadError>
    ensures { Reads
        (λ made. option_map facts_of made)
        (IsRuled R.kind_of R.config_of R.declared R.said_time (R.made_by rules.now) (R.book rules.now) kind.now
        (view config.now))
        (facts_in_shape ((R.book rules.now).system kind.now (view config.now))) result }
{
    let Some(system) = rules.make_system(alloc, kind, config)? else {
        return Ok(None);
    };
    let accessor = R::accessor(&system, alloc)?;
    let time = R::running_time(&system);
    Ok(Some(MadeDraft {
        system,
        accessor,
        time,
    }))
}
