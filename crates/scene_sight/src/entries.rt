//! The entries of the list of systems.
use crate::fields::{
    has_key, list_under, says_true, tell_flag, tell_other_keys, tell_shape, text_under,
};
use crate::meaning::{Notes, Seen, tell_unknown_system};
use crate::trail::Trail;
use crate::words::{quoted, shown};
use scene_document::has_float;
use scene_model::{DocRefusal, DocumentRules, ReadError, SystemAccess};
use serde_json::{Map, Value};
use std::alloc::AllocError;

/// Tells the faults of entries, and notes what their systems say.
pub(crate) fn see_entries<'a, R: DocumentRules>(
    trail: &mut Trail<'a>,
    rules: &R,
    kinds: &[&str],
    entries: &'a [Value],
    notes: &mut Notes<'a>,
) -> Result<(), AllocError> {
    trail.enter("systems")?;
    let mut place = 0usize;
    for entry in entries {
        trail.enter_item(place)?;
        if let Some(seen) = see_entry(trail, rules, kinds, place, entry)? {
            notes.systems.push(seen)?;
        }
        trail.leave();
        place = place.saturating_add(1);
    }
    trail.leave();
    Ok(())
}

/// The system of an entry, as far as it was read; none of a barrier.
fn see_entry<'a, R: DocumentRules>(
    trail: &mut Trail<'a>,
    rules: &R,
    kinds: &[&str],
    place: usize,
    entry: &'a Value,
) -> Result<Option<Seen<'a>>, AllocError> {
    let Some(members) = entry.as_object() else {
        tell_shape(
            trail,
            entry,
            "an entry: an object with a kind, or a barrier",
        )?;
        return Ok(None);
    };
    if members.len() == 1 {
        if let Some(barrier) = entry.get("barrier") {
            if barrier.as_bool() != Some(true) {
                trail.enter("barrier")?;
                tell_shape(trail, barrier, "true")?;
                trail.leave();
            }
            return Ok(None);
        }
    }
    tell_entry_keys(trail, entry, members)?;
    see_system(trail, rules, kinds, place, entry)
}

/// Tells the keys that an entry of a system cannot have.
fn tell_entry_keys<'a>(
    trail: &mut Trail<'a>,
    entry: &'a Value,
    members: &'a Map<String, Value>,
) -> Result<(), AllocError> {
    if !says_true(entry, "local") {
        return tell_other_keys(
            trail,
            members,
            &["kind", "name", "after", "config", "local"],
        );
    }
    tell_other_keys(trail, members, &["kind", "config", "local"])
}

/// A system as far as it is read.
fn see_system<'a, R: DocumentRules>(
    trail: &mut Trail<'a>,
    rules: &R,
    kinds: &[&str],
    place: usize,
    entry: &'a Value,
) -> Result<Option<Seen<'a>>, AllocError> {
    let name = text_under(trail, entry, "name")?;
    let after = see_after(trail, entry)?;
    tell_flag(trail, entry, "local")?;
    if !has_key(trail, entry, "kind", "the name of a system")? {
        return Ok(None);
    }
    let Some(kind) = text_under(trail, entry, "kind")? else {
        return Ok(None);
    };
    let access = see_access(trail, rules, kinds, kind, entry)?;
    Ok(Some(Seen {
        place,
        kind,
        name: name.unwrap_or(""),
        after,
        access,
    }))
}

/// The names that a system comes after, each with its place among them.
fn see_after<'a>(
    trail: &mut Trail<'a>,
    entry: &'a Value,
) -> Result<Vec<(usize, &'a str)>, AllocError> {
    let mut names = Vec::new(trail.alloc);
    let Some(values) = list_under(trail, entry, "after")? else {
        return Ok(names);
    };
    trail.enter("after")?;
    let mut place = 0usize;
    for value in values {
        match value.as_str() {
            Some(name) => names.push((place, name))?,
            None => {
                trail.enter_item(place)?;
                tell_shape(trail, value, "the name of a system")?;
                trail.leave();
            }
        }
        place = place.saturating_add(1);
    }
    trail.leave();
    Ok(names)
}

/// What a system declares, where the rules make it of its kind and configuration.
fn see_access<R: DocumentRules>(
    trail: &mut Trail<'_>,
    rules: &R,
    kinds: &[&str],
    kind: &str,
    entry: &Value,
) -> Result<Option<SystemAccess>, AllocError> {
    let made = match entry.get("config") {
        Some(config) => rules.make_system(trail.alloc, kind, config),
        None => rules.make_system(trail.alloc, kind, &Value::Null),
    };
    match made {
        Ok(Some(system)) => Ok(Some(R::accessor(&system, trail.alloc)?)),
        Ok(None) => {
            tell_unknown_system(trail, kind, kinds)?;
            Ok(None)
        }
        Err(ReadError::Shape) => {
            tell_config(trail, kind, entry)?;
            Ok(None)
        }
        Err(ReadError::Memory) => Err(AllocError),
    }
}

/// Tells that the rules read no configuration of a kind there.
fn tell_config(trail: &mut Trail<'_>, kind: &str, entry: &Value) -> Result<(), AllocError> {
    let alloc = trail.alloc;
    let kind = quoted(alloc, kind)?;
    let Some(config) = entry.get("config") else {
        let sentence = format!(in alloc; "the system {kind} wants a config")?;
        return trail.tell(DocRefusal::WrongShape, sentence);
    };
    if has_float(config) {
        return Ok(());
    }
    let text = shown(alloc, config)?;
    let sentence = format!(in alloc; "the rules do not read {text} as the config of {kind}")?;
    trail.tell_at("config", DocRefusal::WrongShape, sentence)
}
