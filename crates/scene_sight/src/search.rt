//! The search for the faults of a JSON.
use crate::entities::{see_entities, see_globals};
use crate::entries::see_entries;
use crate::faults::Fault;
use crate::fields::{
    WHOLE, has_key, list_under, members_under, tell_other_keys, tell_shape, text_under, whole_under,
};
use crate::floats::tell_floats;
use crate::meaning::{
    Notes, tell_dangling, tell_declared, tell_double_ids, tell_ids_past_next, tell_taken_names,
    tell_unknown_dependencies,
};
use crate::orders::see_commands;
use crate::trail::Trail;
use crate::words::{advice, quoted};
use scene_document::Limits;
use scene_model::{DocRefusal, DocumentRules, Store};
use serde_json::{Map, Value};
use std::alloc::{AllocError, Global};

/// The keys of a document.
const KEYS: [&str; 8] = [
    "next", "entities", "globals", "systems", "frames", "commands", "workers", "store",
];

/// The kinds of store.
const STORES: [&str; 4] = ["vec", "dense", "hash", "btree"];

/// The faults of a JSON, those of one kind after those of another.
///
/// Errors: want of memory.
pub(crate) fn faults_of<R: DocumentRules>(
    alloc: Global,
    rules: &R,
    limits: Limits,
    kinds: &[&str],
    value: &Value,
) -> Result<Vec<Fault>, AllocError> {
    let mut trail = Trail::new(alloc);
    tell_floats(&mut trail, value)?;
    match value.as_object() {
        Some(members) => see_document(&mut trail, rules, limits, kinds, value, members)?,
        None => tell_shape(
            &mut trail,
            value,
            "a document: an object with next and entities",
        )?,
    }
    Ok(trail.into_faults())
}

fn see_document<'a, R: DocumentRules>(
    trail: &mut Trail<'a>,
    rules: &R,
    limits: Limits,
    kinds: &[&str],
    value: &'a Value,
    members: &'a Map<String, Value>,
) -> Result<(), AllocError> {
    tell_other_keys(trail, members, &KEYS)?;
    let mut notes = Notes::new(trail.alloc);
    see_rows(trail, rules, limits, value, &mut notes)?;
    see_systems(trail, rules, kinds, value, &mut notes)?;
    if let Some(lists) = list_under(trail, value, "commands")? {
        see_commands(trail, rules, lists)?;
    }
    see_numbers(trail, value)?;
    see_meaning(trail, value, &notes)
}

/// Tells the faults of the entities and globals.
fn see_rows<'a, R: DocumentRules>(
    trail: &mut Trail<'a>,
    rules: &R,
    limits: Limits,
    value: &'a Value,
    notes: &mut Notes<'a>,
) -> Result<(), AllocError> {
    if has_key(trail, value, "entities", "a list of entities")? {
        if let Some(entities) = list_under(trail, value, "entities")? {
            see_entities(trail, rules, entities, notes)?;
            tell_count(
                trail,
                "entities",
                entities.len(),
                limits.indices as usize,
                DocRefusal::TooManyEntities,
            )?;
        }
    }
    if let Some(globals) = members_under(trail, value, "globals")? {
        see_globals(trail, rules, globals, notes)?;
    }
    Ok(())
}

/// Tells the faults of the list of systems.
fn see_systems<'a, R: DocumentRules>(
    trail: &mut Trail<'a>,
    rules: &R,
    kinds: &[&str],
    value: &'a Value,
    notes: &mut Notes<'a>,
) -> Result<(), AllocError> {
    if let Some(entries) = list_under(trail, value, "systems")? {
        see_entries(trail, rules, kinds, entries, notes)?;
        tell_count(
            trail,
            "systems",
            entries.len(),
            4_096,
            DocRefusal::TooManySystems,
        )?;
    }
    Ok(())
}

/// Tells a list that has more items than it may have.
fn tell_count(
    trail: &mut Trail<'_>,
    key: &'static str,
    count: usize,
    most: usize,
    refusal: DocRefusal,
) -> Result<(), AllocError> {
    if count <= most {
        return Ok(());
    }
    let alloc = trail.alloc;
    trail.tell_at(
        key,
        refusal,
        format!(in alloc; "there are {count} of them, and {most} is the most")?,
    )
}

/// Tells the faults of the numbers of a document and of its store.
fn see_numbers<'a>(trail: &mut Trail<'a>, value: &'a Value) -> Result<(), AllocError> {
    let alloc = trail.alloc;
    if let Some(frames) = whole_under(trail, value, "frames")? {
        if frames > 4_294_967_295 {
            let sentence = format!(in alloc;
                "{frames} is not a whole number from 0 to 4294967295"
            )?;
            trail.tell_at("frames", DocRefusal::WrongShape, sentence)?;
        }
    }
    if let Some(workers) = whole_under(trail, value, "workers")? {
        if workers > 64 {
            let sentence = format!(in alloc;
                "{workers} workers are asked for, and 64 is the most"
            )?;
            trail.tell_at("workers", DocRefusal::TooManyWorkers, sentence)?;
        }
    }
    if let Some(store) = text_under(trail, value, "store")? {
        if Store::named(store).is_none() {
            let name = quoted(alloc, store)?;
            let advice = advice(alloc, store, &STORES)?;
            let sentence = format!(in alloc; "there is no store {name}: {advice}")?;
            trail.tell_at("store", DocRefusal::UnknownStore, sentence)?;
        }
    }
    Ok(())
}

/// Tells the faults that show when all ids, names and globals are known.
fn see_meaning<'a>(
    trail: &mut Trail<'a>,
    value: &'a Value,
    notes: &Notes<'a>,
) -> Result<(), AllocError> {
    let first = tell_double_ids(trail, &notes.ids)?;
    if has_key(trail, value, "next", WHOLE)? {
        if let Some(next) = whole_under(trail, value, "next")? {
            tell_ids_past_next(trail, &notes.ids, next)?;
        }
    }
    tell_dangling(trail, &notes.references, &first)?;
    let named = tell_taken_names(trail, &notes.systems)?;
    tell_unknown_dependencies(trail, &notes.systems, &named)?;
    tell_declared(trail, &notes.systems, &notes.globals)
}
