//! The entities, parts and globals of a document.
use crate::fields::{
    WHOLE, has_key, is_known, members_under, tell_other_keys, tell_shape, whole_under,
};
use crate::meaning::{Notes, Reference};
use crate::trail::Trail;
use crate::words::{advice, quoted, shown};
use scene_document::has_float;
use scene_model::{DocRefusal, DocumentRules, ReadError};
use serde_json::{Map, Value};
use std::alloc::AllocError;

/// Tells the faults of entities, and notes their ids and references.
pub(crate) fn see_entities<'a, R: DocumentRules>(
    trail: &mut Trail<'a>,
    rules: &R,
    entities: &'a [Value],
    notes: &mut Notes<'a>,
) -> Result<(), AllocError> {
    trail.enter("entities")?;
    let mut place = 0usize;
    for entity in entities {
        trail.enter_item(place)?;
        see_entity(trail, rules, place, entity, notes)?;
        trail.leave();
        place = place.saturating_add(1);
    }
    trail.leave();
    Ok(())
}

fn see_entity<'a, R: DocumentRules>(
    trail: &mut Trail<'a>,
    rules: &R,
    place: usize,
    entity: &'a Value,
    notes: &mut Notes<'a>,
) -> Result<(), AllocError> {
    let Some(members) = entity.as_object() else {
        return tell_shape(trail, entity, "an entity: an object with id and parts");
    };
    tell_other_keys(trail, members, &["id", "parts"])?;
    if has_key(trail, entity, "id", WHOLE)? {
        if let Some(id) = whole_under(trail, entity, "id")? {
            notes.ids.push((place, id))?;
        }
    }
    if has_key(trail, entity, "parts", "an object of parts by their kinds")? {
        if let Some(parts) = members_under(trail, entity, "parts")? {
            trail.enter("parts")?;
            see_parts(trail, rules, place, parts, notes)?;
            trail.leave();
        }
    }
    Ok(())
}

fn see_parts<'a, R: DocumentRules>(
    trail: &mut Trail<'a>,
    rules: &R,
    entity: usize,
    parts: &'a Map<String, Value>,
    notes: &mut Notes<'a>,
) -> Result<(), AllocError> {
    for (kind, value) in parts {
        trail.enter(kind.as_str())?;
        let datum = see_part(trail, rules, kind.as_str(), value)?;
        trail.leave();
        if let Some(datum) = datum {
            note_references(trail, rules, entity, kind.as_str(), &datum, notes)?;
        }
    }
    Ok(())
}

fn note_references<'a, R: DocumentRules>(
    trail: &Trail<'a>,
    rules: &R,
    entity: usize,
    kind: &'a str,
    datum: &R::Data,
    notes: &mut Notes<'a>,
) -> Result<(), AllocError> {
    let ids = rules.refs(trail.alloc, datum)?;
    for id in ids {
        notes.references.push(Reference { entity, kind, id })?;
    }
    Ok(())
}

/// The datum of a part, which stands where the trail is; what the rules do not know or do not read is told.
pub(crate) fn see_part<R: DocumentRules>(
    trail: &mut Trail<'_>,
    rules: &R,
    kind: &str,
    value: &Value,
) -> Result<Option<R::Data>, AllocError> {
    let kinds = rules.part_names();
    if !is_known(kinds, kind) {
        tell_unknown_part(trail, kind, kinds)?;
        return Ok(None);
    }
    match rules.read_data(trail.alloc, kind, value) {
        Ok(datum) => Ok(Some(datum)),
        Err(ReadError::Shape) => {
            tell_unread(trail, value, kind)?;
            Ok(None)
        }
        Err(ReadError::Memory) => Err(AllocError),
    }
}

/// Tells a part kind that the rules have not, at its place.
pub(crate) fn tell_unknown_part(
    trail: &mut Trail<'_>,
    kind: &str,
    kinds: &[&str],
) -> Result<(), AllocError> {
    let alloc = trail.alloc;
    let name = quoted(alloc, kind)?;
    let advice = advice(alloc, kind, kinds)?;
    trail.tell(
        DocRefusal::UnknownKind,
        format!(in alloc; "the rules have no part {name}: {advice}")?,
    )
}

/// Tells that the rules do not read a value under a name. A float in it is told as such already.
fn tell_unread(trail: &mut Trail<'_>, value: &Value, name: &str) -> Result<(), AllocError> {
    if has_float(value) {
        return Ok(());
    }
    let alloc = trail.alloc;
    let text = shown(alloc, value)?;
    trail.tell(
        DocRefusal::WrongShape,
        format!(in alloc; "the rules do not read {text} as {name:?}")?,
    )
}

/// Tells the faults of globals, and notes which of them are given.
pub(crate) fn see_globals<'a, R: DocumentRules>(
    trail: &mut Trail<'a>,
    rules: &R,
    globals: &'a Map<String, Value>,
    notes: &mut Notes<'a>,
) -> Result<(), AllocError> {
    trail.enter("globals")?;
    for (name, value) in globals {
        trail.enter(name.as_str())?;
        see_global(trail, rules, name.as_str(), value)?;
        trail.leave();
        notes.globals.insert(name.as_str())?;
    }
    trail.leave();
    Ok(())
}

fn see_global<R: DocumentRules>(
    trail: &mut Trail<'_>,
    rules: &R,
    name: &str,
    value: &Value,
) -> Result<(), AllocError> {
    let names = rules.global_names();
    let alloc = trail.alloc;
    if !is_known(names, name) {
        let quoted = quoted(alloc, name)?;
        let advice = advice(alloc, name, names)?;
        let sentence = format!(in alloc; "the rules have no global {quoted}: {advice}")?;
        return trail.tell(DocRefusal::UnknownKind, sentence);
    }
    match rules.read_global(alloc, name, value) {
        Ok(_) => Ok(()),
        Err(ReadError::Shape) => tell_unread(trail, value, name),
        Err(ReadError::Memory) => Err(AllocError),
    }
}
