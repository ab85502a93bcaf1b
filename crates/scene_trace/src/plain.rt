//! Scenes as plain maps.
use scene_document::DocumentDraft;
use scene_model::DocumentRules;
use serde_json::Value;
use std::alloc::{AllocError, Global};
use std::collections::BTreeMap;

/// A part: what is written for it, and the ids to which it refers.
#[derive(Clone, Drop, PartialEq)]
pub struct Part {
    pub value: Value,
    pub refs: Vec<u64>,
}

/// The parts of an entity under their kinds.
pub type Parts = BTreeMap<&'static str, Part>;

/// A scene: the next id, the parts of each entity under its id, and what is written for each global under its name.
#[derive(Clone, Drop, PartialEq)]
pub struct Plain {
    pub next: u64,
    pub entities: BTreeMap<u64, Parts>,
    pub globals: BTreeMap<&'static str, Value>,
}

/// The part that a datum is.
pub(crate) fn part_of<R: DocumentRules>(
    alloc: Global,
    rules: &R,
    datum: &R::Data,
) -> Result<Part, AllocError> {
    let value = rules.write_data(alloc, datum)?;
    let refs = rules.refs(alloc, datum)?;
    Ok(Part { value, refs })
}

fn parts_of<R: DocumentRules>(
    alloc: Global,
    rules: &R,
    found: &[Option<(usize, R::Data)>],
) -> Result<Parts, AllocError> {
    let names = rules.part_names();
    let mut parts = BTreeMap::new(alloc);
    for one in found {
        if let Some((place, datum)) = one {
            if let Some(kind) = names.get(*place) {
                let part = part_of(alloc, rules, datum)?;
                drop(parts.insert(*kind, part)?);
            }
        }
    }
    Ok(parts)
}

fn globals_of<R: DocumentRules>(
    alloc: Global,
    rules: &R,
    found: &[Option<(usize, R::Global)>],
) -> Result<BTreeMap<&'static str, Value>, AllocError> {
    let names = rules.global_names();
    let mut globals = BTreeMap::new(alloc);
    for one in found {
        if let Some((place, global)) = one {
            if let Some(name) = names.get(*place) {
                let value = rules.write_global(alloc, global)?;
                drop(globals.insert(*name, value)?);
            }
        }
    }
    Ok(globals)
}

/// The scene of a document before any frame.
pub(crate) fn plain_of<R: DocumentRules>(
    alloc: Global,
    rules: &R,
    draft: &DocumentDraft<'_, R::Data, R::Global, R::System>,
) -> Result<Plain, AllocError> {
    let mut entities = BTreeMap::new(alloc);
    for entity in &draft.entities {
        let parts = parts_of(alloc, rules, &entity.parts)?;
        drop(entities.insert(entity.id, parts)?);
    }
    Ok(Plain {
        next: draft.next,
        entities,
        globals: globals_of(alloc, rules, &draft.globals)?,
    })
}
