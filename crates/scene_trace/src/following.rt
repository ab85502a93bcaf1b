//! What the systems of a frame changed, and what its commands did.
use crate::acting::Acting;
use crate::events::{Actor, Change, Deed, GlobalChange};
use crate::plain::{Part, Parts, Plain};
use scene_model::{Command, Queue};
use scene_world::Rules;
use serde_json::Value;
use std::alloc::{AllocError, Global};
use std::collections::BTreeMap;

/// What the commands of a frame did, up to a spawn that found no id left: its place, and who asked for it.
#[derive(Drop)]
pub(crate) struct Deeds {
    pub(crate) deeds: Vec<Deed>,
    pub(crate) spent: Option<(u32, Actor)>,
}

/// Follows the commands of one behind the others. Where a spawn finds no id left it goes no further.
fn follow<R: Rules>(
    acting: &mut Acting<'_, R>,
    actor: Actor,
    commands: &[Command<R::Data>],
    place: u32,
    all: &mut Deeds,
) -> Result<u32, AllocError> {
    let mut place = place;
    for command in commands {
        if all.spent.is_some() {
            return Ok(place);
        }
        place = place.saturating_add(1);
        match acting.act(place, actor, command)? {
            Some(act) => all.deeds.push(Deed { place, actor, act })?,
            None => all.spent = Some((place, actor)),
        }
    }
    Ok(place)
}

/// What the commands of a frame do: those of the document, and then those that wait in queues.
pub(crate) fn follow_all<R: Rules>(
    alloc: Global,
    acting: &mut Acting<'_, R>,
    given: &[Command<R::Data>],
    queues: &[(u32, Queue<R::Data>)],
) -> Result<Deeds, AllocError> {
    let mut all = Deeds {
        deeds: Vec::new(alloc),
        spent: None,
    };
    let mut place = follow(acting, Actor::Document, given, 0, &mut all)?;
    for (system, queue) in queues {
        let actor = Actor::System(*system);
        place = follow(acting, actor, queue.as_slice(), place, &mut all)?;
    }
    Ok(all)
}

fn part_copied(part: Option<&Part>) -> Result<Option<Part>, AllocError> {
    match part {
        Some(part) => Ok(Some(part.clone()?)),
        None => Ok(None),
    }
}

fn value_copied(value: Option<&Value>) -> Result<Option<Value>, AllocError> {
    match value {
        Some(value) => Ok(Some(value.clone()?)),
        None => Ok(None),
    }
}

fn is_same<T: PartialEq>(one: Option<&T>, other: Option<&T>) -> bool {
    match (one, other) {
        (Some(one), Some(other)) => *one == *other,
        (None, None) => true,
        _ => false,
    }
}

/// Notes what became of the part of a kind, if it is another.
fn note_change(
    changes: &mut Vec<Change>,
    id: u64,
    kind: &'static str,
    before: Option<&Part>,
    after: Option<&Part>,
) -> Result<(), AllocError> {
    if !is_same(before, after) {
        changes.push(Change {
            id,
            kind,
            before: part_copied(before)?,
            after: part_copied(after)?,
        })?;
    }
    Ok(())
}

/// What the systems made of the parts of a scene, whose kinds are these.
pub(crate) fn changes_of(
    alloc: Global,
    kinds: &[&'static str],
    before: &Plain,
    between: &Plain,
) -> Result<Vec<Change>, AllocError> {
    let none: Parts = BTreeMap::new(alloc);
    let mut changes = Vec::new(alloc);
    for (id, parts) in &before.entities {
        let after = between.entities.get(id).unwrap_or(&none);
        for kind in kinds {
            note_change(&mut changes, *id, *kind, parts.get(*kind), after.get(*kind))?;
        }
    }
    Ok(changes)
}

/// What the systems made of the globals of a scene, whose names are these.
pub(crate) fn global_changes_of(
    alloc: Global,
    names: &[&'static str],
    before: &Plain,
    between: &Plain,
) -> Result<Vec<GlobalChange>, AllocError> {
    let mut changes = Vec::new(alloc);
    for name in names {
        let early = before.globals.get(*name);
        let late = between.globals.get(*name);
        if !is_same(early, late) {
            changes.push(GlobalChange {
                name: *name,
                before: value_copied(early)?,
                after: value_copied(late)?,
            })?;
        }
    }
    Ok(changes)
}
