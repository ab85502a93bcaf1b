//! What a document says of ids, references, names and globals, and the faults that show when all of it is known.
use crate::trail::Trail;
use crate::words::{choices, nearest, quoted};
use scene_model::{DocRefusal, SystemAccess};
use std::alloc::{AllocError, Global};
use std::collections::{BTreeMap, BTreeSet};

/// A reference of a part: the place of its entity, the kind of the part, and the id that it names.
#[derive(Clone, Copy, Debug)]
pub(crate) struct Reference<'a> {
    pub(crate) entity: usize,
    pub(crate) kind: &'a str,
    pub(crate) id: u64,
}

/// A system as far as it was read.
#[derive(Drop)]
pub(crate) struct Seen<'a> {
    pub(crate) place: usize,
    pub(crate) kind: &'a str,
    pub(crate) name: &'a str,
    /// The names that it comes after, each with its place in the list of them.
    pub(crate) after: Vec<(usize, &'a str)>,
    pub(crate) access: Option<SystemAccess>,
}

/// What was read of a document.
#[derive(Drop)]
pub(crate) struct Notes<'a> {
    /// The place of each entity whose id was read, with the id.
    pub(crate) ids: Vec<(usize, u64)>,
    pub(crate) references: Vec<Reference<'a>>,
    pub(crate) systems: Vec<Seen<'a>>,
    pub(crate) globals: BTreeSet<&'a str>,
}

impl<'a> Notes<'a> {
    pub(crate) fn new(alloc: Global) -> Notes<'a> {
        Notes {
            ids: Vec::new(alloc),
            references: Vec::new(alloc),
            systems: Vec::new(alloc),
            globals: BTreeSet::new(alloc),
        }
    }
}

/// Tells each entity whose id stands earlier, and gives the first place of each id.
pub(crate) fn tell_double_ids(
    trail: &mut Trail<'_>,
    ids: &[(usize, u64)],
) -> Result<BTreeMap<u64, usize>, AllocError> {
    let alloc = trail.alloc;
    let mut first: BTreeMap<u64, usize> = BTreeMap::new(alloc);
    for pair in ids {
        let (place, id) = *pair;
        match first.get(&id) {
            Some(other) => {
                let other = *other;
                let sentence = format!(in alloc;
                    "the id {id} stands already at entities[{other}]"
                )?;
                tell_entity(trail, place, "id", DocRefusal::DoubleId, sentence)?;
            }
            None => {
                first.insert(id, place)?;
            }
        }
    }
    Ok(first)
}

/// Tells each entity whose id is not below the next one.
pub(crate) fn tell_ids_past_next(
    trail: &mut Trail<'_>,
    ids: &[(usize, u64)],
    next: u64,
) -> Result<(), AllocError> {
    let alloc = trail.alloc;
    for pair in ids {
        let (place, id) = *pair;
        if id >= next {
            let sentence = format!(in alloc;
                "the id {id} is not below next, which is {next}: raise next above the greatest id"
            )?;
            tell_entity(trail, place, "id", DocRefusal::IdNotBelowNext, sentence)?;
        }
    }
    Ok(())
}

/// Tells a fault under a key of an entity.
fn tell_entity<'a>(
    trail: &mut Trail<'a>,
    place: usize,
    key: &'a str,
    refusal: DocRefusal,
    sentence: String,
) -> Result<(), AllocError> {
    trail.enter("entities")?;
    trail.enter_item(place)?;
    trail.tell_at(key, refusal, sentence)?;
    trail.leave();
    trail.leave();
    Ok(())
}

/// Tells each reference to an id that no entity has.
pub(crate) fn tell_dangling<'a>(
    trail: &mut Trail<'a>,
    references: &[Reference<'a>],
    first: &BTreeMap<u64, usize>,
) -> Result<(), AllocError> {
    let alloc = trail.alloc;
    for reference in references {
        if !first.contains_key(&reference.id) {
            let id = reference.id;
            let sentence = format!(in alloc;
                "there is no entity {id}: list it, or name one that is listed"
            )?;
            trail.enter("entities")?;
            trail.enter_item(reference.entity)?;
            trail.enter("parts")?;
            trail.tell_at(reference.kind, DocRefusal::Dangling, sentence)?;
            trail.leave();
            trail.leave();
            trail.leave();
        }
    }
    Ok(())
}

/// Tells each system whose name an earlier one has, and gives the first place of each name that is not empty.
pub(crate) fn tell_taken_names<'a>(
    trail: &mut Trail<'a>,
    systems: &[Seen<'a>],
) -> Result<BTreeMap<&'a str, usize>, AllocError> {
    let alloc = trail.alloc;
    let mut first: BTreeMap<&'a str, usize> = BTreeMap::new(alloc);
    for system in systems {
        if system.name.is_empty() {
            continue;
        }
        match first.get(&system.name) {
            Some(other) => {
                let other = *other;
                let name = quoted(alloc, system.name)?;
                let sentence = format!(in alloc;
                    "the name {name} stands already at systems[{other}]"
                )?;
                trail.enter("systems")?;
                trail.enter_item(system.place)?;
                trail.tell_at("name", DocRefusal::NameTaken, sentence)?;
                trail.leave();
                trail.leave();
            }
            None => {
                first.insert(system.name, system.place)?;
            }
        }
    }
    Ok(first)
}

/// Tells each name that a system comes after and that no earlier one has.
pub(crate) fn tell_unknown_dependencies<'a>(
    trail: &mut Trail<'a>,
    systems: &[Seen<'a>],
    first: &BTreeMap<&'a str, usize>,
) -> Result<(), AllocError> {
    for system in systems {
        for pair in &system.after {
            let (index, name) = *pair;
            match first.get(&name) {
                Some(place) if *place < system.place => {}
                Some(place) => {
                    let sentence = later_sentence(trail.alloc, name, *place)?;
                    tell_after(trail, system.place, index, sentence)?;
                }
                None => {
                    let sentence = unknown_sentence(trail.alloc, name, systems)?;
                    tell_after(trail, system.place, index, sentence)?;
                }
            }
        }
    }
    Ok(())
}

fn tell_after(
    trail: &mut Trail<'_>,
    place: usize,
    index: usize,
    sentence: String,
) -> Result<(), AllocError> {
    trail.enter("systems")?;
    trail.enter_item(place)?;
    trail.enter("after")?;
    trail.tell_item(index, DocRefusal::UnknownDependency, sentence)?;
    trail.leave();
    trail.leave();
    trail.leave();
    Ok(())
}

fn later_sentence(alloc: Global, name: &str, place: usize) -> Result<String, AllocError> {
    let name = quoted(alloc, name)?;
    format!(in alloc;
        "the name {name} stands at systems[{place}], which is no earlier entry: put that one first"
    )
}

fn unknown_sentence(alloc: Global, name: &str, systems: &[Seen<'_>]) -> Result<String, AllocError> {
    if name.is_empty() {
        return String::from_str(alloc, "no system can come after the empty name");
    }
    let shown = quoted(alloc, name)?;
    let mut names = Vec::new(alloc);
    for system in systems.iter().take(64) {
        if !system.name.is_empty() {
            names.push(system.name)?;
        }
    }
    match nearest(alloc, name, &names)? {
        Some(known) => format!(in alloc;
            "no earlier entry has the name {shown}: {known:?} is the nearest"
        ),
        None => format!(in alloc; "no earlier entry has the name {shown}"),
    }
}

/// Tells each system that declares a global which the document lacks, or a write to entities or markers.
pub(crate) fn tell_declared(
    trail: &mut Trail<'_>,
    systems: &[Seen<'_>],
    globals: &BTreeSet<&str>,
) -> Result<(), AllocError> {
    for system in systems {
        if let Some(access) = &system.access {
            tell_missing_globals(trail, system, &access.read_globals, globals, "reads")?;
            tell_missing_globals(trail, system, &access.written_globals, globals, "writes")?;
            if access.writes_reserved {
                tell_reserved(trail, system)?;
            }
        }
    }
    Ok(())
}

fn tell_missing_globals(
    trail: &mut Trail<'_>,
    system: &Seen<'_>,
    wanted: &[&'static str],
    globals: &BTreeSet<&str>,
    does: &str,
) -> Result<(), AllocError> {
    let alloc = trail.alloc;
    for name in wanted {
        if !globals.contains(*name) {
            let kind = quoted(alloc, system.kind)?;
            let sentence = format!(in alloc;
                "the system {kind} {does} the global {name:?}, which the document lacks: give globals a value for it"
            )?;
            tell_system(trail, system.place, DocRefusal::MissingGlobal, sentence)?;
        }
    }
    Ok(())
}

fn tell_reserved(trail: &mut Trail<'_>, system: &Seen<'_>) -> Result<(), AllocError> {
    let alloc = trail.alloc;
    let kind = quoted(alloc, system.kind)?;
    let sentence = format!(in alloc;
        "the system {kind} writes entities or markers: the rules have to be mended, births and deaths are asked for by commands"
    )?;
    tell_system(trail, system.place, DocRefusal::ReservedWrite, sentence)
}

fn tell_system(
    trail: &mut Trail<'_>,
    place: usize,
    refusal: DocRefusal,
    sentence: String,
) -> Result<(), AllocError> {
    trail.enter("systems")?;
    trail.tell_item(place, refusal, sentence)?;
    trail.leave();
    Ok(())
}

/// Tells a kind of system that the rules have not, which stands where the trail is.
pub(crate) fn tell_unknown_system(
    trail: &mut Trail<'_>,
    kind: &str,
    kinds: &[&str],
) -> Result<(), AllocError> {
    let alloc = trail.alloc;
    let name = quoted(alloc, kind)?;
    let sentence = match nearest(alloc, kind, kinds)? {
        Some(known) => format!(in alloc;
            "the rules have no system {name}: {known:?} is the nearest"
        )?,
        None => {
            let all = choices(alloc, kinds)?;
            format!(in alloc; "the rules have no system {name}: {all}")?
        }
    };
    trail.tell_at("kind", DocRefusal::UnknownSystem, sentence)
}
