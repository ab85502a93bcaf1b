//! What a document is to do: the plan of its systems, and how many frames.
use crate::pictures::{Plan, PlanSystem};
use crate::turning::json_of;
use scene_document::{DocumentDraft, EntryDraft, Limits, LoadError, SystemDraft, read_document};
use scene_model::DocumentRules;
use shred_plan::{Adding, Planner};
use smallvec::SmallVec;
use std::alloc::{AllocError, Global};

/// What a document is to do.
#[derive(Drop)]
pub struct Outline {
    /// Its systems in the order in which they run.
    pub plan: Plan,
    /// The plan of the staged ones as `print_par_seq` gives it: a line for each stage, of their places among the entries, from 1.
    pub text: String,
    /// How many frames it asks for.
    pub frames: u32,
}

/// What a system is lent: the parts of a kind, or a global.
#[derive(Clone, Copy, PartialEq, Eq, PartialOrd, Ord)]
enum Resource {
    Parts(&'static str),
    Value(&'static str),
}

/// The outline of the document in these bytes.
///
/// Errors: `Document` with the least refusal that stands; `Memory`.
pub fn outline_of<R: DocumentRules>(
    alloc: Global,
    rules: &R,
    limits: Limits,
    bytes: &[u8],
) -> Result<Outline, LoadError> {
    let value = json_of(alloc, bytes)?;
    let draft = read_document(alloc, rules, limits, &value)?;
    let outline = outlined(alloc, &draft)?;
    Ok(outline)
}

fn outlined<D, G, S>(
    alloc: Global,
    draft: &DocumentDraft<'_, D, G, S>,
) -> Result<Outline, AllocError> {
    let planner = planner_of(alloc, &draft.entries)?;
    let text = planner.print_par_seq(alloc)?;
    let mut systems = Vec::new(alloc);
    push_staged(alloc, &planner, &draft.entries, &mut systems)?;
    push_locals(alloc, &planner, &draft.entries, &mut systems)?;
    Ok(Outline {
        plan: Plan { systems },
        text,
        frames: draft.frames,
    })
}

/// The plan of the staged systems among entries, each by its place. Errors: want of memory.
fn planner_of<S>(
    alloc: Global,
    entries: &[EntryDraft<'_, S>],
) -> Result<Planner<Resource>, AllocError> {
    let mut planner = Planner::new(alloc);
    let mut place: u32 = 0;
    for entry in entries {
        place = place.saturating_add(1);
        match entry {
            EntryDraft::Barrier => planner.add_barrier(),
            EntryDraft::System(system) => if !system.local {
                add_staged(alloc, &mut planner, entries, place, system)?;
            },
        }
    }
    Ok(planner)
}

/// Adds the system at a place to a plan, if it is made.
fn add_staged<S>(
    alloc: Global,
    planner: &mut Planner<Resource>,
    entries: &[EntryDraft<'_, S>],
    place: u32,
    system: &SystemDraft<'_, S>,
) -> Result<(), AllocError> {
    let Some(made) = &system.made else {
        return Ok(());
    };
    let access = &made.accessor;
    let reads = resources(alloc, &access.reads, &access.read_globals)?;
    let writes = resources(alloc, &access.writes, &access.written_globals)?;
    let mut after: SmallVec<u32, 4> = SmallVec::new(alloc);
    for other in places_of(alloc, entries, &system.after)? {
        after.push(other)?;
    }
    planner.add(Adding::new(place, reads, writes, after, made.time))?;
    Ok(())
}

fn resources(
    alloc: Global,
    kinds: &[&'static str],
    globals: &[&'static str],
) -> Result<Vec<Resource>, AllocError> {
    let mut found = Vec::new(alloc);
    for kind in kinds {
        found.push(Resource::Parts(*kind))?;
    }
    for name in globals {
        found.push(Resource::Value(*name))?;
    }
    Ok(found)
}

/// The places of the systems of these names.
fn places_of<S>(
    alloc: Global,
    entries: &[EntryDraft<'_, S>],
    names: &[&str],
) -> Result<Vec<u32>, AllocError> {
    let mut places = Vec::new(alloc);
    for name in names {
        if let Some(place) = place_named(entries, *name) {
            places.push(place)?;
        }
    }
    Ok(places)
}

/// The place of the first system of a name, from 1.
fn place_named<S>(entries: &[EntryDraft<'_, S>], name: &str) -> Option<u32> {
    let mut place: u32 = 0;
    for entry in entries {
        place = place.saturating_add(1);
        if let EntryDraft::System(system) = entry {
            if system.name == name {
                return Some(place);
            }
        }
    }
    None
}

/// The system at a place, if one stands there.
fn system_at<'a, 'b, S>(
    entries: &'b [EntryDraft<'a, S>],
    place: u32,
) -> Option<&'b SystemDraft<'a, S>> {
    if place == 0 {
        return None;
    }
    match entries.get(place as usize - 1) {
        Some(EntryDraft::System(system)) => Some(system),
        _ => None,
    }
}

/// Where a system stands in a plan that is drawn.
#[derive(Clone, Copy)]
struct Spot {
    place: u32,
    stage: u32,
    group: u32,
}

/// Puts the staged systems behind others, in the order of the plan.
fn push_staged<S>(
    alloc: Global,
    planner: &Planner<Resource>,
    entries: &[EntryDraft<'_, S>],
    systems: &mut Vec<PlanSystem>,
) -> Result<(), AllocError> {
    let mut spot = Spot {
        place: 0,
        stage: 0,
        group: 0,
    };
    for stage in planner.stages() {
        spot.group = 0;
        for group in stage.groups() {
            for adding in group.systems() {
                spot.place = adding.number();
                push_system(alloc, entries, spot, systems)?;
            }
            spot.group = spot.group.saturating_add(1);
        }
        spot.stage = spot.stage.saturating_add(1);
    }
    Ok(())
}

/// Puts the local systems behind others, in a stage behind all those of the plan.
fn push_locals<S>(
    alloc: Global,
    planner: &Planner<Resource>,
    entries: &[EntryDraft<'_, S>],
    systems: &mut Vec<PlanSystem>,
) -> Result<(), AllocError> {
    let mut stage: u32 = 0;
    for _ in planner.stages() {
        stage = stage.saturating_add(1);
    }
    let mut place: u32 = 0;
    for entry in entries {
        place = place.saturating_add(1);
        if let EntryDraft::System(system) = entry {
            if system.local {
                let spot = Spot {
                    place,
                    stage,
                    group: 0,
                };
                push_system(alloc, entries, spot, systems)?;
            }
        }
    }
    Ok(())
}

/// Puts the system of a spot behind others, if one stands there and is made.
fn push_system<S>(
    alloc: Global,
    entries: &[EntryDraft<'_, S>],
    spot: Spot,
    systems: &mut Vec<PlanSystem>,
) -> Result<(), AllocError> {
    let Some(system) = system_at(entries, spot.place) else {
        return Ok(());
    };
    let Some(made) = &system.made else {
        return Ok(());
    };
    let access = &made.accessor;
    systems.push(PlanSystem {
        place: spot.place,
        kind: String::from_str(alloc, system.kind)?,
        name: String::from_str(alloc, system.name)?,
        stage: spot.stage,
        group: spot.group,
        units: made.time.units(),
        local: system.local,
        reads: words_of(alloc, &access.reads, &access.read_globals)?,
        writes: words_of(alloc, &access.writes, &access.written_globals)?,
        after: places_of(alloc, entries, &system.after)?,
    })?;
    Ok(())
}

/// What kinds of parts and globals are called.
fn words_of(
    alloc: Global,
    kinds: &[&'static str],
    globals: &[&'static str],
) -> Result<Vec<String>, AllocError> {
    let mut words = Vec::new(alloc);
    for kind in kinds {
        words.push(String::from_str(alloc, *kind)?)?;
    }
    for name in globals {
        words.push(format!(in alloc; "global {name}")?)?;
    }
    Ok(words)
}
