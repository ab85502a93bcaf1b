//! Documents that are put into worlds, and what is read of these, the same in each store.
use scene_cases::commands::course::Answer::{Done, Gone, Nobody, Nothing, Number};
use scene_cases::commands::course::Step::{Kill, Own, OwnerOf, RankOf, Spawn};
use scene_cases::commands::course::{Answer, Step, runs};
use scene_cases::commands::{Datum, Idle, Owning, Value, world_of};
use scene_commands::load_world;
use scene_document::{DocumentDraft, EntityDraft, Limits, LoadError};
use scene_model::DocRefusal;
use scene_world::{Store, WorldRules};
use serde_json::Value as Json;
use shred_world::World;
use std::alloc::{AllocError, Global};

/// An entity of a document: its id, its owner and its rank, where they are given.
type Listed = (u64, Option<u64>, Option<u64>);

/// A document with this next id, these entities and this era, and what is asked of its world.
struct Row {
    name: &'static str,
    next: u64,
    entities: &'static [Listed],
    era: Option<u64>,
    course: &'static [(Step, Answer)],
}

const ROWS: [Row; 4] = [
    Row {
        name: "nobody",
        next: 5,
        entities: &[],
        era: Some(1800),
        course: &[
            (RankOf(5), Nobody),
            (Spawn(None, Some(2)), Done),
            (RankOf(5), Number(2)),
        ],
    },
    Row {
        name: "two that belong to each other",
        next: 9,
        entities: &[(7, Some(3), Some(1)), (3, Some(7), Some(2))],
        era: None,
        course: &[
            (OwnerOf(7), Number(3)),
            (RankOf(7), Number(1)),
            (OwnerOf(3), Number(7)),
            (RankOf(3), Number(2)),
            (RankOf(0), Nobody),
            (RankOf(9), Nobody),
            (Spawn(Some(7), None), Done),
            (OwnerOf(9), Number(7)),
            (Kill(3), Done),
            (OwnerOf(7), Gone),
            (Own(7, 9), Done),
            (OwnerOf(7), Number(9)),
        ],
    },
    Row {
        name: "one that belongs to itself, and one without parts",
        next: 2,
        entities: &[(0, Some(0), None), (1, None, None)],
        era: Some(0),
        course: &[
            (OwnerOf(0), Number(0)),
            (RankOf(0), Nothing),
            (OwnerOf(1), Nothing),
            (RankOf(1), Nothing),
            (Kill(0), Done),
            (RankOf(1), Nothing),
        ],
    },
    Row {
        name: "the greatest id that one can have",
        next: 18_446_744_073_709_551_615,
        entities: &[
            (18_446_744_073_709_551_614, None, Some(4)),
            (6, Some(18_446_744_073_709_551_614), None),
        ],
        era: Some(18_446_744_073_709_551_615),
        course: &[
            (RankOf(18_446_744_073_709_551_614), Number(4)),
            (OwnerOf(6), Number(18_446_744_073_709_551_614)),
            (OwnerOf(18_446_744_073_709_551_614), Nothing),
        ],
    },
];

/// An entity of a draft. Errors: want of memory.
fn entity_of(listed: Listed, alloc: Global) -> Result<EntityDraft<Datum>, AllocError> {
    let mut parts = Vec::new(alloc);
    if let Some(owner) = listed.1 {
        parts.push(Some((0, Datum::OwnedBy(owner))))?;
    }
    if let Some(rank) = listed.2 {
        parts.push(Some((1, Datum::Ranked(rank))))?;
    }
    Ok(EntityDraft {
        id: listed.0,
        parts,
    })
}

/// The draft of a row. Errors: want of memory.
fn draft_of(
    row: &Row,
    alloc: Global,
) -> Result<DocumentDraft<'static, Datum, u64, Idle>, AllocError> {
    let mut entities = Vec::new(alloc);
    for listed in row.entities {
        entities.push(entity_of(*listed, alloc)?)?;
    }
    let mut globals = Vec::new(alloc);
    if let Some(era) = row.era {
        globals.push(Some((0, era)))?;
    }
    Ok(DocumentDraft {
        next: row.next,
        entities,
        globals,
        entries: Vec::new(alloc),
        frames: 0,
        commands: Vec::new(alloc),
        workers: 1,
        store: Some(Store::Vec),
    })
}

/// The era of a world, if it has one.
fn era_of(world: &World<Value>) -> Option<u64> {
    let value = world.get_raw(Owning::global_id("era"))?;
    Owning::as_global("era", value).copied()
}

const STORES: [Store; 4] = [Store::Vec, Store::Dense, Store::Hash, Store::BTree];

/// Whether the world of a row is what it says, in a store. Errors: want of memory.
fn holds(row: &Row, store: Store, alloc: Global) -> Result<bool, AllocError> {
    let draft = draft_of(row, alloc)?;
    let limits = (16_777_216, 2_147_483_647);
    let mut world = load_world(&Owning, store, limits, &draft, alloc)?;
    Ok(era_of(&world) == row.era && runs(&mut world, row.course, alloc))
}

#[test]
fn the_world_of_a_document_is_what_it_says(rt: HostRuntime) {
    let mut wrong = None;
    for row in &ROWS {
        for store in STORES {
            if holds(row, store, rt.alloc()) != Ok(true) {
                wrong = Some((row.name, store));
            }
        }
    }
    assert_eq!(rt; wrong, None);
}

/// The text of a document, the refusal that stands against it, if one does, and what is asked of its world.
struct Text {
    name: &'static str,
    text: &'static str,
    refusal: Option<DocRefusal>,
    course: &'static [(Step, Answer)],
}

const TEXTS: [Text; 4] = [
    Text {
        name: "two that belong to each other",
        text: "{\"next\":9,\"entities\":[{\"id\":7,\"parts\":{\"owner\":3,\"rank\":1}},{\"id\":3,\"parts\":{\"owner\":7}}],\"frames\":0}",
        refusal: None,
        course: &[
            (OwnerOf(7), Number(3)),
            (RankOf(7), Number(1)),
            (OwnerOf(3), Number(7)),
            (RankOf(3), Nothing),
            (Spawn(None, None), Done),
            (RankOf(9), Nothing),
        ],
    },
    Text {
        name: "a reference to nobody",
        text: "{\"next\":9,\"entities\":[{\"id\":7,\"parts\":{\"owner\":3}}],\"frames\":0}",
        refusal: Some(DocRefusal::Dangling),
        course: &[],
    },
    Text {
        name: "an id that stands twice",
        text: "{\"next\":9,\"entities\":[{\"id\":7,\"parts\":{}},{\"id\":7,\"parts\":{}}],\"frames\":0}",
        refusal: Some(DocRefusal::DoubleId),
        course: &[],
    },
    Text {
        name: "an id that is the next one",
        text: "{\"next\":7,\"entities\":[{\"id\":7,\"parts\":{}}],\"frames\":0}",
        refusal: Some(DocRefusal::IdNotBelowNext),
        course: &[],
    },
];

/// Whether the world of a text is what it says, in a store, or is refused as it says. Errors: want of memory.
fn reads(row: &Text, store: Store, alloc: Global) -> Result<bool, AllocError> {
    let Ok(json) = Json::from_slice(alloc, row.text.as_bytes()) else {
        return Ok(false);
    };
    let limits = Limits {
        indices: 16_777_216,
        generation: 2_147_483_647,
        commands: 0,
    };
    match world_of(&Owning, limits, &json, store, alloc) {
        Ok(mut world) => Ok(row.refusal.is_none() && runs(&mut world, row.course, alloc)),
        Err(LoadError::Document(found)) => Ok(row.refusal == Some(found)),
        Err(LoadError::Memory) => Err(AllocError),
    }
}

#[test]
fn the_world_of_a_text_is_what_it_says(rt: HostRuntime) {
    let mut wrong = None;
    for row in &TEXTS {
        for store in STORES {
            if reads(row, store, rt.alloc()) != Ok(true) {
                wrong = Some((row.name, store));
            }
        }
    }
    assert_eq!(rt; wrong, None);
}
