//! A small document for each refusal, with the fault that stands in it.
use crate::sights::rows::{Row, has_only};
use crate::whole_runs::Watched;
use scene::DocRefusal;
use scene_basics::Basics;
use std::alloc::{AllocError, Global};
use std::test::Fail;

/// Documents under the program's rules.
const SMALL: [(&str, Row); 13] = [
    (
        "{\"next\":0",
        Row {
            refusal: DocRefusal::Unreadable,
            path: "document",
            line: 1,
            column: 10,
            says: "no JSON",
        },
    ),
    (
        "{\"next\":1.5,\"entities\":[]}",
        Row {
            refusal: DocRefusal::NotWhole,
            path: "next",
            line: 1,
            column: 2,
            says: "1.5",
        },
    ),
    (
        "{\"next\":0,\"entities\":[],\"x\":1}",
        Row {
            refusal: DocRefusal::WrongShape,
            path: "x",
            line: 1,
            column: 25,
            says: "no key \"x\"",
        },
    ),
    (
        "{\"next\":0,\"entities\":[],\"commands\":[[{\"put\":{\"id\":0,\"kind\":\"mana\",\"value\":1}}]]}",
        Row {
            refusal: DocRefusal::UnknownKind,
            path: "commands[0][0].put.kind",
            line: 1,
            column: 53,
            says: "there is bond, hp, owner, pos, vel",
        },
    ),
    (
        "{\"next\":1,\"entities\":[{\"id\":0,\"parts\":{}},{\"id\":0,\"parts\":{}}]}",
        Row {
            refusal: DocRefusal::DoubleId,
            path: "entities[1].id",
            line: 1,
            column: 44,
            says: "already at entities[0]",
        },
    ),
    (
        "{\"next\":3,\"entities\":[{\"id\":3,\"parts\":{}}]}",
        Row {
            refusal: DocRefusal::IdNotBelowNext,
            path: "entities[0].id",
            line: 1,
            column: 24,
            says: "the id 3 is not below next, which is 3",
        },
    ),
    (
        "{\"next\":1,\"entities\":[{\"id\":0,\"parts\":{\"owner\":5}}]}",
        Row {
            refusal: DocRefusal::Dangling,
            path: "entities[0].parts.owner",
            line: 1,
            column: 40,
            says: "there is no entity 5",
        },
    ),
    (
        "{\"next\":0,\"entities\":[],\"systems\":[{\"kind\":\"eat\"}]}",
        Row {
            refusal: DocRefusal::UnknownSystem,
            path: "systems[0].kind",
            line: 1,
            column: 37,
            says: "no system \"eat\"",
        },
    ),
    (
        "{\"next\":0,\"entities\":[],\"systems\":[{\"kind\":\"drift\",\"name\":\"a\"},{\"kind\":\"decay\",\"name\":\"a\"}]}",
        Row {
            refusal: DocRefusal::NameTaken,
            path: "systems[1].name",
            line: 1,
            column: 80,
            says: "already at systems[0]",
        },
    ),
    (
        "{\"next\":0,\"entities\":[],\"systems\":[{\"kind\":\"decay\",\"after\":[\"z\"]}]}",
        Row {
            refusal: DocRefusal::UnknownDependency,
            path: "systems[0].after[0]",
            line: 1,
            column: 61,
            says: "no earlier entry has the name \"z\"",
        },
    ),
    (
        "{\"next\":0,\"entities\":[],\"systems\":[{\"kind\":\"pull\"}]}",
        Row {
            refusal: DocRefusal::MissingGlobal,
            path: "systems[0]",
            line: 1,
            column: 36,
            says: "\"pull\" reads the global \"g\"",
        },
    ),
    (
        "{\"next\":0,\"entities\":[],\"workers\":65}",
        Row {
            refusal: DocRefusal::TooManyWorkers,
            path: "workers",
            line: 1,
            column: 25,
            says: "65",
        },
    ),
    (
        "{\"next\":0,\"entities\":[],\"store\":\"heap\"}",
        Row {
            refusal: DocRefusal::UnknownStore,
            path: "store",
            line: 1,
            column: 25,
            says: "vec, dense, hash, btree",
        },
    ),
];

#[test]
fn small_documents_show_their_faults(rt: HostRuntime) -> Result<(), Fail> {
    let mut wrong = None;
    for index in 0..SMALL.len() {
        let (document, row) = &SMALL[index];
        if !has_only(rt.alloc(), &Basics, 16_777_216, *document, row)? {
            wrong = Some(index);
        }
    }
    assert_eq!(rt; wrong, None);
    Ok(())
}

/// A document whose system would write entities.
const FOUND: &str = "{\"next\":0,\"entities\":[],\"systems\":[{\"kind\":\"found\"}],\"frames\":1}";

#[test]
fn a_system_that_would_write_entities_is_shown(rt: HostRuntime) -> Result<(), Fail> {
    let row = Row {
        refusal: DocRefusal::ReservedWrite,
        path: "systems[0]",
        line: 1,
        column: 36,
        says: "\"found\" writes entities or markers",
    };
    let found = has_only(rt.alloc(), &Watched, 16_777_216, FOUND, &row)?;
    assert!(rt; found);
    Ok(())
}

/// Three entities.
const THREE: &str =
    "{\"next\":3,\"entities\":[{\"id\":0,\"parts\":{}},{\"id\":1,\"parts\":{}},{\"id\":2,\"parts\":{}}]}";

#[test]
fn more_entities_than_the_limit_are_shown(rt: HostRuntime) -> Result<(), Fail> {
    let row = Row {
        refusal: DocRefusal::TooManyEntities,
        path: "entities",
        line: 1,
        column: 11,
        says: "there are 3 of them, and 2 is the most",
    };
    let found = has_only(rt.alloc(), &Basics, 2, THREE, &row)?;
    assert!(rt; found);
    Ok(())
}

/// A document of many barriers.
fn barriers(alloc: Global, count: u32) -> Result<String, AllocError> {
    let mut text = String::from_str(
        alloc,
        "{\"next\":0,\"entities\":[],\"systems\":[{\"barrier\":true}",
    )?;
    for _ in 1..count {
        text.push_str(",{\"barrier\":true}")?;
    }
    text.push_str("]}")?;
    Ok(text)
}

#[test]
fn more_systems_than_the_limit_are_shown(rt: HostRuntime) -> Result<(), Fail> {
    let document = barriers(rt.alloc(), 4_097)?;
    let row = Row {
        refusal: DocRefusal::TooManySystems,
        path: "systems",
        line: 1,
        column: 25,
        says: "there are 4097 of them, and 4096 is the most",
    };
    let found = has_only(rt.alloc(), &Basics, 16_777_216, document.as_str(), &row)?;
    assert!(rt; found);
    Ok(())
}
