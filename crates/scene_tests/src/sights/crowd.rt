//! One fault among 1,000 entities, each of them on a line of its own.
use crate::sights::rows::{Row, has_only};
use scene::DocRefusal;
use scene_basics::Basics;
use std::alloc::{AllocError, Global};
use std::test::Fail;

/// What stands at place 617, what stands behind the entities, and the fault.
#[derive(Drop)]
struct Odd {
    entity: &'static str,
    rest: &'static str,
    row: Row,
}

/// An entity that is well.
const WELL: &str = "{\"id\":617,\"parts\":{\"hp\":10}}";

/// A document of 1,000 entities that refer to the first of them, but for one; entity n stands on line n + 3, and the rest on
/// line 1004.
fn crowd(alloc: Global, entity: &str, rest: &str) -> Result<String, AllocError> {
    let mut text = String::from_str(alloc, "{\"next\":1000,\n\"entities\":[\n")?;
    for id in 0u32..1_000 {
        if id == 617 {
            text.push_str(entity)?;
        } else {
            text.push_str(format!(in alloc;
                "{{\"id\":{id},\"parts\":{{\"hp\":10,\"owner\":0}}}}"
            )?.as_str())?;
        }
        if id < 999 {
            text.push_str(",")?;
        }
        text.push_str("\n")?;
    }
    text.push_str("]\n")?;
    text.push_str(rest)?;
    Ok(text)
}

const ODD: [Odd; 14] = [
    Odd {
        entity: "{\"id\":617,\"parts\":{\"hp\":10}",
        rest: "}",
        row: Row {
            refusal: DocRefusal::Unreadable,
            path: "document",
            line: 621,
            column: 2,
            says: "no JSON",
        },
    },
    Odd {
        entity: "{\"id\":617,\"parts\":{\"hp\":10.5}}",
        rest: "}",
        row: Row {
            refusal: DocRefusal::NotWhole,
            path: "entities[617].parts.hp",
            line: 620,
            column: 20,
            says: "10.5",
        },
    },
    Odd {
        entity: "{\"id\":617,\"parts\":{\"hp\":\"ten\"}}",
        rest: "}",
        row: Row {
            refusal: DocRefusal::WrongShape,
            path: "entities[617].parts.hp",
            line: 620,
            column: 20,
            says: "\"ten\" as \"hp\"",
        },
    },
    Odd {
        entity: "{\"id\":617,\"part\":{},\"parts\":{}}",
        rest: "}",
        row: Row {
            refusal: DocRefusal::WrongShape,
            path: "entities[617].part",
            line: 620,
            column: 11,
            says: "\"parts\" is the nearest",
        },
    },
    Odd {
        entity: "{\"id\":617,\"parts\":{\"hpp\":10}}",
        rest: "}",
        row: Row {
            refusal: DocRefusal::UnknownKind,
            path: "entities[617].parts.hpp",
            line: 620,
            column: 20,
            says: "\"hp\" is the nearest",
        },
    },
    Odd {
        entity: "{\"id\":616,\"parts\":{}}",
        rest: "}",
        row: Row {
            refusal: DocRefusal::DoubleId,
            path: "entities[617].id",
            line: 620,
            column: 2,
            says: "entities[616]",
        },
    },
    Odd {
        entity: "{\"id\":6170,\"parts\":{}}",
        rest: "}",
        row: Row {
            refusal: DocRefusal::IdNotBelowNext,
            path: "entities[617].id",
            line: 620,
            column: 2,
            says: "6170",
        },
    },
    Odd {
        entity: "{\"id\":617,\"parts\":{\"owner\":6170}}",
        rest: "}",
        row: Row {
            refusal: DocRefusal::Dangling,
            path: "entities[617].parts.owner",
            line: 620,
            column: 20,
            says: "there is no entity 6170",
        },
    },
    Odd {
        entity: WELL,
        rest: ",\"systems\":[{\"kind\":\"drft\"}]}",
        row: Row {
            refusal: DocRefusal::UnknownSystem,
            path: "systems[0].kind",
            line: 1004,
            column: 14,
            says: "\"drift\" is the nearest",
        },
    },
    Odd {
        entity: WELL,
        rest: ",\"systems\":[{\"kind\":\"drift\",\"name\":\"a\"},\n{\"kind\":\"decay\",\"name\":\"a\"}]}",
        row: Row {
            refusal: DocRefusal::NameTaken,
            path: "systems[1].name",
            line: 1005,
            column: 17,
            says: "systems[0]",
        },
    },
    Odd {
        entity: WELL,
        rest: ",\"systems\":[{\"kind\":\"decay\",\"after\":[\"b\"]},\n{\"kind\":\"drift\",\"name\":\"b\"}]}",
        row: Row {
            refusal: DocRefusal::UnknownDependency,
            path: "systems[0].after[0]",
            line: 1004,
            column: 38,
            says: "stands at systems[1]",
        },
    },
    Odd {
        entity: WELL,
        rest: ",\"systems\":[{\"kind\":\"pull\"}]}",
        row: Row {
            refusal: DocRefusal::MissingGlobal,
            path: "systems[0]",
            line: 1004,
            column: 13,
            says: "\"g\"",
        },
    },
    Odd {
        entity: WELL,
        rest: ",\"workers\":65}",
        row: Row {
            refusal: DocRefusal::TooManyWorkers,
            path: "workers",
            line: 1004,
            column: 2,
            says: "65",
        },
    },
    Odd {
        entity: WELL,
        rest: ",\"store\":\"dens\"}",
        row: Row {
            refusal: DocRefusal::UnknownStore,
            path: "store",
            line: 1004,
            column: 2,
            says: "\"dense\" is the nearest",
        },
    },
];

#[test]
fn one_fault_in_a_crowd_is_found(rt: HostRuntime) -> Result<(), Fail> {
    let mut wrong = None;
    for index in 0..ODD.len() {
        let odd = &ODD[index];
        let document = crowd(rt.alloc(), odd.entity, odd.rest)?;
        if !has_only(rt.alloc(), &Basics, 16_777_216, document.as_str(), &odd.row)? {
            wrong = Some(index);
        }
    }
    assert_eq!(rt; wrong, None);
    Ok(())
}

#[test]
fn a_crowd_past_the_limit_is_found(rt: HostRuntime) -> Result<(), Fail> {
    let document = crowd(rt.alloc(), WELL, "}")?;
    let row = Row {
        refusal: DocRefusal::TooManyEntities,
        path: "entities",
        line: 2,
        column: 1,
        says: "there are 1000 of them, and 999 is the most",
    };
    let found = has_only(rt.alloc(), &Basics, 999, document.as_str(), &row)?;
    assert!(rt; found);
    Ok(())
}
