//! A document with many faults, whose lines are told by their places.
use crate::sights::rows::KINDS;
use scene::Limits;
use scene_basics::Basics;
use scene_basics::lines::name;
use scene_sight::{check, fault_json, fault_line, spots_of};
use std::alloc::{AllocError, Global};
use std::test::Fail;

/// Six faults on four lines.
const SIX: &str =
    "{\"next\":1,\n\"entities\":[{\"id\":0,\"parts\":{\"pso\":1,\"owner\":7}},{\"parts\":{}}],\n\"frames\":-1,\n\"systems\":[{\"kind\":\"decay\",\"name\":\"dec\"},{\"kind\":\"pul\",\"after\":[\"dek\"]}]}";

/// The lines of a document's faults in the order in which they are listed.
fn lines_of(alloc: Global, document: &str, json: bool) -> Result<String, AllocError> {
    let bytes = document.as_bytes();
    let faults = check(alloc, &Basics, Limits::FULL, &KINDS, bytes)?;
    let spots = spots_of(alloc, bytes, &faults)?;
    let mut text = String::new(alloc);
    for (fault, spot) in faults.iter().zip(spots.iter()) {
        let refusal = name(fault.refusal);
        let line = if json {
            fault_json(alloc, "six.json", refusal, fault, *spot)?
        } else {
            fault_line(alloc, "six.json", refusal, fault, *spot)?
        };
        text.push_str(line.as_str())?;
        text.push_str("\n")?;
    }
    Ok(text)
}

const LINES: &str =
    "six.json:2:30: entities[0].parts.pso: UnknownKind: the rules have no part \"pso\": \"pos\" is the nearest
six.json:2:50: entities[1]: WrongShape: the key \"id\" is missing, which has a whole number from 0 to 18446744073709551615
six.json:4:43: systems[1].kind: UnknownSystem: the rules have no system \"pul\": \"pull\" is the nearest
six.json:3:1: frames: WrongShape: -1 is not a whole number from 0 to 18446744073709551615
six.json:2:38: entities[0].parts.owner: Dangling: there is no entity 7: list it, or name one that is listed
six.json:4:65: systems[1].after[0]: UnknownDependency: no earlier entry has the name \"dek\": \"dec\" is the nearest
";

#[test]
fn every_fault_has_its_line(rt: HostRuntime) -> Result<(), Fail> {
    let lines = lines_of(rt.alloc(), SIX, false)?;
    assert_eq!(rt; lines.as_str(), LINES);
    Ok(())
}

#[test]
fn a_fault_is_a_json_in_one_line(rt: HostRuntime) -> Result<(), Fail> {
    let lines = lines_of(rt.alloc(), "{\"next\":0,\"entities\":[],\"a b\":1}", true)?;
    let wanted =
        "{\"column\":25,\"file\":\"six.json\",\"line\":1,\"path\":\"[\\\"a b\\\"]\",\"refusal\":\"WrongShape\",\"sentence\":\"no key \\\"a b\\\" stands here: there is next, entities, globals, systems, frames, commands, workers, store\"}\n";
    assert_eq!(rt; lines.as_str(), wanted);
    Ok(())
}

#[test]
fn a_document_that_is_loaded_shows_nothing(rt: HostRuntime) -> Result<(), Fail> {
    let document =
        "{\"next\":2,\"entities\":[{\"id\":0,\"parts\":{\"hp\":11,\"pos\":5,\"vel\":2}},{\"id\":1,\"parts\":{\"hp\":1,\"owner\":0}}],\"globals\":{\"g\":1},\"systems\":[{\"kind\":\"decay\",\"name\":\"d\"},{\"kind\":\"pull\"},{\"barrier\":true},{\"kind\":\"drift\"},{\"kind\":\"reap\",\"after\":[\"d\"]},{\"kind\":\"bud\",\"local\":true}],\"frames\":2,\"commands\":[[{\"put\":{\"id\":1,\"kind\":\"pos\",\"value\":7}}],[{\"spawn\":{\"owner\":0,\"vel\":3}}]],\"workers\":2,\"store\":\"dense\"}";
    let lines = lines_of(rt.alloc(), document, false)?;
    assert_eq!(rt; lines.as_str(), "");
    Ok(())
}
