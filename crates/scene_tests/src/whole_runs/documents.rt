//! What a run in a world answers to each document of the rows.
use crate::whole_runs::alone::drift_in_memory;
use crate::whole_runs::rows::{Cause, ROWS, Row, Told, Under};
use crate::whole_runs::watched::Watched;
use scene::{Counted, RunError, run_with};
use scene_cases::commands::Owning;
use scene_cases::turns::Drifting;
use scene_document::Limits;
use scene_model::{FrameRefusal, Report, Skip};
use std::alloc::AllocError;
use std::sync::Wait;
use std::test::Fail;
use std::thread::Threads;

const WORKERS: [u32; 4] = [0, 1, 2, 8];

const STORES: [&str; 4] = ["vec", "dense", "hash", "btree"];

/// Why a frame was refused, of the causes that the rows speak of.
fn cause_of(refusal: &FrameRefusal) -> Cause {
    match refusal {
        FrameRefusal::System(place, text) if text.as_str() == "halted" => Cause::Halted(*place),
        FrameRefusal::GoneReference(id) => Cause::Gone(*id),
        FrameRefusal::IdsSpent => Cause::Ids,
        FrameRefusal::IndicesSpent => Cause::Indices,
        FrameRefusal::GenerationsSpent => Cause::Generations,
        FrameRefusal::TooManyCommands => Cause::Commands,
        _ => Cause::Other,
    }
}

/// What is told of a run.
fn told(outcome: &Result<Report, RunError>) -> Told {
    match outcome {
        Ok(report) => match &report.refused {
            None => Told::Done(report.frames),
            Some((frame, cause)) => Told::Refused(report.frames, *frame, cause_of(cause)),
        },
        Err(RunError::Document(refusal)) => Told::NoDocument(*refusal),
        Err(_) => Told::Failed,
    }
}

/// Whether these are the skipped commands of a run.
fn are_skipped(outcome: &Result<Report, RunError>, skips: &[Skip]) -> bool {
    match outcome {
        Ok(report) => report.skips.as_slice() == skips,
        Err(_) => skips.is_empty(),
    }
}

/// Whether a row comes out as it says, with so many workers and in the store of this name.
fn holds<H: AllocGlobal + Threads + Wait + Sync>(
    rt: &H,
    row: &Row,
    workers: u32,
    store: &str,
) -> Result<bool, AllocError> {
    let limits = row.limits;
    if limits.indices > 16_777_216 || limits.generation < 1 || limits.commands > 1_048_576 {
        return Ok(false);
    }
    let open = row.document;
    let document = format!(in rt.alloc(); "{open},\"workers\":{workers},\"store\":\"{store}\"}}")?;
    let mut reader = Counted::new(document.as_bytes());
    let mut out = Counted::new(Vec::new(rt.alloc()));
    let outcome = match row.rules {
        Under::Drifting => run_with(rt, Drifting, limits, &mut reader, &mut out),
        Under::Owning => run_with(rt, Owning, limits, &mut reader, &mut out),
        Under::Watched => run_with(rt, Watched, limits, &mut reader, &mut out),
    };
    Ok(
        told(&outcome) == row.told
            && are_skipped(&outcome, row.skips)
            && out.get_ref().as_slice() == row.text.as_bytes(),
    )
}

/// The workers and the store with which a row doesn't come out as it says.
fn wrong_in<H: AllocGlobal + Threads + Wait + Sync>(
    rt: &H,
    row: &Row,
) -> Result<Option<(u32, &'static str)>, AllocError> {
    let mut wrong = None;
    for workers in WORKERS {
        for store in STORES {
            if !holds(rt, row, workers, store)? {
                wrong = Some((workers, store));
            }
        }
    }
    Ok(wrong)
}

#[test]
fn documents_run_in_worlds(rt: HostRuntime) -> Result<(), Fail> {
    let mut wrong = None;
    for row in &ROWS {
        if let Some(place) = wrong_in(&rt, row)? {
            wrong = Some((row.name, place));
        }
    }
    assert_eq!(rt; wrong, None);
    Ok(())
}

/// Whether a document of drift alone comes to its text, from memory to memory.
fn drifts_in_memory<H: AllocGlobal + Threads + Wait + Sync>(rt: &H) -> bool {
    let document =
        "{\"next\":1,\"entities\":[{\"id\":0,\"parts\":{\"pos\":5,\"vel\":2}}],\"systems\":[{\"kind\":\"drift\"}],\"frames\":4,\"workers\":2}";
    let text =
        "{\"entities\":[{\"id\":0,\"parts\":{\"pos\":13,\"vel\":2}}],\"globals\":{},\"next\":1}";
    match drift_in_memory(rt, document.as_bytes()) {
        Ok((report, written)) => report.frames == 4 && written.as_slice() == text.as_bytes(),
        Err(_) => false,
    }
}

#[test]
fn drift_alone_moves_on_in_each_frame(rt: HostRuntime) {
    assert!(rt; drifts_in_memory(&rt));
}
