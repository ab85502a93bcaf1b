//! Runs under smaller limits, and the places of skipped commands.
use crate::runs::{STORES, WORKERS};
use scene::{Counted, DocRefusal, FrameRefusal, Limits, Report, RunError, Skip, run, run_with};
use scene_basics::Basics;
use std::alloc::AllocError;
use std::sync::Wait;
use std::test::Fail;
use std::thread::Threads;

/// What is told of a run, of those things that the rows speak of.
#[derive(Clone, Copy, PartialEq)]
enum Told {
    Done,
    TooManyEntities,
    IndicesSpent,
    GenerationsSpent,
    TooManyCommands,
    Another,
}

/// A document but for its closing brace, its limits, what is told of the run, and the text that goes out.
struct Row {
    name: &'static str,
    document: &'static str,
    limits: Limits,
    told: Told,
    text: &'static str,
}

/// Two entities, or three.
const TWO: &str =
    "{\"entities\":[{\"id\":0,\"parts\":{}},{\"id\":1,\"parts\":{}}],\"globals\":{},\"next\":2}";

const THREE: &str =
    "{\"entities\":[{\"id\":0,\"parts\":{}},{\"id\":1,\"parts\":{}},{\"id\":2,\"parts\":{}}],\"globals\":{},\"next\":3}";

/// No more than two indices, so many, or one birth at each.
const TWO_INDICES: Limits = Limits {
    indices: 2,
    generation: 2_147_483_647,
    commands: 1_048_576,
};

const THREE_INDICES: Limits = Limits {
    indices: 3,
    generation: 2_147_483_647,
    commands: 1_048_576,
};

const ONE_GENERATION: Limits = Limits {
    indices: 1,
    generation: 1,
    commands: 1_048_576,
};

const TWO_GENERATIONS: Limits = Limits {
    indices: 1,
    generation: 2,
    commands: 1_048_576,
};

/// One command a frame, or two.
const ONE_COMMAND: Limits = Limits {
    indices: 16_777_216,
    generation: 2_147_483_647,
    commands: 1,
};

const TWO_COMMANDS: Limits = Limits {
    indices: 16_777_216,
    generation: 2_147_483_647,
    commands: 2,
};

const ROWS: [Row; 7] = [
    Row {
        name: "a birth beside two where two is the most",
        document: "{\"next\":2,\"entities\":[{\"id\":0,\"parts\":{}},{\"id\":1,\"parts\":{}}],\"frames\":1,\"commands\":[[{\"spawn\":{}}]]",
        limits: TWO_INDICES,
        told: Told::IndicesSpent,
        text: TWO,
    },
    Row {
        name: "a birth beside two where three is the most",
        document: "{\"next\":2,\"entities\":[{\"id\":0,\"parts\":{}},{\"id\":1,\"parts\":{}}],\"frames\":1,\"commands\":[[{\"spawn\":{}}]]",
        limits: THREE_INDICES,
        told: Told::Done,
        text: THREE,
    },
    Row {
        name: "three that are listed where two is the most",
        document: "{\"next\":3,\"entities\":[{\"id\":0,\"parts\":{}},{\"id\":1,\"parts\":{}},{\"id\":2,\"parts\":{}}],\"frames\":1,\"commands\":[[{\"spawn\":{}}]]",
        limits: TWO_INDICES,
        told: Told::TooManyEntities,
        text: "",
    },
    Row {
        name: "a birth after a death where each index is born once",
        document: "{\"next\":1,\"entities\":[{\"id\":0,\"parts\":{}}],\"frames\":1,\"commands\":[[{\"kill\":0},{\"spawn\":{}}]]",
        limits: ONE_GENERATION,
        told: Told::GenerationsSpent,
        text: "{\"entities\":[{\"id\":0,\"parts\":{}}],\"globals\":{},\"next\":1}",
    },
    Row {
        name: "a birth after a death where each index is born twice",
        document: "{\"next\":1,\"entities\":[{\"id\":0,\"parts\":{}}],\"frames\":1,\"commands\":[[{\"kill\":0},{\"spawn\":{}}]]",
        limits: TWO_GENERATIONS,
        told: Told::Done,
        text: "{\"entities\":[{\"id\":1,\"parts\":{}}],\"globals\":{},\"next\":2}",
    },
    Row {
        name: "two commands where one is the most",
        document: "{\"next\":0,\"entities\":[],\"frames\":1,\"commands\":[[{\"spawn\":{}},{\"spawn\":{}}]]",
        limits: ONE_COMMAND,
        told: Told::TooManyCommands,
        text: "{\"entities\":[],\"globals\":{},\"next\":0}",
    },
    Row {
        name: "two commands where two is the most",
        document: "{\"next\":0,\"entities\":[],\"frames\":1,\"commands\":[[{\"spawn\":{}},{\"spawn\":{}}]]",
        limits: TWO_COMMANDS,
        told: Told::Done,
        text: TWO,
    },
];

/// What is told of a run, where it is of its first frame or of the document.
fn what_is_told(outcome: &Result<Report, RunError>) -> Told {
    match outcome {
        Ok(report) => match &report.refused {
            None => Told::Done,
            Some((1, FrameRefusal::IndicesSpent)) => Told::IndicesSpent,
            Some((1, FrameRefusal::GenerationsSpent)) => Told::GenerationsSpent,
            Some((1, FrameRefusal::TooManyCommands)) => Told::TooManyCommands,
            Some(_) => Told::Another,
        },
        Err(RunError::Document(DocRefusal::TooManyEntities)) => Told::TooManyEntities,
        Err(_) => Told::Another,
    }
}

/// Whether a run of a document tells and writes what a row says.
fn tells<H: AllocGlobal + Threads + Wait + Sync>(rt: &H, document: &str, row: &Row) -> bool {
    let Limits {
        indices,
        generation,
        commands,
    } = row.limits;
    if indices > Limits::FULL.indices || commands > Limits::FULL.commands {
        return false;
    }
    if generation < 1 {
        return false;
    }
    let mut reader = Counted::new(document.as_bytes());
    let mut out = Counted::new(Vec::new(rt.alloc()));
    let outcome = run_with(rt, Basics, row.limits, &mut reader, &mut out);
    what_is_told(&outcome) == row.told && out.get_ref().as_slice() == row.text.as_bytes()
}

/// Whether it does so with each number of workers and in each store.
///
/// Errors: want of memory.
fn holds<H: AllocGlobal + Threads + Wait + Sync>(rt: &H, row: &Row) -> Result<bool, AllocError> {
    let open = row.document;
    let mut same = true;
    for workers in WORKERS {
        for store in STORES {
            let document = format!(in rt.alloc();
                "{open},\"workers\":{workers},\"store\":\"{store}\"}}"
            )?;
            same = tells(rt, document.as_str(), row) && same;
        }
    }
    Ok(same)
}

#[test]
fn limits_are_told_by_name(rt: HostRuntime) -> Result<(), Fail> {
    let mut wrong = None;
    for row in ROWS.as_slice() {
        if !holds(&rt, row)? {
            wrong = Some(row.name);
        }
    }
    assert_eq!(rt; wrong, None);
    Ok(())
}

/// Whether the skips of two frames are told, each by its frame and its place in the frame.
fn skips_are_told<H: AllocGlobal + Threads + Wait + Sync>(rt: &H) -> bool {
    let document =
        "{\"next\":1,\"entities\":[{\"id\":0,\"parts\":{}}],\"frames\":2,\"commands\":[[{\"spawn\":{\"pos\":4}},{\"kill\":0},{\"put\":{\"id\":0,\"kind\":\"pos\",\"value\":9}}],[{\"kill\":0}]]}";
    let mut reader = Counted::new(document.as_bytes());
    let mut out = Counted::new(Vec::new(rt.alloc()));
    let skips = [Skip { frame: 1, place: 3 }, Skip { frame: 2, place: 1 }];
    match run(rt, Basics, &mut reader, &mut out) {
        Ok(report) => {
            report.frames == 2
                && report.refused.is_none()
                && report.skips.as_slice() == skips.as_slice()
        }
        Err(_) => false,
    }
}

#[test]
fn a_skip_is_told_by_frame_and_place(rt: HostRuntime) {
    assert!(rt; skips_are_told(&rt));
}
