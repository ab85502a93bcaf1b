//! A run at once, and one that is printed, put back and run on.
ghost use Rattle.std.specs.Prelude.{◌≡◌, IfOk};
ghost use Rattle.serde_json.specs.View.{view};
ghost use Rattle.scene.specs.Limits.{AreLimits};
ghost use Rattle.scene_basics.specs.Systems.{basics};
ghost use Rattle.scene.specs.Resumed.{GoesOn};

use scene::laws::{Course, ResumeError, run_in_parts};
use scene::{DocRefusal, Limits, LoadError};
use scene_basics::Basics;
use scene_basics::laws::a_turn_has_one_outcome;
use scene_document::{JsonError, read_json};
use serde_json::Value;
use std::alloc::Global;
use std::sync::Wait;
use std::thread::Threads;

/// Both texts of a run under the program's rules: they are one where the documents go on so.
fn texts<H: AllocGlobal + Threads + Wait + Sync>(
    rt: &H,
    limits: Limits,
    whole: &Value,
    first: &Value,
    rest: Course,
) -> Result<(Vec<u8>, Vec<u8>), ResumeError>
    requires { AreLimits limits }
    ensures { IfOk result (λ texts.
        GoesOn basics limits.indices (view whole.now) (view first.now) (view rest.systems) (view rest.frames) (view rest.commands)
        → texts.0.items ≡ texts.1.items) }
{
    a_turn_has_one_outcome();
    run_in_parts(rt, Basics, limits, whole, first, rest)
}

/// What is to come of a run in parts: the text of both, or why there is none.
#[derive(Clone, Copy)]
enum End {
    Text(&'static str),
    Refused,
    NoDocument(DocRefusal),
}

/// A document, the one of its first frames, and what goes on after them.
struct Row {
    name: &'static str,
    whole: &'static str,
    first: &'static str,
    systems: &'static str,
    frames: &'static str,
    commands: &'static str,
    end: End,
}

const ROWS: [Row; 5] = [
    Row {
        name: "a spawn and a take in the second part",
        whole: "{\"next\":2,\"entities\":[{\"id\":0,\"parts\":{\"pos\":1,\"vel\":2}},{\"id\":1,\"parts\":{\"owner\":0}}],\"systems\":[{\"kind\":\"drift\"}],\"frames\":3,\"commands\":[[],[{\"spawn\":{\"pos\":10,\"vel\":-1}}],[{\"take\":{\"id\":1,\"kind\":\"owner\"}}]]}",
        first: "{\"next\":2,\"entities\":[{\"id\":0,\"parts\":{\"pos\":1,\"vel\":2}},{\"id\":1,\"parts\":{\"owner\":0}}],\"systems\":[{\"kind\":\"drift\"}],\"frames\":1,\"commands\":[[],[{\"spawn\":{\"pos\":10,\"vel\":-1}}],[{\"take\":{\"id\":1,\"kind\":\"owner\"}}]]}",
        systems: "[{\"kind\":\"drift\"}]",
        frames: "2",
        commands: "[[{\"spawn\":{\"pos\":10,\"vel\":-1}}],[{\"take\":{\"id\":1,\"kind\":\"owner\"}}]]",
        end: End::Text(
            "{\"entities\":[{\"id\":0,\"parts\":{\"pos\":7,\"vel\":2}},{\"id\":1,\"parts\":{}},{\"id\":2,\"parts\":{\"pos\":9,\"vel\":-1}}],\"globals\":{},\"next\":3}",
        ),
    },
    Row {
        name: "a refused frame in the second part",
        whole: "{\"next\":2,\"entities\":[{\"id\":0,\"parts\":{\"pos\":1,\"vel\":2}},{\"id\":1,\"parts\":{\"owner\":0}}],\"systems\":[{\"kind\":\"drift\"}],\"frames\":3,\"commands\":[[],[{\"kill\":0}]]}",
        first: "{\"next\":2,\"entities\":[{\"id\":0,\"parts\":{\"pos\":1,\"vel\":2}},{\"id\":1,\"parts\":{\"owner\":0}}],\"systems\":[{\"kind\":\"drift\"}],\"frames\":1,\"commands\":[[],[{\"kill\":0}]]}",
        systems: "[{\"kind\":\"drift\"}]",
        frames: "2",
        commands: "[[{\"kill\":0}]]",
        end: End::Text(
            "{\"entities\":[{\"id\":0,\"parts\":{\"pos\":3,\"vel\":2}},{\"id\":1,\"parts\":{\"owner\":0}}],\"globals\":{},\"next\":2}",
        ),
    },
    Row {
        name: "no frame in the first part, and a global",
        whole: "{\"next\":1,\"entities\":[{\"id\":0,\"parts\":{\"pos\":0,\"vel\":5}}],\"globals\":{\"g\":-3},\"systems\":[{\"kind\":\"pull\",\"name\":\"p\"},{\"kind\":\"drift\",\"after\":[\"p\"]}],\"frames\":2}",
        first: "{\"next\":1,\"entities\":[{\"id\":0,\"parts\":{\"pos\":0,\"vel\":5}}],\"globals\":{\"g\":-3},\"systems\":[{\"kind\":\"pull\",\"name\":\"p\"},{\"kind\":\"drift\",\"after\":[\"p\"]}]}",
        systems: "[{\"kind\":\"pull\",\"name\":\"p\"},{\"kind\":\"drift\",\"after\":[\"p\"]}]",
        frames: "2",
        commands: "[]",
        end: End::Text(
            "{\"entities\":[{\"id\":0,\"parts\":{\"pos\":1,\"vel\":-1}}],\"globals\":{\"g\":-3},\"next\":1}",
        ),
    },
    Row {
        name: "a refused frame in the first part",
        whole: "{\"next\":2,\"entities\":[{\"id\":0,\"parts\":{}},{\"id\":1,\"parts\":{\"owner\":0}}],\"frames\":3,\"commands\":[[{\"kill\":0}]]}",
        first: "{\"next\":2,\"entities\":[{\"id\":0,\"parts\":{}},{\"id\":1,\"parts\":{\"owner\":0}}],\"frames\":1,\"commands\":[[{\"kill\":0}]]}",
        systems: "[]",
        frames: "2",
        commands: "[]",
        end: End::Refused,
    },
    Row {
        name: "what goes on has no shape",
        whole: "{\"next\":0,\"entities\":[],\"frames\":2}",
        first: "{\"next\":0,\"entities\":[],\"frames\":1}",
        systems: "[]",
        frames: "\"one\"",
        commands: "[]",
        end: End::NoDocument(DocRefusal::WrongShape),
    },
];

/// The JSON of a text of a row.
fn json(alloc: Global, text: &str) -> Result<Value, ResumeError> {
    match read_json(alloc, text.as_bytes()) {
        Ok(value) => Ok(value),
        Err(JsonError::Unreadable) => Err(ResumeError::Load(LoadError::Document(
            DocRefusal::Unreadable,
        ))),
        Err(JsonError::Memory) => Err(ResumeError::Memory),
    }
}

/// Both texts of a row.
fn texts_of<H: AllocGlobal + Threads + Wait + Sync>(
    rt: &H,
    row: &Row,
) -> Result<(Vec<u8>, Vec<u8>), ResumeError> {
    let alloc = rt.alloc();
    let whole = json(alloc, row.whole)?;
    let first = json(alloc, row.first)?;
    let rest = Course {
        systems: json(alloc, row.systems)?,
        frames: json(alloc, row.frames)?,
        commands: json(alloc, row.commands)?,
    };
    texts(rt, Limits::FULL, &whole, &first, rest)
}

/// Whether a row ends as it says.
fn holds<H: AllocGlobal + Threads + Wait + Sync>(rt: &H, row: &Row) -> bool {
    match (row.end, texts_of(rt, row)) {
        (End::Text(text), Ok((at_once, in_parts))) => {
            at_once.as_slice() == text.as_bytes() && in_parts.as_slice() == text.as_bytes()
        }
        (End::Refused, Err(error)) => error == ResumeError::Refused,
        (End::NoDocument(refusal), Err(error)) => {
            error == ResumeError::Load(LoadError::Document(refusal))
        }
        _ => false,
    }
}

#[test]
fn frames_put_back_and_run_on_are_all_frames(rt: HostRuntime) {
    let mut wrong = None;
    for row in ROWS.as_slice() {
        if !holds(&rt, row) {
            wrong = Some(row.name);
        }
    }
    assert_eq!(rt; wrong, None);
}
