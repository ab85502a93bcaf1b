//! Want of memory or of a thread is an ordinary answer: the tests run with each allocation, and each start of a thread, refused in turn,
//! and apart from that with ample means.
use crate::whole_runs::rows::Under;
use crate::whole_runs::watched::Watched;
use scene::{Counted, RunError, run};
use scene_cases::commands::Owning;
use scene_cases::turns::Drifting;
use scene_model::{FrameRefusal, Report};
use std::alloc::{AllocError, Global};
use std::sync::Wait;
use std::thread::Threads;

/// A document, and the text after each number of its frames, from none to all.
struct Course {
    name: &'static str,
    rules: Under,
    document: &'static str,
    texts: &'static [&'static str],
}

/// What two frames of drift with a birth between them lead through.
const DRIFTS: [&str; 3] = [
    "{\"entities\":[{\"id\":0,\"parts\":{\"pos\":5,\"vel\":2}}],\"globals\":{},\"next\":1}",
    "{\"entities\":[{\"id\":0,\"parts\":{\"pos\":7,\"vel\":2}},{\"id\":1,\"parts\":{\"pos\":1,\"vel\":3}}],\"globals\":{},\"next\":2}",
    "{\"entities\":[{\"id\":0,\"parts\":{\"pos\":9,\"vel\":2}},{\"id\":1,\"parts\":{\"pos\":4,\"vel\":3}}],\"globals\":{},\"next\":2}",
];

const COURSES: [Course; 3] = [
    Course {
        name: "drift, one worker",
        rules: Under::Drifting,
        document: "{\"next\":1,\"entities\":[{\"id\":0,\"parts\":{\"pos\":5,\"vel\":2}}],\"systems\":[{\"kind\":\"drift\"}],\"frames\":2,\"commands\":[[{\"spawn\":{\"pos\":1,\"vel\":3}}]]}",
        texts: &DRIFTS,
    },
    Course {
        name: "drift beside those who watch, two workers",
        rules: Under::Watched,
        document: "{\"next\":1,\"entities\":[{\"id\":0,\"parts\":{\"pos\":5,\"vel\":2}}],\"systems\":[{\"kind\":\"watch\"},{\"kind\":\"drift\"},{\"kind\":\"watch\"}],\"frames\":2,\"commands\":[[{\"spawn\":{\"pos\":1,\"vel\":3}}]],\"workers\":2,\"store\":\"hash\"}",
        texts: &DRIFTS,
    },
    Course {
        name: "owners, with a global and a skip",
        rules: Under::Owning,
        document: "{\"next\":2,\"entities\":[{\"id\":0,\"parts\":{\"rank\":3}},{\"id\":1,\"parts\":{\"owner\":0}}],\"globals\":{\"era\":9},\"frames\":3,\"commands\":[[{\"spawn\":{\"owner\":1,\"rank\":4}},{\"kill\":7}],[{\"take\":{\"id\":1,\"kind\":\"owner\"}},{\"kill\":0}],[{\"put\":{\"id\":2,\"kind\":\"owner\",\"value\":2}}]],\"store\":\"btree\"}",
        texts: &[
            "{\"entities\":[{\"id\":0,\"parts\":{\"rank\":3}},{\"id\":1,\"parts\":{\"owner\":0}}],\"globals\":{\"era\":9},\"next\":2}",
            "{\"entities\":[{\"id\":0,\"parts\":{\"rank\":3}},{\"id\":1,\"parts\":{\"owner\":0}},{\"id\":2,\"parts\":{\"owner\":1,\"rank\":4}}],\"globals\":{\"era\":9},\"next\":3}",
            "{\"entities\":[{\"id\":1,\"parts\":{}},{\"id\":2,\"parts\":{\"owner\":1,\"rank\":4}}],\"globals\":{\"era\":9},\"next\":3}",
            "{\"entities\":[{\"id\":1,\"parts\":{}},{\"id\":2,\"parts\":{\"owner\":2,\"rank\":4}}],\"globals\":{\"era\":9},\"next\":3}",
        ],
    },
];

/// Whether a report is of all frames, or tells that the frame after the accepted ones wanted memory or a thread.
fn is_of_its_frames(report: &Report, frames: usize) -> bool {
    match &report.refused {
        None => report.frames as usize == frames,
        Some((frame, FrameRefusal::Memory | FrameRefusal::Threads)) => {
            *frame == report.frames.saturating_add(1)
        }
        Some(_) => false,
    }
}

/// Whether a run gives a report with the text of its frames, or tells that memory was wanting and writes nothing.
fn answers_by_name<H: AllocGlobal + Threads + Wait + Sync>(
    rt: &H,
    course: &Course,
    room: Vec<u8>,
) -> bool {
    let mut reader = Counted::new(course.document.as_bytes());
    let mut out = Counted::new(room);
    let outcome = match course.rules {
        Under::Drifting => run(rt, Drifting, &mut reader, &mut out),
        Under::Owning => run(rt, Owning, &mut reader, &mut out),
        Under::Watched => run(rt, Watched, &mut reader, &mut out),
    };
    match outcome {
        Ok(report) => {
            let text = course
                .texts
                .get(report.frames as usize)
                .copied()
                .unwrap_or("");
            is_of_its_frames(&report, course.texts.len().saturating_sub(1))
                && out.get_ref().as_slice() == text.as_bytes()
        }
        Err(RunError::Memory) => out.get_ref().is_empty(),
        Err(_) => false,
    }
}

#[test]
fn want_is_an_answer(rt: HostRuntime) {
    let mut wrong = None;
    for course in &COURSES {
        if let Ok(room) = Vec::with_capacity(rt.alloc(), 4096) {
            if !answers_by_name(&rt, course, room) {
                wrong = Some(course.name);
            }
        }
    }
    assert_eq!(rt; wrong, None);
}

/// One who drifts beside two who watch, over fifty frames, with a worker for each.
const FIFTY: &str =
    "{\"next\":1,\"entities\":[{\"id\":0,\"parts\":{\"pos\":0,\"vel\":2}}],\"systems\":[{\"kind\":\"watch\"},{\"kind\":\"drift\"},{\"kind\":\"watch\"}],\"frames\":50,\"workers\":3}";

/// The text of the scene after some of the fifty frames.
fn text_after(alloc: Global, frames: u32) -> Result<String, AllocError> {
    let pos = frames.saturating_mul(2);
    format!(in alloc;
        "{{\"entities\":[{{\"id\":0,\"parts\":{{\"pos\":{pos},\"vel\":2}}}}],\"globals\":{{}},\"next\":1}}"
    )
}

/// Whether the fifty frames give a report with the text of those that were accepted, or tell that memory was wanting
/// and write nothing.
fn fifty_are_answered<H: AllocGlobal + Threads + Wait + Sync>(rt: &H) -> Result<bool, AllocError> {
    let mut reader = Counted::new(FIFTY.as_bytes());
    let mut out = Counted::new(Vec::with_capacity(rt.alloc(), 4096)?);
    match run(rt, Watched, &mut reader, &mut out) {
        Ok(report) => {
            let text = text_after(rt.alloc(), report.frames)?;
            Ok(is_of_its_frames(&report, 50) && out.get_ref().as_slice() == text.as_bytes())
        }
        Err(RunError::Memory) => Ok(out.get_ref().is_empty()),
        Err(_) => Ok(false),
    }
}

// Where a worker of the crew can't be started, each frame starts its own, so that one refused start costs no frame.
#[test]
fn fifty_frames_are_an_answer(rt: HostRuntime) {
    assert!(rt; fifty_are_answered(&rt) != Ok(false));
}
