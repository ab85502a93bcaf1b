//! Want of memory or of a thread is an ordinary answer: the tests run with each allocation and each start refused in turn, and apart
//! from that with ample memory.
use scene::{Counted, FrameRefusal, Report, RunError, run};
use scene_basics::Basics;
use std::alloc::AllocError;
use std::sync::Wait;
use std::test::Fail;
use std::thread::Threads;

/// A document, and the texts of the scenes before its first frame and after each.
struct Course {
    document: &'static str,
    texts: &'static [&'static str],
}

/// Three frames of a drift; two frames after which an entity that decayed is reaped; a death, a birth and a reference that is put
/// elsewhere; a birth beside an entity that drifts, on two workers.
const COURSES: [Course; 4] = [
    Course {
        document: "{\"next\":2,\"entities\":[{\"id\":0,\"parts\":{\"pos\":5,\"vel\":2}},{\"id\":1,\"parts\":{\"pos\":1}}],\"systems\":[{\"kind\":\"drift\"}],\"frames\":3}",
        texts: &[
            "{\"entities\":[{\"id\":0,\"parts\":{\"pos\":5,\"vel\":2}},{\"id\":1,\"parts\":{\"pos\":1}}],\"globals\":{},\"next\":2}",
            "{\"entities\":[{\"id\":0,\"parts\":{\"pos\":7,\"vel\":2}},{\"id\":1,\"parts\":{\"pos\":1}}],\"globals\":{},\"next\":2}",
            "{\"entities\":[{\"id\":0,\"parts\":{\"pos\":9,\"vel\":2}},{\"id\":1,\"parts\":{\"pos\":1}}],\"globals\":{},\"next\":2}",
            "{\"entities\":[{\"id\":0,\"parts\":{\"pos\":11,\"vel\":2}},{\"id\":1,\"parts\":{\"pos\":1}}],\"globals\":{},\"next\":2}",
        ],
    },
    Course {
        document: "{\"next\":8,\"entities\":[{\"id\":3,\"parts\":{\"hp\":2}},{\"id\":7,\"parts\":{\"hp\":5}}],\"systems\":[{\"kind\":\"decay\",\"name\":\"d\"},{\"kind\":\"reap\",\"after\":[\"d\"]}],\"frames\":2}",
        texts: &[
            "{\"entities\":[{\"id\":3,\"parts\":{\"hp\":2}},{\"id\":7,\"parts\":{\"hp\":5}}],\"globals\":{},\"next\":8}",
            "{\"entities\":[{\"id\":3,\"parts\":{\"hp\":1}},{\"id\":7,\"parts\":{\"hp\":4}}],\"globals\":{},\"next\":8}",
            "{\"entities\":[{\"id\":7,\"parts\":{\"hp\":3}}],\"globals\":{},\"next\":8}",
        ],
    },
    Course {
        document: "{\"next\":2,\"entities\":[{\"id\":0,\"parts\":{\"owner\":1}},{\"id\":1,\"parts\":{}}],\"frames\":1,\"commands\":[[{\"kill\":1},{\"spawn\":{\"pos\":3}},{\"put\":{\"id\":0,\"kind\":\"owner\",\"value\":2}}]]}",
        texts: &[
            "{\"entities\":[{\"id\":0,\"parts\":{\"owner\":1}},{\"id\":1,\"parts\":{}}],\"globals\":{},\"next\":2}",
            "{\"entities\":[{\"id\":0,\"parts\":{\"owner\":2}},{\"id\":2,\"parts\":{\"pos\":3}}],\"globals\":{},\"next\":3}",
        ],
    },
    Course {
        document: "{\"next\":1,\"entities\":[{\"id\":0,\"parts\":{\"hp\":11,\"pos\":5,\"vel\":2}}],\"systems\":[{\"kind\":\"decay\"},{\"kind\":\"bud\"},{\"kind\":\"drift\"}],\"frames\":1,\"workers\":2}",
        texts: &[
            "{\"entities\":[{\"id\":0,\"parts\":{\"hp\":11,\"pos\":5,\"vel\":2}}],\"globals\":{},\"next\":1}",
            "{\"entities\":[{\"id\":0,\"parts\":{\"hp\":10,\"pos\":7,\"vel\":2}},{\"id\":1,\"parts\":{\"hp\":1,\"pos\":7}}],\"globals\":{},\"next\":2}",
        ],
    },
];

/// Whether a report is of all frames that have a text, or tells that the frame after the accepted ones wanted memory or a thread.
fn is_of_its_frames(report: &Report, course: &Course) -> bool {
    match &report.refused {
        None => (report.frames as usize).saturating_add(1) == course.texts.len(),
        Some((frame, FrameRefusal::Memory | FrameRefusal::Threads)) => {
            *frame == report.frames.saturating_add(1)
        }
        Some(_) => false,
    }
}

/// Whether a run gives a report with the text of its frames, or tells that memory was wanting and writes nothing.
fn answers_by_name<H: AllocGlobal + Threads + Wait + Sync>(
    rt: &H,
    course: &Course,
    room: Vec<u8>,
) -> bool {
    let mut reader = Counted::new(course.document.as_bytes());
    let mut out = Counted::new(room);
    match run(rt, Basics, &mut reader, &mut out) {
        Ok(report) => {
            let text = course
                .texts
                .get(report.frames as usize)
                .copied()
                .unwrap_or("");
            is_of_its_frames(&report, course) && out.get_ref().as_slice() == text.as_bytes()
        }
        Err(RunError::Memory) => out.get_ref().is_empty(),
        Err(_) => false,
    }
}

/// The document of a course that isn't answered so, if there is one.
///
/// Errors: no room for a text.
fn wrong_of<H: AllocGlobal + Threads + Wait + Sync>(
    rt: &H,
) -> Result<Option<&'static str>, AllocError> {
    let mut wrong = None;
    for course in &COURSES {
        let room = Vec::with_capacity(rt.alloc(), 4096)?;
        if !answers_by_name(rt, course, room) {
            wrong = Some(course.document);
        }
    }
    Ok(wrong)
}

#[test]
fn want_of_memory_is_an_answer(rt: HostRuntime) -> Result<(), Fail> {
    // Where no room is had for a text, there is nothing to compare.
    if let Ok(wrong) = wrong_of(&rt) {
        assert_eq!(rt; wrong, None);
    }
    Ok(())
}
