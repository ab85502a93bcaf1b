//! Whole runs over devices that are slow or fail: what was written, and what is told.
use crate::devices::{Full, Narrow, Slow};
use crate::runs::Accepted;
use scene::{Counted, RunError, run};
use scene_basics::Basics;
use scene_basics::program::program;
use std::io::ErrorKind;
use std::sync::Wait;
use std::test::Fail;
use std::thread::Threads;

/// Documents whose frames are all accepted: none but frames, a system, a death, the document's commands, a birth.
const ROWS: [Accepted; 5] = [
    Accepted {
        document: "{\"next\":0,\"entities\":[],\"frames\":3}",
        text: "{\"entities\":[],\"globals\":{},\"next\":0}",
    },
    Accepted {
        document: "{\"next\":2,\"entities\":[{\"id\":0,\"parts\":{\"pos\":5,\"vel\":2}},{\"id\":1,\"parts\":{\"pos\":1}}],\"systems\":[{\"kind\":\"drift\"}],\"frames\":3}",
        text: "{\"entities\":[{\"id\":0,\"parts\":{\"pos\":11,\"vel\":2}},{\"id\":1,\"parts\":{\"pos\":1}}],\"globals\":{},\"next\":2}",
    },
    Accepted {
        document: "{\"next\":8,\"entities\":[{\"id\":3,\"parts\":{\"hp\":2}},{\"id\":7,\"parts\":{\"hp\":5}}],\"systems\":[{\"kind\":\"decay\",\"name\":\"d\"},{\"kind\":\"reap\",\"after\":[\"d\"]}],\"frames\":2}",
        text: "{\"entities\":[{\"id\":7,\"parts\":{\"hp\":3}}],\"globals\":{},\"next\":8}",
    },
    Accepted {
        document: "{\"next\":2,\"entities\":[{\"id\":0,\"parts\":{\"owner\":1}},{\"id\":1,\"parts\":{}}],\"frames\":1,\"commands\":[[{\"kill\":1},{\"spawn\":{\"pos\":3}},{\"put\":{\"id\":0,\"kind\":\"owner\",\"value\":2}}]]}",
        text: "{\"entities\":[{\"id\":0,\"parts\":{\"owner\":2}},{\"id\":2,\"parts\":{\"pos\":3}}],\"globals\":{},\"next\":3}",
    },
    Accepted {
        document: "{\"next\":1,\"entities\":[{\"id\":0,\"parts\":{\"hp\":11,\"pos\":5,\"vel\":2}}],\"systems\":[{\"kind\":\"decay\"},{\"kind\":\"bud\"},{\"kind\":\"drift\"}],\"frames\":1}",
        text: "{\"entities\":[{\"id\":0,\"parts\":{\"hp\":10,\"pos\":7,\"vel\":2}},{\"id\":1,\"parts\":{\"hp\":1,\"pos\":7}}],\"globals\":{},\"next\":2}",
    },
];

/// Whether a run, over a writer that takes so many bytes a call and in all, sends just those and tells how many.
fn run_sends<H: AllocGlobal + Threads + Wait + Sync>(
    rt: &H,
    row: &Accepted,
    step: usize,
    room: usize,
    full: Full,
) -> bool {
    let mut reader = Counted::new(row.document.as_bytes());
    let mut out = Counted::new(Narrow::new(rt.alloc(), step, room, full));
    let error = run(rt, Basics, &mut reader, &mut out).err();
    let told = if room < row.text.len() {
        Some(RunError::Write(room as u64))
    } else {
        None
    };
    let taken = out.get_ref().taken.as_slice();
    error == told && taken.len() == room && row.text.as_bytes().starts_with(taken)
}

/// Whether the program, over such a writer, answers the status of it and tells the line.
fn program_sends<H: AllocGlobal + Threads + Wait + Sync>(
    rt: &H,
    row: &Accepted,
    step: usize,
    room: usize,
    full: Full,
) -> Result<bool, Fail> {
    let (status, line) = if room < row.text.len() {
        (
            3,
            format!(in rt.alloc(); "write failed after {room} bytes\n")?,
        )
    } else {
        (0, String::new(rt.alloc()))
    };
    let mut reader = Counted::new(row.document.as_bytes());
    let mut out = Counted::new(Narrow::new(rt.alloc(), step, room, full));
    let mut err = Counted::new(Vec::new(rt.alloc()));
    Ok(
        program(rt, &mut reader, &mut out, &mut err) == status
            && err.get_ref().as_slice() == line.as_bytes(),
    )
}

/// The first number of bytes, up to the whole text, after which a writer that fails gets or tells something else.
fn first_wrong_room<H: AllocGlobal + Threads + Wait + Sync>(
    rt: &H,
    row: &Accepted,
    step: usize,
    full: Full,
) -> Result<Option<usize>, Fail> {
    for room in 0..row.text.len().saturating_add(1) {
        if !run_sends(rt, row, step, room, full) || !program_sends(rt, row, step, room, full)? {
            return Ok(Some(room));
        }
    }
    Ok(None)
}

#[test]
fn failed_writes_tell_the_bytes_that_went_out(rt: HostRuntime) -> Result<(), Fail> {
    let mut wrong = None;
    for row in ROWS.as_slice() {
        for step in [64, 1] {
            for full in [Full::Fails, Full::TakesNone] {
                if let Some(room) = first_wrong_room(&rt, row, step, full)? {
                    wrong = Some((row.document, step, room));
                }
            }
        }
    }
    assert_eq!(rt; wrong, None);
    Ok(())
}

/// Whether a run, over a reader that gives one byte a call and fails after so many calls, gives the scene or tells the failure.
fn run_reads<H: AllocGlobal + Threads + Wait + Sync>(
    rt: &H,
    row: &Accepted,
    calls: u32,
    is_sound: bool,
) -> bool {
    let mut reader = Counted::new(Slow::new(row.document, calls, ErrorKind::Other));
    let mut out = Counted::new(Vec::new(rt.alloc()));
    let error = run(rt, Basics, &mut reader, &mut out).err();
    let (told, text) = if is_sound {
        (None, row.text)
    } else {
        (Some(RunError::Read), "")
    };
    error == told && out.get_ref().as_slice() == text.as_bytes()
}

/// Whether the program, over such a reader, answers the status of it, writes the text or nothing, and tells the line.
fn program_reads<H: AllocGlobal + Threads + Wait + Sync>(
    rt: &H,
    row: &Accepted,
    calls: u32,
    is_sound: bool,
) -> bool {
    let mut reader = Counted::new(Slow::new(row.document, calls, ErrorKind::Other));
    let mut out = Counted::new(Vec::new(rt.alloc()));
    let mut err = Counted::new(Vec::new(rt.alloc()));
    let status = program(rt, &mut reader, &mut out, &mut err);
    let (wanted, text, line) = if is_sound {
        (0, row.text, "")
    } else {
        (3, "", "read failed\n")
    };
    status == wanted
        && out.get_ref().as_slice() == text.as_bytes()
        && err.get_ref().as_slice() == line.as_bytes()
}

#[test]
fn failed_reads_write_nothing(rt: HostRuntime) {
    let mut wrong = None;
    for row in ROWS.as_slice() {
        // One byte a call, and a call that tells the end.
        let mut calls = 0u32;
        for _ in 0..row.document.len().saturating_add(2) {
            let is_sound = calls as usize > row.document.len();
            if !run_reads(&rt, row, calls, is_sound) || !program_reads(&rt, row, calls, is_sound) {
                wrong = Some((row.document, calls));
            }
            calls = calls.saturating_add(1);
        }
    }
    assert_eq!(rt; wrong, None);
}

/// Whether a flush that fails after the text is told before all else, by this line.
fn flush_is_told<H: AllocGlobal + Threads + Wait + Sync>(
    rt: &H,
    document: &str,
    line: &str,
) -> bool {
    let mut narrow = Narrow::new(rt.alloc(), 64, 1000, Full::Fails);
    narrow.flush_fails = true;
    let mut reader = Counted::new(document.as_bytes());
    let mut out = Counted::new(narrow);
    let mut err = Counted::new(Vec::new(rt.alloc()));
    program(rt, &mut reader, &mut out, &mut err) == 3 && err.get_ref().as_slice() == line.as_bytes()
}

#[test]
fn a_failed_flush_comes_before_a_refused_frame(rt: HostRuntime) {
    let done = "{\"next\":0,\"entities\":[],\"frames\":3}";
    let refused =
        "{\"next\":1,\"entities\":[{\"id\":0,\"parts\":{\"hp\":-9223372036854775808}}],\"systems\":[{\"kind\":\"decay\"}],\"frames\":1}";
    assert!(rt; flush_is_told(&rt, done, "write failed after 37 bytes\n"));
    assert!(rt; flush_is_told(&rt, refused, "write failed after 81 bytes\n"));
}

/// Whether the program refuses these bytes as unreadable, and writes nothing.
fn is_unreadable<H: AllocGlobal + Threads + Wait + Sync>(rt: &H, bytes: &[u8]) -> bool {
    let mut reader = Counted::new(bytes);
    let mut out = Counted::new(Vec::new(rt.alloc()));
    let mut err = Counted::new(Vec::new(rt.alloc()));
    program(rt, &mut reader, &mut out, &mut err) == 1
        && out.get_ref().is_empty()
        && err.get_ref().as_slice() == b"document refused: Unreadable\n".as_slice()
}

#[test]
fn each_front_of_a_document_is_unreadable(rt: HostRuntime) {
    let document =
        "{\"next\":2,\"entities\":[{\"id\":0,\"parts\":{\"pos\":5,\"vel\":2}},{\"id\":1,\"parts\":{\"pos\":1}}],\"systems\":[{\"kind\":\"drift\"}],\"frames\":3}";
    let mut wrong = None;
    for len in 0..document.len() {
        if !is_unreadable(&rt, &document.as_bytes()[..len]) {
            wrong = Some(len);
        }
    }
    assert_eq!(rt; wrong, None);
}
