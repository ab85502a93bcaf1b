//! The command `trace`.
use crate::arguments::Frames;
use crate::progress::Progress;
use crate::reading::bytes_of;
use crate::status::{Status, tell, tell_refused};
use scene::Limits;
use scene_basics::Basics;
use scene_basics::lines::name;
use scene_trace::{
    FrameTrace, Halted, Kinds, Plain, TraceError, Watcher, frame_jsons, frame_lines, outline_of,
    trace,
};
use std::alloc::Global;
use std::rt::{Clock, Files};
use std::sync::Wait;
use std::thread::Threads;

/// Prints the frames that are asked for, and how the program ends where it can't.
#[derive(Drop)]
struct Printer<'a, H> {
    rt: &'a H,
    frames: Frames,
    json: bool,
    progress: Progress,
    failed: Status,
}

impl<'a, H: Print + Eprint + Clock + AllocGlobal> Watcher for Printer<'a, H> {
    fn see(
        &mut self,
        _before: &Plain,
        frame: &FrameTrace,
        after: &Plain,
        kinds: &Kinds,
    ) -> Result<(), Halted> {
        self.progress
            .tell(self.rt, frame.number, after.entities.len());
        if frame.number < self.frames.first {
            return Ok(());
        }
        let lines = if self.json {
            frame_jsons(self.rt.alloc(), frame, kinds)
        } else {
            frame_lines(self.rt.alloc(), frame, kinds)
        };
        let Ok(lines) = lines else {
            self.failed = Status::Memory;
            return Err(Halted);
        };
        match self.rt.write_all(lines.as_bytes()) {
            Ok(()) => Ok(()),
            Err(_) => {
                self.failed = Status::Unwritten;
                Err(Halted)
            }
        }
    }
}

/// Tells what happened in the frames of a document, and answers how the program ends.
pub(crate) fn trace_one<
    R: Files + Input + Print + Eprint + AllocGlobal + Clock + Threads + Wait + Sync,
>(rt: &R, file: &str, frames: Frames, json: bool, is_told: bool) -> Status {
    let bytes = match bytes_of(rt, file) {
        Ok(bytes) => bytes,
        Err(status) => return tell(rt, status, file),
    };
    let asked = if is_told {
        frames_of(rt.alloc(), &bytes).min(frames.last)
    } else {
        0
    };
    let mut printer = Printer {
        rt,
        frames,
        json,
        progress: Progress::begin(rt, asked, is_told),
        failed: Status::Clean,
    };
    let traced = trace(
        rt,
        Basics,
        &Basics,
        Limits::FULL,
        &bytes,
        frames.last,
        &mut printer,
    );
    match traced {
        Ok(()) => Status::Clean,
        Err(TraceError::Document(refusal)) => tell_refused(rt, file, name(refusal)),
        Err(TraceError::Memory) => tell(rt, Status::Memory, ""),
        Err(TraceError::Halted) => tell(rt, printer.failed, ""),
    }
}

/// How many frames a document asks for; none where it is refused.
fn frames_of(alloc: Global, bytes: &[u8]) -> u32 {
    match outline_of(alloc, &Basics, Limits::FULL, bytes) {
        Ok(outline) => outline.frames,
        Err(_) => 0,
    }
}
