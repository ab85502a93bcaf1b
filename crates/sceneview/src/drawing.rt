//! The command `draw`.
use crate::progress::Progress;
use crate::reading::bytes_of;
use crate::status::{Status, tell, tell_frame, tell_refused};
use crate::writing::write_to;
use scene::Limits;
use scene_basics::Basics;
use scene_basics::lines::name;
use scene_trace::pictures::run_page;
use scene_trace::{
    FrameTrace, Halted, Kinds, LoadError, Outline, Plain, Recorder, TraceError, Watcher,
    outline_of, trace,
};
use std::rt::{Clock, Files};
use std::sync::Wait;
use std::thread::Threads;

/// Records the frames of a run, and tells how far it is.
#[derive(Drop)]
struct Drawer<'a, H> {
    rt: &'a H,
    recorder: Recorder,
    progress: Progress,
}

impl<'a, H: Eprint + Clock> Watcher for Drawer<'a, H> {
    fn begin(&mut self, first: &Plain) -> Result<(), Halted> {
        self.recorder.begin(first)
    }

    fn see(
        &mut self,
        before: &Plain,
        frame: &FrameTrace,
        after: &Plain,
        kinds: &Kinds,
    ) -> Result<(), Halted> {
        self.recorder.see(before, frame, after, kinds)?;
        self.progress
            .tell(self.rt, frame.number, after.entities.len());
        Ok(())
    }
}

/// Draws a page of the run of a document, and answers how the program ends. Of a refused frame, it draws what was before it.
pub(crate) fn draw_one<
    R: Files + Input + Print + Eprint + AllocGlobal + Clock + Threads + Wait + Sync,
>(rt: &R, file: &str, output: Option<&str>, is_told: bool) -> Status {
    let bytes = match bytes_of(rt, file) {
        Ok(bytes) => bytes,
        Err(status) => return tell(rt, status, file),
    };
    let outline = match outline_of(rt.alloc(), &Basics, Limits::FULL, &bytes) {
        Ok(outline) => outline,
        Err(LoadError::Document(refusal)) => return tell_refused(rt, file, name(refusal)),
        Err(LoadError::Memory) => return tell(rt, Status::Memory, ""),
    };
    let mut drawer = Drawer {
        rt,
        recorder: Recorder::new(rt.alloc()),
        progress: Progress::begin(rt, outline.frames, is_told),
    };
    let traced = trace(
        rt,
        Basics,
        &Basics,
        Limits::FULL,
        &bytes,
        u32::MAX,
        &mut drawer,
    );
    match traced {
        Ok(()) => draw(rt, file, output, drawer.recorder, &outline),
        Err(TraceError::Document(refusal)) => tell_refused(rt, file, name(refusal)),
        Err(TraceError::Memory) | Err(TraceError::Halted) => tell(rt, Status::Memory, ""),
    }
}

/// Writes the page of what was recorded, and tells of a refused frame.
fn draw<R: Files + Print + Eprint + AllocGlobal>(
    rt: &R,
    file: &str,
    output: Option<&str>,
    recorder: Recorder,
    outline: &Outline,
) -> Status {
    let refused = match recorder.refused() {
        Some((number, cause)) => match String::from_str(rt.alloc(), cause) {
            Ok(cause) => Some((number, cause)),
            Err(_) => return tell(rt, Status::Memory, ""),
        },
        None => None,
    };
    let record = recorder.into_record();
    let Ok(page) = run_page(rt.alloc(), file, &outline.plan, record, outline.frames) else {
        return tell(rt, Status::Memory, "");
    };
    let written = write_to(rt, output, &page);
    match refused {
        Some((number, cause)) if written == Status::Clean => {
            tell_frame(rt, file, number, cause.as_str())
        }
        _ => written,
    }
}
