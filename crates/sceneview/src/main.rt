//! Shows what is wrong with the documents of scenes, what their runs did, and pictures of both, under the program's rules.
//!
//! The statuses, and the line of each on standard error:
//!
//! - 0: all was done; none.
//! - 1: a document has a fault, `FILE: document refused: NAME` of `trace`, `plan` and `draw`, and none of `check`, which lists it; or
//!   `draw` drew up to a frame that was refused, `FILE: frame N refused: CAUSE`. A refused frame is among what `trace` tells.
//! - 2: bad arguments; what is wrong with them.
//! - 3: a document could not be read, `FILE: read failed`.
//! - 4: memory was wanting, `out of memory`.
//! - 5: there is no document of a name, `FILE: no such file`.
//! - 6: it is a folder, `FILE: is a folder`.
//! - 7: the output could not be written, `write failed`.
//! - 8: the file of `-o` could not be written, `FILE: cannot be written`.
//!
//! Of many documents the greatest is the program's; where the output cannot be written, those behind are left.
#![tactic(auto)]

mod arguments;
mod checking;
mod drawing;
mod planning;
mod progress;
mod reading;
mod status;
mod tracing;
mod writing;

use crate::arguments::{Asked, Stop, asked_in};
use crate::checking::check_all;
use crate::drawing::draw_one;
use crate::planning::plan_one;
use crate::status::Status;
use crate::tracing::trace_one;
use std::process::ExitCode;
use std::rt::{Clock, Env, Files};
use std::sync::Wait;
use std::thread::Threads;

fn main(rt: HostRuntime) -> ExitCode {
    ExitCode::from(view(&rt).code())
}

/// Does what the words of the command line ask for.
fn view<R: Files + Env + Input + Print + Eprint + AllocGlobal + Clock + Threads + Wait + Sync>(
    rt: &R,
) -> Status {
    let Ok(words) = words_of(rt) else {
        return status::tell(rt, Status::Memory, "");
    };
    match asked_in(rt, words.as_slice()) {
        Ok(Asked::Check { files, json }) => check_all(rt, &files, json),
        Ok(
            Asked::Trace {
                file,
                frames,
                json,
                progress,
            },
        ) => trace_one(rt, file, frames, json, progress),
        Ok(Asked::Plan { file, svg, output }) => plan_one(rt, file, svg, output),
        Ok(
            Asked::Draw {
                file,
                output,
                progress,
            },
        ) => draw_one(rt, file, output, progress),
        Ok(Asked::NoFrames(words)) => status::tell_no_frames(rt, words),
        Err(Stop(status)) => status,
    }
}

/// The words of the command line.
fn words_of<R: Env + AllocGlobal>(rt: &R) -> std::io::Result<Vec<String>> {
    let words: Vec<String> = std::env::args(rt)?.collect(rt.alloc())?;
    Ok(words)
}
