//! The command `check`.
use crate::reading::bytes_of;
use crate::status::{Status, tell};
use scene::Limits;
use scene_basics::Basics;
use scene_basics::lines::name;
use scene_sight::{Fault, check, fault_json, fault_line, spots_of};
use std::alloc::{AllocError, Global};
use std::rt::Files;

/// The kinds of systems of the program's rules.
const KINDS: [&str; 5] = ["drift", "pull", "decay", "reap", "bud"];

/// Lists the faults of each document, and answers how the program ends. Where the output cannot be written, it goes no further.
pub(crate) fn check_all<R: Files + Input + Print + Eprint + AllocGlobal>(
    rt: &R,
    files: &[&str],
    json: bool,
) -> Status {
    let mut worst = Status::Clean;
    for file in files {
        let status = check_one(rt, *file, json);
        if status > worst {
            worst = status;
        }
        if status == Status::Unwritten {
            break;
        }
    }
    worst
}

fn check_one<R: Files + Input + Print + Eprint + AllocGlobal>(
    rt: &R,
    file: &str,
    json: bool,
) -> Status {
    let bytes = match bytes_of(rt, file) {
        Ok(bytes) => bytes,
        Err(status) => return tell(rt, status, file),
    };
    match listed(rt.alloc(), file, &bytes, json) {
        Ok(lines) => print_lines(rt, &lines),
        Err(_) => tell(rt, Status::Memory, ""),
    }
}

/// Prints the lines of a document's faults, if it has any.
fn print_lines<R: Print + Eprint>(rt: &R, lines: &str) -> Status {
    if lines.is_empty() {
        return Status::Clean;
    }
    match rt.write_all(lines.as_bytes()) {
        Ok(()) => Status::Faults,
        Err(_) => tell(rt, Status::Unwritten, ""),
    }
}

/// The lines of the faults of a document, by their places in its text.
fn listed(alloc: Global, file: &str, bytes: &[u8], json: bool) -> Result<String, AllocError> {
    let faults = check(alloc, &Basics, Limits::FULL, &KINDS, bytes)?;
    let spots = spots_of(alloc, bytes, &faults)?;
    let mut order = Vec::with_capacity(alloc, faults.len())?;
    for index in 0..spots.len() {
        order.push((spots[index].offset, index))?;
    }
    order.sort()?;
    let mut lines = String::new(alloc);
    for pair in order {
        if let (Some(fault), Some(spot)) = (faults.get(pair.1), spots.get(pair.1)) {
            let line = if json {
                fault_json(alloc, file, name(fault.refusal), fault, *spot)?
            } else {
                fault_line(alloc, file, name(fault.refusal), fault, *spot)?
            };
            lines.push_str(line.as_str())?;
            lines.push_str("\n")?;
        }
    }
    Ok(lines)
}
