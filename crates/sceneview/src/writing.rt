//! Where what is made goes.
use crate::status::{Status, tell};
use std::fs;
use std::io::ErrorKind;
use std::rt::Files;

/// Writes bytes to a file, or to standard output where none is named, and answers how the program ends.
pub(crate) fn write_to<R: Files + Print + Eprint + AllocGlobal>(
    rt: &R,
    output: Option<&str>,
    bytes: &[u8],
) -> Status {
    match output {
        Some(name) => match fs::write(rt, name, bytes) {
            Ok(()) => Status::Clean,
            Err(error) if error.kind() == ErrorKind::OutOfMemory => tell(rt, Status::Memory, ""),
            Err(_) => tell(rt, Status::Unmade, name),
        },
        None => match rt.write_all(bytes) {
            Ok(()) => Status::Clean,
            Err(_) => tell(rt, Status::Unwritten, ""),
        },
    }
}
