//! The bytes of a document by its name.
use crate::status::Status;
use std::io::{ErrorKind, Read};
use std::rt::Files;
use std::{fs, io};

/// The bytes of a file, or of standard input where the name is `-`.
///
/// Errors: how the program ends where they cannot be read.
pub(crate) fn bytes_of<R: Files + Input + AllocGlobal>(
    rt: &R,
    name: &str,
) -> Result<Vec<u8>, Status> {
    let read = if name == "-" {
        input_of(rt)
    } else {
        fs::read(rt, name)
    };
    match read {
        Ok(bytes) => Ok(bytes),
        Err(error) => match error.kind() {
            ErrorKind::OutOfMemory => Err(Status::Memory),
            ErrorKind::NotFound => Err(Status::NoFile),
            ErrorKind::IsADirectory => Err(Status::Folder),
            _ => Err(Status::Unread),
        },
    }
}

fn input_of<R: Input + AllocGlobal>(rt: &R) -> io::Result<Vec<u8>> {
    let mut bytes = Vec::new(rt.alloc());
    let mut reader = rt.reader();
    reader.read_to_end(&mut bytes)?;
    Ok(bytes)
}
