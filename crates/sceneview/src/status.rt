//! How the program ends, and its lines on standard error.

/// How the program ends, the worse the greater.
#[derive(Clone, Copy, Debug, PartialEq, Eq, PartialOrd, Ord)]
pub(crate) enum Status {
    Clean,
    Faults,
    Arguments,
    Unread,
    Memory,
    NoFile,
    Folder,
    Unwritten,
    Unmade,
}

impl Status {
    pub(crate) fn code(self) -> u8 {
        self as u8
    }
}

/// Tells a status by its line on standard error, and gives it back. A failure there is passed over.
pub(crate) fn tell<R: Eprint>(rt: &R, status: Status, name: &str) -> Status {
    let _ = match status {
        Status::Clean | Status::Faults | Status::Arguments => Ok(()),
        Status::Unread => eprintln!(rt; "{name}: read failed"),
        Status::Memory => eprintln!(rt; "out of memory"),
        Status::NoFile => eprintln!(rt; "{name}: no such file"),
        Status::Folder => eprintln!(rt; "{name}: is a folder"),
        Status::Unwritten => eprintln!(rt; "write failed"),
        Status::Unmade => eprintln!(rt; "{name}: cannot be written"),
    };
    status
}

/// Tells the refusal of a document by a line on standard error.
pub(crate) fn tell_refused<R: Eprint>(rt: &R, file: &str, refusal: &str) -> Status {
    let _ = eprintln!(rt; "{file}: document refused: {refusal}");
    Status::Faults
}

/// Tells that a frame was refused, and why, by a line on standard error.
pub(crate) fn tell_frame<R: Eprint>(rt: &R, file: &str, frame: u32, cause: &str) -> Status {
    let _ = eprintln!(rt; "{file}: frame {frame} refused: {cause}");
    Status::Faults
}

/// Tells of words that are not frames by a line on standard error.
pub(crate) fn tell_no_frames<R: Eprint>(rt: &R, words: &str) -> Status {
    let _ = eprintln!(rt; "error: --frames {words}: wanted is A..B, with A from 1 to B");
    Status::Arguments
}
