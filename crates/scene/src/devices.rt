//! Readers and writers that count their failures, and the two loops of a run over them.
//!
//! `read_bytes` gives all that a reader has to its end; `write_text` gives a whole text to a
//! writer, and then flushes. Each error of theirs comes only where the device counted a failure in
//! that call, or gave bytes 4,294,967,295 times without its end, or where memory was wanting; and
//! each says what it leaves. `Counted` makes such a device of any reader or writer.

mod counted;
mod faults;
mod reading;
mod writing;

pub use counted::Counted;
pub use faults::{CountedRead, CountedWrite, Faults};
pub use reading::{MOST_READS, ReadFailure, read_bytes, read_within};
pub use writing::{WriteFailure, write_text};
