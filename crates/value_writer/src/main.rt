//! Writes the files of a value type from a list of kinds: standard input to standard output.
//!
//! Each file is written behind a line `==> ` with its path. The statuses, and the line of each on standard error:
//!
//! - 0: all is written; none.
//! - 1: the list is refused, `line N: NAME`, and nothing is written.
//! - 3: the list could not be read, or the files not be written, `read failed` or `write failed`.
//! - 4: memory was wanting, `out of memory`.
#![tactic(auto)]

mod bytes;
mod columns;
mod documents;
mod fill;
mod imports;
mod kind;
mod list;
mod logic;
mod names;
mod pieces;
mod refusal;
mod scene;
mod values;
mod writing;

use crate::writing::write_files;
use std::process::ExitCode;

fn main(rt: HostRuntime) -> ExitCode {
    ExitCode::from(write_files(&rt))
}
