//! A row of a document with one fault, and whether it is found.
use scene::{DocRefusal, DocumentRules, Limits};
use scene_sight::{Fault, Spot, check, path_text, spots_of};
use std::alloc::{AllocError, Global};

/// The fault that a document has: its refusal, its path, its line and column, and a part of its sentence.
#[derive(Drop)]
pub struct Row {
    pub refusal: DocRefusal,
    pub path: &'static str,
    pub line: usize,
    pub column: usize,
    pub says: &'static str,
}

/// The kinds of systems of the program's rules.
pub const KINDS: [&str; 5] = ["drift", "pull", "decay", "reap", "bud"];

/// Whether a fault at a spot is what a row says.
fn is_of_row(alloc: Global, fault: &Fault, spot: Spot, row: &Row) -> Result<bool, AllocError> {
    let path = path_text(alloc, &fault.path)?;
    Ok(
        fault.refusal == row.refusal
            && path.as_str() == row.path
            && spot.line == row.line
            && spot.column == row.column
            && fault.sentence.as_str().find(row.says).is_some(),
    )
}

/// Whether a document has the fault of a row under some rules and a limit of indices, and no other.
pub fn has_only<R: DocumentRules>(
    alloc: Global,
    rules: &R,
    indices: u32,
    document: &str,
    row: &Row,
) -> Result<bool, AllocError> {
    let limits = Limits {
        indices,
        ..Limits::FULL
    };
    let bytes = document.as_bytes();
    let faults = check(alloc, rules, limits, &KINDS, bytes)?;
    let spots = spots_of(alloc, bytes, &faults)?;
    match (faults.as_slice(), spots.as_slice()) {
        ([fault], [spot]) => is_of_row(alloc, fault, *spot, row),
        _ => Ok(false),
    }
}
