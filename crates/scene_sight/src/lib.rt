//! What is wrong with a document: every fault of it, each with its place, and a sentence that says what would be right.
//!
//! `check` lists the faults of the bytes of a document under the caller's rules. It lists nothing exactly where
//! `read_document` refuses nothing, and the least refusal that it lists is that of `read_document`. `spots_of` says in
//! which line and column of the text each of them stands.
#![tactic(auto)]

mod entities;
mod entries;
mod faults;
mod fields;
mod floats;
mod lines;
mod listing;
mod meaning;
mod orders;
mod paths;
mod search;
mod spots;
mod trail;
mod words;

pub use faults::Fault;
pub use lines::{fault_json, fault_line, path_text};
pub use listing::check;
pub use paths::Step;
pub use spots::{Spot, spots_of};
