//! The rules of the program, and the program over any reader and writers.
//!
//! Parts are whole numbers and owners, there is one global, and five systems work on them: a small example of rules of one's
//! own. `data` has what a part is, `rules` what the rules say of documents, and where their parts stand in a world and what their systems do there `turning`;
//! `laws` has what the laws of scenes say of these rules.
//! `program` runs a document and tells what became of it by a status and a line, which `lines` has.
#![tactic(auto)]

mod adding;
mod asking;
mod columns;
pub mod data;
pub mod laws;
pub mod lines;
pub mod program;
pub mod rules;
mod turning;
pub mod values;

pub use rules::Basics;
pub use values::{Owner, Value, Whole};
