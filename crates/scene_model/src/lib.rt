//! What a caller of the scene engine says of documents, and the commands that its systems ask for.
//!
//! `DocumentRules` is the trait of the caller's parts, globals and systems, with what they mean to a document. The definitions in
//! `specs` say what a scene is, over plain maps from id to parts, and what its frames do.
#![tactic(auto)]

mod access;
mod command;
mod documents;
pub mod laws;
mod places;
mod plain;
mod reading;
mod refusals;
mod store;

pub use access::SystemAccess;
pub use command::{Command, NotQueued, Queue};
pub use documents::DocumentRules;
pub use places::place_in;
pub use plain::{Skips, Text};
pub use reading::ReadError;
pub use refusals::{DocRefusal, FrameRefusal, Report, Skip};
pub use shred_plan::RunningTime;
pub use store::Store;
