//! Scene documents: bytes are read as JSON, the JSON as a draft under the caller's rules, the draft as a document, or
//! refused by name.
#![tactic(auto)]

mod commands;
mod draft;
mod ids;
mod load;
mod loaded;
mod names;
mod refusal;
mod shape;
mod text;
mod tokens;

pub use commands::commands_of;
pub use draft::{CommandDraft, DocumentDraft, EntityDraft, EntryDraft, MadeDraft, SystemDraft};
pub use load::{read_document, read_document_with};
pub use loaded::{Limits, LoadError};
pub use shape::{read_draft, read_draft_with};
pub use text::{JsonError, has_float, read_json};
pub use tokens::{ApartDocument, read_apart};
