//! A fault of a document.
use crate::paths::Step;
use scene_model::DocRefusal;

/// A fault of a document: which refusal stands, where, and what would be right.
#[derive(Debug, Drop)]
pub struct Fault {
    /// The refusal that stands.
    pub refusal: DocRefusal,
    /// The path from the document's root to the place of the fault, or to the nearest place around it that there is.
    pub path: Vec<Step>,
    /// What is wrong, with the value, and what would be right.
    pub sentence: String,
}
