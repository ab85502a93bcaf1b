//! The plain data of the parts of the test's scene.

/// The data of a part, as a document says it.
#[derive(Clone, Copy, Debug, PartialEq, Eq)]
pub enum Datum {
    /// The entity belongs to the one that lives under this id.
    OwnedBy(u64),
    /// The entity has this rank.
    Ranked(u64),
}
