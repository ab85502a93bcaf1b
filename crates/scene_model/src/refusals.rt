//! Why a document, a frame or a run is refused, and the report of a run.
use crate::plain::{Skips, Text};

/// Why a document is no scene: the least of these that stands, in this order.
#[derive(Clone, Copy, Debug, PartialEq, Eq)]
pub enum DocRefusal {
    /// The bytes have no reading as JSON.
    Unreadable,
    /// A number is read as something else than a whole number of 64 bits.
    NotWhole,
    /// A key is missing or unknown, a value has not the stated shape or range, or the rules do not read it.
    WrongShape,
    /// A kind of a part or the name of a global is not one of the rules'.
    UnknownKind,
    /// Two entities have one id.
    DoubleId,
    /// The id of an entity is not below the next id.
    IdNotBelowNext,
    /// A reference in an entity's part names no listed id.
    Dangling,
    /// The kind of a system is not one of the rules'.
    UnknownSystem,
    /// Two entries have one name that is not empty.
    NameTaken,
    /// A system comes after a name that no earlier entry has, or after the empty one.
    UnknownDependency,
    /// A system declares a global that the document lacks.
    MissingGlobal,
    /// A system declares a write to entities or markers.
    ReservedWrite,
    /// More than 64 workers are asked for.
    TooManyWorkers,
    /// There are more than 4,096 entries of systems and barriers.
    TooManySystems,
    /// The kind of store is none of the four.
    UnknownStore,
    /// There are more entities than the limit of indices.
    TooManyEntities,
}

/// Why a frame is refused.
#[derive(Debug, Drop)]
pub enum FrameRefusal {
    /// A system refused, with its place among the entries, from 1, and its text.
    System(u32, Text),
    /// When the commands were done, this id was the least that held a reference to an entity that is gone.
    GoneReference(u64),
    /// A spawn found no id left.
    IdsSpent,
    /// A spawn found no index left.
    IndicesSpent,
    /// A spawn found no generation left for its index.
    GenerationsSpent,
    /// There were more commands than the limit.
    TooManyCommands,
    /// Memory was wanting.
    Memory,
    /// A thread could not be started.
    Threads,
}

/// A command that was passed over: its frame and its place among the commands of that frame, both from 1.
#[derive(Clone, Copy, Debug, PartialEq, Eq)]
pub struct Skip {
    /// The frame, from 1.
    pub frame: u32,
    /// The place among all commands of the frame in the order in which they ran, from 1.
    pub place: u32,
}

/// What became of a run: how many frames were accepted, which commands were skipped, and, where a frame was refused,
/// its number and the cause.
#[derive(Debug, Drop)]
pub struct Report {
    /// How many frames were accepted.
    pub frames: u32,
    /// The commands that were skipped in the accepted frames, in order.
    pub skips: Skips,
    /// The refused frame, from 1, and why.
    pub refused: Option<(u32, FrameRefusal)>,
}
