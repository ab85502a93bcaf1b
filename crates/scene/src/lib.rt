//! Scenes: a JSON document is loaded into a world of entities, its systems run frame by frame on a dispatcher under rules of the
//! caller's own, and the scene that they reach is printed again.
//!
//! `run` and `run_with` carry the whole: the bytes that a reader gives are refused by name, and then nothing is written,
//! or the bytes written are the text of a scene that the document's frames reach, over plain maps from id to parts, whatever the
//! number of workers and the kind of store. `Scene` runs the same frame by frame. `Rules` is what the caller provides: parts,
//! globals and systems, with what they mean to a document, and where they stand in a world.
#![tactic(auto)]

mod advance;
mod changes;
mod commands;
pub mod devices;
mod frame;
mod keeping;
pub mod laws;
mod load;
mod queues;
mod runner;
mod running;
pub mod snapshot;
mod standing;
mod taking;

pub use commands::{FrameInput, run_commands};
pub use devices::{Counted, CountedRead, CountedWrite, Faults};
pub use frame::{Refused, Scene};
pub use keeping::keep_scene;
pub use runner::{RunError, run, run_to_end, run_with};
pub use running::run_frame;
pub use scene_document::{Limits, LoadError};
pub use scene_model::{
    Command, DocRefusal, DocumentRules, FrameRefusal, NotQueued, Queue, ReadError, Report,
    RunningTime, Skip, Skips, SystemAccess, Text,
};
pub use scene_world::{
    AnyStore, QueueValue, Rules, SceneMarker, SceneMarkerAllocator, SceneStorage, SceneValue,
    Store, WorldRules,
};
pub use shred_stages::Stop;
