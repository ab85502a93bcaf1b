//! What a run of a document did, frame by frame: what its systems changed, what each command did or why it was skipped,
//! who asked for it, and what led to a refusal.
//!
//! `trace` runs a document on a `Scene`. Before each frame the scene is put into a second world, where its systems run
//! alone: what they change there, and what waits in their queues, is what they do in the frame. The commands are then
//! followed over a plain scene. `put_together` makes the scene after a frame of the one before it and the trace.
//! A `Recorder` makes of the frames what a page shows, and `outline_of` tells the plan of a document.
#![tactic(auto)]

mod acting;
mod course;
mod events;
mod following;
mod leads;
mod lines;
mod outline;
pub mod pictures;
mod plain;
mod recording;
mod together;
mod tracing;
mod turning;

pub use course::Kinds;
pub use events::{
    Act, Actor, Asked, Bound, Change, Death, Deed, Fall, FrameTrace, GlobalChange, Lead, Reason,
    Refusal,
};
pub use lines::{frame_jsons, frame_lines};
pub use outline::{Outline, outline_of};
pub use plain::{Part, Parts, Plain};
pub use recording::Recorder;
pub use scene_document::LoadError;
pub use together::put_together;
pub use tracing::{Halted, TraceError, Watcher, trace};
