//! A scene that stands in a world of entities: storages of one of four layouts, the markers by which entities are known,
//! systems under a caller's rules, and what becomes of the scene as the world changes.
#![tactic(auto)]

pub mod any_store;
mod asking;
pub mod changes;
pub mod columns;
mod counting;
mod held;
pub mod known;
pub mod laws;
pub mod marker;
pub mod parts;
mod placed;
mod readers;
mod rules;
mod stops;
mod value;

pub use any_store::AnyStore;
pub use asking::{Asks, ask_each, ask_with};
pub use changes::change_parts;
pub use columns::{Amounts, Column, NumberPart, PlainPart, ReferencePart};
pub use counting::{CountingRules, count_of, count_one};
pub use held::{ValueChange, change_held, set_held};
pub use marker::{SceneMarker, SceneMarkerAllocator, no_markers};
pub use parts::{SceneStorage, scene_storage};
pub use placed::Placed;
pub use readers::{catch_up_reader, gain_reader, told_indices};
pub use rules::{Rules, WorldRules};
pub use scene_model::Store;
pub use stops::{refusal, stop_for};
pub use value::{QueueValue, SceneValue};
