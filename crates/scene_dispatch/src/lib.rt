//! The systems of a scene on a dispatcher: each at its place among a document's entries, staged in the plan that the document
//! gives, or local; each takes its turn over the scene that stands in a world, whatever the number of workers.
#![tactic(auto)]

mod builder;
mod cause;
mod dispatcher;
pub mod laws;
mod local;
mod opening;
mod staging;

pub use builder::SceneDispatcherBuilder;
pub use dispatcher::{SceneDispatcher, Works};
pub use local::PlacedLocal;
pub use opening::{open_queues, places_of_systems};
pub use staging::stage_systems;
