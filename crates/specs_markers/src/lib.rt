//! Markers: ids by which entities are known across worlds, and the allocators that give them.
#![tactic(auto)]

pub mod allocator;
pub mod laws;
pub mod marker;
mod marking;
pub mod simple;
pub mod uuids;

pub use allocator::MarkerAllocator;
pub use marker::Marker;
pub use simple::{SimpleMarker, SimpleMarkerAllocator};
pub use uuids::{UuidMarker, UuidMarkerAllocator};
