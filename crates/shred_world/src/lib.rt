//! Resources: a world is a finite map from ids to values of the caller's type, and bundles of resources are fetched from it,
//! used, and spent by giving them back.
#![tactic(auto)]

mod data;
mod dynamic;
mod entry;
mod holder;
mod intersection;
pub mod laws;
mod meta;
mod resource;
mod resource_id;
mod setup;
mod world;

pub use data::read::{Read, ReadExpect};
pub use data::write::{Write, WriteExpect};
pub use data::{ExecError, Missing, SystemData};
pub use dynamic::{Accessor, DynamicSystemData, ReadAccessor, WriteAccessor};
pub use entry::Entry;
pub use holder::Holder;
pub use intersection::check_intersection;
pub use meta::{MetaIter, MetaIterMut, MetaTable};
pub use resource::Resource;
pub use resource_id::ResourceId;
pub use setup::{DefaultProvider, PanicHandler, SetupHandler};
pub use world::{Fetch, FetchMut, World};

/// The other name of a world.
pub type Resources<V> = World<V>;
