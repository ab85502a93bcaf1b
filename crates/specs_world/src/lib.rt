//! Worlds of entities: storages that are registered in a world, entities that are made and deleted in it with their parts, and
//! jobs that wait in queues until the world is maintained.
#![tactic(auto)]

mod adding;
pub mod builder;
pub mod builders;
pub mod bundles;
mod counting;
mod deleting;
mod dropping;
pub mod held;
mod inserting;
pub mod job;
pub mod lazy;
pub mod lazy_builder;
pub mod lazy_world;
pub mod maintained;
mod queues;
mod registering;
pub mod registrable;
mod removing;
mod running;
pub mod setup;
pub mod shared;
mod taking;
pub mod world_ext;

pub use builder::EntityBuilder;
pub use builders::Builder;
pub use bundles::{Declared, ReadStorage, Registers, WriteStorage};
pub use held::Held;
pub use job::{Insert, InsertAll, Job, Remove};
pub use lazy::LazyUpdate;
pub use lazy_builder::LazyBuilder;
pub use lazy_world::LazyWorld;
pub use maintained::Maintained;
pub use registrable::Registrable;
pub use setup::NewQueue;
pub use shared::SharedLazy;
pub use world_ext::WorldExt;
