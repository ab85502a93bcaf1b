//! The names that most programs want.
pub use hibitset::BitSet;
pub use shred::{
    Accessor, AsyncDispatcher, Dispatcher, DispatcherBuilder, Read, ReadExpect, Resource,
    ResourceId, RunNow, System, SystemData, World, Write, WriteExpect,
};
pub use specs_entity::{Entities, Entity};
pub use specs_join::{ChangeSet, Join, ParJoin};
pub use specs_layouts::{
    Component, ComponentEvent, DefaultVecStorage, DenseVecStorage, FlaggedStorage, HashMapStorage,
    NullStorage, ReaderId, Tracked, VecStorage,
};
pub use specs_storage::Storage;
pub use specs_world::{
    Builder, EntityBuilder, LazyUpdate, LazyWorld, ReadStorage, WorldExt, WriteStorage,
};
