//! Dispatchers: systems, batches and local systems over a world of resources, under their names.
#![tactic(auto)]

mod async_dispatcher;
mod async_error;
mod batch;
mod builder;
mod bundled;
mod cells;
mod chained;
mod dispatcher;
mod either;
mod error;
pub mod laws;
mod locals;
mod multi;
mod names;
mod nothing;
mod pooled;
mod run_now;
mod standing;
mod systems;
mod trees;
mod work;

pub use async_dispatcher::AsyncDispatcher;
pub use async_error::AsyncError;
pub use batch::{Batch, BatchController, MultiDispatchController};
pub use builder::DispatcherBuilder;
pub use bundled::{BundleChange, Bundled};
pub use cells::{
    FetchError, InvalidBorrow, LoneMut, Ref, RefMut, SharedFetch, SharedFetchMut, SharedWorld,
    TrustCell, cell_core,
};
pub use dispatcher::Dispatcher;
pub use either::Either;
pub use error::AddError;
pub use multi::MultiDispatcher;
pub use nothing::{NoBatch, NoLocal};
pub use run_now::RunNow;
pub use shred_crew::{Crew, Shift, Unmanned, Want, cut, with_crew as stand_by};
pub use shred_plan::{Adding, Group, Planner, RunningTime, Stage, Way};
pub use shred_stages::{
    BatchAccessor, DispatchError, Pack, Refusal, StagesBuilder, Stop, System, SystemId, View,
    run_alone,
};
pub use shred_world::{
    Accessor, DefaultProvider, DynamicSystemData, Entry, ExecError, Fetch, FetchMut, Holder,
    MetaIter, MetaIterMut, MetaTable, Missing, PanicHandler, Read, ReadAccessor, ReadExpect,
    Resource, ResourceId, Resources, SetupHandler, SystemData, World, Write, WriteAccessor,
    WriteExpect, check_intersection,
};
pub use standing::{Dispatches, dispatch_times};
pub use systems::{MAX_SYSTEMS, SystemsBuilder};
pub use trees::{Leaf, Nil, Par, ParError, ParSeq, RunWithPool, Seq};
pub use work::Work;
