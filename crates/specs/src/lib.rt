//! Entities, their parts, worlds of them, and the systems that change them: what users of Specs look for, in one place.
//!
//! `use specs::*` has the names that most programs want, and `prelude` the fewest. `shred` and `hibitset` are those crates
//! whole; `world`, `storage`, `join`, `changeset`, `saveload` and `error` have what is looked for under these names, and
//! `laws` what is proved of all.
#![tactic(auto)]

pub mod asking;
pub mod building;
pub mod laws;
pub mod mark;
mod marking;
pub mod prelude;
mod taking;

pub use asking::OwnQueue;
pub use asking::add_queues_for;
pub use asking::ask;
pub use asking::own_queue;
pub use hibitset;
pub use hibitset::BitSet;
pub use hibitset::BitSetLike;
pub use hibitset::Index;
pub use shred;
pub use shred::Accessor;
pub use shred::AddError;
pub use shred::AsyncDispatcher;
pub use shred::Batch;
pub use shred::BatchAccessor;
pub use shred::BatchController;
pub use shred::BundleChange;
pub use shred::Bundled;
pub use shred::DispatchError;
pub use shred::Dispatcher;
pub use shred::DispatcherBuilder;
pub use shred::DynamicSystemData;
pub use shred::Either;
pub use shred::Holder;
pub use shred::MetaTable;
pub use shred::NoBatch;
pub use shred::NoLocal;
pub use shred::Read;
pub use shred::ReadExpect;
pub use shred::Resource;
pub use shred::ResourceId;
pub use shred::RunNow;
pub use shred::RunningTime;
pub use shred::Stop;
pub use shred::System;
pub use shred::SystemData;
pub use shred::SystemId;
pub use shred::Work;
pub use shred::World;
pub use shred::Write;
pub use shred::WriteAccessor;
pub use shred::WriteExpect;
pub use shred::run_alone;
pub use specs_entity::BoxedErr;
pub use specs_entity::CreateIter;
pub use specs_entity::Entities;
pub use specs_entity::EntitiesRes;
pub use specs_entity::Entity;
pub use specs_entity::EntityResBuilder;
pub use specs_entity::Error;
pub use specs_entity::Generation;
pub use specs_entity::PhaseSeat;
pub use specs_entity::WrongGeneration;
pub use specs_join::Accumulate;
pub use specs_join::Change;
pub use specs_join::ChangeError;
pub use specs_join::ChangeSet;
pub use specs_join::Join;
pub use specs_join::JoinCursor;
pub use specs_join::JoinIter;
pub use specs_join::Overflow;
pub use specs_join::ParJoin;
pub use specs_join::change_each;
pub use specs_join::store_all;
pub use specs_layouts::AnyStorage;
pub use specs_layouts::BTreeStorage;
pub use specs_layouts::Component;
pub use specs_layouts::ComponentEvent;
pub use specs_layouts::DefaultVecStorage;
pub use specs_layouts::DenseVecStorage;
pub use specs_layouts::EventChannel;
pub use specs_layouts::FlaggedStorage;
pub use specs_layouts::HashMapStorage;
pub use specs_layouts::IndexEvent;
pub use specs_layouts::MaskedStorage;
pub use specs_layouts::NullStorage;
pub use specs_layouts::ReaderId;
pub use specs_layouts::Single;
pub use specs_layouts::Tracked;
pub use specs_layouts::TryDefault;
pub use specs_layouts::UnprotectedStorage;
pub use specs_layouts::VecStorage;
pub use specs_storage::Storage;
pub use specs_world::Builder;
pub use specs_world::Declared;
pub use specs_world::EntityBuilder;
pub use specs_world::Held;
pub use specs_world::Insert;
pub use specs_world::InsertAll;
pub use specs_world::Job;
pub use specs_world::LazyBuilder;
pub use specs_world::LazyUpdate;
pub use specs_world::LazyWorld;
pub use specs_world::Maintained;
pub use specs_world::NewQueue;
pub use specs_world::ReadStorage;
pub use specs_world::Registers;
pub use specs_world::Registrable;
pub use specs_world::Remove;
pub use specs_world::SharedLazy;
pub use specs_world::WorldExt;
pub use specs_world::WriteStorage;

/// Worlds and their entities.
pub mod world {
    pub use hibitset::Index;
    pub use shred::World;
    pub use specs_entity::{
        AllowanceSpent, CreateIter, CreateIterAtomic, Entities, EntitiesRes, Entity,
        EntityResBuilder, EntitySeat, Generation, PhaseSeat, SeatsOut, SharedEntities,
    };
    pub use specs_layouts::{AnyStorage, Component};
    pub use specs_world::{
        Builder, Declared, EntityBuilder, Held, Insert, InsertAll, Job, LazyBuilder, LazyUpdate,
        LazyWorld, Maintained, NewQueue, ReadStorage, Registers, Registrable, Remove, SharedLazy,
        WorldExt, WriteStorage,
    };
}

/// What calls are refused with.
pub mod error {
    pub use specs_entity::{BoxedErr, Error, WrongGeneration};
}

/// Amounts that are collected for entities, and added to their parts.
pub mod changeset {
    pub use specs_join::{Accumulate, ChangeError, ChangeSet, Overflow, TakeIter};
}

/// Storages and what is lent of them.
pub mod storage {
    pub use specs_layouts::{
        AnyStorage, BTreeStorage, ComponentEvent, DefaultVecStorage, DenseVecStorage,
        DistinctStorage, EventChannel, FlaggedStorage, HashMapStorage, IndexEvent, MaskedStorage,
        NullStorage, ReaderId, Single, SliceAccess, Tracked, TryDefault, UnprotectedStorage,
        VecStorage,
    };
    pub use specs_storage::{
        BuildWith, Drain, Entries, EntryCursor, EntryError, GenericReadStorage,
        GenericWriteStorage, ImmutableAliasing, ImmutableParallelRestriction, InsertResult,
        LendError, LentStorage, LentStorageMut, Loan, MutableParallelRestriction, OccupiedEntry,
        PairCursor, PairedStorage, PairedStorageMut, Place, Restrict, RestrictMut,
        RestrictedStorage, RestrictedStorageMut, SequentialRestriction, Storage, StorageEntry,
        VacantEntry, entry_at,
    };
}

/// Joins, and changes beside them.
pub mod join {
    pub use specs_join::{
        AntiStorage, BitAnd, Change, EachError, Join, JoinCursor, JoinIter, JoinParIter, LaidOut,
        MaybeJoin, ParJoin, SharedSteps, change_each, change_laid_out, change_told, store_all,
    };
}

/// Markers, and entities that are saved and loaded.
pub mod saveload {
    pub use crate::building::{MarkedEntity, MarkedLazily};
    pub use crate::mark::Mark;
    pub use crate::marking::mark_in;
    pub use specs_markers::{
        Marker, MarkerAllocator, SimpleMarker, SimpleMarkerAllocator, UuidMarker,
        UuidMarkerAllocator,
    };
    pub use specs_saveload::deserialize::LoadError;
    pub use specs_saveload::{
        ConvertSaveload, DeserializeComponents, EntityData, FormError, JsonForm, Key,
        MarkedBuilder, Marks, Names, PartForms, Place, SavedMarker, SerializeComponents, bearer,
        list_from_value, plain_from, plain_into,
    };
}
