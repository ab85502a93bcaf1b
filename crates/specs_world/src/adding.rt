//! Queues that are put into a world.
ghost use Rattle.std.specs.Prelude.{◌≡◌, OnOk, OnErr, Some, []};
ghost use Rattle.std.specs.FinMap as map;
ghost use Rattle.shred_world.specs.ResourceIds.{id_of};
ghost use Rattle.specs_world.specs.Maintaining.{HasQueue, HasShared, HasQueues};

use crate::Held;
use crate::lazy::LazyUpdate;
use crate::shared::SharedLazy;
use shred_world::{Resource, World};
use std::alloc::AllocError;

/// Puts a resource in.
///
/// Errors: want of memory, which drops it and leaves the world as it was.
fn put<V: Drop, R: Resource<V> + Drop>(world: &mut World<V>, resource: R) -> Result<(), AllocError>
    ensures ok { OnOk result (world.new ≡ map.insert world.old (id_of R.kind_number 0) (Some (R.wrapped resource))) }
    ensures err { OnErr result (world.new ≡ world.old) }
{
    world.insert(resource)?;
    Ok(())
}

/// Puts the queue of the number 0 in, without jobs.
///
/// Errors: want of memory, which leaves the world as it was.
pub(crate) fn put_queue<V: Drop, J: Drop>(world: &mut World<V>) -> Result<(), AllocError>
where
    LazyUpdate<J>: Resource<V>,
    ensures ok { OnOk result (HasQueue ⟦<LazyUpdate<J> as Held<V>>⟧.stands_at world.old world.new) }
    ensures err { OnErr result (world.new ≡ world.old) }
{
    let alloc = world.alloc();
    put(world, LazyUpdate::<J>::new(alloc))
}

/// Puts a shared queue in.
///
/// Errors: want of memory, which leaves the world as it was.
fn put_shared<V: Drop, J: Drop>(world: &mut World<V>) -> Result<(), AllocError>
where
    SharedLazy<J>: Resource<V>,
    ensures ok { OnOk result (HasShared ⟦<SharedLazy<J> as Held<V>>⟧.stands_at world.old world.new) }
    ensures err { OnErr result (world.new ≡ world.old) }
{
    match SharedLazy::<J>::new(world.alloc()) {
        Ok(shared) => put(world, shared),
        Err(_) => Err(AllocError),
    }
}

/// Puts the queue of the number 0 in, without jobs, and a shared queue.
///
/// Errors: want of memory.
pub(crate) fn add_queues<V: Drop, J: Drop>(world: &mut World<V>) -> Result<(), AllocError>
where
    LazyUpdate<J>: Resource<V>,
    SharedLazy<J>: Resource<V>,
    ensures { OnOk result (HasQueues ⟦<LazyUpdate<J> as Held<V>>⟧.stands_at
        ⟦<SharedLazy<J> as Held<V>>⟧.stands_at world.old world.new) }
{
    put_queue::<V, J>(world)?;
    put_shared::<V, J>(world)
}
