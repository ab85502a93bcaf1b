//! How a queue that a system writes comes to be there.
ghost use Rattle.std.specs.Prelude.{◌≡◌, []};
ghost use Rattle.shred_world.specs.Bundles.{DefaultsTo};

use crate::Held;
use crate::adding::put_queue;
use crate::lazy::LazyUpdate;
use shred_world::{Resource, SetupHandler, World};
use std::alloc::AllocError;

/// Puts a queue without jobs in where no value stands; one that is there stays, with its jobs.
#[derive(Drop)]
pub struct NewQueue;

impl<V: Drop, J: Drop> SetupHandler<V, LazyUpdate<J>> for NewQueue
where
    LazyUpdate<J>: Resource<V>,
{
    ghost sets_up = { DefaultsTo (λ queue. queue ≡ [])
        ⟦<LazyUpdate<J> as Held<V>>⟧.stands_at.wrapped ⟦<LazyUpdate<J> as Held<V>>⟧.stands_at.id };

    /// Puts the queue in. Errors: want of memory, which leaves the world as it was.
    fn setup(world: &mut World<V>) -> Result<(), AllocError> {
        if world.has_value::<LazyUpdate<J>>() {
            return Ok(());
        }
        put_queue::<V, J>(world)
    }
}
