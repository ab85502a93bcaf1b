//! How systems ask for what is done between dispatches: each writes a queue of its own, under its own number.
ghost use Rattle.std.specs.Prelude.{◌≡◌, ◌<◌, ℕ, OnOk, OnErr, IfErr};
ghost use Rattle.shred_world.specs.Leaving.{Leaves};
ghost use Rattle.specs_entity.specs.declared.errors.Error.TheVariants as refusal;
ghost use Rattle.specs.specs.Asking.{Asks, queue_id, with_queue, with_queues};

use shred_world::{
    DynamicSystemData, Holder, Resource, ResourceId, World, WriteAccessor, WriteExpect,
};
use specs_entity::Error;
use specs_world::{Held, LazyUpdate};
use std::alloc::AllocError;

/// What a system that asks fetches: the queue under its own number.
pub type OwnQueue<J> = WriteExpect<LazyUpdate<J>>;

/// Tells that a system writes the queue under its own number.
///
/// Systems under two numbers may run at once, as far as their queues go. 0 is the number of the world's own queue.
pub fn own_queue<V, J>(number: u64) -> WriteAccessor
where
    LazyUpdate<J>: Resource<V>,
    ensures { result.id ≡ queue_id ⟦<LazyUpdate<J> as Held<V>>⟧.stands_at number }
{
    WriteAccessor {
        id: ResourceId::new_with_dynamic_id::<V, LazyUpdate<J>>(number),
    }
}

/// Queues a job under a number, behind those that wait there, in a world or in a view of one. Nobody is waited for: a
/// system that writes the queue has it alone.
///
/// Errors: `NotRegistered`, where there is no queue under the number; `Memory`. Both hand `job` back, and all is as it
/// was.
pub fn ask<V, J, H: Holder<V>>(holder: &mut H, number: u64, job: J) -> Result<(), (Error, J)>
where
    LazyUpdate<J>: Resource<V>,
    ensures ok { OnOk result (Asks ⟦<LazyUpdate<J> as Held<V>>⟧.stands_at number job
        (H.slots holder.old) (H.slots holder.new)) }
    ensures err { OnErr result (H.slots holder.new ≡ H.slots holder.old) }
    ensures handed_back { IfErr result (λ refused. refused.1 ≡ job) }
    ensures leaves { Leaves (H.slots holder.old) (H.slots holder.new) }
{
    let access = own_queue::<V, J>(number);
    let Ok(mut queue) = <OwnQueue<J> as DynamicSystemData<V>>::fetch(&access, holder) else {
        return Err((Error::NotRegistered, job));
    };
    let asked = queue.value.exec(job);
    DynamicSystemData::give_back(queue, &access, holder);
    match asked {
        Ok(()) => Ok(()),
        Err(refused) => Err((Error::Memory, refused.value)),
    }
}

/// Puts a queue without jobs in under a number, where no value stands.
///
/// Errors: want of memory, which leaves the world as it was.
pub fn add_queue_under<V: Drop, J: Drop>(
    world: &mut World<V>,
    number: u64,
) -> Result<(), AllocError>
where
    LazyUpdate<J>: Resource<V>,
    ensures ok { OnOk result (world.new ≡ with_queue ⟦<LazyUpdate<J> as Held<V>>⟧.stands_at world.old number) }
    ensures err { OnErr result (world.new ≡ world.old) }
{
    let id = ResourceId::new_with_dynamic_id::<V, LazyUpdate<J>>(number);
    if world.has_value_raw(id) {
        return Ok(());
    }
    let alloc = world.alloc();
    world.insert_by_id(id, LazyUpdate::<J>::new(alloc))?;
    Ok(())
}

/// Puts a queue without jobs in for each of so many systems, under the numbers from 1 on, where no value stands.
///
/// Errors: want of memory; queues under the first numbers may be there then.
pub fn add_queues_for<V: Drop, J: Drop>(
    world: &mut World<V>,
    systems: u64,
) -> Result<(), AllocError>
where
    LazyUpdate<J>: Resource<V>,
    ensures ok { OnOk result (world.new ≡ with_queues ⟦<LazyUpdate<J> as Held<V>>⟧.stands_at world.old systems) }
    ensures err { OnErr result ((made : ℕ) × (made < systems)
        × (world.new ≡ with_queues ⟦<LazyUpdate<J> as Held<V>>⟧.stands_at world.old made)) }
{
    for place in 0..systems {
        add_queue_under::<V, J>(world, place + 1)?;
    }
    Ok(())
}
