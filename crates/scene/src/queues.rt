//! The queues of systems, taken out of a world and put back empty.
ghost use Rattle.std.specs.Prelude.{◌≡◌, [], ◌∷◌, map, IfOk, OnOk};
ghost use Rattle.scene_model.specs.Queues.{plain_commands, waiting};
ghost use Rattle.scene_world.specs.Standing.{commands_of};
ghost use Rattle.scene_world.specs.Members.{kinds_by};
ghost use Rattle.scene_commands.specs.Acts.{seen_of};
ghost use Rattle.scene.specs.Waiting.{PlacesAscend, NoneWaitsAt, StaysBeside};

use scene_model::Queue;
use scene_world::{Rules, SceneValue};
use shred_world::World;
use std::alloc::{AllocError, Global};

/// Takes the queue at a place out of a world. Errors: where there is none, told as want of memory.
fn take_queue<R: Rules>(
    world: &mut World<R::Value>,
    place: u32,
) -> Result<Queue<R::Data>, AllocError>
    ensures queue { IfOk result (λ queue. plain_commands R.part_of (waiting queue) ≡ commands_of
        (kinds_by R.Rules R.Value.SceneValue) (seen_of world.old) place) }
    ensures beside { OnOk result
        (StaysBeside (kinds_by R.Rules R.Value.SceneValue) (place ∷ []) world.old world.new) }
{
    let id = <R::Value as SceneValue<R::Data>>::queue_id(place);
    let Some(value) = world.take_raw(id) else {
        return Err(AllocError);
    };
    match <R::Value as SceneValue<R::Data>>::unwrap_queue(value) {
        Ok(queue) => Ok(queue),
        Err(other) => {
            world.put_back(id, other);
            Err(AllocError)
        }
    }
}

/// Takes the queues at places out of a world, that of the first place first.
///
/// Errors: want of memory, and where there is no queue at a place.
pub(crate) fn take_queues<R: Rules>(
    world: &mut World<R::Value>,
    places: &[u32],
    alloc: Global,
) -> Result<Vec<Queue<R::Data>>, AllocError>
    requires ascend { PlacesAscend places.now }
    ensures queues { IfOk result (λ queues. map (λ queue. plain_commands R.part_of (waiting queue)) queues.items
        ≡ map (commands_of (kinds_by R.Rules R.Value.SceneValue) (seen_of world.old)) places.now) }
    ensures beside { OnOk result
        (StaysBeside (kinds_by R.Rules R.Value.SceneValue) places.now world.old world.new) }
{
    let mut queues = Vec::new(alloc);
    for place in places {
        let queue = take_queue::<R>(world, *place)?;
        queues.push(queue)?;
    }
    Ok(queues)
}

/// Puts an empty queue in at a place, of which the room is that of this one. Errors: want of memory.
fn put_queue<R: Rules>(
    world: &mut World<R::Value>,
    place: u32,
    mut queue: Queue<R::Data>,
) -> Result<(), AllocError>
where
    R::Value: Drop,
    ensures empty { OnOk result
        (commands_of (kinds_by R.Rules R.Value.SceneValue) (seen_of world.new) place ≡ []) }
    ensures beside { OnOk result
        (StaysBeside (kinds_by R.Rules R.Value.SceneValue) (place ∷ []) world.old world.new) }
{
    queue.clear();
    let id = <R::Value as SceneValue<R::Data>>::queue_id(place);
    match world.insert_raw(id, <R::Value as SceneValue<R::Data>>::wrap_queue(queue)) {
        Ok(_) => Ok(()),
        Err(_) => Err(AllocError),
    }
}

/// The last of some queues, or a new one where there is none.
fn last_of<D: Drop>(queues: &mut Vec<Queue<D>>, alloc: Global) -> Queue<D> {
    match queues.pop() {
        Some(queue) => queue,
        None => Queue::new(alloc),
    }
}

/// Puts an empty queue in at each of some places, the room of which is that of these queues, of the first for the
/// first.
///
/// Errors: want of memory.
pub(crate) fn put_queues<R: Rules>(
    world: &mut World<R::Value>,
    places: &[u32],
    mut queues: Vec<Queue<R::Data>>,
    alloc: Global,
) -> Result<(), AllocError>
where
    R::Value: Drop,
    requires ascend { PlacesAscend places.now }
    ensures empty { OnOk result
        (NoneWaitsAt (kinds_by R.Rules R.Value.SceneValue) places.now (seen_of world.new)) }
    ensures beside { OnOk result
        (StaysBeside (kinds_by R.Rules R.Value.SceneValue) places.now world.old world.new) }
{
    queues.reverse();
    for place in places {
        let queue = last_of(&mut queues, alloc);
        put_queue::<R>(world, *place, queue)?;
    }
    Ok(())
}
