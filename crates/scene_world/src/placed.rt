//! Systems of rules at their positions among the entries of a document, as a dispatcher owns them.
ghost use Rattle.std.specs.Prelude.{◌≡◌, ◌++◌, true, None, map, IfOk, OnOk, IfSome, IfNone};
ghost use Rattle.scene_model.specs.Declaring.{texts, access_of};
ghost use Rattle.scene_world.specs.Lent.{id_of_place, read_places, written_places};
ghost use Rattle.scene_world.specs.Places.{TakesQueue};
ghost use Rattle.scene_world.specs.Turns.{TakesTurn};
ghost use Rattle.scene_world.specs.Members.{kinds_by, placed_by};

use crate::{Rules, SceneValue};
use scene_model::{Queue, SystemAccess};
use shred_plan::RunningTime;
use shred_stages::{BatchAccessor, Stop, System};
use shred_world::{Holder, ResourceId, World};
use std::alloc::{AllocError, Global};

/// A system at its position.
///
/// It reads the entities, their markers, the allocator of ids and what it declares; it writes what it declares as
/// written, and the queue under its position as dynamic number. After an accepted run, and where it was too full, that
/// queue holds the commands of the run and no others.
#[derive(Drop)]
pub struct Placed<R: Rules> {
    /// The position, counted from 1.
    pub position: u32,
    /// The system.
    pub system: R::System,
}

impl<R: Rules> System<R::Value> for Placed<R> {
    ghost meets = { TakesTurn (kinds_by R.Rules R.Value.SceneValue) (placed_by R.Rules) };

    ghost read_list = { λ placed. map (id_of_place (kinds_by R.Rules R.Value.SceneValue)) (read_places
        (R.declared placed.system)) };

    ghost write_list = { λ placed. map (id_of_place (kinds_by R.Rules R.Value.SceneValue)) (written_places
        (R.declared placed.system) placed.position) };

    ghost said_time = { λ placed. R.said_time placed.system };

    ghost sets_up = { λ placed accepted world after later. (accepted ≡ true) × (after ≡ placed)
        × (later ≡ world) };

    ghost disposes = { λ placed refused world later. (refused ≡ None) × (later ≡ world) };

    fn run<H: AllocGlobal, W: Holder<R::Value>>(
        &mut self,
        rt: &H,
        view: &mut W,
    ) -> Result<(), Stop> {
        let Some(mut queue) = take_queue::<R::Value, R::Data, W>(view, self.position) else {
            return Err(Stop::Memory);
        };
        queue.clear();
        let result = R::run(rt, &mut self.system, view, &mut queue);
        let id = <R::Value as SceneValue<R::Data>>::queue_id(self.position);
        view.put(id, <R::Value as SceneValue<R::Data>>::wrap_queue(queue));
        result
    }

    fn running_time(&self) -> RunningTime {
        R::running_time(&self.system)
    }

    fn accessor(&self, alloc: Global) -> Result<BatchAccessor, AllocError> {
        let declared = R::accessor(&self.system, alloc)?;
        let reads = read_ids::<R>(alloc, &declared)?;
        let writes = written_ids::<R>(alloc, &declared, self.position)?;
        Ok(BatchAccessor::new(reads, writes))
    }

    fn setup(&mut self, _world: &mut World<R::Value>) -> Result<(), AllocError> {
        Ok(())
    }

    fn dispose(self, _world: &mut World<R::Value>) -> Result<(), Stop> {
        drop(self);
        Ok(())
    }
}

/// Takes the queue of the system at a position out of what is held, if there is one.
fn take_queue<V: SceneValue<D>, D: Drop, W: Holder<V>>(
    view: &mut W,
    position: u32,
) -> Option<Queue<D>>
    ensures some { IfSome result (λ queue. TakesQueue ⟦<V as SceneValue<D>>⟧.places position
        (W.slots view.old) queue (W.slots view.new)) }
    ensures none { IfNone result (W.slots view.new ≡ W.slots view.old) }
{
    let id = <V as SceneValue<D>>::queue_id(position);
    let value = view.take(id)?;
    match <V as SceneValue<D>>::unwrap_queue(value) {
        Ok(queue) => Some(queue),
        Err(other) => {
            view.put(id, other);
            None
        }
    }
}

/// The ids of what is read where this is declared.
///
/// Errors: want of memory.
fn read_ids<R: Rules>(alloc: Global, declared: &SystemAccess) -> Result<Vec<ResourceId>, AllocError>
    ensures { IfOk result (λ ids. ids.items ≡ map (id_of_place (kinds_by R.Rules R.Value.SceneValue))
        (read_places (access_of declared.now))) }
{
    let mut ids = Vec::new(alloc);
    ids.push(<R::Value as SceneValue<R::Data>>::entities_id())?;
    ids.push(<R::Value as SceneValue<R::Data>>::markers_id())?;
    ids.push(<R::Value as SceneValue<R::Data>>::allocator_id())?;
    push_parts::<R>(&mut ids, &declared.reads)?;
    push_globals::<R>(&mut ids, &declared.read_globals)?;
    Ok(ids)
}

/// The ids of what is written where this is declared, by the system at a position.
///
/// Errors: want of memory.
fn written_ids<R: Rules>(
    alloc: Global,
    declared: &SystemAccess,
    position: u32,
) -> Result<Vec<ResourceId>, AllocError>
    ensures { IfOk result (λ ids. ids.items ≡ map (id_of_place (kinds_by R.Rules R.Value.SceneValue))
        (written_places (access_of declared.now) position)) }
{
    let mut ids = Vec::new(alloc);
    ids.push(<R::Value as SceneValue<R::Data>>::queue_id(position))?;
    push_parts::<R>(&mut ids, &declared.writes)?;
    push_globals::<R>(&mut ids, &declared.written_globals)?;
    Ok(ids)
}

/// Puts the ids of parts behind others. Errors: want of memory.
fn push_parts<R: Rules>(ids: &mut Vec<ResourceId>, names: &[&'static str]) -> Result<(), AllocError>
    ensures { OnOk result (ids.new.items ≡ ids.old.items ++ map R.columns.part_id (texts names.now)) }
{
    for name in names {
        ids.push(R::part_id(name))?;
    }
    Ok(())
}

/// Puts the ids of globals behind others. Errors: want of memory.
fn push_globals<R: Rules>(
    ids: &mut Vec<ResourceId>,
    names: &[&'static str],
) -> Result<(), AllocError>
    ensures { OnOk result (ids.new.items ≡ ids.old.items ++ map R.columns.global_id (texts names.now)) }
{
    for name in names {
        ids.push(R::global_id(name))?;
    }
    Ok(())
}
