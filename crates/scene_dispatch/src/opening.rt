//! The queues of a document's systems in a world.
ghost use Rattle.std.specs.Prelude.{◌≡◌, ◌≤◌, ◌++◌, ◌∷◌, [], true, List, length, map, All, IfOk, OnOk, OnErr};
ghost use Rattle.shred_world.specs.Bundles.{holding_of};
ghost use Rattle.scene_document.specs.Drafts.{Draft};
ghost use Rattle.scene_document.specs.DraftViews.{plain_draft};
ghost use Rattle.scene_document.specs.Openings.{all_systems, systems_at};
ghost use Rattle.scene_world.specs.Standing.{seen_in, plain_of};
ghost use Rattle.scene_world.specs.Members.{kinds_by};
ghost use Rattle.scene_dispatch.specs.Opened.{HasEmptyQueue, StandsElse};

use scene_document::EntryDraft;
use scene_model::Queue;
use scene_world::{Rules, SceneValue};
use shred_world::World;
use std::alloc::{AllocError, Global};

/// The places of the systems among entries, from 1, in their order.
///
/// Errors: want of memory.
pub fn places_of_systems<S>(
    entries: &[EntryDraft<'_, S>],
    alloc: Global,
) -> Result<Vec<u32>, AllocError>
    requires few { length entries.now ≤ 4096 }
    ensures { IfOk result (λ places. (plain : Draft) → plain.entries ≡ map plain_draft entries.now
        → places.items ≡ map (λ one. one.position) (all_systems plain)) }
{
    let mut places = Vec::new(alloc);
    for (index, entry) in entries.iter().enumerate() {
        push_place(&mut places, index as u32 + 1, entry)?;
    }
    Ok(places)
}

/// Puts the place of an entry to the others, where a system stands there. Errors: want of memory.
fn push_place<S>(
    places: &mut Vec<u32>,
    place: u32,
    entry: &EntryDraft<'_, S>,
) -> Result<(), AllocError>
    ensures { OnOk result (places.new.items ≡ places.old.items
        ++ map (λ one. one.position) (systems_at (λ one. true) place (plain_draft entry.now ∷ []))) }
{
    let EntryDraft::System(draft) = entry else {
        return Ok(());
    };
    if draft.made.is_some() {
        places.push(place)?;
    }
    Ok(())
}

/// Puts an empty queue for the system at each of these positions into a world, in place of what stands there.
///
/// What stands elsewhere stays, and so does the scene that is seen in the world.
///
/// Errors: want of memory; some of the queues may stand in the world then.
pub fn open_queues<R: Rules>(
    world: &mut World<R::Value>,
    positions: &[u32],
    alloc: Global,
) -> Result<(), AllocError>
where
    R::Value: Drop,
    ensures queues { OnOk result (All (HasEmptyQueue ⟦<R::Value as SceneValue<R::Data>>⟧.places world.new)
        positions.now) }
    ensures others { StandsElse ⟦<R::Value as SceneValue<R::Data>>⟧.places positions.now world.old world.new }
    ensures scene { plain_of (kinds_by R.Rules R.Value.SceneValue) (seen_in (holding_of world.new)) ≡ plain_of
        (kinds_by R.Rules R.Value.SceneValue) (seen_in (holding_of world.old)) }
{
    for position in positions {
        open_queue::<R::Value, R::Data>(world, *position, alloc)?;
    }
    Ok(())
}

/// Puts an empty queue for the system at a position into a world. Errors: want of memory; the world is as it was.
fn open_queue<V: SceneValue<D> + Drop, D: Drop>(
    world: &mut World<V>,
    position: u32,
    alloc: Global,
) -> Result<(), AllocError>
    ensures queue { OnOk result (HasEmptyQueue ⟦<V as SceneValue<D>>⟧.places world.new position) }
    ensures others { StandsElse ⟦<V as SceneValue<D>>⟧.places (position ∷ []) world.old world.new }
    ensures err { OnErr result (world.new ≡ world.old) }
{
    let id = <V as SceneValue<D>>::queue_id(position);
    let value = <V as SceneValue<D>>::wrap_queue(Queue::new(alloc));
    match world.insert_raw(id, value) {
        Ok(_) => Ok(()),
        Err(_) => Err(AllocError),
    }
}
