//! Reaping: the deletion of each entity is accepted whose position is as far as the limit.
ghost use Rattle.std.specs.Prelude.{◌≡◌, ◌<◌, if◌then◌else◌};
ghost use Rattle.specs.specs.ForWorlds.{Leaves};
ghost use Rattle.specs.specs.ForSystems.{error_of};
ghost use Rattle.specs.specs.ForStorages.{deleted, living};
ghost use Rattle.simulation.specs.Steps.{Accepted, Accepts, Reaps, is_far, is_reaped};

use crate::parts::Position;
use crate::values::Value;
use specs::{
    BitSetLike, Component, EntitiesRes, Holder, Index, MaskedStorage, ReadStorage, Stop,
    SystemData, UnprotectedStorage, WriteExpect,
};

/// How far an entity comes before it dies.
pub const LIMIT: u64 = 100;

/// What reaping fetches.
pub type Reapable = (WriteExpect<EntitiesRes>, ReadStorage<Position>);

/// Whether an index has a position that is as far as the limit.
fn has_come_far(positions: &MaskedStorage<Position>, id: Index) -> bool
    ensures { result ≡ is_far (⟦<<Position as Component>::Storage as UnprotectedStorage<Position>>⟧.part_at
        positions.now.inner id) }
{
    positions.contains(id) && positions.get(id).0 >= LIMIT
}

/// Accepts the deletion of the entity at an index, if one lives there and it has come far.
fn accept_at(entities: &mut EntitiesRes, positions: &MaskedStorage<Position>, id: Index)
    ensures { entities.new ≡ (if is_reaped
        (⟦<<Position as Component>::Storage as UnprotectedStorage<Position>>⟧.part_at positions.now.inner id)
        (living entities.old id) then deleted entities.old id else entities.old) }
{
    if has_come_far(positions, id) {
        let entity = entities.entity(id);
        let _ = entities.delete(entity);
    }
}

/// Accepts the deletion of each entity that has come far.
pub fn accept_far(entities: &mut EntitiesRes, positions: &MaskedStorage<Position>)
    ensures { Accepts (⟦<<Position as Component>::Storage as UnprotectedStorage<Position>>⟧.part_at positions.now.inner)
        entities.old entities.new }
{
    for id in positions.mask().iter() {
        accept_at(entities, positions, id);
    }
}

/// Accepts the deletion of each entity that has come far, in a world or in a view of one.
///
/// Errors: `Full`, where the entities or the storage are wanting.
pub fn reap_all<H: Holder<Value>>(holder: &mut H) -> Result<(), Stop>
    ensures reaps { Accepted Reaps (H.slots holder.old) (error_of result) (H.slots holder.new) }
    ensures leaves { Leaves (H.slots holder.old) (H.slots holder.new) }
{
    let Ok((mut entities, positions)) = <Reapable as SystemData<Value>>::fetch(holder) else {
        return Err(Stop::Full);
    };
    accept_far(&mut entities.value, positions.get(holder));
    SystemData::give_back((entities, positions), holder);
    Ok(())
}
