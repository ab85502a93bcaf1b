//! Calls on entities that follow a death: who died before them is dead after them, whatever they are.
ghost use Rattle.std.specs.Prelude.{◌≡◌, IfOk, List};
ghost use Rattle.specs_entity.specs.Births.{Births, Continues, IsDead};
ghost use Rattle.specs.specs.Histories.{ContinuesAlong, last_of};

use specs::laws::the_dead_stay_dead;
use specs_entity::{EntitiesRes, Entity, Error};
use std::alloc::Global;

/// A call on entities.
#[derive(Clone, Copy)]
pub enum Call {
    /// A birth that is persistent at once.
    Allocates,
    /// A birth that is persistent from the next merge on.
    Creates,
    /// So many such births.
    CreatesRow(usize),
    /// The death of the entity that stands for an index.
    Kills(u32),
    /// Its death at the next merge.
    Deletes(u32),
    /// The deaths that were put off.
    Merges,
}

/// Makes a call, which may be refused.
fn make(entities: &mut EntitiesRes, call: Call)
    ensures { Continues entities.old entities.new }
{
    match call {
        Call::Allocates => drop(entities.allocate()),
        Call::Creates => drop(entities.create()),
        Call::CreatesRow(count) => drop(entities.create_iter(count)),
        Call::Kills(id) => {
            let entity = entities.entity(id);
            drop(entities.kill(&[entity]));
        }
        Call::Deletes(id) => {
            let entity = entities.entity(id);
            drop(entities.delete(entity));
        }
        Call::Merges => drop(entities.merge()),
    }
}

/// Makes calls, one after the other, each of which may be refused.
fn go_on(entities: &mut EntitiesRes, calls: &[Call])
    ensures { (later : List Births) × ContinuesAlong entities.old later × (last_of entities.old later ≡ entities.new) }
{
    for each in calls {
        make(entities, *each);
    }
}

/// Lets an entity be born and die, and makes calls after that: it is dead then.
///
/// Errors: those of `EntitiesRes::allocate`.
pub fn die_for_good(entities: &mut EntitiesRes, calls: &[Call]) -> Result<Entity, Error>
    ensures { IfOk result (λ entity. IsDead entities.new entity) }
{
    let entity = entities.allocate()?;
    entities.kill(&[entity])?;
    go_on(entities, calls);
    the_dead_stay_dead(entity);
    Ok(entity)
}
