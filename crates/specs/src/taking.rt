//! Resources that are out of a world while an entity is marked.
ghost use Rattle.std.specs.Prelude.{◌≡◌, None, Some, IfSome, IfNone};
ghost use Rattle.std.specs.FinMap as map;
ghost use Rattle.specs_world.specs.Resources.{held};

use shred_world::{Resource, ResourceId, World};
use specs_world::Held;

/// Takes the resource under its type's id out; its slot stays. A value of another kind stays.
pub(crate) fn borrow<V, R: Resource<V>>(world: &mut World<V>) -> Option<R>
    ensures value { result ≡ held ⟦<R as Held<V>>⟧.stands_at world.old }
    ensures out { IfSome result (λ _. world.new ≡ map.insert world.old ⟦<R as Held<V>>⟧.stands_at.id None) }
    ensures none { IfNone result (world.new ≡ world.old) }
{
    let id = ResourceId::new::<V, R>();
    match R::unwrap(world.take_raw(id)?) {
        Ok(resource) => Some(resource),
        Err(value) => {
            world.put_back(id, value);
            None
        }
    }
}

/// Puts a resource back into the slot that was left under its type's id. Takes no memory.
pub(crate) fn give_back<V, R: Resource<V>>(world: &mut World<V>, resource: R)
    requires is_out { map.get world.old ⟦<R as Held<V>>⟧.stands_at.id ≡ Some None }
    ensures { world.new ≡ map.insert world.old ⟦<R as Held<V>>⟧.stands_at.id
        (Some (⟦<R as Held<V>>⟧.stands_at.wrapped resource)) }
{
    world.put_back(ResourceId::new::<V, R>(), resource.wrap());
}
