//! Resources that are taken out of a world for a while.
ghost use Rattle.std.specs.Prelude.{◌≡◌, None, Some, IfSome, IfNone};
ghost use Rattle.std.specs.FinMap as map;
ghost use Rattle.shred_world.specs.ResourceIds.{id_of};
ghost use Rattle.shred_world.specs.Worlds.{resource_at};

use shred_world::{Resource, ResourceId, World};

/// Takes the resource under its type's id out for a while; its slot stays. A value of another kind stays.
pub(crate) fn take_out<V, R: Resource<V>>(world: &mut World<V>) -> Option<R>
    ensures value { result ≡ resource_at R.part world.old (id_of R.kind_number 0) }
    ensures out { IfSome result (λ _. world.new ≡ map.insert world.old (id_of R.kind_number 0) None) }
    ensures none { IfNone result (world.new ≡ world.old) }
{
    let id = ResourceId::new::<V, R>();
    match R::unwrap(world.take_raw(id)?) {
        Ok(resource) => Some(resource),
        Err(value) => {
            world.put_back(id, value);
            None
        }
    }
}

/// Puts a resource back into the slot that was left under its type's id. Takes no memory.
pub(crate) fn put_in<V, R: Resource<V>>(world: &mut World<V>, resource: R)
    requires is_out { map.get world.old (id_of R.kind_number 0) ≡ Some None }
    ensures { world.new ≡ map.insert world.old (id_of R.kind_number 0) (Some (R.wrapped resource)) }
{
    world.put_back(ResourceId::new::<V, R>(), resource.wrap());
}
