//! Where the resources of a type stand in a world, as contracts say it.
ghost use Rattle.specs_world.specs.Resources.{place};

use shred_world::Resource;

/// A type of resources, by the place at which a world over `V` holds one. It has no call, and each type of resources has it.
pub trait Held<V>: Sized {
    ghost use Rattle.specs_world.specs.Resources.{Place};

    /// Where a world holds the resource.
    ghost stands_at: { Place V Self };
}

impl<V, R: Resource<V>> Held<V> for R {
    ghost stands_at = { place R.part R.wrapped R.kind_number };
}
