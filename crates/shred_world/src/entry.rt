//! A place under a resource type's id, at which a resource stands or can be put.
ghost use Rattle.std.specs.Prelude.{◌≡◌, false, is_some, IfOk, IfErr};
ghost use Rattle.std.specs.Borrow.{sem};
ghost use Rattle.shred_world.specs.Worlds.{value_at, resource_or, HasKind, IsThereOr};
ghost use Rattle.shred_world.specs.ResourceIds.{id_of};
ghost use Rattle.shred_world.specs.Lending.{LendsInserted};

use crate::{Resource, World};
use std::alloc::{AllocError, AllocFailed};
use std::marker::PhantomData;

/// The place under a resource type's id.
pub struct Entry<'a, V, R> {
    /// The world that has the place.
    pub world: &'a mut World<V>,
    pub(crate) resource: PhantomData<R>,
}

impl<'a, V, R: Resource<V> + Drop> Entry<'a, V, R> {
    /// Puts `resource` in where none stands, and lends what stands there then.
    ///
    /// Errors: want of memory, which hands `resource` back and leaves the world as it was.
    pub fn or_insert(self, resource: R) -> Result<&'a mut R, AllocFailed<R>>
        requires kind { HasKind R.part self.world.now (id_of R.kind_number 0) }
        ensures* writes_back { sem 𝓛 (LendsInserted V.row R.row R.wrapped self.entry.world
            (id_of R.kind_number 0) result) }
        ensures value { IfOk result (λ lent.
            lent.now ≡ resource_or R.part self.entry.world.now (id_of R.kind_number 0) resource) }
        ensures handed_back { IfErr result (λ refused. refused.value ≡ resource) }
    {
        let Entry { world, resource: _ } = self;
        world.or_insert(resource)
    }

    /// Puts in what `make` gives where no resource stands, and lends what stands there then; `make` is called only there.
    ///
    /// Errors: want of memory, which leaves the world as it was.
    pub fn or_insert_with<F: FnOnce() -> R + Drop>(self, make: F) -> Result<&'a mut R, AllocError>
        requires kind { HasKind R.part self.world.now (id_of R.kind_number 0) }
        requires callable { is_some (value_at self.world.now (id_of R.kind_number 0)) ≡ false → F.pre make }
        ensures* writes_back { sem 𝓛 (LendsInserted V.row R.row R.wrapped self.entry.world
            (id_of R.kind_number 0) result) }
        ensures value { IfOk result (λ lent.
            IsThereOr (F.post make) R.part self.entry.world.now (id_of R.kind_number 0) lent.now) }
    {
        let Entry { world, resource: _ } = self;
        world.or_insert_with(make)
    }
}
