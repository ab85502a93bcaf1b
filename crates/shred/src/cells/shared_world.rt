//! Resources that several threads fetch from one world.
ghost use Rattle.std.specs.Prelude.{◌≡◌, true, false, OnOk, OnErr, IfOk, IfErr, Some, None, is_some, IfSome};
ghost use Rattle.std.specs.FinMap as map;
ghost use Rattle.shred_world.specs.ResourceIds.{id_of};
ghost use Rattle.shred_world.specs.Worlds.{value_at};
ghost use Rattle.shred.specs.Held.{has_id, with_id, without_id};

use crate::cells::{InvalidBorrow, TrustCell};
use shred_world::{Resource, ResourceId, World};
use std::alloc::{AllocError, AllocFailed, Global};
use std::collections::HashMap;
use std::marker::Model;

mod fetches;

/// Resources in cells, which several threads fetch by a shared reference.
///
/// In a contract it is the set of the ids that have a cell. What a cell holds is known by its type alone.
#[derive(Drop)]
pub struct SharedWorld<V> {
    cells: HashMap<ResourceId, TrustCell<V>>,
}

impl<V> Model for SharedWorld<V> {
    ghost use base.Stored.{coded_unit};
    ghost use Rattle.std.specs.FinMap as map;
    ghost use Rattle.shred_world.specs.ResourceIds.{id_cmp, coded_id};

    ghost Value = { map.FinMap id_cmp (Unit {0}) };

    ghost coded = { map.code coded_id coded_unit };

    ghost view = { λ w. map.from_entries w.cells.entries };
}

impl<V: Drop> SharedWorld<V> {
    /// A shared world without resources, which takes its memory from `alloc`.
    pub fn empty(alloc: Global) -> SharedWorld<V>
        ensures { result ≡ map.empty }
    {
        SharedWorld {
            cells: HashMap::new(alloc),
        }
    }

    /// Puts the resource into a cell under its type's id; a cell that stood there is dropped.
    ///
    /// Errors: want of memory, which hands `resource` back and leaves the world as it was.
    pub fn insert<R: Resource<V>>(&mut self, resource: R) -> Result<(), AllocFailed<R>>
        ensures ok { OnOk result (self.new ≡ with_id self.old (id_of R.kind_number 0)) }
        ensures err { OnErr result (self.new ≡ self.old) }
        ensures handed_back { IfErr result (λ refused. refused.value ≡ resource) }
    {
        self.insert_by_id(ResourceId::new::<V, R>(), resource)
    }

    /// Puts the resource into a cell under `id`; a cell that stood there is dropped.
    ///
    /// Errors: want of memory, which hands `resource` back and leaves the world as it was.
    pub fn insert_by_id<R: Resource<V>>(
        &mut self,
        id: ResourceId,
        resource: R,
    ) -> Result<(), AllocFailed<R>>
        requires kind { id.kind ≡ R.kind_number }
        ensures ok { OnOk result (self.new ≡ with_id self.old id) }
        ensures err { OnErr result (self.new ≡ self.old) }
        ensures handed_back { IfErr result (λ refused. refused.value ≡ resource) }
    {
        match self.insert_raw(id, resource.wrap()) {
            Ok(()) => Ok(()),
            Err(AllocFailed { value }) => match R::unwrap(value) {
                Ok(resource) => Err(AllocFailed { value: resource }),
                Err(_) => unreachable!(),
            },
        }
    }

    /// Takes the cell under `id` out.
    pub fn remove_raw(&mut self, id: ResourceId) -> Option<TrustCell<V>>
        ensures value { is_some result ≡ has_id self.old id }
        ensures removed { self.new ≡ without_id self.old id }
    {
        self.cells.remove(&id)
    }

    /// Whether the type's id has a cell.
    pub fn has_value<R: Resource<V>>(&self) -> bool
        ensures { result ≡ has_id self.now (id_of R.kind_number 0) }
    {
        self.has_value_raw(ResourceId::new::<V, R>())
    }

    /// Whether `id` has a cell.
    pub fn has_value_raw(&self, id: ResourceId) -> bool
        ensures { result ≡ has_id self.now id }
    {
        self.try_fetch_internal(id).is_some()
    }

    /// The cell under `id`.
    pub fn try_fetch_internal(&self, id: ResourceId) -> Option<&TrustCell<V>>
        ensures { is_some result ≡ has_id self.now id }
    {
        self.cells.get(&id)
    }

    /// Takes the value under `id` out of a world into a cell, and answers whether there was one. Its slot stays in the world.
    ///
    /// Errors: `AllocError`, which leaves both worlds as they were.
    pub fn take_from(&mut self, world: &mut World<V>, id: ResourceId) -> Result<bool, AllocError>
        ensures value { IfOk result (λ taken. taken ≡ is_some (value_at world.old id)) }
        ensures taken { IfOk result (λ taken. taken ≡ true → self.new ≡ with_id self.old id) }
        ensures left { IfOk result (λ taken. taken ≡ true → world.new ≡ map.insert world.old id None) }
        ensures absent { IfOk result (λ taken. taken ≡ false → self.new ≡ self.old) }
        ensures absent_there { IfOk result (λ taken. taken ≡ false → world.new ≡ world.old) }
        ensures err { OnErr result (self.new ≡ self.old) }
        ensures err_there { OnErr result (world.new ≡ world.old) }
    {
        let Some(value) = world.take_raw(id) else {
            return Ok(false);
        };
        match self.insert_raw(id, value) {
            Ok(()) => Ok(true),
            Err(AllocFailed { value }) => {
                world.put_back(id, value);
                Err(AllocError)
            }
        }
    }

    /// Puts the value in the cell under `id` back into its slot in a world. The cell is gone.
    ///
    /// Errors: `InvalidBorrow` where the value went out with a writer that was never dropped; its slot stays empty.
    pub fn give_back_to(
        &mut self,
        world: &mut World<V>,
        id: ResourceId,
    ) -> Result<(), InvalidBorrow>
        requires held { has_id self.old id ≡ true }
        requires is_out { map.get world.old id ≡ Some None }
        ensures removed { self.new ≡ without_id self.old id }
        ensures ok { OnOk result ((value : V) × (world.new ≡ map.insert world.old id (Some value))) }
        ensures err { OnErr result (world.new ≡ world.old) }
    {
        match self.remove_raw(id) {
            Some(cell) => {
                world.put_back(id, cell.into_inner()?);
                Ok(())
            }
            None => unreachable!(),
        }
    }

    /// Puts the value into a cell under `id`.
    fn insert_raw(&mut self, id: ResourceId, value: V) -> Result<(), AllocFailed<V>>
        ensures ok { OnOk result (self.new ≡ with_id self.old id) }
        ensures err { OnErr result (self.new ≡ self.old) }
        ensures handed_back { IfErr result (λ refused. refused.value ≡ value) }
    {
        if self.cells.reserve(1).is_err() {
            return Err(AllocFailed { value });
        }
        match self.cells.insert(id, TrustCell::new(value)) {
            Ok(_was) => Ok(()),
            Err(_) => unreachable!(),
        }
    }
}
