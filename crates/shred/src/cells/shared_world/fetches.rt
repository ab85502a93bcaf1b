//! What a shared world lends.
ghost use Rattle.std.specs.Prelude.{◌≡◌, true, false, OnOk, OnErr, IfOk, IfErr, None};
ghost use Rattle.shred_world.specs.ResourceIds.{id_of};
ghost use Rattle.shred.specs.Held.{has_id, IsFetchError};

use crate::cells::{FetchError, InvalidBorrow, SharedFetch, SharedFetchMut, SharedWorld};
use shred_world::{Missing, Resource, ResourceId};
use std::sync::Wait;

impl<V: Drop> SharedWorld<V> {
    /// The resource under its type's id, for reading, beside other readers.
    ///
    /// Errors: `Missing` where its id has no cell, or a value of another kind stands in it; `Borrowed` where a writer has its
    /// cell, or as many readers as can be.
    pub fn fetch<R: Resource<V>>(&self, rt: &impl Wait) -> Result<SharedFetch<'_, V, R>, FetchError>
        ensures ok { OnOk result (has_id self.now (id_of R.kind_number 0) ≡ true) }
        ensures err { IfErr result (IsFetchError self.now (id_of R.kind_number 0)) }
    {
        let id = ResourceId::new::<V, R>();
        match self.try_fetch::<R>(rt) {
            Ok(Some(lent)) => Ok(lent),
            Ok(None) => Err(FetchError::Missing(Missing { id })),
            Err(refused) => Err(FetchError::Borrowed(refused)),
        }
    }

    /// The resource under its type's id, for reading, beside other readers.
    ///
    /// Errors: `InvalidBorrow` where a writer has its cell, or as many readers as can be.
    pub fn try_fetch<R: Resource<V>>(
        &self,
        rt: &impl Wait,
    ) -> Result<Option<SharedFetch<'_, V, R>>, InvalidBorrow>
        ensures absent { has_id self.now (id_of R.kind_number 0) ≡ false → IfOk result (λ lent. lent ≡ None) }
        ensures err { OnErr result (has_id self.now (id_of R.kind_number 0) ≡ true) }
    {
        self.try_fetch_by_id::<R>(rt, ResourceId::new::<V, R>())
    }

    /// The resource under `id`, for reading, beside other readers.
    ///
    /// Errors: `InvalidBorrow` where a writer has its cell, or as many readers as can be.
    pub fn try_fetch_by_id<R: Resource<V>>(
        &self,
        rt: &impl Wait,
        id: ResourceId,
    ) -> Result<Option<SharedFetch<'_, V, R>>, InvalidBorrow>
        requires kind { id.kind ≡ R.kind_number }
        ensures absent { has_id self.now id ≡ false → IfOk result (λ lent. lent ≡ None) }
        ensures err { OnErr result (has_id self.now id ≡ true) }
    {
        match self.try_fetch_internal(id) {
            Some(cell) => Ok(SharedFetch::new(cell.try_borrow(rt)?)),
            None => Ok(None),
        }
    }

    /// The resource under its type's id, for writing, beside nobody.
    ///
    /// Errors: `Missing` where its id has no cell, or a value of another kind stands in it; `Borrowed` where its cell is
    /// borrowed.
    pub fn fetch_mut<R: Resource<V>>(
        &self,
        rt: &impl Wait,
    ) -> Result<SharedFetchMut<'_, V, R>, FetchError>
        ensures ok { OnOk result (has_id self.now (id_of R.kind_number 0) ≡ true) }
        ensures err { IfErr result (IsFetchError self.now (id_of R.kind_number 0)) }
    {
        let id = ResourceId::new::<V, R>();
        match self.try_fetch_mut::<R>(rt) {
            Ok(Some(lent)) => Ok(lent),
            Ok(None) => Err(FetchError::Missing(Missing { id })),
            Err(refused) => Err(FetchError::Borrowed(refused)),
        }
    }

    /// The resource under its type's id, for writing, beside nobody.
    ///
    /// Errors: `InvalidBorrow` where its cell is borrowed.
    pub fn try_fetch_mut<R: Resource<V>>(
        &self,
        rt: &impl Wait,
    ) -> Result<Option<SharedFetchMut<'_, V, R>>, InvalidBorrow>
        ensures absent { has_id self.now (id_of R.kind_number 0) ≡ false → IfOk result (λ lent. lent ≡ None) }
        ensures err { OnErr result (has_id self.now (id_of R.kind_number 0) ≡ true) }
    {
        self.try_fetch_mut_by_id::<R>(rt, ResourceId::new::<V, R>())
    }

    /// The resource under `id`, for writing, beside nobody.
    ///
    /// Errors: `InvalidBorrow` where its cell is borrowed.
    pub fn try_fetch_mut_by_id<R: Resource<V>>(
        &self,
        rt: &impl Wait,
        id: ResourceId,
    ) -> Result<Option<SharedFetchMut<'_, V, R>>, InvalidBorrow>
        requires kind { id.kind ≡ R.kind_number }
        ensures absent { has_id self.now id ≡ false → IfOk result (λ lent. lent ≡ None) }
        ensures err { OnErr result (has_id self.now id ≡ true) }
    {
        let Some(cell) = self.try_fetch_internal(id) else {
            return Ok(None);
        };
        Ok(SharedFetchMut::new(cell.try_borrow_mut(rt)?))
    }
}
