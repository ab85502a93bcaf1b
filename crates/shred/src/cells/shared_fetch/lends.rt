//! How the guards of a shared world show the resource.
ghost use mir.Syntax.{named};
ghost use Rattle.std.specs.Prelude.{◌≡◌, [], Some};
ghost use Rattle.std.specs.Borrow.{sem, Lends};
ghost use Rattle.shred.specs.contracts.cells.shared_fetch.SharedFetchMut.{the_row};

use super::{SharedFetch, SharedFetchMut};
use shred_world::Resource;
use std::ops::{Deref, DerefMut};

impl<V: Drop, R: Resource<V>> Deref for SharedFetch<'_, V, R> {
    type Target = R;

    ghost deref_gives = { λ guard resource. Some resource ≡ R.part guard };

    fn deref(&self) -> &R {
        R::view(&self.value).unwrap()
    }
}

impl<V: Drop, R: Resource<V>> Deref for SharedFetchMut<'_, V, R> {
    type Target = R;

    ghost deref_gives = { λ guard resource. resource ≡ guard };

    fn deref(&self) -> &R {
        &self.resource
    }
}

impl<V: Drop, R: Resource<V>> DerefMut for SharedFetchMut<'_, V, R> {
    ghost deref_mut_gives = { λ guard resource. resource ≡ guard };

    fn deref_mut(&mut self) -> &mut R
        ensures* writes_back { sem 𝓛 (Lends (the_row (record { mir = named 1; lft = [] }) V.row R.row R.Resource)
            R.row self.entry result (λ left. left)) }
        ensures value { result.now ≡ self.old }
    {
        &mut self.resource
    }
}
