//! Resources that a shared world lends until they are given back.
ghost use Rattle.std.specs.Prelude.{◌≡◌, None, MatchOption};

use crate::cells::trust_cell::Seat;
use crate::cells::{Ref, RefMut};
use counted_slot::{Claim, PRESENT};
use shred_world::Resource;
use std::marker::{Model, PhantomData};

mod lends;

/// A resource of a shared world, lent for reading. Dropping it gives its cell back.
///
/// In a contract it is the value that holds the resource.
#[derive(Drop)]
pub struct SharedFetch<'a, V: Drop, R: Resource<V>> {
    value: Ref<'a, V>,
    resource: PhantomData<R>,
}

impl<'a, V: Drop, R: Resource<V>> Model for SharedFetch<'a, V, R> {
    ghost use Rattle.std.specs.Prelude.{IsSome};

    ghost Value = { V };

    ghost coded = { V.code };

    ghost view = { λ g. g.value };

    ghost invariant = { λ g. IsSome (R.part g.value) };
}

/// A resource of a shared world, lent for writing. Dropping it gives its cell back with what is written.
///
/// In a contract it is the resource.
pub struct SharedFetchMut<'a, V: Drop, R: Resource<V>> {
    hand: Claim<'a, Seat<V>>,
    resource: R,
}

impl<'a, V: Drop, R: Resource<V>> Model for SharedFetchMut<'a, V, R> {
    ghost use Rattle.std.specs.Prelude.{◌≡◌};

    ghost Value = { R };

    ghost coded = { R.code };

    ghost view = { λ g. g.resource };

    ghost invariant = { λ g. g.hand.right ≡ 2 };
}

impl<'a, V: Drop, R: Resource<V>> Drop for SharedFetchMut<'a, V, R> {
    fn drop(self) {
        let Self { hand, resource } = self;
        hand.put(Seat::Here(resource.wrap()), PRESENT);
    }
}

impl<'a, V: Drop, R: Resource<V>> SharedFetch<'a, V, R> {
    /// Lends the resource in the value, where it is of that kind.
    pub(crate) fn new(value: Ref<'a, V>) -> Option<SharedFetch<'a, V, R>>
        ensures { MatchOption result (R.part value.entry ≡ None) (λ guard. guard ≡ value.entry) }
    {
        if R::view(&value).is_none() {
            return None;
        }
        Some(SharedFetch {
            value,
            resource: PhantomData,
        })
    }
}

impl<'a, V: Drop, R: Resource<V>> SharedFetchMut<'a, V, R> {
    /// Lends the resource in the value, where it is of that kind. A value of another kind goes back into its cell.
    pub(crate) fn new(value: RefMut<'a, V>) -> Option<SharedFetchMut<'a, V, R>>
        ensures { MatchOption result (R.part value.entry ≡ None) (λ guard. value.entry ≡ R.wrapped guard) }
    {
        let (hand, value) = value.into_parts();
        match R::unwrap(value) {
            Ok(resource) => Some(SharedFetchMut { hand, resource }),
            Err(value) => {
                drop(RefMut::new(hand, value));
                None
            }
        }
    }
}
