//! What a cell lends until it is given back.
ghost use Rattle.std.specs.Prelude.{◌≡◌, Some, OnErr};
ghost use Rattle.shred.specs.declared.cells.trust_cell.Seat.TheVariants.{Out};

use crate::cells::trust_cell::Seat;
use crate::cells::{InvalidBorrow, TrustCell};
use counted_slot::{Claim, PRESENT};
use std::marker::Model;
use std::snapshot::Snapshot;

mod lends;

/// A cell's value, lent for reading. Dropping it gives the cell back.
///
/// In a contract it is the value, which stays the same while it is lent.
pub struct Ref<'a, T: Drop> {
    hand: Claim<'a, Seat<T>>,
    shown: Snapshot<T>,
}

impl<'a, T: Drop> Model for Ref<'a, T> {
    ghost use Rattle.std.specs.Prelude.{◌≡◌, Some};
    ghost use Rattle.shred.specs.declared.cells.trust_cell.Seat.TheVariants.{Here};

    ghost Value = { T };

    ghost coded = { T.code };

    ghost view = { λ r. r.shown.value };

    ghost invariant = { λ r. (r.hand.right ≡ 1) × ∥ r.hand.value ≡ Some (Here r.shown.value) ∥₁ };
}

/// A cell's value, lent for writing. Dropping it gives the cell back with what is written.
///
/// In a contract it is the value.
pub struct RefMut<'a, T: Drop> {
    hand: Claim<'a, Seat<T>>,
    value: T,
}

impl<'a, T: Drop> Model for RefMut<'a, T> {
    ghost Value = { T };

    ghost coded = { T.code };

    ghost view = { λ r. r.value };

    ghost invariant = { λ r. r.hand.right ≡ 2 };
}

/// A cell's value, lent to the cell's only holder for writing. Dropping it puts what is written back into the cell.
///
/// It writes through `value`, or through the guard itself.
pub struct LoneMut<'a, T: Drop> {
    cell: &'a mut TrustCell<T>,
    /// The value, which is out of the cell meanwhile.
    pub value: T,
}

impl<'a, T: Drop> Drop for Ref<'a, T> {
    fn drop(self) {
        let Self { hand, shown: _ } = self;
        hand.leave();
    }
}

impl<'a, T: Drop> Drop for RefMut<'a, T> {
    fn drop(self) {
        let Self { hand, value } = self;
        hand.put(Seat::Here(value), PRESENT);
    }
}

impl<'a, T: Drop> Drop for LoneMut<'a, T> {
    fn drop(self) {
        let Self { cell, value } = self;
        *cell = TrustCell::new(value);
    }
}

impl<'a, T: Drop> Ref<'a, T> {
    /// Lends what the reader sees, where the value is in the cell.
    pub(crate) fn new(claim: Claim<'a, Seat<T>>) -> Result<Ref<'a, T>, InvalidBorrow>
        requires right { claim.right ≡ 1 }
        ensures refused { OnErr result (claim.entry.value ≡ Some Out) }
    {
        let shown = match claim.get() {
            Seat::Here(value) => Some(Snapshot::of(value)),
            Seat::Out => None,
        };
        match shown {
            Some(shown) => Ok(Ref { hand: claim, shown }),
            None => {
                claim.leave();
                Err(InvalidBorrow)
            }
        }
    }
}

impl<'a, T: Drop> RefMut<'a, T> {
    /// Lends the value, of which the claim is held.
    pub(crate) fn new(hand: Claim<'a, Seat<T>>, value: T) -> RefMut<'a, T>
        requires { hand.right ≡ 2 }
        ensures { result ≡ value }
    {
        RefMut { hand, value }
    }

    /// The claim and the value.
    pub(crate) fn into_parts(self) -> (Claim<'a, Seat<T>>, T)
        ensures right { result.0.right ≡ 2 }
        ensures value { result.1 ≡ self.entry }
    {
        let Self { hand, value } = self;
        (hand, value)
    }
}

impl<'a, T: Drop> LoneMut<'a, T> {
    /// Lends the value, which is out of the cell.
    pub(crate) fn new(cell: &'a mut TrustCell<T>, value: T) -> LoneMut<'a, T>
        ensures { result.value ≡ value }
    {
        LoneMut { cell, value }
    }
}
