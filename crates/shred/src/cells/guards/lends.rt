//! How the guards of a cell show its value.
ghost use mir.Syntax.{named};
ghost use Rattle.std.specs.Prelude.{◌≡◌, []};
ghost use Rattle.std.specs.Borrow.{sem, Lends};
ghost use Rattle.shred.specs.contracts.cells.guards.RefMut.{the_row};

use super::{LoneMut, Ref, RefMut};
use crate::cells::trust_cell::Seat;
use std::ops::{Deref, DerefMut};

impl<'a, T: Drop> Ref<'a, T> {
    /// Lends the value to the closure, gives the cell back and answers as the closure does.
    pub fn map<U, F: FnOnce(&T) -> U>(self, look: F) -> U
        requires callable { (lent : _) → lent.now ≡ self → F.pre look lent }
        ensures value { (lent : _) × (lent.now ≡ self.entry) × F.post look lent result }
    {
        look(&self)
    }
}

impl<T: Drop> Deref for Ref<'_, T> {
    type Target = T;

    ghost deref_gives = { λ guard value. value ≡ guard };

    fn deref(&self) -> &T {
        match self.hand.get() {
            Seat::Here(value) => value,
            Seat::Out => unreachable!(),
        }
    }
}

impl<'a, T: Drop> RefMut<'a, T> {
    /// Lends the value to the closure for writing, gives the cell back and answers as the closure does.
    pub fn map<U, F: FnOnce(&mut T) -> U>(self, change: F) -> U
        requires callable { (lent : _) → lent.now ≡ self → F.pre change lent }
        ensures value { (lent returned : _) × (lent.now ≡ self.entry) × F.post change lent result returned }
    {
        let mut guard = self;
        change(&mut guard)
    }
}

impl<T: Drop> Deref for RefMut<'_, T> {
    type Target = T;

    ghost deref_gives = { λ guard value. value ≡ guard };

    fn deref(&self) -> &T {
        &self.value
    }
}

impl<T: Drop> DerefMut for RefMut<'_, T> {
    ghost deref_mut_gives = { λ guard value. value ≡ guard };

    fn deref_mut(&mut self) -> &mut T
        ensures* writes_back { sem 𝓛 (Lends (the_row (record { mir = named 1; lft = [] }) T.row) T.row self.entry
            result (λ left. left)) }
        ensures value { result.now ≡ self.old }
    {
        &mut self.value
    }
}

impl<T: Drop> Deref for LoneMut<'_, T> {
    type Target = T;

    ghost deref_gives = { λ guard value. value ≡ guard.value };

    fn deref(&self) -> &T {
        &self.value
    }
}

impl<T: Drop> DerefMut for LoneMut<'_, T> {
    ghost deref_mut_gives = { λ guard value. value ≡ guard.value };

    fn deref_mut(&mut self) -> &mut T {
        &mut self.value
    }
}
