//! A value that one may write or several may read, from several threads.
ghost use Rattle.std.specs.Prelude.{◌≡◌, IfOk};
ghost use Rattle.shred.specs.Words.{IsBorrow, right_of};

use crate::cells::cell_core::Step;
use crate::cells::words::word_after;
use crate::cells::{InvalidBorrow, LoneMut, Ref, RefMut};
use counted_slot::{Claim, Counted, FREE, Fits, PRESENT, TAKEN};
use std::marker::Model;
use std::mem;
use std::sync::Wait;

/// Where the value of a cell is.
#[derive(Drop)]
pub(crate) enum Seat<T> {
    /// In the cell.
    Here(T),
    /// With a writer.
    Out,
}

impl<T> Fits for Seat<T> {
    type Tag = ();

    ghost fits = { λ _ _. Unit {0} };
}

/// A value that one may write or several may read, from several threads.
///
/// How it is borrowed is one of the states of `cell_core`. A borrow that is refused changes nothing. What a cell holds
/// between two borrows is known by its type alone, as under a lock, so a contract sees nothing of it.
///
/// ```text
/// let cell = TrustCell::new(7);
/// let reader = cell.try_borrow(&rt)?;        // another reader may come, and no writer
/// drop(reader);
/// *cell.try_borrow_mut(&rt)? = 9;            // alone while it writes
/// ```
#[derive(Drop)]
pub struct TrustCell<T> {
    slot: Counted<Seat<T>>,
}

impl<T> Model for TrustCell<T> {
    ghost use base.Stored.{coded_unit};

    ghost Value = { Unit {0} };

    ghost coded = { coded_unit };

    ghost view = { λ _. tt };
}

impl<T: Drop> TrustCell<T> {
    /// A free cell with the value.
    pub fn new(value: T) -> TrustCell<T> {
        let slot = Counted::new(Seat::Out, &());
        let (found, hand) = slot.turn(FREE, TAKEN);
        if found != FREE {
            // Never taken, since nobody else has the slot yet. The value would only come back by `into_inner` and `get_mut`.
            hand.done();
            return TrustCell {
                slot: Counted::new(Seat::Here(value), &()),
            };
        }
        hand.put(Seat::Here(value), PRESENT);
        TrustCell { slot }
    }

    /// The value.
    ///
    /// Errors: `InvalidBorrow` where the value went out with a writer that was never dropped.
    pub fn into_inner(self) -> Result<T, InvalidBorrow> {
        let TrustCell { slot } = self;
        match slot.into_inner() {
            Seat::Here(value) => Ok(value),
            Seat::Out => Err(InvalidBorrow),
        }
    }

    /// Lends the value to the cell's only holder for writing.
    ///
    /// Errors: `InvalidBorrow` where the value went out with a writer that was never dropped.
    pub fn get_mut(&mut self) -> Result<LoneMut<'_, T>, InvalidBorrow> {
        let empty = Counted::new(Seat::Out, &());
        match mem::replace(&mut self.slot, empty).into_inner() {
            Seat::Here(value) => Ok(LoneMut::new(self, value)),
            Seat::Out => Err(InvalidBorrow),
        }
    }

    /// As `try_borrow`.
    pub fn borrow(&self, rt: &impl Wait) -> Result<Ref<'_, T>, InvalidBorrow> {
        self.try_borrow(rt)
    }

    /// Lends the value for reading, beside other readers. It may try again where another thread moved the cell meanwhile.
    ///
    /// Errors: `InvalidBorrow` where a writer has the cell, or `MOST_READERS` readers have it.
    pub fn try_borrow(&self, rt: &impl Wait) -> Result<Ref<'_, T>, InvalidBorrow> {
        let hand = self.claim(rt, Step::BorrowForReading)?;
        Ref::new(hand)
    }

    /// As `try_borrow_mut`.
    pub fn borrow_mut(&self, rt: &impl Wait) -> Result<RefMut<'_, T>, InvalidBorrow> {
        self.try_borrow_mut(rt)
    }

    /// Lends the value for writing, beside nobody. It may try again where another thread moved the cell meanwhile.
    ///
    /// Errors: `InvalidBorrow` where a reader or a writer has the cell.
    pub fn try_borrow_mut(&self, rt: &impl Wait) -> Result<RefMut<'_, T>, InvalidBorrow> {
        let hand = self.claim(rt, Step::BorrowForWriting)?;
        match hand.put(Seat::Out, FREE) {
            Seat::Here(value) => Ok(RefMut::new(self.claim_empty(rt), value)),
            Seat::Out => Err(InvalidBorrow),
        }
    }

    /// Brings the word into the state after the step, where that is accepted, and gives what this gained.
    fn claim(&self, rt: &impl Wait, step: Step) -> Result<Claim<'_, Seat<T>>, InvalidBorrow>
        requires borrow { IsBorrow step }
        ensures right { IfOk result (λ hand. hand.right ≡ right_of step) }
    {
        let mut seen = self.slot.load();
        for _ in rt.forever() {
            let Some(new) = word_after(seen, step) else {
                return Err(InvalidBorrow);
            };
            let (found, hand) = self.slot.turn(seen, new);
            if found == seen {
                return Ok(hand);
            }
            hand.done();
            seen = found;
        }
        unreachable!()
    }

    /// Keeps the cell for the writer that took the value out. No borrow moves a word that shows an empty cell.
    fn claim_empty(&self, rt: &impl Wait) -> Claim<'_, Seat<T>>
        ensures right { result.right ≡ 2 }
    {
        for _ in rt.forever() {
            let (found, hand) = self.slot.turn(FREE, TAKEN);
            if found == FREE {
                return hand;
            }
            hand.done();
        }
        unreachable!()
    }
}

impl<T: Default + Drop> Default for TrustCell<T> {
    fn default() -> TrustCell<T> {
        TrustCell::new(T::default())
    }
}
