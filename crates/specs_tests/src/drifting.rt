//! A system over two storages, whose contract is what it does to their parts.
ghost use Rattle.std.specs.Prelude.{OnOk, IfErr};
ghost use Rattle.specs_layouts.specs.Dense.{dense_part};
ghost use Rattle.specs_join.specs.ChangeEach.{AreChanged, AreChangedBelow, IsRefused};
ghost use Rattle.specs_join.specs.EachErrors.{OnMemory, OnRefused};

use specs_join::{Change, EachError, change_each};
use specs_layouts::{Component, DenseVecStorage, MaskedStorage};

/// Where an entity is.
#[derive(Drop)]
pub struct Place {
    pub along: u32,
}

impl Component for Place {
    type Storage = DenseVecStorage<Place>;
}

/// How far an entity drifts in a step.
#[derive(Drop)]
pub struct Drift {
    pub along: u32,
}

impl Component for Drift {
    type Storage = DenseVecStorage<Drift>;
}

/// A sum that leaves 32 bits.
#[derive(Clone, Copy, PartialEq, Eq)]
pub struct Overflow;

/// Adds a drift to a place.
pub struct Drifting;

impl<'a> Change<Place, &'a MaskedStorage<Drift>> for Drifting {
    ghost use Rattle.specs_tests.specs.Drifts.{drifted};

    type Refusal = Overflow;

    ghost changed = { λ _ place drift. drifted place drift };

    fn change(&self, place: &mut Place, drift: &'a Drift) -> Result<(), Overflow> {
        match place.along.checked_add(drift.along) {
            Some(sum) => {
                place.along = sum;
                Ok(())
            }
            None => Err(Overflow),
        }
    }
}

/// Where drifts lead.
pub struct Drifts;

impl Drifts {
    ghost use Rattle.specs_tests.specs.Drifts.{drifted};

    /// Adds its drift to each place.
    ///
    /// Errors: `Refused` with the least index whose sum leaves 32 bits; the places at lesser ones have drifted, the others stay.
    pub fn step(
        places: &mut MaskedStorage<Place>,
        drifts: &MaskedStorage<Drift>,
    ) -> Result<(), EachError<Overflow>>
        ensures drifted { OnOk result (AreChanged drifted (dense_part places.old.inner)
            (dense_part drifts.now.inner) (dense_part places.new.inner)) }
        ensures refused { IfErr result (OnRefused (IsRefused drifted (dense_part places.old.inner)
            (dense_part drifts.now.inner))) }
        ensures below { IfErr result (OnRefused (λ index. AreChangedBelow drifted
            (dense_part places.old.inner) (dense_part drifts.now.inner) index (dense_part places.new.inner))) }
        ensures memory { IfErr result (OnMemory ⊥) }
    {
        change_each(places, drifts, &Drifting)
    }
}
