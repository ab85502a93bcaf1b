//! Two storages that are written in one walk, and what becomes of the parts of both.
ghost use Rattle.std.specs.Prelude.{◌≡◌, Some, IsSome};
ghost use Rattle.specs_layouts.specs.Dense.{dense_part};
ghost use Rattle.specs_layouts.specs.Parts.{Puts};
ghost use Rattle.specs_join.specs.ChangeEach.{AreChanged};
ghost use Rattle.specs_tests.specs.Drifts.{pushed, slowed};

use crate::drifting::{Drift, Place};
use hibitset::Index;
use specs_join::SharedSteps;
use specs_layouts::MaskedStorage;

/// Adds to each place the drift at its index, and leaves half of that drift. A sum goes round at 2 ^ 32.
///
/// It is one walk over the indices that both storages have, which holds neither.
pub fn push_all(places: &mut MaskedStorage<Place>, drifts: &mut MaskedStorage<Drift>)
    ensures places { AreChanged pushed (dense_part places.old.inner) (dense_part drifts.old.inner)
        (dense_part places.new.inner) }
    ensures drifts { AreChanged slowed (dense_part drifts.old.inner) (dense_part places.old.inner)
        (dense_part drifts.new.inner) }
{
    let _places_mask = places.mask();
    let _drifts_mask = drifts.mask();
    let mut steps = SharedSteps::new(places.mask(), drifts.mask());
    while let Some(index) = steps.step(places.mask(), drifts.mask()) {
        push_at(places, drifts, index);
    }
}

/// The same at an index that both have.
fn push_at(places: &mut MaskedStorage<Place>, drifts: &mut MaskedStorage<Drift>, index: Index)
    requires place { IsSome (dense_part places.old.inner index) }
    requires drift { IsSome (dense_part drifts.old.inner index) }
    ensures places_mask { places.new.mask ≡ places.old.mask }
    ensures drifts_mask { drifts.new.mask ≡ drifts.old.mask }
    ensures places { (place : Place) (drift : Drift) → dense_part places.old.inner index ≡ Some place
        → dense_part drifts.old.inner index ≡ Some drift
        → Puts (dense_part places.old.inner) index (pushed place drift) (dense_part places.new.inner) }
    ensures drifts { (place : Place) (drift : Drift) → dense_part places.old.inner index ≡ Some place
        → dense_part drifts.old.inner index ≡ Some drift
        → Puts (dense_part drifts.old.inner) index (slowed drift place) (dense_part drifts.new.inner) }
{
    let along = drifts.get(index).along;
    match places.get_mut(index) {
        Ok(place) => place.along = place.along.wrapping_add(along),
        Err(_) => unreachable!(),
    }
    match drifts.get_mut(index) {
        Ok(drift) => drift.along = drift.along / 2,
        Err(_) => unreachable!(),
    }
}
