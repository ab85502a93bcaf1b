//! Ways to add its drift to each place, and the same over plain vectors.
ghost use Rattle.std.specs.Prelude.{◌≡◌, IsSome, IfOk, length};
ghost use Rattle.hibitset_sets.specs.BitSet.{has_member};
ghost use Rattle.hibitset_sets.specs.Walk.{walk};
ghost use Rattle.specs_storage.specs.EntryCursors.{index_of, indices_left};
ghost use Rattle.bench_joins.specs.Drifts.{drifted};

use crate::changes::parts::{Drift, Place, Plain};
use specs_join::laws::a_join_has_an_item_for_each_index;
use specs_join::{Change, Join, JoinCursor, ParJoin, change_each};
use specs_layouts::MaskedStorage;
use specs_storage::{EntryCursor, LentStorageMut};
use std::alloc::{AllocError, Global};
use std::thread::Threads;

/// A cursor that lends each place beside its drift.
pub fn by_cursor(places: &mut MaskedStorage<Place>, drifts: &MaskedStorage<Drift>) {
    let mut cursor = JoinCursor::new(places, drifts);
    while cursor.advance() {
        let along = cursor.item().along;
        if let Ok(place) = cursor.values() {
            place.along = place.along.wrapping_add(along);
        }
    }
}

/// Adds a drift to a place.
struct Drifting;

impl<'a> Change<Place, &'a MaskedStorage<Drift>> for Drifting {
    type Refusal = AllocError;

    ghost changed = { λ _ place drift. drifted place drift };

    fn change(&self, place: &mut Place, drift: &'a Drift) -> Result<(), AllocError> {
        place.along = place.along.wrapping_add(drift.along);
        Ok(())
    }
}

/// `change_each`.
///
/// Errors: `AllocError`.
pub fn by_change_each(
    places: &mut MaskedStorage<Place>,
    drifts: &MaskedStorage<Drift>,
) -> Result<(), AllocError> {
    match change_each(places, drifts, &Drifting) {
        Ok(()) => Ok(()),
        Err(_) => Err(AllocError),
    }
}

/// Adds a drift to the place at a cursor's index.
fn drift_at<R: Join>(cursor: &mut EntryCursor<'_, Place, R>, along: u32)
    requires { IsSome (index_of cursor.old) }
    ensures { indices_left R.Mask.members cursor.new ≡ indices_left R.Mask.members cursor.old }
{
    match cursor.place().entry().or_insert(Place { along: 0 }) {
        Ok(place) => place.along = place.along.wrapping_add(along),
        Err(_) => {}
    }
}

/// The entry at each index of the drifts.
pub fn by_entries(storage: &mut LentStorageMut<'_, Place>, drifts: &MaskedStorage<Drift>) {
    let mut cursor = storage.entries().cursor(drifts);
    while cursor.advance().is_some() {
        let along = cursor.item().along;
        drift_at(&mut cursor, along);
    }
}

/// An index loop over plain vectors.
pub fn plainly(plain: &mut Plain) {
    for (place, drift) in plain.places.iter_mut().zip(plain.drifts.iter()) {
        if let Some(drift) = drift {
            if let Some(along) = place {
                *along = along.wrapping_add(*drift);
            }
        }
    }
}

/// The places, each one further, as a list.
///
/// Errors: `AllocError`.
pub fn further<R: Threads + Sync>(
    rt: &R,
    alloc: Global,
    places: &MaskedStorage<Place>,
) -> Result<Vec<Place>, AllocError>
    ensures { IfOk result (λ list. length list.items ≡ length (walk (has_member places.now.mask))) }
{
    a_join_has_an_item_for_each_index(places);
    places.par_join().collect(
        rt,
        alloc,
        1,
        |place: &Place| Place {
            along: place.along.wrapping_add(1),
        },
    )
}

/// The same list over plain places.
pub fn store_plainly(plain: &mut Plain, values: Vec<Place>) {
    for (place, value) in plain.places.iter_mut().zip(values) {
        *place = Some(value.along);
    }
}
