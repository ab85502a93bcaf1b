//! Steps of systems over two storages.
use crate::drifting::{Drift, Drifts, Overflow, Place};
use crate::parts::made;
use crate::pushing::push_all;
use hibitset::Index;
use specs_join::EachError;
use specs_layouts::MaskedStorage;
use std::alloc::Global;

/// What a step answers, and where the places are then.
type Told = (Option<Index>, [Option<u32>; 4]);

/// The index at which a step is refused.
fn refused_at(outcome: &Result<(), EachError<Overflow>>) -> Option<Index> {
    match outcome {
        Err(EachError::Refused(index, Overflow)) => Some(*index),
        _ => None,
    }
}

/// Where an entity is, if it is anywhere.
fn place_of(places: &MaskedStorage<Place>, index: Index) -> Option<u32> {
    if places.contains(index) {
        Some(places.get(index).along)
    } else {
        None
    }
}

/// A step over places at the indices 0, 1, 2 and 3, and drifts at 0, 2 and 3, of which that at 2 is given.
fn told(alloc: Global, drift: u32) -> Option<Told> {
    let mut places = made::<Place>(alloc)?;
    let mut drifts = made::<Drift>(alloc)?;
    for index in 0..4u32 {
        let _ = places.insert(index, Place { along: 10 }).is_ok();
    }
    let _ = drifts.insert(0, Drift { along: 1 }).is_ok();
    let _ = drifts.insert(2, Drift { along: drift }).is_ok();
    let _ = drifts.insert(3, Drift { along: 3 }).is_ok();
    let refused = refused_at(&Drifts::step(&mut places, &drifts));
    let now = [
        place_of(&places, 0),
        place_of(&places, 1),
        place_of(&places, 2),
        place_of(&places, 3),
    ];
    Some((refused, now))
}

#[test]
fn a_step_drifts_each_place_up_to_the_first_refused(rt: HostRuntime) {
    let done = told(rt.alloc(), 2);
    let refused = told(rt.alloc(), u32::MAX);
    assert_eq!(rt;
        [done, refused],
        [
            Some((None, [Some(11), Some(10), Some(12), Some(13)])),
            Some((Some(2), [Some(11), Some(10), Some(10), Some(10)])),
        ]
    );
}

/// How far a drift goes, if there is one.
fn drift_of(drifts: &MaskedStorage<Drift>, index: Index) -> Option<u32> {
    if drifts.contains(index) {
        Some(drifts.get(index).along)
    } else {
        None
    }
}

/// The places and the drifts at 0, 1 and 4096 after a push of places of 10 at 0 and 4096 by drifts of 7 at 1 and 4096.
fn pushed(alloc: Global) -> Option<[[Option<u32>; 3]; 2]> {
    let mut places = made::<Place>(alloc)?;
    let mut drifts = made::<Drift>(alloc)?;
    for index in [0u32, 4096] {
        let _ = places.insert(index, Place { along: 10 }).is_ok();
    }
    for index in [1u32, 4096] {
        let _ = drifts.insert(index, Drift { along: 7 }).is_ok();
    }
    push_all(&mut places, &mut drifts);
    Some([
        [
            place_of(&places, 0),
            place_of(&places, 1),
            place_of(&places, 4096),
        ],
        [
            drift_of(&drifts, 0),
            drift_of(&drifts, 1),
            drift_of(&drifts, 4096),
        ],
    ])
}

#[test]
fn a_push_writes_both_storages(rt: HostRuntime) {
    assert_eq!(rt;
        pushed(rt.alloc()),
        Some([[Some(10), None, Some(17)], [None, Some(7), Some(3)]])
    );
}
