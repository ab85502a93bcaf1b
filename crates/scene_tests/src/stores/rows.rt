//! What each of the four stores answers to the same calls.
use scene_cases::stores::course::{Weight, run_course, weighing, weights};
use scene_world::{AnyStore, Store};
use specs_join::Join;
use specs_layouts::{ComponentEvent, MaskedStorage, TryDefault};
use std::alloc::Global;

/// The four stores, with the names that documents have for them.
const STORES: [(&str, Store); 4] = [
    ("vec", Store::Vec),
    ("dense", Store::Dense),
    ("hash", Store::Hash),
    ("btree", Store::BTree),
];

/// Weights at some indices, one of them replaced and one taken out again.
fn filled(alloc: Global, store: Store) -> Option<MaskedStorage<Weight>> {
    let (mut storage, _) = weights(alloc, store).ok()?;
    for (id, number) in [(70, 1), (3, 2), (5000, 3), (4, 4), (70, 5)] {
        storage.insert(id, weighing(number)).ok()?;
    }
    storage.remove(4).ok()??;
    Some(storage)
}

/// The sum of the numbers, each times the place of its index in the walk, from 1.
fn weighed(storage: &MaskedStorage<Weight>) -> u32 {
    let mut place: u32 = 0;
    let mut sum: u32 = 0;
    for part in storage.join() {
        place = place.wrapping_add(1);
        sum = sum.wrapping_add(place.wrapping_mul(part.number));
    }
    sum
}

/// Whether a store answers what each does: the walk ascends, and what was cleared is gone.
fn holds(alloc: Global, store: Store) -> bool {
    let Some(mut storage) = filled(alloc, store) else {
        return false;
    };
    let stays = storage.inner().inner().store() == store;
    let walked = weighed(&storage);
    storage.clear();
    stays && walked == 2 + 2 * 5 + 3 * 3 && weighed(&storage) == 0
}

#[test]
fn each_store_answers_the_same(rt: HostRuntime) {
    let mut wrong = None;
    for (name, store) in &STORES {
        if Store::named(name) != Some(*store) || !holds(rt.alloc(), *store) {
            wrong = Some(*name);
        }
    }
    assert_eq!(rt; wrong, None);
}

/// What a reader reads of the course.
const TOLD: [ComponentEvent; 5] = [
    ComponentEvent::Inserted(3),
    ComponentEvent::Inserted(4),
    ComponentEvent::Modified(3),
    ComponentEvent::Modified(3),
    ComponentEvent::Removed(3),
];

/// Whether the course in a store comes out as it does.
fn runs(alloc: Global, store: Store) -> bool {
    match run_course(alloc, store) {
        Ok(course) => {
            course.taken == Some(weighing(9))
                && course.kept == weighing(6)
                && course.events.as_slice() == TOLD.as_slice()
        }
        Err(_) => false,
    }
}

#[test]
fn a_course_is_the_same_in_each_store(rt: HostRuntime) {
    let mut wrong = None;
    for (name, store) in &STORES {
        if !runs(rt.alloc(), *store) {
            wrong = Some(*name);
        }
    }
    assert_eq!(rt; wrong, None);
}

#[test]
fn no_other_name_is_a_store(rt: HostRuntime) {
    let mut wrong = None;
    for name in &["", "Vec", "vector", "dens"] {
        if Store::named(name).is_some() {
            wrong = Some(*name);
        }
    }
    assert_eq!(rt; wrong, None);
}

#[test]
fn the_first_store_is_the_default(rt: HostRuntime) {
    let made: AnyStore<Weight> = AnyStore::unwrap_default(rt.alloc());
    assert!(rt; made.store() == Store::Vec);
}
