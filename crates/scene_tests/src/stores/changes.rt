//! Weights loaded with others, in each pair of stores.
use scene_cases::stores::adding::load;
use scene_cases::stores::course::{Weight, weighing, weights};
use scene_world::{SceneStorage, Store, scene_storage};
use specs_join::{EachError, Join};
use specs_layouts::{ComponentEvent, MaskedStorage, ReaderId};
use std::alloc::Global;

/// The four stores.
const STORES: [Store; 4] = [Store::Vec, Store::Dense, Store::Hash, Store::BTree];

/// Puts weights at these indices, as long as each is one that an entity may have.
fn put_all(storage: &mut MaskedStorage<Weight>, put: &[(u32, u32)]) -> Option<()> {
    for (id, number) in put {
        if *id >= 16_777_216 {
            return None;
        }
        storage.insert(*id, weighing(*number)).ok()?;
    }
    Some(())
}

/// Weights at these indices, in a storage that nobody reads.
fn silent(alloc: Global, store: Store, put: &[(u32, u32)]) -> Option<MaskedStorage<Weight>> {
    let inner: SceneStorage<Weight> = scene_storage(alloc, store);
    let mut storage: MaskedStorage<Weight> = MaskedStorage::new(alloc, inner);
    put_all(&mut storage, put)?;
    Some(storage)
}

/// The weights of a storage, ascending by index.
fn numbers(alloc: Global, storage: &MaskedStorage<Weight>) -> Option<Vec<u32>> {
    let mut list = Vec::new(alloc);
    for weight in storage.join() {
        list.push(weight.number).ok()?;
    }
    Some(list)
}

/// Whether weights at 3, 70 and 5000, loaded with those at 3, 4 and 5000, come out as they do.
fn loads(alloc: Global, to: Store, from: Store) -> Option<bool> {
    let weights = silent(alloc, to, &[(70, 5), (3, 2), (5000, 9)])?;
    let others = silent(alloc, from, &[(5000, 7), (4, 1), (3, 8)])?;
    let (loaded, outcome) = load(weights, &others);
    let stays = loaded.inner().inner().store() == to;
    Some(outcome.is_ok() && stays && numbers(alloc, &loaded)?.as_slice() == [10, 5, 16].as_slice())
}

/// Whether a weight that is too heavy at 70 stops it there: that at 3 is loaded, those from 70 on are not.
fn refuses(alloc: Global, to: Store, from: Store) -> Option<bool> {
    let weights = silent(alloc, to, &[(70, 5), (3, 2), (5000, 9)])?;
    let others = silent(alloc, from, &[(5000, 7), (70, 100), (3, 8)])?;
    let (loaded, outcome) = load(weights, &others);
    let at_70 = match outcome {
        Err(EachError::Refused(index, ())) => index == 70,
        _ => false,
    };
    Some(at_70 && numbers(alloc, &loaded)?.as_slice() == [10, 5, 9].as_slice())
}

/// Whether a storage that is read tells of each weight that was loaded, and of no other.
fn tells(alloc: Global, to: Store, from: Store) -> Option<bool> {
    let (mut storage, reader) = weights(alloc, to).ok()?;
    put_all(&mut storage, &[(70, 5), (3, 2), (5000, 9)])?;
    let others = silent(alloc, from, &[(5000, 7), (4, 1), (3, 8)])?;
    let (mut loaded, outcome) = load(storage, &others);
    let told = told_of(alloc, &mut loaded, &reader)?;
    let expected = [
        ComponentEvent::Inserted(70),
        ComponentEvent::Inserted(3),
        ComponentEvent::Inserted(5000),
        ComponentEvent::Modified(3),
        ComponentEvent::Modified(5000),
    ];
    Some(
        outcome.is_ok()
            && told.as_slice() == expected.as_slice()
            && numbers(alloc, &loaded)?.as_slice() == [10, 5, 16].as_slice(),
    )
}

/// Weights over some whole words of indices and parts of others, in two groups of words.
fn rows(alloc: Global, first: u32, heavy: u32) -> Option<Vec<(u32, u32)>> {
    let mut put = Vec::new(alloc);
    for id in first..200 {
        put.push((id, if id == heavy { 100 } else { id % 7 })).ok()?;
    }
    for id in 4090..4200u32 {
        put.push((id, id % 7)).ok()?;
    }
    Some(put)
}

/// Whether weights over whole words are loaded with those from 60 on, up to a heavy one.
fn loads_rows(alloc: Global, to: Store, from: Store, heavy: u32) -> Option<bool> {
    let put = rows(alloc, 3, 5000)?;
    let weights = silent(alloc, to, put.as_slice())?;
    let others = silent(alloc, from, rows(alloc, 60, heavy)?.as_slice())?;
    let (loaded, outcome) = load(weights, &others);
    let stopped = match outcome {
        Ok(()) => heavy >= 200,
        Err(EachError::Refused(index, ())) => index == heavy,
        Err(EachError::Memory) => false,
    };
    let mut expected = Vec::new(alloc);
    for (id, number) in put.as_slice() {
        let changed = *id >= 60 && (heavy >= 200 || *id < heavy);
        expected
            .push(if changed { *number % 7 * 2 } else { *number })
            .ok()?;
    }
    Some(stopped && numbers(alloc, &loaded)?.as_slice() == expected.as_slice())
}

/// What a reader reads.
fn told_of(
    alloc: Global,
    storage: &mut MaskedStorage<Weight>,
    reader: &ReaderId,
) -> Option<Vec<ComponentEvent>> {
    let mut events = Vec::new(alloc);
    storage.channel_mut().read(reader, &mut events).ok()?;
    Some(events)
}

#[test]
fn each_pair_of_stores_loads_the_same(rt: HostRuntime) {
    for to in &STORES {
        for from in &STORES {
            assert_eq!(rt; loads(rt.alloc(), *to, *from), Some(true));
            assert_eq!(rt; refuses(rt.alloc(), *to, *from), Some(true));
            assert_eq!(rt; tells(rt.alloc(), *to, *from), Some(true));
            for heavy in &[5000u32, 60, 64, 127, 130] {
                assert_eq!(rt; loads_rows(rt.alloc(), *to, *from, *heavy), Some(true));
            }
        }
    }
}
