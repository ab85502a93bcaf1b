//! Scores that are settled, set and taken out.
use crate::parts::made;
use crate::placing::{Score, set_points, settle, settle_living, take_first, take_first_lent};
use specs_entity::EntitiesRes;
use specs_layouts::MaskedStorage;
use specs_storage::Storage;
use std::alloc::Global;

/// The points at an index, if it has a score.
fn points(scores: &MaskedStorage<Score>, id: u32) -> Option<u32> {
    if scores.contains(id) {
        Some(scores.get(id).0)
    } else {
        None
    }
}

/// The points at the first three indices.
fn all_points(scores: &MaskedStorage<Score>) -> [Option<u32>; 3] {
    [points(scores, 0), points(scores, 1), points(scores, 2)]
}

/// The points after the second index is settled twice, both entities are settled, and the first is set; and after two scores
/// are taken out, with their indices. Two entities live.
fn scores(alloc: Global) -> Option<([Option<u32>; 3], [Option<u32>; 3], [Option<u32>; 2])> {
    let mut entities = EntitiesRes::new(alloc);
    entities.create_iter(2).ok()?;
    let mut scores = made::<Score>(alloc)?;
    let _ = settle(&mut scores, 1, 5) && settle(&mut scores, 1, 6);
    for id in 0..3u32 {
        let entity = entities.entity(id);
        let _ = settle_living(&mut Storage::new(&entities, &mut scores), entity, 7);
    }
    let _ = set_points(
        &mut Storage::new(&entities, &mut scores),
        entities.entity(0),
        9,
    );
    let put = all_points(&scores);
    let first = take_first(&mut scores);
    let second = take_first_lent(&mut Storage::new(&entities, &mut scores));
    Some((put, all_points(&scores), [first, second]))
}

#[test]
fn scores_are_where_they_were_put(rt: HostRuntime) {
    assert_eq!(rt;
        scores(rt.alloc()),
        Some(([Some(9), Some(5), None], [None; 3], [Some(0), Some(1)]))
    );
}
