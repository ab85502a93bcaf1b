//! Courses of worlds, with what comes of each step by the definitions of commands, the same in each store.
use scene_cases::commands::Owning;
use scene_cases::commands::course::Answer::{
    Done, Gone, Nobody, Nothing, Number, Refused, Skipped,
};
use scene_cases::commands::course::Step::{
    Demote, Free, Kill, NotedUnder, Own, OwnerOf, Promote, RankOf, Spawn,
};
use scene_cases::commands::course::{Answer, Refusal, Step, runs};
use scene_commands::open_world;
use scene_world::Store;
use std::alloc::Global;

/// A course in a world with these limits of indices and generations, and this next id.
struct Row {
    name: &'static str,
    limits: (u32, u32),
    next: u64,
    course: &'static [(Step, Answer)],
}

const LIMITS: (u32, u32) = (16_777_216, 2_147_483_647);

const ROWS: [Row; 14] = [
    Row {
        name: "a spawn gets the next id, and its parts",
        limits: LIMITS,
        next: 7,
        course: &[
            (RankOf(7), Nobody),
            (Spawn(None, Some(3)), Done),
            (RankOf(7), Number(3)),
            (OwnerOf(7), Nothing),
            (RankOf(8), Nobody),
            (Spawn(None, None), Done),
            (RankOf(8), Nothing),
            (RankOf(7), Number(3)),
        ],
    },
    Row {
        name: "a spawn with an owner that lives",
        limits: LIMITS,
        next: 0,
        course: &[
            (Spawn(None, None), Done),
            (Spawn(Some(0), Some(5)), Done),
            (OwnerOf(1), Number(0)),
            (RankOf(1), Number(5)),
            (OwnerOf(0), Nothing),
            (Spawn(Some(1), None), Done),
            (OwnerOf(2), Number(1)),
        ],
    },
    Row {
        name: "a spawn whose owner doesn't live takes no id",
        limits: LIMITS,
        next: 0,
        course: &[
            (Spawn(Some(0), None), Skipped),
            (OwnerOf(0), Nobody),
            (Spawn(None, None), Done),
            (Spawn(Some(1), Some(2)), Skipped),
            (RankOf(1), Nobody),
            (Spawn(Some(0), None), Done),
            (OwnerOf(1), Number(0)),
        ],
    },
    Row {
        name: "references to one that was killed are gone",
        limits: LIMITS,
        next: 0,
        course: &[
            (Spawn(None, Some(1)), Done),
            (Spawn(Some(0), None), Done),
            (NotedUnder(0), Number(0)),
            (Kill(0), Done),
            (NotedUnder(0), Nobody),
            (NotedUnder(1), Number(1)),
            (OwnerOf(1), Gone),
            (OwnerOf(0), Nobody),
            (RankOf(0), Nobody),
            (Kill(0), Skipped),
            (Spawn(Some(0), None), Skipped),
            (Kill(1), Done),
            (OwnerOf(1), Nobody),
        ],
    },
    Row {
        name: "an index that is used again has a new id",
        limits: (2, 2),
        next: 0,
        course: &[
            (Spawn(None, Some(1)), Done),
            (Spawn(Some(0), None), Done),
            (Kill(0), Done),
            (Spawn(None, Some(9)), Done),
            (NotedUnder(0), Nobody),
            (NotedUnder(2), Number(0)),
            (RankOf(0), Nobody),
            (RankOf(2), Number(9)),
            (OwnerOf(1), Gone),
            (Kill(0), Skipped),
            (RankOf(2), Number(9)),
            (Own(1, 2), Done),
            (OwnerOf(1), Number(2)),
        ],
    },
    Row {
        name: "who gets an index has none of the parts that stood there",
        limits: (2, 2),
        next: 0,
        course: &[
            (Spawn(None, None), Done),
            (Spawn(Some(0), Some(4)), Done),
            (Kill(1), Done),
            (Spawn(None, None), Done),
            (OwnerOf(2), Nothing),
            (RankOf(2), Nothing),
        ],
    },
    Row {
        name: "a put over a part",
        limits: LIMITS,
        next: 0,
        course: &[
            (Spawn(None, Some(1)), Done),
            (Promote(0, 2), Done),
            (RankOf(0), Number(2)),
            (Own(0, 0), Done),
            (OwnerOf(0), Number(0)),
            (Spawn(None, None), Done),
            (Own(0, 1), Done),
            (OwnerOf(0), Number(1)),
            (RankOf(0), Number(2)),
            (OwnerOf(1), Nothing),
        ],
    },
    Row {
        name: "a put for the dead, or of a reference to them",
        limits: LIMITS,
        next: 0,
        course: &[
            (Promote(0, 1), Skipped),
            (Spawn(None, None), Done),
            (Spawn(None, None), Done),
            (Kill(1), Done),
            (Promote(1, 1), Skipped),
            (Own(1, 0), Skipped),
            (Own(0, 1), Skipped),
            (OwnerOf(0), Nothing),
            (RankOf(1), Nobody),
        ],
    },
    Row {
        name: "a take, also where there is nothing",
        limits: LIMITS,
        next: 0,
        course: &[
            (Spawn(None, Some(1)), Done),
            (Spawn(Some(0), Some(2)), Done),
            (Demote(0), Done),
            (RankOf(0), Nothing),
            (Demote(0), Done),
            (Free(0), Done),
            (RankOf(1), Number(2)),
            (Free(1), Done),
            (OwnerOf(1), Nothing),
            (RankOf(1), Number(2)),
            (Free(2), Skipped),
        ],
    },
    Row {
        name: "the last id",
        limits: LIMITS,
        next: 18_446_744_073_709_551_614,
        course: &[
            (Spawn(None, Some(6)), Done),
            (RankOf(18_446_744_073_709_551_614), Number(6)),
            (Spawn(Some(5), None), Skipped),
            (Spawn(None, None), Refused(Refusal::Ids)),
        ],
    },
    Row {
        name: "no id is told before no index",
        limits: (0, 0),
        next: 18_446_744_073_709_551_615,
        course: &[
            (Spawn(Some(18_446_744_073_709_551_615), None), Skipped),
            (Spawn(None, None), Refused(Refusal::Ids)),
        ],
    },
    Row {
        name: "no index is left",
        limits: (1, 2),
        next: 0,
        course: &[
            (Spawn(None, None), Done),
            (Spawn(Some(1), None), Skipped),
            (Spawn(Some(0), None), Refused(Refusal::Indices)),
        ],
    },
    Row {
        name: "an index is free as soon as its entity was killed",
        limits: (1, 2),
        next: 0,
        course: &[
            (Spawn(None, Some(1)), Done),
            (Kill(0), Done),
            (Spawn(None, None), Done),
            (RankOf(1), Nothing),
            (Kill(1), Done),
            (Spawn(None, None), Refused(Refusal::Generations)),
        ],
    },
    Row {
        name: "an index has had its births, while others are left",
        limits: (2, 1),
        next: 0,
        course: &[
            (Spawn(None, None), Done),
            (Kill(0), Done),
            (Spawn(None, None), Refused(Refusal::Generations)),
        ],
    },
];

const STORES: [Store; 4] = [Store::Vec, Store::Dense, Store::Hash, Store::BTree];

/// Whether each step of a row comes out as it says, in a store.
fn holds(row: &Row, store: Store, alloc: Global) -> bool {
    match open_world::<Owning>(store, row.limits, row.next, alloc) {
        Ok(mut world) => runs(&mut world, row.course, alloc),
        Err(_) => false,
    }
}

#[test]
fn each_command_makes_of_a_world_what_it_says(rt: HostRuntime) {
    let mut wrong = None;
    for row in &ROWS {
        for store in STORES {
            if !holds(row, store, rt.alloc()) {
                wrong = Some((row.name, store));
            }
        }
    }
    assert_eq!(rt; wrong, None);
}
