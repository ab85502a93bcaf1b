//! Entities that are born and die, now or at the next merge.
use crate::entities::Answer::{Accepted, Entity, WrongGeneration};
use crate::entities::Call::{
    Allocates, CountsLiving, CreatesMany, CreatesRow, Deletes, Ends, Kills, Lives, Masks, Merges,
    MergesMany, Mixes,
};
use crate::entities::{ALL, MOST, Row, wrong};

const ROWS: [Row; 8] = [
    Row {
        name: "a deleted entity dies at the merge",
        indices: ALL,
        generations: MOST,
        calls: &[
            Allocates(Entity(0, 1)),
            Deletes(0, Accepted),
            Allocates(Entity(1, 1)),
            Merges(&[(0, 1)]),
        ],
    },
    Row {
        name: "a deleted entity that is killed is not merged",
        indices: ALL,
        generations: MOST,
        calls: &[
            Allocates(Entity(0, 1)),
            Deletes(0, Accepted),
            Allocates(Entity(1, 1)),
            Kills(&[0], Accepted),
            Allocates(Entity(0, 2)),
            Merges(&[]),
        ],
    },
    Row {
        name: "a thousand are created in turn",
        indices: ALL,
        generations: MOST,
        calls: &[CreatesMany(1000, false), MergesMany(0), CountsLiving(1000)],
    },
    Row {
        name: "a thousand are created and deleted in turn",
        indices: ALL,
        generations: MOST,
        calls: &[CreatesMany(1000, true), MergesMany(1000), CountsLiving(0)],
    },
    Row {
        name: "a row is created and deleted",
        indices: ALL,
        generations: MOST,
        calls: &[
            CreatesRow(5, Accepted, &[(0, 1), (1, 1), (2, 1), (3, 1), (4, 1)]),
            Deletes(0, Accepted),
            Deletes(1, Accepted),
            Deletes(2, Accepted),
            Deletes(3, Accepted),
            Deletes(4, Accepted),
            Masks(&[0, 1, 2, 3, 4]),
            MergesMany(5),
            Masks(&[]),
        ],
    },
    Row {
        name: "births of both sorts never meet",
        indices: ALL,
        generations: MOST,
        calls: &[
            Mixes(2),
            Ends(false),
            Mixes(3),
            Ends(true),
            Mixes(4),
            CountsLiving(160),
        ],
    },
    Row {
        name: "who is deleted lives until the merge",
        indices: ALL,
        generations: MOST,
        calls: &[
            Allocates(Entity(0, 1)),
            Lives(0, true),
            Kills(&[0], Accepted),
            Lives(0, false),
            Allocates(Entity(0, 2)),
            Deletes(1, Accepted),
            Lives(1, true),
            Merges(&[(0, 2)]),
            Lives(1, false),
        ],
    },
    Row {
        name: "nobody is deleted twice",
        indices: ALL,
        generations: MOST,
        calls: &[
            Allocates(Entity(0, 1)),
            Kills(&[0], Accepted),
            Deletes(0, WrongGeneration(0, 1, -1)),
        ],
    },
];

#[test]
fn births_answer_their_rows(rt: HostRuntime) {
    assert_eq!(rt; wrong(rt.alloc(), &ROWS), None);
}
