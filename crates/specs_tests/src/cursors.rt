//! Parts that cursors change beside a join.
use crate::joins::{NOTHING, OTHERS, Parts, SOME, Scene, walks};
use crate::parts::{Mass, Mood, Numbered, Speed};
use specs_join::{AntiStorage, Join, JoinCursor};
use specs_layouts::{Component, MaskedStorage};
use std::alloc::{AllocError, Global};

/// Calls `change` with each part of the storage and the item of the join at its index, ascending by index, and answers how
/// many there were.
///
/// Errors: `AllocError`, where the storage emits. The parts before are changed.
fn change_each<T: Component, R: Join, F: FnMut(&mut T, R::Type)>(
    storage: &mut MaskedStorage<T>,
    read: R,
    mut change: F,
) -> Result<u32, AllocError>
where
    R::Type: Drop,
    requires { F.IsAlwaysCallable change }
{
    let mut count: u32 = 0;
    let mut cursor = JoinCursor::new(storage, read);
    while cursor.advance() {
        let item = cursor.item();
        change(cursor.values()?, item);
        count = count.wrapping_add(1);
    }
    Ok(count)
}

/// What is changed, the numbers that the cursor is given in their order, and the masses afterwards.
struct Row {
    name: &'static str,
    parts: Parts,
    joins: Joins,
    given: &'static [u32],
    after: &'static [u32],
}

/// What the masses are joined with.
#[derive(Clone, Copy)]
enum Joins {
    /// The moods.
    Moods,
    /// The moods where no speed is.
    MoodsWithoutSpeeds,
}

/// Adds to each mass the number at its index, and answers these numbers in the order of the walk.
fn add_moods(
    alloc: Global,
    masses: &mut MaskedStorage<Mass>,
    moods: &MaskedStorage<Mood>,
) -> Option<Vec<u32>> {
    let mut given = Vec::new(alloc);
    change_each(masses, moods, |mass: &mut Mass, mood: &Mood| {
        mass.0 = mass.0.wrapping_add(mood.number());
        let _ = given.push(mood.number());
    })
    .ok()?;
    Some(given)
}

/// The same where no speed is.
fn add_moods_without(
    alloc: Global,
    masses: &mut MaskedStorage<Mass>,
    moods: &MaskedStorage<Mood>,
    speeds: &MaskedStorage<Speed>,
) -> Option<Vec<u32>> {
    let mut given = Vec::new(alloc);
    let read = (moods, AntiStorage(speeds.mask()));
    change_each(masses, read, |mass: &mut Mass, (mood, ()): (&Mood, ())| {
        mass.0 = mass.0.wrapping_add(mood.number());
        let _ = given.push(mood.number());
    })
    .ok()?;
    Some(given)
}

/// Whether a cursor changes what it has to.
fn changes(alloc: Global, scene: &mut Scene, row: &Row) -> bool {
    let given = match row.joins {
        Joins::Moods => add_moods(alloc, &mut scene.masses, &scene.moods),
        Joins::MoodsWithoutSpeeds => {
            add_moods_without(alloc, &mut scene.masses, &scene.moods, &scene.speeds)
        }
    };
    match given {
        Some(given) => {
            given.as_slice() == row.given && walks(&scene.masses, |mass: &Mass| mass.0, row.after)
        }
        None => false,
    }
}

/// The first of some rows that doesn't hold.
fn wrong(alloc: Global, rows: &[Row]) -> Option<&'static str> {
    for row in rows {
        if !holds(alloc, row) {
            return Some(row.name);
        }
    }
    None
}

/// Whether a cursor changes what it has to in a scene of its own.
fn holds(alloc: Global, row: &Row) -> bool {
    let mut scene = Scene::new(alloc);
    scene.takes(&row.parts) && changes(alloc, &mut scene, row)
}

const ROWS: [Row; 5] = [
    Row {
        name: "a cursor changes each shared part once",
        parts: Parts {
            masses: &SOME,
            moods: &OTHERS,
            ..NOTHING
        },
        joins: Joins::Moods,
        given: &[0, 126, 128, 8190, 8192, 524286, 524288, 33554430],
        after: &[
            1, 6, 190, 193, 12286, 12289, 70001, 786430, 786433, 50331646,
        ],
    },
    Row {
        name: "a cursor beside an empty storage changes nothing",
        parts: Parts {
            masses: &[5, 64],
            ..NOTHING
        },
        joins: Joins::Moods,
        given: &[],
        after: &[6, 65],
    },
    Row {
        name: "a cursor over masks that share nothing changes nothing",
        parts: Parts {
            masses: &[1, 64],
            moods: &[2, 65],
            ..NOTHING
        },
        joins: Joins::Moods,
        given: &[],
        after: &[2, 65],
    },
    Row {
        name: "a cursor over an empty storage changes nothing",
        parts: Parts {
            moods: &[2, 65],
            ..NOTHING
        },
        joins: Joins::Moods,
        given: &[],
        after: &[],
    },
    Row {
        name: "a cursor goes along a join of several",
        parts: Parts {
            masses: &[0, 2, 63, 64, 4096],
            moods: &[0, 1, 63, 64, 4096, 5000],
            speeds: &[1, 2, 64],
            ..NOTHING
        },
        joins: Joins::MoodsWithoutSpeeds,
        given: &[0, 126, 8192],
        after: &[1, 3, 190, 65, 12289],
    },
];

#[test]
fn cursors_change_what_they_share(rt: HostRuntime) {
    assert_eq!(rt; wrong(rt.alloc(), &ROWS), None);
}

/// What a cursor tells that is asked to advance twice after the first index. There it puts the mood's number in the place of
/// the mass, and then one more than the mass that is there.
fn steps(masses: &mut MaskedStorage<Mass>, moods: &MaskedStorage<Mood>) -> Option<[bool; 2]> {
    let mut cursor = JoinCursor::new(masses, moods);
    if !cursor.advance() {
        return None;
    }
    let mood: &Mood = cursor.item();
    cursor.values().ok()?.0 = mood.number();
    let mass = cursor.values().ok()?;
    mass.0 = mass.0.wrapping_add(1);
    let second = cursor.advance();
    Some([second, cursor.advance()])
}

/// What a cursor over the one index 9 told, and whether the masses are these then.
fn ended(scene: &mut Scene, parts: &Parts, after: &[u32]) -> (Option<[bool; 2]>, bool) {
    let _ = scene.takes(parts);
    let told = steps(&mut scene.masses, &scene.moods);
    (told, walks(&scene.masses, |mass: &Mass| mass.0, after))
}

const AT_NINE: Parts = Parts {
    masses: &[3, 9],
    moods: &[9, 12],
    ..NOTHING
};

#[test]
fn a_cursor_at_its_end_stays_there(rt: HostRuntime) {
    let ended = ended(&mut Scene::new(rt.alloc()), &AT_NINE, &[4, 19]);
    assert_eq!(rt; ended, (Some([false, false]), true));
}
