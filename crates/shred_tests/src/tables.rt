//! Tables of kinds, and whether lists share an item.
use crate::values::{Kinds, Number, Score, Speed, Value, count_in, kinds_in, put_kinds, raised};
use shred_world::laws::{
    a_table_walks_each_kind_once, a_walk_for_writing_leaves_what_was_written, slices_share_an_item,
};
use shred_world::{MetaIterMut, MetaTable, World, check_intersection};
use std::alloc::{AllocError, Global};

/// A table of the speed, of the score where it is to have that, and of the number; the speed is registered once more.
fn table_of(alloc: Global, has_score: bool) -> Result<MetaTable, AllocError> {
    let mut table = MetaTable::new(alloc);
    let mut is_whole = table.register::<Value, Speed>().is_ok();
    if has_score {
        is_whole = table.register::<Value, Score>().is_ok() && is_whole;
    }
    is_whole = table.register::<Value, Number>().is_ok() && is_whole;
    is_whole = table.register::<Value, Speed>().is_ok() && is_whole;
    if is_whole { Ok(table) } else { Err(AllocError) }
}

/// The value with one more.
fn one_more(value: &Value) -> Value {
    raised(*value, 1)
}

/// What the values count, as the digits of a number.
fn counts_of(values: &Vec<&Value>) -> u64 {
    let mut counts = 0u64;
    for value in values {
        counts = counts.wrapping_mul(10).wrapping_add(count_in(value));
    }
    counts
}

/// Whether a table has the score, what a world counts, what of that its walk counts, told as digits, and what a walk for writing leaves
/// that raises each by one.
struct Walk {
    name: &'static str,
    has_score: bool,
    kinds: Kinds,
    counts: u64,
    raised: Kinds,
}

static WALKS: [Walk; 5] = [
    Walk {
        name: "nothing",
        has_score: false,
        kinds: (None, None, None),
        counts: 0,
        raised: (None, None, None),
    },
    Walk {
        name: "a kind that isn't registered stays",
        has_score: false,
        kinds: (Some(7), Some(3), Some(1)),
        counts: 37,
        raised: (Some(8), Some(4), Some(1)),
    },
    Walk {
        name: "the first kind doesn't stand",
        has_score: false,
        kinds: (Some(7), None, Some(1)),
        counts: 7,
        raised: (Some(8), None, Some(1)),
    },
    Walk {
        name: "a kind in the middle doesn't stand",
        has_score: true,
        kinds: (Some(7), Some(3), None),
        counts: 37,
        raised: (Some(8), Some(4), None),
    },
    Walk {
        name: "all three",
        has_score: true,
        kinds: (Some(7), Some(3), Some(1)),
        counts: 317,
        raised: (Some(8), Some(4), Some(2)),
    },
];

/// Whether a table walks as said.
fn holds(alloc: Global, walk: &Walk) -> Result<bool, AllocError> {
    let mut world = World::empty(alloc);
    put_kinds(&mut world, walk.kinds)?;
    let table = table_of(alloc, walk.has_score)?;
    let walked = counts_of(&a_table_walks_each_kind_once(alloc, &table, &world)?);
    a_walk_for_writing_leaves_what_was_written(&mut world, &table, one_more);
    Ok(walked == walk.counts && kinds_in(&world) == walk.raised)
}

#[test]
fn a_table_walks_its_kinds_in_order_of_registration(rt: HostRuntime) {
    let mut wrong = None;
    for walk in WALKS.as_slice() {
        if holds(rt.alloc(), walk) != Ok(true) {
            wrong = Some(walk.name);
        }
    }
    assert_eq!(rt; wrong, None);
}

/// The count of a speed that is registered and stands.
fn speed_in(table: &MetaTable, world: &World<Value>) -> Option<u64> {
    Some(count_in(table.get::<Value, Speed>(world)?))
}

/// Makes the speed idle, where it is registered and stands.
fn make_idle(table: &MetaTable, world: &mut World<Value>) {
    if table.is_registered::<Value, Speed>() {
        if let Some(value) = MetaTable::get_mut::<Value, Speed>(world, table) {
            *value = Value::Idle;
        }
    }
}

/// Makes the first value of a walk a score of 9, and tells how many steps the walk has.
fn make_first_a_score(table: &MetaTable, world: &mut World<Value>) -> u8 {
    let mut walk = table.iter_mut();
    let mut steps = 0u8;
    for step in 0..4u8 {
        if walk.advance(world) {
            steps = steps.saturating_add(1);
            if step == 0
                && let Some(value) = MetaIterMut::value(world, &walk)
            {
                *value = Value::ScoreValue(Score(9));
            }
        }
    }
    steps
}

/// Whether what is written through a table is found through it.
fn lends(alloc: Global) -> Result<bool, AllocError> {
    let mut world = World::empty(alloc);
    put_kinds(&mut world, (Some(7), Some(3), Some(1)))?;
    let table = table_of(alloc, false)?;
    let before = speed_in(&table, &world);
    make_idle(&table, &mut world);
    let idle = speed_in(&table, &world);
    let steps = make_first_a_score(&table, &mut world);
    let after = speed_in(&table, &world);
    Ok(
        before == Some(3)
            && idle == Some(0)
            && steps == 2
            && after == Some(9)
            && table.get::<Value, Score>(&world).is_none()
            && !table.is_registered::<Value, Score>(),
    )
}

/// Whether a kind that is registered isn't lent where it doesn't stand, and the walk for writing passes over it.
fn passes_over(alloc: Global) -> Result<bool, AllocError> {
    let mut world = World::empty(alloc);
    put_kinds(&mut world, (Some(7), Some(3), None))?;
    let table = table_of(alloc, true)?;
    let is_lent = table.get::<Value, Score>(&world).is_some();
    let steps = make_first_a_score(&table, &mut world);
    Ok(!is_lent && table.is_registered::<Value, Score>() && steps == 2)
}

#[test]
fn a_table_passes_over_what_does_not_stand(rt: HostRuntime) {
    assert_eq!(rt; passes_over(rt.alloc()), Ok(true));
}

#[test]
fn a_table_lends_what_is_registered(rt: HostRuntime) {
    assert_eq!(rt; lends(rt.alloc()), Ok(true));
}

/// Two lists, and whether they share an item.
static LISTS: [(&[u8], &[u8], bool); 4] = [
    (&[1, 2], &[3, 4], false),
    (&[1, 2], &[2, 3], true),
    (&[5], &[1, 2, 5], true),
    (&[], &[1], false),
];

/// Whether two lists are told to share an item.
fn share(left: &[u8], right: &[u8]) -> (bool, bool) {
    let told = check_intersection(left.iter(), right.iter());
    (
        told == Ok(true),
        slices_share_an_item(left, right) == Ok(true),
    )
}

#[test]
fn lists_share_an_item(rt: HostRuntime) {
    let mut wrong = None;
    for (left, right, shared) in LISTS.iter() {
        if share(left, right) != (*shared, *shared) {
            wrong = Some((*left, *right));
        }
    }
    assert_eq!(rt; wrong, None);
}
