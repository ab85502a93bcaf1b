//! Bundles of each form and length: what they tell, what they lack, and that what they write stays.
use crate::bundled::run_advance;
use crate::sides::{go_round, sides};
use crate::values::{Kinds, Number, Score, Speed, Value, kinds_in, number_under, put_kinds};
use shred_stages::{BatchAccessor, DispatchError, Stop, SystemId};
use shred_world::{
    Accessor, DynamicSystemData, Missing, Read, ReadAccessor, ReadExpect, ResourceId, SystemData,
    World, Write, WriteAccessor, WriteExpect,
};
use std::alloc::{AllocError, Global};
use std::marker::PhantomData;
use std::sync::Wait;
use std::thread::Threads;

type One = (Write<Number>,);

type Two = (Read<Score>, Write<Number>);

type Three = (Write<Number>, ReadExpect<Speed>, WriteExpect<Score>);

type Four = (Read<Number>, (), Write<Score>, Read<Speed>);

type Five = (Read<Number>, Read<Speed>, Read<Score>, PhantomData<u8>, ());

type Six = ((), (), Write<Number>, Write<Speed>, (), Write<Score>);

type Seven = (
    Read<Score>,
    (),
    (),
    Write<Number>,
    (),
    (),
    Option<Write<Speed>>,
);

type Eight = (
    Option<Read<Number>>,
    Read<Number>,
    (),
    Write<Score>,
    PhantomData<u8>,
    Read<Speed>,
    Option<Write<Score>>,
    (Read<Speed>, Read<Number>),
);

/// Whether the ids are of these kinds, told as the digits of a number; not so for want of memory.
fn are_of(told: Result<Vec<ResourceId>, AllocError>, kinds: u64) -> bool {
    let Ok(ids) = told else {
        return false;
    };
    let mut digits = 0u64;
    for id in &ids {
        digits = digits.wrapping_mul(10).wrapping_add(id.kind as u64);
    }
    digits == kinds
}

/// Whether a bundle tells these kinds as those that it reads, and these as those that it writes; not so for want of memory.
fn tells<D: SystemData<Value>>(alloc: Global, reads: u64, writes: u64) -> bool {
    are_of(D::reads(alloc), reads) && are_of(D::writes(alloc), writes)
}

/// The kind that a bundle lacks, 0 where it lacks none; 9 where it doesn't tell these kinds as those that it reads and writes.
fn lack_of<D: SystemData<Value>>(
    alloc: Global,
    world: &mut World<Value>,
    reads: u64,
    writes: u64,
) -> u32 {
    if tells::<D>(alloc, reads, writes) {
        first_wanting::<D>(world)
    } else {
        9
    }
}

/// The first kind that a bundle lacks, 0 where it lacks none.
pub(crate) fn first_wanting<D: SystemData<Value>>(world: &mut World<Value>) -> u32 {
    match world.system_data::<D>() {
        Ok(bundle) => {
            bundle.give_back(world);
            0
        }
        Err(missing) => missing.id.kind,
    }
}

/// What the bundles lack of a world, in order.
fn lacks_of(alloc: Global, world: &mut World<Value>) -> [u32; 10] {
    [
        lack_of::<()>(alloc, world, 0, 0),
        lack_of::<One>(alloc, world, 0, 1),
        lack_of::<Two>(alloc, world, 3, 1),
        lack_of::<Three>(alloc, world, 2, 13),
        lack_of::<Four>(alloc, world, 12, 3),
        lack_of::<Five>(alloc, world, 123, 0),
        lack_of::<Six>(alloc, world, 0, 123),
        lack_of::<Seven>(alloc, world, 3, 12),
        lack_of::<Eight>(alloc, world, 11_221, 33),
        lack_of::<(Option<Write<Score>>, Option<Read<Number>>)>(alloc, world, 1, 3),
    ]
}

/// The number, the speed and the score of a world, where they stand, and what the bundles lack there.
struct Row {
    kinds: Kinds,
    lacks: [u32; 10],
}

static ROWS: [Row; 4] = [
    Row {
        kinds: (None, None, None),
        lacks: [0, 1, 3, 1, 1, 1, 1, 3, 1, 0],
    },
    Row {
        kinds: (Some(7), None, None),
        lacks: [0, 0, 3, 2, 3, 2, 2, 3, 3, 0],
    },
    Row {
        kinds: (Some(7), Some(3), None),
        lacks: [0, 0, 3, 3, 3, 3, 3, 3, 3, 0],
    },
    Row {
        kinds: (Some(7), Some(3), Some(1)),
        lacks: [0, 0, 0, 0, 0, 0, 0, 0, 0, 0],
    },
];

/// Whether each bundle lacks what the row says, and leaves what stood there.
fn holds(alloc: Global, row: &Row) -> Result<bool, AllocError> {
    let mut world = World::empty(alloc);
    put_kinds(&mut world, row.kinds)?;
    let lacks = lacks_of(alloc, &mut world);
    Ok(lacks == row.lacks && kinds_in(&world) == row.kinds)
}

#[test]
fn bundles_tell_their_kinds_and_the_first_that_is_wanting(rt: HostRuntime) {
    let mut wrong = None;
    for row in ROWS.as_slice() {
        if holds(rt.alloc(), row) != Ok(true) {
            wrong = Some(row.kinds);
        }
    }
    assert_eq!(rt; wrong, None);
}

/// Whether a bundle is set up over a world with some kinds, so that it has others then; not so for want of memory.
fn sets_up<D: SystemData<Value>>(alloc: Global, kinds: Kinds, after: Kinds) -> bool {
    let mut world = World::empty(alloc);
    put_kinds(&mut world, kinds).is_ok() && world.setup::<D>().is_ok() && kinds_in(&world) == after
}

/// Which of the bundles are set up as they should be: a default stands where nothing stood, unless none is put in.
fn set_up(alloc: Global) -> [bool; 6] {
    let number = (Some(7), None, None);
    [
        sets_up::<()>(alloc, (None, None, None), (None, None, None)),
        sets_up::<One>(alloc, (None, None, None), (Some(0), None, None)),
        sets_up::<Three>(alloc, number, number),
        sets_up::<(Write<Number>, Read<Speed>, ReadExpect<Score>)>(
            alloc,
            number,
            (Some(7), Some(0), None),
        ),
        sets_up::<Eight>(alloc, number, (Some(7), Some(0), Some(0))),
        sets_up::<Option<Write<Speed>>>(alloc, number, number),
    ]
}

#[test]
fn a_setup_puts_defaults_where_nothing_stands(rt: HostRuntime) {
    assert_eq!(rt; set_up(rt.alloc()), [true; 6]);
}

/// Adds the speed to the number.
fn hasten(world: &mut World<Value>) -> Result<(), Missing> {
    let (mut number, speed) = <(Write<Number>, Read<Speed>) as SystemData<Value>>::fetch(world)?;
    let gain = speed.get(world).0;
    number.value.0 = number.value.0.wrapping_add(gain);
    <(Write<Number>, Read<Speed>) as SystemData<Value>>::give_back((number, speed), world);
    Ok(())
}

/// Adds one to the number, through the bundle as if it were the number.
fn raise(world: &mut World<Value>) -> Result<(), Missing> {
    let mut number = <Write<Number> as SystemData<Value>>::fetch(world)?;
    let count = (*number).0;
    *number = Number(count.wrapping_add(1));
    <Write<Number> as SystemData<Value>>::give_back(number, world);
    Ok(())
}

/// The kind that one of two calls lacks, 0 where both lack none.
fn wanting(calls: (Result<(), Missing>, Result<(), Missing>)) -> u32 {
    match calls {
        (Ok(()), Ok(())) => 0,
        (Err(missing), _) => missing.id.kind,
        (_, Err(missing)) => missing.id.kind,
    }
}

/// What two bundles that write the number leave in a world, and the kind that is wanting.
fn written(alloc: Global, kinds: Kinds) -> Result<(Kinds, u32), AllocError> {
    let mut world = World::empty(alloc);
    put_kinds(&mut world, kinds)?;
    let hastened = hasten(&mut world);
    let raised = raise(&mut world);
    Ok((kinds_in(&world), wanting((hastened, raised))))
}

#[test]
fn what_a_bundle_writes_stays(rt: HostRuntime) {
    let alloc = rt.alloc();
    let left = [
        written(alloc, (Some(7), Some(3), None)),
        written(alloc, (Some(10), None, None)),
    ];
    assert_eq!(rt;
        left,
        [
            Ok(((Some(11), Some(3), None), 0)),
            Ok(((Some(11), None, None), 2)),
        ]
    );
}

/// Which of the number for reading and the score for writing a bundle has that needs neither; none where it lacks one.
fn optional(world: &mut World<Value>) -> Option<(bool, bool)> {
    match world.system_data::<(Option<Read<Number>>, Option<Write<Score>>)>() {
        Ok(bundle) => {
            let told = (bundle.0.is_some(), bundle.1.is_some());
            SystemData::give_back(bundle, world);
            Some(told)
        }
        Err(_) => None,
    }
}

/// What a bundle that needs nothing has of a world with these kinds.
fn optional_of(alloc: Global, kinds: Kinds) -> Result<Option<(bool, bool)>, AllocError> {
    let mut world = World::empty(alloc);
    put_kinds(&mut world, kinds)?;
    Ok(optional(&mut world))
}

#[test]
fn a_bundle_has_what_it_may_have(rt: HostRuntime) {
    let alloc = rt.alloc();
    let told = [
        optional_of(alloc, (Some(7), None, None)),
        optional_of(alloc, (None, None, Some(1))),
    ];
    assert_eq!(rt; told, [Ok(Some((true, false))), Ok(Some((false, true)))]);
}

/// Whether an accessor tells these kinds as those that are read, and these as those that are written; not so for want of memory.
fn accesses<A: Accessor>(alloc: Global, access: &A, reads: u64, writes: u64) -> bool {
    are_of(access.reads(alloc), reads) && are_of(access.writes(alloc), writes)
}

/// Whether the accessor of a batch tells the ids that it was made of.
fn batch_accesses(alloc: Global) -> bool {
    let (read, written) = (ResourceId::from_type_id(8), ResourceId::from_type_id(9));
    let Ok(reads) = Vec::from_slice(alloc, &[read]) else {
        return false;
    };
    let Ok(writes) = Vec::from_slice(alloc, &[written]) else {
        return false;
    };
    accesses(alloc, &BatchAccessor::new(reads, writes), 8, 9)
}

#[test]
fn accessors_tell_their_ids(rt: HostRuntime) {
    let alloc = rt.alloc();
    let id = ResourceId::from_type_id(9);
    let told = [
        batch_accesses(alloc),
        accesses(alloc, &(), 0, 0),
        accesses(alloc, &PhantomData::<u8>, 0, 0),
        accesses(alloc, &ReadAccessor { id }, 9, 0),
        accesses(alloc, &WriteAccessor { id }, 0, 9),
    ];
    assert_eq!(rt; told, [true; 5]);
}

/// Whether a bundle is set up and fetched under the ids that an accessor tells; it is given back at once.
fn is_fetched<D: DynamicSystemData<Value>>(access: &D::Access, world: &mut World<Value>) -> bool {
    if D::setup(access, world).is_err() {
        return false;
    }
    match D::fetch(access, world) {
        Ok(bundle) => {
            bundle.give_back(access, world);
            true
        }
        Err(_) => false,
    }
}

/// Makes the number under the id of an accessor twice as great.
fn double_under(world: &mut World<Value>, access: WriteAccessor) -> Result<(), Missing> {
    let mut number = <Write<Number> as DynamicSystemData<Value>>::fetch(&access, world)?;
    number.value.0 = number.value.0.wrapping_mul(2);
    <Write<Number> as DynamicSystemData<Value>>::give_back(number, &access, world);
    Ok(())
}

/// The count of the number under the id of an accessor.
fn count_under(world: &mut World<Value>, access: ReadAccessor) -> Result<u64, Missing> {
    let read = <Read<Number> as DynamicSystemData<Value>>::fetch(&access, world)?;
    let count = read.get_under(world, &access).0;
    <Read<Number> as DynamicSystemData<Value>>::give_back(read, &access, world);
    Ok(count)
}

/// The bundles under dynamic numbers, one of each length: the access of all but the last part, and that of the last.
type Under = ((((), ReadAccessor), WriteAccessor), ReadAccessor);

type UnderFour = (
    (),
    Option<Read<Number>>,
    Option<Write<Number>>,
    Read<Number>,
);

type UnderEight = (
    Write<Number>,
    (),
    PhantomData<u8>,
    (Read<Number>,),
    (),
    Option<Read<Number>>,
    (),
    Option<Write<Number>>,
);

/// The number under a dynamic number, for reading and for writing.
fn reading(dynamic: u64) -> ReadAccessor {
    ReadAccessor {
        id: number_under(dynamic),
    }
}

fn writing(dynamic: u64) -> WriteAccessor {
    WriteAccessor {
        id: number_under(dynamic),
    }
}

/// Whether tuples of bundles are fetched under the numbers that their accessors tell, and tell their ids.
fn tuples_reach_their_numbers(alloc: Global) -> Result<[bool; 5], AllocError> {
    let mut world = World::empty(alloc);
    world.insert_by_id(number_under(2), Number(20))?;
    world.insert_by_id(number_under(4), Number(40))?;
    let four: Under = ((((), reading(9)), writing(2)), reading(4));
    let missing: Under = ((((), reading(2)), writing(4)), reading(4));
    let eight = (
        (
            (
                ((((writing(4), ()), PhantomData::<u8>), (reading(2),)), ()),
                reading(4),
            ),
            (),
        ),
        writing(2),
    );
    Ok([
        is_fetched::<UnderFour>(&four, &mut world),
        !is_fetched::<UnderFour>(&missing, &mut world),
        is_fetched::<UnderEight>(&eight, &mut world),
        accesses(alloc, &four, 11, 1),
        kinds_in(&world) == (None, None, None)
            && is_fetched::<(Read<Number>, Read<Number>)>(&(reading(2), reading(4)), &mut world),
    ])
}

#[test]
fn tuples_are_fetched_under_dynamic_numbers(rt: HostRuntime) {
    assert_eq!(rt; tuples_reach_their_numbers(rt.alloc()), Ok([true; 5]));
}

/// How a system that is made of a bundle ends over a world with these kinds, and what it leaves.
fn left_by_a_bundle<H: AllocGlobal>(
    rt: &H,
    kinds: Kinds,
) -> Result<(Result<(), Stop>, Kinds), AllocError> {
    let mut world = World::empty(rt.alloc());
    put_kinds(&mut world, kinds)?;
    let outcome = run_advance(rt, &mut world)?;
    Ok((outcome, kinds_in(&world)))
}

#[test]
fn a_system_is_made_of_a_bundle(rt: HostRuntime) {
    let moved = left_by_a_bundle(&rt, (Some(5), Some(3), Some(1)));
    assert_eq!(rt; moved, Ok((Ok(()), (Some(8), Some(3), Some(1)))));
    let stopped = left_by_a_bundle(&rt, (Some(5), None, None));
    assert_eq!(rt; stopped, Ok((Err(Stop::Full), (Some(5), None, None))));
}

/// How a dispatch of systems of two types, and of a local one, ends over a world with these kinds, and what it leaves.
fn left_by_sides<R: AllocGlobal + Threads + Wait + Sync>(
    rt: &R,
    workers: usize,
    kinds: Kinds,
) -> Result<(Option<DispatchError>, Kinds), AllocError> {
    let mut world = World::empty(rt.alloc());
    put_kinds(&mut world, kinds)?;
    let Ok(mut dispatcher) = sides(rt.alloc(), workers) else {
        return Err(AllocError);
    };
    let outcome = go_round(rt, &mut dispatcher, &mut world).err();
    Ok((outcome, kinds_in(&world)))
}

#[test]
fn systems_of_two_types_share_a_dispatcher(rt: HostRuntime) {
    for workers in [1, 4] {
        let gone = left_by_sides(&rt, workers, (Some(5), Some(3), Some(1)));
        assert_eq!(rt; gone, Ok((None, (Some(11), Some(3), Some(2)))));
    }
    let stopped = left_by_sides(&rt, 1, (Some(5), None, Some(1)));
    let error = DispatchError::System(SystemId(0), Stop::Full);
    assert_eq!(rt; stopped, Ok((Some(error), (Some(5), None, Some(2)))));
}

/// Whether bundles under a dynamic number reach the number there, and no other.
fn reach_their_number(alloc: Global) -> Result<bool, AllocError> {
    let mut world = World::empty(alloc);
    world.insert(Number(1))?;
    world.insert_by_id(number_under(2), Number(20))?;
    let id = number_under(2);
    let fetched = is_fetched::<Read<Number>>(&ReadAccessor { id }, &mut world)
        && is_fetched::<Write<Number>>(&WriteAccessor { id }, &mut world);
    let doubled = double_under(&mut world, WriteAccessor { id });
    let count = count_under(&mut world, ReadAccessor { id });
    let absent = count_under(
        &mut world,
        ReadAccessor {
            id: number_under(3),
        },
    );
    Ok(
        fetched
            && doubled == Ok(())
            && count == Ok(40)
            && absent
                == Err(Missing {
                    id: number_under(3),
                })
            && kinds_in(&world) == (Some(1), None, None),
    )
}

#[test]
fn a_bundle_under_a_dynamic_number_reaches_that_alone(rt: HostRuntime) {
    assert_eq!(rt; reach_their_number(rt.alloc()), Ok(true));
}
