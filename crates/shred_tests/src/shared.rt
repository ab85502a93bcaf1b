//! Calls on resources in cells, one after another: what is lent and beside whom, what is refused, and what comes back.
use crate::values::{Number, Speed, Value, count_in, number_under};
use shred::{FetchError, InvalidBorrow, SharedFetch, SharedFetchMut, SharedWorld};
use shred_world::{Missing, ResourceId, World};
use std::alloc::{AllocError, Global};
use std::sync::Wait;
use std::test::Fail;

/// The id of the number.
const NUMBER: ResourceId = ResourceId {
    kind: 1,
    dynamic: 0,
};

/// Asks for the number.
enum Ask {
    Read,
    /// To write a count over it.
    Write(u64),
}

/// A call.
enum Call {
    Insert(u64),
    InsertUnder(u64, u64),
    Has,
    HasUnder(u64),
    Fetch(Ask),
    FetchBesideReader(Ask),
    /// Beside a writer of a 6.
    FetchBesideWriter(Ask),
    TryFetchSpeed,
    TryFetch(Ask),
    TryFetchUnder(u64, Ask),
    /// Puts a speed where the number stands.
    MakeSpeed(u64),
    RemoveUnder(u64),
}

/// What the value counts that is lent or was written over, a 1 for yes, and none for no; or why it isn't lent.
type Answer = Result<Option<u64>, FetchError>;

const MISSING: Answer = Err(FetchError::Missing(Missing { id: NUMBER }));

const BORROWED: Answer = Err(FetchError::Borrowed(InvalidBorrow));

/// The calls in their order, with their answers.
static CALLS: [(Call, Answer); 36] = [
    (Call::Has, Ok(None)),
    (Call::Fetch(Ask::Read), MISSING),
    (Call::Fetch(Ask::Write(4)), MISSING),
    (Call::TryFetch(Ask::Read), Ok(None)),
    (Call::TryFetch(Ask::Write(4)), Ok(None)),
    (Call::Insert(5), Ok(Some(1))),
    (Call::Has, Ok(Some(1))),
    (Call::Fetch(Ask::Read), Ok(Some(5))),
    (Call::FetchBesideReader(Ask::Read), Ok(Some(5))),
    (Call::FetchBesideReader(Ask::Write(4)), BORROWED),
    (Call::FetchBesideWriter(Ask::Read), BORROWED),
    (Call::FetchBesideWriter(Ask::Write(4)), BORROWED),
    (Call::TryFetch(Ask::Read), Ok(Some(6))),
    (Call::TryFetch(Ask::Write(7)), Ok(Some(6))),
    (Call::Fetch(Ask::Write(8)), Ok(Some(7))),
    (Call::Fetch(Ask::Read), Ok(Some(8))),
    (Call::Insert(2), Ok(Some(1))),
    (Call::Fetch(Ask::Read), Ok(Some(2))),
    (Call::TryFetch(Ask::Write(8)), Ok(Some(2))),
    (Call::InsertUnder(3, 9), Ok(Some(1))),
    (Call::HasUnder(3), Ok(Some(1))),
    (Call::HasUnder(4), Ok(None)),
    (Call::TryFetchUnder(3, Ask::Read), Ok(Some(9))),
    (Call::TryFetchUnder(3, Ask::Write(10)), Ok(Some(9))),
    (Call::TryFetchUnder(4, Ask::Read), Ok(None)),
    (Call::RemoveUnder(3), Ok(Some(10))),
    (Call::RemoveUnder(3), Ok(None)),
    (Call::TryFetchSpeed, Ok(None)),
    (Call::MakeSpeed(4), Ok(Some(8))),
    (Call::Fetch(Ask::Read), MISSING),
    (Call::Fetch(Ask::Write(5)), MISSING),
    (Call::RemoveUnder(0), Ok(Some(4))),
    (Call::InsertUnder(3, 8), Ok(Some(1))),
    (Call::HasUnder(3), Ok(Some(1))),
    (Call::Has, Ok(None)),
    (Call::TryFetch(Ask::Read), Ok(None)),
];

/// A yes or a no.
fn yes(is_so: bool) -> Answer {
    if is_so { Ok(Some(1)) } else { Ok(None) }
}

/// What was lent counts.
fn counted(lent: Result<Option<SharedFetch<'_, Value, Number>>, InvalidBorrow>) -> Answer {
    match lent {
        Ok(Some(number)) => Ok(Some(number.0)),
        Ok(None) => Ok(None),
        Err(refused) => Err(FetchError::Borrowed(refused)),
    }
}

/// What was lent counted before this count was written over it.
fn written(
    lent: Result<Option<SharedFetchMut<'_, Value, Number>>, InvalidBorrow>,
    count: u64,
) -> Answer {
    match lent {
        Ok(Some(mut number)) => {
            let was = number.0;
            *number = Number(count);
            Ok(Some(was))
        }
        Ok(None) => Ok(None),
        Err(refused) => Err(FetchError::Borrowed(refused)),
    }
}

/// Fetches the number.
fn fetch(rt: &impl Wait, world: &SharedWorld<Value>, ask: &Ask) -> Answer {
    match ask {
        Ask::Read => counted(Ok(Some(world.fetch::<Number>(rt)?))),
        Ask::Write(count) => written(Ok(Some(world.fetch_mut::<Number>(rt)?)), *count),
    }
}

/// Fetches the number beside a reader.
fn fetch_beside_reader(rt: &impl Wait, world: &SharedWorld<Value>, ask: &Ask) -> Answer {
    match world.fetch::<Number>(rt) {
        Ok(_lent) => fetch(rt, world, ask),
        Err(refused) => Err(refused),
    }
}

/// Fetches the number beside a writer.
fn fetch_beside_writer(rt: &impl Wait, world: &SharedWorld<Value>, ask: &Ask) -> Answer {
    match world.fetch_mut::<Number>(rt) {
        Ok(mut lent) => {
            *lent = Number(6);
            fetch(rt, world, ask)
        }
        Err(refused) => Err(refused),
    }
}

/// Fetches the number, where it is there.
fn try_fetch(rt: &impl Wait, world: &SharedWorld<Value>, ask: &Ask) -> Answer {
    match ask {
        Ask::Read => counted(world.try_fetch::<Number>(rt)),
        Ask::Write(count) => written(world.try_fetch_mut::<Number>(rt), *count),
    }
}

/// Fetches the speed, where it is there.
fn try_fetch_speed(rt: &impl Wait, world: &SharedWorld<Value>) -> Answer {
    match world.try_fetch::<Speed>(rt) {
        Ok(Some(speed)) => Ok(Some(speed.0)),
        Ok(None) => Ok(None),
        Err(refused) => Err(FetchError::Borrowed(refused)),
    }
}

/// Fetches the number under a dynamic number, where it is there.
fn try_fetch_under(rt: &impl Wait, world: &SharedWorld<Value>, dynamic: u64, ask: &Ask) -> Answer {
    let id = number_under(dynamic);
    match ask {
        Ask::Read => counted(world.try_fetch_by_id::<Number>(rt, id)),
        Ask::Write(count) => written(world.try_fetch_mut_by_id::<Number>(rt, id), *count),
    }
}

/// Puts a speed into the cell of the number, and tells what stood there.
fn make_speed(rt: &impl Wait, world: &SharedWorld<Value>, count: u64) -> Answer {
    let Some(cell) = world.try_fetch_internal(NUMBER) else {
        return Ok(None);
    };
    match cell.try_borrow_mut(rt) {
        Ok(mut value) => {
            let was = count_in(&value);
            *value = Value::SpeedValue(Speed(count));
            Ok(Some(was))
        }
        Err(refused) => Err(FetchError::Borrowed(refused)),
    }
}

/// Takes a cell out, and tells what its value counts.
fn remove(world: &mut SharedWorld<Value>, dynamic: u64) -> Answer {
    match world.remove_raw(number_under(dynamic)) {
        Some(cell) => match cell.into_inner() {
            Ok(value) => Ok(Some(count_in(&value))),
            Err(refused) => Err(FetchError::Borrowed(refused)),
        },
        None => Ok(None),
    }
}

/// The answer of a call.
fn answer(rt: &impl Wait, world: &mut SharedWorld<Value>, call: &Call) -> Answer {
    match call {
        Call::Insert(count) => yes(world.insert(Number(*count)).is_ok()),
        Call::InsertUnder(dynamic, count) => {
            yes(
                world
                    .insert_by_id(number_under(*dynamic), Number(*count))
                    .is_ok(),
            )
        }
        Call::Has => yes(world.has_value::<Number>()),
        Call::HasUnder(dynamic) => yes(world.has_value_raw(number_under(*dynamic))),
        Call::Fetch(ask) => fetch(rt, world, ask),
        Call::FetchBesideReader(ask) => fetch_beside_reader(rt, world, ask),
        Call::FetchBesideWriter(ask) => fetch_beside_writer(rt, world, ask),
        Call::TryFetchSpeed => try_fetch_speed(rt, world),
        Call::TryFetch(ask) => try_fetch(rt, world, ask),
        Call::TryFetchUnder(dynamic, ask) => try_fetch_under(rt, world, *dynamic, ask),
        Call::MakeSpeed(count) => make_speed(rt, world, *count),
        Call::RemoveUnder(dynamic) => remove(world, *dynamic),
    }
}

/// The first call of the table that is answered otherwise.
fn first_wrong(rt: &impl Wait, alloc: Global) -> Option<usize> {
    let mut world = SharedWorld::empty(alloc);
    for (at, (call, wanted)) in CALLS.iter().enumerate() {
        if answer(rt, &mut world, call) != *wanted {
            return Some(at);
        }
    }
    None
}

#[test]
fn calls_on_a_shared_world_answer_in_turn(rt: HostRuntime) {
    assert_eq!(rt; first_wrong(&rt, rt.alloc()), None);
}

/// Whether the number goes out of a world into a cell, is written there, and comes back into its slot.
fn comes_back(rt: &impl Wait, world: &mut World<Value>, shared: &mut SharedWorld<Value>) -> bool {
    let Ok(taken) = shared.take_from(world, NUMBER) else {
        return false;
    };
    if !taken {
        return false;
    }
    if !shared.has_value_raw(NUMBER) {
        return false;
    }
    let is_out = !world.has_value::<Number>();
    let was = fetch(rt, shared, &Ask::Write(9));
    let is_back = shared.give_back_to(world, NUMBER).is_ok();
    is_out && was == Ok(Some(7)) && is_back && !shared.has_value::<Number>()
}

/// Whether a number goes out and comes back, and none goes where none is.
fn goes_and_comes_back(rt: &impl Wait, alloc: Global) -> Result<bool, AllocError> {
    let mut world = World::empty(alloc);
    let mut shared = SharedWorld::empty(alloc);
    let goes = shared.take_from(&mut world, NUMBER);
    world.insert(Number(7))?;
    let back = comes_back(rt, &mut world, &mut shared);
    Ok(goes == Ok(false) && back && world.remove::<Number>().map(|number| number.0) == Some(9))
}

#[test]
fn a_value_comes_back_into_its_slot(rt: HostRuntime) {
    assert_eq!(rt; goes_and_comes_back(&rt, rt.alloc()), Ok(true));
}

#[test]
fn a_refusal_has_a_text(rt: HostRuntime) -> Result<(), Fail> {
    let missing = FetchError::Missing(Missing { id: NUMBER });
    let borrowed = FetchError::Borrowed(InvalidBorrow);
    let texts = format!(in rt.alloc(); "{missing}; {borrowed}")?;
    assert_eq!(rt;
        texts.as_str(),
        "the resource is missing; the cell is already borrowed"
    );
    Ok(())
}
