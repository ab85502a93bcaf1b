//! Calls on a world, one after another: each succeeds where there is memory, and reaches the value that it names.
ghost use Rattle.std.specs.Prelude.{◌≡◌, IfSome, IfNone};
ghost use Rattle.shred_world.specs.ResourceIds.{id_of};
ghost use Rattle.shred_tests.specs.Chores.{sum_of};
ghost use Rattle.shred_tests.specs.Values.{count_of, raised_by, Exchanges, Gains};

use crate::bundles::first_wanting;
use crate::values::{Number, Score, Speed, Value, count_in, number_under, raised};
use shred_world::{Read, ReadExpect, SystemData, World, Write};
use std::alloc::Global;
use std::sync::atomic::AtomicU64;
use std::sync::atomic::Ordering::SeqCst;

/// A call. What it lends, takes out or lets go is told as a count, a yes as 1, and a no or nothing as none.
enum Call {
    Insert(u64),
    InsertUnder(u64, u64),
    InsertSpeed(u64),
    MakeSlot(u64),
    Has,
    HasUnder(u64),
    Fetch,
    TryFetch,
    TryFetchUnder(u64),
    SeeSpeed,
    SeeScore,
    Raw(u64),
    LeastFrom(u64),
    FetchMut(u64),
    GetMut(u64),
    TryFetchMut(u64),
    TryFetchMutUnder(u64, u64),
    MakeIdle(u64),
    OrInsert(u64),
    /// The number, and then how often one was made, as digits.
    OrInsertWith,
    TakeAndPutBack(u64),
    /// The sum of the number and of one under another dynamic number, which are exchanged.
    Exchange(u64),
    /// A number under another dynamic number, which is added to the number.
    AddUnder(u64),
    Remove,
    RemoveUnder(u64),
    SetUp,
    /// The kind that a bundle of the number lacks.
    Lack,
    Exec,
}

/// The calls in their order, with their answers.
static CALLS: [(Call, Option<u64>); 64] = [
    (Call::Has, None),
    (Call::TryFetch, None),
    (Call::Fetch, None),
    (Call::Remove, None),
    (Call::Lack, Some(1)),
    (Call::Exec, Some(0)),
    (Call::Remove, Some(0)),
    (Call::OrInsert(4), Some(4)),
    (Call::OrInsert(9), Some(5)),
    (Call::Remove, Some(6)),
    (Call::Insert(7), Some(1)),
    (Call::InsertSpeed(3), Some(1)),
    (Call::InsertUnder(5, 9), Some(1)),
    (Call::TryFetch, Some(7)),
    (Call::Fetch, Some(7)),
    (Call::TryFetchUnder(5), Some(9)),
    (Call::SeeSpeed, Some(3)),
    (Call::SeeScore, None),
    (Call::HasUnder(6), None),
    (Call::GetMut(8), Some(7)),
    (Call::Raw(0), Some(8)),
    (Call::FetchMut(10), Some(8)),
    (Call::TryFetchMut(11), Some(10)),
    (Call::TryFetchMutUnder(5, 12), Some(9)),
    (Call::TryFetchMutUnder(6, 1), None),
    (Call::Exchange(5), Some(23)),
    (Call::TryFetch, Some(12)),
    (Call::TryFetchUnder(5), Some(11)),
    (Call::Exchange(6), None),
    (Call::Exchange(5), Some(23)),
    (Call::AddUnder(5), Some(12)),
    (Call::TryFetch, Some(23)),
    (Call::AddUnder(6), None),
    (Call::FetchMut(11), Some(23)),
    (Call::LeastFrom(0), Some(0)),
    (Call::LeastFrom(1), Some(5)),
    (Call::LeastFrom(6), None),
    (Call::SetUp, Some(1)),
    (Call::TryFetch, Some(11)),
    (Call::SeeScore, None),
    (Call::Exec, Some(10)),
    (Call::TryFetch, Some(10)),
    (Call::Lack, Some(0)),
    (Call::OrInsert(4), Some(10)),
    (Call::Remove, Some(11)),
    (Call::Remove, None),
    (Call::OrInsertWith, Some(21)),
    (Call::OrInsertWith, Some(20)),
    (Call::Insert(8), Some(1)),
    (Call::OrInsertWith, Some(80)),
    (Call::MakeIdle(0), Some(8)),
    (Call::Has, Some(1)),
    (Call::TryFetch, None),
    (Call::Remove, None),
    (Call::Lack, Some(1)),
    (Call::Raw(0), Some(0)),
    (Call::TakeAndPutBack(5), Some(12)),
    (Call::RemoveUnder(5), Some(12)),
    (Call::RemoveUnder(5), None),
    (Call::MakeSlot(4), Some(1)),
    (Call::MakeSlot(4), Some(1)),
    (Call::TakeAndPutBack(4), None),
    (Call::InsertUnder(4, 1), Some(1)),
    (Call::TakeAndPutBack(4), Some(1)),
];

/// A yes or a no.
fn yes(is_so: bool) -> Option<u64> {
    if is_so { Some(1) } else { None }
}

/// What a number counts, where it is there.
fn count_of(number: Option<&Number>) -> Option<u64> {
    match number {
        Some(number) => Some(number.0),
        None => None,
    }
}

/// Writes a count over the number that is lent, and tells what it counted.
fn write(lent: Option<&mut Number>, count: u64) -> Option<u64> {
    match lent {
        Some(number) => {
            let was = number.0;
            number.0 = count;
            Some(was)
        }
        None => None,
    }
}

/// The number, where it is there.
fn fetched(world: &World<Value>) -> Option<u64> {
    if world.try_fetch::<Number>().is_none() {
        return None;
    }
    Some(world.fetch::<Number>().0)
}

/// Writes over the number, where it is there.
fn write_fetched(world: &mut World<Value>, count: u64) -> Option<u64> {
    if world.try_fetch::<Number>().is_none() {
        return None;
    }
    let number = world.fetch_mut::<Number>();
    let was = number.0;
    number.0 = count;
    Some(was)
}

/// The answer of a call that only reads; none of the others.
fn read(world: &World<Value>, call: &Call) -> Option<u64> {
    match call {
        Call::Has => yes(world.has_value::<Number>()),
        Call::HasUnder(dynamic) => yes(world.has_value_raw(number_under(*dynamic))),
        Call::Fetch => fetched(world),
        Call::TryFetch => count_of(world.try_fetch::<Number>()),
        Call::TryFetchUnder(dynamic) => {
            count_of(world.try_fetch_by_id::<Number>(number_under(*dynamic)))
        }
        Call::SeeSpeed => Some(world.try_fetch::<Speed>()?.0),
        Call::SeeScore => Some(world.try_fetch::<Score>()?.0),
        Call::Raw(dynamic) => Some(count_in(world.get_raw(number_under(*dynamic))?)),
        Call::LeastFrom(from) => world.least_id(1, *from),
        _ => None,
    }
}

/// Makes the value under a number's id one of no kind, and tells what it counted.
fn make_idle(world: &mut World<Value>, dynamic: u64) -> Option<u64> {
    let value = world.get_mut_raw(number_under(dynamic))?;
    let was = count_in(value);
    *value = Value::Idle;
    Some(was)
}

/// The number of a world, which begins at `start`, raised by one; none for want of memory, or for a value of another kind.
fn raise(world: &mut World<Value>, start: u64) -> Option<u64> {
    if world.has_value::<Number>() != world.try_fetch::<Number>().is_some() {
        return None;
    }
    match world.entry::<Number>().or_insert(Number(start)) {
        Ok(number) => {
            let was = number.0;
            number.0 = was.wrapping_add(1);
            Some(was)
        }
        Err(_) => None,
    }
}

/// The number of a world, which begins at 2, and as its last digit how often it was made; none for want of memory, or for a value of
/// another kind.
fn from_two(world: &mut World<Value>) -> Option<u64> {
    if world.has_value::<Number>() != world.try_fetch::<Number>().is_some() {
        return None;
    }
    let made = AtomicU64::new(0);
    let two = || {
        made.fetch_add(1, SeqCst);
        Number(2)
    };
    match world.entry::<Number>().or_insert_with(two) {
        Ok(number) => Some(number.0.wrapping_mul(10).wrapping_add(made.load(SeqCst))),
        Err(_) => None,
    }
}

/// What the value counts that goes out of its slot and comes back; none where its slot isn't empty meanwhile.
fn take_and_put_back(world: &mut World<Value>, dynamic: u64) -> Option<u64> {
    let id = number_under(dynamic);
    match world.take_raw(id) {
        Some(value) => {
            let is_out = !world.has_value_raw(id);
            world.put_back(id, value);
            if is_out { Some(count_in(&value)) } else { None }
        }
        None => None,
    }
}

/// Exchanges the number with the one under another dynamic number, and tells their sum.
fn exchange(world: &mut World<Value>, dynamic: u64) -> Option<u64>
    ensures exchanged { IfSome result (Exchanges (id_of 1 0) (id_of 1 dynamic) world.old world.new) }
    ensures none { IfNone result (world.new ≡ world.old) }
{
    let one = number_under(0);
    let other = number_under(dynamic);
    if one == other {
        return None;
    }
    world.change_two(
        one,
        other,
        |first: &mut Value, second: &mut Value| -> u64
            ensures sum { result ≡ sum_of (count_of first.old) (count_of second.old) }
            ensures first { first.new ≡ second.old }
            ensures second { second.new ≡ first.old }
        {
            let sum = count_in(first).wrapping_add(count_in(second));
            let was = *first;
            *first = *second;
            *second = was;
            sum
        },
    )
}

/// Adds the number under another dynamic number to the number, and tells what was added.
fn add_under(world: &mut World<Value>, dynamic: u64) -> Option<u64>
    ensures added { IfSome result (Gains (id_of 1 dynamic) (id_of 1 0) world.old world.new) }
    ensures none { IfNone result (world.new ≡ world.old) }
{
    let one = number_under(0);
    let other = number_under(dynamic);
    if other == one {
        return None;
    }
    world.change_by(
        other,
        one,
        |seen: &Value, value: &mut Value| -> u64
            ensures told { result ≡ count_of seen.now }
            ensures raised { value.new ≡ raised_by value.old result }
        {
            let amount = count_in(seen);
            *value = raised(*value, amount);
            amount
        },
    )
}

/// Takes one off the number, which is set up as 0.
fn take_one_off(world: &mut World<Value>) -> Option<u64> {
    let left = world.exec(|mut number: Write<Number>, world: &mut World<Value>| {
        let left = number.value.0.saturating_sub(1);
        number.value.0 = left;
        <Write<Number> as SystemData<Value>>::give_back(number, world);
        left
    });
    match left {
        Ok(left) => Some(left),
        Err(_) => None,
    }
}

/// The answer of a call.
fn answer(world: &mut World<Value>, call: &Call) -> Option<u64> {
    match call {
        Call::Insert(count) => yes(world.insert(Number(*count)).is_ok()),
        Call::InsertUnder(dynamic, count) => {
            yes(
                world
                    .insert_by_id(number_under(*dynamic), Number(*count))
                    .is_ok(),
            )
        }
        Call::InsertSpeed(count) => yes(world.insert(Speed(*count)).is_ok()),
        Call::MakeSlot(dynamic) => yes(world.make_slot(number_under(*dynamic)).is_ok()),
        Call::FetchMut(count) => write_fetched(world, *count),
        Call::GetMut(count) => write(world.get_mut::<Number>(), *count),
        Call::TryFetchMut(count) => write(world.try_fetch_mut::<Number>(), *count),
        Call::TryFetchMutUnder(dynamic, count) => {
            write(
                world.try_fetch_mut_by_id::<Number>(number_under(*dynamic)),
                *count,
            )
        }
        Call::MakeIdle(dynamic) => make_idle(world, *dynamic),
        Call::OrInsert(count) => raise(world, *count),
        Call::OrInsertWith => from_two(world),
        Call::TakeAndPutBack(dynamic) => take_and_put_back(world, *dynamic),
        Call::Exchange(dynamic) => exchange(world, *dynamic),
        Call::AddUnder(dynamic) => add_under(world, *dynamic),
        Call::Remove => Some(world.remove::<Number>()?.0),
        Call::RemoveUnder(dynamic) => Some(world.remove_by_id::<Number>(number_under(*dynamic))?.0),
        Call::SetUp => yes(
            world
                .setup::<(Write<Number>, Read<Speed>, ReadExpect<Score>)>()
                .is_ok(),
        ),
        Call::Lack => Some(first_wanting::<Write<Number>>(world) as u64),
        Call::Exec => take_one_off(world),
        _ => read(world, call),
    }
}

/// The first call of the table that is answered otherwise.
fn first_wrong(alloc: Global) -> Option<usize> {
    let mut world = World::empty(alloc);
    for (at, (call, wanted)) in CALLS.iter().enumerate() {
        if answer(&mut world, call) != *wanted {
            return Some(at);
        }
    }
    None
}

#[test]
fn calls_on_a_world_answer_in_turn(rt: HostRuntime) {
    assert_eq!(rt; first_wrong(rt.alloc()), None);
}
