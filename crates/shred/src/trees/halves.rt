//! Runs of the two halves of a `Par`.
ghost use Rattle.std.specs.Prelude.{◌≡◌};
ghost use Rattle.std.specs.Option.{option_or};
ghost use Rattle.shred_world.specs.Bundles.{holding_of};
ghost use Rattle.shred_stages.specs.Views.{FitsSeat, view_slots, error_of};
ghost use Rattle.shred_stages.specs.Moves.{IsSeat, HasSlots};
ghost use Rattle.shred_stages.specs.Runs.{RunsInView};
ghost use Rattle.shred.specs.Trees.{CanBeTaken, ParRuns, AreApart, halves};
ghost use Rattle.shred.specs.Rooms.{IsRoom, Lends, Returns, room_slots};

use crate::trees::RunWithPool;
use crate::trees::room::{Room, Rooms};
use shred_stages::{Stop, View, move_values};
use shred_world::{Holder, ResourceId, World};
use std::mem;
use std::thread::{Threads, join_mut};

/// The first of two refusals.
pub(crate) fn first_of(one: Result<(), Stop>, other: Result<(), Stop>) -> Result<(), Stop>
    ensures { error_of result ≡ option_or (error_of one) (error_of other) }
{
    match one {
        Ok(()) => other,
        Err(stop) => Err(stop),
    }
}

/// Runs both halves on the caller's thread, the head first, each to its end.
pub(crate) fn run_in_turn<
    V: Drop,
    H: RunWithPool<V>,
    T: RunWithPool<V>,
    R: AllocGlobal,
    W: Holder<V>,
>(rt: &R, head: &mut H, tail: &mut T, world: &mut W) -> Result<(), Stop>
    ensures meets { ParRuns H.meets T.meets (halves head.old tail.old) (W.slots world.old)
        (error_of result) (halves head.new tail.new) (W.slots world.new) }
    ensures head_reads { H.read_list head.new ≡ H.read_list head.old }
    ensures head_writes { H.write_list head.new ≡ H.write_list head.old }
    ensures tail_reads { T.read_list tail.new ≡ T.read_list tail.old }
    ensures tail_writes { T.write_list tail.new ≡ T.write_list tail.old }
{
    let first = head.run(rt, world);
    let later = tail.run(rt, world);
    first_of(first, later)
}

/// Moves the values that a half writes out of a world into its room.
fn lend<V, W: Holder<V>>(world: &mut W, room: &mut Room<V>)
    requires seat { IsSeat room.old.writes.items room.old.seat }
    ensures lends { Lends room.old.writes.items (W.slots world.old) (W.slots world.new) room.old.seat room.new.seat }
    ensures fits { FitsSeat room.new.writes.items room.new.seat }
    ensures reads { room.new.reads ≡ room.old.reads }
    ensures writes { room.new.writes ≡ room.old.writes }
{
    move_values(world, &mut room.seat, &room.writes);
}

/// Moves them back.
fn give_back<V, W: Holder<V>>(room: &mut Room<V>, world: &mut W)
    requires slots { HasSlots room.old.writes.items (holding_of room.old.seat) (W.slots world.old) }
    ensures returns { Returns room.old.writes.items room.old.seat room.new.seat (W.slots world.old)
        (W.slots world.new) }
    ensures reads { room.new.reads ≡ room.old.reads }
    ensures writes { room.new.writes ≡ room.old.writes }
{
    move_values(&mut room.seat, world, &room.writes);
}

/// Runs a half over the values that it reads in a world and those in its seat.
fn run_over<V: Drop, T: RunWithPool<V>, R: AllocGlobal, W: Holder<V>>(
    rt: &R,
    tree: &mut T,
    world: &W,
    reads: &[ResourceId],
    writes: &[ResourceId],
    seat: World<V>,
) -> (Result<(), Stop>, World<V>)
    requires seated { FitsSeat writes.now seat }
    ensures runs { RunsInView T.meets tree.old (view_slots reads.now writes.now (W.slots world.now) seat)
        (error_of result.0) tree.new result.1 }
    ensures reads { T.read_list tree.new ≡ T.read_list tree.old }
    ensures writes { T.write_list tree.new ≡ T.write_list tree.old }
{
    let mut view = View::over(world, reads, writes, seat);
    let outcome = tree.run(rt, &mut view);
    (outcome, view.into_seat())
}

/// Runs a half in its room.
fn run_half<V: Drop, T: RunWithPool<V>, R: AllocGlobal, W: Holder<V>>(
    rt: &R,
    tree: &mut T,
    world: &W,
    room: &mut Room<V>,
) -> Result<(), Stop>
    requires fits { FitsSeat room.old.writes.items room.old.seat }
    ensures runs { RunsInView T.meets tree.old (room_slots (W.slots world.now) room.old)
        (error_of result) tree.new room.new.seat }
    ensures room_reads { room.new.reads ≡ room.old.reads }
    ensures room_writes { room.new.writes ≡ room.old.writes }
    ensures reads { T.read_list tree.new ≡ T.read_list tree.old }
    ensures writes { T.write_list tree.new ≡ T.write_list tree.old }
{
    let seat = mem::replace(&mut room.seat, World::empty(rt.alloc()));
    let (outcome, back) = run_over(rt, tree, world, &room.reads, &room.writes, seat);
    room.seat = back;
    outcome
}

/// Runs both halves, each in its room: the tail in a thread of its own, or after the head where none can be started.
fn run_both<
    V: Drop + Send + Sync,
    H: RunWithPool<V>,
    T: RunWithPool<V> + Send,
    R: AllocGlobal + Threads + Sync,
    W: Holder<V> + Sync,
>(
    rt: &R,
    head: &mut H,
    tail: &mut T,
    world: &W,
    head_room: &mut Room<V>,
    tail_room: &mut Room<V>,
) -> (Result<(), Stop>, Result<(), Stop>)
    requires head_fits { FitsSeat head_room.old.writes.items head_room.old.seat }
    requires tail_fits { FitsSeat tail_room.old.writes.items tail_room.old.seat }
    ensures head_runs { RunsInView H.meets head.old (room_slots (W.slots world.now) head_room.old)
        (error_of result.0) head.new head_room.new.seat }
    ensures head_room_reads { head_room.new.reads ≡ head_room.old.reads }
    ensures head_room_writes { head_room.new.writes ≡ head_room.old.writes }
    ensures head_reads { H.read_list head.new ≡ H.read_list head.old }
    ensures head_writes { H.write_list head.new ≡ H.write_list head.old }
    ensures tail_runs { RunsInView T.meets tail.old (room_slots (W.slots world.now) tail_room.old)
        (error_of result.1) tail.new tail_room.new.seat }
    ensures tail_room_reads { tail_room.new.reads ≡ tail_room.old.reads }
    ensures tail_room_writes { tail_room.new.writes ≡ tail_room.old.writes }
    ensures tail_reads { T.read_list tail.new ≡ T.read_list tail.old }
    ensures tail_writes { T.write_list tail.new ≡ T.write_list tail.old }
{
    let (later, first) = join_mut(
        rt,
        &mut ||
            requires fits { FitsSeat tail_room.now.writes.items tail_room.now.seat }
        { run_half(rt, tail, world, tail_room) },
        &mut ||
            requires fits { FitsSeat head_room.now.writes.items head_room.now.seat }
        { run_half(rt, head, world, head_room) },
    );
    (first, later)
}

/// Runs both halves over what each declares, and puts what they wrote back into the world.
pub(crate) fn run_apart<
    V: Drop + Send + Sync,
    H: RunWithPool<V>,
    T: RunWithPool<V> + Send,
    R: AllocGlobal + Threads + Sync,
    W: Holder<V> + Sync,
>(rt: &R, head: &mut H, tail: &mut T, rooms: &mut Rooms<V>, world: &mut W) -> Result<(), Stop>
    requires apart { AreApart H.read_list H.write_list T.read_list T.write_list head.old tail.old }
    requires head_room { IsRoom (H.read_list head.old) (H.write_list head.old) rooms.old.head }
    requires tail_room { IsRoom (T.read_list tail.old) (T.write_list tail.old) rooms.old.tail }
    requires head_whole { CanBeTaken (H.write_list head.old) (W.slots world.old) }
    requires tail_whole { CanBeTaken (T.write_list tail.old) (W.slots world.old) }
    ensures meets { ParRuns H.meets T.meets (halves head.old tail.old) (W.slots world.old)
        (error_of result) (halves head.new tail.new) (W.slots world.new) }
    ensures head_room { IsRoom (H.read_list head.old) (H.write_list head.old) rooms.new.head }
    ensures tail_room { IsRoom (T.read_list tail.old) (T.write_list tail.old) rooms.new.tail }
    ensures head_reads { H.read_list head.new ≡ H.read_list head.old }
    ensures head_writes { H.write_list head.new ≡ H.write_list head.old }
    ensures tail_reads { T.read_list tail.new ≡ T.read_list tail.old }
    ensures tail_writes { T.write_list tail.new ≡ T.write_list tail.old }
{
    lend(world, &mut rooms.head);
    lend(world, &mut rooms.tail);
    let (first, later) = run_both(rt, head, tail, world, &mut rooms.head, &mut rooms.tail);
    give_back(&mut rooms.head, world);
    give_back(&mut rooms.tail, world);
    first_of(first, later)
}
