//! Two trees that don't conflict, side by side.
ghost use Rattle.std.specs.Prelude.{◌≡◌, IfOk, IfErr, false};
ghost use Rattle.shred_stages.specs.Views.{Leaves, error_of};
ghost use Rattle.shred.specs.Trees.{Halves, ParRuns, BothSetUp, CanBeTaken, conflict, both_lists};
ghost use Rattle.shred.specs.Rooms.{IsRoom};
ghost use Rattle.shred.specs.Causes.{IsCause};
ghost use Rattle.shred.specs.TreeLaws.{par-within, par-sees};

use crate::trees::halves::{run_apart, run_in_turn};
use crate::trees::room::{Room, Rooms, conflict, make_room};
use crate::trees::{Nil, ParError, RunWithPool};
use shred_stages::Stop;
use shred_world::{Holder, ResourceId, World};
use std::alloc::{AllocError, Global};
use std::marker::Model;
use std::thread::Threads;

/// The head, and the tail, each to its end: neither uses what the other writes.
#[derive(Drop)]
pub struct Par<V, H: RunWithPool<V>, T: RunWithPool<V>> {
    head: H,
    tail: T,
    rooms: Option<Rooms<V>>,
}

impl<V, H: RunWithPool<V>, T: RunWithPool<V>> Model for Par<V, H, T> {
    ghost use Rattle.std.specs.Prelude.{◌≡◌};
    ghost use Rattle.std.specs.Option.{MatchOption};
    ghost use Rattle.shred.specs.Trees.{Halves, AreApart};
    ghost use Rattle.shred.specs.Rooms.{AreRooms};

    ghost Value = { Halves H T };

    ghost view = { λ tree. record { head = tree.head; tail = tree.tail } };

    ghost invariant = { λ tree. AreApart H.read_list H.write_list T.read_list T.write_list tree.head tree.tail
        × AreRooms (H.read_list tree.head) (H.write_list tree.head) (T.read_list tree.tail)
        (T.write_list tree.tail) tree.rooms };
}

impl<V: Drop, T: RunWithPool<V>> Par<V, Nil, T> {
    /// The tree alone.
    pub fn new(tree: T) -> Par<V, Nil, T>
        ensures { result.tail ≡ tree }
    {
        Par {
            head: Nil,
            tail: tree,
            rooms: None,
        }
    }
}

impl<V: Drop, H: RunWithPool<V>, T: RunWithPool<V>> Par<V, H, T> {
    /// The tree, with another one beside it.
    ///
    /// Errors: `Conflict` where what one of the two writes, the other reads or writes; `Memory` for the lists of their ids. Both
    /// hand the two trees back.
    pub fn with<C: RunWithPool<V>>(
        self,
        alloc: Global,
        other: C,
    ) -> Result<Par<V, Par<V, H, T>, C>, (ParError, Self, C)>
        ensures apart { IfOk result (λ _. conflict (both_lists H.read_list T.read_list self)
            (both_lists H.write_list T.write_list self) (C.read_list other) (C.write_list other) ≡ false) }
        ensures ok { IfOk result (λ tree. tree ≡ record { head = self; tail = other }) }
        ensures cause { IfErr result (λ refused. IsCause refused.0
            (conflict (both_lists H.read_list T.read_list self) (both_lists H.write_list T.write_list self)
            (C.read_list other) (C.write_list other))) }
        ensures tree_back { IfErr result (λ refused. refused.1 ≡ self) }
        ensures other_back { IfErr result (λ refused. refused.2 ≡ other) }
    {
        let Ok(head_room) = make_room(alloc, &self) else {
            return Err((ParError::Memory, self, other));
        };
        let Ok(tail_room) = make_room(alloc, &other) else {
            return Err((ParError::Memory, self, other));
        };
        if conflict(&head_room, &tail_room) {
            return Err((ParError::Conflict, self, other));
        }
        Ok(pair(self, other, head_room, tail_room))
    }

    /// Runs both halves: each to its end, with two workers or more each in a thread of its own.
    ///
    /// A `Par` inside a half runs in that half's thread. Where no thread can be started, the tail runs after the head.
    ///
    /// Errors: the head's refusal, else the tail's.
    pub fn run_on<R: AllocGlobal + Threads + Sync, W: Holder<V> + Sync>(
        &mut self,
        rt: &R,
        workers: usize,
        world: &mut W,
    ) -> Result<(), Stop>
    where
        V: Send + Sync,
        T: Send,
        requires head_whole { CanBeTaken (H.write_list self.old.head) (W.slots world.old) }
        requires tail_whole { CanBeTaken (T.write_list self.old.tail) (W.slots world.old) }
        ensures meets { ParRuns H.meets T.meets self.old (W.slots world.old) (error_of result) self.new
            (W.slots world.new) }
        ensures leaves { Leaves (W.slots world.old) (W.slots world.new) }
    {
        match &mut self.rooms {
            Some(rooms) if workers > 1 => {
                run_apart(rt, &mut self.head, &mut self.tail, rooms, world)
            }
            _ => run_in_turn(rt, &mut self.head, &mut self.tail, world),
        }
    }
}

/// Two trees that don't conflict, with their rooms.
fn pair<V: Drop, H: RunWithPool<V>, T: RunWithPool<V>>(
    head: H,
    tail: T,
    head_room: Room<V>,
    tail_room: Room<V>,
) -> Par<V, H, T>
    requires apart { conflict (H.read_list head) (H.write_list head) (T.read_list tail) (T.write_list tail) ≡ false }
    requires head_room { IsRoom (H.read_list head) (H.write_list head) head_room }
    requires tail_room { IsRoom (T.read_list tail) (T.write_list tail) tail_room }
    ensures { result ≡ record { head = head; tail = tail } }
{
    let rooms = Rooms {
        head: head_room,
        tail: tail_room,
    };
    Par {
        head,
        tail,
        rooms: Some(rooms),
    }
}

impl<V, H: RunWithPool<V>, T: RunWithPool<V>> RunWithPool<V> for Par<V, H, T> {
    ghost meets = { ParRuns H.meets T.meets };

    ghost read_list = { both_lists H.read_list T.read_list };

    ghost write_list = { both_lists H.write_list T.write_list };

    ghost sets_up = { BothSetUp H.sets_up T.sets_up };

    ghost stays_within = { par-within H.meets T.meets H.write_list T.write_list H.stays_within T.stays_within };

    ghost sees_what_it_declares = { par-sees H.meets T.meets H.write_list T.write_list H.stays_within
        T.stays_within H.read_list T.read_list H.sees_what_it_declares T.sees_what_it_declares };

    fn setup(&mut self, world: &mut World<V>) -> Result<(), AllocError> {
        match self.head.setup(world) {
            Ok(()) => self.tail.setup(world),
            Err(error) => Err(error),
        }
    }

    fn run<R: AllocGlobal, W: Holder<V>>(&mut self, rt: &R, world: &mut W) -> Result<(), Stop>
    where
        V: Drop,
    {
        run_in_turn(rt, &mut self.head, &mut self.tail, world)
    }

    fn reads(&self, ids: &mut Vec<ResourceId>) -> Result<(), AllocError> {
        match self.head.reads(ids) {
            Ok(()) => self.tail.reads(ids),
            Err(error) => Err(error),
        }
    }

    fn writes(&self, ids: &mut Vec<ResourceId>) -> Result<(), AllocError> {
        match self.head.writes(ids) {
            Ok(()) => self.tail.writes(ids),
            Err(error) => Err(error),
        }
    }
}
