//! Two trees, one after the other.
ghost use Rattle.std.specs.Prelude.{◌≡◌};
ghost use Rattle.shred.specs.Trees.{Halves, SeqRuns, BothSetUp, both_lists};
ghost use Rattle.shred.specs.TreeLaws.{seq-within, seq-sees};

use crate::trees::{Nil, RunWithPool};
use shred_stages::Stop;
use shred_world::{Holder, ResourceId, World};
use std::alloc::AllocError;
use std::marker::Model;

/// The head, and then the tail, unless the head refuses.
#[derive(Drop)]
pub struct Seq<H, T> {
    head: H,
    tail: T,
}

impl<H, T> Model for Seq<H, T> {
    ghost use Rattle.shred.specs.Trees.{Halves};

    ghost Value = { Halves H T };

    ghost view = { λ tree. record { head = tree.head; tail = tree.tail } };
}

impl<T> Seq<Nil, T> {
    /// The tree alone.
    pub fn new(tree: T) -> Seq<Nil, T>
        ensures { result.tail ≡ tree }
    {
        Seq {
            head: Nil,
            tail: tree,
        }
    }
}

impl<H, T> Seq<H, T> {
    /// The tree, and then another one.
    pub fn with<C>(self, other: C) -> Seq<Seq<H, T>, C>
        ensures { result ≡ record { head = self; tail = other } }
    {
        Seq {
            head: self,
            tail: other,
        }
    }
}

impl<V, H: RunWithPool<V>, T: RunWithPool<V>> RunWithPool<V> for Seq<H, T> {
    ghost meets = { SeqRuns H.meets T.meets };

    ghost read_list = { both_lists H.read_list T.read_list };

    ghost write_list = { both_lists H.write_list T.write_list };

    ghost sets_up = { BothSetUp H.sets_up T.sets_up };

    ghost stays_within = { seq-within H.meets T.meets H.write_list T.write_list H.stays_within T.stays_within };

    ghost sees_what_it_declares = { seq-sees H.meets T.meets H.write_list T.write_list H.stays_within
        T.stays_within H.read_list T.read_list H.sees_what_it_declares T.sees_what_it_declares };

    fn setup(&mut self, world: &mut World<V>) -> Result<(), AllocError> {
        match self.head.setup(world) {
            Ok(()) => self.tail.setup(world),
            Err(error) => Err(error),
        }
    }

    fn run<R: AllocGlobal, W: Holder<V>>(&mut self, rt: &R, world: &mut W) -> Result<(), Stop>
    where
        V: Drop,
    {
        match self.head.run(rt, world) {
            Ok(()) => self.tail.run(rt, world),
            Err(stop) => Err(stop),
        }
    }

    fn reads(&self, ids: &mut Vec<ResourceId>) -> Result<(), AllocError> {
        match self.head.reads(ids) {
            Ok(()) => self.tail.reads(ids),
            Err(error) => Err(error),
        }
    }

    fn writes(&self, ids: &mut Vec<ResourceId>) -> Result<(), AllocError> {
        match self.head.writes(ids) {
            Ok(()) => self.tail.writes(ids),
            Err(error) => Err(error),
        }
    }
}
