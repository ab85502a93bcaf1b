//! Trees with a number of workers.
ghost use Rattle.std.specs.Prelude.{◌≡◌, is_ok};
ghost use Rattle.shred_world.specs.Bundles.{holding_of};
ghost use Rattle.shred_stages.specs.Views.{Leaves, error_of};
ghost use Rattle.shred.specs.Trees.{Pooled, ParRuns, SeqRuns};

use crate::trees::{Par, RunWithPool, Seq};
use shred_stages::Stop;
use shred_world::{Holder, World};
use std::alloc::AllocError;
use std::marker::Model;
use std::thread::Threads;

/// A tree, and how many workers run it; with 0 or 1 it is the caller's thread.
#[derive(Drop)]
pub struct ParSeq<T> {
    tree: T,
    workers: usize,
}

impl<T> Model for ParSeq<T> {
    ghost use Rattle.shred.specs.Trees.{Pooled};

    ghost Value = { Pooled T };

    ghost view = { λ pooled. record { tree = pooled.tree; workers = pooled.workers } };
}

impl<T> ParSeq<T> {
    /// The tree with this number of workers.
    pub fn new(tree: T, workers: usize) -> ParSeq<T>
        ensures { result ≡ record { tree = tree; workers = workers } }
    {
        ParSeq { tree, workers }
    }

    /// Sets the systems of the tree up in its order, up to the first that finds no memory. Errors: that want of memory.
    pub fn setup<V>(&mut self, world: &mut World<V>) -> Result<(), AllocError>
    where
        T: RunWithPool<V>,
        ensures meets { T.sets_up self.old.tree (is_ok result) world.old self.new.tree world.new }
        ensures workers { self.new.workers ≡ self.old.workers }
    {
        self.tree.setup(world)
    }

    /// Runs the tree on the caller's thread, whatever the number of workers.
    ///
    /// Errors: a `Stop`, by the tree's rules.
    pub fn dispatch_here<V: Drop, H: AllocGlobal, W: Holder<V>>(
        &mut self,
        rt: &H,
        world: &mut W,
    ) -> Result<(), Stop>
    where
        T: RunWithPool<V>,
        ensures meets { T.meets self.old.tree (W.slots world.old) (error_of result) self.new.tree (W.slots world.new) }
        ensures leaves { Leaves (W.slots world.old) (W.slots world.new) }
        ensures workers { self.new.workers ≡ self.old.workers }
    {
        self.tree.run(rt, world)
    }
}

impl<V: Drop + Send + Sync, H: RunWithPool<V>, T: RunWithPool<V> + Send> ParSeq<Par<V, H, T>> {
    /// Runs both halves of the tree, each to its end, with two workers or more each in a thread of its own.
    ///
    /// Errors: the head's refusal, else the tail's.
    pub fn dispatch<R: AllocGlobal + Threads + Sync>(
        &mut self,
        rt: &R,
        world: &mut World<V>,
    ) -> Result<(), Stop>
        ensures meets { ParRuns H.meets T.meets self.old.tree (holding_of world.old) (error_of result)
            self.new.tree (holding_of world.new) }
        ensures leaves { Leaves (holding_of world.old) (holding_of world.new) }
        ensures workers { self.new.workers ≡ self.old.workers }
    {
        self.tree.run_on(rt, self.workers, world)
    }
}

impl<H, T> ParSeq<Seq<H, T>> {
    /// Runs the head, and then the tail, unless the head refuses; a `Seq` runs on the caller's thread.
    ///
    /// Errors: the refusal.
    pub fn dispatch<V: Drop, R: AllocGlobal>(
        &mut self,
        rt: &R,
        world: &mut World<V>,
    ) -> Result<(), Stop>
    where
        H: RunWithPool<V>,
        T: RunWithPool<V>,
        ensures meets { SeqRuns H.meets T.meets self.old.tree (holding_of world.old) (error_of result)
            self.new.tree (holding_of world.new) }
        ensures leaves { Leaves (holding_of world.old) (holding_of world.new) }
        ensures workers { self.new.workers ≡ self.old.workers }
    {
        self.dispatch_here(rt, world)
    }
}
