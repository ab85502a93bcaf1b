//! Systems that are made of a bundle and a change of it.
ghost use Rattle.std.specs.Prelude.{◌≡◌, None};
ghost use Rattle.shred_stages.specs.Views.{Leaves, error_of};
ghost use Rattle.shred.specs.Bundling.{BundleMeets, IsFetched};

use crate::{BatchAccessor, RunNow, RunningTime, Stop, System};
use shred_world::{Holder, SystemData, World};
use std::alloc::{AllocError, Global};
use std::marker::{Model, PhantomData};

/// What a system does to the bundle that was fetched for it. With `Bundled` it is the whole system: the bundle tells what
/// is read, written and set up.
pub trait BundleChange<V, D: SystemData<V>> {
    ghost use Rattle.std.specs.Prelude.{Option};
    ghost use Rattle.shred_world.specs.Bundles.{Holding};
    ghost use Rattle.shred_stages.specs.declared.stop.Stop.{Stop as Refusal};

    /// What a change may do: the change and the bundle before, what is held beside them, why it refuses, and both after.
    ghost becomes: { Self → D → Holding V → Option Refusal → Self → D → Type 0 };

    /// Changes the bundle, which may be given back then in its own place. What the bundle reads it lends from `view`.
    ///
    /// Errors: a `Stop`, by the change's own rules; the bundle is given back all the same.
    fn change<W: Holder<V>>(&mut self, bundle: &mut D, view: &W) -> Result<(), Stop>
        requires fetched { IsFetched D.left D.fits bundle.old (W.slots view.now) }
        ensures becomes { becomes self.old bundle.old (W.slots view.now) (error_of result) self.new bundle.new }
        ensures alike { D.alike bundle.old bundle.new };
}

/// A system, or a local system, that fetches its bundle, changes it and gives it back, whether the change refuses or not.
///
/// It refuses as full where a resource is wanting, is said to run for an average time, and does nothing as it is let go.
#[derive(Drop)]
pub struct Bundled<D, C> {
    change: C,
    bundle: PhantomData<D>,
}

impl<D, C> Model for Bundled<D, C> {
    ghost Value = { C };

    ghost view = { λ system. system.change };
}

impl<D, C> Bundled<D, C> {
    /// A system of this change.
    pub fn new(change: C) -> Bundled<D, C>
        ensures { result ≡ change }
    {
        Bundled {
            change,
            bundle: PhantomData,
        }
    }

    /// Fetches the bundle, changes it and gives it back.
    fn turn<V, W: Holder<V>>(&mut self, view: &mut W) -> Result<(), Stop>
    where
        D: SystemData<V>,
        C: BundleChange<V, D>,
        ensures meets { BundleMeets D.lack D.left D.fits D.given C.becomes
            self.old (W.slots view.old) (error_of result) self.new (W.slots view.new) }
        ensures leaves { Leaves (W.slots view.old) (W.slots view.new) }
    {
        match D::fetch(view) {
            Ok(mut bundle) => {
                let outcome = self.change.change(&mut bundle, view);
                bundle.give_back(view);
                outcome
            }
            Err(_) => Err(Stop::Full),
        }
    }
}

impl<V, D: SystemData<V>, C: BundleChange<V, D> + Drop> System<V> for Bundled<D, C> {
    ghost meets = { BundleMeets D.lack D.left D.fits D.given C.becomes };

    ghost read_list = { λ _. D.read_ids };

    ghost write_list = { λ _. D.write_ids };

    ghost said_time = { λ _. 3 };

    ghost sets_up = { λ before accepted old after new. (after ≡ before) × D.sets_up accepted old new };

    ghost disposes = { λ _ refused old new. (refused ≡ None) × (new ≡ old) };

    fn run<H: AllocGlobal, W: Holder<V>>(&mut self, _rt: &H, view: &mut W) -> Result<(), Stop> {
        self.turn(view)
    }

    fn running_time(&self) -> RunningTime {
        RunningTime::Average
    }

    fn accessor(&self, alloc: Global) -> Result<BatchAccessor, AllocError> {
        let reads = D::reads(alloc)?;
        let writes = D::writes(alloc)?;
        Ok(BatchAccessor::new(reads, writes))
    }

    fn setup(&mut self, world: &mut World<V>) -> Result<(), AllocError> {
        D::setup(world)
    }

    fn dispose(self, _world: &mut World<V>) -> Result<(), Stop> {
        Ok(())
    }
}

impl<V, D: SystemData<V>, C: BundleChange<V, D> + Drop> RunNow<V> for Bundled<D, C> {
    ghost meets = { BundleMeets D.lack D.left D.fits D.given C.becomes };

    ghost sets_up = { λ before accepted old after new. (after ≡ before) × D.sets_up accepted old new };

    ghost disposes = { λ _ refused old new. (refused ≡ None) × (new ≡ old) };

    fn run_now<H: AllocGlobal, W: Holder<V>>(
        &mut self,
        _rt: &H,
        world: &mut W,
    ) -> Result<(), Stop> {
        self.turn(world)
    }

    fn setup(&mut self, world: &mut World<V>) -> Result<(), AllocError> {
        D::setup(world)
    }

    fn dispose(self, _world: &mut World<V>) -> Result<(), Stop> {
        Ok(())
    }
}
