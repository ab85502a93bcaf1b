//! The builder of the dispatcher of a scene's systems.
ghost use Rattle.std.specs.Prelude.{◌≡◌, ◌++◌, ◌∷◌, [], None, length, OnOk, OnErr, IfOk, IfErr};
ghost use Rattle.shred.specs.Names.{texts};
ghost use Rattle.shred.specs.Building.{nothing_built, refusal, fenced};
ghost use Rattle.shred.specs.Dispatchers.{with_building, dispatcher_of};
ghost use Rattle.scene_world.specs.Lent.{AreKnown};
ghost use Rattle.scene_world.specs.Members.{kinds_by};
ghost use Rattle.scene_dispatch.specs.Building.{RefusesOrWants, with_placed};

use crate::dispatcher::SceneDispatcher;
use crate::local::PlacedLocal;
use scene_world::{Placed, Rules, SceneValue};
use shred::{AddError, DispatcherBuilder, NoBatch, SystemId};
use shred_stages::System;
use shred_world::ResourceId;
use std::alloc::{AllocFailed, Global};
use std::marker::Model;

/// Collects the systems of a scene, each at its position, and builds their dispatcher.
#[derive(Drop)]
pub struct SceneDispatcherBuilder<R: Rules> {
    builder: DispatcherBuilder<R::Value, Placed<R>, NoBatch, PlacedLocal<R>>,
    positions: Vec<u32>,
    local_positions: Vec<u32>,
}

impl<R: Rules> Model for SceneDispatcherBuilder<R> {
    ghost use Rattle.std.specs.Prelude.{map};
    ghost use Rattle.shred.specs.Dispatchers.{Drafting};
    ghost use Rattle.scene_world.specs.declared.placed.Placed.{Placed as PlacedSystem};
    ghost use Rattle.scene_world.specs.Places.{kinds_of};
    ghost use Rattle.scene_world.specs.Turns.{placed_as};
    ghost use Rattle.scene_dispatch.specs.Held.{drafting_in, AreHeld};

    ghost Value = { Drafting (PlacedSystem R R.Value R.Data R.Global R.System)
        (PlacedSystem R R.Value R.Data R.Global R.System) };

    ghost view = { λ b. drafting_in (λ local. local.placed) b.builder };

    ghost invariant = { λ b. AreHeld (kinds_of ⟦<R::Value as SceneValue<R::Data>>⟧.places R.part_of R.columns)
        (placed_as (λ placed. placed.position) (λ placed. placed.system) R.kind_of R.config_of R.declared R.sense
        R.does).plain b.builder.building.staging (map (λ local. local.placed) b.builder.locals) b.positions.items
        b.local_positions.items };
}

impl<R: Rules> SceneDispatcherBuilder<R>
where
    R::Value: Drop,
{
    /// No system, and so many workers; with 0 or 1 it is the caller's thread.
    pub fn new(alloc: Global, workers: usize) -> SceneDispatcherBuilder<R>
        ensures { result ≡ record { building = nothing_built; locals = []; workers = workers } }
    {
        let mut builder = DispatcherBuilder::new(alloc);
        builder.add_pool(workers);
        SceneDispatcherBuilder {
            builder,
            positions: Vec::new(alloc),
            local_positions: Vec::new(alloc),
        }
    }

    /// Adds a staged system at a position, which comes after those of the given names, and answers its number: they count
    /// from 0 in the order of adding.
    ///
    /// One under the empty name can't be waited for.
    ///
    /// Errors: `Memory`; the first of `NoSuchSystem`, `NameTaken`, `SystemsFull` that stands. The builder is as it was, and
    /// the system is handed back.
    pub fn add(
        &mut self,
        position: u32,
        system: R::System,
        name: &str,
        after: &[&str],
    ) -> Result<SystemId, (AddError, R::System)>
        requires known { AreKnown (kinds_by R.Rules R.Value.SceneValue) (R.declared system) }
        ensures taken { OnOk result (refusal self.old.building name.now (texts after.now) ≡ None) }
        ensures refused { IfErr result (λ refused.
            RefusesOrWants (refusal self.old.building name.now (texts after.now)) refused.0) }
        ensures number { IfOk result (λ id. id.0 ≡ length self.old.building.staging.systems) }
        ensures ok { OnOk result (self.new ≡ with_placed ⟦<ResourceId as PartialEq>⟧.eq
            ⟦<Placed<R> as System<R::Value>>⟧.read_list ⟦<Placed<R> as System<R::Value>>⟧.write_list self.old
            (record { position = position; system = system }) (R.said_time system) name.now (texts after.now)) }
        ensures err { OnErr result (self.new ≡ self.old) }
        ensures handed_back { IfErr result (λ refused. refused.1 ≡ system) }
    {
        let Ok(()) = self.positions.reserve(1) else {
            return Err((AddError::Memory, system));
        };
        match self.builder.add(Placed { position, system }, name, after) {
            Ok(id) => {
                self.positions.push_reserved(position);
                Ok(id)
            }
            Err((error, placed)) => {
                let Placed {
                    position: _,
                    system,
                } = placed;
                Err((error, system))
            }
        }
    }

    /// Adds a local system at a position, which runs after the staged ones and the earlier local ones.
    ///
    /// Errors: want of memory, which leaves the builder as it was and hands the system back.
    pub fn add_local(
        &mut self,
        position: u32,
        system: R::System,
    ) -> Result<(), AllocFailed<R::System>>
        requires known { AreKnown (kinds_by R.Rules R.Value.SceneValue) (R.declared system) }
        ensures ok { OnOk result (self.new ≡ record {
          building = self.old.building;
          locals = self.old.locals ++ record { position = position; system = system } ∷ [];
          workers = self.old.workers;
        }) }
        ensures err { OnErr result (self.new ≡ self.old) }
        ensures handed_back { IfErr result (λ refused. refused.value ≡ system) }
    {
        let Ok(()) = self.local_positions.reserve(1) else {
            return Err(AllocFailed { value: system });
        };
        let local = PlacedLocal {
            placed: Placed { position, system },
        };
        match self.builder.add_thread_local(local) {
            Ok(()) => {
                self.local_positions.push_reserved(position);
                Ok(())
            }
            Err(AllocFailed { value: local }) => {
                let PlacedLocal {
                    placed: Placed {
                        position: _,
                        system,
                    },
                } = local;
                Err(AllocFailed { value: system })
            }
        }
    }

    /// What is added from now on runs in later stages than what was added so far.
    pub fn add_barrier(&mut self)
        ensures { self.new ≡ with_building self.old (record {
          staging = fenced ⟦<ResourceId as PartialEq>⟧.eq self.old.building.staging;
          names = self.old.building.names;
        }) }
    {
        self.builder.add_barrier();
    }

    /// The dispatcher of what was added.
    pub fn build(self) -> SceneDispatcher<R>
        ensures { result ≡ dispatcher_of self }
    {
        let SceneDispatcherBuilder {
            builder,
            positions,
            local_positions,
        } = self;
        SceneDispatcher::of(builder.build(), positions, local_positions)
    }
}
