//! The dispatcher of a scene's systems.
ghost use Rattle.std.specs.Prelude.{◌≡◌, ◌<◌, map, min, IfErr};
ghost use Rattle.shred_world.specs.Bundles.{holding_of};
ghost use Rattle.shred_stages.specs.Views.{Leaves};
ghost use Rattle.shred_stages.specs.Worth.{most_worth};
ghost use Rattle.scene_dispatch.specs.Orders.{turn_order};
ghost use Rattle.scene_dispatch.specs.Held.{dispatching_in, AreHeld};
ghost use Rattle.scene_dispatch.specs.Frames.{AreReady, Come, WantsThread};
ghost use Rattle.scene_world.specs.Members.{kinds_by, placed_by};

use crate::cause::cause_of;
use crate::local::PlacedLocal;
use scene_model::FrameRefusal;
use scene_world::{Placed, Rules, SceneValue};
use shred::{Batch, Dispatcher, NoBatch, Work};
use shred_crew::Crew;
use shred_stages::Pack;
use shred_world::World;
use std::marker::Model;
use std::sync::Wait;
use std::thread::Threads;

/// The staged systems of a scene, as its dispatcher has them.
pub type Works<R, V> = Work<Placed<R>, Batch<V, Placed<R>, NoBatch>>;

/// The systems of a scene: staged ones, which run in the stages of their plan on as many threads as there are workers, and
/// local ones, which run after them on the caller's thread.
#[derive(Drop)]
pub struct SceneDispatcher<R: Rules> {
    dispatcher: Dispatcher<R::Value, Works<R, R::Value>, PlacedLocal<R>>,
    positions: Vec<u32>,
    local_positions: Vec<u32>,
}

impl<R: Rules> Model for SceneDispatcher<R> {
    ghost use Rattle.shred.specs.Dispatching.{Dispatching};
    ghost use Rattle.scene_world.specs.declared.placed.Placed.{Placed as PlacedSystem};
    ghost use Rattle.scene_world.specs.Places.{kinds_of};
    ghost use Rattle.scene_world.specs.Turns.{placed_as};
    ghost use Rattle.scene_dispatch.specs.Held.{dispatching_in, AreHeld};
    ghost use Rattle.std.specs.Prelude.{map};

    ghost Value = { Dispatching (PlacedSystem R R.Value R.Data R.Global R.System)
        (PlacedSystem R R.Value R.Data R.Global R.System) };

    ghost view = { λ d. dispatching_in (λ local. local.placed) d.dispatcher };

    ghost invariant = { λ d. AreHeld (kinds_of ⟦<R::Value as SceneValue<R::Data>>⟧.places R.part_of R.columns)
        (placed_as (λ placed. placed.position) (λ placed. placed.system) R.kind_of R.config_of R.declared R.sense
        R.does).plain d.dispatcher.staging (map (λ local. local.placed) d.dispatcher.locals) d.positions.items
        d.local_positions.items };
}

impl<R: Rules> SceneDispatcher<R>
where
    R::Value: Drop,
{
    /// The dispatcher of what was built.
    pub(crate) fn of(
        dispatcher: Dispatcher<R::Value, Works<R, R::Value>, PlacedLocal<R>>,
        positions: Vec<u32>,
        local_positions: Vec<u32>,
    ) -> SceneDispatcher<R>
        requires held { AreHeld
            (kinds_by R.Rules R.Value.SceneValue) (placed_by R.Rules).plain dispatcher.staging
            (map (λ local. local.placed) dispatcher.locals) positions.items local_positions.items }
        ensures { result ≡ dispatching_in (λ local. local.placed) dispatcher }
    {
        SceneDispatcher {
            dispatcher,
            positions,
            local_positions,
        }
    }

    /// How many workers a crew has that stands by for this dispatcher: as many as it has itself, or as a stage is
    /// worth, whichever is less. Where that is less than two, no thread is worth starting.
    pub fn crew_size(&self) -> usize
        ensures { result ≡ min self.now.workers (most_worth self.now.staging.planning.stages) }
    {
        self.dispatcher.crew_size()
    }

    /// Runs the systems as `run_systems` does, by the workers of a crew that stands by: it starts no thread.
    ///
    /// Errors: those of `run_systems`, without `Threads`.
    pub fn run_systems_with<H: AllocGlobal + Wait>(
        &mut self,
        rt: &H,
        crew: &mut Crew<World<R::Value>, Pack<R::Value, Works<R, R::Value>>>,
        rules: &R,
        world: &mut World<R::Value>,
    ) -> Result<(), FrameRefusal>
        ensures comes { AreReady (kinds_by R.Rules R.Value.SceneValue) (placed_by R.Rules) (R.book rules.now)
            self.old (holding_of world.old) → Come (kinds_by R.Rules R.Value.SceneValue) (placed_by R.Rules)
            (R.book rules.now) self.old (holding_of world.old) result self.new (holding_of world.new) }
        ensures order { turn_order (placed_by R.Rules).plain self.new ≡ turn_order
            (placed_by R.Rules).plain self.old }
        ensures workers { self.new.workers ≡ self.old.workers }
        ensures threads { IfErr result (λ cause. ¬ (WantsThread cause)) }

        // The same ids have values as before.
        ensures leaves { Leaves (holding_of world.old) (holding_of world.new) }
    {
        match self.dispatcher.dispatch_with(rt, crew, world) {
            Err(why) => Err(cause_of(&self.positions, &self.local_positions, why)),
            Ok(_) => Ok(()),
        }
    }
}

impl<R: Rules + Send + Sync> SceneDispatcher<R>
where
    R::Value: Drop + Send + Sync,
    R::Data: Send + Sync,
    R::Global: Send + Sync,
    R::System: Send + Sync,
{
    /// Runs the staged systems in the stages of their plan, and then the local ones.
    ///
    /// Where a scene stands in the world and the systems are the rules' own, it is the chain of their turns over the scene,
    /// in the order of the plan and then that of adding, whatever the number of workers. The queue of each position then
    /// has the commands of its system, and they may run again.
    ///
    /// Errors: `System`, with the position and the text of the first system in that order that refuses; `TooManyCommands`,
    /// where the first that stops has a full queue; `Memory`; `Threads`, only with two workers or more, where a thread
    /// couldn't be started. What systems wrote before stays in the world.
    pub fn run_systems<H: AllocGlobal + Threads + Wait + Sync>(
        &mut self,
        rt: &H,
        rules: &R,
        world: &mut World<R::Value>,
    ) -> Result<(), FrameRefusal>
        ensures comes { AreReady (kinds_by R.Rules R.Value.SceneValue) (placed_by R.Rules) (R.book rules.now)
            self.old (holding_of world.old) → Come (kinds_by R.Rules R.Value.SceneValue) (placed_by R.Rules)
            (R.book rules.now) self.old (holding_of world.old) result self.new (holding_of world.new) }
        ensures order { turn_order (placed_by R.Rules).plain self.new ≡ turn_order
            (placed_by R.Rules).plain self.old }

        ensures workers { self.new.workers ≡ self.old.workers }
        ensures threads { self.old.workers < 2 → IfErr result (λ cause. ¬ (WantsThread cause)) }

        // The same ids have values as before.
        ensures leaves { Leaves (holding_of world.old) (holding_of world.new) }
    {
        match self.dispatcher.dispatch(rt, world) {
            Ok(()) => Ok(()),
            Err(error) => Err(cause_of(&self.positions, &self.local_positions, error)),
        }
    }
}
