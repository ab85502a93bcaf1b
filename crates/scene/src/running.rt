//! A frame in a world: its systems, and then its commands.
ghost use Rattle.std.specs.Prelude.{◌≡◌, ◌<◌, ◌++◌, ℕ, List, All, Err, IfErr, OnOk, OnErr};
ghost use Rattle.shred_world.specs.Bundles.{holding_of};
ghost use Rattle.scene_model.specs.Lawful.{IsLawful};
ghost use Rattle.scene_model.specs.Scenes.{PlainScene};
ghost use Rattle.scene_model.specs.Commands.{skips_of};
ghost use Rattle.scene_model.specs.Frames.{Accepts};
ghost use Rattle.scene_model.specs.Queues.{plain_commands};
ghost use Rattle.scene_world.specs.Lent.{StandApart};
ghost use Rattle.scene_world.specs.Standing.{roll_of};
ghost use Rattle.scene_world.specs.Putting.{AreNamedIn};
ghost use Rattle.scene_world.specs.Members.{kinds_by, placed_by};
ghost use Rattle.scene_dispatch.specs.Orders.{turn_order};
ghost use Rattle.scene_dispatch.specs.Frames.{AreReady, WantsThread};
ghost use Rattle.shred_world.specs.Worlds.{Slots};
ghost use Rattle.scene_commands.specs.Acts.{seen_of, GoesOn};
ghost use Rattle.scene_commands.specs.Members.{scene_in};
ghost use Rattle.scene.specs.Waiting.{AreTheirPlaces, NoneWaits};
ghost use Rattle.scene.specs.Refusals.{RefusedIn};
ghost use Rattle.scene.specs.Members.{frame_by, HaveComeBy};

use crate::commands::{FrameInput, run_commands};
use scene_commands::laws::{a_scene_may_be_acted_on, a_scene_stands_after_commands};
use scene_dispatch::SceneDispatcher;
use scene_model::{FrameRefusal, Skip};
use scene_world::Rules;
use shred_world::World;
use std::alloc::Global;
use std::sync::Wait;
use std::thread::Threads;

/// What rules are held to: the parts and globals of their columns are those of their book, and no two of the values
/// of a scene stand under one id.
fn rules_stand<R: Rules>(rules: &R)
    ensures named { AreNamedIn R.columns (R.book rules.now) }
    ensures apart { StandApart (kinds_by R.Rules R.Value.SceneValue) }
{}

/// The rest of a frame in a world, once its systems have come to this outcome: the given commands, then those of the
/// systems by their places. Then it looks for references that are gone.
///
/// Errors: that of the systems; those of `run_commands`.
pub(crate) fn finish_frame<R: Rules>(
    rules: &R,
    dispatcher: &SceneDispatcher<R>,
    outcome: Result<(), FrameRefusal>,
    world: &mut World<R::Value>,
    input: &FrameInput<'_, R::Data>,
    skips: &mut Vec<Skip>,
    alloc: Global,
) -> Result<(), FrameRefusal>
where
    R::Value: Drop,
    requires come { (scene : PlainScene)
        × HaveComeBy R.Rules R.Value.SceneValue rules.now dispatcher.now world.old scene outcome }
    requires places { AreTheirPlaces input.now.places.now (turn_order (placed_by R.Rules).plain dispatcher.now) }
    requires given { All (IsLawful (R.book rules.now)) (plain_commands R.part_of input.now.given.now) }
    ensures accepted { OnOk result ((scene : PlainScene)
        → HaveComeBy R.Rules R.Value.SceneValue rules.now dispatcher.now world.old scene outcome
        → (left : List ℕ) × Accepts (R.book rules.now) input.now.limit
        (frame_by R.Rules dispatcher.now input.now.given.now) scene (scene_in R.Rules R.Value.SceneValue world.new)
        left × (skips.new.items ≡ skips.old.items ++ skips_of input.now.number left)) }
    ensures ready { OnOk result (AreReady (kinds_by R.Rules R.Value.SceneValue) (placed_by R.Rules)
        (R.book rules.now) dispatcher.now (holding_of world.new)) }
    ensures none { OnOk result (NoneWaits (kinds_by R.Rules R.Value.SceneValue) (seen_of world.new)) }
    ensures goes_on { OnOk result ((w : Slots R.Value)
        → OnOk outcome (GoesOn (kinds_by R.Rules R.Value.SceneValue) w world.old)
        → GoesOn (kinds_by R.Rules R.Value.SceneValue) w world.new) }
    ensures refused { IfErr result (λ cause. (scene : PlainScene)
        → HaveComeBy R.Rules R.Value.SceneValue rules.now dispatcher.now world.old scene outcome
        → RefusedIn (kinds_by R.Rules R.Value.SceneValue) (R.book rules.now) input.now.limit
        (roll_of (kinds_by R.Rules R.Value.SceneValue) (seen_of world.old))
        (frame_by R.Rules dispatcher.now input.now.given.now) scene cause) }
    ensures skips { OnErr result (skips.new.items ≡ skips.old.items) }
    ensures threads { IfErr outcome (λ cause. ¬ (WantsThread cause)) → IfErr result (λ cause. ¬ (WantsThread cause)) }
    ensures systems { IfErr outcome (λ cause. result ≡ Err cause) }
{
    outcome?;
    rules_stand(rules);
    a_scene_may_be_acted_on(rules);
    a_scene_stands_after_commands(rules);
    run_commands(rules, world, input, skips, alloc)
}

/// Runs a frame in a world in which a scene stands: the systems of a dispatcher, then the given commands, then those
/// of the systems by their places. Then it looks for references that are gone.
///
/// Where the frame is accepted, the scene that stands in the world is the one after it, whatever the number of
/// workers, the skipped commands are noted behind the skips, no command waits, and the systems may run again. The
/// events of the world show what became of its markers and parts.
///
/// Asked for is that the systems are the rules' own, that the places are ascending and have the position of each
/// system, that no command waits, and that the given commands are ones that the rules know.
///
/// Errors: `System`, with the position and the text of the first system that refuses; `TooManyCommands`, where a
/// system has a full queue and more to ask for, or all commands are more than the limit; those of `run_commands`;
/// `Memory`; `Threads`, only with two workers or more. The skips are as they were; the world is what the systems and
/// commands before have made of it, in which the scene before the frame is no more.
pub fn run_frame<R: Rules + Send + Sync, H: AllocGlobal + Threads + Wait + Sync>(
    rt: &H,
    rules: &R,
    dispatcher: &mut SceneDispatcher<R>,
    world: &mut World<R::Value>,
    input: &FrameInput<'_, R::Data>,
    skips: &mut Vec<Skip>,
) -> Result<(), FrameRefusal>
where
    R::Value: Drop + Send + Sync,
    R::Data: Send + Sync,
    R::Global: Send + Sync,
    R::System: Send + Sync,
    requires ready { AreReady (kinds_by R.Rules R.Value.SceneValue) (placed_by R.Rules)
        (R.book rules.now) dispatcher.old (holding_of world.old) }
    requires none { NoneWaits (kinds_by R.Rules R.Value.SceneValue) (seen_of world.old) }
    requires places { AreTheirPlaces input.now.places.now (turn_order (placed_by R.Rules).plain dispatcher.old) }
    requires given { All (IsLawful (R.book rules.now)) (plain_commands R.part_of input.now.given.now) }
    ensures accepted { OnOk result
        ((skipped : List ℕ) × Accepts (R.book rules.now) input.now.limit
        (frame_by R.Rules dispatcher.old input.now.given.now) (scene_in R.Rules R.Value.SceneValue world.old)
        (scene_in R.Rules R.Value.SceneValue world.new) skipped
        × (skips.new.items ≡ skips.old.items ++ skips_of input.now.number skipped)) }
    ensures ready { OnOk result (AreReady (kinds_by R.Rules R.Value.SceneValue) (placed_by R.Rules)
        (R.book rules.now) dispatcher.new (holding_of world.new)) }
    ensures none { OnOk result (NoneWaits (kinds_by R.Rules R.Value.SceneValue) (seen_of world.new)) }
    ensures goes_on { OnOk result (GoesOn (kinds_by R.Rules R.Value.SceneValue) world.old world.new) }
    ensures refused { IfErr result (RefusedIn (kinds_by R.Rules R.Value.SceneValue) (R.book rules.now) input.now.limit
        (roll_of (kinds_by R.Rules R.Value.SceneValue) (seen_of world.old))
        (frame_by R.Rules dispatcher.old input.now.given.now) (scene_in R.Rules R.Value.SceneValue world.old)) }
    ensures skips { OnErr result (skips.new.items ≡ skips.old.items) }
    ensures order { turn_order (placed_by R.Rules).plain dispatcher.new ≡ turn_order
        (placed_by R.Rules).plain dispatcher.old }
    ensures workers { dispatcher.new.workers ≡ dispatcher.old.workers }
    ensures threads { dispatcher.old.workers < 2 → IfErr result (λ cause. ¬ (WantsThread cause)) }
{
    let outcome = dispatcher.run_systems(rt, rules, world);
    finish_frame(rules, dispatcher, outcome, world, input, skips, rt.alloc())
}
