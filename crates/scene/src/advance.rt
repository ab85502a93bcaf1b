//! The rest of a frame of a scene that stands in a world, and what is kept of the scene after it.
ghost use Rattle.std.specs.Prelude.{◌≡◌, ◌++◌, ◌≤◌, ℕ, List, Option, All, IfErr, OnOk, OnErr, take};
ghost use Rattle.scene_model.specs.Bounds.{FrameLimit};
ghost use Rattle.scene_model.specs.Lawful.{IsLawful};
ghost use Rattle.scene_model.specs.Commands.{skips_of};
ghost use Rattle.scene_model.specs.Frames.{Accepts, Refuses};
ghost use Rattle.scene_model.specs.Queues.{plain_commands};
ghost use Rattle.scene_dispatch.specs.Orders.{turn_order};
ghost use Rattle.scene_commands.specs.Acts.{seen_of};
ghost use Rattle.scene_commands.specs.declared.watching.ReaderTurn.TheVariants.{Next};
ghost use Rattle.scene_commands.specs.Watching.{HaveRead};
ghost use Rattle.scene.specs.declared.snapshot.kept.KeptScene.{KeptScene};
ghost use Rattle.std.specs.Global.{Vec};
ghost use Rattle.scene_world.specs.Standing.{IsSceneWorld, roll_of};
ghost use Rattle.scene_world.specs.Telling.{TellsAll};
ghost use Rattle.scene_commands.specs.Members.{scene_in};
ghost use Rattle.scene.specs.Keeping.{HaveReadFrame, OfEach, IsKept, IsKeptSince, touched_in, CountsMore, changes_at};
ghost use Rattle.scene.specs.Coming.{IsUnder, StaysUnder};
ghost use Rattle.scene.specs.Running.{Stands};
ghost use Rattle.scene.specs.Waiting.{AreTheirPlaces, NoneWaits};
ghost use Rattle.scene.specs.Members.{frame_by, listed_by, HaveComeBy};
ghost use Rattle.scene_world.specs.Members.{kinds_by, placed_by};

use crate::FrameInput;
use crate::changes::keep_changes;
use crate::laws::a_refusal_in_a_world_is_one_of_the_scene;
use crate::running::finish_frame;
use crate::snapshot::KeptScene;
use scene_commands::laws::events_are_no_part_of_a_scene;
use scene_commands::{ReaderTurn, Watchers, catch_up_world};
use scene_dispatch::SceneDispatcher;
use scene_model::{FrameRefusal, Skip};
use scene_world::Rules;
use shred_world::World;
use std::alloc::Global;

/// A frame begins in a world in which a scene stands and is kept: the readers who read then have read all. Takes no memory.
/// Nothing that is seen of the scene is another.
pub(crate) fn begin_frame<R: Rules>(rules: &R, world: &mut World<R::Value>, watchers: &Watchers)
    requires readers { OfEach (kinds_by R.Rules R.Value.SceneValue) HaveReadFrame R.columns.part_names watchers.now
        (seen_of world.old) }
    requires telling { TellsAll (kinds_by R.Rules R.Value.SceneValue) (seen_of world.old) }
    ensures begun { OfEach (kinds_by R.Rules R.Value.SceneValue) HaveRead R.columns.part_names watchers.now
        (seen_of world.new) }
    ensures kept { (kept : KeptScene R.Data (Vec (Option R.Global))) → IsKept (kinds_by R.Rules R.Value.SceneValue)
        R.part_of (R.book rules.now) watchers.now kept (seen_of world.old)
        → IsKept (kinds_by R.Rules R.Value.SceneValue) R.part_of (R.book rules.now) watchers.now kept
        (seen_of world.new) }
    ensures stands { IsSceneWorld (kinds_by R.Rules R.Value.SceneValue) (R.book rules.now) (seen_of world.old)
        → IsSceneWorld (kinds_by R.Rules R.Value.SceneValue) (R.book rules.now) (seen_of world.new) }
    ensures none { NoneWaits (kinds_by R.Rules R.Value.SceneValue) (seen_of world.old)
        → NoneWaits (kinds_by R.Rules R.Value.SceneValue) (seen_of world.new) }
    ensures scene { scene_in R.Rules R.Value.SceneValue world.new ≡ scene_in R.Rules R.Value.SceneValue world.old }
    ensures roll { roll_of (kinds_by R.Rules R.Value.SceneValue) (seen_of world.new)
        ≡ roll_of (kinds_by R.Rules R.Value.SceneValue) (seen_of world.old) }
{
    catch_up_world(rules, world, watchers, ReaderTurn::Next);
}

/// The rest of a frame in a world, once its systems have come to this outcome; what is kept becomes the full save of the
/// scene after it, changed where the events of the frame tell of changes, and the readers who read as a frame ends have read
/// them. Errors: those of the frame; the scene before is kept.
pub(crate) fn advance<R: Rules>(
    rules: &R,
    dispatcher: &SceneDispatcher<R>,
    outcome: Result<(), FrameRefusal>,
    world: &mut World<R::Value>,
    input: &FrameInput<'_, R::Data>,
    skips: &mut Vec<Skip>,
    watchers: &Watchers,
    kept: &mut KeptScene<R::Data, Vec<Option<R::Global>>>,
    alloc: Global,
) -> Result<(), FrameRefusal>
where
    R::Value: Drop,
    requires come { HaveComeBy R.Rules R.Value.SceneValue rules.now dispatcher.now world.old
        (listed_by R.Rules rules.now kept.old) outcome }
    requires since { IsKeptSince (kinds_by R.Rules R.Value.SceneValue) R.part_of (R.book rules.now) watchers.now
        kept.old world.old outcome }
    requires places { AreTheirPlaces input.now.places.now (turn_order (placed_by R.Rules).plain dispatcher.now) }
    requires given { All (IsLawful (R.book rules.now)) (plain_commands R.part_of input.now.given.now) }
    ensures accepted { OnOk result ((skipped : List ℕ) × Accepts (R.book rules.now) input.now.limit
        (frame_by R.Rules dispatcher.now input.now.given.now) (listed_by R.Rules rules.now kept.old)
        (listed_by R.Rules rules.now kept.new) skipped
        × (skips.new.items ≡ skips.old.items ++ skips_of input.now.number skipped)) }
    ensures stands { OnOk result (Stands (kinds_by R.Rules R.Value.SceneValue) (placed_by R.Rules)
        (R.book rules.now) dispatcher.now world.new input.now.places.now (listed_by R.Rules rules.now kept.new)) }
    ensures refused { IfErr result (λ cause. (limit : FrameLimit) → input.now.limit ≡ limit.commands
        → StaysUnder (kinds_by R.Rules R.Value.SceneValue) limit world.old outcome → Refuses (R.book rules.now) limit
        (frame_by R.Rules dispatcher.now input.now.given.now) (listed_by R.Rules rules.now kept.old) cause) }
    ensures under { OnOk result ((limit : FrameLimit)
        → StaysUnder (kinds_by R.Rules R.Value.SceneValue) limit world.old outcome
        → IsUnder (kinds_by R.Rules R.Value.SceneValue) limit world.new) }
    ensures skips { OnErr result (skips.new.items ≡ skips.old.items) }
    ensures full { OnOk result (IsKept (kinds_by R.Rules R.Value.SceneValue) R.part_of (R.book rules.now)
        watchers.now kept.new (seen_of world.new)) }
    ensures kept { OnErr result (listed_by R.Rules rules.now kept.new ≡ listed_by R.Rules rules.now kept.old) }
    ensures changes { OnOk result (CountsMore kept.old.changes (changes_at
        (touched_in (kinds_by R.Rules R.Value.SceneValue) Next R.columns.part_names watchers.now (seen_of world.new))
        kept.old kept.new) kept.new.changes) }
    ensures unchanged { OnErr result (kept.new.changes ≡ kept.old.changes) }
{
    a_refusal_in_a_world_is_one_of_the_scene(rules);
    events_are_no_part_of_a_scene(rules);
    let noted = skips.len();
    finish_frame(rules, dispatcher, outcome, world, input, skips, alloc)?;
    match keep_changes(rules, world, watchers, kept, alloc) {
        Ok(()) => {
            catch_up_world(rules, world, watchers, ReaderTurn::Frame);
            Ok(())
        }
        Err(_) => {
            skips.truncate(noted);
            Err(FrameRefusal::Memory)
        }
    }
}
