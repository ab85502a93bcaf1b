//! Laws of frames in a world. The functions have no code; each contract is the law.
ghost use Rattle.std.specs.Prelude.{◌≤◌};
ghost use Rattle.scene_model.specs.declared.refusals.FrameRefusal.{FrameRefusal};
ghost use Rattle.scene_model.specs.Bounds.{FrameLimit};
ghost use Rattle.scene_world.specs.Rolls.{Roll};
ghost use Rattle.scene_dispatch.specs.Frames.{WantsThread};
ghost use Rattle.scene_commands.specs.Bounds.{IsBounded};
ghost use Rattle.scene_model.specs.Scenes.{PlainScene, PlainFrame};
ghost use Rattle.scene_model.specs.Frames.{Refuses};
ghost use Rattle.scene.specs.Refusals.{RefusedIn};
ghost use Rattle.scene_world.specs.Members.{kinds_by};

use scene_world::Rules;

/// What refuses a frame in a world refuses it for the scene that stands there, where the entities were under a limit as its commands
/// began, and a thread is wanting only with two workers or more.
pub fn a_refusal_in_a_world_is_one_of_the_scene<R: Rules>(rules: &R)
    ensures { (limit : FrameLimit) (start : Roll) (frame : PlainFrame) (scene : PlainScene) (cause : FrameRefusal)
        → IsBounded limit.indices limit.generation limit.unlisted start
        → (WantsThread cause → 2 ≤ limit.workers)
        → RefusedIn (kinds_by R.Rules R.Value.SceneValue) (R.book rules.now) limit.commands start frame scene cause
        → Refuses (R.book rules.now) limit frame scene cause }
{}
