//! Laws of worlds in which commands are carried out. The functions have no code; each contract is the law.
ghost use Rattle.std.specs.Prelude.{◌≡◌, ℕ, None};
ghost use Rattle.shred_world.specs.Worlds.{Slots};
ghost use Rattle.scene_model.specs.Commands.{first_gone};
ghost use Rattle.scene_model.specs.Scenes.{PartsAdmitted, GlobalsReadable};
ghost use Rattle.scene_world.specs.Standing.{IsSceneWorld};
ghost use Rattle.scene_world.specs.Members.{kinds_by};
ghost use Rattle.scene_commands.specs.Acts.{seen_of, MayAct};
ghost use Rattle.scene_world.specs.Standing.{commands_of, roll_of};
ghost use Rattle.scene_commands.specs.Members.{scene_in};
ghost use Rattle.scene_commands.specs.Watching.{StaysButEvents};

use scene_world::Rules;

/// Commands may be carried out in a world in which a scene stands.
pub fn a_scene_may_be_acted_on<R: Rules>(rules: &R)
    ensures { (w : Slots R.Value) → IsSceneWorld (kinds_by R.Rules R.Value.SceneValue) (R.book rules.now)
        (seen_of w) → MayAct (kinds_by R.Rules R.Value.SceneValue) w }
{}

/// Where no reference is gone, parts are of their kinds and globals have values that the rules read, a scene stands in
/// the world that commands leave.
pub fn a_scene_stands_after_commands<R: Rules>(rules: &R)
    ensures { (w : Slots R.Value) → let scene = scene_in R.Rules R.Value.SceneValue w in MayAct
        (kinds_by R.Rules R.Value.SceneValue) w → PartsAdmitted (R.book rules.now) scene.part
        → GlobalsReadable (R.book rules.now) scene.global → first_gone (R.book rules.now) scene ≡ None
        → IsSceneWorld (kinds_by R.Rules R.Value.SceneValue) (R.book rules.now) (seen_of w) }
{}

/// Where nothing in a world is another but the events that tell of its markers and parts, the same scene stands there,
/// the same entities live under the same ids, and the same commands wait.
pub fn events_are_no_part_of_a_scene<R: Rules>(rules: &R)
    ensures scene { (w now : Slots R.Value) → let value = R.Value.SceneValue in
        StaysButEvents (kinds_by R.Rules value) (seen_of w) (seen_of now)
        → scene_in R.Rules value now ≡ scene_in R.Rules value w }
    ensures roll { (w now : Slots R.Value) → let kinds = kinds_by R.Rules R.Value.SceneValue in
        StaysButEvents kinds (seen_of w) (seen_of now) → roll_of kinds (seen_of now) ≡ roll_of kinds (seen_of w) }
    ensures queues { (w later : Slots R.Value) (position : ℕ)
        → StaysButEvents (kinds_by R.Rules R.Value.SceneValue) (seen_of w) (seen_of later)
        → commands_of (kinds_by R.Rules R.Value.SceneValue) (seen_of later) position
        ≡ commands_of (kinds_by R.Rules R.Value.SceneValue) (seen_of w) position }
    ensures stands { (w later : Slots R.Value)
        → StaysButEvents (kinds_by R.Rules R.Value.SceneValue) (seen_of w) (seen_of later)
        → IsSceneWorld (kinds_by R.Rules R.Value.SceneValue) (R.book rules.now) (seen_of w)
        → IsSceneWorld (kinds_by R.Rules R.Value.SceneValue) (R.book rules.now) (seen_of later) }
{}
