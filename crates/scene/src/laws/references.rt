//! References name entities that live.
ghost use Rattle.std.specs.Prelude.{ℕ, List};
ghost use Rattle.scene_model.specs.Scenes.{PlainScene, PlainFrame, RefsLive};
ghost use Rattle.scene_model.specs.declared.refusals.Skip.{Skip};
ghost use Rattle.scene_model.specs.Frames.{Accepts, Reaches};
ghost use Rattle.scene.specs.References.{RefsLiveUnder, StandUnder};

use scene_model::DocumentRules;

/// No accepted frame leaves a reference to an entity that is gone, under any kind of the rules; where parts stand under the
/// rules' kinds alone, that is each reference.
pub fn references_live<R: DocumentRules>(rules: &R)
    ensures frame { (limit : ℕ) (frame : PlainFrame) (scene after : PlainScene) (places : List ℕ)
        → RefsLiveUnder (R.book rules.now).part_names scene.ids scene.part
        → Accepts (R.book rules.now) limit frame scene after places
        → RefsLiveUnder (R.book rules.now).part_names after.ids after.part }
    ensures frames { (limit : ℕ) (frames : ℕ → PlainFrame) (count : ℕ) (scene after : PlainScene)
        (skips : List Skip)
        → RefsLiveUnder (R.book rules.now).part_names scene.ids scene.part
        → Reaches (R.book rules.now) limit frames count scene after skips
        → RefsLiveUnder (R.book rules.now).part_names after.ids after.part }
    ensures each { (scene : PlainScene) → StandUnder (R.book rules.now).part_names scene.ids scene.part
        → RefsLiveUnder (R.book rules.now).part_names scene.ids scene.part → RefsLive scene.ids scene.part }
{}
