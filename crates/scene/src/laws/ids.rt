//! An id is given once.
ghost use Rattle.std.specs.Prelude.{◌≡◌, ℕ, true, List, Ok};
ghost use Rattle.scene_model.specs.Scenes.{PlainScene, PlainFrame, IdsFit};
ghost use Rattle.scene_model.specs.Rulebook.{spawn, kill};
ghost use Rattle.scene_model.specs.Parts.{Name, Part};
ghost use Rattle.scene_model.specs.Deaths.{dies_with};
ghost use Rattle.scene_model.specs.Commands.{apply, changed};
ghost use Rattle.scene_model.specs.declared.refusals.Skip.{Skip};
ghost use Rattle.scene_model.specs.declared.refusals.Report.{Report};
ghost use Rattle.scene_document.specs.Drafts.{Draft};
ghost use Rattle.scene_document.specs.Documents.{document_of};
ghost use Rattle.scene_document.specs.Openings.{first_scene, frames_of};
ghost use Rattle.scene_model.specs.Frames.{Reaches};
ghost use Rattle.scene.specs.Outcomes.{Bounds, IsRunOf};
ghost use Rattle.scene.specs.Ids.{IdsGoOn, Gives, TakesAway, ReachesBehind};

use scene_model::DocumentRules;

/// No id is given twice: over any number of frames the next id does not fall, an id that was given and does not live
/// stays dead, and each id that came is new; a spawn gives the next id, which no entity had; and each id that a kill
/// takes is dead and below the next one, so that it stays dead. So it is from the scene of each document on, over its frames,
/// between any two of the scenes that they reach, and for each run.
pub fn an_id_is_given_once<R: DocumentRules>(rules: &R)
    ensures go_on { (limit : ℕ) (frames : ℕ → PlainFrame) (count : ℕ) (scene after : PlainScene)
        (skips : List Skip) → IdsFit scene.next scene.ids
        → Reaches (R.book rules.now) limit frames count scene after skips → IdsGoOn scene after }
    ensures document { (indices limit : ℕ) (input : List ℕ) (draft : Draft) (count more : ℕ)
        (mid end : PlainScene) (skips rest : List Skip) → let book = R.book rules.now in document_of book
        indices input ≡ Ok draft → Reaches book limit (frames_of draft) count (first_scene draft) mid skips
        → ReachesBehind book limit draft count more mid end rest → IdsGoOn (first_scene draft) mid
        × IdsGoOn mid end }
    ensures run { (bounds : Bounds) (input : List ℕ) (report : Report) (text : List ℕ)
        → (ran : IsRunOf (R.book rules.now) bounds input report text) → IdsGoOn (first_scene ran.draft) ran.scene }
    ensures spawned { (owning : List Name) (parts : List (Name × Part)) (one after : PlainScene)
        → IdsFit one.next one.ids → apply owning (spawn parts) one ≡ changed after
        → Gives one.next one after }
    ensures killed { (owning : List Name) (id one : ℕ) (scene after : PlainScene) → IdsFit scene.next scene.ids
        → apply owning (kill id) scene ≡ changed after → dies_with owning scene id one ≡ true
        → TakesAway one scene after }
{}
