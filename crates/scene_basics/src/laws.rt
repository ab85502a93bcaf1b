//! Laws of the program's rules, and what the laws of scenes say of them: public functions whose contracts say them.
ghost use Rattle.std.specs.Prelude.{◌≡◌, ℕ, List, Ok};
ghost use Rattle.scene_model.specs.Scenes.{PlainScene, PlainFrame};
ghost use Rattle.scene_model.specs.declared.refusals.Report.{Report};
ghost use Rattle.scene_model.specs.declared.refusals.Skip.{Skip};
ghost use Rattle.scene_document.specs.Drafts.{Draft};
ghost use Rattle.scene_document.specs.Documents.{document_of};
ghost use Rattle.scene_model.specs.Frames.{Reaches};
ghost use Rattle.scene.specs.Runs.{CanBegin, Ran};
ghost use Rattle.scene.specs.Outcomes.{Bounds, IsRunOf};
ghost use Rattle.scene.specs.OneOutcome.{OneOutcome, HadMeans, SameButPlace};
ghost use Rattle.scene.specs.References.{KeepsReferences, RefsLiveUnder};
ghost use Rattle.scene_basics.specs.Names.{part_kinds};
ghost use Rattle.scene_basics.specs.Systems.{basics};

use crate::rules::Basics;
use scene::laws::{one_outcome, references_live, workers_and_store_change_nothing};

/// What a system is lent determines what becomes of its turn: what it leaves and asks for, the text of its refusal, or
/// what fills its queue.
pub fn a_turn_has_one_outcome()
    ensures { OneOutcome basics }
{}

/// What a system leaves refers to entities that it was lent, where what it was lent does.
pub fn a_turn_keeps_references()
    ensures { KeepsReferences basics }
{}

/// A document that can begin has one report and reaches one scene, but where a frame is refused for want of memory or of a thread, or
/// at a limit of the world's entities.
pub fn a_document_has_one_outcome()
    ensures report { (bounds : Bounds) (draft : Draft) (one other : Report) (scene after : PlainScene)
        → CanBegin basics draft → HadMeans one → HadMeans other → Ran basics bounds draft one scene
        → Ran basics bounds draft other after → one ≡ other }
    ensures scene { (bounds : Bounds) (draft : Draft) (one other : Report) (scene after : PlainScene)
        → CanBegin basics draft → HadMeans one → HadMeans other → Ran basics bounds draft one scene
        → Ran basics bounds draft other after → scene ≡ after }
{
    one_outcome(&Basics);
}

/// Documents that differ in their workers and their store alone have one report and one text, but where a frame is refused for want
/// of memory or of a thread, or at a limit of the world's entities.
pub fn workers_and_store_do_not_show()
    ensures report { (bounds : Bounds) (input other : List ℕ) (one two : Draft) (first second : Report)
        (text more : List ℕ) → HadMeans first → HadMeans second
        → document_of basics bounds.indices input ≡ Ok one → document_of basics bounds.indices other ≡ Ok two
        → SameButPlace one two → IsRunOf basics bounds input first text → IsRunOf basics bounds other second more
        → first ≡ second }
    ensures text { (bounds : Bounds) (input other : List ℕ) (one two : Draft) (first second : Report)
        (text more : List ℕ) → HadMeans first → HadMeans second
        → document_of basics bounds.indices input ≡ Ok one → document_of basics bounds.indices other ≡ Ok two
        → SameButPlace one two → IsRunOf basics bounds input first text → IsRunOf basics bounds other second more
        → text ≡ more }
{
    workers_and_store_change_nothing(&Basics);
}

/// After accepted frames each reference names an entity that lives, where each did before them.
pub fn references_go_on_living()
    ensures { (limit : ℕ) (frames : ℕ → PlainFrame) (count : ℕ) (scene after : PlainScene) (skips : List Skip)
        → RefsLiveUnder part_kinds scene.ids scene.part → Reaches basics limit frames count scene after skips
        → RefsLiveUnder part_kinds after.ids after.part }
{
    references_live(&Basics);
}
