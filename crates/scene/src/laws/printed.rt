//! A printed scene is read again, and loaded again.
ghost use Rattle.std.specs.Prelude.{◌≡◌, ◌≤◌, ℕ, List, length, Some, Ok, IfOk, IfErr};
ghost use Rattle.scene_model.specs.Parts.{Json};
ghost use Rattle.scene_model.specs.Scenes.{PlainScene};
ghost use Rattle.scene_document.specs.Drafts.{Draft, DraftEntry, DraftCommand, draft_from, entries_from, whole_32};
ghost use Rattle.scene_document.specs.Drafts.{commands_from};
ghost use Rattle.scene_document.specs.Documents.{document_from, document_of};
ghost use Rattle.scene_document.specs.Openings.{first_scene};
ghost use Rattle.scene_document.specs.Texts.{scene_json, text_of, ReadsBack};
ghost use Rattle.scene.specs.Limits.{AreLimits};
ghost use Rattle.scene.specs.Outcomes.{IsNoDocument, bounds_of};
ghost use Rattle.scene.specs.Running.{rules_of};
ghost use Rattle.scene.specs.Members.{shown_by, IsReadyBy};
ghost use Rattle.scene.specs.Printed.{ReadsAlike, CanBeRead, CanBeLoaded, GivesDocument};

use crate::{DocumentRules, Limits, LoadError, Rules, Scene};
use std::alloc::Global;

/// The JSON of a sound scene has the shape of a document, and the scene that this document gives is the scene; where no
/// float is written and references live, and there are not too many entities, no refusal of the document stands. So is it
/// with systems, frames and commands put in. A text that was printed for a scene, and that is a document, gives the scene.
pub fn a_printed_scene_is_read_again<R: DocumentRules>(rules: &R)
    ensures read { (one : PlainScene) → CanBeRead (R.book rules.now) one → (draft : Draft)
        × (draft_from (R.book rules.now) (scene_json (R.book rules.now) one) ≡ Some draft)
        × (first_scene draft ≡ one) }
    ensures document { (indices : ℕ) (scene : PlainScene) → CanBeRead (R.book rules.now) scene → CanBeLoaded scene
        → length scene.ids ≤ indices → (draft : Draft)
        × (document_from (R.book rules.now) indices (scene_json (R.book rules.now) scene) ≡ Ok draft)
        × (first_scene draft ≡ scene) }
    ensures course { (scene : PlainScene) (systems frames commands : Json) (entries : List DraftEntry)
        (asked : ℕ) (lists : List (List DraftCommand)) → let book = R.book rules.now in CanBeRead book scene
        → entries_from book systems ≡ Some entries → whole_32 frames ≡ Some asked → commands_from book commands
        ≡ Some lists → GivesDocument book scene systems frames commands entries asked lists }
    ensures text { (indices : ℕ) (scene : PlainScene) (text : List ℕ) (draft : Draft)
        → CanBeRead (R.book rules.now) scene → ReadsBack text (scene_json (R.book rules.now) scene)
        → document_of (R.book rules.now) indices text ≡ Ok draft → first_scene draft ≡ scene }
{}

/// A scene that can run can be read again from what is printed for it.
pub fn a_ready_scene_can_be_read<R: Rules + Drop>(scene: &Scene<R>)
where
    R::Value: Drop,
    requires { IsReadyBy R.Rules R.Value.SceneValue scene.now }
    ensures { CanBeRead (R.book (rules_of scene.now)) (shown_by R.Rules R.Value.SceneValue scene.now).scene }
{}

/// Prints a scene, reads the text and loads it under rules that read documents as the scene's do: what is loaded is the scene,
/// before any frame.
///
/// The limits are at most the greatest ones, and `generation` is at least 1.
///
/// Errors: `Document` where the text is refused, with the least refusal that stands: a part or a global that nests deeper than the
/// reader of JSON allows, more entities than the limits allow; `Memory`.
pub fn print_and_load<R: Rules + Drop>(
    alloc: Global,
    scene: &Scene<R>,
    rules: R,
    limits: Limits,
) -> Result<Scene<R>, LoadError>
where
    R::Value: Drop,
    requires ready { IsReadyBy R.Rules R.Value.SceneValue scene.now }
    requires book { ReadsAlike (R.book rules) (R.book (rules_of scene.now)) }
    requires limits { AreLimits limits }
    ensures same { IfOk result (λ again. (shown_by R.Rules R.Value.SceneValue again).scene ≡
        (shown_by R.Rules R.Value.SceneValue scene.now).scene) }
    ensures ready { IfOk result (λ again. IsReadyBy R.Rules R.Value.SceneValue again) }
    ensures rules { IfOk result (λ again. rules_of again ≡ rules) }
    ensures err { IfErr result (IsNoDocument (R.book (rules_of scene.now)) (bounds_of limits)
        (text_of (R.book (rules_of scene.now)) (shown_by R.Rules R.Value.SceneValue scene.now).scene)) }
{
    let text = match scene.snapshot(alloc) {
        Ok(text) => text,
        Err(_) => return Err(LoadError::Memory),
    };
    Scene::open(alloc, rules, limits, text.as_slice())
}
