//! A run in two parts.
ghost use Rattle.std.specs.Prelude.{◌≡◌, ◌+◌, ◌++◌, ℕ, List, None};
ghost use Rattle.scene_model.specs.Scenes.{PlainScene, PlainFrame};
ghost use Rattle.scene_model.specs.declared.refusals.Report.{Report};
ghost use Rattle.scene_model.specs.declared.refusals.Skip.{Skip};
ghost use Rattle.scene_document.specs.Drafts.{Draft};
ghost use Rattle.scene_document.specs.Texts.{text_of};
ghost use Rattle.scene_model.specs.Frames.{Reaches};
ghost use Rattle.scene.specs.Limits.{Bounds};
ghost use Rattle.scene.specs.Runs.{CanBegin, Ran};
ghost use Rattle.scene.specs.OneOutcome.{OneOutcome, HadMeans};
ghost use Rattle.scene.specs.TwoParts.{frames_behind, later_skips, joined, IsInTwoParts, BeginsAt};

use scene_model::DocumentRules;

/// Frames and then more of them are the frames together; so a document whose first frames are all accepted, and whose
/// rest begins with the scene that those reached, leads where the whole leads, with the same report, where each system
/// allows one outcome and no run ends in a want of memory or of a thread or at a limit of the world's entities.
pub fn frames_in_two_parts<R: DocumentRules>(rules: &R)
    ensures chain { (limit : ℕ) (frames : ℕ → PlainFrame) (count more : ℕ) (scene mid after : PlainScene)
        (skips rest : List Skip) → Reaches (R.book rules.now) limit frames count scene mid skips
        → Reaches (R.book rules.now) limit (frames_behind count frames) more mid after rest
        → Reaches (R.book rules.now) limit frames (count + more) scene after (skips ++ later_skips count rest) }
    ensures report { (bounds : Bounds) (all head rest : Draft) (sum one two : Report) (mid now end : PlainScene)
        → let book = R.book rules.now in OneOutcome book → CanBegin book all → HadMeans sum → HadMeans two
        → IsInTwoParts all head rest → Ran book bounds head one mid → one.refused ≡ None → BeginsAt rest mid
        → Ran book bounds rest two now → Ran book bounds all sum end → sum ≡ joined one two }
    ensures text { (most : Bounds) (all head rest : Draft) (sum one two : Report) (mid now end : PlainScene)
        → let book = R.book rules.now in OneOutcome book → CanBegin book all → HadMeans sum → HadMeans two
        → IsInTwoParts all head rest → Ran book most head one mid → one.refused ≡ None → BeginsAt rest mid
        → Ran book most rest two now → Ran book most all sum end → text_of book end ≡ text_of book now }
{}
