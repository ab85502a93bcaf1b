//! A run has one outcome.
ghost use Rattle.std.specs.Prelude.{◌≡◌, ℕ, List};
ghost use Rattle.scene_model.specs.Scenes.{PlainScene};
ghost use Rattle.scene_model.specs.declared.refusals.Report.{Report};
ghost use Rattle.scene_document.specs.Drafts.{Draft};
ghost use Rattle.scene.specs.Limits.{Bounds};
ghost use Rattle.scene.specs.Runs.{CanBegin, Ran};
ghost use Rattle.scene.specs.Outcomes.{IsRunOf};
ghost use Rattle.scene.specs.OneOutcome.{OneOutcome, HadMeans, SameButPlace, GivesDraft};

use scene_model::DocumentRules;

/// Where each system allows one outcome of what it may be lent, told by what it writes, a document that can begin has one: two
/// runs of it, in which no frame is refused for want of memory or of a thread or at a limit of the world's entities, have the same
/// report and reach the same scene.
pub fn one_outcome<R: DocumentRules>(rules: &R)
    ensures report { (bounds : Bounds) (draft : Draft) (one other : Report) (scene after : PlainScene)
        → OneOutcome (R.book rules.now) → CanBegin (R.book rules.now) draft → HadMeans one → HadMeans other
        → Ran (R.book rules.now) bounds draft one scene → Ran (R.book rules.now) bounds draft other after
        → one ≡ other }
    ensures scene { (bounds : Bounds) (draft : Draft) (one other : Report) (scene after : PlainScene)
        → OneOutcome (R.book rules.now) → CanBegin (R.book rules.now) draft → HadMeans one → HadMeans other
        → Ran (R.book rules.now) bounds draft one scene → Ran (R.book rules.now) bounds draft other after
        → scene ≡ after }
{}

/// Where each system allows one outcome, neither the workers nor the store that a document names change what its run
/// answers: the runs of two documents that differ in those alone, in which no frame is refused for want of memory or of a thread
/// or at a limit of the world's entities, have the same report and the same text.
pub fn workers_and_store_change_nothing<R: DocumentRules>(rules: &R)
    ensures report { (bounds : Bounds) (input other : List ℕ) (one two : Draft) (first second : Report)
        (text more : List ℕ) → let book = R.book rules.now in OneOutcome book → HadMeans first → HadMeans second
        → GivesDraft book bounds input one → GivesDraft book bounds other two → SameButPlace one two
        → IsRunOf book bounds input first text → IsRunOf book bounds other second more → first ≡ second }
    ensures text { (bounds : Bounds) (input other : List ℕ) (one two : Draft) (first second : Report)
        (text more : List ℕ) → let book = R.book rules.now in OneOutcome book → HadMeans first → HadMeans second
        → GivesDraft book bounds input one → GivesDraft book bounds other two → SameButPlace one two
        → IsRunOf book bounds input first text → IsRunOf book bounds other second more → text ≡ more }
{}
