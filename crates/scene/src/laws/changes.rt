//! What systems change.
ghost use Rattle.std.specs.Prelude.{List};
ghost use Rattle.scene_model.specs.Rulebook.{Command};
ghost use Rattle.scene_model.specs.Scenes.{PlainScene, PlainSystem, Steps};
ghost use Rattle.scene_model.specs.Frames.{Queues, SystemsRun};
ghost use Rattle.scene.specs.SystemChanges.{ChangesDeclared, ChangesDeclaredBy};

use scene_model::DocumentRules;

/// A system's turn changes nothing that the system doesn't declare as written, and never which entities there are, nor their
/// ids, nor the next id; so do the turns of the systems of a frame, one after another.
pub fn a_system_changes_what_it_declares<R: DocumentRules>(rules: &R)
    ensures turn { (system : PlainSystem) (scene after : PlainScene) (commands : List Command)
        → Steps (R.book rules.now) system scene after commands → ChangesDeclared system.access scene after }
    ensures turns { (order : List PlainSystem) (scene after : PlainScene) (queues : Queues)
        → SystemsRun (R.book rules.now) order scene after queues → ChangesDeclaredBy order scene after }
{}
