//! Laws of kills. The functions have no code; each contract is the law.
ghost use Rattle.std.specs.Prelude.{◌≡◌, ◌==◌, ℕ, true, List, []};
ghost use Rattle.scene_model.specs.Parts.{Name};
ghost use Rattle.scene_model.specs.Rulebook.{kill};
ghost use Rattle.scene_model.specs.Scenes.{PlainScene, lives};
ghost use Rattle.scene_model.specs.Deaths.{IsLeast, holds_on, dies_with, without, without_each};
ghost use Rattle.scene_model.specs.Commands.{apply, changed};

/// Those that die with an id are the least set that has it and, with each member, all who hold on to that one. They all
/// live before, and a kill takes them out at once.
pub fn a_kill_takes_the_least_set()
    ensures least { (owning : List Name) (scene : PlainScene) (id : ℕ)
        → IsLeast id (holds_on owning scene) (dies_with owning scene id) }
    ensures living { (owning : List Name) (scene : PlainScene) (id one : ℕ) → lives id scene.ids ≡ true
        → dies_with owning scene id one ≡ true → lives one scene.ids ≡ true }
    ensures killed { (owning : List Name) (scene : PlainScene) (id : ℕ) → lives id scene.ids ≡ true
        → apply owning (kill id) scene ≡ changed (without (dies_with owning scene id) scene) }
{}

/// The members of the least set die one after another, in any order, as they die at once.
pub fn deaths_one_by_one_are_a_kill()
    ensures { (owning : List Name) (scene : PlainScene) (id : ℕ) (ids : List ℕ) → lives id scene.ids ≡ true
        → IsLeast id (holds_on owning scene) (λ one. lives one ids)
        → apply owning (kill id) scene ≡ changed (without_each ids scene) }
{}

/// Where no reference owns its holder, a kill takes one alone.
pub fn nobody_dies_with_another_where_nothing_owns()
    ensures { (scene : PlainScene) (id : ℕ) → lives id scene.ids ≡ true
        → apply [] (kill id) scene ≡ changed (without (λ one. one == id) scene) }
{}
