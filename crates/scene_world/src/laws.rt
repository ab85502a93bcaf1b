//! Laws of a scene that stands in a world. The functions have no code; each contract is the law.
ghost use Rattle.std.specs.Prelude.{◌≡◌, ◌≤◌, ◌==◌, ℕ, true, List, map, Option, Some, None, option_map};
ghost use Rattle.shred_world.specs.declared.resource_id.ResourceId.{ResourceId};
ghost use Rattle.shred_world.specs.Bundles.{Holding};
ghost use Rattle.shred_stages.specs.Views.{cut, Leaves, merged};
ghost use Rattle.specs_entity.specs.Births.{IsAlive};
ghost use Rattle.specs_entity.specs.Life.{LifeAt};
ghost use Rattle.scene_model.specs.Parts.{Name, Part, gone, is_among, living, under};
ghost use Rattle.scene_model.specs.Rulebook.{Access, spawn};
ghost use Rattle.scene_model.specs.Scenes.{fragment, with_left, lives, PlainSystem};
ghost use Rattle.scene_model.specs.Deaths.{without};
ghost use Rattle.scene_model.specs.Commands.{apply, changed, with_part};
ghost use Rattle.scene_world.specs.Stored.{Stored, part_under};
ghost use Rattle.scene_world.specs.Rolls.{Roll, id_at, ref_to, IsRoll};
ghost use Rattle.scene_world.specs.Standing.{Kinds, Sight, IsWhole, seen_in, roll_of, plain_of, fragment_of};
ghost use Rattle.specs_entity.specs.Births.{count, living as life_at};
ghost use Rattle.scene_world.specs.Ages.{Ages, WasBornIn};
ghost use Rattle.scene_world.specs.Telling.{ShowsWorld, TellsAll};
ghost use Rattle.scene_world.specs.Lent.{StandApart, AreKnown, IsLent, id_of_place, read_places, written_places};
ghost use Rattle.scene_world.specs.Changes.{but_at, SetsPart, Buries, Bears, AreBelow, AreGiven, HaveLiving, HasNextId};
ghost use Rattle.shred_plan.specs.Plan.{Stage};
ghost use Rattle.shred_stages.specs.declared.stop.Stop.{Stop};
ghost use Rattle.shred_stages.specs.Runs.{State, StagesRun};
ghost use Rattle.scene_world.specs.Chains.{PlanIsLent, plan_order};
ghost use Rattle.scene_world.specs.Members.{kinds_by, StandBy, ComeBy};

use crate::{Placed, Rules};
use shred_stages::System;

/// A stored entity that is alive, by its index and its generation, is a reference to the id that is marked at its index;
/// any other is a reference to none any more, also where another entity lives at its index.
pub fn an_entity_is_the_reference_to_its_id()
    ensures alive { (roll : Roll) (entity : LifeAt) (id : ℕ) → IsAlive roll.births entity
        → roll.marker entity.id ≡ Some id → ref_to roll entity ≡ living id }
    ensures stale { (roll : Roll) (entity : LifeAt) → ¬ (IsAlive roll.births entity) → ref_to roll entity ≡ gone }
{}

/// Where no two values of a scene stand under one id, a system that declares the ids of what it reads and writes is
/// lent just those; and the fragment that it sees there is the one of the scene that stands in the world.
pub fn a_system_is_lent_its_fragment<V>()
    ensures lent { (kinds : Kinds V) (access : Access) (position : ℕ) → StandApart kinds → AreKnown kinds access
        → IsLent kinds access position (map (id_of_place kinds) (read_places access))
        (map (id_of_place kinds) (written_places access position)) }
    ensures fragment { (kinds : Kinds V) (access : Access) (position : ℕ) (reads writes : List ResourceId)
        (w : Holding V) → IsLent kinds access position reads writes → IsWhole w
        → fragment_of kinds access (cut reads writes w) ≡ fragment access (plain_of kinds (seen_in w)) }
{}

/// The scene that stands in a world once a system gave back what it was lent is the one before with what it left put
/// in.
pub fn what_comes_back_is_put_in<V>()
    ensures { (kinds : Kinds V) (access : Access) (position : ℕ) (reads writes : List ResourceId)
        (w after later : Holding V) → IsLent kinds access position reads writes → IsWhole w
        → Leaves (cut reads writes w) after → ((id : ResourceId) → later id ≡ merged (after id) (w id))
        → plain_of kinds (seen_in later) ≡ with_left access (fragment_of kinds access after)
        (plain_of kinds (seen_in w)) }
{}

/// A part that is another at one index, or none any more, is so at the id of that index, and the scene is else as it
/// was.
pub fn a_part_at_an_index_is_one_at_its_id<V>()
    ensures { (kinds : Kinds V) (w now : Sight V) (kind : Name) (id index : ℕ) (part : Option Stored)
        → let roll = roll_of kinds w in IsRoll roll → is_among kind kinds.part_names ≡ true → id_at roll index
        ≡ Some id → SetsPart kinds kind index part w now → plain_of kinds now ≡ record (plain_of kinds w)
        { part = with_part id kind (option_map (part_under (ref_to roll)) part) (plain_of kinds w).part } }
{}

/// The death of an entity with its parts takes its id out of the scene: references to it are gone, and so they stay. A
/// kill is the deaths of all that it takes, one after another.
pub fn a_death_takes_one_out<V>()
    ensures roll { (kinds : Kinds V) (w later : Sight V) (id here : ℕ) → IsRoll (roll_of kinds w)
        → id_at (roll_of kinds w) here ≡ Some id → Buries kinds id here w later → IsRoll (roll_of kinds later) }
    ensures lived { (kinds : Kinds V) (w : Sight V) (id index : ℕ) → IsRoll (roll_of kinds w)
        → id_at (roll_of kinds w) index ≡ Some id → lives id (plain_of kinds w).ids ≡ true }
    ensures scene { (kinds : Kinds V) (w later : Sight V) (id index : ℕ) → IsRoll (roll_of kinds w)
        → id_at (roll_of kinds w) index ≡ Some id → Buries kinds id index w later
        → plain_of kinds later ≡ without (λ one. one == id) (plain_of kinds w) }
{}

/// A birth under the id that comes next is a spawn of the parts that the entity is given, where no part named it
/// before.
pub fn a_birth_is_a_spawn<V>()
    ensures roll { (kinds : Kinds V) (w later : Sight V) (entity : LifeAt) (parts : Name → Option Stored)
        → IsRoll (roll_of kinds w) → AreBelow (roll_of kinds w) → Bears kinds entity parts w later
        → IsRoll (roll_of kinds later) }
    ensures scene { (owning : List Name) (kinds : Kinds V) (w now : Sight V) (one : LifeAt)
        (parts : Name → Option Stored) (list : List (Name × Part)) → let roll = roll_of kinds w in
        IsRoll roll → AreBelow roll → Bears kinds one parts w now
        → HaveLiving (plain_of kinds w) list → HasNextId roll
        → AreGiven kinds w parts list → apply owning (spawn list) (plain_of kinds w) ≡ changed (plain_of kinds now) }
{}

/// The events of a world show nothing where nothing changed, and of one change after another both. Changes are told
/// after as before.
pub fn what_is_shown_of_a_world_adds_up<V>()
    ensures none { (kinds : Kinds V) (w : Sight V) → ShowsWorld kinds w w }
    ensures both { (kinds : Kinds V) (first second third : Sight V) → ShowsWorld kinds first second
        → ShowsWorld kinds second third → ShowsWorld kinds first third }
    ensures telling { (kinds : Kinds V) (w later : Sight V) → ShowsWorld kinds w later → TellsAll kinds w
        → TellsAll kinds later }
{}

/// Time goes on where nothing happens, by one thing after another, by a death, and by a birth of somebody who was not
/// born before.
pub fn time_goes_on()
    ensures none { (roll : Roll) → Ages roll roll }
    ensures both { (first second third : Roll) → Ages first second → Ages second third → Ages first third }
    ensures death { (before after : Roll) (index : ℕ)
        → ((at : ℕ) → count before.births at ≤ count after.births at)
        → ((at : ℕ) → life_at after.births at ≡ but_at index None (life_at before.births) at)
        → ((at : ℕ) → after.marker at ≡ but_at index None before.marker at) → Ages before after }
    ensures birth { (before after : Roll) (entity : LifeAt) (given : ℕ) → ¬ (WasBornIn before.births entity)
        → ((at : ℕ) → count before.births at ≤ count after.births at)
        → ((at : ℕ) → life_at after.births at ≡ but_at entity.id (Some entity.generation) (life_at before.births) at)
        → ((at : ℕ) → after.marker at ≡ but_at entity.id (Some given) before.marker at) → Ages before after }
{}

/// A plan of systems that runs over a world in which a scene stands is the chain of their turns over the scene, in the
/// plan's order: the scene that stands in the world after is the one to which they lead, and the queue of each
/// position has the commands of its system. Where one stops the plan, it is the first that does so in that order.
pub fn a_plan_is_its_turns<R: Rules>(rules: &R)
    ensures { (at : ℕ → PlainSystem) (stages : List (Stage ResourceId)) (old new : State R.Value _)
        (stop : Option (ℕ × Stop)) → PlanIsLent (kinds_by R.Rules R.Value.SceneValue) at stages → StandBy
        R.Rules R.Value.SceneValue rules.now at old → StagesRun ⟦<Placed<R> as System<R::Value>>⟧.meets stages
        old stop new → ComeBy R.Rules R.Value.SceneValue rules.now at (plan_order at stages) old stop new }
{}
