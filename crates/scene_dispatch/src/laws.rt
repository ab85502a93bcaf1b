//! Laws of systems at their positions, staged and local. The functions have no code; each contract is the law.
ghost use Rattle.std.specs.Prelude.{◌≡◌, ℕ, List, Option, map, ◌≢◌, ◌≤◌, ◌++◌, ◌∷◌, [], true, false, length, All};
ghost use Rattle.std.specs.Prelude.{None, Some, Ok};
ghost use Rattle.shred_world.specs.declared.resource_id.ResourceId.{ResourceId, ResourceId as Id};
ghost use Rattle.shred_world.specs.Bundles.{Holding};
ghost use Rattle.shred_plan.specs.Plan.{Stage, Placing, conflict, plan, order};
ghost use Rattle.shred_stages.specs.declared.stop.Stop.{Stop};
ghost use Rattle.shred_stages.specs.Runs.{State, StagesRun};
ghost use Rattle.shred.specs.Locals.{LocalsRun};
ghost use Rattle.scene_world.specs.Chains.{plan_order, PlanIsLent, EachAt};
ghost use Rattle.scene_dispatch.specs.Works.{HasNoBatch, without_batches};
ghost use Rattle.shred.specs.Building.{nothing_built, refusal};
ghost use Rattle.shred.specs.Dispatchers.{Drafting, dispatcher_of};
ghost use Rattle.shred.specs.Histories.{Asked, told};
ghost use Rattle.scene_model.specs.Parts.{Json};
ghost use Rattle.scene_model.specs.Rulebook.{Access};
ghost use Rattle.scene_model.specs.Scenes.{PlainSystem};
ghost use Rattle.scene_document.specs.Drafts.{Draft, DraftEntry, DraftSystem, barrier, system};
ghost use Rattle.scene_document.specs.Documents.{document_from};
ghost use Rattle.scene_document.specs.Openings.{Resource, same_resource, staged_list, staged_systems, frames_of};
ghost use Rattle.scene_world.specs.Standing.{Kinds};
ghost use Rattle.scene_world.specs.Lent.{StandApart, AreKnown};
ghost use Rattle.scene_dispatch.specs.Alike.{Beside, AreAlike, HaveOneShape, to_one, to_other};
ghost use Rattle.scene_dispatch.specs.Declaring.{DeclareOne};
ghost use Rattle.scene_dispatch.specs.Entries.{AreNamed, IsSaid, systems_among, meant_at};
ghost use Rattle.scene_dispatch.specs.Told.{AllKnown, told_entries};
ghost use Rattle.scene_dispatch.specs.Asked.{asked_entries, asked_as, IsDraftedOf};
ghost use Rattle.scene_dispatch.specs.Asked.{GoesOnToBarriers, GoesOnToStaged, GoesOnToLocals};
ghost use Rattle.scene_dispatch.specs.Entries.{dispatched_order};
ghost use Rattle.scene_dispatch.specs.Members.{LocalsAreLent, LocalsStand, LocalsCome};

use crate::PlacedLocal;
use scene_model::DocumentRules;
use scene_world::Rules;
use shred::{RunNow, System, Work};
use shred_world::ResourceId;

/// Where there is no batch, a plan's run of systems and batches is its run of the systems.
pub fn without_batches_a_plan_is_its_systems<V, S: System<V>, B: System<V>>()
    ensures { (stages : List (Stage ResourceId)) (before after : State V (Work S B)) (refused : Option (ℕ × Stop))
        → HasNoBatch before.systems → StagesRun ⟦<Work<S, B> as System<V>>⟧.meets stages before refused after
        → HasNoBatch after.systems
        × StagesRun S.meets stages (without_batches before) refused (without_batches after) }
{}

/// Local systems that run over a world in which a scene stands are the chain of their turns over the scene, in their order.
/// Where one stops them, it is the first that does so.
pub fn local_systems_take_their_turns<R: Rules>(rules: &R)
where
    R::Value: Drop,
    ensures { (locals left : List _) (before after : Holding R.Value) (refused : Option (ℕ × Stop))
        → LocalsAreLent R.Rules R.Value.SceneValue locals
        → LocalsStand R.Rules R.Value.SceneValue locals rules.now before
        → LocalsRun ⟦<PlacedLocal<R> as RunNow<R::Value>>⟧.meets 0 locals before refused left after
        → LocalsCome R.Rules R.Value.SceneValue locals rules.now before refused left after }
{}

/// Two planners that are told alike, whatever their ids are, make plans of one shape: stage for stage and group for
/// group the partner of each system stands at the system's place. So both have one order.
pub fn alike_lists_have_alike_plans<K: PartialEq + Drop, L: PartialEq + Drop>()
    ensures shape { (list : List (Beside K L)) → AreAlike K.eq L.eq list
        → HaveOneShape list (plan K.eq (map to_one list)) (plan L.eq (map to_other list)) }
    ensures order { (list : List (Beside K L)) → AreAlike K.eq L.eq list
        → order L.eq (map to_other list) ≡ order K.eq (map to_one list) }
{}

/// Where no two values of a scene stand under one id, systems at different positions that declare what the rules know
/// conflict by the ids of what they are lent just where they conflict by what they declare.
pub fn systems_conflict_by_what_they_declare<V>()
    ensures { (kinds : Kinds V) (access another : Access) (position place : ℕ) (one two : Placing Resource)
        (other second : Placing Id) → StandApart kinds → AreKnown kinds access → AreKnown kinds another
        → position ≢ place → DeclareOne kinds access position one other → DeclareOne kinds another place two second
        → conflict same_resource one two ≡ conflict ⟦<ResourceId as PartialEq>⟧.eq other second }
{}

/// The systems of a plan that is told what a document's entries say run in the order of the document, and each
/// declares what it is lent.
pub fn the_order_is_the_documents<V>()
    ensures order { (kinds : Kinds V) (draft : Draft) → StandApart kinds → AllKnown kinds draft.entries
        → plan_order (meant_at draft.entries) (plan ⟦<ResourceId as PartialEq>⟧.eq (told_entries kinds draft.entries))
        ≡ staged_systems draft }
    ensures lent { (kinds : Kinds V) (draft : Draft) → StandApart kinds → AllKnown kinds draft.entries
        → PlanIsLent kinds (meant_at draft.entries)
        (plan ⟦<ResourceId as PartialEq>⟧.eq (told_entries kinds draft.entries)) }
{}

/// A builder that is asked for what entries say, one after the other, tells the planner so.
pub fn a_builder_tells_what_it_is_asked<V, S>()
    ensures { (kinds : Kinds V) (plain : S → PlainSystem) (list : List (Asked S)) (entries : List DraftEntry)
        → AreNamed entries → map (asked_as plain) list ≡ asked_entries kinds 1 entries
        → told ⟦<ResourceId as PartialEq>⟧.eq nothing_built list ≡ told_entries kinds entries }
{}

/// A builder goes on from entries to one more: to a barrier, to a staged system, and to a local one.
pub fn a_builder_goes_on_with_entries<V, S, L>()
    ensures begins { (kinds : Kinds V) (plain : S → PlainSystem) (plain_local : L → PlainSystem) (workers : ℕ)
        → IsDraftedOf kinds ⟦<ResourceId as PartialEq>⟧.eq plain plain_local []
        (record { building = nothing_built; locals = []; workers = workers }) }
    ensures barrier { (kinds : Kinds V) (plain : S → PlainSystem) (plain_local : L → PlainSystem)
        → GoesOnToBarriers kinds ⟦<ResourceId as PartialEq>⟧.eq plain plain_local }
    ensures staged { (kinds : Kinds V) (plain : S → PlainSystem) (plain_local : L → PlainSystem)
        → GoesOnToStaged kinds ⟦<ResourceId as PartialEq>⟧.eq plain plain_local }
    ensures local { (kinds : Kinds V) (plain : S → PlainSystem) (plain_local : L → PlainSystem)
        → GoesOnToLocals kinds ⟦<ResourceId as PartialEq>⟧.eq plain plain_local }
{}

/// Nothing but want of memory stands against a system of a document, once a builder has the entries before it: its name
/// is free, those that it comes after are there, and there is room.
pub fn a_builder_takes_the_systems_of_a_document<V, S, L>()
    ensures { (kinds : Kinds V) (plain : S → PlainSystem) (plain_local : L → PlainSystem)
        (entries early later : List DraftEntry) (one : DraftSystem)
        (drafting : Drafting S L) → AreNamed entries → length entries ≤ 65536 → entries ≡ early ++ system one ∷ later
        → IsDraftedOf kinds ⟦<ResourceId as PartialEq>⟧.eq plain plain_local early drafting
        → refusal drafting.building one.name one.after ≡ None }
{}

/// The systems of the dispatcher that is built are the staged ones in their order, each the one that is meant by its
/// number. In the order of the plan, and then the local ones, they are those of each frame of the document; and each
/// declares what it is lent.
pub fn a_dispatcher_runs_as_the_document_says<V, S, L>()
    ensures systems { (kinds : Kinds V) (plain : S → PlainSystem) (plain_local : L → PlainSystem)
        (entries : List DraftEntry) (drafting : Drafting S L)
        → IsDraftedOf kinds ⟦<ResourceId as PartialEq>⟧.eq plain plain_local entries drafting
        → map plain (dispatcher_of drafting).staging.systems ≡ staged_list 1 entries }
    ensures meant { (kinds : Kinds V) (plain : S → PlainSystem) (plain_local : L → PlainSystem)
        (entries : List DraftEntry) (drafting : Drafting S L)
        → IsDraftedOf kinds ⟦<ResourceId as PartialEq>⟧.eq plain plain_local entries drafting
        → EachAt (λ number one. plain one ≡ meant_at entries number) (dispatcher_of drafting).staging.systems }
    ensures order { (kinds : Kinds V) (plain : S → PlainSystem) (plain_local : L → PlainSystem) (draft : Draft)
        (drafting : Drafting S L) (frame : ℕ) → StandApart kinds → AllKnown kinds draft.entries → AreNamed
        draft.entries → IsDraftedOf kinds ⟦<ResourceId as PartialEq>⟧.eq plain plain_local draft.entries
        drafting → dispatched_order plain_local draft.entries drafting ≡ (frames_of draft frame).order }
    ensures lent { (kinds : Kinds V) (plain : S → PlainSystem) (plain_local : L → PlainSystem)
        (draft : Draft) (drafting : Drafting S L)
        → StandApart kinds → AllKnown kinds draft.entries → AreNamed draft.entries
        → IsDraftedOf kinds ⟦<ResourceId as PartialEq>⟧.eq plain plain_local draft.entries drafting
        → PlanIsLent kinds (meant_at draft.entries) (dispatcher_of drafting).staging.planning.stages }
{}

/// The entries of a document are named, there are no more than 4096, and what is known of its systems is what the rules
/// say.
pub fn documents_name_their_systems<R: DocumentRules>(rules: &R)
    ensures named { (indices : ℕ) (json : Json) (draft : Draft)
        → document_from (R.book rules.now) indices json ≡ Ok draft → AreNamed draft.entries }
    ensures few { (indices : ℕ) (json : Json) (draft : Draft)
        → document_from (R.book rules.now) indices json ≡ Ok draft → length draft.entries ≤ 4096 }
    ensures said { (indices : ℕ) (json : Json) (draft : Draft)
        → document_from (R.book rules.now) indices json ≡ Ok draft
        → All (IsSaid (R.book rules.now)) (systems_among draft.entries) }
{}

/// The systems of a document declare kinds and globals that stand in a world under the names of the rules.
pub fn documents_declare_what_is_known<V, R: DocumentRules>(rules: &R)
    ensures { (kinds : Kinds V) (indices : ℕ) (json : Json) (draft : Draft)
        → kinds.part_names ≡ (R.book rules.now).part_names → kinds.global_names ≡ (R.book rules.now).global_names
        → document_from (R.book rules.now) indices json ≡ Ok draft → AllKnown kinds draft.entries }
{}
