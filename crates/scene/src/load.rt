//! A document is put into a world, with its systems on a dispatcher.
ghost use Rattle.std.specs.Prelude.{◌≡◌, ◌≤◌, ℕ, unsigned_abs, List, All, length};
ghost use Rattle.std.specs.Prelude.{map, Some, Ok, IfOk, OnOk, MatchResult};
ghost use Rattle.serde_json.specs.View.{view};
ghost use Rattle.scene_model.specs.Parts.{Json};
ghost use Rattle.scene_model.specs.Lawful.{IsLawful};
ghost use Rattle.scene_document.specs.Drafts.{Draft};
ghost use Rattle.scene_document.specs.DraftViews.{IsDraft};
ghost use Rattle.scene_document.specs.Apart.{IsApart};
ghost use Rattle.scene_document.specs.Documents.{refusal_of, document_from};
ghost use Rattle.scene_document.specs.declared.loaded.LoadError.TheVariants.{Memory};
ghost use Rattle.scene_document.specs.Openings.{first_scene, frames_of, all_systems};
ghost use Rattle.scene_document.specs.Loading.{commands_at, IsNotLoaded};
ghost use Rattle.scene_document.specs.Texts.{json_of};
ghost use Rattle.scene_world.specs.Standing.{IsSceneWorld, roll_of};
ghost use Rattle.scene_commands.specs.Acts.{seen_of};
ghost use Rattle.scene_commands.specs.Bounds.{IsBounded, unlisted_in};
ghost use Rattle.scene_commands.specs.Members.{scene_in};
ghost use Rattle.scene_world.specs.Turns.{IsOfBook};
ghost use Rattle.scene_world.specs.Members.{kinds_by, placed_by};
ghost use Rattle.scene_dispatch.specs.Orders.{turn_order};
ghost use Rattle.scene.specs.Waiting.{NoneWaits};
ghost use Rattle.scene.specs.Limits.{AreLimits, Bounds};
ghost use Rattle.scene.specs.Outcomes.{IsNoDocument};
ghost use Rattle.scene.specs.Running.{IsUnrefused, IsOpenable, IsAlone, IsReadAs, course_of};
ghost use Rattle.scene.specs.Members.{IsPlacedBy, IsPreparedBy};

use scene_commands::load_world;
use scene_dispatch::{SceneDispatcher, open_queues, places_of_systems, stage_systems};
use scene_document::{
    ApartDocument, DocumentDraft, JsonError, Limits, LoadError, commands_of, read_apart,
    read_document, read_document_with, read_json,
};
use scene_model::{Command, DocRefusal};
use scene_world::{Rules, Store};
use serde_json::Value;
use shred_world::World;
use std::alloc::{AllocError, Global};

/// The systems of a document, the commands that it has for its frames, and how many frames it asks for.
#[derive(Drop)]
pub(crate) struct Course<R: Rules> {
    pub(crate) dispatcher: SceneDispatcher<R>,
    pub(crate) commands: Vec<Vec<Command<R::Data>>>,
    pub(crate) asked: u32,
}

/// The JSON of a document: its entities apart from the rest of it, or as a whole.
#[derive(Drop)]
pub(crate) enum ReadDocument<D> {
    Apart(ApartDocument<D>),
    Whole(Value),
}

/// A document that was read, with its systems on a dispatcher, and the draft of its scene alone. It stands in no world yet,
/// and holds on to no JSON.
#[derive(Drop)]
pub(crate) struct Prepared<R: Rules> {
    pub(crate) draft: DocumentDraft<'static, R::Data, R::Global, R::System>,
    pub(crate) store: Store,
    pub(crate) places: Vec<u32>,
    pub(crate) course: Course<R>,
}

/// A document that stands in a world, with its systems on a dispatcher, and how many ids below its next one it doesn't list.
/// Nothing is kept of its scene yet.
#[derive(Drop)]
pub(crate) struct Opened<R: Rules>
where
    R::Value: Drop,
{
    pub(crate) world: World<R::Value>,
    pub(crate) unlisted: u64,
    pub(crate) places: Vec<u32>,
    pub(crate) course: Course<R>,
}

/// The world in which the scene of a draft stands, in storages of this store, with an empty queue at each of these places.
/// Errors: want of memory.
fn open_in_world<R: Rules>(
    rules: &R,
    limits: Limits,
    store: Store,
    draft: &DocumentDraft<'_, R::Data, R::Global, R::System>,
    places: &[u32],
    alloc: Global,
) -> Result<World<R::Value>, AllocError>
where
    R::Value: Drop,
    requires limits { AreLimits limits }
    requires document { IsOpenable R.part_of R.global_of R.kind_of R.config_of (R.book rules.now) draft.now }
    ensures stands { IfOk result (λ world. IsSceneWorld (kinds_by R.Rules R.Value.SceneValue) (R.book rules.now)
        (seen_of world)) }
    ensures none { IfOk result (λ world. NoneWaits (kinds_by R.Rules R.Value.SceneValue) (seen_of world)) }
    ensures scene { IfOk result (λ world. (plain : Draft) → (indices : ℕ)
        → IsDraft R.part_of R.global_of R.kind_of R.config_of (R.book rules.now) plain draft.now
        → refusal_of indices plain ≡ None → scene_in R.Rules R.Value.SceneValue world ≡ first_scene plain) }
    ensures bounded { IfOk result (λ world. (plain : Draft) → (indices : ℕ)
        → IsDraft R.part_of R.global_of R.kind_of R.config_of (R.book rules.now) plain draft.now
        → refusal_of indices plain ≡ None
        → IsBounded limits.indices (unsigned_abs limits.generation) (unlisted_in plain)
        (roll_of (kinds_by R.Rules R.Value.SceneValue) (seen_of world))) }
{
    let births = limits.generation.unsigned_abs();
    let mut world = load_world(rules, store, (limits.indices, births), draft, alloc)?;
    open_queues::<R>(&mut world, places, alloc)?;
    Ok(world)
}

/// The JSON that bytes are, its entities apart from the rest of it where the document is plain.
///
/// Errors: `Document` with `Unreadable` where they are no JSON; `Memory`.
pub(crate) fn read_apart_or_whole<R: Rules>(
    alloc: Global,
    rules: &R,
    bytes: &[u8],
) -> Result<ReadDocument<R::Data>, LoadError>
    ensures { MatchResult result (λ read. (json : Json) × (json_of bytes.now ≡ Some json)
        × IsReadAs R.part_of (R.book rules.now) json read)
        (λ error. (bounds : Bounds) → IsNoDocument (R.book rules.now) bounds bytes.now error) }
{
    match read_apart(alloc, rules, bytes) {
        Ok(Some(apart)) => return Ok(ReadDocument::Apart(apart)),
        Ok(None) => {}
        Err(_) => return Err(LoadError::Memory),
    }
    match read_json(alloc, bytes) {
        Ok(value) => Ok(ReadDocument::Whole(value)),
        Err(JsonError::Unreadable) => Err(LoadError::Document(DocRefusal::Unreadable)),
        Err(JsonError::Memory) => Err(LoadError::Memory),
    }
}

/// A document whose draft was read, ready to be put into a world. Nothing that is answered holds on to the JSON that the
/// draft was read of, so that it can be let go before the world is filled. Errors: `Memory`.
fn prepare_draft<R: Rules>(
    alloc: Global,
    rules: &R,
    draft: DocumentDraft<'_, R::Data, R::Global, R::System>,
) -> Result<Prepared<R>, LoadError>
where
    R::Value: Drop,
    requires document { IsUnrefused R.part_of R.global_of R.kind_of R.config_of
        R.declared R.said_time (R.made_by rules.now) (R.book rules.now) draft }
    ensures { MatchResult result (λ prepared. (limits : Limits) → (json : Json) → (plain : Draft)
        → document_from (R.book rules.now) limits.indices json ≡ Ok plain
        → IsDraft R.part_of R.global_of R.kind_of R.config_of (R.book rules.now) plain draft.entry
        → IsPreparedBy R.Rules rules.now limits json prepared) (λ error. error ≡ Memory) }
{
    let Ok(places) = places_of_systems(draft.entries.as_slice(), alloc) else {
        return Err(LoadError::Memory);
    };
    let Some(store) = draft.store else {
        return Err(LoadError::Document(DocRefusal::UnknownStore));
    };
    let Ok((course, draft)) = course_of(rules, draft, alloc) else {
        return Err(LoadError::Memory);
    };
    Ok(Prepared {
        draft,
        store,
        places,
        course,
    })
}

/// A document that was read as JSON, ready to be put into a world. Nothing that is answered holds on to the JSON, so that it
/// can be let go before the world is filled.
///
/// Errors: `Document`, with the least refusal that stands; `Memory`.
pub(crate) fn prepare_document<R: Rules>(
    alloc: Global,
    rules: &R,
    limits: Limits,
    value: &Value,
) -> Result<Prepared<R>, LoadError>
where
    R::Value: Drop,
    ensures { MatchResult result (IsPreparedBy R.Rules rules.now limits (view value.now))
        (IsNotLoaded (R.book rules.now) limits.indices (view value.now)) }
{
    let draft = read_document(alloc, rules, limits, value)?;
    prepare_draft(alloc, rules, draft)
}

/// A document whose entities stand apart, ready to be put into a world. The rest of its JSON is let go.
///
/// Errors: those of `prepare_document`.
fn prepare_apart<R: Rules>(
    alloc: Global,
    rules: &R,
    limits: Limits,
    apart: ApartDocument<R::Data>,
) -> Result<Prepared<R>, LoadError>
where
    R::Value: Drop,
    requires { (json : Json) × IsApart R.part_of (R.book rules.now) json (view apart.rest) apart.entities.items }
    ensures { (json : Json) → IsApart R.part_of (R.book rules.now) json (view apart.rest) apart.entities.items
        → MatchResult result (IsPreparedBy R.Rules rules.now limits json)
        (IsNotLoaded (R.book rules.now) limits.indices json) }
{
    let ApartDocument { rest, entities } = apart;
    let draft = read_document_with(alloc, rules, limits, &rest, entities)?;
    prepare_draft(alloc, rules, draft)
}

/// A document that was read, ready to be put into a world. Its JSON is let go.
///
/// Errors: those of `prepare_document`.
pub(crate) fn prepare_read<R: Rules>(
    alloc: Global,
    rules: &R,
    limits: Limits,
    read: ReadDocument<R::Data>,
) -> Result<Prepared<R>, LoadError>
where
    R::Value: Drop,
    requires { (json : Json) × IsReadAs R.part_of (R.book rules.now) json read }
    ensures { (json : Json) → IsReadAs R.part_of (R.book rules.now) json read
        → MatchResult result (IsPreparedBy R.Rules rules.now limits json)
        (IsNotLoaded (R.book rules.now) limits.indices json) }
{
    match read {
        ReadDocument::Apart(apart) => prepare_apart(alloc, rules, limits, apart),
        ReadDocument::Whole(value) => prepare_document(alloc, rules, limits, &value),
    }
}

/// A document that was prepared, put into a world. Errors: `Memory`.
pub(crate) fn place_document<R: Rules>(
    alloc: Global,
    rules: &R,
    limits: Limits,
    prepared: Prepared<R>,
) -> Result<Opened<R>, LoadError>
where
    R::Value: Drop,
    requires limits { AreLimits limits }
    requires prepared { (json : Json) × IsPreparedBy R.Rules rules.now limits json prepared }
    ensures { MatchResult result (λ one. (json : Json) → IsPreparedBy R.Rules rules.now limits json prepared
        → IsPlacedBy R.Rules R.Value.SceneValue rules.now limits json one) (λ why. why ≡ Memory) }
{
    let Prepared {
        draft,
        store,
        places,
        course,
    } = prepared;
    let Ok(world) = open_in_world(rules, limits, store, &draft, places.as_slice(), alloc) else {
        return Err(LoadError::Memory);
    };
    let unlisted = draft.next.saturating_sub(draft.entities.len() as u64);
    Ok(Opened {
        world,
        unlisted,
        places,
        course,
    })
}

/// The course of a draft, and the draft of its scene alone. Errors: want of memory.
fn course_of<R: Rules>(
    rules: &R,
    draft: DocumentDraft<'_, R::Data, R::Global, R::System>,
    alloc: Global,
) -> Result<
    (
        Course<R>,
        DocumentDraft<'static, R::Data, R::Global, R::System>,
    ),
    AllocError,
>
where
    R::Value: Drop,
    requires document { IsUnrefused R.part_of R.global_of R.kind_of R.config_of
        R.declared R.said_time (R.made_by rules.now) (R.book rules.now) draft }
    ensures frames { IfOk result (λ drawn. (plain : Draft) → (frame : ℕ) → IsDraft R.part_of R.global_of
        R.kind_of R.config_of (R.book rules.now) plain draft.entry → frames_of plain frame ≡ course_of R.part_of
        (turn_order (placed_by R.Rules).plain drawn.0.dispatcher) drawn.0.commands.items frame) }
    ensures lawful { IfOk result (λ drawn. (frame : ℕ)
        → All (IsLawful (R.book rules.now)) (commands_at R.part_of drawn.0.commands.items frame)) }
    ensures staged { IfOk result
        (λ drawn. All (IsOfBook (placed_by R.Rules) (R.book rules.now)) drawn.0.dispatcher.staging.systems) }
    ensures locals { IfOk result
        (λ drawn. All (IsOfBook (placed_by R.Rules) (R.book rules.now)) drawn.0.dispatcher.locals) }
    ensures alone { IfOk result (λ drawn. IsAlone draft.entry drawn.1) }
    ensures asked { IfOk result (λ drawn. drawn.0.asked ≡ draft.entry.frames) }
    ensures workers { IfOk result (λ drawn. drawn.0.dispatcher.workers ≡ draft.entry.workers) }
{
    let DocumentDraft {
        next,
        entities,
        globals,
        entries,
        frames,
        commands,
        workers,
        store: _,
    } = draft;
    let alone = DocumentDraft {
        next,
        entities,
        globals,
        entries: Vec::new(alloc),
        frames: 0,
        commands: Vec::new(alloc),
        workers: 0,
        store: Some(Store::Vec),
    };
    let commands = commands_of::<R>(alloc, commands)?;
    let dispatcher = stage_systems(rules, entries, workers as usize, alloc)?;
    let course = Course {
        dispatcher,
        commands,
        asked: frames,
    };
    Ok((course, alone))
}
