//! The tests of a document that has the right shape, and the least refusal that stands.
ghost use Rattle.std.specs.Prelude.{◌≡◌, ℕ, ◌≤◌, not, ◌||◌, ◌++◌, nat_lt, None, is_none, map, length, IfOk};
ghost use Rattle.std.specs.List.{list_any};
ghost use Rattle.std.specs.Str.{bytes_eq};
ghost use Rattle.scene_model.specs.Declaring.{texts, access_of};
ghost use Rattle.scene_model.specs.Scenes.{lives, IdsAscend};
ghost use Rattle.scene_document.specs.Drafts.{Draft};
ghost use Rattle.scene_document.specs.Documents.{refusal_of, has_double};
ghost use Rattle.scene_document.specs.DraftViews.{IsDraft};
ghost use Rattle.scene_model.specs.Ids.{ascending};
ghost use Rattle.scene_document.specs.Refusals.{datum_dangles, entity_dangles, asks_unknown, stands_for};
ghost use Rattle.scene_document.specs.Refusals.{lacks_declared, is_unmade, entry_that, has_unknown, declared_refusal};
ghost use Rattle.scene_document.specs.Refusals.{number_refusal, system_refusal, later_refusal, entity_refusal};
ghost use Rattle.scene_document.specs.Refusals.{draft_refusal};

use crate::ids::ids_of;
use crate::loaded::Limits;
use crate::names::{has_taken_name, has_unknown_dependency};
use crate::{CommandDraft, DocumentDraft, EntityDraft, EntryDraft};
use scene_model::{DocRefusal, DocumentRules, SystemAccess};
use std::alloc::{AllocError, Global};

/// Whether the name of one of them is not the rules'.
fn has_unknown<T: Drop>(all: &[Option<T>]) -> bool
    ensures { result ≡ list_any is_none all.now }
{
    all.iter().any(|one| one.is_none())
}

/// Whether the kind of a part is not the rules'.
fn has_unknown_part<D: Drop>(entities: &[EntityDraft<D>]) -> bool
    ensures { result ≡ list_any (λ entity. list_any is_none entity.parts.items) entities.now }
{
    entities.iter().any(|entity| has_unknown(&entity.parts))
}

/// Whether the kind of a command's part is not the rules'.
fn asks_unknown<D: Drop>(command: &CommandDraft<D>) -> bool
    ensures { result ≡ asks_unknown command.now }
{
    match command {
        CommandDraft::Spawn(parts) => has_unknown(parts),
        CommandDraft::Kill(_) => false,
        CommandDraft::Put(_, part) => part.is_none(),
        CommandDraft::Take(_, kind) => kind.is_none(),
    }
}

fn list_asks_unknown<D: Drop>(list: &[CommandDraft<D>]) -> bool
    ensures { result ≡ list_any asks_unknown list.now }
{
    list.iter().any(|command| asks_unknown(command))
}

/// Whether the kind of a part of some list of commands is not the rules'.
fn one_asks_unknown<D: Drop>(lists: &[Vec<CommandDraft<D>>]) -> bool
    ensures { result ≡ list_any (λ list. list_any asks_unknown list.items) lists.now }
{
    lists.iter().any(|list| list_asks_unknown(list))
}

/// Whether a part's kind, a global's name or a command's kind is not the rules'.
fn has_unknown_kind<D: Drop, G: Drop, S: Drop>(draft: &DocumentDraft<'_, D, G, S>) -> bool
    ensures { result ≡ has_unknown draft.now }
{
    has_unknown_part(&draft.entities)
        || has_unknown(&draft.globals)
        || one_asks_unknown(&draft.commands)
}

/// Whether the id of an entity is not below the next one.
fn has_id_past_next<D: Drop, G: Drop, S: Drop>(draft: &DocumentDraft<'_, D, G, S>) -> bool
    ensures { result ≡ list_any (λ entity. not (nat_lt entity.id draft.now.next)) draft.now.entities.items }
{
    let next = draft.next;
    draft.entities.iter().any(|entity| entity.id >= next)
}

fn is_listed(ids: &[u64], id: u64) -> bool
    requires { IdsAscend ids.now }
    ensures { result ≡ lives id ids.now }
{
    ids.binary_search(&id).is_ok()
}

fn lacks_id(ids: &[u64], wanted: &[u64]) -> bool
    requires { IdsAscend ids.now }
    ensures { result ≡ list_any (λ id. not (lives id ids.now)) wanted.now }
{
    wanted.iter().any(|id| !is_listed(ids, *id))
}

/// Whether a datum refers to an id that is not listed.
fn datum_dangles<R: DocumentRules>(
    alloc: Global,
    rules: &R,
    ids: &[u64],
    part: &Option<(usize, R::Data)>,
) -> Result<bool, AllocError>
    requires { IdsAscend ids.now }
    ensures { IfOk result (λ found. found ≡ datum_dangles R.part_of ids.now part.now) }
{
    let Some((_, datum)) = part else {
        return Ok(false);
    };
    let refs = rules.refs(alloc, datum)?;
    Ok(lacks_id(ids, &refs))
}

fn entity_dangles<R: DocumentRules>(
    alloc: Global,
    rules: &R,
    ids: &[u64],
    entity: &EntityDraft<R::Data>,
) -> Result<bool, AllocError>
    requires { IdsAscend ids.now }
    ensures { IfOk result (λ found. found ≡ entity_dangles R.part_of ids.now entity.now) }
{
    for part in &entity.parts {
        if datum_dangles(alloc, rules, ids, part)? {
            return Ok(true);
        }
    }
    Ok(false)
}

/// Whether an entity refers to an id that is not listed.
fn dangles<R: DocumentRules>(
    alloc: Global,
    rules: &R,
    ids: &[u64],
    draft: &DocumentDraft<'_, R::Data, R::Global, R::System>,
) -> Result<bool, AllocError>
    requires { IdsAscend ids.now }
    ensures { IfOk result (λ found.
        found ≡ list_any (entity_dangles R.part_of ids.now) draft.now.entities.items) }
{
    for entity in &draft.entities {
        if entity_dangles(alloc, rules, ids, entity)? {
            return Ok(true);
        }
    }
    Ok(false)
}

fn stands_for<G: Drop>(names: &[&'static str], name: &str, global: &Option<(usize, G)>) -> bool
    ensures { result ≡ stands_for (texts names.now) name.now global.now }
{
    match global {
        Some((place, _)) => *place < names.len() && names[*place] == name,
        None => false,
    }
}

fn is_given<G: Drop>(names: &[&'static str], globals: &[Option<(usize, G)>], name: &str) -> bool
    ensures { result ≡ list_any (stands_for (texts names.now) name.now) globals.now }
{
    globals.iter().any(|global| stands_for(names, name, global))
}

fn lacks_one<G: Drop>(
    names: &[&'static str],
    globals: &[Option<(usize, G)>],
    wanted: &[&'static str],
) -> bool
    ensures { result ≡ list_any (λ name. not (list_any (stands_for (texts names.now) name.now) globals.now))
        wanted.now }
{
    wanted.iter().any(|name| !is_given(names, globals, *name))
}

/// Whether a global that a system declares is not given.
fn lacks_global<G: Drop>(
    names: &[&'static str],
    globals: &[Option<(usize, G)>],
    accessor: &SystemAccess,
) -> bool
    ensures { result ≡ lacks_declared (texts names.now) globals.now (access_of accessor.now) }
{
    lacks_one(names, globals, &accessor.read_globals)
        || lacks_one(names, globals, &accessor.written_globals)
}

fn is_unmade<S: Drop>(entry: &EntryDraft<'_, S>) -> bool
    ensures { result ≡ is_unmade entry.now }
{
    match entry {
        EntryDraft::Barrier => false,
        EntryDraft::System(system) => system.made.is_none(),
    }
}

/// Whether the kind of a system is not the rules'.
fn has_unknown_system<S: Drop>(entries: &[EntryDraft<'_, S>]) -> bool
    ensures { result ≡ list_any is_unmade entries.now }
{
    entries.iter().any(|entry| is_unmade(entry))
}

fn entry_lacks_global<G: Drop, S: Drop>(
    names: &[&'static str],
    globals: &[Option<(usize, G)>],
    entry: &EntryDraft<'_, S>,
) -> bool
    ensures { result ≡ entry_that (λ accessor. lacks_declared (texts names.now) globals.now (access_of accessor))
        entry.now }
{
    let EntryDraft::System(system) = entry else {
        return false;
    };
    match &system.made {
        None => false,
        Some(made) => lacks_global(names, globals, &made.accessor),
    }
}

/// Whether a system declares a global that is not given.
fn one_lacks_global<G: Drop, S: Drop>(
    names: &[&'static str],
    globals: &[Option<(usize, G)>],
    entries: &[EntryDraft<'_, S>],
) -> bool
    ensures { result ≡ list_any (entry_that (λ accessor. lacks_declared (texts names.now) globals.now
        (access_of accessor))) entries.now }
{
    entries
        .iter()
        .any(|entry| entry_lacks_global(names, globals, entry))
}

fn entry_writes_reserved<S: Drop>(entry: &EntryDraft<'_, S>) -> bool
    ensures { result ≡ entry_that (λ accessor. accessor.writes_reserved) entry.now }
{
    let EntryDraft::System(system) = entry else {
        return false;
    };
    match &system.made {
        None => false,
        Some(made) => made.accessor.writes_reserved,
    }
}

/// Whether a system declares a write to entities or markers.
fn one_writes_reserved<S: Drop>(entries: &[EntryDraft<'_, S>]) -> bool
    ensures { result ≡ list_any (entry_that (λ accessor. accessor.writes_reserved)) entries.now }
{
    entries.iter().any(|entry| entry_writes_reserved(entry))
}

/// The least refusal for systems, or none.
fn system_refusal<G: Drop, S: Drop>(
    alloc: Global,
    names: &[&'static str],
    globals: &[Option<(usize, G)>],
    entries: &[EntryDraft<'_, S>],
) -> Result<Option<DocRefusal>, AllocError>
    ensures { IfOk result (λ found. found ≡ system_refusal (texts names.now) globals.now entries.now) }
{
    if has_unknown_system(entries) {
        return Ok(Some(DocRefusal::UnknownSystem));
    }
    let taken = has_taken_name(alloc, entries)?;
    if taken {
        return Ok(Some(DocRefusal::NameTaken));
    }
    let unknown = has_unknown_dependency(alloc, entries)?;
    if unknown {
        return Ok(Some(DocRefusal::UnknownDependency));
    }
    Ok(declared_refusal(names, globals, entries))
}

/// The least refusal for what systems declare, or none.
fn declared_refusal<G: Drop, S: Drop>(
    names: &[&'static str],
    globals: &[Option<(usize, G)>],
    entries: &[EntryDraft<'_, S>],
) -> Option<DocRefusal>
    ensures { result ≡ declared_refusal (texts names.now) globals.now entries.now }
{
    if one_lacks_global(names, globals, entries) {
        return Some(DocRefusal::MissingGlobal);
    }
    if one_writes_reserved(entries) {
        return Some(DocRefusal::ReservedWrite);
    }
    None
}

/// The least refusal for the numbers of a draft, or none.
fn number_refusal<D: Drop, G: Drop, S: Drop>(
    limits: Limits,
    draft: &DocumentDraft<'_, D, G, S>,
) -> Option<DocRefusal>
    ensures { result ≡ number_refusal limits.indices draft.now }
{
    if draft.workers > 64 {
        return Some(DocRefusal::TooManyWorkers);
    }
    if draft.entries.len() > 4_096 {
        return Some(DocRefusal::TooManySystems);
    }
    if draft.store.is_none() {
        return Some(DocRefusal::UnknownStore);
    }
    if draft.entities.len() > limits.indices as usize {
        return Some(DocRefusal::TooManyEntities);
    }
    None
}

/// The least refusal for the entities of a draft, or none.
fn entity_refusal<R: DocumentRules>(
    alloc: Global,
    rules: &R,
    draft: &DocumentDraft<'_, R::Data, R::Global, R::System>,
) -> Result<Option<DocRefusal>, AllocError>
    ensures { IfOk result (λ found. found ≡ entity_refusal R.part_of draft.now) }
{
    if has_unknown_kind(draft) {
        return Ok(Some(DocRefusal::UnknownKind));
    }
    let ids = ids_of(alloc, &draft.entities)?;
    if ids.len() < draft.entities.len() {
        return Ok(Some(DocRefusal::DoubleId));
    }
    if has_id_past_next(draft) {
        return Ok(Some(DocRefusal::IdNotBelowNext));
    }
    if dangles(alloc, rules, &ids, draft)? {
        return Ok(Some(DocRefusal::Dangling));
    }
    Ok(None)
}

/// The least refusal for the systems and numbers of a draft, or none.
fn later_refusal<D: Drop, G: Drop, S: Drop>(
    alloc: Global,
    names: &[&'static str],
    limits: Limits,
    draft: &DocumentDraft<'_, D, G, S>,
) -> Result<Option<DocRefusal>, AllocError>
    ensures { IfOk result (λ found. found ≡ later_refusal (texts names.now) limits.indices draft.now) }
{
    match system_refusal(alloc, names, &draft.globals, &draft.entries)? {
        Some(found) => Ok(Some(found)),
        None => Ok(number_refusal(limits, draft)),
    }
}

fn draft_refusal<R: DocumentRules>(
    alloc: Global,
    rules: &R,
    limits: Limits,
    draft: &DocumentDraft<'_, R::Data, R::Global, R::System>,
) -> Result<Option<DocRefusal>, AllocError>
    ensures { IfOk result (λ found.
        found ≡ draft_refusal R.part_of (R.book rules.now).global_names limits.indices draft.now) }
{
    match entity_refusal(alloc, rules, draft)? {
        Some(found) => Ok(Some(found)),
        None => later_refusal(alloc, rules.global_names(), limits, draft),
    }
}

/// The least refusal of a draft, or none.
///
/// Errors: for want of memory.
pub fn refusal<R: DocumentRules>(
    alloc: Global,
    rules: &R,
    limits: Limits,
    draft: &DocumentDraft<'_, R::Data, R::Global, R::System>,
) -> Result<Option<DocRefusal>, AllocError>
    ensures { IfOk result (λ found. (plain : Draft)
        → IsDraft R.part_of R.global_of R.kind_of R.config_of (R.book rules.now) plain draft.now
        → found ≡ refusal_of limits.indices plain) }
{
    draft_refusal(alloc, rules, limits, draft)
}
