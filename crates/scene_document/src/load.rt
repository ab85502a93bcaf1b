//! Reading a document.
ghost use Rattle.std.specs.Prelude.{◌≡◌, Ok, MatchResult};
ghost use Rattle.serde_json.specs.View.{view};
ghost use Rattle.scene_document.specs.Drafts.{Draft};
ghost use Rattle.scene_document.specs.DraftViews.{IsDraft, AreMade};
ghost use Rattle.scene_document.specs.Documents.{document_from};
ghost use Rattle.scene_document.specs.Apart.{IsApart};
ghost use Rattle.scene_model.specs.Parts.{Json};
ghost use Rattle.scene_document.specs.Loading.{IsNotLoaded};

use crate::loaded::{Limits, LoadError};
use crate::refusal::refusal;
use crate::{DocumentDraft, EntityDraft, has_float, read_draft, read_draft_with};
use scene_model::{DocRefusal, DocumentRules, ReadError};
use serde_json::Value;
use std::alloc::Global;

/// The draft of the document that a JSON is, where no refusal stands.
///
/// Errors: `Document` with the least refusal that stands; `Memory`.
pub fn read_document<'a, R: DocumentRules>(
    alloc: Global,
    rules: &R,
    limits: Limits,
    value: &'a Value,
) -> Result<DocumentDraft<'a, R::Data, R::Global, R::System>, LoadError>
    ensures { MatchResult result
        (λ draft. (plain : Draft)
        × (document_from (R.book rules.now) limits.indices (view value.now) ≡ Ok plain)
        × IsDraft R.part_of R.global_of R.kind_of R.config_of (R.book rules.now) plain draft
        × AreMade R.declared R.said_time (R.made_by rules.now) draft.entries.items)
        (IsNotLoaded (R.book rules.now) limits.indices (view value.now)) }
{
    if has_float(value) {
        return Err(LoadError::Document(DocRefusal::NotWhole));
    }
    let draft = match read_draft(alloc, rules, value) {
        Ok(draft) => draft,
        Err(ReadError::Shape) => return Err(LoadError::Document(DocRefusal::WrongShape)),
        Err(ReadError::Memory) => return Err(LoadError::Memory),
    };
    match refusal(alloc, rules, limits, &draft)? {
        Some(found) => Err(LoadError::Document(found)),
        None => Ok(draft),
    }
}

/// The draft of the document whose entities stand apart and were read, where no refusal stands: what they say, and the
/// rest of its JSON with null in their place.
///
/// Errors: those of `read_document`.
pub fn read_document_with<'a, R: DocumentRules>(
    alloc: Global,
    rules: &R,
    limits: Limits,
    rest: &'a Value,
    entities: Vec<EntityDraft<R::Data>>,
) -> Result<DocumentDraft<'a, R::Data, R::Global, R::System>, LoadError>
    ensures { (json : Json) → let book = R.book rules.now in IsApart R.part_of book json (view rest.now) entities.items
        → MatchResult result
        (λ draft. (one : Draft) × (document_from book limits.indices json ≡ Ok one)
        × IsDraft R.part_of R.global_of R.kind_of R.config_of book one draft
        × AreMade R.declared R.said_time (R.made_by rules.now) draft.entries.items)
        (IsNotLoaded book limits.indices json) }
{
    let draft = match read_draft_with(alloc, rules, rest, entities) {
        Ok(draft) => draft,
        Err(ReadError::Shape) => return Err(LoadError::Document(DocRefusal::WrongShape)),
        Err(ReadError::Memory) => return Err(LoadError::Memory),
    };
    match refusal(alloc, rules, limits, &draft)? {
        Some(found) => Err(LoadError::Document(found)),
        None => Ok(draft),
    }
}
