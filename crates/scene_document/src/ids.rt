//! The ids that a document lists.
ghost use Rattle.std.specs.Prelude.{◌≡◌, map, length, nat_lt, IfOk, IfSome};
ghost use Rattle.scene_model.specs.Ids.{ascending};
ghost use Rattle.scene_model.specs.Scenes.{IdsAscend};
ghost use Rattle.scene_document.specs.Documents.{has_double};

use crate::EntityDraft;
use std::alloc::{AllocError, Global};
use std::collections::BTreeSet;

/// The ids of entities as they are listed, if they ascend there.
///
/// Errors: for want of memory.
fn rising_ids<D>(alloc: Global, entities: &[EntityDraft<D>]) -> Result<Option<Vec<u64>>, AllocError>
    ensures ids { IfOk result (λ found. IfSome found (λ ids. ids.items ≡ map (λ entity. entity.id) entities.now)) }
    ensures ascend { IfOk result (λ found. IfSome found (λ ids. IdsAscend ids.items)) }
{
    let mut ids = Vec::with_capacity(alloc, entities.len())?;
    let mut last = None;
    for entity in entities {
        if let Some(id) = last {
            if entity.id <= id {
                return Ok(None);
            }
        }
        ids.push_reserved(entity.id);
        last = Some(entity.id);
    }
    Ok(Some(ids))
}

/// The ids of entities in a set.
///
/// Errors: for want of memory.
fn set_of_ids<D>(alloc: Global, entities: &[EntityDraft<D>]) -> Result<BTreeSet<u64>, AllocError>
    ensures ids { IfOk result (λ ids. ids.keys ≡ ascending (map (λ entity. entity.id) entities.now)) }
    ensures double { IfOk result (λ ids. nat_lt (length ids.keys) (length entities.now)
        ≡ has_double (map (λ entity. entity.id) entities.now)) }
{
    let mut ids = BTreeSet::new(alloc);
    for index in (0..entities.len()).rev() {
        ids.insert(entities[index].id)?;
    }
    Ok(ids)
}

/// The ids of entities, each once, the least first. Where they are listed so, none is sorted.
///
/// Errors: for want of memory.
pub(crate) fn ids_of<D>(alloc: Global, entities: &[EntityDraft<D>]) -> Result<Vec<u64>, AllocError>
    ensures ids { IfOk result (λ ids. ids.items ≡ ascending (map (λ entity. entity.id) entities.now)) }
    ensures double { IfOk result (λ ids. nat_lt (length ids.items) (length entities.now)
        ≡ has_double (map (λ entity. entity.id) entities.now)) }
{
    if let Some(ids) = rising_ids(alloc, entities)? {
        return Ok(ids);
    }
    set_of_ids(alloc, entities)?.into_iter().collect(alloc)
}
