//! The faults of a document, from its bytes.
ghost use Rattle.std.specs.Prelude.{◌≡◌, ◌≤◌, ◌==◌, [], IfOk, All};
ghost use Rattle.std.specs.List.{list_any};
ghost use Rattle.serde_json.specs.View.{view};
ghost use Rattle.scene_document.specs.Texts.{json_of};
ghost use Rattle.scene_document.specs.Documents.{document_of};
ghost use Rattle.scene_sight.specs.Paths.{Stands};
ghost use Rattle.scene_sight.specs.Faults.{rank, IsLeast, Shows, AllStand};

use crate::faults::Fault;
use crate::paths::standing_part;
use crate::search::faults_of;
use scene_document::{JsonError, Limits, LoadError, read_document, read_json};
use scene_model::{DocRefusal, DocumentRules};
use serde_json::Value;
use std::alloc::{AllocError, Global};

/// The faults of the document in these bytes.
///
/// Nothing is listed exactly where the document is one that is loaded; of one that is refused, the least refusal that
/// is listed is the one with which it is refused. Each path leads to something in the document; that of `Unreadable` is
/// empty. A typo in the kind of a system is compared with `kinds`, which says nothing else and may be empty.
///
/// The time is linear in the bytes, but for a factor that grows as the logarithm of the number of ids and names.
///
/// Errors: want of memory.
#[tactic(auto, using(crate::proofs::FaultLemmas::showing))]
pub fn check<R: DocumentRules>(
    alloc: Global,
    rules: &R,
    limits: Limits,
    kinds: &[&str],
    bytes: &[u8],
) -> Result<Vec<Fault>, AllocError>
    ensures shows { IfOk result (λ faults.
        Shows (document_of (R.book rules.now) limits.indices bytes.now) faults.items) }
    ensures places { IfOk result (λ faults. AllStand (json_of bytes.now) faults.items) }
{
    let value = match read_json(alloc, bytes) {
        Ok(value) => value,
        Err(JsonError::Unreadable) => return unreadable(alloc),
        Err(JsonError::Memory) => return Err(AllocError),
    };
    match read_document(alloc, rules, limits, &value) {
        Ok(_) => Ok(Vec::new(alloc)),
        Err(LoadError::Document(refusal)) => {
            let found = faults_of(alloc, rules, limits, kinds, &value)?;
            settled(alloc, &value, refusal, found)
        }
        Err(LoadError::Memory) => Err(AllocError),
    }
}

/// The one fault of bytes that have no reading.
fn unreadable(alloc: Global) -> Result<Vec<Fault>, AllocError>
    ensures least { IfOk result (λ faults. IsLeast DocRefusal.Unreadable faults.items) }
    ensures places { IfOk result (λ faults. All (λ fault. fault.path.items ≡ []) faults.items) }
{
    let fault = whole_fault(
        alloc,
        DocRefusal::Unreadable,
        "the text is no JSON from here on",
    )?;
    let mut faults = Vec::new(alloc);
    faults.push(fault)?;
    Ok(faults)
}

/// A fault of the whole document.
fn whole_fault(alloc: Global, refusal: DocRefusal, sentence: &str) -> Result<Fault, AllocError>
    ensures same { IfOk result (λ fault. fault.refusal ≡ refusal) }
    ensures path { IfOk result (λ fault. fault.path.items ≡ []) }
{
    Ok(Fault {
        refusal,
        path: Vec::new(alloc),
        sentence: String::from_str(alloc, sentence)?,
    })
}

/// The place of a refusal in the order in which refusals are told.
fn rank(refusal: DocRefusal) -> u8
    ensures { result ≡ rank refusal }
{
    match refusal {
        DocRefusal::Unreadable => 0,
        DocRefusal::NotWhole => 1,
        DocRefusal::WrongShape => 2,
        DocRefusal::UnknownKind => 3,
        DocRefusal::DoubleId => 4,
        DocRefusal::IdNotBelowNext => 5,
        DocRefusal::Dangling => 6,
        DocRefusal::UnknownSystem => 7,
        DocRefusal::NameTaken => 8,
        DocRefusal::UnknownDependency => 9,
        DocRefusal::MissingGlobal => 10,
        DocRefusal::ReservedWrite => 11,
        DocRefusal::TooManyWorkers => 12,
        DocRefusal::TooManySystems => 13,
        DocRefusal::UnknownStore => 14,
        DocRefusal::TooManyEntities => 15,
    }
}

/// The faults that stand beside a refusal of a JSON, each at a place that there is, and one of the whole document where
/// none of them is that refusal's.
fn settled(
    alloc: Global,
    value: &Value,
    refusal: DocRefusal,
    found: Vec<Fault>,
) -> Result<Vec<Fault>, AllocError>
    ensures least { IfOk result (λ faults. IsLeast refusal faults.items) }
    ensures places { IfOk result (λ faults. All (λ fault. Stands (view value.now) fault.path.items) faults.items) }
{
    let mut faults = kept(alloc, value, refusal, found)?;
    if lists(&faults, refusal) {
        return Ok(faults);
    }
    let whole = whole_fault(alloc, refusal, "the document is refused")?;
    faults.push(whole)?;
    Ok(faults)
}

/// The faults that are no lesser than a refusal, each at a place that there is.
fn kept(
    alloc: Global,
    value: &Value,
    refusal: DocRefusal,
    found: Vec<Fault>,
) -> Result<Vec<Fault>, AllocError>
    ensures least { IfOk result (λ faults. All (λ fault. rank refusal ≤ rank fault.refusal) faults.items) }
    ensures places { IfOk result (λ faults. All (λ fault. Stands (view value.now) fault.path.items) faults.items) }
{
    let mut faults = Vec::with_capacity(alloc, found.len())?;
    for fault in found {
        if rank(refusal) <= rank(fault.refusal) {
            faults.push(placed(alloc, value, fault)?)?;
        }
    }
    Ok(faults)
}

/// A fault at a place that there is.
fn placed(alloc: Global, value: &Value, fault: Fault) -> Result<Fault, AllocError>
    ensures same { IfOk result (λ placed. placed.refusal ≡ fault.refusal) }
    ensures stands { IfOk result (λ placed. Stands (view value.now) placed.path.items) }
{
    let Fault {
        refusal,
        path,
        sentence,
    } = fault;
    let path = standing_part(alloc, value, path)?;
    Ok(Fault {
        refusal,
        path,
        sentence,
    })
}

/// Whether a refusal is listed.
fn lists(faults: &[Fault], refusal: DocRefusal) -> bool
    ensures { result ≡ list_any (λ fault. rank fault.refusal == rank refusal) faults.now }
{
    faults
        .iter()
        .any(|fault| rank(fault.refusal) == rank(refusal))
}
