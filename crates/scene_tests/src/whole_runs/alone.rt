//! A document of drifting entities, run from memory to memory: what its text is, by the contract of a run alone.
ghost use Rattle.std.specs.Prelude.{◌≡◌, Err, IfOk};
ghost use Rattle.scene_model.specs.declared.refusals.DocRefusal.{DocRefusal};
ghost use Rattle.scene_document.specs.Drafts.{Draft};
ghost use Rattle.scene_document.specs.Documents.{document_of};
ghost use Rattle.scene.specs.Outcomes.{IsRunOf, TellsOnly, full_bounds};
ghost use Rattle.scene_cases.specs.Drifting.{drifting_book};
ghost use Rattle.scene_tests.specs.Alone.{IsDriftAlone, IsDriftedText};

use scene::{Counted, RunError, run};
use scene_cases::turns::Drifting;
use scene_model::Report;
use std::sync::Wait;
use std::thread::Threads;

/// The report and the text of a document of drifting entities, under the greatest limits.
///
/// Errors: those of `run`. A document that is refused is told as such, but for want of memory.
fn in_memory<H: AllocGlobal + Threads + Wait + Sync>(
    rt: &H,
    document: &[u8],
) -> Result<(Report, Vec<u8>), RunError>
    ensures run { IfOk result (λ told. IsRunOf drifting_book full_bounds document.now told.0 told.1.items) }
    ensures refused { (refusal : DocRefusal) → document_of drifting_book 16777216 document.now ≡ Err refusal
        → TellsOnly refusal result }
{
    let mut reader = Counted::new(document);
    let mut writer = Counted::new(Vec::new(rt.alloc()));
    match run(rt, Drifting, &mut reader, &mut writer) {
        Ok(report) => Ok((report, writer.into_inner())),
        Err(error) => Err(error),
    }
}

/// The report and the text of a document of drifting entities, under the greatest limits.
///
/// Where drift is its only system, and it has no commands, each position has gained the velocity of its entity once for each frame that
/// was accepted, with any number of workers and in each store.
///
/// Errors: those of `run`. A document that is refused is told as such, but for want of memory.
pub fn drift_in_memory<H: AllocGlobal + Threads + Wait + Sync>(
    rt: &H,
    document: &[u8],
) -> Result<(Report, Vec<u8>), RunError>
    ensures run { IfOk result (λ told. IsRunOf drifting_book full_bounds document.now told.0 told.1.items) }
    ensures drifts { IfOk result (λ told. (draft : Draft) → IsDriftAlone 16777216 document.now draft
        → IsDriftedText draft told.0 told.1.items) }
    ensures refused { (refusal : DocRefusal) → document_of drifting_book 16777216 document.now ≡ Err refusal
        → TellsOnly refusal result }
{
    in_memory(rt, document)
}
