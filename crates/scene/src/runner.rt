//! A whole run, from the bytes of a document to the bytes of the scene that it reaches.
ghost use Rattle.std.specs.Prelude.{◌≡◌, MatchResult};
ghost use Rattle.scene.specs.Limits.{AreLimits};
ghost use Rattle.scene.specs.Turns.{RunsOut, nothing_yet};
ghost use Rattle.scene.specs.Outcomes.{IsRunOf, IsNoDocument, RunsDocument, reading, writing};
ghost use Rattle.scene.specs.Limits.{bounds_of, full_bounds};
ghost use Rattle.scene.specs.Running.{rules_of};
ghost use Rattle.scene.specs.Members.{shown_by, IsReadyBy, MayBeginBy, HasRunOutBy};

use crate::devices::{CountedRead, CountedWrite, ReadFailure, read_bytes, write_text};
use crate::frame::Scene;
use scene_document::{Limits, LoadError};
use scene_model::{DocRefusal, Report};
use scene_world::Rules;
use shred_crew::{Unmanned, with_crew};
use std::sync::Wait;
use std::thread::Threads;

/// Why a run gave no report.
#[derive(Clone, Copy, Debug, PartialEq, Eq)]
pub enum RunError {
    /// The document is no scene, and this is the least refusal that stands. Nothing was written.
    Document(DocRefusal),
    /// The reader failed, or gave bytes 4,294,967,295 times without its end. Nothing was written.
    Read,
    /// The writer failed, or took nothing, after so many bytes of the text had gone out.
    Write(u64),
    /// Memory was wanting. Nothing was written.
    Memory,
}

/// The report and the text of the run of the document in these bytes. The bytes are let go once they are read, and
/// their JSON once it stands in a world.
///
/// Errors: `Document`, with the least refusal that stands; `Memory`.
fn play<R: Rules + Drop + Send + Sync, H: AllocGlobal + Threads + Wait + Sync>(
    rt: &H,
    rules: R,
    limits: Limits,
    bytes: Vec<u8>,
) -> Result<(Report, Vec<u8>), LoadError>
where
    R::Value: Drop + Send + Sync,
    R::Data: Send + Sync,
    R::Global: Send + Sync,
    R::System: Send + Sync,
    requires { AreLimits limits }
    ensures { MatchResult result
        (λ played. IsRunOf (R.book rules) (bounds_of limits) bytes.items played.0 played.1.items)
        (IsNoDocument (R.book rules) (bounds_of limits) bytes.items) }
{
    let scene = Scene::open_owned(rt.alloc(), rules, limits, bytes)?;
    let scene = run_to_end(rt, scene);
    let Ok(text) = scene.snapshot(rt.alloc()) else {
        return Err(LoadError::Memory);
    };
    Ok((scene.into_report(), text))
}

/// Runs the frames of a scene to their end, each with workers of its own; those in which nothing happens at the end of a
/// run at once.
fn run_each<R: Rules + Drop + Send + Sync, H: AllocGlobal + Threads + Wait + Sync>(
    rt: &H,
    scene: Scene<R>,
) -> Scene<R>
where
    R::Value: Drop + Send + Sync,
    R::Data: Send + Sync,
    R::Global: Send + Sync,
    R::System: Send + Sync,
    requires { MayBeginBy R.Rules R.Value.SceneValue scene }
    ensures { HasRunOutBy R.Rules R.Value.SceneValue scene result }
{
    let mut scene = scene;
    while scene.left() > 0 {
        if scene.is_at_rest() {
            scene.rest();
            return scene;
        }
        match scene.run_frame(rt) {
            Ok(()) => {}
            Err(_) => return scene,
        }
    }
    scene
}

/// Runs the frames of a scene to their end: all that were asked for, or up to the first that is refused. The workers
/// stand by over all frames: each other than the caller's thread is started once; where one can't be, each frame starts
/// its own.
///
/// Asked for is that none has run yet.
pub fn run_to_end<R: Rules + Drop + Send + Sync, H: AllocGlobal + Threads + Wait + Sync>(
    rt: &H,
    scene: Scene<R>,
) -> Scene<R>
where
    R::Value: Drop + Send + Sync,
    R::Data: Send + Sync,
    R::Global: Send + Sync,
    R::System: Send + Sync,
    requires ready { IsReadyBy R.Rules R.Value.SceneValue scene }
    requires start { (shown_by R.Rules R.Value.SceneValue scene).report ≡ nothing_yet }
    ensures rules { rules_of result ≡ rules_of scene }
    ensures ready { IsReadyBy R.Rules R.Value.SceneValue result }
    ensures end { RunsOut (R.book (rules_of scene)) (shown_by R.Rules R.Value.SceneValue scene)
        (shown_by R.Rules R.Value.SceneValue result) }
{
    let workers = scene.crew_size();
    if workers < 2 || scene.left() == 0 {
        return run_each(rt, scene);
    }
    match with_crew(rt, workers, scene) {
        Ok(after) => after,
        Err(Unmanned { shift, .. }) => run_each(rt, shift),
    }
}

/// Runs the document that a reader gives, and writes the text of the scene that it reaches.
///
/// The reader is read to its end. Where its bytes are no scene, the run is refused by name and nothing is written.
/// Else all frames asked for are run in a world of entities, with the document's number of workers and kind of store,
/// or those up to the first that is refused; the text of the scene there is written, by as many writes as that takes,
/// and flushed; and the report tells the accepted frames, the skipped commands and the refusal.
///
/// Errors: `Document`, with the least refusal that stands; `Read`; `Memory`; with each of these nothing was written.
/// `Write`, with the number of bytes of the text that went out, just its first ones.
///
/// No failure of a device is passed over: where there is a report none of them failed in the call, and the reader
/// fails only where `Read` is told. With a report, `Document` and `Write` the reader is left at its end.
///
/// The limits are at most the greatest ones, and `generation` is at least 1.
pub fn run_with<
    R: Rules + Drop + Send + Sync,
    H: AllocGlobal + Threads + Wait + Sync,
    I: CountedRead,
    O: CountedWrite,
>(rt: &H, rules: R, limits: Limits, reader: &mut I, writer: &mut O) -> Result<Report, RunError>
where
    R::Value: Drop + Send + Sync,
    R::Data: Send + Sync,
    R::Global: Send + Sync,
    R::System: Send + Sync,
    requires { AreLimits limits }
    ensures { RunsDocument (R.book rules) (bounds_of limits) result
        (reading I.remaining I.fault_count reader.old reader.new)
        (writing O.contents O.fault_count O.flushed writer.old writer.new) }
{
    let bytes = match read_bytes(rt.alloc(), reader) {
        Ok(bytes) => bytes,
        Err(ReadFailure::Read) => return Err(RunError::Read),
        Err(ReadFailure::Memory) => return Err(RunError::Memory),
    };
    let (report, text) = match play(rt, rules, limits, bytes) {
        Ok(played) => played,
        Err(LoadError::Document(refusal)) => return Err(RunError::Document(refusal)),
        Err(LoadError::Memory) => return Err(RunError::Memory),
    };
    match write_text(writer, text.as_slice()) {
        Ok(()) => Ok(report),
        Err(error) => Err(RunError::Write(error.sent)),
    }
}

/// Runs the document that a reader gives under the greatest limits, and writes the text of the scene that it reaches,
/// as `run_with` does.
pub fn run<
    R: Rules + Drop + Send + Sync,
    H: AllocGlobal + Threads + Wait + Sync,
    I: CountedRead,
    O: CountedWrite,
>(rt: &H, rules: R, reader: &mut I, writer: &mut O) -> Result<Report, RunError>
where
    R::Value: Drop + Send + Sync,
    R::Data: Send + Sync,
    R::Global: Send + Sync,
    R::System: Send + Sync,
    ensures { RunsDocument (R.book rules) full_bounds result
        (reading I.remaining I.fault_count reader.old reader.new)
        (writing O.contents O.fault_count O.flushed writer.old writer.new) }
{
    run_with(rt, rules, Limits::FULL, reader, writer)
}
