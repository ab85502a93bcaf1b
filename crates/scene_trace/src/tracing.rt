//! The frames of a document, each with its trace.
ghost use Rattle.std.specs.Prelude.{◌≡◌};
ghost use Rattle.scene.specs.Limits.{AreLimits};
ghost use Rattle.scene.specs.Members.{IsReadyBy};

use crate::acting::Acting;
use crate::course::{Course, Kinds, course_of, given_for};
use crate::events::{FrameTrace, Lead, Refusal};
use crate::following::{changes_of, follow_all, global_changes_of};
use crate::leads::{cause_text, leads_of};
use crate::plain::{Plain, plain_of};
use crate::turning::{Turned, json_of, turn};
use scene::{Rules, Scene};
use scene_document::{Limits, LoadError, read_document};
use scene_model::{DocRefusal, FrameRefusal};
use std::alloc::{AllocError, Global};
use std::sync::Wait;
use std::thread::Threads;

/// Who sees the frames of a run.
pub trait Watcher {
    /// Takes in the scene before the first frame.
    ///
    /// Errors: where it wants no more.
    fn begin(&mut self, _first: &Plain) -> Result<(), Halted> {
        Ok(())
    }

    /// Takes in what happened in a frame: the scene before it, its trace, and the scene after it, as the engine has
    /// them, with the kinds of the systems.
    ///
    /// Errors: where it wants no more.
    fn see(
        &mut self,
        before: &Plain,
        frame: &FrameTrace,
        after: &Plain,
        kinds: &Kinds,
    ) -> Result<(), Halted>;
}

/// A watcher wants no more.
#[derive(Clone, Copy, Debug, PartialEq, Eq)]
pub struct Halted;

/// Why a run has no more trace.
#[derive(Clone, Copy, Debug, PartialEq, Eq)]
pub enum TraceError {
    /// The document is no scene, and this is the least refusal that stands.
    Document(DocRefusal),
    /// Memory was wanting.
    Memory,
    /// The watcher wants no more.
    Halted,
}

impl From<LoadError> for TraceError {
    fn from(error: LoadError) -> TraceError {
        match error {
            LoadError::Document(refusal) => TraceError::Document(refusal),
            LoadError::Memory => TraceError::Memory,
        }
    }
}

impl From<AllocError> for TraceError {
    fn from(_error: AllocError) -> TraceError {
        TraceError::Memory
    }
}

impl From<Halted> for TraceError {
    fn from(_halted: Halted) -> TraceError {
        TraceError::Halted
    }
}

/// The scene of a text.
fn plain_text<R: Rules>(
    alloc: Global,
    rules: &R,
    limits: Limits,
    text: &[u8],
) -> Result<Plain, LoadError> {
    let value = json_of(alloc, text)?;
    let draft = read_document(alloc, rules, limits, &value)?;
    let plain = plain_of(alloc, rules, &draft)?;
    Ok(plain)
}

/// The trace of a frame in which nothing happened.
fn nothing(alloc: Global, number: u32) -> FrameTrace {
    FrameTrace {
        number,
        changes: Vec::new(alloc),
        globals: Vec::new(alloc),
        deeds: Vec::new(alloc),
        refusal: None,
    }
}

/// The trace of an accepted or a refused frame, of which the systems made this.
fn traced<R: Rules>(
    alloc: Global,
    rules: &R,
    number: u32,
    before: &Plain,
    turned: Turned<R::Data>,
    course: &Course<R>,
    refused: Option<&FrameRefusal>,
) -> Result<FrameTrace, AllocError>
where
    R::Value: Drop,
{
    let Turned { between, queues } = turned;
    let mut frame = nothing(alloc, number);
    let changes = changes_of(alloc, rules.part_names(), before, &between)?;
    let globals = global_changes_of(alloc, rules.global_names(), before, &between)?;
    let given = given_for(course.commands.as_slice(), number);
    let mut acting = Acting::new(alloc, rules, between)?;
    let deeds = follow_all(alloc, &mut acting, given, &queues)?;
    match refused {
        Some(cause) => {
            let leads = leads_of(alloc, cause, &acting, &deeds, given.len(), &queues)?;
            frame.refusal = Some(Refusal {
                cause: cause_text(alloc, cause)?,
                leads,
            });
        }
        None => {
            frame.changes = changes;
            frame.globals = globals;
            frame.deeds = deeds.deeds;
        }
    }
    Ok(frame)
}

/// The trace of a frame whose systems refused.
fn refused_early(
    alloc: Global,
    number: u32,
    refused: Option<&FrameRefusal>,
) -> Result<FrameTrace, AllocError> {
    let mut frame = nothing(alloc, number);
    if let Some(cause) = refused {
        let mut leads = Vec::new(alloc);
        if let FrameRefusal::System(place, _) = cause {
            leads.push(Lead::System(*place))?;
        }
        frame.refusal = Some(Refusal {
            cause: cause_text(alloc, cause)?,
            leads,
        });
    }
    Ok(frame)
}

/// Why the last frame of a scene was refused, if it was.
fn refusal_of<R: Rules + Drop>(scene: &Scene<R>) -> Option<&FrameRefusal>
where
    R::Value: Drop,
{
    match &scene.report().refused {
        Some((_, cause)) => Some(cause),
        None => None,
    }
}

/// Whether nothing can happen from a frame on: no system runs, and no command of the document is left.
fn is_at_rest<R: Rules>(course: &Course<R>, number: u32) -> bool
where
    R::Value: Drop,
{
    course.kinds.is_empty() && number as usize > course.commands.len()
}

/// Runs the next frame of a scene, and answers its trace and the scene after it; none where none is left in which
/// something can happen.
fn next_frame<R: Rules + Drop + Send + Sync, H: AllocGlobal + Threads + Wait + Sync>(
    rt: &H,
    rules: &R,
    limits: Limits,
    course: &mut Course<R>,
    scene: &mut Scene<R>,
    before: &Plain,
) -> Result<Option<(FrameTrace, Plain)>, LoadError>
where
    R::Value: Drop + Send + Sync,
    R::Data: Send + Sync,
    R::Global: Send + Sync,
    R::System: Send + Sync,
    requires ready { IsReadyBy R.Rules R.Value.SceneValue scene.old }
    ensures ready { IsReadyBy R.Rules R.Value.SceneValue scene.new }
{
    let alloc = rt.alloc();
    if scene.left() == 0 {
        return Ok(None);
    }
    let number = scene.report().frames.saturating_add(1);
    if refusal_of(scene).is_some() || is_at_rest(course, number) {
        return Ok(None);
    }
    let text = scene.snapshot(alloc)?;
    let turned = turn(rt, rules, limits, &text, before, course)?;
    drop(scene.run_frame(rt));
    let refused = refusal_of(scene);
    if let Some(FrameRefusal::Memory) = refused {
        return Err(LoadError::Memory);
    }
    let frame = match turned {
        Some(turned) => traced(alloc, rules, number, before, turned, course, refused)?,
        None => refused_early(alloc, number, refused)?,
    };
    let text = scene.snapshot(alloc)?;
    let after = plain_text(alloc, rules, limits, &text)?;
    Ok(Some((frame, after)))
}

/// Shows the frames of a scene, up to the last one of these, to a watcher.
fn show_all<R: Rules + Drop + Send + Sync, H: AllocGlobal + Threads + Wait + Sync, W: Watcher>(
    rt: &H,
    rules: &R,
    limits: Limits,
    course: &mut Course<R>,
    scene: &mut Scene<R>,
    last: u32,
    watcher: &mut W,
) -> Result<(), TraceError>
where
    R::Value: Drop + Send + Sync,
    R::Data: Send + Sync,
    R::Global: Send + Sync,
    R::System: Send + Sync,
    requires { IsReadyBy R.Rules R.Value.SceneValue scene.old }
{
    let text = scene.snapshot(rt.alloc())?;
    let mut before = plain_text(rt.alloc(), rules, limits, &text)?;
    watcher.begin(&before)?;
    for _ in 0..last {
        let Some((frame, after)) = next_frame(rt, rules, limits, course, scene, &before)? else {
            break;
        };
        watcher.see(&before, &frame, &after, &course.kinds)?;
        before = after;
    }
    Ok(())
}

/// Runs the document in these bytes, and shows its first scene and each frame up to the last one of these to a watcher,
/// as it was done; but not those at the end of a run in which nothing can happen. The rules are given twice, once for
/// the run and once to look.
///
/// Errors: `Document`, with the least refusal that stands, where no frame was run; `Halted`; `Memory`.
pub fn trace<R: Rules + Drop + Send + Sync, H: AllocGlobal + Threads + Wait + Sync, W: Watcher>(
    rt: &H,
    rules: R,
    own: &R,
    limits: Limits,
    bytes: &[u8],
    last: u32,
    watcher: &mut W,
) -> Result<(), TraceError>
where
    R::Value: Drop + Send + Sync,
    R::Data: Send + Sync,
    R::Global: Send + Sync,
    R::System: Send + Sync,
    requires { AreLimits limits }
{
    let value = json_of(rt.alloc(), bytes)?;
    let mut course = course_of(rt.alloc(), own, limits, &value)?;
    drop(value);
    let mut scene = Scene::open(rt.alloc(), rules, limits, bytes)?;
    show_all(rt, own, limits, &mut course, &mut scene, last, watcher)
}
