//! A run that is printed, put back and run on.
ghost use Rattle.std.specs.Prelude.{◌≡◌, ◌↔◌, Some, IfOk, IsTrue};
ghost use Rattle.scene_model.specs.declared.refusals.Report.{Report};
ghost use Rattle.scene_model.specs.Parts.{Json, Name};
ghost use Rattle.scene_model.specs.Rulebook.{Facts, known};
ghost use Rattle.scene_model.specs.Laws.{Ascend, DeclaresKnown};
ghost use Rattle.serde_json.specs.View.{view};
ghost use Rattle.scene_document.specs.Texts.{json_of};
ghost use Rattle.scene.specs.Limits.{AreLimits};
ghost use Rattle.scene.specs.OneOutcome.{OneOutcome, HadMeans};
ghost use Rattle.scene.specs.Printed.{with_course};
ghost use Rattle.scene.specs.Resumed.{IsFinished, GoesOn};

use crate::laws::printed::a_ready_scene_can_be_read;
use crate::{DocRefusal, FrameRefusal, Limits, LoadError, Report, Rules, Scene, run_to_end};
use scene_document::{JsonError, read_json};
use serde_json::{Value, put};
use std::alloc::{AllocError, Global};
use std::sync::Wait;
use std::thread::Threads;

/// What a document asks for beside its scene: `systems`, `frames` and `commands`, as they stand in its JSON.
#[derive(Drop)]
pub struct Course {
    /// The list of systems.
    pub systems: Value,
    /// How many frames are asked for.
    pub frames: Value,
    /// The lists of commands, the first of them for the first frame.
    pub commands: Value,
}

/// Why a run in two parts gave no texts.
#[derive(Clone, Copy, Debug, PartialEq, Eq)]
pub enum ResumeError {
    /// One of the documents is no scene, or there was no memory to load it.
    Load(LoadError),
    /// A frame of the first part was refused.
    Refused,
    /// A frame was refused for a cause that is not of the scene: want of memory or of a thread, or a limit of the world's entities.
    Means,
    /// Memory was wanting.
    Memory,
}

impl From<AllocError> for ResumeError {
    ghost use Rattle.scene.specs.declared.laws.resumed.ResumeError.TheVariants.{Memory};

    ghost from_gives = { λ _ error. error ≡ Memory };

    fn from(_error: AllocError) -> ResumeError {
        ResumeError::Memory
    }
}

/// A run to its end: the rules that it ran under, its report, and the text of the scene that it reached.
#[derive(Drop)]
struct Finished<R: Drop> {
    rules: R,
    report: Report,
    text: Vec<u8>,
}

/// Whether a run had what it needs: no frame was refused for want of memory or of a thread, or at a limit of the world's entities.
fn had_means(report: &Report) -> bool
    ensures { IsTrue result ↔ HadMeans report.now }
{
    match &report.refused {
        Some((_, FrameRefusal::Memory | FrameRefusal::Threads)) => false,
        Some((_, FrameRefusal::IndicesSpent | FrameRefusal::GenerationsSpent)) => false,
        _ => true,
    }
}

/// Runs the document that a JSON is to its end.
///
/// Errors: `Load`, where it is none; `Means`, where a frame was refused for a cause that is not of the scene; `Memory`.
fn finish<R: Rules + Drop + Send + Sync, H: AllocGlobal + Threads + Wait + Sync>(
    rt: &H,
    rules: R,
    limits: Limits,
    document: &Value,
) -> Result<Finished<R>, ResumeError>
where
    R::Value: Drop + Send + Sync,
    R::Data: Send + Sync,
    R::Global: Send + Sync,
    R::System: Send + Sync,
    requires { AreLimits limits }
    ensures rules { IfOk result (λ done. done.rules ≡ rules) }
    ensures done { IfOk result (λ done. IsFinished (R.book rules) limits (view document.now) done.report
        done.text.items) }
{
    let scene = match Scene::load(rt.alloc(), rules, limits, document) {
        Ok(scene) => scene,
        Err(error) => return Err(ResumeError::Load(error)),
    };
    let scene = run_to_end(rt, scene);
    a_ready_scene_can_be_read(&scene);
    let text = scene.snapshot(rt.alloc())?;
    let (rules, report) = scene.into_parts();
    if !had_means(&report) {
        return Err(ResumeError::Means);
    }
    Ok(Finished {
        rules,
        report,
        text,
    })
}

/// Puts a course into the JSON of a scene, which is then that of a document.
fn put_back(alloc: Global, scene: Value, course: Course) -> Result<Value, AllocError>
    ensures { IfOk result (λ value. view value
        ≡ with_course (view course.systems) (view course.frames) (view course.commands) (view scene)) }
{
    let Course {
        systems,
        frames,
        commands,
    } = course;
    match scene {
        Value::Object(mut members) => {
            put(&mut members, alloc, "commands", commands)?;
            put(&mut members, alloc, "frames", frames)?;
            put(&mut members, alloc, "systems", systems)?;
            Ok(Value::Object(members))
        }
        other => Ok(other),
    }
}

/// The JSON that a text reads as.
///
/// Errors: `Load` with `Unreadable` where it has none; `Memory`.
fn read_back(alloc: Global, text: &[u8]) -> Result<Value, ResumeError>
    ensures { IfOk result (λ value. json_of text.now ≡ Some (view value)) }
{
    match read_json(alloc, text) {
        Ok(value) => Ok(value),
        Err(JsonError::Unreadable) => Err(ResumeError::Load(LoadError::Document(
            DocRefusal::Unreadable,
        ))),
        Err(JsonError::Memory) => Err(ResumeError::Memory),
    }
}

/// What rules are held to: each system that they know declares what they know, and their kinds of part and their
/// globals stand in rising order.
fn rules_are_lawful<R: Rules>(rules: &R)
    ensures declares { (kind : Name) (config : Json) (facts : Facts)
        → (R.book rules.now).system kind config ≡ known facts → DeclaresKnown (R.book rules.now) facts.access }
    ensures kinds { Ascend (R.book rules.now).part_names }
    ensures globals { Ascend (R.book rules.now).global_names }
{}

/// Runs a document at once, and then its frames in two parts: those of the first document, of which the scene is printed, read,
/// put back with the rest of the systems, frames and commands, and run on. Answers both texts.
///
/// Where the documents go on so, and each system allows one outcome of what it may be lent, the two texts are one.
///
/// The limits are at most the greatest ones, and `generation` is at least 1.
///
/// Errors: `Load`, with the least refusal that stands of the first of the three documents that is none; `Means`, where a frame is
/// refused for want of memory or of a thread, or at a limit of the world's entities; `Refused`, where a frame of the first part is
/// refused otherwise; `Memory`.
pub fn run_in_parts<R: Rules + Drop + Send + Sync, H: AllocGlobal + Threads + Wait + Sync>(
    rt: &H,
    rules: R,
    limits: Limits,
    whole: &Value,
    first: &Value,
    rest: Course,
) -> Result<(Vec<u8>, Vec<u8>), ResumeError>
where
    R::Value: Drop + Send + Sync,
    R::Data: Send + Sync,
    R::Global: Send + Sync,
    R::System: Send + Sync,
    requires { AreLimits limits }
    ensures whole { IfOk result (λ texts. (report : Report)
        × IsFinished (R.book rules) limits (view whole.now) report texts.0.items) }
    ensures same { IfOk result (λ texts. OneOutcome (R.book rules)
        → GoesOn (R.book rules) limits.indices (view whole.now) (view first.now)
        (view rest.systems) (view rest.frames) (view rest.commands)
        → texts.0.items ≡ texts.1.items) }
{
    rules_are_lawful(&rules);
    let Finished {
        rules,
        report: _,
        text: at_once,
    } = finish(rt, rules, limits, whole)?;
    let Finished {
        rules,
        report,
        text: middle,
    } = finish(rt, rules, limits, first)?;
    if report.refused.is_some() {
        return Err(ResumeError::Refused);
    }
    let scene = read_back(rt.alloc(), middle.as_slice())?;
    let document = put_back(rt.alloc(), scene, rest)?;
    let Finished {
        rules: _,
        report: _,
        text: in_parts,
    } = finish(rt, rules, limits, &document)?;
    Ok((at_once, in_parts))
}
