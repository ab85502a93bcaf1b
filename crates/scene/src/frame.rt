//! A scene that runs frame by frame in a world of entities.
ghost use Rattle.std.specs.Prelude.{◌≡◌, ◌<◌, true, None, is_some, OnOk, OnErr, IfOk, MatchResult};
ghost use Rattle.scene_model.specs.Parts.{Part};
ghost use Rattle.scene_model.specs.Queues.{plain_commands};
ghost use Rattle.scene_document.specs.Loading.{commands_at};
ghost use Rattle.scene.specs.Members.{shown_by, IsReadyBy, IsUnderWayBy, IsOpenedBy, IsReadAndOpened, IsPlacedBy};
ghost use Rattle.scene.specs.Members.{CountsTouchedBy};

use crate::advance::{advance, begin_frame};
use crate::load::{
    Course, Opened, ReadDocument, place_document, prepare_document, prepare_read,
    read_apart_or_whole,
};
use crate::snapshot::{KeptScene, kept_text};
use crate::{FrameInput, keep_scene};
use scene_commands::laws::events_are_no_part_of_a_scene;
use scene_commands::{Watchers, watch_world};
use scene_dispatch::{SceneDispatcher, Works};
use scene_document::{Limits, LoadError};
use scene_model::{Command, FrameRefusal, Report, Skips};
use scene_world::Rules;
use serde_json::Value;
use shred_crew::Crew;
use shred_stages::Pack;
use shred_world::World;
use std::alloc::{AllocError, Global};
use std::mem;
use std::sync::Wait;
use std::thread::Threads;

/// What bounds the frames of a scene: how many commands one may have, how many indices the entities may have, how many births an
/// index, and how many ids below the next one belong to nobody that was ever born.
#[derive(Clone, Copy)]
pub(crate) struct FrameBounds {
    pub(crate) commands: u32,
    pub(crate) indices: u32,
    pub(crate) generation: u32,
    pub(crate) unlisted: u64,
}

/// A scene that runs frame by frame: a world of entities, the systems of its document on a dispatcher, and what is
/// kept of the last accepted scene.
#[derive(Drop)]
pub struct Scene<R: Rules + Drop>
where
    R::Value: Drop,
{
    rules: R,
    limit: FrameBounds,
    world: World<R::Value>,
    dispatcher: SceneDispatcher<R>,
    places: Vec<u32>,
    commands: Vec<Vec<Command<R::Data>>>,
    asked: u32,
    watchers: Watchers,
    kept: KeptScene<R::Data, Vec<Option<R::Global>>>,
    report: Report,
}

/// A frame was not accepted; the report tells why.
#[derive(Clone, Copy, Debug, PartialEq, Eq)]
pub struct Refused;

/// The commands of a document for a frame, by its number from 1.
fn commands_for<D: Drop>(lists: &[Vec<Command<D>>], frame: u32) -> &[Command<D>]
    ensures { (part_of : D → Part) → plain_commands part_of result.now ≡ commands_at part_of lists.now frame }
{
    if frame == 0 {
        return &[];
    }
    match lists.get(frame as usize - 1) {
        Some(list) => list.as_slice(),
        None => &[],
    }
}

impl<R: Rules + Drop> Scene<R>
where
    R::Value: Drop,
{
    ghost use Rattle.serde_json.specs.View.{view};
    ghost use Rattle.scene.specs.Limits.{AreLimits, bounds_of};
    ghost use Rattle.scene.specs.Turns.{Advances, Stays, IsAtRest, at_end, frames_left};
    ghost use Rattle.scene.specs.Outcomes.{IsNoDocument};
    ghost use Rattle.scene_document.specs.Loading.{IsNotLoaded};
    ghost use Rattle.scene_document.specs.Texts.{scene_json, text_of, ReadsBack};
    ghost use Rattle.scene.specs.Running.{rules_of, crew_of, changes_of, IsReadAs};
    ghost use Rattle.scene_model.specs.Parts.{Json};
    ghost use Rattle.scene_document.specs.declared.loaded.LoadError.TheVariants.{Memory};

    /// The scene of the document in these bytes, before any frame.
    ///
    /// Errors: `Document`, with the least refusal that stands; `Memory`. The limits are at most the greatest ones, and
    /// `generation` is at least 1.
    pub fn open(
        alloc: Global,
        rules: R,
        limits: Limits,
        bytes: &[u8],
    ) -> Result<Scene<R>, LoadError>
        requires { AreLimits limits }
        ensures { MatchResult result (IsReadAndOpened R.Rules R.Value.SceneValue rules limits bytes.now)
            (IsNoDocument (R.book rules) (bounds_of limits) bytes.now) }
    {
        let read = read_apart_or_whole(alloc, &rules, bytes)?;
        Scene::load_read(alloc, rules, limits, read)
    }

    /// The scene of the document in these bytes, as `open` makes it. The bytes are let go once they are read, before a world
    /// is filled with what they say.
    ///
    /// Errors: those of `open`.
    pub(crate) fn open_owned(
        alloc: Global,
        rules: R,
        limits: Limits,
        bytes: Vec<u8>,
    ) -> Result<Scene<R>, LoadError>
        requires { AreLimits limits }
        ensures { MatchResult result (IsReadAndOpened R.Rules R.Value.SceneValue rules limits bytes.items)
            (IsNoDocument (R.book rules) (bounds_of limits) bytes.items) }
    {
        let read = read_apart_or_whole(alloc, &rules, bytes.as_slice())?;
        drop(bytes);
        Scene::load_read(alloc, rules, limits, read)
    }

    /// The scene of a document that was read, before any frame. Its JSON is let go before a world is filled.
    ///
    /// Errors: those of `load`.
    fn load_read(
        alloc: Global,
        rules: R,
        limits: Limits,
        read: ReadDocument<R::Data>,
    ) -> Result<Scene<R>, LoadError>
        requires limits { AreLimits limits }
        requires read { (json : Json) × IsReadAs R.part_of (R.book rules) json read }
        ensures { (json : Json) → IsReadAs R.part_of (R.book rules) json read
            → MatchResult result (IsOpenedBy R.Rules R.Value.SceneValue rules limits json)
            (IsNotLoaded (R.book rules) limits.indices json) }
    {
        let prepared = prepare_read(alloc, &rules, limits, read)?;
        let opened = place_document(alloc, &rules, limits, prepared)?;
        Scene::keeping(alloc, rules, limits, opened)
    }

    /// The scene of a document that was read as JSON, before any frame.
    ///
    /// Errors: `Document`, with the least refusal that stands; `Memory`. The limits are at most the greatest ones, and
    /// `generation` is at least 1.
    pub fn load(
        alloc: Global,
        rules: R,
        limits: Limits,
        value: &Value,
    ) -> Result<Scene<R>, LoadError>
        requires { AreLimits limits }
        ensures { MatchResult result (IsOpenedBy R.Rules R.Value.SceneValue rules limits (view value.now))
            (IsNotLoaded (R.book rules) limits.indices (view value.now)) }
    {
        let prepared = prepare_document(alloc, &rules, limits, value)?;
        let opened = place_document(alloc, &rules, limits, prepared)?;
        Scene::keeping(alloc, rules, limits, opened)
    }

    /// The scene of a document that was read as JSON, before any frame, as `load` makes it. The JSON is let go once it
    /// was read, before a world is filled with what it says.
    ///
    /// Errors: those of `load`.
    pub fn load_owned(
        alloc: Global,
        rules: R,
        limits: Limits,
        value: Value,
    ) -> Result<Scene<R>, LoadError>
        requires { AreLimits limits }
        ensures { MatchResult result (IsOpenedBy R.Rules R.Value.SceneValue rules limits (view value))
            (IsNotLoaded (R.book rules) limits.indices (view value)) }
    {
        let prepared = prepare_document(alloc, &rules, limits, &value)?;
        drop(value);
        let opened = place_document(alloc, &rules, limits, prepared)?;
        Scene::keeping(alloc, rules, limits, opened)
    }

    /// The scene of a document that stands in a world, kept, before any frame. Errors: `Memory`.
    fn keeping(
        alloc: Global,
        rules: R,
        limits: Limits,
        opened: Opened<R>,
    ) -> Result<Scene<R>, LoadError>
        requires limits { AreLimits limits }
        requires placed { (json : Json) × IsPlacedBy R.Rules R.Value.SceneValue rules limits json opened }
        ensures { MatchResult result
            (λ one. (json : Json) → IsPlacedBy R.Rules R.Value.SceneValue rules limits json opened
            → IsOpenedBy R.Rules R.Value.SceneValue rules limits json one) (λ why. why ≡ Memory) }
    {
        let Opened {
            mut world,
            unlisted,
            places,
            course,
        } = opened;
        events_are_no_part_of_a_scene(&rules);
        let Ok(watchers) = watch_world(&rules, &mut world, alloc) else {
            return Err(LoadError::Memory);
        };
        let Ok(kept) = keep_scene(&rules, &world, alloc) else {
            return Err(LoadError::Memory);
        };
        let Course {
            dispatcher,
            commands,
            asked,
        } = course;
        let report = Report {
            frames: 0,
            skips: Skips::from_vec(Vec::new(alloc)),
            refused: None,
        };
        let births = limits.generation.unsigned_abs();
        let limit = FrameBounds {
            commands: limits.commands as u32,
            indices: limits.indices,
            generation: births,
            unlisted,
        };
        Ok(Scene {
            rules,
            limit,
            world,
            dispatcher,
            places,
            commands,
            asked,
            watchers,
            kept,
            report,
        })
    }

    /// The frames asked for and not yet accepted.
    pub fn left(&self) -> u32
        ensures { result ≡ frames_left (shown_by R.Rules R.Value.SceneValue self.now) }
    {
        self.asked.saturating_sub(self.report.frames)
    }

    /// The text of the last accepted scene, which reads as the JSON of the scene and as no other.
    ///
    /// Errors: want of memory.
    pub fn snapshot(&self, alloc: Global) -> Result<Vec<u8>, AllocError>
        ensures text { IfOk result (λ text. text.items ≡ text_of (R.book (rules_of self.now))
            (shown_by R.Rules R.Value.SceneValue self.now).scene) }
        ensures reads { IfOk result (λ text. ReadsBack text.items
            (scene_json (R.book (rules_of self.now)) (shown_by R.Rules R.Value.SceneValue self.now).scene)) }
    {
        kept_text(alloc, &self.rules, &self.kept)
    }

    /// The next id of the last accepted scene.
    pub fn next(&self) -> u64
        ensures { result ≡ (shown_by R.Rules R.Value.SceneValue self.now).scene.next }
    {
        self.kept.next()
    }

    /// How many changes were made of the entries of what is kept: each entry that left is one, and each that entered. As
    /// a document is loaded each of its entities enters.
    pub fn changes(&self) -> u64
        ensures { result ≡ changes_of self.now }
    {
        self.kept.changes()
    }

    /// How far the scene has come: accepted frames, skipped commands, and the refusal if there is one.
    pub fn report(&self) -> &Report
        ensures { result.now ≡ (shown_by R.Rules R.Value.SceneValue self.now).report }
    {
        &self.report
    }

    /// Whether a frame was refused, so that no other may run.
    fn is_over(&self) -> bool
        ensures { result ≡ is_some (shown_by R.Rules R.Value.SceneValue self.now).report.refused }
    {
        self.report.refused.is_some()
    }

    /// Whether nothing happens in the frames that are left: no system runs, and no command of the document is for one of
    /// them.
    pub(crate) fn is_at_rest(&self) -> bool
        requires ready { IsReadyBy R.Rules R.Value.SceneValue self.now }
        requires going { (shown_by R.Rules R.Value.SceneValue self.now).report.refused ≡ None }
        ensures { result ≡ true → IsAtRest (shown_by R.Rules R.Value.SceneValue self.now) }
    {
        self.places.is_empty() && self.report.frames as usize >= self.commands.len()
    }

    /// Counts all frames that are left as accepted, where nothing happens in them.
    pub(crate) fn rest(&mut self)
        requires ready { IsReadyBy R.Rules R.Value.SceneValue self.old }
        requires left { 0 < frames_left (shown_by R.Rules R.Value.SceneValue self.old) }
        ensures rules { rules_of self.new ≡ rules_of self.old }
        ensures ready { IsReadyBy R.Rules R.Value.SceneValue self.new }
        ensures shown { shown_by R.Rules R.Value.SceneValue self.new
            ≡ at_end (shown_by R.Rules R.Value.SceneValue self.old) }
    {
        self.report.frames = self.asked;
    }

    /// How many workers a crew has that stands by for the scene's frames: as many as its document asks for, or as a
    /// stage of its systems is worth, whichever is less. Where that is less than two, no thread is worth starting.
    pub fn crew_size(&self) -> usize
        ensures { result ≡ crew_of self.now }
    {
        self.dispatcher.crew_size()
    }

    /// The report, for whom the scene has ended.
    pub fn into_report(self) -> Report
        ensures { result ≡ (shown_by R.Rules R.Value.SceneValue self).report }
    {
        let Scene { report: told, .. } = self;
        told
    }

    /// The rules and the report, for whom the scene has ended.
    pub fn into_parts(self) -> (R, Report)
        ensures rules { result.0 ≡ rules_of self }
        ensures report { result.1 ≡ (shown_by R.Rules R.Value.SceneValue self).report }
    {
        let Scene {
            rules: kept,
            report: told,
            ..
        } = self;
        (kept, told)
    }

    /// The rest of the next frame, once its systems have come to this outcome.
    fn finish(&mut self, alloc: Global, outcome: Result<(), FrameRefusal>) -> Result<(), Refused>
        requires under_way { IsUnderWayBy R.Rules R.Value.SceneValue self.old outcome }
        requires left { 0 < frames_left (shown_by R.Rules R.Value.SceneValue self.old) }
        ensures rules { rules_of self.new ≡ rules_of self.old }
        ensures ready { IsReadyBy R.Rules R.Value.SceneValue self.new }
        ensures ok { OnOk result (Advances (R.book (rules_of self.old))
            (shown_by R.Rules R.Value.SceneValue self.old) (shown_by R.Rules R.Value.SceneValue self.new)) }
        ensures err { OnErr result (Stays (R.book (rules_of self.old))
            (shown_by R.Rules R.Value.SceneValue self.old) (shown_by R.Rules R.Value.SceneValue self.new)) }
        ensures changes { OnOk result (CountsTouchedBy R.Rules R.Value.SceneValue self.old self.new) }
        ensures unchanged { OnErr result (changes_of self.new ≡ changes_of self.old) }
    {
        prove!(self.report.frames < self.asked);
        let frame = self.report.frames + 1;
        let told = Skips::from_vec(Vec::new(alloc));
        let mut skips = mem::replace(&mut self.report.skips, told).into_vec();
        let given = commands_for(self.commands.as_slice(), frame);
        let input = FrameInput {
            number: frame,
            limit: self.limit.commands,
            places: self.places.as_slice(),
            given,
        };
        match advance(
            &self.rules,
            &self.dispatcher,
            outcome,
            &mut self.world,
            &input,
            &mut skips,
            &self.watchers,
            &mut self.kept,
            alloc,
        ) {
            Ok(()) => {
                self.report.skips = Skips::from_vec(skips);
                self.report.frames = frame;
                Ok(())
            }
            Err(cause) => {
                self.report.skips = Skips::from_vec(skips);
                self.report.refused = Some((frame, cause));
                Err(Refused)
            }
        }
    }

    /// Runs the next frame as `run_frame` does, its systems by the workers of a crew that stands by: it starts no
    /// thread.
    ///
    /// Asked for is that frames are left.
    pub fn run_frame_with<H: AllocGlobal + Wait>(
        &mut self,
        rt: &H,
        crew: &mut Crew<World<R::Value>, Pack<R::Value, Works<R, R::Value>>>,
    ) -> Result<(), Refused>
        requires ready { IsReadyBy R.Rules R.Value.SceneValue self.old }
        requires left { 0 < frames_left (shown_by R.Rules R.Value.SceneValue self.old) }
        ensures rules { rules_of self.new ≡ rules_of self.old }
        ensures ready { IsReadyBy R.Rules R.Value.SceneValue self.new }
        ensures ok { OnOk result (Advances (R.book (rules_of self.old))
            (shown_by R.Rules R.Value.SceneValue self.old) (shown_by R.Rules R.Value.SceneValue self.new)) }
        ensures err { OnErr result (Stays (R.book (rules_of self.old))
            (shown_by R.Rules R.Value.SceneValue self.old) (shown_by R.Rules R.Value.SceneValue self.new)) }
        ensures changes { OnOk result (CountsTouchedBy R.Rules R.Value.SceneValue self.old self.new) }
        ensures unchanged { OnErr result (changes_of self.new ≡ changes_of self.old) }
    {
        if self.is_over() {
            return Err(Refused);
        }
        begin_frame(&self.rules, &mut self.world, &self.watchers);
        let outcome = self
            .dispatcher
            .run_systems_with(rt, crew, &self.rules, &mut self.world);
        self.finish(rt.alloc(), outcome)
    }
}

impl<R: Rules + Drop + Send + Sync> Scene<R>
where
    R::Value: Drop + Send + Sync,
    R::Data: Send + Sync,
    R::Global: Send + Sync,
    R::System: Send + Sync,
{
    ghost use Rattle.scene.specs.Turns.{Advances, Stays, frames_left};
    ghost use Rattle.scene.specs.Running.{rules_of, changes_of};

    /// Runs the next frame: its systems on the dispatcher, then its commands.
    ///
    /// An accepted frame takes the scene to the one after, whatever the number of workers. A refused frame leaves the
    /// scene as it was, and the report tells the frame and the cause; from then on each further call is refused and
    /// changes nothing.
    ///
    /// An accepted frame counts a change for each touched index that bore an entry before it, and one for each that bears
    /// one after it: those of which the events of a part's or of the markers' storage tell since the accepted frame before,
    /// or since the document was loaded. A refused frame counts none.
    ///
    /// Asked for is that frames are left.
    pub fn run_frame<H: AllocGlobal + Threads + Wait + Sync>(
        &mut self,
        rt: &H,
    ) -> Result<(), Refused>
        requires ready { IsReadyBy R.Rules R.Value.SceneValue self.old }
        requires left { 0 < frames_left (shown_by R.Rules R.Value.SceneValue self.old) }
        ensures rules { rules_of self.new ≡ rules_of self.old }
        ensures ready { IsReadyBy R.Rules R.Value.SceneValue self.new }
        ensures ok { OnOk result (Advances (R.book (rules_of self.old))
            (shown_by R.Rules R.Value.SceneValue self.old) (shown_by R.Rules R.Value.SceneValue self.new)) }
        ensures err { OnErr result (Stays (R.book (rules_of self.old))
            (shown_by R.Rules R.Value.SceneValue self.old) (shown_by R.Rules R.Value.SceneValue self.new)) }
        ensures changes { OnOk result (CountsTouchedBy R.Rules R.Value.SceneValue self.old self.new) }
        ensures unchanged { OnErr result (changes_of self.new ≡ changes_of self.old) }
    {
        if self.is_over() {
            return Err(Refused);
        }
        begin_frame(&self.rules, &mut self.world, &self.watchers);
        let outcome = self
            .dispatcher
            .run_systems(rt, &self.rules, &mut self.world);
        self.finish(rt.alloc(), outcome)
    }
}
