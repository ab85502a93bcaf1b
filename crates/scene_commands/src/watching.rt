//! Readers of the events of a world.
ghost use Rattle.std.specs.Prelude.{◌≡◌, IfOk, OnOk};
ghost use Rattle.scene_model.specs.Declaring.{texts};
ghost use Rattle.scene_world.specs.Members.{kinds_by};
ghost use Rattle.scene_world.specs.Markers.{marker_at, marker_log, marker_tells};
ghost use Rattle.scene_world.specs.Telling.{TellsAll};
ghost use Rattle.scene_commands.specs.Acts.{seen_of};
ghost use Rattle.scene_commands.specs.Watching.{GainsWatcher, WatchesKind, WatchesMarkers, AreWatched, WatchesKinds};
ghost use Rattle.scene_commands.specs.Watching.{StaysButEvents, reader_at};

use scene_model::DocumentRules;
use scene_world::{Rules, SceneMarker, SceneValue, gain_reader};
use shred_world::World;
use specs_layouts::{MaskedStorage, ReaderId};
use std::alloc::{AllocError, Global};

/// Two readers of the events of a kind, or of the markers.
#[derive(Drop)]
pub struct Watcher {
    /// Reads as a frame ends.
    pub frame: ReaderId,
    /// Reads as the next frame begins.
    pub next: ReaderId,
}

/// Which of two readers reads.
#[derive(Clone, Copy)]
pub enum ReaderTurn {
    /// The one who reads as a frame ends.
    Frame,
    /// The one who reads as the next frame begins.
    Next,
}

impl Watcher {
    /// The reader who reads at a turn.
    pub fn reader(&self, turn: ReaderTurn) -> &ReaderId
        ensures { result.now ≡ reader_at turn self.now }
    {
        match turn {
            ReaderTurn::Frame => &self.frame,
            ReaderTurn::Next => &self.next,
        }
    }
}

/// Two readers of the events of the markers, and two of those of each kind of the rules, in the order of their names.
#[derive(Drop)]
pub struct Watchers {
    /// Those of the markers.
    pub markers: Watcher,
    /// Those of the kinds.
    pub parts: Vec<Watcher>,
}

/// Registers two readers of the events of a kind in a value. Errors: want of memory, and where it isn't of that kind.
fn watch_value<R: Rules>(value: &mut R::Value, kind: &str) -> Result<Watcher, AllocError>
    ensures { IfOk result (λ watcher. GainsWatcher (R.columns.stored kind.now) (R.columns.events kind.now)
        (R.columns.emits kind.now) watcher value.old value.new) }
{
    let frame = R::reader(value, kind)?;
    let next = R::reader(value, kind)?;
    Ok(Watcher { frame, next })
}

/// Registers two readers of the events of a kind. Errors: want of memory.
fn watch_kind<R: Rules>(world: &mut World<R::Value>, kind: &str) -> Result<Watcher, AllocError>
    ensures { IfOk result (λ watcher. WatchesKind (kinds_by R.Rules R.Value.SceneValue) kind.now watcher
        (seen_of world.old) (seen_of world.new)) }
{
    match world.get_mut_raw(R::part_id(kind)) {
        Some(value) => watch_value::<R>(value, kind),
        None => Err(AllocError),
    }
}

/// Registers two readers of the events of each of some kinds. Errors: want of memory.
fn watch_kinds<R: Rules>(
    world: &mut World<R::Value>,
    names: &[&'static str],
    alloc: Global,
) -> Result<Vec<Watcher>, AllocError>
    requires { texts names.now ≡ R.columns.part_names }
    ensures { IfOk result (λ watchers. WatchesKinds (kinds_by R.Rules R.Value.SceneValue) R.columns.part_names
        watchers.items (seen_of world.old) (seen_of world.new)) }
{
    let mut watchers = Vec::new(alloc);
    for kind in names {
        let watcher = watch_kind::<R>(world, kind)?;
        watchers.push(watcher)?;
    }
    Ok(watchers)
}

/// Registers two readers of the events of some markers. Errors: want of memory.
fn watch_storage(storage: &mut MaskedStorage<SceneMarker>) -> Result<Watcher, AllocError>
    ensures { IfOk result (λ watcher. GainsWatcher marker_at marker_log marker_tells watcher storage.old
        storage.new) }
{
    let frame = gain_reader(storage)?;
    let next = gain_reader(storage)?;
    Ok(Watcher { frame, next })
}

/// Registers two readers of the events of the markers. Errors: want of memory.
fn watch_markers<R: Rules>(world: &mut World<R::Value>) -> Result<Watcher, AllocError>
    ensures { IfOk result (λ watcher. WatchesMarkers (kinds_by R.Rules R.Value.SceneValue) watcher
        (seen_of world.old) (seen_of world.new)) }
{
    let id = <R::Value as SceneValue<R::Data>>::markers_id();
    let Some(value) = world.take_raw(id) else {
        return Err(AllocError);
    };
    match <R::Value as SceneValue<R::Data>>::unwrap_markers(value) {
        Ok(mut markers) => {
            let outcome = watch_storage(&mut markers);
            world.put_back(id, <R::Value as SceneValue<R::Data>>::wrap_markers(markers));
            match outcome {
                Ok(watcher) => Ok(watcher),
                Err(_) => Err(AllocError),
            }
        }
        Err(other) => {
            world.put_back(id, other);
            Err(AllocError)
        }
    }
}

/// Registers two readers of the events of the markers and of each kind of the rules, who are told of what becomes of
/// the world from now on: emission is on everywhere. Nothing else in the world is another.
///
/// Errors: want of memory; some of the readers may be registered then.
pub fn watch_world<R: Rules>(
    rules: &R,
    world: &mut World<R::Value>,
    alloc: Global,
) -> Result<Watchers, AllocError>
    ensures watched { IfOk result (λ watchers. AreWatched (kinds_by R.Rules R.Value.SceneValue)
        R.columns.part_names watchers (seen_of world.new)) }
    ensures telling { OnOk result (TellsAll (kinds_by R.Rules R.Value.SceneValue) (seen_of world.new)) }
    ensures stays { OnOk result
        (StaysButEvents (kinds_by R.Rules R.Value.SceneValue) (seen_of world.old) (seen_of world.new)) }
{
    let markers = watch_markers::<R>(world)?;
    let parts = watch_kinds::<R>(world, rules.part_names(), alloc)?;
    Ok(Watchers { markers, parts })
}
