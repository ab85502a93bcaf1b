//! Readers of the events of a world read all of them.
ghost use Rattle.std.specs.Prelude.{◌≡◌, length};
ghost use Rattle.scene_model.specs.Declaring.{texts};
ghost use Rattle.scene_model.specs.Laws.{Ascend};
ghost use Rattle.scene_world.specs.Markers.{marker_at, marker_log, marker_tells};
ghost use Rattle.scene_world.specs.Members.{kinds_by};
ghost use Rattle.scene_world.specs.Telling.{CatchesUp, TellsAll};
ghost use Rattle.scene_commands.specs.Acts.{seen_of};
ghost use Rattle.scene_commands.specs.Watching.{ReadsKind, ReadsMarkers, ReadsKinds, AllCatchUp, StaysButEvents};

use crate::{ReaderTurn, Watcher, Watchers};
use scene_world::{Rules, SceneMarker, SceneValue, catch_up_reader};
use shred_world::World;
use specs_layouts::{MaskedStorage, ReaderId};

/// A reader of a kind's events has read all of them.
fn read_kind<R: Rules>(world: &mut World<R::Value>, kind: &str, reader: &ReaderId)
    ensures { ReadsKind (kinds_by R.Rules R.Value.SceneValue) kind.now reader.now (seen_of world.old)
        (seen_of world.new) }
{
    if let Some(value) = world.get_mut_raw(R::part_id(kind)) {
        R::catch_up(value, kind, reader);
    }
}

/// Those readers of the events of some kinds who read at a turn have read all of them, each that of the kind at its place.
fn read_kinds<R: Rules>(
    world: &mut World<R::Value>,
    names: &[&'static str],
    watchers: &[Watcher],
    turn: ReaderTurn,
)
    requires known { texts names.now ≡ R.columns.part_names }
    requires ascend { Ascend (texts names.now) }
    requires many { length watchers.now ≡ length names.now }
    ensures { ReadsKinds (kinds_by R.Rules R.Value.SceneValue) turn (texts names.now) watchers.now
        (seen_of world.old) (seen_of world.new) }
{
    for place in 0..names.len() {
        read_kind::<R>(world, names[place], watchers[place].reader(turn));
    }
}

/// A reader of the events of some markers has read all of them.
fn read_storage(storage: &mut MaskedStorage<SceneMarker>, reader: &ReaderId)
    ensures { CatchesUp marker_at marker_log marker_tells reader.now storage.old storage.new }
{
    catch_up_reader(storage, reader);
}

/// A reader of the markers' events has read all of them.
fn read_markers<R: Rules>(world: &mut World<R::Value>, reader: &ReaderId)
    ensures { ReadsMarkers (kinds_by R.Rules R.Value.SceneValue) reader.now (seen_of world.old)
        (seen_of world.new) }
{
    let id = <R::Value as SceneValue<R::Data>>::markers_id();
    let Some(value) = world.take_raw(id) else {
        return;
    };
    match <R::Value as SceneValue<R::Data>>::unwrap_markers(value) {
        Ok(mut markers) => {
            read_storage(&mut markers, reader);
            world.put_back(id, <R::Value as SceneValue<R::Data>>::wrap_markers(markers));
        }
        Err(other) => world.put_back(id, other),
    }
}

/// Those readers of a world's events, of its markers and of each kind, who read at a turn have read all of them; the
/// others have what they had to read. Takes no memory. Nothing else in the world is another, and changes are told as
/// before.
pub fn catch_up_world<R: Rules>(
    rules: &R,
    world: &mut World<R::Value>,
    watchers: &Watchers,
    turn: ReaderTurn,
)
    requires many { length watchers.now.parts.items ≡ length R.columns.part_names }
    requires telling { TellsAll (kinds_by R.Rules R.Value.SceneValue) (seen_of world.old) }
    ensures caught { AllCatchUp (kinds_by R.Rules R.Value.SceneValue) turn R.columns.part_names watchers.now
        (seen_of world.old) (seen_of world.new) }
    ensures telling { TellsAll (kinds_by R.Rules R.Value.SceneValue) (seen_of world.new) }
    ensures stays { StaysButEvents (kinds_by R.Rules R.Value.SceneValue) (seen_of world.old) (seen_of world.new) }
{
    read_markers::<R>(world, watchers.markers.reader(turn));
    read_kinds::<R>(world, rules.part_names(), watchers.parts.as_slice(), turn);
}
