//! The files of a scene's values: the enum, where each kind stands, and the columns of the rules.
use crate::columns::put_columns;
use crate::documents::put_documents;
use crate::imports::put_scene_imports;
use crate::list::List;
use crate::pieces::{Piece, put_pieces};
use std::alloc::{AllocError, Global};

/// What is named in ghost text.
const GHOST: [Piece; 9] = [
    Piece::Once(
        "==> crates/@crate@/src/@path@.rt
//! What a world of the scene holds: what @list@.list names, of which tools/values wrote this.
ghost use Rattle.std.specs.Prelude.{◌≡◌, refl};
ghost use Rattle.std.proofs.Common.{rules};
",
    ),
    Piece::OnceNumbers("ghost use Rattle.scene_world.specs.Numbers.{number_stored};\n"),
    Piece::OnceReferences("ghost use Rattle.scene_world.specs.Numbers.{reference_stored};\n"),
    Piece::OncePlain("ghost use Rattle.@crate@.specs.@parts of@.{part_of};\n"),
    Piece::Resources("ghost use Rattle.@crate@.specs.@specs@.{@snake@_in};\n"),
    Piece::Once("ghost use Rattle.@crate@.specs.@specs@.{queue_in};\n"),
    Piece::Resources(
        "ghost use Rattle.@crate@.specs.declared.@module@.Value.TheVariants.{@name@Value};\n",
    ),
    Piece::Once(
        "ghost use Rattle.@crate@.specs.declared.@module@.Value.TheVariants.{QueueValue};\n",
    ),
    Piece::Once("\n"),
];

/// Parts of columns, and the begin of the enum.
const COLUMNS: [Piece; 4] = [
    Piece::Columns(
        "impl Component for @name@ {
    type Storage = SceneStorage<@name@>;
}

",
    ),
    Piece::Numbers(
        "impl PlainPart for @name@ {
    type Data = @data@;

    ghost part_of = { part_of };

    ghost stored = { λ part. number_stored part.0 };

    fn storage(alloc: Global, store: Store) -> SceneStorage<@name@> {
        scene_storage(alloc, store)
    }

    fn from_data(datum: &@data@, named: Option<Entity>) -> Option<@name@> {
        match (*datum, named) {
            (@data@::@variant@(number), None) => Some(@name@(number)),
            _ => None,
        }
    }

    fn to_data(&self, id: Option<u64>) -> Option<@data@> {
        match id {
            None => Some(@data@::@variant@(self.0)),
            Some(_) => None,
        }
    }

    fn named(&self) -> Option<Entity> {
        None
    }

    fn refers() -> bool {
        false
    }
}

impl NumberPart for @name@ {
    fn number(&self) -> u64 {
        self.0
    }

    fn datum(number: u64) -> @data@ {
        @data@::@variant@(number)
    }
}

",
    ),
    Piece::References(
        "impl PlainPart for @name@ {
    type Data = @data@;

    ghost part_of = { part_of };

    ghost stored = { λ part. reference_stored part.0 };

    fn storage(alloc: Global, store: Store) -> SceneStorage<@name@> {
        scene_storage(alloc, store)
    }

    fn from_data(datum: &@data@, named: Option<Entity>) -> Option<@name@> {
        match (*datum, named) {
            (@data@::@variant@(_), Some(entity)) => Some(@name@(entity)),
            _ => None,
        }
    }

    fn to_data(&self, id: Option<u64>) -> Option<@data@> {
        id.map(@data@::@variant@)
    }

    fn named(&self) -> Option<Entity> {
        Some(self.0)
    }

    fn refers() -> bool {
        true
    }
}

impl ReferencePart for @name@ {
    fn entity(&self) -> Entity {
        self.0
    }
}

",
    ),
    Piece::Once(
        "/// The values of a world, of one kind each.
#[derive(Drop)]
pub enum Value {
",
    ),
];

/// The end of the enum, and what is behind it.
const IMPLS: [Piece; 2] = [
    Piece::Once(
        "}

/// A value that is none of what was asked for, as it came.
fn hand_back<T>(value: Value) -> Result<T, Value>
    ensures { result ≡ Err value }
{
    Err(value)
}

impl QueueValue<@data@> for Value {
    ghost kind_number = { 3 };

    ghost wrapped = { QueueValue };

    ghost part = { queue_in };

    ghost seen = { λ _. refl };

    fn kind() -> u32 {
        3
    }

    fn wrap_queue(queue: Queue<@data@>) -> Value
        ensures { result ≡ QueueValue queue }
    {
        Value::QueueValue(queue)
    }

    fn unwrap_queue(value: Value) -> Result<Queue<@data@>, Value> {
        match value {
            Value::QueueValue(queue) => Ok(queue),
            other => hand_back(other),
        }
    }
}
",
    ),
    Piece::Resources(
        "
impl Resource<Value> for @type@ {
    ghost kind_number = { @number@ };

    ghost wrapped = { @name@Value };

    ghost part = { @snake@_in };

    ghost seen = { λ _. refl };

    ghost only_wrapped = { Prim.search rules };

    fn kind() -> u32 {
        @number@
    }

    fn wrap(self) -> Value {
        Value::@name@Value(self)
    }

    fn unwrap(value: Value) -> Result<Self, Value> {
        match value {
            Value::@name@Value(resource) => Ok(resource),
            other => hand_back(other),
        }
    }

    fn view(value: &Value) -> Option<&Self> {
        match value {
            Value::@name@Value(resource) => Some(resource),
            _ => None,
        }
    }

    fn view_mut(value: &mut Value) -> Option<&mut Self> {
        match value {
            Value::@name@Value(resource) => Some(resource),
            _ => None,
        }
    }
}
",
    ),
];

/// The head of the definitions, and what is read of a value.
const READ: [Piece; 11] = [
    Piece::Once(
        "==> crates/@crate@/specs/@specs@.antt
-- What a world of the scene holds, and where, as tools/values writes it from @list@.list.
use Rattle.std.specs.Prelude.{ℕ, false, List, [], ◌∷◌, codes, Option, Some, None, refl, option_map, option_and_then}
use Rattle.std.specs.Option.{option_map_or}
use Rattle.shred_world.specs.ResourceIds.{id_of}
use Rattle.specs_entity.specs.Births.{Births}
use Rattle.specs_layouts.specs.Channels.{no_log}
use Rattle.specs_layouts.specs.Flagged.{Flagged}
use Rattle.specs_layouts.specs.Masked.{Masked}
use Rattle.specs_layouts.specs.declared.storages.vec.VecStorage.{VecStorage}
use Rattle.specs_markers.specs.Simple.{Noting}
use Rattle.scene_model.specs.declared.command.Queue.{Queue}
use Rattle.scene_world.specs.Markers.{marker_at, marker_log, marker_tells}
use Rattle.scene_world.specs.Standing.{Kinds}
use Rattle.scene_world.specs.Places.{Places, Columns, kinds_of}
use Rattle.scene_world.specs.Columns.{Storage, PlainKind, PlainGlobal, plain_kind, plain_columns}
use Rattle.scene_world.specs.Numbers.{counted, number_stored, reference_stored}
use Rattle.scene_world.specs.Lent.{StandApart}
use Rattle.scene_world.specs.ColumnLaws.{plain-apart}
use Rattle.@crate@.specs.declared.@parts@.@data@.{@data@}
",
    ),
    Piece::Columns("use Rattle.@crate@.specs.declared.@parts@.@name@.{@name@}\n"),
    Piece::Once("use Rattle.@crate@.specs.declared.@module@.Value.{Value}\n"),
    Piece::All("use Rattle.@crate@.specs.declared.@module@.Value.TheVariants.{@name@Value}\n"),
    Piece::Once("use Rattle.@crate@.specs.@parts of@.{part_of}\n"),
    Piece::Parts("use Rattle.@crate@.specs.Rules.{@snake@_stored}\n"),
    Piece::Once("\n-- what is read of a value as one of each kind"),
    Piece::All(
        "
abbrev pub @snake@_in : Value → Option @seen type@
@readings@",
    ),
    Piece::Once("\n-- the columns and the globals, by their names"),
    Piece::Columns(
        "
abbrev pub @snake@_column : PlainKind Value
@snake@_column = plain_kind (codes \"@snake@\") @number@ @snake@_in @stored@
",
    ),
    Piece::Globals(
        "
abbrev pub @snake@_global : PlainGlobal Value
@snake@_global = record { name = codes \"@snake@\"; number = @number@; value = λ v. option_map counted (@snake@_in v) }
",
    ),
];

/// Where all stand.
const STAND: [Piece; 1] = [Piece::Once(
    "
abbrev pub all_columns : List (PlainKind Value)
all_columns = @columns behind@

abbrev pub all_globals : List (PlainGlobal Value)
all_globals = @globals@

abbrev pub columns : Columns Value
columns = plain_columns (λ kind. false) all_columns all_globals

-- where the entities, the markers, the allocator of ids and the queues stand
abbrev pub places : Places Value @data@
places = record {
  entities_id = id_of 0 0;
  markers_id = id_of 1 0;
  allocator_id = id_of 2 0;
  queue_id = λ position. id_of 3 position;
  births = entities_in;
  marker = λ v index. option_and_then (λ markers. marker_at markers index) (markers_in v);
  marker_events = λ v. option_map_or marker_log (markers_in v) no_log;
  marker_emits = λ v. option_map_or marker_tells (markers_in v) false;
  noting = allocator_in;
  queue = queue_in;
  queue_value = QueueValue;
  entities_value = EntitiesValue;
  allocator_value = AllocatorValue;
}

-- where all stand, no two of them under one id
abbrev pub kinds : Kinds Value
kinds = kinds_of places part_of columns

pub kinds-apart : StandApart kinds
kinds-apart = plain-apart places part_of (λ kind. false) all_columns all_globals (record { entities = refl; markers = refl; allocator = refl; queue = λ position. refl }) refl
",
)];

/// Puts what stands in front of the variants.
///
/// Errors: want of memory, which leaves a part of it behind the bytes.
pub(crate) fn put_scene_front(
    out: &mut Vec<u8>,
    alloc: Global,
    list: &List,
) -> Result<(), AllocError> {
    put_pieces(out, list, &GHOST)?;
    put_scene_imports(out, alloc, list)?;
    put_pieces(out, list, &COLUMNS)
}

/// Puts what stands behind the variants, the definitions, the columns of the rules, if they are named, and what the rules say of
/// documents, if systems are.
///
/// Errors: want of memory, which leaves a part of it behind the bytes.
pub(crate) fn put_scene_behind(
    out: &mut Vec<u8>,
    alloc: Global,
    list: &List,
) -> Result<(), AllocError> {
    put_pieces(out, list, &IMPLS)?;
    put_pieces(out, list, &READ)?;
    put_pieces(out, list, &STAND)?;
    if list.rules.is_some() {
        put_columns(out, alloc, list)?;
    }
    if !list.systems.is_empty() {
        put_documents(out, list)?;
    }
    Ok(())
}
