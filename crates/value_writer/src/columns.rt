//! The files of the columns of a scene's rules: where parts and globals stand, and why the calls do what is asked.
use crate::imports::put_column_imports;
use crate::list::List;
use crate::pieces::{Piece, put_pieces};
use std::alloc::{AllocError, Global};

/// What is named in ghost text.
const HEAD: [Piece; 1] = [Piece::Once(
    "==> crates/@crate@/src/columns.rt
//! Where the parts and globals of the rules stand in a world: what @list@.list names, of which tools/values wrote this.
ghost use Rattle.std.specs.Prelude.{Some, refl};
ghost use Rattle.@crate@.specs.@specs@.{columns, kinds-apart};

",
)];

/// Where the columns stand.
const STAND: [Piece; 8] = [
    Piece::Columns(
        "/// The storage of a kind.
type @plural@ = MaskedStorage<@name@>;

",
    ),
    Piece::Once(
        "impl WorldRules for @rules@ {
    type Value = Value;

    ghost columns = { columns };

    ghost named_so = { λ _. record { parts = refl; owning = refl; globals = refl } };

    ghost apart = { kinds-apart };

    fn part_id(@kind@: &str) -> ResourceId {
",
    ),
    Piece::ColumnsLast(
        "        if kind == \"@snake@\" {
            return ResourceId::from_type_id(@number@);
        }
",
        "        ResourceId::from_type_id(@number@)
",
    ),
    Piece::Once(
        "    }

    fn owning(_kind: &str) -> bool {
        false
    }

    fn global_id(@global@: &str) -> ResourceId {
",
    ),
    Piece::GlobalsLast(
        "        if name == \"@snake@\" {
            return ResourceId::from_type_id(@number@);
        }
",
        "        ResourceId::from_type_id(@number@)
",
    ),
    Piece::NoGlobal(
        "        ResourceId::from_type_id(0)
",
    ),
    Piece::Once(
        "    }

    fn register(world: &mut World<Value>, store: Store, alloc: Global) -> Result<(), AllocError> {
",
    ),
    Piece::ColumnsLast(
        "        columns::register::<@plural@, Value>(world, store, alloc)?;
",
        "        columns::register::<@plural@, Value>(world, store, alloc)
",
    ),
];

/// The calls at a column.
const CALLS: [Piece; 20] = [
    Piece::Once(
        "    }

    fn put(
        value: &mut Value,
        @kind@: &str,
        index: u32,
        datum: &@data@,
        named: &[Entity],
    ) -> Result<(), AllocError> {
",
    ),
    Piece::ColumnsLast(
        "        if kind == \"@snake@\" {
            return columns::put::<@plural@, Value>(value, index, datum, named);
        }
",
        "        columns::put::<@plural@, Value>(value, index, datum, named)
",
    ),
    Piece::Once(
        "    }

    fn take(value: &mut Value, @kind@: &str, index: u32) -> Result<(), AllocError> {
",
    ),
    Piece::ColumnsLast(
        "        if kind == \"@snake@\" {
            return columns::take::<@plural@, Value>(value, index);
        }
",
        "        columns::take::<@plural@, Value>(value, index)
",
    ),
    Piece::Once(
        "    }

    fn reader(value: &mut Value, @kind@: &str) -> Result<ReaderId, AllocError> {
",
    ),
    Piece::ColumnsLast(
        "        if kind == \"@snake@\" {
            return columns::reader::<@plural@, Value>(value);
        }
",
        "        columns::reader::<@plural@, Value>(value)
",
    ),
    Piece::Once(
        "    }

    fn events(
        value: &Value,
        @kind@: &str,
        reader: &ReaderId,
        into: &mut BitSet,
    ) -> Result<(), AllocError> {
",
    ),
    Piece::ColumnsLast(
        "        if kind == \"@snake@\" {
            return columns::events::<@plural@, Value>(value, reader, into);
        }
",
        "        columns::events::<@plural@, Value>(value, reader, into)
",
    ),
    Piece::Once(
        "    }

    fn catch_up(value: &mut Value, @kind@: &str, reader: &ReaderId) {
",
    ),
    Piece::ColumnsLast(
        "        if kind == \"@snake@\" {
            return columns::catch_up::<@plural@, Value>(value, reader);
        }
",
        "        columns::catch_up::<@plural@, Value>(value, reader);
",
    ),
    Piece::Once(
        "    }

    fn named_at(
        value: &Value,
        @kind@: &str,
        index: u32,
        named: &mut Vec<Entity>,
    ) -> Result<(), AllocError> {
",
    ),
    Piece::ColumnsLast(
        "        if kind == \"@snake@\" {
            return columns::named_at::<@plural@, Value>(value, index, named);
        }
",
        "        columns::named_at::<@plural@, Value>(value, index, named)
",
    ),
    Piece::Once(
        "    }

    fn get(
        value: &Value,
        @kind@: &str,
        index: u32,
        ids: &[u64],
        _alloc: Global,
    ) -> Result<Option<@data@>, AllocError> {
",
    ),
    Piece::ColumnsLast(
        "        if kind == \"@snake@\" {
            return columns::get::<@plural@, Value>(value, index, ids);
        }
",
        "        columns::get::<@plural@, Value>(value, index, ids)
",
    ),
    Piece::Once(
        "    }

    fn names_nobody(value: &Value, @kind@: &str) -> bool {
",
    ),
    Piece::ColumnsLast(
        "        if kind == \"@snake@\" {
            return columns::names_nobody::<@plural@, Value>(value);
        }
",
        "        columns::names_nobody::<@plural@, Value>(value)
",
    ),
    Piece::Once(
        "    }

    fn holders<'a>(value: &'a Value, @kind@: &str) -> Option<&'a BitSet> {
",
    ),
    Piece::ColumnsLast(
        "        if kind == \"@snake@\" {
            return columns::holders::<@plural@, Value>(value);
        }
",
        "        columns::holders::<@plural@, Value>(value)
",
    ),
    Piece::Once(
        "    }

    fn get_each(
        value: &Value,
        @kind@: &str,
        entities: &[(u64, u32)],
        alloc: Global,
    ) -> Result<Option<Vec<(u64, Option<@data@>)>>, AllocError> {
",
    ),
    Piece::ColumnsLast(
        "        if kind == \"@snake@\" {
            return columns::get_each::<@plural@, Value>(value, entities, alloc);
        }
",
        "        columns::get_each::<@plural@, Value>(value, entities, alloc)
",
    ),
];

/// The calls at a global, and the end of the file.
const GLOBALS: [Piece; 8] = [
    Piece::Once(
        "    }

    fn to_value(@global@: &str, @global value@: u64) -> Option<Value> {
",
    ),
    Piece::GlobalsLast(
        "        if name == \"@snake@\" {
            return Some(Value::@name@Value(global));
        }
",
        "        Some(Value::@name@Value(global))
",
    ),
    Piece::NoGlobal(
        "        None
",
    ),
    Piece::Once(
        "    }

    fn as_global<'a>(@global@: &str, @held@: &'a Value) -> Option<&'a u64> {
",
    ),
    Piece::GlobalsLast(
        "        if name == \"@snake@\" {
            return match value {
                Value::@name@Value(global) => Some(global),
                _ => None,
            };
        }
",
        "        match value {
            Value::@name@Value(global) => Some(global),
            _ => None,
        }
",
    ),
    Piece::NoGlobal(
        "        None
",
    ),
    Piece::Once(
        "    }
}
",
    ),
    Piece::GlobalsLast(
        "",
        "
impl CountingRules for @rules@ {
    fn number_of(global: &u64) -> Option<u64> {
        Some(*global)
    }

    fn counted(number: u64) -> u64 {
        number
    }
}
",
    ),
];

/// What answers the goals of the calls at a column, where none is found.
const PASSED: [Piece; 16] = [
    Piece::Once(
        "==> crates/@crate@/proofs/columns/@rules@WorldRules/put/Answers.antt
use Rattle.std.proofs.Common.{◌≡◌, ℕ, Bool, [], ◌∷◌, Option, sym, ◌∙◌}
use Rattle.std.specs.Prelude.{OnErr}
use Rattle.scene_world.specs.Putting.{SameColumn}
use Rattle.specs_layouts.specs.Channels.{Log}
use Rattle.specs_layouts.specs.declared.track.ComponentEvent.{ComponentEvent}
use Rattle.scene_world.specs.Stored.{Stored}
use Rattle.scene_world.proofs.CallerLemmas.{first-kind, next-kind}
use Rattle.@crate@.specs.declared.@module@.Value.{Value}
",
    ),
    Piece::Columns(
        "use Rattle.@crate@.specs.@specs@.{@snake@_column}
",
    ),
    Piece::Once(
        "use Rattle.@crate@.proofs.columns.@rules@WorldRules.put.Goals as goal
",
    ),
    Piece::ColumnsLast(
        "
pub returns-then-eq@place@-clause-err : goal.returns-then-eq@place@-clause-err
returns-then-eq@place@-clause-err c =
    let Holds : (Value → ℕ → Option Stored) → (Value → Log ComponentEvent) → (Value → Bool) → Type 0 = λ stored events emits.
    OnErr c.put@branch@.result (SameColumn stored c.args.value.now c.put@branch@.new.value) in
    @passing@c.put@branch@.ensures.err@closing@
",
        "
pub returns-clause-err : goal.returns-clause-err
returns-clause-err c =
    let Holds : (Value → ℕ → Option Stored) → (Value → Log ComponentEvent) → (Value → Bool) → Type 0 = λ stored events emits.
    OnErr c.put@last@.result (SameColumn stored c.args.value.now c.put@last@.new.value) in
    @passing@c.put@last@.ensures.err@closing@
",
    ),
    Piece::Once(
        "==> crates/@crate@/proofs/columns/@rules@WorldRules/take/Answers.antt
use Rattle.std.proofs.Common.{◌≡◌, ℕ, Bool, [], ◌∷◌, Option, sym, ◌∙◌}
use Rattle.std.specs.Prelude.{OnErr}
use Rattle.scene_world.specs.Putting.{SameColumn}
use Rattle.specs_layouts.specs.Channels.{Log}
use Rattle.specs_layouts.specs.declared.track.ComponentEvent.{ComponentEvent}
use Rattle.scene_world.specs.Stored.{Stored}
use Rattle.scene_world.proofs.CallerLemmas.{first-kind, next-kind}
use Rattle.@crate@.specs.declared.@module@.Value.{Value}
",
    ),
    Piece::Columns(
        "use Rattle.@crate@.specs.@specs@.{@snake@_column}
",
    ),
    Piece::Once(
        "use Rattle.@crate@.proofs.columns.@rules@WorldRules.take.Goals as goal
",
    ),
    Piece::ColumnsLast(
        "
pub returns-then-eq@place@-clause-err : goal.returns-then-eq@place@-clause-err
returns-then-eq@place@-clause-err c =
    let Holds : (Value → ℕ → Option Stored) → (Value → Log ComponentEvent) → (Value → Bool) → Type 0 = λ stored events emits.
    OnErr c.take@branch@.result (SameColumn stored c.args.value.now c.take@branch@.new.value) in
    @passing@c.take@branch@.ensures.err@closing@
",
        "
pub returns-clause-err : goal.returns-clause-err
returns-clause-err c =
    let Holds : (Value → ℕ → Option Stored) → (Value → Log ComponentEvent) → (Value → Bool) → Type 0 = λ stored events emits.
    OnErr c.take@last@.result (SameColumn stored c.args.value.now c.take@last@.new.value) in
    @passing@c.take@last@.ensures.err@closing@
",
    ),
    Piece::Once(
        "==> crates/@crate@/proofs/columns/@rules@WorldRules/catch_up/Answers.antt
use Rattle.std.proofs.Common.{◌≡◌, ℕ, Bool, [], ◌∷◌, Option, sym, ◌∙◌}
use Rattle.scene_world.specs.Telling.{CatchesUp}
use Rattle.specs_layouts.specs.Channels.{Log}
use Rattle.specs_layouts.specs.declared.track.ComponentEvent.{ComponentEvent}
use Rattle.scene_world.specs.Stored.{Stored}
use Rattle.scene_world.proofs.CallerLemmas.{first-kind, next-kind}
use Rattle.@crate@.specs.declared.@module@.Value.{Value}
",
    ),
    Piece::Columns(
        "use Rattle.@crate@.specs.@specs@.{@snake@_column}
",
    ),
    Piece::Once(
        "use Rattle.@crate@.proofs.columns.@rules@WorldRules.catch_up.Goals as goal
",
    ),
    Piece::ColumnsLast(
        "
pub returns-then-eq@place@ : goal.returns-then-eq@place@
returns-then-eq@place@ c =
    let Holds : (Value → ℕ → Option Stored) → (Value → Log ComponentEvent) → (Value → Bool) → Type 0 = λ stored events emits.
    CatchesUp stored events emits c.args.reader.now c.args.value.now c.catch_up@branch@.new.value in
    @passing@c.catch_up@branch@.ensures@closing@
",
        "
pub returns : goal.returns
returns c =
    let Holds : (Value → ℕ → Option Stored) → (Value → Log ComponentEvent) → (Value → Bool) → Type 0 = λ stored events emits.
    CatchesUp stored events emits c.args.reader.now c.args.value.now c.catch_up@last@.new.value in
    @passing@c.catch_up@last@.ensures@closing@
",
    ),
    Piece::Once(
        "==> crates/@crate@/proofs/columns/@rules@WorldRules/names_nobody/Answers.antt
use Rattle.std.proofs.Common.{◌≡◌, ℕ, Bool, [], ◌∷◌, Option, sym, ◌∙◌}
use Rattle.std.proofs.Common.{true}
use Rattle.scene_world.specs.Putting.{named_in}
use Rattle.specs_layouts.specs.Channels.{Log}
use Rattle.specs_layouts.specs.declared.track.ComponentEvent.{ComponentEvent}
use Rattle.scene_world.specs.Stored.{Stored}
use Rattle.scene_world.proofs.CallerLemmas.{first-kind, next-kind}
use Rattle.@crate@.specs.declared.@module@.Value.{Value}
",
    ),
    Piece::Columns(
        "use Rattle.@crate@.specs.@specs@.{@snake@_column}
",
    ),
    Piece::Once(
        "use Rattle.@crate@.proofs.columns.@rules@WorldRules.names_nobody.Goals as goal
",
    ),
    Piece::ColumnsLast(
        "",
        "
pub returns : goal.returns
returns c =
    let Holds : (Value → ℕ → Option Stored) → (Value → Log ComponentEvent) → (Value → Bool) → Type 0 = λ stored events emits.
    c.names_nobody@last@.result ≡ true → (index : ℕ) → named_in (stored c.args.value.now index) ≡ [] in
    @passing@c.names_nobody@last@.ensures@closing@
",
    ),
];

/// What answers the goal of `register`.
const REGISTERED: [Piece; 6] = [
    Piece::Once(
        "==> crates/@crate@/proofs/columns/@rules@WorldRules/register/Answers.antt
use Rattle.std.proofs.Common.{false, refl}
use Rattle.std.proofs.lemmas.Result.{on_ok_weaker}
use Rattle.scene_world.proofs.CallerLemmas.{plain-registers}
use Rattle.@crate@.specs.@specs@.{all_columns, all_globals}
use Rattle.@crate@.proofs.columns.@rules@WorldRules.register.Goals as goal

pub returns : goal.returns
returns c =
",
    ),
    Piece::ColumnsLast(
        "",
        "    on_ok_weaker c.register@place@.result
    (λ last. plain-registers (λ kind. false) all_columns all_globals c.args.world.now c.register@place@.new.world refl
    (",
    ),
    Piece::ColumnsLast(
        "c.register@place@.new.world, c.in_ok-register@place@.ensures.ok, (",
        "c.register@place@.new.world, last, refl)",
    ),
    Piece::ColumnsLast(")", ""),
    Piece::Once(
        ")
",
    ),
    Piece::ColumnsLast(
        "",
        "    c.register@place@.ensures.ok
",
    ),
];

/// Puts the file of the columns, and those that answer the goals of its calls.
///
/// Errors: want of memory, which leaves a part of them behind the bytes.
pub(crate) fn put_columns(out: &mut Vec<u8>, alloc: Global, list: &List) -> Result<(), AllocError> {
    put_pieces(out, list, &HEAD)?;
    put_column_imports(out, alloc, list)?;
    put_pieces(out, list, &STAND)?;
    put_pieces(out, list, &CALLS)?;
    put_pieces(out, list, &GLOBALS)?;
    put_pieces(out, list, &PASSED)?;
    put_pieces(out, list, &REGISTERED)
}
