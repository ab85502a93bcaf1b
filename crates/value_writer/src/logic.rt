//! The files of the logic: what values hold and drop, and why.
use crate::bytes::put;
use crate::kind::{LAYOUTS, Layout};
use crate::list::{List, Source};
use crate::pieces::{Piece, put_pieces};
use std::alloc::AllocError;

/// The head of the definitions.
const HEAD: [Piece; 1] = [Piece::Once(
    "==> crates/@crate@/specs/@specs@.antt
-- What values hold and drop, by the storages in them, as tools/values writes it from @list@.list.
use Rattle.std.proofs.Common.{◌≡◌, ℕ, Bool, false, not, ◌&&◌, eqb, List, [], ◌++◌, Option, None, Some, refl}
use Rattle.std.specs.List.{list_any}
use Rattle.@masked@.{Masked}
",
)];

/// The names of what values are made of, and what they hold.
const HOLDS: [Piece; 14] = [
    Piece::Once(
        "use Rattle.@variants@.{DropsWithin, within-none, within-append, within-parts}
use Rattle.@variants@.{stays-append, stays-parts}
",
    ),
    Piece::Components(
        "use Rattle.@crate@.specs.declared.@parts@.@name@.{@name@}
",
    ),
    Piece::Once(
        "use Rattle.@crate@.specs.declared.@module@.Value.{Value}
",
    ),
    Piece::All(
        "use Rattle.@crate@.specs.declared.@module@.Value.TheVariants.{@name@Value}
",
    ),
    Piece::Once(
        "
-- the storages of the kinds",
    ),
    Piece::Storages(
        "
abbrev pub @plural@ : Type 0
@plural@ = Masked (@seen@)
",
    ),
    Piece::Once(
        "
-- the storage of a kind in a value",
    ),
    Piece::Storages(
        "
abbrev pub @snake@_part : Value → Option @plural@
@parts cases@",
    ),
    Piece::Once(
        "
-- whether an index has a part
abbrev pub value_has_part : @has types@Value → ℕ → Bool
",
    ),
    Piece::Either(
        "value_has_part@each has@ (@name@Value s) index = has_@snake@ s index\n",
        "value_has_part@each has@ (@name@Value x) index = false\n",
    ),
    Piece::Once(
        "
-- whether so many drops find room
abbrev pub value_has_room : @room types@Value → ℕ → Type 0
",
    ),
    Piece::Either(
        "value_has_room@each room@ (@name@Value s) count = room_@snake@ s count\n",
        "value_has_room@each room@ (@name@Value x) count = Unit {0}\n",
    ),
    Piece::Once(
        "
-- what a value is after drops
abbrev pub value_drops : @drops types@Value → List ℕ → Value → Type 0
",
    ),
    Piece::Either(
        "value_drops@each drops@ (@name@Value s) indices after =
    DropsWithin @name@Value drops_@snake@ s indices after
",
        "value_drops@each drops@ (@name@Value x) indices after = after ≡ @name@Value x\n",
    ),
];

/// What follows of drops.
const FOLLOWS: [Piece; 8] = [
    Piece::Once(
        "
module _@drops given@ where
  pub value-none : @none types@(v : Value) → value_drops@each drops@ v [] v
",
    ),
    Piece::Either(
        "  value-none@each none@ (@name@Value s) =
      within-none @name@Value drops_@snake@ (value_drops@each drops@) none_@snake@ s
",
        "  value-none@each none@ (@name@Value x) = refl\n",
    ),
    Piece::Once(
        "
  pub value-append :",
    ),
    Piece::Storages(
        " ((first second third : @plural@) (indices others : List ℕ)
      → drops_@snake@ first indices second → drops_@snake@ second others third
      → drops_@snake@ first (indices ++ others) third)
      →",
    ),
    Piece::Once(
        " (first second third : Value) (indices others : List ℕ)
      → value_drops@each drops@ first indices second → value_drops@each drops@ second others third
      → value_drops@each drops@ first (indices ++ others) third
",
    ),
    Piece::Either(
        "  value-append@each append@ (@name@Value s) second third indices others one other =
      within-append @name@Value drops_@snake@ (value_drops@each drops@) (λ _ _ _ is. is) append_@snake@
      s second third indices others one other
",
        "  value-append@each append@ (@name@Value x) second third indices others one other =
      stays-append (value_drops@each drops@) (@name@Value x) second third others (λ is. is) one other
",
    ),
    Piece::Once(
        "
pub value-parts :@has given@@drops given@
    →",
    ),
    Piece::Storages(
        " ((before after : @plural@) (indices : List ℕ) → drops_@snake@ before indices after → (index : ℕ)
    → has_@snake@ after index ≡ (not (list_any (eqb index) indices) && has_@snake@ before index))
    →",
    ),
];

/// Which parts values have after drops.
const PARTS: [Piece; 2] = [
    Piece::Once(
        " (before after : Value) (indices : List ℕ) → value_drops@each drops@ before indices after → (index : ℕ)
    → value_has_part@each has@ after index
    ≡ (not (list_any (eqb index) indices) && value_has_part@each has@ before index)
",
    ),
    Piece::Either(
        "value-parts@each has@@each drops@@each lost@ (@name@Value s) after indices dropped index =
    within-parts (value_has_part@each has@) @name@Value has_@snake@ (λ _ _. refl) s dropped.0 after indices dropped.1
    index (lost_@snake@ s dropped.0 indices dropped.2 index)
",
        "value-parts@each has@@each drops@@each lost@ (@name@Value x) after indices is index =
    stays-parts (value_has_part@each has@) (@name@Value x) after (λ _. refl) is _ index
",
    ),
];

/// Lemmas for the proof of `drop`.
const LEMMAS: [Piece; 6] = [
    Piece::Once(
        "==> crates/@crate@/proofs/@specs@DropLemmas.antt
-- What a value is after the storage in it dropped parts, as tools/values writes it from @list@.list.
use Rattle.std.proofs.Common.{◌≡◌, ℕ, List, Result, OnOk, refl, sym, subst}
use Rattle.std.proofs.lemmas.Result.{on_ok_weaker}
use Rattle.@crate@.specs.@specs@.{value_drops}
",
    ),
    Piece::OnceToldOf(
        "use Rattle.std.proofs.Common.{OnErr}
use Rattle.std.proofs.lemmas.Result.{on_err_weaker}
",
    ),
    Piece::Storages(
        "use Rattle.@crate@.specs.@specs@.{@plural@}
",
    ),
    Piece::Once(
        "use Rattle.@crate@.specs.declared.@module@.Value.{Value}
",
    ),
    Piece::Storages(
        "use Rattle.@crate@.specs.declared.@module@.Value.TheVariants.{@name@Value}
",
    ),
    Piece::Once(
        "
module _ {T E : Type 0}@drops given@ (indices : List ℕ) (value : Value) (r : Result T E) where",
    ),
];

const DROPS: [Piece; 2] = [
    Piece::Storages(
        "
  pub drops-@snake@ : (was now : @plural@) → value ≡ @name@Value was → OnOk r (drops_@snake@ was indices now)
      → OnOk r (value_drops@each drops@ value indices (@name@Value now))
  drops-@snake@ was now is =
      on_ok_weaker r
      (λ dropped. subst (λ v. value_drops@each drops@ v indices (@name@Value now)) (sym is) (now, refl, dropped))
",
    ),
    Piece::Flagged(
        "
  pub keeps-@snake@ : (was now : @plural@) → value ≡ @name@Value was → OnErr r (drops_@snake@ was indices now)
      → OnErr r (value_drops@each drops@ value indices (@name@Value now))
  keeps-@snake@ was now is =
      on_err_weaker r
      (λ kept. subst (λ v. value_drops@each drops@ v indices (@name@Value now)) (sym is) (now, refl, kept))
",
    ),
];

/// What answers the goals of `drop`.
const DROP: [Piece; 7] = [
    Piece::Once(
        "==> crates/@crate@/proofs/@path@/ValueAnyStorage/drop/Answers.antt
use Rattle.@drops@.{ids_of}
",
    ),
    Piece::OnceToldOf(
        "use Rattle.std.proofs.Common.{[]}
",
    ),
    Piece::Flagged(
        "use Rattle.@crate@.proofs.@specs@DropLemmas.{keeps-@snake@}
",
    ),
    Piece::Storages(
        "use Rattle.@crate@.proofs.@specs@DropLemmas.{drops-@snake@}
",
    ),
    Piece::Once(
        "use Rattle.@crate@.proofs.@module@.ValueAnyStorage.drop.Goals as goal
",
    ),
    Piece::Storages(
        "
pub returns-in-@name@Value-clause-ok : goal.returns-in-@name@Value-clause-ok
returns-in-@name@Value-clause-ok c =
    drops-@snake@@each hole@ (ids_of c.args.entities.now) c.args.self.now c.drop@call@.result
    c.in-@name@Value.storage c.drop@call@.new.self c.in-@name@Value.is c.drop@call@.ensures.ok
",
    ),
    Piece::Flagged(
        "
pub returns-in-@name@Value-clause-err : goal.returns-in-@name@Value-clause-err
returns-in-@name@Value-clause-err c =
    keeps-@snake@@each hole@ [] c.args.self.now c.drop@call@.result
    c.in-@name@Value.storage c.drop@call@.new.self c.in-@name@Value.is c.drop@call@.ensures.err
",
    ),
];

/// What answers the goals of `make_room`.
const MAKE_ROOM: [Piece; 4] = [
    Piece::Once(
        "==> crates/@crate@/proofs/@path@/ValueAnyStorage/make_room/Answers.antt
use Rattle.std.proofs.Common.{[], refl, sym, subst}
use Rattle.@crate@.specs.@specs@.{value_drops}
",
    ),
    Piece::Storages(
        "use Rattle.@crate@.specs.declared.@module@.Value.TheVariants.{@name@Value}
",
    ),
    Piece::Once(
        "use Rattle.@crate@.proofs.@module@.ValueAnyStorage.make_room.Goals as goal
",
    ),
    Piece::Storages(
        "
pub returns-in-@name@Value-clause-same : goal.returns-in-@name@Value-clause-same
returns-in-@name@Value-clause-same c =
    subst (λ v. value_drops@each hole@ v [] (@name@Value c.make_room@call@.new.self)) (sym c.in-@name@Value.is)
    (c.make_room@call@.new.self, refl, c.make_room@call@.ensures.same)
",
    ),
];

/// Whether a storage of a list has a layout.
fn has_layout(list: &List, layout: Layout) -> bool {
    list.kinds
        .iter()
        .any(|kind| kind.form.layout() == Some(layout))
}

/// Puts where the logic has a storage.
fn put_layout(
    out: &mut Vec<u8>,
    source: Source,
    module: &str,
    name: &str,
) -> Result<(), AllocError> {
    put(out, "use Rattle.")?;
    match source {
        Source::Crates => {
            put(out, "specs_layouts.specs.declared.")?;
            put(out, module)?;
            put(out, ".")?;
            put(out, name)?;
        }
        Source::Specs => put(out, "specs.specs.ForStorages")?,
    }
    put(out, ".{")?;
    put(out, name)?;
    put(out, "}\n")
}

/// Puts where the logic has each storage that is used.
fn put_layouts(out: &mut Vec<u8>, list: &List) -> Result<(), AllocError> {
    for layout in LAYOUTS {
        if has_layout(list, layout) {
            put_layout(out, list.source, layout.module(), layout.name())?;
        }
    }
    if list.kinds.iter().any(|kind| kind.form.is_flagged()) {
        put_layout(out, list.source, "flagged", "FlaggedStorage")?;
    }
    Ok(())
}

/// Puts the file of the definitions that the values of a list are stated with.
///
/// Errors: want of memory, which leaves a part of it behind the bytes.
pub(crate) fn put_specs(out: &mut Vec<u8>, list: &List) -> Result<(), AllocError> {
    put_pieces(out, list, &HEAD)?;
    put_layouts(out, list)?;
    put_pieces(out, list, &HOLDS)?;
    put_pieces(out, list, &FOLLOWS)?;
    put_pieces(out, list, &PARTS)
}

/// Puts the file of the lemmas that the answers cite.
///
/// Errors: want of memory, which leaves a part of it behind the bytes.
pub(crate) fn put_lemmas(out: &mut Vec<u8>, list: &List) -> Result<(), AllocError> {
    put_pieces(out, list, &LEMMAS)?;
    put_pieces(out, list, &DROPS)
}

/// Puts the files of the answers to the goals of `drop` and `make_room`.
///
/// Errors: want of memory, which leaves a part of them behind the bytes.
pub(crate) fn put_answers(out: &mut Vec<u8>, list: &List) -> Result<(), AllocError> {
    put_pieces(out, list, &DROP)?;
    put_pieces(out, list, &MAKE_ROOM)
}
