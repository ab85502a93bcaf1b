//! The files of what a scene's rules say of documents, where their systems are named: the calls, the names, what the rules mean,
//! and what their systems see.
use crate::list::List;
use crate::pieces::{Piece, put_pieces};
use std::alloc::AllocError;

/// The calls.
const CALLS: [Piece; 17] = [
    Piece::Once(
        "==> crates/@crate@/src/documents.rt
//! What the rules say of documents: what @list@.list names, of which tools/values wrote this.
ghost use Rattle.std.specs.Prelude.{◌≡◌, refl};
ghost use Rattle.std.proofs.Common.{rules};
ghost use Rattle.serde_json.specs.Data.{null};
ghost use Rattle.scene_world.specs.Numbers.{counted};
ghost use Rattle.scene_world.specs.PlainRules.{named_among};
ghost use Rattle.@crate@.specs.Names.{part_of, refers};
ghost use Rattle.@crate@.specs.Documents.{all_systems, access_of, kind_of, meaning};

use crate::@parts@::@data@;
use crate::rules::@rules@;
use scene_model::{DocumentRules, ReadError, SystemAccess};
use serde_json::Value;
use shred_plan::RunningTime;
use std::alloc::{AllocError, Global};

/// A system of the rules. Its configuration is always null.
#[derive(Clone, Copy, Debug, PartialEq, Eq)]
pub enum @rules@System {
",
    ),
    Piece::Systems(
        "    /// `@snake@`.
    @name@,
",
    ),
    Piece::Once(
        "}

/// The system of a kind, if the rules have one.
fn system_of(kind: &str) -> Option<@rules@System>
    ensures { result ≡ named_among kind_of all_systems kind.now }
{
    match kind {
",
    ),
    Piece::Systems(
        "        \"@snake@\" => Some(@rules@System::@name@),
",
    ),
    Piece::Once(
        "        _ => None,
    }
}

/// Whether the parts of a kind are references, and else numbers.
fn refers(kind: &str) -> bool
    ensures { result ≡ refers kind.now }
{
    match kind {
",
    ),
    Piece::References(
        "        \"@snake@\" => true,
",
    ),
    Piece::Once(
        "        _ => false,
    }
}

impl DocumentRules for @rules@ {
    ghost use Rattle.@crate@.specs.Documents.{law-kinds_ascend, law-globals_ascend, law-reads_admitted, law-reads_back};
    ghost use Rattle.@crate@.specs.Documents.{law-global_reads_back, law-no_float, law-declares_known};

    type Data = @data@;

    type Global = u64;

    type System = @rules@System;

    ghost book = { λ _. meaning };

    ghost part_of = { part_of };

    ghost global_of = { counted };

    ghost kind_of = { kind_of };

    ghost config_of = { λ _. null };

    ghost declared = { access_of };

    ghost said_time = { λ _. 3 };

    ghost made_by = { λ _ _. Unit {0} };

    fn part_names(&self) -> &[&'static str] {
        &[@column names@]
    }

    fn global_names(&self) -> &[&'static str] {
        &[@global names@]
    }

    fn read_data(&self, _alloc: Global, kind: &str, value: &Value) -> Result<@data@, ReadError> {
        let Some(number) = value.as_u64() else {
            return Err(ReadError::Shape);
        };
",
    ),
    Piece::OnceReferences(
        "        if refers(kind) {
            return Ok(@data@::@reference variant@(number));
        }
",
    ),
    Piece::Once(
        "        Ok(@data@::@number variant@(number))
    }

    fn write_data(&self, _alloc: Global, datum: &@data@) -> Result<Value, AllocError> {
        match *datum {
            @data@::@number variant@(number) => Ok(Value::from(number)),
",
    ),
    Piece::OnceReferences(
        "            @data@::@reference variant@(id) => Ok(Value::from(id)),
",
    ),
    Piece::Once(
        "        }
    }

    fn admits(&self, kind: &str, datum: &@data@) -> bool {
        match *datum {
            @data@::@number variant@(_) => !refers(kind),
",
    ),
    Piece::OnceReferences(
        "            @data@::@reference variant@(_) => refers(kind),
",
    ),
    Piece::Once(
        "        }
    }

    fn refs(&self, alloc: Global, datum: &@data@) -> Result<Vec<u64>, AllocError> {
        match *datum {
            @data@::@number variant@(_) => Ok(Vec::new(alloc)),
",
    ),
    Piece::OnceReferences(
        "            @data@::@reference variant@(id) => Ok(vec![in alloc; id]?),
",
    ),
    Piece::Once(
        "        }
    }

    fn read_global(&self, _alloc: Global, _name: &str, value: &Value) -> Result<u64, ReadError> {
        value.as_u64().ok_or(ReadError::Shape)
    }

    fn write_global(&self, _alloc: Global, global: &u64) -> Result<Value, AllocError> {
        Ok(Value::from(*global))
    }

    fn make_system(
        &self,
        _alloc: Global,
        kind: &str,
        config: &Value,
    ) -> Result<Option<@rules@System>, ReadError> {
        let Some(system) = system_of(kind) else {
            return Ok(None);
        };
        if config.is_null() {
            Ok(Some(system))
        } else {
            Err(ReadError::Shape)
        }
    }

    fn accessor(system: &@rules@System, alloc: Global) -> Result<SystemAccess, AllocError> {
        match *system {
",
    ),
    Piece::Systems(
        "            @rules@System::@name@ => Ok(SystemAccess {
                reads: @reads@,
                writes: @writes@,
                read_globals: @read globals@,
                written_globals: @written globals@,
                writes_reserved: false,
            }),
",
    ),
    Piece::Once(
        "        }
    }

    fn running_time(_system: &@rules@System) -> RunningTime {
        RunningTime::Average
    }

    ghost kinds_ascend = { λ _. law-kinds_ascend };

    ghost globals_ascend = { λ _. law-globals_ascend };

    ghost clones = { Prim.search rules };

    ghost global_clones = { Prim.search rules };

    ghost reads_admitted = { λ _. law-reads_admitted };

    ghost reads_back = { λ _. law-reads_back };

    ghost global_reads_back = { λ _. law-global_reads_back };

    ghost no_float = { law-no_float };

    ghost no_global_float = { λ _. refl };

    ghost declares_known = { λ _. law-declares_known };
}
",
    ),
];

/// The names, and which parts data are.
const NAMES: [Piece; 8] = [
    Piece::Once(
        "==> crates/@crate@/specs/Names.antt
-- The names of the rules, and which parts data are, as tools/values writes them from @list@.list.
use Rattle.std.specs.Prelude.{Bool, false, ◌||◌, List, [], ◌∷◌, codes}
use Rattle.std.specs.Str.{bytes_eq}
use Rattle.scene_model.specs.Parts.{Name, Part}
use Rattle.scene_world.specs.Numbers.{counting, referring}
use Rattle.@crate@.specs.declared.@parts@.@data@.{@data@}
use Rattle.@crate@.specs.declared.@parts@.@data@.TheVariants.{@number variant@",
    ),
    Piece::OnceReferences(", @reference variant@"),
    Piece::Once(
        "}

-- the kinds of parts, the globals and the kinds of systems",
    ),
    Piece::Columns(
        "
abbrev pub @snake@_kind : Name
@snake@_kind = codes \"@snake@\"
",
    ),
    Piece::Globals(
        "
abbrev pub @snake@_name : Name
@snake@_name = codes \"@snake@\"
",
    ),
    Piece::Systems(
        "
abbrev pub @snake@_kind : Name
@snake@_kind = codes \"@snake@\"
",
    ),
    Piece::Once(
        "
abbrev pub part_kinds : List Name
part_kinds = @kinds listed@[]

abbrev pub all_names : List Name
all_names = @names listed@[]

-- whether the parts of a kind are references
abbrev pub refers : Name → Bool
refers kind = @references@false

-- the part that a datum is
abbrev pub part_of : @data@ → Part
part_of (@number variant@ n) = counting n
",
    ),
    Piece::OnceReferences(
        "part_of (@reference variant@ id) = referring id
",
    ),
];

/// What the rules mean, and their laws.
const MEANING: [Piece; 14] = [
    Piece::Once(
        "==> crates/@crate@/specs/Documents.antt
-- What the rules mean in documents, and the laws that hold of them, as tools/values writes them from @list@.list.
use Rattle.std.specs.Prelude.{◌≡◌, true, false, List, [], ◌∷◌, Some, refl}
use Rattle.serde_json.specs.Data.{null}
use Rattle.serde_json.specs.Written.{has_float}
use Rattle.scene_model.specs.Parts.{Json, Name, Part}
use Rattle.scene_model.specs.Rulebook.{Access, Book, Facts, Fragment, Outcome, known}
use Rattle.scene_model.specs.Laws.{Ascend, DeclaresKnown}
use Rattle.scene_world.specs.PlainRules.{plain_book, plain-declares, plain-of-book}
use Rattle.scene_world.specs.RuleLemmas.{ascending-names, number-admitted, number-read-back, count-read-back}
use Rattle.scene_world.specs.Turns.{Meaning, sense_of, IsOfBook, meaning_of}
use Rattle.@crate@.specs.declared.@parts@.@data@.{@data@}
use Rattle.@crate@.specs.declared.@parts@.@data@.TheVariants.{@number variant@",
    ),
    Piece::OnceReferences(", @reference variant@"),
    Piece::Once(
        "}
use Rattle.@crate@.specs.declared.documents.@rules@System.{@rules@System}
use Rattle.@crate@.specs.declared.documents.@rules@System.TheVariants.{@systems@}
use Rattle.@crate@.specs.Names.{@kinds@, @names@@system kinds@, part_kinds, all_names, refers, part_of}
use Rattle.@crate@.specs.Rules.{@does@}

-- all systems, and of each its kind, what it reads and writes, and what it may make of what it is lent
abbrev pub all_systems : List @rules@System
all_systems = @systems listed@[]

abbrev pub kind_of : @rules@System → Name
",
    ),
    Piece::Systems(
        "kind_of @name@ = @snake@_kind
",
    ),
    Piece::Once(
        "
abbrev pub access_of : @rules@System → Access
",
    ),
    Piece::Systems(
        "access_of @name@ = record { reads = @kinds read@; writes = @kinds written@; read_globals = @names read@; written_globals = @names written@; reserved = false }
",
    ),
    Piece::Once(
        "
abbrev pub does : @rules@System → Fragment → Outcome → Type 0
",
    ),
    Piece::Systems(
        "does @name@ = Does@name@
",
    ),
    Piece::Once(
        "
-- what the rules mean, and what is meant of a system
abbrev pub meaning : Book
meaning = plain_book part_kinds refers all_names kind_of access_of does all_systems

abbrev pub meant : Meaning @rules@System
meant = meaning_of 0 kind_of (λ _. null) access_of (λ _. sense_of meaning) does

-- names ascend
pub law-kinds_ascend : Ascend part_kinds
law-kinds_ascend = ascending-names part_kinds refl

pub law-globals_ascend : Ascend all_names
law-globals_ascend = ascending-names all_names refl

-- what is read under a kind is of that kind, and what is written is read back under a kind that admits it
pub law-reads_admitted : (kind : Name) (json : Json) (part : Part) → meaning.read_part kind json ≡ Some part → meaning.admits kind part ≡ true
law-reads_admitted kind = number-admitted (refers kind)

pub law-reads_back : (kind : Name) (datum : @data@) → meaning.admits kind (part_of datum) ≡ true → meaning.read_part kind (part_of datum).json ≡ Some (part_of datum)
law-reads_back kind (@number variant@ n) = number-read-back (refers kind) false n
",
    ),
    Piece::OnceReferences(
        "law-reads_back kind (@reference variant@ id) = number-read-back (refers kind) true id
",
    ),
    Piece::Once(
        "
-- what is read for a global is read back as it was
pub law-global_reads_back : (name : Name) (json value : Json) → meaning.read_global name json ≡ Some value → meaning.read_global name value ≡ Some value
law-global_reads_back name = count-read-back

-- no float is written
pub law-no_float : (datum : @data@) → has_float (part_of datum).json ≡ false
law-no_float (@number variant@ n) = refl
",
    ),
    Piece::OnceReferences(
        "law-no_float (@reference variant@ id) = refl
",
    ),
    Piece::Once(
        "
-- what a system declares is the rules', and it does what they say of its kind
pub law-declares_known : (kind : Name) (config : Json) (facts : Facts) → meaning.system kind config ≡ known facts → DeclaresKnown meaning facts.access
law-declares_known = plain-declares part_kinds refers all_names kind_of access_of does all_systems refl

pub law-of_book : (system : @rules@System) → IsOfBook meant meaning system
",
    ),
    Piece::Systems(
        "law-of_book @name@ = plain-of-book part_kinds refers all_names kind_of access_of does all_systems @name@ refl
",
    ),
];

/// What is seen of what is held.
const SIGHTS: [Piece; 8] = [
    Piece::Once(
        "==> crates/@crate@/specs/Sights.antt
-- What is seen of a scene in what is held, as tools/values writes it from @list@.list.
use Rattle.std.specs.Prelude.{ℕ, Option}
use Rattle.shred_world.specs.Bundles.{Holding}
use Rattle.specs_entity.specs.Life.{LifeAt}
use Rattle.scene_world.specs.Numbers.{number_at, entity_at}
use Rattle.scene_world.specs.Rolls.{Roll}
use Rattle.scene_world.specs.Standing.{column_of, roll_of, seen_in}
use Rattle.@crate@.specs.declared.@module@.Value.{Value}
use Rattle.@crate@.specs.Names.{@kinds@}
use Rattle.@crate@.specs.@specs@.{kinds}

-- who lives, and under which id each is known
abbrev pub roll_seen : Holding Value → Roll
roll_seen w = roll_of kinds (seen_in w)

-- the number, or the entity to which the part refers, of each kind at an index
",
    ),
    Piece::Numbers(
        "
abbrev pub @snake@_at : Holding Value → ℕ → Option ℕ
@snake@_at w = number_at (column_of kinds (seen_in w) @snake@_kind)
",
    ),
    Piece::References(
        "
abbrev pub @snake@_at : Holding Value → ℕ → Option LifeAt
@snake@_at w = entity_at (column_of kinds (seen_in w) @snake@_kind)
",
    ),
    Piece::Once(
        "==> crates/@crate@/proofs/SightLemmas.antt
-- What a system sees of the fragment that it is lent, as tools/values writes it from @list@.list.
use Rattle.std.proofs.Common.{◌≡◌, true, ℕ, Some, None, refl}
use Rattle.std.specs.Prelude.{option_and_then}
use Rattle.shred_world.specs.Bundles.{Holding, readable}
use Rattle.shred_world.specs.ResourceIds.{id_of}
use Rattle.specs_entity.specs.Life.{LifeAt}
use Rattle.scene_model.specs.Rulebook.{Fragment, declares}
use Rattle.scene_world.specs.Numbers.{number_of, reference_of, AreNumbers, AreReferences}
use Rattle.scene_world.specs.Rolls.{index_of}
use Rattle.scene_world.specs.Standing.{column_of, fragment_of, seen_in}
use Rattle.scene_world.specs.Turns.{IsLentFit}
use Rattle.scene_world.proofs.CallerLemmas.{plain-numbers, plain-references, number-seen, no-reference, reference-seen, Reaches}
",
    ),
    Piece::Columns(
        "use Rattle.@crate@.specs.declared.@parts@.@name@.{@name@}
",
    ),
    Piece::Once(
        "use Rattle.@crate@.specs.declared.documents.@rules@System.{@rules@System}
use Rattle.@crate@.specs.declared.@module@.Value.{Value}
use Rattle.@crate@.specs.Names.{@kinds@}
use Rattle.@crate@.specs.Documents.{access_of, meant}
use Rattle.@crate@.specs.@specs@.{@columns in@, kinds}
use Rattle.@crate@.specs.Sights.{roll_seen, @columns at@}

-- what a system sees of what is held
abbrev pub seen_by : @rules@System → Holding Value → Fragment
seen_by system w = fragment_of kinds (access_of system) w
",
    ),
    Piece::Numbers(
        "
-- the parts of a kind are numbers, and so is what is seen of an id under it
pub @snake@-numbers : (w : Holding Value) → AreNumbers (column_of kinds (seen_in w) @snake@_kind)
@snake@-numbers w = plain-numbers @snake@_in (λ (part : @name@). part.0) (readable (w (id_of @number@ 0)))

pub @snake@-seen : (w : Holding Value) (system : @rules@System) → declares (access_of system) @snake@_kind ≡ true → (id : ℕ)
    → number_of (seen_by system w) @snake@_kind id ≡ option_and_then (@snake@_at w) (index_of (roll_seen w) id)
@snake@-seen w system declared = number-seen kinds (access_of system) w @snake@_kind refl declared (@snake@-numbers w)
",
    ),
    Piece::References(
        "
-- the parts of a kind are references, and so is what is seen of an id under it
pub @snake@-references : (w : Holding Value) → AreReferences (column_of kinds (seen_in w) @snake@_kind)
@snake@-references w = plain-references @snake@_in (λ (part : @name@). part.0) (readable (w (id_of @number@ 0)))

pub no-@snake@ : (w : Holding Value) (system : @rules@System) → declares (access_of system) @snake@_kind ≡ true → (id : ℕ)
    → option_and_then (@snake@_at w) (index_of (roll_seen w) id) ≡ None → reference_of (seen_by system w) @snake@_kind id ≡ None
no-@snake@ w system declared = no-reference kinds (access_of system) w @snake@_kind refl declared (@snake@-references w)

pub @snake@-seen : (w : Holding Value) (system : @rules@System) → declares (access_of system) @snake@_kind ≡ true → IsLentFit kinds meant system w → (id index : ℕ) (entity : LifeAt)
    → index_of (roll_seen w) id ≡ Some index → @snake@_at w index ≡ Some entity
    → (to : Reaches (roll_seen w) entity) × (reference_of (seen_by system w) @snake@_kind id ≡ Some to.id)
@snake@-seen w system declared lent = reference-seen kinds (access_of system) w @snake@_kind refl declared (@snake@-references w) lent.roll lent.fit.living
",
    ),
];

/// What answers the goal of `make_system`.
const MADE: [Piece; 1] = [Piece::Once(
    "==> crates/@crate@/proofs/documents/@rules@DocumentRules/make_system/Answers.antt
use Rattle.std.proofs.Common.{◌≡◌, true, cond, Option, Some, is_some, ◌∙◌, ap, sym, refl}
use Rattle.serde_json.specs.View.{view}
use Rattle.serde_json.specs.Find.{as_null}
use Rattle.scene_model.specs.Rulebook.{Facts, known, misshapen}
use Rattle.scene_world.specs.PlainRules.{configured, found-kind, named_among}
use Rattle.scene_world.specs.RuleLemmas.{null-as_null}
use Rattle.@crate@.specs.declared.documents.@rules@System.{@rules@System}
use Rattle.@crate@.specs.Documents.{access_of, all_systems, kind_of}
use Rattle.@crate@.proofs.documents.@rules@DocumentRules.make_system.Goals as goal

pub returns-then-is_null : goal.returns-then-is_null
returns-then-is_null c =
    let system : @rules@System = c.in-Some.system in
    let facts : Facts = record { access = access_of system; time = 3 } in
    let named : named_among kind_of all_systems c.args.kind.now ≡ Some system = sym c.in-Some.ensures in
    let null : is_some (as_null (view c.args.config.now)) ≡ true = sym c.is_null.ensures ∙ c.if-is_null.true in (
      facts,
      ap (λ (found : Option @rules@System). configured access_of found (view c.args.config.now)) named ∙ ap (λ b. cond b (known facts) misshapen) null,
      record { made_so = tt; of_kind = found-kind kind_of all_systems c.args.kind.now system named; with_config = null-as_null (view c.args.config.now) null; access = refl; time = refl },
    )
",
)];

/// Puts these files.
///
/// Errors: want of memory, which leaves a part of them behind the bytes.
pub(crate) fn put_documents(out: &mut Vec<u8>, list: &List) -> Result<(), AllocError> {
    put_pieces(out, list, &CALLS)?;
    put_pieces(out, list, &NAMES)?;
    put_pieces(out, list, &MEANING)?;
    put_pieces(out, list, &SIGHTS)?;
    put_pieces(out, list, &MADE)
}
