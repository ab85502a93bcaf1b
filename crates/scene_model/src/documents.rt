//! What rules say of documents.
ghost use Rattle.std.specs.Prelude.{◌≡◌, true, false, List, map, Some, None, Option, IsTrue, IfOk, MatchResult, All};
ghost use Rattle.scene_model.specs.Parts.{Json, Name, Part, is_among};
ghost use Rattle.scene_model.specs.Rulebook.{Book, Facts, misshapen, known};
ghost use Rattle.serde_json.specs.View.{view};
ghost use Rattle.serde_json.specs.Written.{has_float};

use crate::access::SystemAccess;
use crate::reading::ReadError;
use serde_json::Value;
use shred_plan::RunningTime;
use std::alloc::{AllocError, Global};

/// The caller's parts, globals and systems, and what a document says of them.
///
/// The ghost member `book` says what the rules mean to a document: their names, what they read, and what each system
/// may make of what it is lent. `part_of` and `global_of` say what a datum and a global's value are in a document.
/// `kind_of` and `config_of` are what a document says of a system, `declared` and `said_time` what the system says of
/// itself, and `made_by` whether rules made it.
pub trait DocumentRules: Sized {
    ghost use Rattle.std.specs.Prelude.{ℕ};
    ghost use Rattle.scene_model.specs.Rulebook.{Access};
    ghost use Rattle.scene_model.specs.Declaring.{texts, access_of};
    ghost use Rattle.scene_model.specs.Laws.{Ascend, IsReadingOf, refs_to, IsMaking, DeclaresKnown};
    ghost use Rattle.shred_plan.specs.Plan.{units_of};

    /// Plain data of a part; a reference in it is an id.
    type Data: Clone;

    /// A global's value.
    type Global: Clone;

    /// A system with its configuration.
    type System: Drop;

    /// What the rules mean.
    ghost book: { Self → Book };

    /// The part that a datum is: what is written for it, and its references, all to living ids.
    ghost part_of: { Self.Data → Part };

    /// What is written for a global's value.
    ghost global_of: { Self.Global → Json };

    /// The kind of a system.
    ghost kind_of: { Self.System → Name };

    /// The configuration of a system.
    ghost config_of: { Self.System → Json };

    /// What a system declares.
    ghost declared: { Self.System → Access };

    /// How many units of time a system is said to run.
    ghost said_time: { Self.System → ℕ };

    /// Rules made a system: what it means is theirs.
    ghost made_by: { Self → Self.System → Type 0 };

    /// The kinds of parts, ascending by bytes.
    fn part_names(&self) -> &[&'static str]
        ensures { texts result.now ≡ (book self.now).part_names };

    /// The names of globals, ascending by bytes.
    fn global_names(&self) -> &[&'static str]
        ensures { texts result.now ≡ (book self.now).global_names };

    /// The datum that a JSON is under a kind of the rules.
    ///
    /// Errors: `Shape` where it is none; `Memory`.
    fn read_data(&self, alloc: Global, kind: &str, value: &Value) -> Result<Self::Data, ReadError>
        requires { IsTrue (is_among kind.now (book self.now).part_names) }
        ensures { IsReadingOf part_of ((book self.now).read_part kind.now (view value.now)) result };

    /// What is written for a datum.
    fn write_data(&self, alloc: Global, datum: &Self::Data) -> Result<Value, AllocError>
        ensures { IfOk result (λ value. view value ≡ (part_of datum.now).json) };

    /// Whether a datum is of a kind.
    fn admits(&self, kind: &str, datum: &Self::Data) -> bool
        ensures { result ≡ (book self.now).admits kind.now (part_of datum.now) };

    /// The ids that a datum refers to, in order.
    fn refs(&self, alloc: Global, datum: &Self::Data) -> Result<Vec<u64>, AllocError>
        ensures { IfOk result (λ ids. refs_to ids.items ≡ (part_of datum.now).refs) };

    /// The value that a JSON is for a global of the rules.
    ///
    /// Errors: `Shape` where it is none; `Memory`.
    fn read_global(
        &self,
        alloc: Global,
        name: &str,
        value: &Value,
    ) -> Result<Self::Global, ReadError>
        ensures { IsTrue (is_among name.now (book self.now).global_names)
            → IsReadingOf global_of ((book self.now).read_global name.now (view value.now)) result };

    /// What is written for a global's value.
    fn write_global(&self, alloc: Global, global: &Self::Global) -> Result<Value, AllocError>
        ensures { IfOk result (λ value. view value ≡ global_of global.now) };

    /// The system of a kind with a configuration, or none where the kind is unknown.
    ///
    /// Errors: `Shape` where the configuration is none of that kind; `Memory`.
    fn make_system(
        &self,
        alloc: Global,
        kind: &str,
        config: &Value,
    ) -> Result<Option<Self::System>, ReadError>
        ensures { MatchResult result
            (IsMaking kind_of config_of declared said_time (made_by self.now) kind.now (view config.now)
            ((book self.now).system kind.now (view config.now)))
            (λ error. error ≡ ReadError.Shape → (book self.now).system kind.now (view config.now) ≡ misshapen) };

    /// What a system declares.
    ///
    /// Errors: want of memory.
    fn accessor(system: &Self::System, alloc: Global) -> Result<SystemAccess, AllocError>
        ensures { IfOk result (λ accessor. access_of accessor ≡ declared system.now) };

    /// How long a system is said to run.
    fn running_time(system: &Self::System) -> RunningTime
        ensures { units_of result ≡ said_time system.now };

    /// The kinds ascend.
    ghost kinds_ascend: { (rules : Self) → Ascend (book rules).part_names };

    /// The names of globals ascend.
    ghost globals_ascend: { (rules : Self) → Ascend (book rules).global_names };

    /// A clone means what its source means.
    ghost clones: { (one two : Self.Data) → Self.Data.is_clone one two → part_of two ≡ part_of one };

    /// A clone of a global means what its source means.
    ghost global_clones: { (one two : Self.Global) → Self.Global.is_clone one two → global_of two ≡ global_of one };

    /// What is read under a kind is of that kind.
    ghost reads_admitted: { (rules : Self) (kind : Name) (json : Json) (part : Part)
        → (book rules).read_part kind json ≡ Some part → (book rules).admits kind part ≡ true };

    /// What is written for a datum is read back as it was, under a kind that admits it.
    ghost reads_back: { (rules : Self) (kind : Name) (datum : Self.Data)
        → (book rules).admits kind (part_of datum) ≡ true
        → (book rules).read_part kind (part_of datum).json ≡ Some (part_of datum) };

    /// What is read for a global is read back as it was.
    ghost global_reads_back: { (rules : Self) (name : Name) (json value : Json)
        → (book rules).read_global name json ≡ Some value → (book rules).read_global name value ≡ Some value };

    /// No float is written for a datum.
    ghost no_float: { (datum : Self.Data) → has_float (part_of datum).json ≡ false };

    /// No float is written for a global.
    ghost no_global_float: { (global : Self.Global) → has_float (global_of global) ≡ false };

    /// What a system declares is the rules'.
    ghost declares_known: { (rules : Self) (kind : Name) (config : Json) (facts : Facts)
        → (book rules).system kind config ≡ known facts → DeclaresKnown (book rules) facts.access };
}
