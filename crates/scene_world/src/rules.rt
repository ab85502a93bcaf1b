//! The rules of a scene, whose systems run over a world of entities.
ghost use Rattle.std.specs.Prelude.{◌≡◌, ◌<◌, ◌++◌, ℕ, true, false, [], length, map, Some, None};
ghost use Rattle.std.specs.Prelude.{IfOk, IfSome, IsTrue, OnErr, OnOk, option_copied, option_map};
ghost use Rattle.shred_stages.specs.Views.{Leaves, error_of};
ghost use Rattle.scene_model.specs.Parts.{living, is_among};

use crate::{SceneValue, Store};
use hibitset_sets::BitSet;
use scene_model::{DocumentRules, Queue};
use shred_stages::Stop;
use shred_world::{Holder, ResourceId, World};
use specs_entity::Entity;
use specs_layouts::ReaderId;
use std::alloc::{AllocError, Global};

/// Where the parts and globals of documents stand in a world, how they are put in and read.
///
/// `columns` says where the parts and globals stand, and what is read there.
pub trait WorldRules: DocumentRules {
    ghost use Rattle.std.specs.Prelude.{ℕ};
    ghost use Rattle.scene_model.specs.Parts.{Name};
    ghost use Rattle.specs_layouts.specs.Shows.{Shows};
    ghost use Rattle.hibitset_sets.specs.BitSet.{has_member};
    ghost use Rattle.scene_world.specs.Telling.{GainsReader, CatchesUp, TakesTold, TakesSome};
    ghost use Rattle.scene_world.specs.Lent.{StandApart};
    ghost use Rattle.scene_world.specs.Places.{Columns, kinds_of};
    ghost use Rattle.scene_world.specs.Putting.{named_in, HasValue, PutsIn, TakesOut, SameColumn, part_read};
    ghost use Rattle.scene_world.specs.Putting.{AreReadAt, Registers, AreNamedIn};

    /// What a world holds.
    type Value: SceneValue<Self::Data>;

    /// Where parts and globals stand, and what is read there.
    ghost columns: { Columns Self.Value };

    /// Where the parts of a kind of the rules stand: under a kind number of their own and the dynamic number 0.
    fn part_id(kind: &str) -> ResourceId
        ensures { result ≡ columns.part_id kind.now };

    /// Whether the references in parts of a kind own their holder: it dies with each to whom it refers.
    fn owning(kind: &str) -> bool
        ensures { result ≡ columns.owning kind.now };

    /// Where a global of the rules stands: under a kind number of its own and the dynamic number 0.
    fn global_id(name: &str) -> ResourceId
        ensures { result ≡ columns.global_id name.now };

    /// Puts an empty storage of each kind of the rules into a world, in the layout of this store, in place of what
    /// stands there.
    ///
    /// Errors: want of memory; some of them may stand in the world then.
    fn register(
        world: &mut World<Self::Value>,
        store: Store,
        alloc: Global,
    ) -> Result<(), AllocError>
        ensures { OnOk result (Registers columns world.old world.new) };

    /// Puts a part in at an index, in place of the one that is there, with these entities as those that it refers to.
    ///
    /// Errors: want of memory, and where the value or the datum isn't of that kind; the parts are as they were. Either
    /// way the kind's events show what became of its parts.
    fn put(
        value: &mut Self::Value,
        kind: &str,
        index: u32,
        datum: &Self::Data,
        named: &[Entity],
    ) -> Result<(), AllocError>
        requires within { index < 16777216 }
        requires as_many { length named.now ≡ length (Self.part_of datum.now).refs }
        ensures ok { OnOk result (PutsIn (columns.stored kind.now) index (Self.part_of datum.now) named.now
            value.old value.new) }
        ensures err { OnErr result (SameColumn (columns.stored kind.now) value.old value.new) }
        ensures shown { Shows (columns.stored kind.now) (columns.events kind.now) (columns.emits kind.now)
            value.old value.new };

    /// Takes the part at an index out, if there is one.
    ///
    /// Errors: want of memory; the parts are as they were. Either way the kind's events show what became of its parts.
    fn take(value: &mut Self::Value, kind: &str, index: u32) -> Result<(), AllocError>
        ensures ok { OnOk result (TakesOut (columns.stored kind.now) index value.old value.new) }
        ensures err { OnErr result (SameColumn (columns.stored kind.now) value.old value.new) }
        ensures shown { Shows (columns.stored kind.now) (columns.events kind.now) (columns.emits kind.now)
            value.old value.new };

    /// Registers a reader of the events of a kind, who is told of what becomes of its parts from now on, and turns
    /// emission on. No part is another.
    ///
    /// Errors: want of memory, and where the value isn't of that kind; parts, events and emission are as they were.
    fn reader(value: &mut Self::Value, kind: &str) -> Result<ReaderId, AllocError>
        ensures ok { IfOk result (λ reader. GainsReader (columns.stored kind.now) (columns.events kind.now)
            (columns.emits kind.now) reader value.old value.new) }
        ensures err { OnErr result (value.new ≡ value.old) };

    /// Puts the indices below 16,777,216 of which a reader of a kind's events has yet to read events into a set; none
    /// where the value isn't of that kind. The reader's place stays: `catch_up` moves it.
    ///
    /// Errors: want of memory; some of the indices are in.
    fn events(
        value: &Self::Value,
        kind: &str,
        reader: &ReaderId,
        into: &mut BitSet,
    ) -> Result<(), AllocError>
        ensures ok { OnOk result (TakesTold (columns.events kind.now value.now) reader.now into.old into.new) }
        ensures err { OnErr result (TakesSome (columns.events kind.now value.now) reader.now into.old into.new) };

    /// A reader of a kind's events has read all of them. Takes no memory. No part is another, and each other reader has
    /// what it had to read.
    fn catch_up(value: &mut Self::Value, kind: &str, reader: &ReaderId)
        ensures { CatchesUp (columns.stored kind.now) (columns.events kind.now) (columns.emits kind.now) reader.now
            value.old value.new };

    /// Puts the entities that the part at an index refers to behind others, in their order; none if there is no part.
    ///
    /// Errors: want of memory.
    fn named_at(
        value: &Self::Value,
        kind: &str,
        index: u32,
        named: &mut Vec<Entity>,
    ) -> Result<(), AllocError>
        ensures { OnOk result (named.new.items ≡ named.old.items
            ++ named_in (columns.stored kind.now value.now index)) };

    /// The part at an index, if there is one, where the entities that it refers to have these ids.
    ///
    /// Errors: want of memory.
    fn get(
        value: &Self::Value,
        kind: &str,
        index: u32,
        ids: &[u64],
        alloc: Global,
    ) -> Result<Option<Self::Data>, AllocError>
        requires as_many { length ids.now ≡ length (named_in (columns.stored kind.now value.now index)) }
        ensures { IfOk result (λ datum. option_map Self.part_of datum
            ≡ option_map (part_read ids.now) (columns.stored kind.now value.now index)) };

    /// Whether no part of a kind refers to an entity, as far as the rules can tell at once: so nobody has to look for gone
    /// references there. They can't by default.
    fn names_nobody(value: &Self::Value, kind: &str) -> bool
        ensures { result ≡ true → (index : ℕ) → named_in (columns.stored kind.now value.now index) ≡ [] }
    {
        false
    }

    /// The indices at which a part of a kind may refer to an entity, as far as the rules can tell at once: under this kind
    /// nobody else has to be asked whom he refers to. They can't by default.
    fn holders<'a>(value: &'a Self::Value, kind: &str) -> Option<&'a BitSet>
        ensures { IfSome result (λ holders. (index : ℕ) → has_member holders.now index ≡ false
            → named_in (columns.stored kind.now value.now index) ≡ []) }
    {
        None
    }

    /// The parts at the indices of these entities, each of which stands behind a number that its caller gave it, where no part
    /// of the kind can refer to an entity: so a whole column is read by one call. None by default, and of a kind whose parts
    /// may refer.
    ///
    /// A part stands behind the number of its index, in the order of the entities. A number with nothing behind it may be left
    /// out.
    ///
    /// Errors: want of memory.
    fn get_each(
        value: &Self::Value,
        kind: &str,
        entities: &[(u64, u32)],
        alloc: Global,
    ) -> Result<Option<Vec<(u64, Option<Self::Data>)>>, AllocError>
        ensures { IfOk result (λ read. IfSome read (λ found. AreReadAt Self.part_of
            (columns.stored kind.now value.now) entities.now found.items)) }
    {
        Ok(None)
    }

    /// The value that a global of the rules stands in a world as; none where they have no such global.
    fn to_value(name: &str, global: Self::Global) -> Option<Self::Value>
        ensures { IsTrue (is_among name.now columns.global_names)
            → HasValue (columns.value name.now) (Self.global_of global) result };

    /// The global that a value is, if it is one under that name.
    fn as_global<'a>(name: &str, value: &'a Self::Value) -> Option<&'a Self::Global>
        ensures { option_map Self.global_of (option_copied result) ≡ columns.value name.now value.now };

    /// The parts and globals are those of the rules.
    ghost named_so: { (rules : Self) → AreNamedIn columns (Self.book rules) };

    /// No two of the values of a scene stand under one id.
    ghost apart: { StandApart (kinds_of ⟦<Self::Value as SceneValue<Self::Data>>⟧.places Self.part_of columns) };
}

/// Rules over a world, whose systems run over what they are lent of it.
///
/// A system carries its own meaning, for a dispatcher owns it apart from the rules that made it: `sense` is what it knows
/// of its rules, and `does` what it may make of what it is lent.
pub trait Rules: WorldRules {
    ghost use Rattle.scene_model.specs.Rulebook.{Fragment, Outcome};
    ghost use Rattle.scene_model.specs.Queues.{waiting, plain_commands};
    ghost use Rattle.scene_world.specs.Places.{kinds_of};
    ghost use Rattle.scene_world.specs.Turns.{Sense, Runs, IsOfBook, meaning_of};

    /// What a system knows of its rules.
    ghost sense: { Self.System → Sense };

    /// What a system may make of what it is lent.
    ghost does: { Self.System → Fragment → Outcome → Type 0 };

    /// Runs a system on what it is lent of a world, with an empty queue for its commands.
    ///
    /// Where what it is lent is fit (ids ascend, each who lives is known by one, parts stand at them and nowhere else
    /// and are of their kinds, references name them, globals have values that the rules read), an accepted run leaves
    /// what the system may make of it with the commands in its queue, lawfully, and so is a refusal's text one that it
    /// may refuse with. It stays what it is, and may from then on do at most what it might before.
    ///
    /// Errors: `Refused`; `Memory`; `Full`, only where the queue holds 1,048,576 commands.
    fn run<H: AllocGlobal, W: Holder<Self::Value>>(
        rt: &H,
        system: &mut Self::System,
        view: &mut W,
        queue: &mut Queue<Self::Data>,
    ) -> Result<(), Stop>
        requires empty { waiting queue.old ≡ [] }
        ensures runs { Runs (kinds_of ⟦<Self::Value as SceneValue<Self::Data>>⟧.places Self.part_of Self.columns)
            (meaning_of 0 Self.kind_of Self.config_of Self.declared sense does) system.old (W.slots view.old)
            (error_of result) system.new (W.slots view.new) (plain_commands Self.part_of (waiting queue.new)) }
        ensures leaves { Leaves (W.slots view.old) (W.slots view.new) };

    /// A system that rules made knows what they are, and does what they say of its kind and configuration.
    ghost of_book: { (rules : Self) (system : Self.System) → Self.made_by rules system
        → IsOfBook (meaning_of 0 Self.kind_of Self.config_of Self.declared sense does) (Self.book rules) system };
}
