//! The turn of `leave` in a world: it takes the numbers of hp out one by one, and sets the global.
ghost use Rattle.std.specs.Prelude.{◌≡◌, OnOk, IfOk, IfSome, IfNone};
ghost use Rattle.shred_world.specs.Bundles.{owned, out, with_slot};
ghost use Rattle.shred_world.specs.Leaving.{Leaves};
ghost use Rattle.specs_layouts.specs.Parts.{HasNone};
ghost use Rattle.scene_basics.specs.declared.values.Value.TheVariants.{NumbersValue};
ghost use Rattle.scene_basics.specs.Names.{hp_kind};
ghost use Rattle.scene_basics.specs.Values.{whole_at};
ghost use Rattle.scene_basics.specs.Columns.{part_id};
ghost use Rattle.scene_basics.specs.Adding.{ShowsNumbers};
ghost use Rattle.scene_tests.specs.Leaving.{AreThose, TakesHp, TakesHpIf, SetsGlobal, TakesAndSets};

use hibitset::BitSetLike;
use scene::WorldRules;
use scene_basics::data::{G, HP};
use scene_basics::{Basics, Value, Whole};
use shred_world::Holder;
use specs_layouts::MaskedStorage;
use std::alloc::{AllocError, Global};

/// The value that the global is given.
const VALUE: i64 = 7;

/// The indices that have a number. Errors: want of memory.
fn indices_of(numbers: &MaskedStorage<Whole>, alloc: Global) -> Result<Vec<u32>, AllocError>
    ensures { IfOk result (λ indices. AreThose numbers.now indices.items) }
{
    let mask = numbers.mask();
    let mut indices = Vec::new(alloc);
    for index in mask.iter() {
        indices.push(index)?;
    }
    Ok(indices)
}

/// Takes each number out, of which each has one of the indices.
///
/// Errors: want of memory; some of them are out.
fn take_each(numbers: &mut MaskedStorage<Whole>, indices: &[u32]) -> Result<(), AllocError>
    requires { AreThose numbers.old indices.now }
    ensures none { OnOk result (HasNone (whole_at numbers.new)) }
    ensures shown { ShowsNumbers numbers.old numbers.new }
{
    for index in indices {
        numbers.remove(*index)?;
    }
    Ok(())
}

/// Takes all numbers out, so that the events tell of each.
///
/// Errors: want of memory; some of them are out.
fn take_all(numbers: &mut MaskedStorage<Whole>, alloc: Global) -> Result<(), AllocError>
    ensures none { OnOk result (HasNone (whole_at numbers.new)) }
    ensures shown { ShowsNumbers numbers.old numbers.new }
{
    let indices = indices_of(numbers, alloc)?;
    take_each(numbers, indices.as_slice())
}

/// Takes the numbers of hp out of what is held, if they are there.
fn lift_hp<W: Holder<Value>>(view: &mut W) -> Option<MaskedStorage<Whole>>
    ensures there { IfSome result (λ numbers. W.slots view.old (part_id hp_kind) ≡ owned (NumbersValue numbers)) }
    ensures taken { IfSome result (λ _. W.slots view.new ≡ with_slot (W.slots view.old) (part_id hp_kind) out) }
    ensures none { IfNone result (W.slots view.new ≡ W.slots view.old) }
{
    let value = view.take(Basics::part_id(HP))?;
    match value {
        Value::NumbersValue(numbers) => Some(numbers),
        other => {
            view.put(Basics::part_id(HP), other);
            None
        }
    }
}

/// Takes the hp of each entity out.
///
/// Errors: want of memory, and where there is no hp; some of it is out.
fn take_hp<W: Holder<Value>>(view: &mut W, alloc: Global) -> Result<(), AllocError>
    ensures ok { OnOk result (TakesHp (W.slots view.old) (W.slots view.new)) }
    ensures leaves { Leaves (W.slots view.old) (W.slots view.new) }
{
    let Some(mut numbers) = lift_hp(view) else {
        return Err(AllocError);
    };
    let outcome = take_all(&mut numbers, alloc);
    view.put(Basics::part_id(HP), Value::NumbersValue(numbers));
    outcome
}

/// Takes the hp of each entity out, if it is to go.
///
/// Errors: those of `take_hp`.
fn take_hp_if<W: Holder<Value>>(
    view: &mut W,
    hp_goes: bool,
    alloc: Global,
) -> Result<(), AllocError>
    ensures ok { OnOk result (TakesHpIf hp_goes (W.slots view.old) (W.slots view.new)) }
    ensures leaves { Leaves (W.slots view.old) (W.slots view.new) }
{
    if hp_goes {
        return take_hp(view, alloc);
    }
    Ok(())
}

/// Gives the global its value.
///
/// Errors: where there is no global, and nothing changed.
fn set_global<W: Holder<Value>>(view: &mut W) -> Result<(), AllocError>
    ensures ok { OnOk result (SetsGlobal (W.slots view.old) (W.slots view.new)) }
    ensures leaves { Leaves (W.slots view.old) (W.slots view.new) }
{
    let id = Basics::global_id(G);
    let Some(_old) = view.take(id) else {
        return Err(AllocError);
    };
    view.put(id, Value::GlobalValue(VALUE));
    Ok(())
}

/// The turn of `leave`.
///
/// Errors: want of memory, and where hp is to go and there is none, or there is no global.
pub(crate) fn turn<W: Holder<Value>>(
    view: &mut W,
    hp_goes: bool,
    alloc: Global,
) -> Result<(), AllocError>
    ensures ok { OnOk result (TakesAndSets hp_goes (W.slots view.old) (W.slots view.new)) }
    ensures leaves { Leaves (W.slots view.old) (W.slots view.new) }
{
    take_hp_if(view, hp_goes, alloc)?;
    set_global(view)
}
