//! The systems in a world that add something to the numbers of one kind.
ghost use Rattle.std.specs.Prelude.{◌≡◌, Some, None, OnOk, OnErr, IfErr, IfSome, IfNone, MatchResult, option_and_then};
ghost use Rattle.shred_world.specs.Bundles.{owned, out, readable, with_slot};
ghost use Rattle.shred_world.specs.Leaving.{Leaves};
ghost use Rattle.specs_join.specs.ChangeEach.{AreChanged, IsRefused};
ghost use Rattle.specs_join.specs.EachErrors.{OnRefused};
ghost use Rattle.scene_basics.specs.declared.values.Value.TheVariants.{NumbersValue};
ghost use Rattle.scene_basics.specs.declared.values.Whole.{Whole as Number};
ghost use Rattle.scene_basics.specs.Values.{whole_at, global_in};
ghost use Rattle.scene_basics.specs.Columns.{part_id, global_id};
ghost use Rattle.scene_basics.specs.Adding.{gained, addend, ShowsNumbers, Adds, SaysOverflow, SaysWhy};
ghost use Rattle.scene_basics.specs.Adding.{StopsAdding};

use crate::columns::part_id;
use crate::data::{Datum, Gain};
use crate::values::{Value, Whole};
use scene_world::known::id_known;
use scene_world::{AnyStore, change_parts};
use shred_stages::Stop;
use shred_world::{Holder, ResourceId};
use specs_join::{Change, EachError, Join, LaidOut};
use specs_layouts::{MaskedStorage, UnprotectedStorage};

/// Adds to a number.
///
/// Errors: where the sum leaves the range of 64 signed bits; the number is as it was.
fn add(number: &mut Whole, by: i64) -> Result<(), ()>
    ensures done { OnOk result (gained number.old by ≡ Some number.new) }
    ensures refused { OnErr result (gained number.old by ≡ None) }
    ensures kept { OnErr result (number.new ≡ number.old) }
{
    match number.0.checked_add(by) {
        Some(sum) => {
            number.0 = sum;
            Ok(())
        }
        None => Err(()),
    }
}

/// Adds the number beside a number to it.
#[derive(Clone, Copy)]
struct AddsBeside;

impl<'a, L: UnprotectedStorage<Whole> + 'a> Change<Whole, LaidOut<'a, Whole, L>> for AddsBeside {
    ghost use Rattle.scene_basics.specs.Adding.{gained};

    type Refusal = ();

    ghost changed = { λ _ number beside. gained number beside.0 };

    fn change(&self, number: &mut Whole, beside: &'a Whole) -> Result<(), ()> {
        add(number, beside.0)
    }
}

/// Adds the same to each number.
#[derive(Clone, Copy)]
struct AddsEach(i64);

impl Change<Whole, ()> for AddsEach {
    ghost use Rattle.scene_basics.specs.Adding.{gained};

    type Refusal = ();

    ghost changed = { λ adds number _. gained number adds.0 };

    fn change(&self, number: &mut Whole, _beside: ()) -> Result<(), ()> {
        add(number, self.0)
    }
}

/// Changes each number that has an item of a join at its index.
///
/// Errors: want of memory; the least index whose change is refused.
fn change_numbers<R: Join, C: Change<Whole, R>>(
    numbers: MaskedStorage<Whole>,
    read: R,
    change: &C,
) -> (MaskedStorage<Whole>, Result<(), EachError<C::Refusal>>)
where
    R::Type: Drop,
    C::Refusal: Drop,
    ensures ok { OnOk result.1 (AreChanged (C.changed change.now) (whole_at numbers) (R.joins read)
        (whole_at result.0)) }
    ensures shown { ShowsNumbers numbers result.0 }
    ensures refused { IfErr result.1 (OnRefused (IsRefused (C.changed change.now) (whole_at numbers)
        (R.joins read))) }
{
    let (mask, storage) = numbers.into_parts();
    let (changed, outcome) = change_parts(&mask, storage, read, change);
    (MaskedStorage::from_parts(mask, changed), outcome)
}

/// Adds to each number the one that others have at its index.
///
/// Errors: want of memory; the least index whose sum leaves the range of 64 signed bits.
fn add_beside(
    numbers: MaskedStorage<Whole>,
    gains: &MaskedStorage<Whole>,
) -> (MaskedStorage<Whole>, Result<(), EachError<()>>)
    ensures ok { OnOk result.1 (AreChanged (λ number (one : Number). gained number one.0) (whole_at numbers)
        (whole_at gains.now) (whole_at result.0)) }
    ensures shown { ShowsNumbers numbers result.0 }
    ensures refused { IfErr result.1 (OnRefused (IsRefused (λ number (one : Number). gained number one.0)
        (whole_at numbers) (whole_at gains.now))) }
{
    let mask = gains.mask();
    match gains.inner().inner() {
        AnyStore::Vec(layout) => change_numbers(numbers, LaidOut::new(mask, layout), &AddsBeside),
        AnyStore::Dense(layout) => change_numbers(numbers, LaidOut::new(mask, layout), &AddsBeside),
        AnyStore::Hash(layout) => change_numbers(numbers, LaidOut::new(mask, layout), &AddsBeside),
        AnyStore::BTree(layout) => change_numbers(numbers, LaidOut::new(mask, layout), &AddsBeside),
    }
}

/// Adds to each number what it gains.
///
/// Errors: want of memory, and where no numbers are seen under the kind that is gained; the least index whose sum leaves the
/// range of 64 signed bits.
fn add_gain<W: Holder<Value>>(
    numbers: MaskedStorage<Whole>,
    view: &W,
    gain: Gain,
) -> (MaskedStorage<Whole>, Result<(), EachError<()>>)
    ensures ok { OnOk result.1 (AreChanged gained (whole_at numbers) (addend gain (W.slots view.now))
        (whole_at result.0)) }
    ensures shown { ShowsNumbers numbers result.0 }
    ensures refused { IfErr result.1 (OnRefused (IsRefused gained (whole_at numbers)
        (addend gain (W.slots view.now)))) }
{
    match gain {
        Gain::Under(kind) => match view.value(part_id(kind)) {
            Some(Value::NumbersValue(gains)) => add_beside(numbers, gains),
            _ => (numbers, Err(EachError::Memory)),
        },
        Gain::Each(Some(by)) => change_numbers(numbers, (), &AddsEach(by)),
        Gain::Each(None) => (numbers, Ok(())),
    }
}

/// Takes the numbers of a kind out of what is held, if they are there.
fn take_numbers<W: Holder<Value>>(view: &mut W, kind: &str) -> Option<MaskedStorage<Whole>>
    ensures there { IfSome result (λ numbers.
        W.slots view.old (part_id kind.now) ≡ owned (NumbersValue numbers)) }
    ensures taken { IfSome result (λ _. W.slots view.new ≡ with_slot (W.slots view.old) (part_id kind.now) out) }
    ensures none { IfNone result (W.slots view.new ≡ W.slots view.old) }
{
    let value = view.take(part_id(kind))?;
    match value {
        Value::NumbersValue(numbers) => Some(numbers),
        other => {
            view.put(part_id(kind), other);
            None
        }
    }
}

/// The refusal of a sum at an index, where somebody is known there; else want of memory.
fn overflow_at<H: AllocGlobal, W: Holder<Value>>(rt: &H, view: &W, index: u32) -> Stop
    ensures { SaysOverflow (W.slots view.now) index result }
{
    if id_known::<Value, Datum, W>(view, index).is_none() {
        return Stop::Memory;
    }
    match String::from_str(rt.alloc(), "overflow") {
        Ok(text) => Stop::Refused(text),
        Err(_) => Stop::Memory,
    }
}

/// Why a system stops whose additions came to this.
fn stop_for<H: AllocGlobal, W: Holder<Value>>(rt: &H, view: &W, error: EachError<()>) -> Stop
    ensures { SaysWhy (W.slots view.now) error result }
{
    match error {
        EachError::Memory => Stop::Memory,
        EachError::Refused(index, ()) => overflow_at(rt, view, index),
    }
}

/// Adds to each number of a kind what it gains.
///
/// Errors: `Refused`, with the text `overflow`, where a sum leaves the range of 64 signed bits; `Memory`.
pub(crate) fn add_to<H: AllocGlobal, W: Holder<Value>>(
    rt: &H,
    view: &mut W,
    kind: &str,
    gain: Gain,
) -> Result<(), Stop>
    ensures ends { MatchResult result
        (λ _. Adds kind.now gain (W.slots view.old) (W.slots view.new))
        (StopsAdding kind.now gain (W.slots view.old) (W.slots view.new)) }
    ensures leaves { Leaves (W.slots view.old) (W.slots view.new) }
{
    let Some(numbers) = take_numbers(view, kind) else {
        return Err(Stop::Memory);
    };
    let (numbers, outcome) = add_gain(numbers, view, gain);
    view.put(part_id(kind), Value::NumbersValue(numbers));
    match outcome {
        Ok(()) => Ok(()),
        Err(error) => Err(stop_for(rt, view, error)),
    }
}

/// The global, if it is there.
pub(crate) fn global_of<W: Holder<Value>>(view: &W) -> Option<i64>
    ensures { result ≡ option_and_then global_in (readable (W.slots view.now global_id)) }
{
    match view.value(ResourceId::from_type_id(8)) {
        Some(Value::GlobalValue(global)) => Some(*global),
        _ => None,
    }
}
