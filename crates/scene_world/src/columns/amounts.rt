//! Amounts that a system takes from the numbers of a kind of parts.
ghost use Rattle.std.specs.Prelude.{◌≡◌, ◌∷◌, [], IfOk, OnOk};
ghost use Rattle.std.specs.List.{filter_map};
ghost use Rattle.shred_world.specs.ResourceIds.{id_of};
ghost use Rattle.shred_stages.specs.Views.{Leaves};
ghost use Rattle.scene_world.specs.Columns.{column_in, column_held, ids_having};
ghost use Rattle.scene_world.specs.Held.{Changes, LessIn};
ghost use Rattle.scene_world.specs.Known.{roll_held};

use super::{Column, NumberPart, ids_with, number_in, put};
use crate::SceneValue;
use shred_world::{Holder, Resource, ResourceId};
use specs_layouts::{MaskedStorage, Tracked};
use std::alloc::{AllocError, Global};

/// What is taken for an id: at which index, and how much.
pub trait Amounts<V> {
    ghost use Rattle.std.specs.Prelude.{◌≡◌, ℕ, Option};
    ghost use Rattle.shred_world.specs.Bundles.{Holding};

    /// What is taken for an id, by what is held of a world: the index where, and how much there.
    ghost amount: { Self → Holding V → ℕ → Option (ℕ × ℕ) };

    /// What is taken for an id, if something is: the index where, and how much there.
    fn amount_for<W: Holder<V>>(&self, view: &W, id: u64) -> Option<(u32, u64)>
        ensures { result ≡ amount self.now (W.slots view.now) id };
}

/// What is taken for each of these ids, in their order. Errors: want of memory.
fn amounts_for<A: Amounts<V>, V, W: Holder<V>>(
    alloc: Global,
    view: &W,
    of: &A,
    ids: &[u64],
) -> Result<Vec<(u32, u64)>, AllocError>
    ensures { IfOk result (λ amounts. amounts.items
        ≡ filter_map (A.amount of.now (W.slots view.now)) ids.now) }
{
    let mut amounts = Vec::new(alloc);
    for place in 0..ids.len() {
        if let Some(amount) = of.amount_for(view, ids[place]) {
            amounts.push(amount)?;
        }
    }
    Ok(amounts)
}

/// What is taken for each that has a part in a column, in the order of their ids. Errors: want of memory.
pub fn amounts_with<S: Column + Resource<V>, A: Amounts<V>, V: SceneValue<S::Data>, W: Holder<V>>(
    alloc: Global,
    view: &W,
    of: &A,
) -> Result<Vec<(u32, u64)>, AllocError>
    ensures { IfOk result (λ amounts. amounts.items ≡ filter_map (A.amount of.now (W.slots view.now))
        (ids_having (roll_held ⟦<V as SceneValue<S::Data>>⟧.places (W.slots view.now))
        (column_held (column_in S.part S.stored_at) S.kind_number (W.slots view.now)))) }
{
    let ids = ids_with::<S, V, W>(alloc, view)?;
    amounts_for(alloc, view, of, ids.as_slice())
}

/// Takes an amount from the number at an index of the storage that a value holds, down to 0; nothing where there is none.
///
/// Errors: want of memory.
fn take_amount<T: NumberPart, V>(value: &mut V, index: u32, amount: u64) -> Result<(), AllocError>
where
    T::Storage: Tracked<T>,
    MaskedStorage<T>: Resource<V>,
    ensures { OnOk result (LessIn ⟦<MaskedStorage<T> as Resource<V>>⟧.part
        T.Storage.part_at T.stored T.Storage.events T.Storage.emits ((index, amount) ∷ []) value.old value.new) }
{
    let Some(number) = number_in::<T, V>(value, index) else {
        return Ok(());
    };
    let left = T::datum(number.saturating_sub(amount));
    put::<MaskedStorage<T>, V>(value, index, &left, &[])
}

/// Takes amounts, each at its index, from the numbers of the storage that a value holds, down to 0.
///
/// Errors: want of memory; some of them may be taken.
fn take_each<T: NumberPart, V>(value: &mut V, amounts: &[(u32, u64)]) -> Result<(), AllocError>
where
    T::Storage: Tracked<T>,
    MaskedStorage<T>: Resource<V>,
    ensures { OnOk result (LessIn ⟦<MaskedStorage<T> as Resource<V>>⟧.part
        T.Storage.part_at T.stored T.Storage.events T.Storage.emits amounts.now value.old value.new) }
{
    for place in 0..amounts.len() {
        take_amount::<T, V>(value, amounts[place].0, amounts[place].1)?;
    }
    Ok(())
}

/// Takes amounts, each at its index, from the numbers of a kind of parts, down to 0, where a system may write them.
///
/// Errors: they may not be written, and all is as it was; want of memory, where some of the amounts may be taken.
pub fn take_amounts<T: NumberPart, V: Drop, W: Holder<V>>(
    view: &mut W,
    amounts: &[(u32, u64)],
) -> Result<(), AllocError>
where
    T::Storage: Tracked<T>,
    MaskedStorage<T>: Resource<V>,
    ensures taken { OnOk result (Changes (id_of ⟦<MaskedStorage<T> as Resource<V>>⟧.kind_number 0)
        (LessIn ⟦<MaskedStorage<T> as Resource<V>>⟧.part
        T.Storage.part_at T.stored T.Storage.events T.Storage.emits amounts.now) (W.slots view.old) (W.slots view.new)) }
    ensures leaves { Leaves (W.slots view.old) (W.slots view.new) }
{
    let id = ResourceId::new::<V, MaskedStorage<T>>();
    let Some(mut value) = view.take(id) else {
        return Err(AllocError);
    };
    let outcome = take_each::<T, V>(&mut value, amounts);
    view.put(id, value);
    outcome
}
