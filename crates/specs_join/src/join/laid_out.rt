//! The parts of a layout that was found, beside the mask of the indices that have one.
ghost use Rattle.std.specs.Prelude.{◌≡◌, ℕ, false, is_some, OnOk, IfErr};
ghost use Rattle.specs_layouts.specs.Masked.{Agrees};
ghost use Rattle.specs_layouts.specs.Shows.{Shows};
ghost use Rattle.specs_join.specs.ChangeEach.{AreChanged, AreChangedBelow, IsRefused, told_each, shared_indices};
ghost use Rattle.specs_join.specs.EachErrors.{OnMemory, OnRefused};

use super::Join;
use crate::join::change::{Change, EachError};
use crate::join::words::change_set;
use hibitset::{BitSet, BitSetAnd, Index};
use specs_layouts::UnprotectedStorage;
use std::marker::{Model, PhantomData};

/// The parts of a layout, beside the mask of the indices that have one, for joins.
///
/// A join over a storage whose layout is one of several looks each time which it is. Where that is found first, a join over
/// the layout itself looks no more.
#[derive(Drop)]
pub struct LaidOut<'a, T: Drop, L: UnprotectedStorage<T>> {
    mask: &'a BitSet,
    parts: &'a L,
    part: PhantomData<T>,
}

impl<'a, T: Drop, L: UnprotectedStorage<T>> Model for LaidOut<'a, T, L> {
    ghost use Rattle.specs_layouts.specs.Masked.{Masked, masked_code, Agrees};

    ghost Value = { Masked L };

    ghost coded = { masked_code L.code };

    ghost view = { λ s. record { mask = s.mask.now; inner = s.parts.now } };

    ghost invariant = { λ s. Agrees s.mask.now (L.part_at s.parts.now) };
}

impl<'a, T: Drop, L: UnprotectedStorage<T>> LaidOut<'a, T, L> {
    /// The parts of a layout, beside the mask of the indices that have one.
    pub fn new(mask: &'a BitSet, parts: &'a L) -> Self
        requires { Agrees mask.now (L.part_at parts.now) }
        ensures mask { result.mask ≡ mask.now }
        ensures inner { result.inner ≡ parts.now }
    {
        LaidOut {
            mask,
            parts,
            part: PhantomData,
        }
    }
}

impl<'a, T: Drop + 'a, L: UnprotectedStorage<T> + 'a> Join for LaidOut<'a, T, L> {
    type Type = &'a T;

    type Shown = T;

    type Value = &'a L;

    type Mask = &'a BitSet;

    ghost use Rattle.std.specs.Prelude.{◌≡◌, false};

    ghost show = { λ part. part.now };

    ghost joins = { λ laid. L.part_at laid.inner };

    ghost opens = { λ laid mask. mask.now ≡ laid.mask };

    ghost unconstrained = { false };

    ghost value_at = { λ parts. L.part_at parts.now };

    fn open(self) -> (&'a BitSet, &'a L) {
        (self.mask, self.parts)
    }

    #[inline(always)]
    fn get(values: &&'a L, id: Index) -> &'a T {
        let parts: &'a L = *values;
        parts.get(id)
    }

    fn is_unconstrained() -> bool {
        false
    }
}

/// Changes each part of a layout that has an item of the join at its index, ascending by index. The indices with a part
/// are those of `mask`. It is what `change_each` is to a storage, whose layout isn't to be had without its mask.
///
/// Errors: `Memory`, where the layout emits and there is no memory for an event; `Refused` with the least index whose change
/// is refused. The parts at lesser indices are changed, the others are as they were.
pub fn change_laid_out<T: Drop, L: UnprotectedStorage<T>, R: Join, C: Change<T, R>>(
    mask: &BitSet,
    parts: &mut L,
    read: R,
    change: &C,
) -> Result<(), EachError<C::Refusal>>
where
    R::Type: Drop,
    C::Refusal: Drop,
    requires { Agrees mask.now (L.part_at parts.old) }
    ensures ok { OnOk result (AreChanged (C.changed change.now) (L.part_at parts.old) (R.joins read)
        (L.part_at parts.new)) }
    ensures events { OnOk result (L.events parts.new ≡ told_each (L.emits parts.old) (L.events parts.old)
        (shared_indices mask.now (R.joins read))) }
    ensures succeeds { L.emits parts.old ≡ false → IfErr result (OnMemory ⊥) }

    // Also where it is refused, the events show what was changed, and the indices with a part are the same.
    ensures shows { Shows L.part_at L.events L.emits parts.old parts.new }
    ensures same { (index : ℕ) → is_some (L.part_at parts.new index) ≡ is_some (L.part_at parts.old index) }

    ensures memory { IfErr result (OnMemory
        ((index : ℕ) × AreChangedBelow (C.changed change.now) (L.part_at parts.old) (R.joins read) index
        (L.part_at parts.new))) }
    ensures refused { IfErr result (OnRefused
        (IsRefused (C.changed change.now) (L.part_at parts.old) (R.joins read))) }
    ensures below { IfErr result (OnRefused
        (λ index. AreChangedBelow (C.changed change.now) (L.part_at parts.old) (R.joins read) index
        (L.part_at parts.new))) }
{
    let words = mask.layer0_as_slice().len();
    let (beside, values) = read.open();
    let set = BitSetAnd(mask, &beside);
    change_set::<T, L, R, C, BitSetAnd<&BitSet, &R::Mask>>(
        &set,
        parts,
        &values,
        change,
        (words + 63) / 64,
    )
}
