//! Parts without gaps.
ghost use Rattle.std.specs.Prelude.{◌≡◌, ℕ, ◌+◌, ◌<◌, ◌≤◌, ◌∷◌, ◌++◌, [], None, Some, IsSome, IsOk, IfOk, IfErr};
ghost use Rattle.std.specs.Prelude.{OnOk, OnErr, length, slice_get, slice_index};
ghost use Rattle.std.specs.Borrow.{sem};
ghost use Rattle.std.specs.List.{swap_remove};
ghost use Rattle.specs_layouts.specs.Parts.{Puts, SameParts};
ghost use Rattle.specs_layouts.specs.Dense.{dense_part};

use crate::slices::SliceAccess;
use crate::unprotected::{DistinctStorage, TryDefault, UnprotectedStorage};
use hibitset_sets::{BitSetLike, Index};
use std::alloc::{AllocError, AllocFailed, Global};
use std::marker::Model;

/// A storage whose parts lie without gaps, with a table that tells the place of each index.
///
/// A removed part's place is taken by the last part. Taking all parts out costs what is there.
#[derive(Drop)]
pub struct DenseVecStorage<T> {
    parts: Vec<T>,
    owners: Vec<Index>,
    places: Vec<usize>,
}

impl<T> Model for DenseVecStorage<T> {
    ghost use Rattle.std.specs.Prelude.{length};
    ghost use Rattle.specs_layouts.specs.Dense.{Dense, IsDense};

    ghost Value = { Dense T };

    ghost view = { λ s. record { places = s.places.items; owners = s.owners.items; parts = s.parts.items } };

    ghost invariant = { λ s. IsDense s.places.items s.owners.items (length s.parts.items) };
}

/// Makes the table at least so long.
fn extend_places(places: &mut Vec<usize>, len: usize) -> Result<(), AllocError>
    ensures same { (i : ℕ) → slice_index places.new.items i ≡ slice_index places.old.items i }
    ensures longer { length places.old.items ≤ length places.new.items }
    ensures ok { OnOk result (len ≤ length places.new.items) }
{
    if places.len() < len {
        places.resize(len, 0)?;
    }
    Ok(())
}

impl<T> DenseVecStorage<T> {
    ghost use Rattle.specs_layouts.specs.SliceLends.{lends_parts};

    /// The parts for writing. Each stays that of its index, and no event is written.
    pub fn as_mut_slice(&mut self) -> &mut [T]
        ensures* writes_back { sem 𝓛 (lends_parts T.row self.entry result) }
        ensures value { result.now ≡ self.old.parts }
    {
        self.parts.as_mut_slice()
    }
}

impl<T> TryDefault for DenseVecStorage<T> {
    ghost use Rattle.std.specs.Prelude.{◌≡◌, [], true};

    ghost is_default = { λ s. s.owners ≡ [] };

    ghost always = { true };

    fn try_default(alloc: Global) -> Result<Self, &'static str> {
        Ok(DenseVecStorage {
            parts: Vec::new(alloc),
            owners: Vec::new(alloc),
            places: Vec::new(alloc),
        })
    }
}

impl<T: Drop> UnprotectedStorage<T> for DenseVecStorage<T> {
    ghost use Rattle.specs_layouts.specs.Channels.{no_log};
    ghost use Rattle.std.specs.Prelude.{[], false, refl};
    ghost use Rattle.specs_layouts.specs.Dense.{dense_part, with_dense_part};
    ghost use Rattle.specs_layouts.specs.DenseLemmas.{with_dense_part-puts, dense-starts};

    ghost part_at = { dense_part };

    ghost written = { with_dense_part };

    ghost events = { λ _. no_log };

    ghost emits = { λ _. false };

    ghost has_room = { λ _ _. Unit {0} };

    ghost written_puts = { with_dense_part-puts };

    ghost written_tells = { λ _ _ _. refl };

    ghost written_emits = { λ _ _ _. refl };

    ghost written_room = { λ _ _ _ _ room. room };

    ghost room_for_fewer = { λ _ _ room. room };

    ghost starts_empty = { dense-starts };

    fn clean<B: BitSetLike + Drop>(&mut self, _has: B) {
        self.parts.clear();
        self.owners.clear();
    }

    fn get(&self, id: Index) -> &T {
        &self.parts[self.places[id as usize]]
    }

    fn get_mut(&mut self, id: Index) -> Result<&mut T, AllocError> {
        let place = self.places[id as usize];
        Ok(&mut self.parts[place])
    }

    fn insert(&mut self, id: Index, part: T) -> Result<(), AllocFailed<T>>
        requires range { id < 16777216 }
        requires absent { dense_part self.old id ≡ None }
        ensures ok { OnOk result (Puts (dense_part self.old) id (Some part) (dense_part self.new)) }
        ensures err { OnErr result (SameParts (dense_part self.old) (dense_part self.new)) }
        ensures handed_back { IfErr result (λ refused. refused.value ≡ part) }

        // The part comes last.
        ensures slice { OnOk result (self.new.parts ≡ self.old.parts ++ part ∷ []) }
    {
        if extend_places(&mut self.places, id as usize + 1).is_err() {
            return Err(AllocFailed { value: part });
        }
        if self.owners.reserve(1).is_err() {
            return Err(AllocFailed { value: part });
        }
        let place = self.owners.len();
        self.parts.push(part)?;
        self.owners.push_reserved(id);
        self.places[id as usize] = place;
        Ok(())
    }

    fn remove(&mut self, id: Index) -> Result<T, AllocError>
        requires { IsSome (dense_part self.old id) }
        ensures value { IfOk result (λ part. dense_part self.old id ≡ Some part) }
        ensures ok { OnOk result (Puts (dense_part self.old) id None (dense_part self.new)) }
        ensures succeeds { IsOk result }

        // The last part takes the place of the one that is taken out.
        ensures slice { IfOk result (λ part. self.new.parts
            ≡ swap_remove self.old.parts (slice_index self.old.places id) part) }
    {
        let place = self.places[id as usize];
        let last = self.owners[self.owners.len() - 1];
        self.places[last as usize] = place;
        let _ = self.owners.swap_remove(place);
        Ok(self.parts.swap_remove(place))
    }

    fn make_room(&mut self, _count: usize) -> Result<(), AllocError> {
        Ok(())
    }
}

impl<T> SliceAccess<T> for DenseVecStorage<T> {
    type Element = T;

    ghost shown = { λ s. s.parts };

    fn as_slice(&self) -> &[T]
        ensures value { result.now ≡ self.now.parts }

        // Each place has the part of the index that owns it, and each part has a place.
        ensures owners { (place : ℕ) → place < length result.now
            → dense_part self.now (slice_index self.now.owners place) ≡ slice_get result.now place }
        ensures places { (index : ℕ) → IsSome (dense_part self.now index)
            → slice_get result.now (slice_index self.now.places index) ≡ dense_part self.now index }
    {
        self.parts.as_slice()
    }
}

impl<T: Drop> DistinctStorage<T> for DenseVecStorage<T> {
    ghost use Rattle.std.specs.Prelude.{refl};

    ghost silent = { λ _. refl };
}
