//! Producers: walks that can be split in two.
ghost use Rattle.std.specs.Prelude.{◌≡◌, ◌≢◌, [], ℕ, ◌+◌, ◌-◌, ◌*◌, ◌/◌, ◌%◌, ◌<◌, ◌≤◌, ◌&&◌, IfSome, MatchOption};
ghost use Rattle.std.specs.List.{All, FoldsTo};
ghost use Rattle.hibitset_sets.specs.Walk.{walk, IsPlaced};
ghost use Rattle.hibitset_sets.specs.Iter.{left_of, walked_set, masks_left, prefixes};
ghost use Rattle.hibitset_sets.specs.Average.{IsAverage};
ghost use Rattle.hibitset.specs.Cut.{IsCutAt, first_under, is_under};
ghost use Rattle.hibitset.specs.Standing.{IsFirstBit, IsFound, IsCutOf, IsBelow, IsFrom};
ghost use Rattle.hibitset.specs.Producer.{IsAlone, IsCut, items_of};

use hibitset_sets::average_ones::average_ones;
use hibitset_sets::util::LAYERS;
use hibitset_sets::{BitIter, BitSetLike, Index};

/// A walk over a set that can be split, and how many layers may be.
#[derive(Drop)]
pub struct BitProducer<'a, T>(pub BitIter<&'a T>, pub u8);

impl<'a, T: BitSetLike> BitProducer<'a, T> {
    ghost use Rattle.hibitset.specs.Split.{IsSplit};
    ghost use Rattle.hibitset.specs.Cut.{Differ};
    ghost use Rattle.hibitset.specs.Producer.{BeginsExact, CutsAt, IsPartOf, items_of_other};

    /// Cuts the walk in two where its masks are cut: the first part has the items below that index,
    /// the second those from it on.
    ///
    /// At most the number of layers in the second field is gone down, from the highest. A walk with
    /// more than one mask that isn't empty is left whole.
    pub fn split(self) -> (Self, Option<Self>)
        requires { self.1 ≤ 3 }
        ensures keeps { IsSplit (items_of T.members self.entry) (items_of T.members result.0)
            (items_of_other T.members result.1) }
        ensures cut { MatchOption result.1
            ((index : ℕ) → CutsAt T.words self.entry index → ⊥)
            (λ other. (index : ℕ) × CutsAt T.words self.entry index
            × All (λ i. i < index) (items_of T.members result.0) × All (λ i. index ≤ i) (items_of T.members other)) }

        // Both parts are over the same set, and as many layers of them may be split.
        ensures first { IsPartOf self.entry result.0 }
        ensures second { IfSome result.1 (IsPartOf self.entry) }

        // One that begins is split exactly where two members are in different words, and neither
        // part is empty.
        ensures fresh { BeginsExact T.words self.entry → MatchOption result.1
            (Differ (T.members (walked_set self.entry.0).now) → ⊥)
            (λ other. Differ (T.members (walked_set self.entry.0).now) × (items_of T.members result.0 ≢ [])
            × (items_of T.members other ≢ [])) }
    {
        self.halves()
    }

    /// `split`, without what it says of a walk that begins.
    fn halves(self) -> (Self, Option<Self>)
        requires { self.1 ≤ 3 }
        ensures keeps { IsSplit (items_of T.members self.entry) (items_of T.members result.0)
            (items_of_other T.members result.1) }
        ensures cut { MatchOption result.1
            ((index : ℕ) → CutsAt T.words self.entry index → ⊥)
            (λ other. (index : ℕ) × CutsAt T.words self.entry index
            × All (λ i. i < index) (items_of T.members result.0) × All (λ i. index ≤ i) (items_of T.members other)) }
        ensures first { IsPartOf self.entry result.0 }
        ensures second { IfSome result.1 (IsPartOf self.entry) }
    {
        let layers = self.1;
        let (set, masks, prefix) = self.0.into_parts();
        let Some(cut) = cut_in(set, layers, &masks, &prefix) else {
            return (BitProducer(BitIter::new(set, masks, prefix), layers), None);
        };
        let low = standing(set, cut.layer, cut.first, below(cut.word, cut.place));
        let high = standing(set, cut.layer, cut.first, from(cut.word, cut.place));
        (BitProducer(low, layers), Some(BitProducer(high, layers)))
    }

    /// Folds the items in order, from `start` on.
    pub fn fold_with<A, F: Fn(A, Index) -> A>(self, start: A, f: F) -> A
        requires { F.IsAlwaysCallable f }
        ensures { FoldsTo (λ a i b. F.post f a i b) start (items_of T.members self.entry) result }
    {
        fold_items(self, start, &f)
    }
}

/// Folds the items of a producer in order, from `start` on.
pub(crate) fn fold_items<'a, T: BitSetLike, A, F: Fn(A, Index) -> A>(
    producer: BitProducer<'a, T>,
    start: A,
    f: &F,
) -> A
    requires { F.IsAlwaysCallable f.now }
    ensures { FoldsTo (λ a i b. F.post f.now a i b) start (items_of T.members producer.entry) result }
{
    let mut walk = producer.0;
    let mut folded = start;
    while let Some(i) = walk.next() {
        folded = f(folded, i);
    }
    folded
}

/// Where the masks are cut.
fn cut_in<T: BitSetLike>(
    set: &T,
    layers: u8,
    masks: &[u64; LAYERS],
    prefix: &[u32; 3],
) -> Option<Cut>
    requires layers { layers ≤ 3 }
    requires placed { IsPlaced masks.now prefix.now }
    ensures { MatchOption result
        ((index : ℕ) → IsCut (T.words set.now) masks.now prefix.now layers index → ⊥)
        (λ cut. IsCutOf (T.members set.now)
        (T.words set.now) masks.now prefix.now layers cut.layer cut.first cut.word cut.place) }
{
    let layer = only_mask(masks)?;
    let first = if layer < 3 { prefix[layer] } else { 0 };
    cut_of(
        set,
        4 - layers as usize,
        layer,
        first as usize,
        masks[layer],
    )
}

/// The layer above 0 whose mask alone has bits left.
fn only_mask(masks: &[u64; LAYERS]) -> Option<usize>
    ensures { MatchOption result ((layer : ℕ) → IsAlone masks.now layer → ⊥) (IsAlone masks.now) }
{
    if masks[0] != 0 {
        return None;
    }
    if masks[1] == 0 && masks[2] == 0 && masks[3] != 0 {
        return Some(3);
    }
    if masks[1] == 0 && masks[2] != 0 && masks[3] == 0 {
        return Some(2);
    }
    if masks[1] != 0 && masks[2] == 0 && masks[3] == 0 {
        return Some(1);
    }
    None
}

/// A word of a layer with the number of its first bit, and the place below which it is cut.
#[derive(Drop)]
struct Cut {
    layer: usize,
    first: usize,
    word: u64,
    place: usize,
}

/// Where a word of a layer is cut, that of `lowest` or one above it.
fn cut_of<T: BitSetLike>(
    set: &T,
    lowest: usize,
    layer: usize,
    first: usize,
    word: u64,
) -> Option<Cut>
    requires lowest { 0 < lowest }
    requires stands { IsFirstBit layer first }
    ensures { MatchOption result
        ((index : ℕ) → IsCutAt (T.words set.now) lowest layer first word index → ⊥)
        (λ cut. IsFound (T.members set.now)
        (T.words set.now) lowest layer first word cut.layer cut.first cut.word cut.place) }
{
    if layer < lowest || word == 0 {
        return None;
    }
    if let Some(place) = average_ones(word) {
        return Some(Cut {
            layer,
            first,
            word,
            place,
        });
    }
    let number = first + word.trailing_zeros() as usize;
    let under = layer - 1;
    let next = set.get_from_layer(under, number);
    cut_of(set, lowest, under, number * 64, next)
}

/// A walk over the members under the bits of a word of a layer.
fn standing<'a, T: BitSetLike>(set: &'a T, layer: usize, first: usize, word: u64) -> BitIter<&'a T>
    requires above { 0 < layer }
    requires stands { IsFirstBit layer first }
    ensures set { (walked_set result).now ≡ set.entry.now }
    ensures items { left_of (λ s. T.members s.now) result
        ≡ walk (λ i. T.members set.entry.now i && is_under layer first word i) }
{
    let number = first as u32;
    if layer == 3 {
        BitIter::new(set, [0, 0, 0, word], [0, 0, 0])
    } else if layer == 2 {
        BitIter::new(set, [0, 0, word, 0], [0, 0, number])
    } else {
        BitIter::new(set, [0, word, 0, 0], [0, number, number / 4096 * 64])
    }
}

/// The bits of a word below a place.
fn below(word: u64, place: usize) -> u64
    requires { place < 64 }
    ensures { IsBelow word place result }
{
    word & ((1 << place) - 1)
}

/// The bits of a word from a place on.
fn from(word: u64, place: usize) -> u64
    requires { place < 64 }
    ensures { IsFrom word place result }
{
    word & !((1 << place) - 1)
}
