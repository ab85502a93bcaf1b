//! Words of layers, words that walks read, and what is told of single words and indices.
ghost use Rattle.std.specs.Prelude.{◌≡◌, ◌<◌};

use crate::walked::set_of;
use hibitset_sets::average_ones::average_ones;
use hibitset_sets::count::{Counter, Steps};
use hibitset_sets::laws::{
    complement_of_a_union, equal_sets_hold_each_other, two_members_far_apart_cost_seven_words,
    walk_to_the_end, walks_read_few_words, xor_twice_changes_nothing,
};
use hibitset_sets::util::{Index, MAX_EID, Row, offsets};
use hibitset_sets::{BitSet, BitSetAll, BitSetAnd, BitSetLike};
use std::alloc::{AllocError, Global};
use std::marker::Brand;
use std::sync::ledger::{Blank, Ledger};
use std::test::Fail;

/// The layers of the set of 12,345 alone: layer, place, word.
const LAYERS: [(usize, usize, u64); 7] = [
    (0, 192, 1 << 57),
    (0, 191, 0),
    (0, 262_144, 0),
    (1, 3, 1 << 0),
    (2, 0, 1 << 3),
    (2, 1, 0),
    (3, 0, 1 << 0),
];

/// The word at a place of a layer, by the reader of that layer.
fn word_of(set: &BitSet, layer: usize, place: usize) -> u64 {
    match layer {
        0 => set.layer0(place),
        1 => set.layer1(place),
        2 => set.layer2(place),
        _ => set.layer3(),
    }
}

/// The word at a place of the slice of a layer, 0 where the slice ends before it.
fn word_in_slice(set: &BitSet, layer: usize, place: usize) -> u64 {
    let words = match layer {
        0 => set.layer0_as_slice(),
        1 => set.layer1_as_slice(),
        2 => set.layer2_as_slice(),
        _ => return set.layer3(),
    };
    words.get(place).copied().unwrap_or(0)
}

#[test]
fn one_index_stands_in_one_word_of_each_layer(rt: HostRuntime) -> Result<(), Fail> {
    let set = set_of(rt.alloc(), &[12345])?;
    let mut wrong = None;
    for row in LAYERS.as_slice() {
        let (layer, place, word) = *row;
        if layer > 3
            || set.get_from_layer(layer, place) != word
            || word_of(&set, layer, place) != word
            || word_in_slice(&set, layer, place) != word
        {
            wrong = Some((layer, place));
        }
    }
    assert_eq!(rt; wrong, None);
    Ok(())
}

/// How many words were told of.
#[derive(Drop)]
struct Told(u64);

impl Counter for Told {
    ghost ticked = { λ _ _ _. Unit {0} };

    ghost ticked_none = { λ _. tt };

    ghost ticked_both = { λ _ _ _ _ _ _ _. tt };

    fn tick(&mut self) {
        self.0 = self.0.saturating_add(1);
    }
}

/// How many words a walk to its end reads.
fn words_read<T: BitSetLike + Drop>(set: T) -> u64 {
    let mut told = Told(0);
    let mut walk = set.iter_counted(&mut told);
    for _ in 0..u64::MAX {
        if walk.next_counted(&mut told).is_none() {
            break;
        }
    }
    told.0
}

/// Walks over a set and over what two have, with a ledger that counts.
fn walk_with_a_ledger<L: Ledger>(blank: Blank, one: &BitSet, other: &BitSet)
    requires name { blank.name ≡ L.name }
    requires parts { blank.parts ≡ L.parts }
    requires some { 0 < blank.parts }
{
    let mut steps = Steps::<L>::new(blank);
    two_members_far_apart_cost_seven_words(one, &mut steps);
    walk_to_the_end(BitSetAnd(one, other), &mut steps);
}

/// The laws of sets, each called once. The ledger's name and parts are those of the blank that is made.
fn call_laws(one: &BitSet, other: &BitSet) {
    walks_read_few_words(&BitSetAnd(one, other));
    walk_with_a_ledger::<Brand>(Blank::new(1), one, other);
    equal_sets_hold_each_other(one, other);
    xor_twice_changes_nothing(one, other);
    complement_of_a_union(one, other);
}

/// The words that walks read of {0, 262144}, of {0, 1, 63}, of what both have, and of all indices.
fn words_of_walks(alloc: Global) -> Result<[u64; 4], AllocError> {
    let far = set_of(alloc, &[0, 262_144])?;
    let near = set_of(alloc, &[0, 1, 63])?;
    call_laws(&far, &near);
    Ok([
        words_read(&far),
        words_read(&near),
        words_read(BitSetAnd(&far, &near)),
        words_read(BitSetAll),
    ])
}

#[test]
fn a_walk_reads_three_words_a_member_and_one_more(rt: HostRuntime) -> Result<(), Fail> {
    assert_eq!(rt; words_of_walks(rt.alloc())?, [7, 4, 8, 0]);
    Ok(())
}

#[test]
fn average_ones_gives_the_middle_bit(rt: HostRuntime) {
    let rows: [(u64, Option<usize>); 5] = [
        (0b0, None),
        (0b1, None),
        (0b11, Some(1)),
        (0b10110, Some(4)),
        (u64::MAX, Some(32)),
    ];
    let mut wrong = None;
    for row in rows.as_slice() {
        let (word, place) = *row;
        if average_ones(word) != place {
            wrong = Some(word);
        }
    }
    assert_eq!(rt; wrong, None);
}

#[test]
fn an_index_has_a_place_in_each_layer(rt: HostRuntime) {
    let index: Index = 12345;
    assert_eq!(rt; offsets(index), (192, 3, 0));
    assert_eq!(rt;
        (index.row(0), index.offset(6), index.mask(0)),
        (57, 192, 1u64 << 57)
    );
    assert_eq!(rt; MAX_EID, 1usize << 24);
}
