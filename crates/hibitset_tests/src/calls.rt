//! One call after another on a set, the same for a `BitSet` and for an `AtomicBitSet` that is held alone.
use crate::walked::{set_of, walks};
use hibitset::atomic::AtomicBitSet;
use hibitset::laws::{summaries_of_a_bit_set_are_exact, summaries_of_an_atomic_bit_set_are_exact};
use hibitset_sets::{BitSet, BitSetAll, BitSetLike, BitSetNot, Index};
use std::alloc::{AllocError, Global};
use std::test::Fail;

/// A call that answers yes or no; those that answer nothing count as yes.
enum Call {
    Add(Index),
    Remove(Index),
    Contains(Index),
    /// Whether what the set lacks has the index.
    Lacks(Index),
    IsEmpty,
    Reserve(Index),
    Clear,
    Walks(&'static [Index]),
    /// Whether the word of layer 3 is this one.
    Top(u64),
}

/// The calls in their order, with their answers.
const CALLS: [(Call, bool); 28] = [
    (Call::IsEmpty, true),
    (Call::Reserve(4_097), true),
    (Call::IsEmpty, true),
    (Call::Add(16_777_215), false),
    (Call::Add(16_777_215), true),
    (Call::Walks(&[16_777_215]), true),
    (Call::Lacks(16_777_216), true),
    (Call::Lacks(16_777_215), false),
    (Call::Contains(16_777_216), false),
    (Call::Contains(4_294_967_295), false),
    (Call::Remove(16_777_216), false),
    (Call::Add(3), false),
    (Call::Add(4_096), false),
    (Call::Add(3), true),
    (Call::Walks(&[3, 4_096, 16_777_215]), true),
    (Call::Top(0x8000_0000_0000_0001), true),
    (Call::Remove(16_777_215), true),
    (Call::Remove(16_777_215), false),
    (Call::Top(1), true),
    (Call::Contains(3), true),
    (Call::Contains(4), false),
    (Call::IsEmpty, false),
    (Call::Clear, true),
    (Call::IsEmpty, true),
    (Call::Top(0), true),
    (Call::Reserve(65), true),
    (Call::Add(64), false),
    (Call::Walks(&[64]), true),
];

fn answer(set: &mut BitSet, call: &Call) -> Result<bool, AllocError> {
    Ok(match call {
        Call::Add(i) => *i < 16_777_216 && set.add(*i)?,
        Call::Remove(i) => BitSet::remove(set, *i),
        Call::Contains(i) => BitSet::contains(set, *i),
        Call::Lacks(i) => BitSetNot(&*set).contains(*i),
        Call::IsEmpty => BitSet::is_empty(set),
        Call::Reserve(i) => *i <= 16_777_216 && done(set.reserve(*i)?),
        Call::Clear => done(set.clear()),
        Call::Walks(wanted) => walks(&*set, wanted),
        Call::Top(word) => set.layer3() == *word,
    })
}

/// Yes, of a call that answers nothing.
fn done(_nothing: ()) -> bool {
    true
}

fn answer_alone(set: &mut AtomicBitSet, call: &Call) -> Result<bool, AllocError> {
    Ok(match call {
        Call::Add(i) => *i < 16_777_216 && set.add(*i)?,
        Call::Remove(i) => AtomicBitSet::remove(set, *i),
        Call::Contains(i) => AtomicBitSet::contains(set, *i),
        Call::Lacks(i) => BitSetNot(&*set).contains(*i),
        Call::IsEmpty => AtomicBitSet::is_empty(set),
        Call::Reserve(i) => *i <= 16_777_216 && done(set.reserve(*i)?),
        Call::Clear => done(set.clear()),
        Call::Walks(wanted) => walks(&*set, wanted),
        Call::Top(word) => set.layer3() == *word,
    })
}

/// The first call of the table that a `BitSet` answers otherwise.
fn first_wrong(alloc: Global) -> Result<Option<usize>, AllocError> {
    let mut set = BitSet::new(alloc);
    for (at, (call, wanted)) in CALLS.iter().enumerate() {
        if answer(&mut set, call)? != *wanted {
            return Ok(Some(at));
        }
        summaries_of_a_bit_set_are_exact(&set);
    }
    Ok(None)
}

/// The first call of the table that an `AtomicBitSet` answers otherwise.
fn first_wrong_alone(alloc: Global) -> Result<Option<usize>, AllocError> {
    let mut set = AtomicBitSet::new(alloc);
    for (at, (call, wanted)) in CALLS.iter().enumerate() {
        if answer_alone(&mut set, call)? != *wanted {
            return Ok(Some(at));
        }
        summaries_of_an_atomic_bit_set_are_exact(&set);
    }
    Ok(None)
}

#[test]
fn calls_on_a_set_answer_in_turn(rt: HostRuntime) -> Result<(), Fail> {
    assert_eq!(rt; first_wrong(rt.alloc())?, None);
    assert_eq!(rt; first_wrong_alone(rt.alloc())?, None);
    Ok(())
}

/// Whether two sets are told apart by their members alone, and a copy stays as it was.
fn equality_holds(alloc: Global) -> Result<bool, AllocError> {
    let one = set_of(alloc, &[1, 64])?;
    let mut other = BitSet::with_capacity(alloc, 100_000)?;
    let _ = other.add(64)?;
    let lacks_one = one.contains_set(&other) && !other.contains_set(&one) && !(one == other);
    let _ = other.add(1)?;
    let same = one == other;
    let copy = other.clone()?;
    let taken = BitSet::remove(&mut other, 64);
    Ok(lacks_one && same && taken && copy == one && !(copy == other))
}

#[test]
fn sets_are_equal_by_members(rt: HostRuntime) -> Result<(), Fail> {
    assert!(rt; equality_holds(rt.alloc())?);
    Ok(())
}

/// The last index that a set without 16,777,215 lacks, and how many indices there are.
fn ends(alloc: Global) -> Result<(Index, u32), AllocError> {
    let set = set_of(alloc, &[16_777_215])?;
    let mut last = 0;
    for i in &!&set {
        last = i;
    }
    let mut all = 0u32;
    for _ in BitSetAll {
        all = all.saturating_add(1);
    }
    Ok((last, all))
}

#[test]
fn complements_end_below_the_greatest_index(rt: HostRuntime) -> Result<(), Fail> {
    assert_eq!(rt; ends(rt.alloc())?, (16_777_214, 16_777_216));
    Ok(())
}
