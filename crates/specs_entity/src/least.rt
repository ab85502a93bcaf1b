//! The least set of indices that has some roots and all that hold on to its members.
ghost use Rattle.std.specs.Prelude.{◌≡◌, ◌≤◌, ◌<◌, ◌==◌, ◌||◌, ◌⊎◌, ℕ, [], true, OnOk, IfOk};
ghost use Rattle.std.specs.List.{All, list_any};
ghost use Rattle.std.specs.FinSet as set;
ghost use Rattle.hibitset_sets.specs.Walk.{walk};
ghost use Rattle.specs_entity.specs.Closures.{IsLeast};
ghost use Rattle.specs_entity.specs.Holders.{AreBelow, AreLeast, GoesOn, Holds, IsChained, Tells, end_in};

use crate::holders::Holders;
use hibitset::{AtomicBitSet, BitSetLike, Index};
use std::alloc::{AllocError, Global};

/// Takes an index in, where it isn't yet.
///
/// Errors: `AllocError`, and nothing changed.
fn reach(
    marked: &mut AtomicBitSet,
    members: &mut Vec<Index>,
    index: Index,
) -> Result<(), AllocError>
    requires range { index < 16777216 }
    requires room { index < marked.old.room }
    requires tells { Tells members.old.items marked.old.members }
    ensures tells { Tells members.new.items marked.new.members }
    ensures room { marked.old.room ≤ marked.new.room }
    ensures has { OnOk result ((other : ℕ) → set.contains marked.new.members other
        ≡ ((other == index) || set.contains marked.old.members other)) }
    ensures longer { OnOk result (GoesOn members.old.items members.new.items) }
{
    if marked.contains(index) {
        return Ok(());
    }
    members.push(index)?;
    marked.add(index)?;
    Ok(())
}

/// Takes all in that hold on to a target.
///
/// Errors: `AllocError`, and some of them may be in.
fn reach_holders(
    holders: &Holders,
    target: Index,
    marked: &mut AtomicBitSet,
    members: &mut Vec<Index>,
) -> Result<(), AllocError>
    requires chained { IsChained (end_in holders.now.ends) holders.now.links.items }
    requires range { AreBelow holders.now.links.items 16777216 }
    requires room { AreBelow holders.now.links.items marked.old.room }
    requires tells { Tells members.old.items marked.old.members }
    ensures tells { Tells members.new.items marked.new.members }
    ensures room { marked.old.room ≤ marked.new.room }
    ensures longer { OnOk result (GoesOn members.old.items members.new.items) }
    ensures keeps { OnOk result ((index : ℕ) → set.contains marked.old.members index ≡ true
        → set.contains marked.new.members index ≡ true) }
    ensures only { OnOk result ((index : ℕ) → set.contains marked.new.members index ≡ true
        → (set.contains marked.old.members index ≡ true) ⊎ Holds holders.now.links.items index target) }
    ensures all { OnOk result ((index : ℕ) → Holds holders.now.links.items index target
        → set.contains marked.new.members index ≡ true) }
{
    let mut end = holders.end(target);
    while end > 0 {
        let link = holders.links[end - 1];
        reach(marked, members, link.holder)?;
        end = link.before;
    }
    Ok(())
}

/// Marks the least set that has the roots and, with each of its members, all that hold on to it, and lists it.
///
/// It looks once at each member, and once at each pair whose target is one.
///
/// Errors: `AllocError`, and what is marked is listed.
fn least_set(
    roots: &[Index],
    holders: &Holders,
    marked: &mut AtomicBitSet,
    members: &mut Vec<Index>,
) -> Result<(), AllocError>
    requires roots { All (λ root. root < 16777216) roots.now }
    requires roots_room { All (λ root. root < marked.old.room) roots.now }
    requires chained { IsChained (end_in holders.now.ends) holders.now.links.items }
    requires range { AreBelow holders.now.links.items 16777216 }
    requires room { AreBelow holders.now.links.items marked.old.room }
    requires none { members.old.items ≡ [] }
    requires unmarked { marked.old.members ≡ set.empty }
    ensures tells { Tells members.new.items marked.new.members }
    ensures room { marked.old.room ≤ marked.new.room }
    ensures least { OnOk result (IsLeast (λ index. list_any (λ root. index == root) roots.now)
        (Holds holders.now.links.items) (set.contains marked.new.members)) }
{
    for root in roots {
        reach(marked, members, *root)?;
    }
    let mut at = 0;
    while at < members.len() {
        let target = members[at];
        reach_holders(holders, target, marked, members)?;
        at += 1;
    }
    Ok(())
}

/// Unmarks the members of a list, which has all that are marked.
pub(crate) fn unmark_each(marked: &mut AtomicBitSet, members: &[Index])
    requires { Tells members.now marked.old.members }
    ensures members { marked.new.members ≡ set.empty }
    ensures room { marked.new.room ≡ marked.old.room }
{
    for index in members {
        let _ = marked.remove(*index);
    }
}

/// The members of a set, ascending.
///
/// Errors: `AllocError`.
fn indices_in(marked: &AtomicBitSet, alloc: Global) -> Result<Vec<Index>, AllocError>
    ensures { IfOk result (λ indices. indices.items ≡ walk (set.contains marked.now.members)) }
{
    let mut indices = Vec::new(alloc);
    for index in marked.iter() {
        indices.push(index)?;
    }
    Ok(indices)
}

/// The members of the least set that has the roots and, with each of its members, all that hold on to it, ascending.
/// They are marked and listed, as far as it came.
///
/// Errors: `AllocError`.
pub(crate) fn least_indices(
    roots: &[Index],
    holders: &Holders,
    marked: &mut AtomicBitSet,
    members: &mut Vec<Index>,
    alloc: Global,
) -> Result<Vec<Index>, AllocError>
    requires roots { All (λ root. root < 16777216) roots.now }
    requires roots_room { All (λ root. root < marked.old.room) roots.now }
    requires chained { IsChained (end_in holders.now.ends) holders.now.links.items }
    requires range { AreBelow holders.now.links.items 16777216 }
    requires room { AreBelow holders.now.links.items marked.old.room }
    requires none { members.old.items ≡ [] }
    requires unmarked { marked.old.members ≡ set.empty }
    ensures tells { Tells members.new.items marked.new.members }
    ensures room { marked.old.room ≤ marked.new.room }
    ensures least { IfOk result (λ indices. AreLeast roots.now holders.now.links.items indices.items) }
{
    least_set(roots, holders, marked, members)?;
    let indices = indices_in(marked, alloc)?;
    Ok(indices)
}
