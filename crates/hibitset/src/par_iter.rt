//! Walks in several threads.
ghost use Rattle.std.specs.List.{AllZip, FoldsTo};
ghost use Rattle.hibitset.specs.Split.{AreJoined};
ghost use Rattle.std.specs.Prelude.{◌∷◌, ◌%◌, ◌^◌, ◌≡◌, ◌≢◌, ℕ, ◌+◌, ◌<◌, ◌≤◌, ◌++◌, List, [], flat_map, length};
ghost use Rattle.std.specs.Prelude.{IfOk, IsOk, vec_len, slice_index_or};
ghost use Rattle.hibitset_sets.specs.Walk.{walk};
ghost use Rattle.hibitset.specs.Producer.{items_of};
ghost use Rattle.hibitset.specs.Folds.{FoldsFromStart, FoldsInParts, GoesOn};

use crate::producer::{BitProducer, fold_items};
use hibitset_sets::{BitSetLike, Index};
use std::alloc::{AllocError, Global};
use std::thread;
use std::thread::Threads;

/// A walk over the members of a set below `MAX_EID` that threads share.
#[derive(Drop)]
pub struct BitParIter<T> {
    set: T,
    layers: u8,
    ghost limit: { layers ≤ 3 },
}

impl<T> BitParIter<T> {
    ghost use Rattle.hibitset.specs.Shared.{shared_set, layers_of};

    /// A walk of which three layers may be split.
    pub fn new(set: T) -> Self
        ensures set { shared_set result ≡ set }
        ensures layers { layers_of result ≡ 3 }
    {
        BitParIter { set, layers: 3 }
    }

    /// The same walk, of which that many layers may be split, counted from the highest.
    pub fn layers_split(self, layers: u8) -> Self
        requires some { 0 < layers }
        requires limit { layers ≤ 3 }
        ensures set { shared_set result ≡ shared_set self }
        ensures layers { layers_of result ≡ layers }
    {
        BitParIter {
            set: self.set,
            layers,
        }
    }
}

impl<T: BitSetLike> BitParIter<T> {
    ghost use Rattle.hibitset.specs.Shared.{shared_set, layers_of};

    /// The whole walk, to be split.
    fn producer<'a>(&'a self) -> BitProducer<'a, T>
        ensures items { items_of T.members result ≡ walk (T.members (shared_set self.now)) }
        ensures layers { result.1 ≡ layers_of self.now }
        ensures limit { result.1 ≤ 3 }
    {
        BitProducer((&self.set).iter(), self.layers)
    }

    /// Folds the walk: each part from a start of its own, and the results from the first part to the
    /// last.
    ///
    /// Up to `workers` parts are folded in threads of their own, where these can be started, and by
    /// the caller's thread else. With 0 or 1 workers the caller's thread folds the whole.
    ///
    /// Errors: `AllocError`, with 2 workers or more. Some calls of the closures may have run.
    pub fn fold<
        R: Threads + Sync,
        A: Send + Drop,
        I: Fn() -> A + Sync,
        F: Fn(A, Index) -> A + Sync,
        C: Fn(A, A) -> A,
    >(
        &self,
        rt: &R,
        alloc: Global,
        workers: usize,
        start: I,
        step: F,
        combine: C,
    ) -> Result<A, AllocError>
    where
        T: Sync,
        requires start { I.IsAlwaysCallable start }
        requires step { F.IsAlwaysCallable step }
        requires combine { C.IsAlwaysCallable combine }
        ensures parts { IfOk result (FoldsInParts (λ a. I.post start a) (λ a i b. F.post step a i b)
            (λ a b c. C.post combine a b c) (walk (T.members (shared_set self.now)))) }

        // Where combining is going on through the part, it is the fold of the walk; for one worker too.
        ensures goes_on { GoesOn (λ a. I.post start a) (λ a i b. F.post step a i b) (λ a b c. C.post combine a b c)
            → IfOk result (FoldsFromStart (λ a. I.post start a) (λ a i b. F.post step a i b)
            (walk (T.members (shared_set self.now)))) }
        ensures alone { workers < 2
            → IfOk result (FoldsFromStart (λ a. I.post start a) (λ a i b. F.post step a i b)
            (walk (T.members (shared_set self.now)))) }
        ensures succeeds { workers < 2 → IsOk result }
    {
        let whole = self.producer();
        if workers < 2 {
            return Ok(fold_items(whole, start(), &step));
        }
        let parts = cut_parts(whole, workers, Vec::new(alloc))?;
        let folds = fold_parts(rt, parts, &start, &step)?;
        Ok(combine_all(folds, &combine))
    }
}

impl<T: BitSetLike + Sync> BitParIter<T> {
    ghost use Rattle.hibitset.specs.Shared.{shared_set};

    /// The members below `MAX_EID`, in ascending order.
    ///
    /// Up to `workers` parts are collected in threads of their own, where these can be started, and by
    /// the caller's thread else. With 0 or 1 workers the caller's thread collects the whole.
    ///
    /// Errors: `AllocError`.
    pub fn collect<R: Threads + Sync>(
        &self,
        rt: &R,
        alloc: Global,
        workers: usize,
    ) -> Result<Vec<Index>, AllocError>
        ensures { IfOk result (λ v. v.items ≡ walk (T.members (shared_set self.now))) }
    {
        let whole = self.producer();
        if workers < 2 {
            return collect_items(alloc, whole);
        }
        let parts = cut_parts(whole, workers, Vec::new(alloc))?;
        let lists = collect_parts(rt, alloc, parts)?;
        join_all(alloc, lists)
    }

    /// How many members below `MAX_EID` there are.
    ///
    /// Up to `workers` parts are counted in threads of their own, where these can be started, and by
    /// the caller's thread else. With 0 or 1 workers the caller's thread counts the whole.
    ///
    /// Errors: `AllocError`, with 2 workers or more.
    pub fn count<R: Threads + Sync>(
        &self,
        rt: &R,
        alloc: Global,
        workers: usize,
    ) -> Result<usize, AllocError>
        ensures value { IfOk result (λ n. n ≡ length (walk (T.members (shared_set self.now)))) }
        ensures succeeds { workers < 2 → IsOk result }
    {
        self.fold(
            rt,
            alloc,
            workers,
            || -> usize
                ensures { result ≡ 0 }
            { 0 },
            |n: usize, _i: Index| -> usize
                ensures { result ≡ (n + 1) % 2 ^ 64 }
            { n.wrapping_add(1) },
            |n: usize, more: usize| -> usize
                ensures { result ≡ (n + more) % 2 ^ 64 }
            { n.wrapping_add(more) },
        )
    }

    /// Calls `f` with each member below `MAX_EID`.
    ///
    /// Up to `workers` parts are gone through in threads of their own, where these can be started, and
    /// by the caller's thread else. With 0 or 1 workers the caller's thread goes through the whole, in
    /// ascending order.
    ///
    /// Errors: `AllocError`, with 2 workers or more. Some calls may have run.
    pub fn for_each<R: Threads + Sync, F: Fn(Index) + Sync>(
        &self,
        rt: &R,
        alloc: Global,
        workers: usize,
        f: F,
    ) -> Result<(), AllocError>
        requires { F.IsAlwaysCallable f }
        ensures succeeds { workers < 2 → IsOk result }
    {
        let whole = self.producer();
        if workers < 2 {
            visit_items(whole, &f);
            return Ok(());
        }
        let parts = cut_parts(whole, workers, Vec::new(alloc))?;
        visit_parts(rt, parts, &f)
    }
}

/// The items of a producer, in order.
fn collect_items<'a, T: BitSetLike>(
    alloc: Global,
    whole: BitProducer<'a, T>,
) -> Result<Vec<Index>, AllocError>
    ensures { IfOk result (λ v. v.items ≡ items_of T.members whole.entry) }
{
    let mut list = Vec::new(alloc);
    let mut walk = whole.0;
    while let Some(i) = walk.next() {
        list.push(i)?;
    }
    Ok(list)
}

/// Collects the items of each part, in threads. A part for which there was no memory is an error.
fn collect_parts<'a, R: Threads + Sync, T: BitSetLike + Sync>(
    rt: &R,
    alloc: Global,
    parts: Vec<BitProducer<'a, T>>,
) -> Result<Vec<Result<Vec<Index>, AllocError>>, AllocError>
    ensures { IfOk result (λ v.
        AllZip (λ part list. IfOk list (λ l. l.items ≡ items_of T.members part)) parts.entry.items v.items) }
{
    thread::map_vec(
        rt,
        parts,
        &|part: BitProducer<'_, T>| -> Result<Vec<Index>, AllocError>
            ensures { IfOk result (λ l. l.items ≡ items_of T.members part.entry) }
        { collect_items(alloc, part) },
    )
}

/// The lists one after the other, or the first error.
fn join_all(
    alloc: Global,
    lists: Vec<Result<Vec<Index>, AllocError>>,
) -> Result<Vec<Index>, AllocError>
    ensures { IfOk result (λ v. AreJoined lists.items v.items) }
{
    let mut all = Vec::new(alloc);
    let mut rest = lists.into_iter();
    while let Some(list) = rest.next() {
        let mut next = list?;
        all.append(&mut next)?;
    }
    Ok(all)
}

/// Calls `f` with each item of a producer, in order.
fn visit_items<'a, T: BitSetLike, F: Fn(Index)>(whole: BitProducer<'a, T>, f: &F)
    requires { F.IsAlwaysCallable f.now }
{
    let mut walk = whole.0;
    while let Some(i) = walk.next() {
        f(i);
    }
}

/// Goes through each part, in threads.
fn visit_parts<'a, R: Threads + Sync, T: BitSetLike + Sync, F: Fn(Index) + Sync>(
    rt: &R,
    parts: Vec<BitProducer<'a, T>>,
    f: &F,
) -> Result<(), AllocError>
    requires { F.IsAlwaysCallable f.now }
{
    thread::map_vec(
        rt,
        parts,
        &|part: BitProducer<'_, T>|
            requires { F.IsAlwaysCallable f.now }
        { visit_items(part, f) },
    )?;
    Ok(())
}

/// Folds each part from a start of its own, in threads.
fn fold_parts<
    'a,
    R: Threads + Sync,
    T: BitSetLike + Sync,
    A: Send + Drop,
    I: Fn() -> A + Sync,
    F: Fn(A, Index) -> A + Sync,
>(rt: &R, parts: Vec<BitProducer<'a, T>>, start: &I, step: &F) -> Result<Vec<A>, AllocError>
    requires start { I.IsAlwaysCallable start.now }
    requires step { F.IsAlwaysCallable step.now }
    ensures len { IfOk result (λ v. vec_len v ≡ vec_len parts.entry) }
    ensures each { IfOk result (λ v. AllZip
        (λ part fold. FoldsFromStart (λ a. I.post start.now a) (λ a i b. F.post step.now a i b)
        (items_of T.members part) fold)
        parts.entry.items v.items) }
{
    thread::map_vec(
        rt,
        parts,
        &|part: BitProducer<'_, T>| -> A
            requires { I.IsAlwaysCallable start.now × F.IsAlwaysCallable step.now }
            ensures { FoldsFromStart (λ a. I.post start.entry.now a) (λ a i b. F.post step.entry.now a i b)
                (items_of T.members part.entry) result }
        { fold_items(part, start(), step) },
    )
}

/// Combines values from the first to the last.
fn combine_all<A: Drop, C: Fn(A, A) -> A>(folds: Vec<A>, combine: &C) -> A
    requires some { 0 < vec_len folds }
    requires combine { C.IsAlwaysCallable combine.now }
    ensures { (first : A) × (others : List A) × (folds.items ≡ first ∷ others)
        × FoldsTo (λ a b c. C.post combine.now a b c) first others result }
{
    let mut rest = folds.into_iter();
    let Some(first) = rest.next() else {
        unreachable!()
    };
    let mut all = first;
    while let Some(next) = rest.next() {
        all = combine(all, next);
    }
    all
}

/// Cuts a walk into at most that many parts, which come after those that are there.
fn cut_parts<'a, T: BitSetLike>(
    whole: BitProducer<'a, T>,
    most: usize,
    parts: Vec<BitProducer<'a, T>>,
) -> Result<Vec<BitProducer<'a, T>>, AllocError>
    requires layers { whole.1 ≤ 3 }
    ensures items { IfOk result (λ v. flat_map (items_of T.members) v.items
        ≡ flat_map (items_of T.members) parts.entry.items ++ items_of T.members whole.entry) }
    ensures some { IfOk result (λ v. 0 < vec_len v) }
{
    let mut parts = parts;
    if most < 2 {
        parts.push(whole)?;
        return Ok(parts);
    }
    let (first, other) = whole.split();
    let Some(second) = other else {
        parts.push(first)?;
        return Ok(parts);
    };
    let half = most / 2;
    let parts = cut_parts(first, most - half, parts)?;
    cut_parts(second, half, parts)
}
