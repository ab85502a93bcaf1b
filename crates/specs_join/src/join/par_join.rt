//! Joins in several threads.
ghost use Rattle.std.specs.Prelude.{◌≡◌, ℕ, ◌<◌, ◌++◌, [], ◌∷◌, true, map, IsSome, IfOk};
ghost use Rattle.std.specs.List.{AllZip};
ghost use Rattle.specs_join.specs.Joins.{join_list, shown_of};
ghost use Rattle.hibitset_sets.specs.Walk.{walk};
ghost use Rattle.specs_join.specs.Collected.{at_members, Answers, Hangs, IsCollected, AnswersNext, Appends};

use crate::join::Join;
use hibitset::{BitParIter, BitSetLike, Index, MAX_EID};
use std::alloc::{AllocError, Global};
use std::thread::Threads;

/// What every join has, for walks in several threads.
pub trait ParJoin: Join {
    /// A walk over the items that threads share.
    final fn par_join(self) -> JoinParIter<Self>
    where
        Self: Sized,
        ensures { result.0 ≡ self }
    {
        JoinParIter(self)
    }
}

impl<J: Join> ParJoin for J {}

/// A walk over the items of a join that threads share.
#[derive(Drop)]
pub struct JoinParIter<J>(pub J);

impl<J: Join + Sync> JoinParIter<J>
where
    J::Mask: Sync,
    J::Value: Sync,
{
    /// What `f` answers to each item, in the order of `Join::join`, whichever part ends first.
    ///
    /// Where the answer of `f` hangs on what its item shows alone, this is the plain map over the list of
    /// `Join::join`, for every number of workers.
    ///
    /// Up to `workers` parts are gone through in threads of their own, where these can be started, and
    /// by the caller's thread else. With 0 or 1 workers the caller's thread goes through the whole.
    ///
    /// Errors: `AllocError`. Some calls of `f` may have run.
    pub fn collect<R: Threads + Sync, T: Send + Drop, F: Fn(J::Type) -> T + Sync>(
        self,
        rt: &R,
        alloc: Global,
        workers: usize,
        f: F,
    ) -> Result<Vec<T>, AllocError>
        requires { F.IsAlwaysCallable f }
        ensures each { IfOk result (λ v. AllZip (Answers J.show (λ item t. F.post f item t))
            (join_list (J.joins self.0)) v.items) }

        // Where the answer hangs on what the item shows alone, this is the plain map.
        ensures plain { (answer : J.Shown → T) → Hangs J.show (λ item t. F.post f item t) answer
            → IfOk result (λ v. v.items ≡ map answer (join_list (J.joins self.0))) }
    {
        let JoinParIter(join) = self;
        let (mask, values) = join.open();
        fold_parts::<J, R, T, F>(rt, alloc, workers, &mask, &values, &f)?
    }
}

/// What `f` answers at each index of a mask, in ascending order.
fn fold_parts<J: Join + Sync, R: Threads + Sync, T: Send + Drop, F: Fn(J::Type) -> T + Sync>(
    rt: &R,
    alloc: Global,
    workers: usize,
    mask: &J::Mask,
    values: &J::Value,
    f: &F,
) -> Result<Result<Vec<T>, AllocError>, AllocError>
where
    J::Mask: Sync,
    J::Value: Sync,
    requires known { (index : ℕ) → index < 16777216 → J.Mask.members mask.now index ≡ true
        → IsSome (J.value_at values.now index) }
    requires callable { F.IsAlwaysCallable f.now }
    ensures { IfOk result (IsCollected (at_members (J.Mask.members mask.now) (J.value_at values.now))
        (Answers J.show (λ item t. F.post f.now item t)) (walk (J.Mask.members mask.now))) }
{
    BitParIter::new(mask).fold(
        rt,
        alloc,
        workers,
        || -> Result<Vec<T>, AllocError>
            ensures { IfOk result (λ v. v.items ≡ []) }
        { Ok(Vec::new(alloc)) },
        |sofar: Result<Vec<T>, AllocError>, id: Index| -> Result<Vec<T>, AllocError>
            requires { ((index : ℕ) → index < 16777216 → J.Mask.members mask.now index ≡ true
                → IsSome (J.value_at values.now index)) × F.IsAlwaysCallable f.now }
            ensures { AnswersNext (at_members (J.Mask.members mask.entry.now) (J.value_at values.entry.now)) J.show
                (λ item t. F.post f.entry.now item t) id sofar result }
        { answer_next::<J, T, F>(mask, values, f, sofar, id) },
        |sofar: Result<Vec<T>, AllocError>, more: Result<Vec<T>, AllocError>| -> Result<
            Vec<T>,
            AllocError,
        >
            ensures { Appends sofar more result }
        { append(sofar, more) },
    )
}

/// The item at an index below `MAX_EID` that the mask has.
fn item_at<J: Join>(mask: &J::Mask, values: &J::Value, id: Index) -> Option<J::Type>
    requires { (index : ℕ) → index < 16777216 → J.Mask.members mask.now index ≡ true
        → IsSome (J.value_at values.now index) }
    ensures { shown_of J.show result ≡ at_members (J.Mask.members mask.now) (J.value_at values.now) id }
{
    if (id as usize) < MAX_EID && mask.contains(id) {
        Some(J::get(values, id))
    } else {
        None
    }
}

/// Puts what `f` answers at one more index at the end, if the mask has the index.
fn answer_next<J: Join, T: Drop, F: Fn(J::Type) -> T>(
    mask: &J::Mask,
    values: &J::Value,
    f: &F,
    sofar: Result<Vec<T>, AllocError>,
    id: Index,
) -> Result<Vec<T>, AllocError>
    requires known { (index : ℕ) → index < 16777216 → J.Mask.members mask.now index ≡ true
        → IsSome (J.value_at values.now index) }
    requires callable { F.IsAlwaysCallable f.now }
    ensures { AnswersNext (at_members (J.Mask.members mask.now) (J.value_at values.now)) J.show
        (λ item t. F.post f.now item t) id sofar result }
{
    let list = sofar?;
    let Some(item) = item_at::<J>(mask, values, id) else {
        return Ok(list);
    };
    with_answer(list, f(item))
}

/// A list with one more answer at its end.
fn with_answer<T: Drop>(list: Vec<T>, answer: T) -> Result<Vec<T>, AllocError>
    ensures { IfOk result (λ v. v.items ≡ list.items ++ answer ∷ []) }
{
    let mut list = list;
    list.push(answer)?;
    Ok(list)
}

/// One list after the other, or a refusal of one of them.
fn append<T: Drop>(
    sofar: Result<Vec<T>, AllocError>,
    more: Result<Vec<T>, AllocError>,
) -> Result<Vec<T>, AllocError>
    ensures { Appends sofar more result }
{
    let mut list = sofar?;
    let mut others = more?;
    list.append(&mut others)?;
    Ok(list)
}
