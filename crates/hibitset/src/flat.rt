//! Flat lists of indices, mapped in several threads.
ghost use Rattle.std.specs.Prelude.{◌≡◌, ℕ, ◌<◌, ◌^◌, map, IfOk};
ghost use Rattle.std.specs.List.{AllZip};

use hibitset_sets::Index;
use rayon::prelude::*;
use std::alloc::{AllocError, Global};
use std::thread::Threads;

/// What `f` gives for each index, in their order. The calls run in as many threads as there are
/// processors.
///
/// Where the answer of `f` hangs on its argument alone, this is the plain map.
///
/// Errors: `AllocError`. Some calls of `f` may have run.
pub fn map_indices<R: Threads + Sync, T: Send + Drop, F: Fn(Index) -> T + Sync>(
    rt: &R,
    alloc: Global,
    indices: &[Index],
    f: F,
) -> Result<Vec<T>, AllocError>
    requires { F.IsAlwaysCallable f }
    ensures each { IfOk result (λ v. AllZip (λ i t. F.post f i t) indices.now v.items) }
    ensures plain { (answer : ℕ → T) → ((i : ℕ) (t : T) → F.post f i t → t ≡ answer i)
        → IfOk result (λ v. v.items ≡ map answer indices.now) }
{
    indices
        .par_iter()
        .map(
            |i: &Index| -> T
                requires { F.IsAlwaysCallable f }
                ensures { F.post f i.now result }
            { f(*i) },
        )
        .collect(rt, alloc)
}
