//! Laws of all trees, on which callers rely. The functions have no code; each contract is the law.
ghost use Rattle.std.specs.Prelude.{Option, None};
ghost use Rattle.shred_world.specs.Bundles.{Holding};
ghost use Rattle.shred_stages.specs.declared.stop.Stop.{Stop as Refusal};
ghost use Rattle.shred.specs.Trees.{Halves, ParRuns, SeqRuns, TurnedRuns, AreApart};

use crate::trees::RunWithPool;

/// Where neither half refuses, a `Par` of two trees means what their `Seq` means.
pub fn par_means_seq<V, H: RunWithPool<V>, T: RunWithPool<V>>()
    ensures to { (tree : Halves H T) (w : Holding V) (after : Halves H T) (w_after : Holding V)
        → ParRuns H.meets T.meets tree w None after w_after → SeqRuns H.meets T.meets tree w None after w_after }
    ensures from { (tree : Halves H T) (w : Holding V) (after : Halves H T) (w_after : Holding V)
        → SeqRuns H.meets T.meets tree w None after w_after → ParRuns H.meets T.meets tree w None after w_after }
{}

/// Two trees that don't conflict may as well run the other way round: what comes of a `Par` is the same.
pub fn par_runs_either_way<V, H: RunWithPool<V>, T: RunWithPool<V>>()
    ensures { (tree : Halves H T) (w : Holding V) (refused : Option Refusal) (after : Halves H T) (w_after : Holding V)
        → AreApart H.read_list H.write_list T.read_list T.write_list tree.head tree.tail
        → ParRuns H.meets T.meets tree w refused after w_after
        → TurnedRuns H.meets T.meets tree w refused after w_after }
{}
