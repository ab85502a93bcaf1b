//! A caller that changes a scene's parts beside others, each in a store of its own.
ghost use Rattle.std.specs.Prelude.{OnOk, IfErr};
ghost use Rattle.specs_join.specs.ChangeEach.{AreChanged, AreChangedBelow, IsRefused};
ghost use Rattle.specs_join.specs.EachErrors.{OnRefused};
ghost use Rattle.scene_cases.specs.Weights.{heavier, weight_at};

use crate::stores::course::Weight;
use scene_world::{AnyStore, change_parts};
use specs_join::{Change, EachError, LaidOut};
use specs_layouts::{MaskedStorage, UnprotectedStorage};

/// Adds the weight beside a weight to it, as long as that is below 100.
#[derive(Clone, Copy)]
struct Loads;

impl<'a, L: UnprotectedStorage<Weight> + 'a> Change<Weight, LaidOut<'a, Weight, L>> for Loads {
    ghost use Rattle.scene_cases.specs.Weights.{heavier};

    type Refusal = ();

    ghost changed = { λ _. heavier };

    fn change(&self, weight: &mut Weight, beside: &'a Weight) -> Result<(), ()> {
        if weight.number < 100 && beside.number < 100 {
            weight.number += beside.number;
            Ok(())
        } else {
            Err(())
        }
    }
}

/// Loads weights with those that lie in one layout.
fn load_from<L: UnprotectedStorage<Weight>>(
    weights: MaskedStorage<Weight>,
    loads: LaidOut<'_, Weight, L>,
) -> (MaskedStorage<Weight>, Result<(), EachError<()>>)
    ensures ok { OnOk result.1 (AreChanged heavier (weight_at weights) (L.part_at loads.entry.inner) (weight_at result.0)) }
    ensures refused { IfErr result.1 (OnRefused (IsRefused heavier (weight_at weights) (L.part_at loads.entry.inner))) }
    ensures below { IfErr result.1 (OnRefused (λ index. AreChangedBelow heavier (weight_at weights)
        (L.part_at loads.entry.inner) index (weight_at result.0))) }
{
    let (mask, storage) = weights.into_parts();
    let (loaded, outcome) = change_parts(&mask, storage, loads, &Loads);
    (MaskedStorage::from_parts(mask, loaded), outcome)
}

/// Loads each weight with the one that others have at its index: the same whichever stores they lie in.
///
/// Errors: `Refused` with the least index where one of the two is at least 100; `Memory`.
pub fn load(
    weights: MaskedStorage<Weight>,
    loads: &MaskedStorage<Weight>,
) -> (MaskedStorage<Weight>, Result<(), EachError<()>>)
    ensures ok { OnOk result.1 (AreChanged heavier (weight_at weights) (weight_at loads.now) (weight_at result.0)) }
    ensures refused { IfErr result.1 (OnRefused (IsRefused heavier (weight_at weights) (weight_at loads.now))) }
    ensures below { IfErr result.1 (OnRefused (λ index. AreChangedBelow heavier (weight_at weights)
        (weight_at loads.now) index (weight_at result.0))) }
{
    let mask = loads.mask();
    match loads.inner().inner() {
        AnyStore::Vec(layout) => load_from(weights, LaidOut::new(mask, layout)),
        AnyStore::Dense(layout) => load_from(weights, LaidOut::new(mask, layout)),
        AnyStore::Hash(layout) => load_from(weights, LaidOut::new(mask, layout)),
        AnyStore::BTree(layout) => load_from(weights, LaidOut::new(mask, layout)),
    }
}
