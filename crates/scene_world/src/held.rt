//! Values that a system takes out of what it is lent, and puts back.
ghost use Rattle.std.specs.Prelude.{◌≡◌, None, OnOk, OnErr};
ghost use Rattle.shred_world.specs.Bundles.{takable};
ghost use Rattle.shred_stages.specs.Views.{Leaves};
ghost use Rattle.scene_world.specs.Held.{Sets, Changes};

use shred_world::{Holder, ResourceId};
use std::alloc::AllocError;

/// A change of a value.
pub trait ValueChange<V> {
    ghost use Rattle.std.specs.Prelude.{OnOk};

    /// What a value may become.
    ghost becomes: { Self → V → V → Type 0 };

    /// Changes a value.
    ///
    /// Errors: want of memory.
    fn change(&self, value: &mut V) -> Result<(), AllocError>
        ensures { OnOk result (becomes self.now value.old value.new) };
}

/// Sets what stands under an id, where a value stands there that may be written.
///
/// Errors: there is none, whatever memory there is; all is as it was, but for the value, which is dropped.
pub fn set_held<V: Drop, W: Holder<V>>(
    view: &mut W,
    id: ResourceId,
    value: V,
) -> Result<(), AllocError>
    ensures set { OnOk result (Sets id value (W.slots view.old) (W.slots view.new)) }
    ensures none { OnErr result (takable (W.slots view.old id) ≡ None) }
    ensures unchanged { OnErr result (W.slots view.new ≡ W.slots view.old) }
    ensures leaves { Leaves (W.slots view.old) (W.slots view.new) }
{
    let Some(_old) = view.take(id) else {
        return Err(AllocError);
    };
    view.put(id, value);
    Ok(())
}

/// Changes what stands under an id, where a value stands there that may be written.
///
/// Errors: there is none, and all is as it was; those of the change, which has then made of the value what stands there.
pub fn change_held<C: ValueChange<V>, V: Drop, W: Holder<V>>(
    view: &mut W,
    id: ResourceId,
    change: &C,
) -> Result<(), AllocError>
    ensures changed { OnOk result (Changes id (C.becomes change.now) (W.slots view.old) (W.slots view.new)) }
    ensures leaves { Leaves (W.slots view.old) (W.slots view.new) }
{
    let Some(mut value) = view.take(id) else {
        return Err(AllocError);
    };
    let outcome = change.change(&mut value);
    view.put(id, value);
    outcome
}
