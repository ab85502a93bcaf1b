//! Parts of a world that are dropped.
ghost use Rattle.std.specs.Prelude.{◌≡◌, ◌<◌, OnOk, OnErr, IsSome, true};
ghost use Rattle.std.specs.Option.{MatchOption};
ghost use Rattle.specs_world.specs.Resources.{held, Becomes};
ghost use Rattle.specs_world.specs.Inserting.{Keeps};
ghost use Rattle.specs_world.specs.Jobs.{IsDropped};

use crate::Held;
use hibitset::Index;
use shred_world::{Resource, World};
use specs_layouts::{Component, MaskedStorage, UnprotectedStorage};
use std::alloc::AllocError;

/// Drops the part at an index of a storage that is there, if it has one.
///
/// Errors: `AllocError`, where the storage emits, and each index has the part that it had.
pub(crate) fn drop_part<V, C: Component>(world: &mut World<V>, id: Index) -> Result<(), AllocError>
where
    MaskedStorage<C>: Resource<V>,
    requires there { IsSome (held ⟦<MaskedStorage<C> as Held<V>>⟧.stands_at world.old) }
    ensures ok { OnOk result (Becomes ⟦<MaskedStorage<C> as Held<V>>⟧.stands_at
        (IsDropped C.Storage.part_at C.Storage.events C.Storage.emits id) world.old world.new) }
    ensures err { OnErr result (Becomes ⟦<MaskedStorage<C> as Held<V>>⟧.stands_at
        (Keeps C.Storage.part_at C.Storage.events C.Storage.emits) world.old world.new) }
    ensures emits { OnErr result (MatchOption (held ⟦<MaskedStorage<C> as Held<V>>⟧.stands_at world.old) ⊥
        (λ storage. C.Storage.emits storage.inner ≡ true)) }
{
    match world.get_mut::<MaskedStorage<C>>() {
        Some(storage) => match storage.drop(id) {
            Ok(()) => Ok(()),
            Err(refused) => Err(refused),
        },
        None => unreachable!(),
    }
}
