//! How a bundle's resources come to be there.
ghost use Rattle.std.specs.Prelude.{◌≡◌, OnOk, OnErr};
ghost use Rattle.shred_world.specs.Bundles.{DefaultsTo};
ghost use Rattle.shred_world.specs.ResourceIds.{id_of};

use crate::{Resource, ResourceId, World};
use std::alloc::AllocError;

/// Sets up the resource that a bundle reads or writes.
pub trait SetupHandler<V, R: Resource<V>> {
    ghost use Rattle.shred_world.specs.Worlds.{Slots};

    /// What an accepted `setup` makes of a world.
    ghost sets_up: { Slots V → Slots V → Type 0 };

    /// Sets the resource up. Errors: want of memory, which leaves the world as it was.
    fn setup(world: &mut World<V>) -> Result<(), AllocError>
        ensures ok { OnOk result (sets_up world.old world.new) }
        ensures err { OnErr result (world.new ≡ world.old) };
}

/// Puts in the default where no value stands; a value that is there stays.
#[derive(Drop)]
pub struct DefaultProvider;

impl<V, R: Resource<V> + Default + Drop> SetupHandler<V, R> for DefaultProvider {
    ghost sets_up = { DefaultsTo R.Default.is_default R.wrapped (id_of R.kind_number 0) };

    fn setup(world: &mut World<V>) -> Result<(), AllocError> {
        if world.has_value::<R>() {
            return Ok(());
        }
        world.insert_absent(ResourceId::new::<V, R>(), R::default())?;
        Ok(())
    }
}

/// Does nothing: the value has to be there already.
#[derive(Drop)]
pub struct PanicHandler;

impl<V, R: Resource<V>> SetupHandler<V, R> for PanicHandler {
    ghost sets_up = { λ old new. new ≡ old };

    fn setup(_world: &mut World<V>) -> Result<(), AllocError> {
        Ok(())
    }
}
