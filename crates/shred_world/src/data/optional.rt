//! Bundles of a resource that may be wanting.
ghost use Rattle.std.specs.Prelude.{None, []};
ghost use Rattle.shred_world.specs.ResourceIds.{id_of};
ghost use Rattle.shred_world.specs.Bundles.{where_there, IsThereUnless, CanGiveBundle, given_bundle, UnitSetsUp};
ghost use Rattle.shred_world.specs.BundleLaws.{AlikeBundle, lawful_reading, lawful_optional};

use crate::{Holder, Missing, Read, Resource, ResourceId, SetupHandler, SystemData, World, Write};
use std::alloc::{AllocError, Global};

/// A resource to read, where it is there. `setup` does nothing.
impl<V, R: Resource<V>, F: SetupHandler<V, R>> SystemData<V> for Option<Read<R, F>> {
    ghost read_ids = { ⟦<Read<R, F> as SystemData<V>>⟧.read_ids };

    ghost write_ids = { [] };

    ghost sets_up = { UnitSetsUp };

    ghost lack = { λ _. None };

    ghost left = { λ w. w };

    ghost fits = { λ bundle w. IsThereUnless bundle (⟦<Read<R, F> as SystemData<V>>⟧.lack w) };

    ghost given = { λ _ w. w };

    ghost can_give = { λ _ _. Unit {0} };

    ghost alike = { λ _ _. Unit {0} };

    ghost lawful = { lawful_reading };

    fn setup(_world: &mut World<V>) -> Result<(), AllocError> {
        Ok(())
    }

    fn fetch<H: Holder<V>>(holder: &mut H) -> Result<Self, Missing> {
        match <Read<R, F> as SystemData<V>>::fetch(holder) {
            Ok(bundle) => Ok(Some(bundle)),
            Err(_) => Ok(None),
        }
    }

    fn give_back<H: Holder<V>>(self, holder: &mut H) {
        if let Some(bundle) = self {
            <Read<R, F> as SystemData<V>>::give_back(bundle, holder);
        }
    }

    fn reads(alloc: Global) -> Result<Vec<ResourceId>, AllocError> {
        <Read<R, F> as SystemData<V>>::reads(alloc)
    }

    fn writes(alloc: Global) -> Result<Vec<ResourceId>, AllocError> {
        Ok(Vec::new(alloc))
    }
}

/// A resource to write, where it is there. `setup` does nothing.
impl<V, R: Resource<V>, F: SetupHandler<V, R>> SystemData<V> for Option<Write<R, F>> {
    ghost read_ids = { [] };

    ghost write_ids = { ⟦<Write<R, F> as SystemData<V>>⟧.write_ids };

    ghost sets_up = { UnitSetsUp };

    ghost lack = { λ _. None };

    ghost left = { where_there ⟦<Write<R, F> as SystemData<V>>⟧.lack ⟦<Write<R, F> as SystemData<V>>⟧.left };

    ghost fits = { λ bundle w. IsThereUnless bundle (⟦<Write<R, F> as SystemData<V>>⟧.lack w) };

    ghost given = { given_bundle ⟦<Write<R, F> as SystemData<V>>⟧.given };

    ghost can_give = { CanGiveBundle ⟦<Write<R, F> as SystemData<V>>⟧.can_give };

    ghost alike = { AlikeBundle ⟦<Write<R, F> as SystemData<V>>⟧.alike };

    ghost lawful = { lawful_optional (id_of R.kind_number 0) (λ bundle. R.wrapped bundle.value) R.part };

    fn setup(_world: &mut World<V>) -> Result<(), AllocError> {
        Ok(())
    }

    fn fetch<H: Holder<V>>(holder: &mut H) -> Result<Self, Missing> {
        match <Write<R, F> as SystemData<V>>::fetch(holder) {
            Ok(bundle) => Ok(Some(bundle)),
            Err(_) => Ok(None),
        }
    }

    fn give_back<H: Holder<V>>(self, holder: &mut H) {
        if let Some(bundle) = self {
            <Write<R, F> as SystemData<V>>::give_back(bundle, holder);
        }
    }

    fn reads(alloc: Global) -> Result<Vec<ResourceId>, AllocError> {
        Ok(Vec::new(alloc))
    }

    fn writes(alloc: Global) -> Result<Vec<ResourceId>, AllocError> {
        <Write<R, F> as SystemData<V>>::writes(alloc)
    }
}
