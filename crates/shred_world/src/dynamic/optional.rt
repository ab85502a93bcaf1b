//! Bundles under an accessor's ids, of a resource that may be wanting.
ghost use Rattle.std.specs.Prelude.{None};
ghost use Rattle.shred_world.specs.Bundles.{where_there, IsThereUnless, CanGiveBundle, given_bundle, UnitSetsUp};
ghost use Rattle.shred_world.specs.BundleLaws.{AlikeBundle, lawful_reading, lawful_optional};

use crate::{
    DynamicSystemData, Holder, Missing, Read, ReadAccessor, Resource, SetupHandler, World, Write,
    WriteAccessor,
};
use std::alloc::AllocError;

/// A resource to read under an id of any dynamic number, where it is there. `setup` does nothing.
impl<V, R: Resource<V>, F: SetupHandler<V, R>> DynamicSystemData<V> for Option<Read<R, F>> {
    type Access = ReadAccessor;

    ghost sets_up = { λ _. UnitSetsUp };

    ghost lack = { λ _ _. None };

    ghost left = { λ _ w. w };

    ghost fits = { λ bundle access w. IsThereUnless bundle (⟦<Read<R, F> as DynamicSystemData<V>>⟧.lack access w) };

    ghost given = { λ _ _ w. w };

    ghost can_give = { λ _ _ _. Unit {0} };

    ghost alike = { λ _ _. Unit {0} };

    ghost lawful = { λ _. lawful_reading };

    fn setup(_access: &ReadAccessor, _world: &mut World<V>) -> Result<(), AllocError> {
        Ok(())
    }

    fn fetch<H: Holder<V>>(access: &ReadAccessor, holder: &mut H) -> Result<Self, Missing> {
        match <Read<R, F> as DynamicSystemData<V>>::fetch(access, holder) {
            Ok(bundle) => Ok(Some(bundle)),
            Err(_) => Ok(None),
        }
    }

    fn give_back<H: Holder<V>>(self, access: &ReadAccessor, holder: &mut H) {
        if let Some(bundle) = self {
            <Read<R, F> as DynamicSystemData<V>>::give_back(bundle, access, holder);
        }
    }
}

/// A resource to write under an id of any dynamic number, where it is there. `setup` does nothing.
impl<V, R: Resource<V>, F: SetupHandler<V, R>> DynamicSystemData<V> for Option<Write<R, F>> {
    type Access = WriteAccessor;

    ghost sets_up = { λ _. UnitSetsUp };

    ghost lack = { λ _ _. None };

    ghost left = { λ access. where_there (⟦<Write<R, F> as DynamicSystemData<V>>⟧.lack access)
        (⟦<Write<R, F> as DynamicSystemData<V>>⟧.left access) };

    ghost fits = { λ bundle access w. IsThereUnless bundle (⟦<Write<R, F> as DynamicSystemData<V>>⟧.lack access w) };

    ghost given = { λ bundle access. given_bundle
        (λ b. ⟦<Write<R, F> as DynamicSystemData<V>>⟧.given b access) bundle };

    ghost can_give = { λ bundle access. CanGiveBundle
        (λ b. ⟦<Write<R, F> as DynamicSystemData<V>>⟧.can_give b access) bundle };

    ghost alike = { AlikeBundle ⟦<Write<R, F> as DynamicSystemData<V>>⟧.alike };

    ghost lawful = { λ access. lawful_optional access.id (λ bundle. R.wrapped bundle.value) R.part };

    fn setup(_access: &WriteAccessor, _world: &mut World<V>) -> Result<(), AllocError> {
        Ok(())
    }

    fn fetch<H: Holder<V>>(access: &WriteAccessor, holder: &mut H) -> Result<Self, Missing> {
        match <Write<R, F> as DynamicSystemData<V>>::fetch(access, holder) {
            Ok(bundle) => Ok(Some(bundle)),
            Err(_) => Ok(None),
        }
    }

    fn give_back<H: Holder<V>>(self, access: &WriteAccessor, holder: &mut H) {
        if let Some(bundle) = self {
            <Write<R, F> as DynamicSystemData<V>>::give_back(bundle, access, holder);
        }
    }
}
