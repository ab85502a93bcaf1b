//! Bundles without a resource, and tuples of bundles: their parts are fetched in order and given back from the last.
ghost use Rattle.std.specs.Prelude.{None, [], ◌++◌};
ghost use Rattle.std.specs.Option.{option_or};
ghost use Rattle.shred_world.specs.Bundles.{SetsUpInTurn, UnitSetsUp};
ghost use Rattle.shred_world.specs.BundleLaws.{lawful_reading, lawful_both, lawful_by};

use crate::{Holder, Missing, ResourceId, SystemData, World};
use std::alloc::{AllocError, Global};
use std::marker::PhantomData;

/// The bundle of nothing.
impl<V> SystemData<V> for () {
    ghost read_ids = { [] };

    ghost write_ids = { [] };

    ghost sets_up = { UnitSetsUp };

    ghost lack = { λ _. None };

    ghost left = { λ w. w };

    ghost fits = { λ _ _. Unit {0} };

    ghost given = { λ _ w. w };

    ghost can_give = { λ _ _. Unit {0} };

    ghost alike = { λ _ _. Unit {0} };

    ghost lawful = { lawful_reading };

    fn setup(_world: &mut World<V>) -> Result<(), AllocError> {
        Ok(())
    }

    fn fetch<H: Holder<V>>(_holder: &mut H) -> Result<Self, Missing> {
        Ok(())
    }

    fn give_back<H: Holder<V>>(self, _holder: &mut H) {}

    fn reads(alloc: Global) -> Result<Vec<ResourceId>, AllocError> {
        Ok(Vec::new(alloc))
    }

    fn writes(alloc: Global) -> Result<Vec<ResourceId>, AllocError> {
        Ok(Vec::new(alloc))
    }
}

/// A bundle of nothing that names a type.
impl<V, T> SystemData<V> for PhantomData<T> {
    ghost read_ids = { [] };

    ghost write_ids = { [] };

    ghost sets_up = { UnitSetsUp };

    ghost lack = { λ _. None };

    ghost left = { λ w. w };

    ghost fits = { λ _ _. Unit {0} };

    ghost given = { λ _ w. w };

    ghost can_give = { λ _ _. Unit {0} };

    ghost alike = { λ _ _. Unit {0} };

    ghost lawful = { lawful_reading };

    fn setup(_world: &mut World<V>) -> Result<(), AllocError> {
        Ok(())
    }

    fn fetch<H: Holder<V>>(_holder: &mut H) -> Result<Self, Missing> {
        Ok(PhantomData)
    }

    fn give_back<H: Holder<V>>(self, _holder: &mut H) {}

    fn reads(alloc: Global) -> Result<Vec<ResourceId>, AllocError> {
        Ok(Vec::new(alloc))
    }

    fn writes(alloc: Global) -> Result<Vec<ResourceId>, AllocError> {
        Ok(Vec::new(alloc))
    }
}

/// Two bundles.
impl<V, A: SystemData<V>, B: SystemData<V>> SystemData<V> for (A, B) {
    ghost read_ids = { A.read_ids ++ B.read_ids };

    ghost write_ids = { A.write_ids ++ B.write_ids };

    ghost sets_up = { SetsUpInTurn A.sets_up B.sets_up };

    ghost lack = { λ w. option_or (A.lack w) (B.lack (A.left w)) };

    ghost left = { λ w. B.left (A.left w) };

    ghost fits = { λ bundle w. A.fits bundle.0 w × B.fits bundle.1 (A.left w) };

    ghost given = { λ bundle w. A.given bundle.0 (B.given bundle.1 w) };

    ghost can_give = { λ bundle w. B.can_give bundle.1 w × A.can_give bundle.0 (B.given bundle.1 w) };

    ghost alike = { λ bundle changed. A.alike bundle.0 changed.0 × B.alike bundle.1 changed.1 };

    ghost lawful = { lawful_both A.lawful B.lawful };

    fn setup(world: &mut World<V>) -> Result<(), AllocError> {
        A::setup(world)?;
        B::setup(world)
    }

    fn fetch<H: Holder<V>>(holder: &mut H) -> Result<Self, Missing> {
        let first = A::fetch(holder)?;
        match B::fetch(holder) {
            Ok(second) => Ok((first, second)),
            Err(missing) => {
                first.give_back(holder);
                Err(missing)
            }
        }
    }

    fn give_back<H: Holder<V>>(self, holder: &mut H) {
        let (first, second) = self;
        second.give_back(holder);
        first.give_back(holder);
    }

    fn reads(alloc: Global) -> Result<Vec<ResourceId>, AllocError> {
        let mut ids = A::reads(alloc)?;
        ids.append(&mut B::reads(alloc)?)?;
        Ok(ids)
    }

    fn writes(alloc: Global) -> Result<Vec<ResourceId>, AllocError> {
        let mut ids = A::writes(alloc)?;
        ids.append(&mut B::writes(alloc)?)?;
        Ok(ids)
    }
}

/// One bundle.
impl<V, A: SystemData<V>> SystemData<V> for (A,) {
    ghost read_ids = { A.read_ids };

    ghost write_ids = { A.write_ids };

    ghost sets_up = { A.sets_up };

    ghost lack = { A.lack };

    ghost left = { A.left };

    ghost fits = { λ bundle w. A.fits bundle.0 w };

    ghost given = { λ bundle w. A.given bundle.0 w };

    ghost can_give = { λ bundle w. A.can_give bundle.0 w };

    ghost alike = { λ bundle changed. A.alike bundle.0 changed.0 };

    ghost lawful = { lawful_by (λ bundle. bundle.0) A.lawful };

    fn setup(world: &mut World<V>) -> Result<(), AllocError> {
        A::setup(world)
    }

    fn fetch<H: Holder<V>>(holder: &mut H) -> Result<Self, Missing> {
        Ok((A::fetch(holder)?,))
    }

    fn give_back<H: Holder<V>>(self, holder: &mut H) {
        let (only,) = self;
        only.give_back(holder);
    }

    fn reads(alloc: Global) -> Result<Vec<ResourceId>, AllocError> {
        A::reads(alloc)
    }

    fn writes(alloc: Global) -> Result<Vec<ResourceId>, AllocError> {
        A::writes(alloc)
    }
}

/// Three bundles.
impl<V, A: SystemData<V>, B: SystemData<V>, C: SystemData<V>> SystemData<V> for (A, B, C) {
    ghost read_ids = { ⟦<((A, B), C) as SystemData<V>>⟧.read_ids };

    ghost write_ids = { ⟦<((A, B), C) as SystemData<V>>⟧.write_ids };

    ghost sets_up = { ⟦<((A, B), C) as SystemData<V>>⟧.sets_up };

    ghost lack = { ⟦<((A, B), C) as SystemData<V>>⟧.lack };

    ghost left = { ⟦<((A, B), C) as SystemData<V>>⟧.left };

    ghost fits = { λ bundle w. ⟦<((A, B), C) as SystemData<V>>⟧.fits ((bundle.0, bundle.1), bundle.2) w };

    ghost given = { λ bundle w. ⟦<((A, B), C) as SystemData<V>>⟧.given ((bundle.0, bundle.1), bundle.2) w };

    ghost can_give = { λ bundle w. ⟦<((A, B), C) as SystemData<V>>⟧.can_give ((bundle.0, bundle.1), bundle.2) w };

    ghost alike = { λ bundle changed. ⟦<((A, B), C) as SystemData<V>>⟧.alike
        ((bundle.0, bundle.1), bundle.2)
        ((changed.0, changed.1), changed.2) };

    ghost lawful = { lawful_by (λ bundle. ((bundle.0, bundle.1), bundle.2))
        (lawful_both (lawful_both A.lawful B.lawful) C.lawful) };

    fn setup(world: &mut World<V>) -> Result<(), AllocError> {
        <((A, B), C) as SystemData<V>>::setup(world)
    }

    fn fetch<H: Holder<V>>(holder: &mut H) -> Result<Self, Missing> {
        let ((first, second), third) = <((A, B), C) as SystemData<V>>::fetch(holder)?;
        Ok((first, second, third))
    }

    fn give_back<H: Holder<V>>(self, holder: &mut H) {
        let (first, second, third) = self;
        <((A, B), C) as SystemData<V>>::give_back(((first, second), third), holder);
    }

    fn reads(alloc: Global) -> Result<Vec<ResourceId>, AllocError> {
        <((A, B), C) as SystemData<V>>::reads(alloc)
    }

    fn writes(alloc: Global) -> Result<Vec<ResourceId>, AllocError> {
        <((A, B), C) as SystemData<V>>::writes(alloc)
    }
}

/// Four bundles.
impl<V, A: SystemData<V>, B: SystemData<V>, C: SystemData<V>, D: SystemData<V>> SystemData<V>
    for (A, B, C, D) {
    ghost read_ids = { ⟦<((A, B, C), D) as SystemData<V>>⟧.read_ids };

    ghost write_ids = { ⟦<((A, B, C), D) as SystemData<V>>⟧.write_ids };

    ghost sets_up = { ⟦<((A, B, C), D) as SystemData<V>>⟧.sets_up };

    ghost lack = { ⟦<((A, B, C), D) as SystemData<V>>⟧.lack };

    ghost left = { ⟦<((A, B, C), D) as SystemData<V>>⟧.left };

    ghost fits = { λ bundle w. ⟦<((A, B, C), D) as SystemData<V>>⟧.fits
        ((bundle.0, bundle.1, bundle.2), bundle.3) w };

    ghost given = { λ bundle w. ⟦<((A, B, C), D) as SystemData<V>>⟧.given
        ((bundle.0, bundle.1, bundle.2), bundle.3) w };

    ghost can_give = { λ bundle w. ⟦<((A, B, C), D) as SystemData<V>>⟧.can_give
        ((bundle.0, bundle.1, bundle.2), bundle.3) w };

    ghost alike = { λ bundle changed. ⟦<((A, B, C), D) as SystemData<V>>⟧.alike
        ((bundle.0, bundle.1, bundle.2), bundle.3)
        ((changed.0, changed.1, changed.2), changed.3) };

    ghost lawful = { lawful_by (λ bundle. (((bundle.0, bundle.1), bundle.2), bundle.3))
        (lawful_both (lawful_both (lawful_both A.lawful B.lawful) C.lawful) D.lawful) };

    fn setup(world: &mut World<V>) -> Result<(), AllocError> {
        <((A, B, C), D) as SystemData<V>>::setup(world)
    }

    fn fetch<H: Holder<V>>(holder: &mut H) -> Result<Self, Missing> {
        let ((first, second, third), fourth) = <((A, B, C), D) as SystemData<V>>::fetch(holder)?;
        Ok((first, second, third, fourth))
    }

    fn give_back<H: Holder<V>>(self, holder: &mut H) {
        let (first, second, third, fourth) = self;
        <((A, B, C), D) as SystemData<V>>::give_back(((first, second, third), fourth), holder);
    }

    fn reads(alloc: Global) -> Result<Vec<ResourceId>, AllocError> {
        <((A, B, C), D) as SystemData<V>>::reads(alloc)
    }

    fn writes(alloc: Global) -> Result<Vec<ResourceId>, AllocError> {
        <((A, B, C), D) as SystemData<V>>::writes(alloc)
    }
}

/// Five bundles.
impl<
    V,
    A: SystemData<V>,
    B: SystemData<V>,
    C: SystemData<V>,
    D: SystemData<V>,
    E: SystemData<V>,
> SystemData<V> for (A, B, C, D, E) {
    ghost read_ids = { ⟦<((A, B, C, D), E) as SystemData<V>>⟧.read_ids };

    ghost write_ids = { ⟦<((A, B, C, D), E) as SystemData<V>>⟧.write_ids };

    ghost sets_up = { ⟦<((A, B, C, D), E) as SystemData<V>>⟧.sets_up };

    ghost lack = { ⟦<((A, B, C, D), E) as SystemData<V>>⟧.lack };

    ghost left = { ⟦<((A, B, C, D), E) as SystemData<V>>⟧.left };

    ghost fits = { λ bundle w. ⟦<((A, B, C, D), E) as SystemData<V>>⟧.fits
        ((bundle.0, bundle.1, bundle.2, bundle.3), bundle.4) w };

    ghost given = { λ bundle w. ⟦<((A, B, C, D), E) as SystemData<V>>⟧.given
        ((bundle.0, bundle.1, bundle.2, bundle.3), bundle.4) w };

    ghost can_give = { λ bundle w. ⟦<((A, B, C, D), E) as SystemData<V>>⟧.can_give
        ((bundle.0, bundle.1, bundle.2, bundle.3), bundle.4) w };

    ghost alike = { λ bundle changed. ⟦<((A, B, C, D), E) as SystemData<V>>⟧.alike
        ((bundle.0, bundle.1, bundle.2, bundle.3), bundle.4)
        ((changed.0, changed.1, changed.2, changed.3), changed.4) };

    ghost lawful = { lawful_by (λ bundle. ((((bundle.0, bundle.1), bundle.2), bundle.3), bundle.4))
        (lawful_both (lawful_both (lawful_both (lawful_both
        A.lawful B.lawful) C.lawful) D.lawful) E.lawful) };

    fn setup(world: &mut World<V>) -> Result<(), AllocError> {
        <((A, B, C, D), E) as SystemData<V>>::setup(world)
    }

    fn fetch<H: Holder<V>>(holder: &mut H) -> Result<Self, Missing> {
        let ((first, second, third, fourth), fifth) = <((A, B, C, D), E) as SystemData<V>>::fetch(
            holder,
        )?;
        Ok((first, second, third, fourth, fifth))
    }

    fn give_back<H: Holder<V>>(self, holder: &mut H) {
        let (first, second, third, fourth, fifth) = self;
        <((A, B, C, D), E) as SystemData<V>>::give_back(
            ((first, second, third, fourth), fifth),
            holder,
        );
    }

    fn reads(alloc: Global) -> Result<Vec<ResourceId>, AllocError> {
        <((A, B, C, D), E) as SystemData<V>>::reads(alloc)
    }

    fn writes(alloc: Global) -> Result<Vec<ResourceId>, AllocError> {
        <((A, B, C, D), E) as SystemData<V>>::writes(alloc)
    }
}

/// Six bundles.
impl<
    V,
    A: SystemData<V>,
    B: SystemData<V>,
    C: SystemData<V>,
    D: SystemData<V>,
    E: SystemData<V>,
    F: SystemData<V>,
> SystemData<V> for (A, B, C, D, E, F) {
    ghost read_ids = { ⟦<((A, B, C, D, E), F) as SystemData<V>>⟧.read_ids };

    ghost write_ids = { ⟦<((A, B, C, D, E), F) as SystemData<V>>⟧.write_ids };

    ghost sets_up = { ⟦<((A, B, C, D, E), F) as SystemData<V>>⟧.sets_up };

    ghost lack = { ⟦<((A, B, C, D, E), F) as SystemData<V>>⟧.lack };

    ghost left = { ⟦<((A, B, C, D, E), F) as SystemData<V>>⟧.left };

    ghost fits = { λ bundle w. ⟦<((A, B, C, D, E), F) as SystemData<V>>⟧.fits
        ((bundle.0, bundle.1, bundle.2, bundle.3, bundle.4), bundle.5) w };

    ghost given = { λ bundle w. ⟦<((A, B, C, D, E), F) as SystemData<V>>⟧.given
        ((bundle.0, bundle.1, bundle.2, bundle.3, bundle.4), bundle.5) w };

    ghost can_give = { λ bundle w. ⟦<((A, B, C, D, E), F) as SystemData<V>>⟧.can_give
        ((bundle.0, bundle.1, bundle.2, bundle.3, bundle.4), bundle.5) w };

    ghost alike = { λ bundle changed. ⟦<((A, B, C, D, E), F) as SystemData<V>>⟧.alike
        ((bundle.0, bundle.1, bundle.2, bundle.3, bundle.4), bundle.5)
        ((changed.0, changed.1, changed.2, changed.3, changed.4), changed.5) };

    ghost lawful = { lawful_by (λ bundle. (((((bundle.0, bundle.1), bundle.2), bundle.3), bundle.4), bundle.5))
        (lawful_both (lawful_both (lawful_both (lawful_both (lawful_both
        A.lawful B.lawful) C.lawful) D.lawful) E.lawful) F.lawful) };

    fn setup(world: &mut World<V>) -> Result<(), AllocError> {
        <((A, B, C, D, E), F) as SystemData<V>>::setup(world)
    }

    fn fetch<H: Holder<V>>(holder: &mut H) -> Result<Self, Missing> {
        let ((first, second, third, fourth, fifth), sixth) = <((A, B, C, D, E), F) as SystemData<
            V,
        >>::fetch(holder)?;
        Ok((first, second, third, fourth, fifth, sixth))
    }

    fn give_back<H: Holder<V>>(self, holder: &mut H) {
        let (first, second, third, fourth, fifth, sixth) = self;
        <((A, B, C, D, E), F) as SystemData<V>>::give_back(
            ((first, second, third, fourth, fifth), sixth),
            holder,
        );
    }

    fn reads(alloc: Global) -> Result<Vec<ResourceId>, AllocError> {
        <((A, B, C, D, E), F) as SystemData<V>>::reads(alloc)
    }

    fn writes(alloc: Global) -> Result<Vec<ResourceId>, AllocError> {
        <((A, B, C, D, E), F) as SystemData<V>>::writes(alloc)
    }
}

/// Seven bundles.
impl<
    V,
    A: SystemData<V>,
    B: SystemData<V>,
    C: SystemData<V>,
    D: SystemData<V>,
    E: SystemData<V>,
    F: SystemData<V>,
    G: SystemData<V>,
> SystemData<V> for (A, B, C, D, E, F, G) {
    ghost read_ids = { ⟦<((A, B, C, D, E, F), G) as SystemData<V>>⟧.read_ids };

    ghost write_ids = { ⟦<((A, B, C, D, E, F), G) as SystemData<V>>⟧.write_ids };

    ghost sets_up = { ⟦<((A, B, C, D, E, F), G) as SystemData<V>>⟧.sets_up };

    ghost lack = { ⟦<((A, B, C, D, E, F), G) as SystemData<V>>⟧.lack };

    ghost left = { ⟦<((A, B, C, D, E, F), G) as SystemData<V>>⟧.left };

    ghost fits = { λ bundle w. ⟦<((A, B, C, D, E, F), G) as SystemData<V>>⟧.fits
        ((bundle.0, bundle.1, bundle.2, bundle.3, bundle.4, bundle.5), bundle.6) w };

    ghost given = { λ bundle w. ⟦<((A, B, C, D, E, F), G) as SystemData<V>>⟧.given
        ((bundle.0, bundle.1, bundle.2, bundle.3, bundle.4, bundle.5), bundle.6) w };

    ghost can_give = { λ bundle w. ⟦<((A, B, C, D, E, F), G) as SystemData<V>>⟧.can_give
        ((bundle.0, bundle.1, bundle.2, bundle.3, bundle.4, bundle.5), bundle.6) w };

    ghost alike = { λ bundle changed. ⟦<((A, B, C, D, E, F), G) as SystemData<V>>⟧.alike
        ((bundle.0, bundle.1, bundle.2, bundle.3, bundle.4, bundle.5), bundle.6)
        ((changed.0, changed.1, changed.2, changed.3, changed.4, changed.5), changed.6) };

    ghost lawful = { lawful_by
        (λ bundle. ((((((bundle.0, bundle.1), bundle.2), bundle.3), bundle.4), bundle.5), bundle.6))
        (lawful_both (lawful_both (lawful_both (lawful_both (lawful_both (lawful_both
        A.lawful B.lawful) C.lawful) D.lawful) E.lawful) F.lawful) G.lawful) };

    fn setup(world: &mut World<V>) -> Result<(), AllocError> {
        <((A, B, C, D, E, F), G) as SystemData<V>>::setup(world)
    }

    fn fetch<H: Holder<V>>(holder: &mut H) -> Result<Self, Missing> {
        let ((first, second, third, fourth, fifth, sixth), seventh) = <(
            (A, B, C, D, E, F),
            G,
        ) as SystemData<V>>::fetch(holder)?;
        Ok((first, second, third, fourth, fifth, sixth, seventh))
    }

    fn give_back<H: Holder<V>>(self, holder: &mut H) {
        let (first, second, third, fourth, fifth, sixth, seventh) = self;
        <((A, B, C, D, E, F), G) as SystemData<V>>::give_back(
            ((first, second, third, fourth, fifth, sixth), seventh),
            holder,
        );
    }

    fn reads(alloc: Global) -> Result<Vec<ResourceId>, AllocError> {
        <((A, B, C, D, E, F), G) as SystemData<V>>::reads(alloc)
    }

    fn writes(alloc: Global) -> Result<Vec<ResourceId>, AllocError> {
        <((A, B, C, D, E, F), G) as SystemData<V>>::writes(alloc)
    }
}

/// Eight bundles.
impl<
    V,
    A: SystemData<V>,
    B: SystemData<V>,
    C: SystemData<V>,
    D: SystemData<V>,
    E: SystemData<V>,
    F: SystemData<V>,
    G: SystemData<V>,
    I: SystemData<V>,
> SystemData<V> for (A, B, C, D, E, F, G, I) {
    ghost read_ids = { ⟦<((A, B, C, D, E, F, G), I) as SystemData<V>>⟧.read_ids };

    ghost write_ids = { ⟦<((A, B, C, D, E, F, G), I) as SystemData<V>>⟧.write_ids };

    ghost sets_up = { ⟦<((A, B, C, D, E, F, G), I) as SystemData<V>>⟧.sets_up };

    ghost lack = { ⟦<((A, B, C, D, E, F, G), I) as SystemData<V>>⟧.lack };

    ghost left = { ⟦<((A, B, C, D, E, F, G), I) as SystemData<V>>⟧.left };

    ghost fits = { λ bundle w. ⟦<((A, B, C, D, E, F, G), I) as SystemData<V>>⟧.fits
        ((bundle.0, bundle.1, bundle.2, bundle.3, bundle.4, bundle.5, bundle.6), bundle.7) w };

    ghost given = { λ bundle w. ⟦<((A, B, C, D, E, F, G), I) as SystemData<V>>⟧.given
        ((bundle.0, bundle.1, bundle.2, bundle.3, bundle.4, bundle.5, bundle.6), bundle.7) w };

    ghost can_give = { λ bundle w. ⟦<((A, B, C, D, E, F, G), I) as SystemData<V>>⟧.can_give
        ((bundle.0, bundle.1, bundle.2, bundle.3, bundle.4, bundle.5, bundle.6), bundle.7) w };

    ghost alike = { λ bundle changed. ⟦<((A, B, C, D, E, F, G), I) as SystemData<V>>⟧.alike
        ((bundle.0, bundle.1, bundle.2, bundle.3, bundle.4, bundle.5, bundle.6), bundle.7)
        ((changed.0, changed.1, changed.2, changed.3, changed.4, changed.5, changed.6), changed.7) };

    ghost lawful = { lawful_by
        (λ bundle. (((((((bundle.0, bundle.1), bundle.2), bundle.3), bundle.4), bundle.5), bundle.6), bundle.7))
        (lawful_both (lawful_both (lawful_both (lawful_both (lawful_both (lawful_both (lawful_both
        A.lawful B.lawful) C.lawful) D.lawful) E.lawful) F.lawful) G.lawful) I.lawful) };

    fn setup(world: &mut World<V>) -> Result<(), AllocError> {
        <((A, B, C, D, E, F, G), I) as SystemData<V>>::setup(world)
    }

    fn fetch<H: Holder<V>>(holder: &mut H) -> Result<Self, Missing> {
        let ((first, second, third, fourth, fifth, sixth, seventh), eighth) = <(
            (A, B, C, D, E, F, G),
            I,
        ) as SystemData<V>>::fetch(holder)?;
        Ok((first, second, third, fourth, fifth, sixth, seventh, eighth))
    }

    fn give_back<H: Holder<V>>(self, holder: &mut H) {
        let (first, second, third, fourth, fifth, sixth, seventh, eighth) = self;
        <((A, B, C, D, E, F, G), I) as SystemData<V>>::give_back(
            (
                (first, second, third, fourth, fifth, sixth, seventh),
                eighth,
            ),
            holder,
        );
    }

    fn reads(alloc: Global) -> Result<Vec<ResourceId>, AllocError> {
        <((A, B, C, D, E, F, G), I) as SystemData<V>>::reads(alloc)
    }

    fn writes(alloc: Global) -> Result<Vec<ResourceId>, AllocError> {
        <((A, B, C, D, E, F, G), I) as SystemData<V>>::writes(alloc)
    }
}
