//! Bundles under an accessor's ids: those without a resource, and tuples. Parts are fetched in order and given back from the last.
ghost use Rattle.std.specs.Prelude.{None, [], ◌++◌};
ghost use Rattle.std.specs.Option.{option_or};
ghost use Rattle.shred_world.specs.Bundles.{SetsUpInTurn, UnitSetsUp};
ghost use Rattle.shred_world.specs.BundleLaws.{lawful_reading, lawful_both, lawful_by};

use crate::{Accessor, DynamicSystemData, Holder, Missing, ResourceId, World};
use std::alloc::{AllocError, Global};
use std::marker::PhantomData;

/// The ids of two accessors, the first one's first.
impl<A: Accessor, B: Accessor> Accessor for (A, B) {
    ghost read_list = { λ access. A.read_list access.0 ++ B.read_list access.1 };

    ghost write_list = { λ access. A.write_list access.0 ++ B.write_list access.1 };

    fn reads(&self, alloc: Global) -> Result<Vec<ResourceId>, AllocError> {
        let mut ids = self.0.reads(alloc)?;
        ids.append(&mut self.1.reads(alloc)?)?;
        Ok(ids)
    }

    fn writes(&self, alloc: Global) -> Result<Vec<ResourceId>, AllocError> {
        let mut ids = self.0.writes(alloc)?;
        ids.append(&mut self.1.writes(alloc)?)?;
        Ok(ids)
    }
}

/// The ids of one accessor.
impl<A: Accessor> Accessor for (A,) {
    ghost read_list = { λ access. A.read_list access.0 };

    ghost write_list = { λ access. A.write_list access.0 };

    fn reads(&self, alloc: Global) -> Result<Vec<ResourceId>, AllocError> {
        self.0.reads(alloc)
    }

    fn writes(&self, alloc: Global) -> Result<Vec<ResourceId>, AllocError> {
        self.0.writes(alloc)
    }
}

/// The bundle of nothing.
impl<V> DynamicSystemData<V> for () {
    type Access = ();

    ghost sets_up = { λ _. UnitSetsUp };

    ghost lack = { λ _ _. None };

    ghost left = { λ _ w. w };

    ghost fits = { λ _ _ _. Unit {0} };

    ghost given = { λ _ _ w. w };

    ghost can_give = { λ _ _ _. Unit {0} };

    ghost alike = { λ _ _. Unit {0} };

    ghost lawful = { λ _. lawful_reading };

    fn setup(_access: &Self::Access, _world: &mut World<V>) -> Result<(), AllocError> {
        Ok(())
    }

    fn fetch<H: Holder<V>>(_access: &Self::Access, _holder: &mut H) -> Result<Self, Missing> {
        Ok(())
    }

    fn give_back<H: Holder<V>>(self, _access: &Self::Access, _holder: &mut H) {}
}

/// A bundle of nothing that names a type.
impl<V, T> DynamicSystemData<V> for PhantomData<T> {
    type Access = PhantomData<T>;

    ghost sets_up = { λ _. UnitSetsUp };

    ghost lack = { λ _ _. None };

    ghost left = { λ _ w. w };

    ghost fits = { λ _ _ _. Unit {0} };

    ghost given = { λ _ _ w. w };

    ghost can_give = { λ _ _ _. Unit {0} };

    ghost alike = { λ _ _. Unit {0} };

    ghost lawful = { λ _. lawful_reading };

    fn setup(_access: &Self::Access, _world: &mut World<V>) -> Result<(), AllocError> {
        Ok(())
    }

    fn fetch<H: Holder<V>>(_access: &Self::Access, _holder: &mut H) -> Result<Self, Missing> {
        Ok(PhantomData)
    }

    fn give_back<H: Holder<V>>(self, _access: &Self::Access, _holder: &mut H) {}
}

/// Two bundles, under the ids of two accessors.
impl<V, A: DynamicSystemData<V>, B: DynamicSystemData<V>> DynamicSystemData<V> for (A, B) {
    type Access = (A::Access, B::Access);

    ghost sets_up = { λ access. SetsUpInTurn (A.sets_up access.0) (B.sets_up access.1) };

    ghost lack = { λ access w. option_or (A.lack access.0 w) (B.lack access.1 (A.left access.0 w)) };

    ghost left = { λ access w. B.left access.1 (A.left access.0 w) };

    ghost fits = { λ bundle access w. A.fits bundle.0 access.0 w × B.fits bundle.1 access.1 (A.left access.0 w) };

    ghost given = { λ bundle access w. A.given bundle.0 access.0 (B.given bundle.1 access.1 w) };

    ghost can_give = { λ bundle access w. B.can_give bundle.1 access.1 w
        × A.can_give bundle.0 access.0 (B.given bundle.1 access.1 w) };

    ghost alike = { λ bundle changed. A.alike bundle.0 changed.0 × B.alike bundle.1 changed.1 };

    ghost lawful = { λ access. lawful_both (A.lawful access.0) (B.lawful access.1) };

    fn setup(access: &Self::Access, world: &mut World<V>) -> Result<(), AllocError> {
        A::setup(&access.0, world)?;
        B::setup(&access.1, world)
    }

    fn fetch<H: Holder<V>>(access: &Self::Access, holder: &mut H) -> Result<Self, Missing> {
        let first = A::fetch(&access.0, holder)?;
        match B::fetch(&access.1, holder) {
            Ok(second) => Ok((first, second)),
            Err(missing) => {
                first.give_back(&access.0, holder);
                Err(missing)
            }
        }
    }

    fn give_back<H: Holder<V>>(self, access: &Self::Access, holder: &mut H) {
        let (first, second) = self;
        second.give_back(&access.1, holder);
        first.give_back(&access.0, holder);
    }
}

/// One bundle.
impl<V, A: DynamicSystemData<V>> DynamicSystemData<V> for (A,) {
    type Access = (A::Access,);

    ghost sets_up = { λ access. A.sets_up access.0 };

    ghost lack = { λ access. A.lack access.0 };

    ghost left = { λ access. A.left access.0 };

    ghost fits = { λ bundle access w. A.fits bundle.0 access.0 w };

    ghost given = { λ bundle access w. A.given bundle.0 access.0 w };

    ghost can_give = { λ bundle access w. A.can_give bundle.0 access.0 w };

    ghost alike = { λ bundle changed. A.alike bundle.0 changed.0 };

    ghost lawful = { λ access. lawful_by (λ bundle. bundle.0) (A.lawful access.0) };

    fn setup(access: &Self::Access, world: &mut World<V>) -> Result<(), AllocError> {
        A::setup(&access.0, world)
    }

    fn fetch<H: Holder<V>>(access: &Self::Access, holder: &mut H) -> Result<Self, Missing> {
        Ok((A::fetch(&access.0, holder)?,))
    }

    fn give_back<H: Holder<V>>(self, access: &Self::Access, holder: &mut H) {
        let (only,) = self;
        only.give_back(&access.0, holder);
    }
}

/// Three bundles: the access of all but the last, and that of the last.
impl<
    V,
    A: DynamicSystemData<V>,
    B: DynamicSystemData<V>,
    C: DynamicSystemData<V>,
> DynamicSystemData<V> for (A, B, C) {
    type Access = ((A::Access, B::Access), C::Access);

    ghost sets_up = { ⟦<((A, B), C) as DynamicSystemData<V>>⟧.sets_up };

    ghost lack = { ⟦<((A, B), C) as DynamicSystemData<V>>⟧.lack };

    ghost left = { ⟦<((A, B), C) as DynamicSystemData<V>>⟧.left };

    ghost fits = { λ bundle. ⟦<((A, B), C) as DynamicSystemData<V>>⟧.fits
        ((bundle.0, bundle.1), bundle.2) };

    ghost given = { λ bundle. ⟦<((A, B), C) as DynamicSystemData<V>>⟧.given
        ((bundle.0, bundle.1), bundle.2) };

    ghost can_give = { λ bundle. ⟦<((A, B), C) as DynamicSystemData<V>>⟧.can_give
        ((bundle.0, bundle.1), bundle.2) };

    ghost alike = { λ bundle changed. ⟦<((A, B), C) as DynamicSystemData<V>>⟧.alike
        ((bundle.0, bundle.1), bundle.2)
        ((changed.0, changed.1), changed.2) };

    ghost lawful = { λ access. lawful_by (λ bundle. ((bundle.0, bundle.1), bundle.2))
        (lawful_both (lawful_both (A.lawful access.0.0) (B.lawful access.0.1)) (C.lawful access.1)) };

    fn setup(access: &Self::Access, world: &mut World<V>) -> Result<(), AllocError> {
        <((A, B), C) as DynamicSystemData<V>>::setup(access, world)
    }

    fn fetch<H: Holder<V>>(access: &Self::Access, holder: &mut H) -> Result<Self, Missing> {
        let ((first, second), third) = <((A, B), C) as DynamicSystemData<V>>::fetch(
            access, holder,
        )?;
        Ok((first, second, third))
    }

    fn give_back<H: Holder<V>>(self, access: &Self::Access, holder: &mut H) {
        let (first, second, third) = self;
        <((A, B), C) as DynamicSystemData<V>>::give_back(((first, second), third), access, holder);
    }
}

/// Four bundles: the access of all but the last, and that of the last.
impl<
    V,
    A: DynamicSystemData<V>,
    B: DynamicSystemData<V>,
    C: DynamicSystemData<V>,
    D: DynamicSystemData<V>,
> DynamicSystemData<V> for (A, B, C, D) {
    type Access = (((A::Access, B::Access), C::Access), D::Access);

    ghost sets_up = { ⟦<((A, B, C), D) as DynamicSystemData<V>>⟧.sets_up };

    ghost lack = { ⟦<((A, B, C), D) as DynamicSystemData<V>>⟧.lack };

    ghost left = { ⟦<((A, B, C), D) as DynamicSystemData<V>>⟧.left };

    ghost fits = { λ bundle. ⟦<((A, B, C), D) as DynamicSystemData<V>>⟧.fits
        ((bundle.0, bundle.1, bundle.2), bundle.3) };

    ghost given = { λ bundle. ⟦<((A, B, C), D) as DynamicSystemData<V>>⟧.given
        ((bundle.0, bundle.1, bundle.2), bundle.3) };

    ghost can_give = { λ bundle. ⟦<((A, B, C), D) as DynamicSystemData<V>>⟧.can_give
        ((bundle.0, bundle.1, bundle.2), bundle.3) };

    ghost alike = { λ bundle changed. ⟦<((A, B, C), D) as DynamicSystemData<V>>⟧.alike
        ((bundle.0, bundle.1, bundle.2), bundle.3)
        ((changed.0, changed.1, changed.2), changed.3) };

    ghost lawful = { λ access. lawful_by (λ bundle. (((bundle.0, bundle.1), bundle.2), bundle.3))
        (lawful_both (lawful_both (lawful_both
        (A.lawful access.0.0.0) (B.lawful access.0.0.1)) (C.lawful access.0.1)) (D.lawful access.1)) };

    fn setup(access: &Self::Access, world: &mut World<V>) -> Result<(), AllocError> {
        <((A, B, C), D) as DynamicSystemData<V>>::setup(access, world)
    }

    fn fetch<H: Holder<V>>(access: &Self::Access, holder: &mut H) -> Result<Self, Missing> {
        let ((first, second, third), fourth) = <((A, B, C), D) as DynamicSystemData<V>>::fetch(
            access, holder,
        )?;
        Ok((first, second, third, fourth))
    }

    fn give_back<H: Holder<V>>(self, access: &Self::Access, holder: &mut H) {
        let (first, second, third, fourth) = self;
        <((A, B, C), D) as DynamicSystemData<V>>::give_back(
            ((first, second, third), fourth),
            access,
            holder,
        );
    }
}

/// Five bundles: the access of all but the last, and that of the last.
impl<
    V,
    A: DynamicSystemData<V>,
    B: DynamicSystemData<V>,
    C: DynamicSystemData<V>,
    D: DynamicSystemData<V>,
    E: DynamicSystemData<V>,
> DynamicSystemData<V> for (A, B, C, D, E) {
    type Access = ((((A::Access, B::Access), C::Access), D::Access), E::Access);

    ghost sets_up = { ⟦<((A, B, C, D), E) as DynamicSystemData<V>>⟧.sets_up };

    ghost lack = { ⟦<((A, B, C, D), E) as DynamicSystemData<V>>⟧.lack };

    ghost left = { ⟦<((A, B, C, D), E) as DynamicSystemData<V>>⟧.left };

    ghost fits = { λ bundle. ⟦<((A, B, C, D), E) as DynamicSystemData<V>>⟧.fits
        ((bundle.0, bundle.1, bundle.2, bundle.3), bundle.4) };

    ghost given = { λ bundle. ⟦<((A, B, C, D), E) as DynamicSystemData<V>>⟧.given
        ((bundle.0, bundle.1, bundle.2, bundle.3), bundle.4) };

    ghost can_give = { λ bundle. ⟦<((A, B, C, D), E) as DynamicSystemData<V>>⟧.can_give
        ((bundle.0, bundle.1, bundle.2, bundle.3), bundle.4) };

    ghost alike = { λ bundle changed. ⟦<((A, B, C, D), E) as DynamicSystemData<V>>⟧.alike
        ((bundle.0, bundle.1, bundle.2, bundle.3), bundle.4)
        ((changed.0, changed.1, changed.2, changed.3), changed.4) };

    ghost lawful = { λ access. lawful_by (λ bundle. ((((bundle.0, bundle.1), bundle.2), bundle.3), bundle.4))
        (lawful_both (lawful_both (lawful_both (lawful_both
        (A.lawful access.0.0.0.0) (B.lawful access.0.0.0.1)) (C.lawful access.0.0.1))
        (D.lawful access.0.1)) (E.lawful access.1)) };

    fn setup(access: &Self::Access, world: &mut World<V>) -> Result<(), AllocError> {
        <((A, B, C, D), E) as DynamicSystemData<V>>::setup(access, world)
    }

    fn fetch<H: Holder<V>>(access: &Self::Access, holder: &mut H) -> Result<Self, Missing> {
        let ((first, second, third, fourth), fifth) = <((A, B, C, D), E) as DynamicSystemData<
            V,
        >>::fetch(access, holder)?;
        Ok((first, second, third, fourth, fifth))
    }

    fn give_back<H: Holder<V>>(self, access: &Self::Access, holder: &mut H) {
        let (first, second, third, fourth, fifth) = self;
        <((A, B, C, D), E) as DynamicSystemData<V>>::give_back(
            ((first, second, third, fourth), fifth),
            access,
            holder,
        );
    }
}

/// Six bundles: the access of all but the last, and that of the last.
impl<
    V,
    A: DynamicSystemData<V>,
    B: DynamicSystemData<V>,
    C: DynamicSystemData<V>,
    D: DynamicSystemData<V>,
    E: DynamicSystemData<V>,
    F: DynamicSystemData<V>,
> DynamicSystemData<V> for (A, B, C, D, E, F) {
    type Access = (
        ((((A::Access, B::Access), C::Access), D::Access), E::Access),
        F::Access,
    );

    ghost sets_up = { ⟦<((A, B, C, D, E), F) as DynamicSystemData<V>>⟧.sets_up };

    ghost lack = { ⟦<((A, B, C, D, E), F) as DynamicSystemData<V>>⟧.lack };

    ghost left = { ⟦<((A, B, C, D, E), F) as DynamicSystemData<V>>⟧.left };

    ghost fits = { λ bundle. ⟦<((A, B, C, D, E), F) as DynamicSystemData<V>>⟧.fits
        ((bundle.0, bundle.1, bundle.2, bundle.3, bundle.4), bundle.5) };

    ghost given = { λ bundle. ⟦<((A, B, C, D, E), F) as DynamicSystemData<V>>⟧.given
        ((bundle.0, bundle.1, bundle.2, bundle.3, bundle.4), bundle.5) };

    ghost can_give = { λ bundle. ⟦<((A, B, C, D, E), F) as DynamicSystemData<V>>⟧.can_give
        ((bundle.0, bundle.1, bundle.2, bundle.3, bundle.4), bundle.5) };

    ghost alike = { λ bundle changed. ⟦<((A, B, C, D, E), F) as DynamicSystemData<V>>⟧.alike
        ((bundle.0, bundle.1, bundle.2, bundle.3, bundle.4), bundle.5)
        ((changed.0, changed.1, changed.2, changed.3, changed.4), changed.5) };

    ghost lawful = { λ access. lawful_by
        (λ bundle. (((((bundle.0, bundle.1), bundle.2), bundle.3), bundle.4), bundle.5))
        (lawful_both (lawful_both (lawful_both (lawful_both (lawful_both
        (A.lawful access.0.0.0.0.0) (B.lawful access.0.0.0.0.1)) (C.lawful access.0.0.0.1))
        (D.lawful access.0.0.1)) (E.lawful access.0.1)) (F.lawful access.1)) };

    fn setup(access: &Self::Access, world: &mut World<V>) -> Result<(), AllocError> {
        <((A, B, C, D, E), F) as DynamicSystemData<V>>::setup(access, world)
    }

    fn fetch<H: Holder<V>>(access: &Self::Access, holder: &mut H) -> Result<Self, Missing> {
        let ((first, second, third, fourth, fifth), sixth) = <(
            (A, B, C, D, E),
            F,
        ) as DynamicSystemData<V>>::fetch(access, holder)?;
        Ok((first, second, third, fourth, fifth, sixth))
    }

    fn give_back<H: Holder<V>>(self, access: &Self::Access, holder: &mut H) {
        let (first, second, third, fourth, fifth, sixth) = self;
        <((A, B, C, D, E), F) as DynamicSystemData<V>>::give_back(
            ((first, second, third, fourth, fifth), sixth),
            access,
            holder,
        );
    }
}

/// Seven bundles: the access of all but the last, and that of the last.
impl<
    V,
    A: DynamicSystemData<V>,
    B: DynamicSystemData<V>,
    C: DynamicSystemData<V>,
    D: DynamicSystemData<V>,
    E: DynamicSystemData<V>,
    F: DynamicSystemData<V>,
    G: DynamicSystemData<V>,
> DynamicSystemData<V> for (A, B, C, D, E, F, G) {
    type Access = (
        (
            ((((A::Access, B::Access), C::Access), D::Access), E::Access),
            F::Access,
        ),
        G::Access,
    );

    ghost sets_up = { ⟦<((A, B, C, D, E, F), G) as DynamicSystemData<V>>⟧.sets_up };

    ghost lack = { ⟦<((A, B, C, D, E, F), G) as DynamicSystemData<V>>⟧.lack };

    ghost left = { ⟦<((A, B, C, D, E, F), G) as DynamicSystemData<V>>⟧.left };

    ghost fits = { λ bundle. ⟦<((A, B, C, D, E, F), G) as DynamicSystemData<V>>⟧.fits
        ((bundle.0, bundle.1, bundle.2, bundle.3, bundle.4, bundle.5), bundle.6) };

    ghost given = { λ bundle. ⟦<((A, B, C, D, E, F), G) as DynamicSystemData<V>>⟧.given
        ((bundle.0, bundle.1, bundle.2, bundle.3, bundle.4, bundle.5), bundle.6) };

    ghost can_give = { λ bundle. ⟦<((A, B, C, D, E, F), G) as DynamicSystemData<V>>⟧.can_give
        ((bundle.0, bundle.1, bundle.2, bundle.3, bundle.4, bundle.5), bundle.6) };

    ghost alike = { λ bundle changed. ⟦<((A, B, C, D, E, F), G) as DynamicSystemData<V>>⟧.alike
        ((bundle.0, bundle.1, bundle.2, bundle.3, bundle.4, bundle.5), bundle.6)
        ((changed.0, changed.1, changed.2, changed.3, changed.4, changed.5), changed.6) };

    ghost lawful = { λ access. lawful_by
        (λ bundle. ((((((bundle.0, bundle.1), bundle.2), bundle.3), bundle.4), bundle.5), bundle.6))
        (lawful_both (lawful_both (lawful_both (lawful_both (lawful_both (lawful_both
        (A.lawful access.0.0.0.0.0.0) (B.lawful access.0.0.0.0.0.1)) (C.lawful access.0.0.0.0.1))
        (D.lawful access.0.0.0.1)) (E.lawful access.0.0.1)) (F.lawful access.0.1))
        (G.lawful access.1)) };

    fn setup(access: &Self::Access, world: &mut World<V>) -> Result<(), AllocError> {
        <((A, B, C, D, E, F), G) as DynamicSystemData<V>>::setup(access, world)
    }

    fn fetch<H: Holder<V>>(access: &Self::Access, holder: &mut H) -> Result<Self, Missing> {
        let ((first, second, third, fourth, fifth, sixth), seventh) = <(
            (A, B, C, D, E, F),
            G,
        ) as DynamicSystemData<V>>::fetch(access, holder)?;
        Ok((first, second, third, fourth, fifth, sixth, seventh))
    }

    fn give_back<H: Holder<V>>(self, access: &Self::Access, holder: &mut H) {
        let (first, second, third, fourth, fifth, sixth, seventh) = self;
        <((A, B, C, D, E, F), G) as DynamicSystemData<V>>::give_back(
            ((first, second, third, fourth, fifth, sixth), seventh),
            access,
            holder,
        );
    }
}

/// Eight bundles: the access of all but the last, and that of the last.
impl<
    V,
    A: DynamicSystemData<V>,
    B: DynamicSystemData<V>,
    C: DynamicSystemData<V>,
    D: DynamicSystemData<V>,
    E: DynamicSystemData<V>,
    F: DynamicSystemData<V>,
    G: DynamicSystemData<V>,
    I: DynamicSystemData<V>,
> DynamicSystemData<V> for (A, B, C, D, E, F, G, I) {
    type Access = (
        (
            (
                ((((A::Access, B::Access), C::Access), D::Access), E::Access),
                F::Access,
            ),
            G::Access,
        ),
        I::Access,
    );

    ghost sets_up = { ⟦<((A, B, C, D, E, F, G), I) as DynamicSystemData<V>>⟧.sets_up };

    ghost lack = { ⟦<((A, B, C, D, E, F, G), I) as DynamicSystemData<V>>⟧.lack };

    ghost left = { ⟦<((A, B, C, D, E, F, G), I) as DynamicSystemData<V>>⟧.left };

    ghost fits = { λ bundle. ⟦<((A, B, C, D, E, F, G), I) as DynamicSystemData<V>>⟧.fits
        ((bundle.0, bundle.1, bundle.2, bundle.3, bundle.4, bundle.5, bundle.6), bundle.7) };

    ghost given = { λ bundle. ⟦<((A, B, C, D, E, F, G), I) as DynamicSystemData<V>>⟧.given
        ((bundle.0, bundle.1, bundle.2, bundle.3, bundle.4, bundle.5, bundle.6), bundle.7) };

    ghost can_give = { λ bundle. ⟦<((A, B, C, D, E, F, G), I) as DynamicSystemData<V>>⟧.can_give
        ((bundle.0, bundle.1, bundle.2, bundle.3, bundle.4, bundle.5, bundle.6), bundle.7) };

    ghost alike = { λ bundle changed. ⟦<((A, B, C, D, E, F, G), I) as DynamicSystemData<V>>⟧.alike
        ((bundle.0, bundle.1, bundle.2, bundle.3, bundle.4, bundle.5, bundle.6), bundle.7)
        ((changed.0, changed.1, changed.2, changed.3, changed.4, changed.5, changed.6), changed.7) };

    ghost lawful = { λ access. lawful_by
        (λ bundle. (((((((bundle.0, bundle.1), bundle.2), bundle.3), bundle.4), bundle.5), bundle.6), bundle.7))
        (lawful_both (lawful_both (lawful_both (lawful_both (lawful_both (lawful_both (lawful_both
        (A.lawful access.0.0.0.0.0.0.0) (B.lawful access.0.0.0.0.0.0.1))
        (C.lawful access.0.0.0.0.0.1)) (D.lawful access.0.0.0.0.1)) (E.lawful access.0.0.0.1))
        (F.lawful access.0.0.1)) (G.lawful access.0.1)) (I.lawful access.1)) };

    fn setup(access: &Self::Access, world: &mut World<V>) -> Result<(), AllocError> {
        <((A, B, C, D, E, F, G), I) as DynamicSystemData<V>>::setup(access, world)
    }

    fn fetch<H: Holder<V>>(access: &Self::Access, holder: &mut H) -> Result<Self, Missing> {
        let ((first, second, third, fourth, fifth, sixth, seventh), eighth) = <(
            (A, B, C, D, E, F, G),
            I,
        ) as DynamicSystemData<V>>::fetch(access, holder)?;
        Ok((first, second, third, fourth, fifth, sixth, seventh, eighth))
    }

    fn give_back<H: Holder<V>>(self, access: &Self::Access, holder: &mut H) {
        let (first, second, third, fourth, fifth, sixth, seventh, eighth) = self;
        <((A, B, C, D, E, F, G), I) as DynamicSystemData<V>>::give_back(
            (
                (first, second, third, fourth, fifth, sixth, seventh),
                eighth,
            ),
            access,
            holder,
        );
    }
}
