//! Bundles of one resource that is written.
ghost use Rattle.std.specs.Prelude.{◌≡◌, Some, None, [], ◌∷◌, OnOk, OnErr, IfOk, IfErr};
ghost use Rattle.shred_world.specs.ResourceIds.{id_of};
ghost use Rattle.shred_world.specs.Bundles.{with_slot, out, owned, lack_writing, HandlerSetsUp};
ghost use Rattle.shred_world.specs.BundleLaws.{lawful_writing};

use super::read::one_id;
use crate::{
    DefaultProvider, Holder, Missing, PanicHandler, Resource, ResourceId, SetupHandler, SystemData,
    World,
};
use std::alloc::{AllocError, Global};
use std::marker::PhantomData;
use std::ops::{Deref, DerefMut};

/// Writes a resource, which is out of the holder until the bundle is given back.
pub struct Write<R, F = DefaultProvider> {
    /// The resource.
    pub value: R,
    handler: PhantomData<F>,
}

/// Writes a resource that nothing sets up.
pub type WriteExpect<R> = Write<R, PanicHandler>;

impl<R, F> Deref for Write<R, F> {
    type Target = R;

    ghost deref_gives = { λ bundle resource. resource ≡ bundle.value };

    fn deref(&self) -> &R {
        &self.value
    }
}

impl<R, F> DerefMut for Write<R, F> {
    ghost deref_mut_gives = { λ bundle resource. resource ≡ bundle.value };

    fn deref_mut(&mut self) -> &mut R {
        &mut self.value
    }
}

impl<R, F> Write<R, F> {
    /// The resource.
    pub(crate) fn into_inner(self) -> R
        ensures { result ≡ self.value }
    {
        let Write { value, handler: _ } = self;
        value
    }

    /// Takes the resource under `id` out of the holder.
    pub(crate) fn take_from<V, H: Holder<V>>(
        id: ResourceId,
        holder: &mut H,
    ) -> Result<Self, Missing>
    where
        R: Resource<V>,
        ensures found { OnOk result (lack_writing R.part id (H.slots holder.old) ≡ None) }
        ensures missing { IfErr result (λ refused. lack_writing R.part id (H.slots holder.old) ≡ Some refused.id) }
        ensures ok { OnOk result (H.slots holder.new ≡ with_slot (H.slots holder.old) id out) }
        ensures err { OnErr result (H.slots holder.new ≡ H.slots holder.old) }
        ensures fits { IfOk result (λ bundle. H.slots holder.old id ≡ owned (R.wrapped bundle.value)) }
    {
        match holder.take(id) {
            Some(value) => match R::unwrap(value) {
                Ok(value) => Ok(Write {
                    value,
                    handler: PhantomData,
                }),
                Err(value) => {
                    holder.put(id, value);
                    Err(Missing { id })
                }
            },
            None => Err(Missing { id }),
        }
    }
}

impl<V, R: Resource<V>, F: SetupHandler<V, R>> SystemData<V> for Write<R, F> {
    ghost read_ids = { [] };

    ghost write_ids = { id_of R.kind_number 0 ∷ [] };

    ghost sets_up = { HandlerSetsUp F.sets_up };

    ghost lack = { lack_writing R.part (id_of R.kind_number 0) };

    ghost left = { λ w. with_slot w (id_of R.kind_number 0) out };

    ghost fits = { λ bundle w. w (id_of R.kind_number 0) ≡ owned (R.wrapped bundle.value) };

    ghost given = { λ bundle w. with_slot w (id_of R.kind_number 0) (owned (R.wrapped bundle.value)) };

    ghost can_give = { λ _ w. w (id_of R.kind_number 0) ≡ out };

    ghost alike = { λ _ _. Unit {0} };

    ghost lawful = { lawful_writing (id_of R.kind_number 0) (λ bundle. R.wrapped bundle.value) };

    fn setup(world: &mut World<V>) -> Result<(), AllocError> {
        F::setup(world)
    }

    fn fetch<H: Holder<V>>(holder: &mut H) -> Result<Self, Missing> {
        Write::take_from(ResourceId::new::<V, R>(), holder)
    }

    fn give_back<H: Holder<V>>(self, holder: &mut H) {
        holder.put(ResourceId::new::<V, R>(), self.into_inner().wrap());
    }

    fn reads(alloc: Global) -> Result<Vec<ResourceId>, AllocError> {
        Ok(Vec::new(alloc))
    }

    fn writes(alloc: Global) -> Result<Vec<ResourceId>, AllocError> {
        one_id(alloc, ResourceId::new::<V, R>())
    }
}
