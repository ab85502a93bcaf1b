//! Bundles of one resource that is read.
ghost use Rattle.std.specs.Prelude.{◌≡◌, Some, None, [], ◌∷◌, OnOk, IfOk, IfErr, IsSome};
ghost use Rattle.std.specs.Option.{option_and_then};
ghost use Rattle.shred_world.specs.ResourceIds.{id_of};
ghost use Rattle.shred_world.specs.BundleLaws.{lawful_reading};
ghost use Rattle.shred_world.specs.Bundles.{readable, lack_reading, HandlerSetsUp};

use crate::{
    DefaultProvider, Holder, Missing, PanicHandler, ReadAccessor, Resource, ResourceId,
    SetupHandler, SystemData, World,
};
use std::alloc::{AllocError, Global};
use std::marker::PhantomData;

/// Reads a resource, which `get` lends from the holder that the bundle was fetched from.
pub struct Read<R, F = DefaultProvider> {
    resource: PhantomData<R>,
    handler: PhantomData<F>,
}

/// Reads a resource that nothing sets up.
pub type ReadExpect<R> = Read<R, PanicHandler>;

impl<R, F> Read<R, F> {
    /// The resource, in the holder that the bundle was fetched from.
    pub fn get<'h, V: 'h, H: Holder<V>>(&self, holder: &'h H) -> &'h R
    where
        R: Resource<V>,
        requires there { IsSome (option_and_then R.part (readable (H.slots holder.now (id_of R.kind_number 0)))) }
        ensures { Some result.now ≡ option_and_then R.part (readable (H.slots holder.now (id_of R.kind_number 0))) }
    {
        R::view(holder.value(ResourceId::new::<V, R>()).unwrap()).unwrap()
    }

    /// The resource under the id that the accessor tells, in the holder that the bundle was fetched from.
    pub fn get_under<'h, V: 'h, H: Holder<V>>(&self, holder: &'h H, access: &ReadAccessor) -> &'h R
    where
        R: Resource<V>,
        requires there { IsSome (option_and_then R.part (readable (H.slots holder.now access.now.id))) }
        ensures { Some result.now ≡ option_and_then R.part (readable (H.slots holder.now access.now.id)) }
    {
        R::view(holder.value(access.id).unwrap()).unwrap()
    }

    /// Sees whether the resource is in the holder under `id`.
    pub(crate) fn look_in<V, H: Holder<V>>(id: ResourceId, holder: &H) -> Result<Self, Missing>
    where
        R: Resource<V>,
        ensures found { OnOk result (lack_reading R.part id (H.slots holder.now) ≡ None) }
        ensures missing { IfErr result (λ refused. lack_reading R.part id (H.slots holder.now) ≡ Some refused.id) }
        ensures there { OnOk result (IsSome (option_and_then R.part (readable (H.slots holder.now id)))) }
    {
        match holder.value(id) {
            Some(value) => match R::view(value) {
                Some(_) => Ok(Read {
                    resource: PhantomData,
                    handler: PhantomData,
                }),
                None => Err(Missing { id }),
            },
            None => Err(Missing { id }),
        }
    }

    /// Lets the bundle go.
    pub(crate) fn spend(self) {
        let Read {
            resource: _,
            handler: _,
        } = self;
    }
}

impl<V, R: Resource<V>, F: SetupHandler<V, R>> SystemData<V> for Read<R, F> {
    ghost read_ids = { id_of R.kind_number 0 ∷ [] };

    ghost write_ids = { [] };

    ghost sets_up = { HandlerSetsUp F.sets_up };

    ghost lack = { lack_reading R.part (id_of R.kind_number 0) };

    ghost left = { λ w. w };

    ghost fits = { λ _ w. IsSome (option_and_then R.part (readable (w (id_of R.kind_number 0)))) };

    ghost given = { λ _ w. w };

    ghost can_give = { λ _ _. Unit {0} };

    ghost alike = { λ _ _. Unit {0} };

    ghost lawful = { lawful_reading };

    fn setup(world: &mut World<V>) -> Result<(), AllocError> {
        F::setup(world)
    }

    fn fetch<H: Holder<V>>(holder: &mut H) -> Result<Self, Missing> {
        Read::look_in(ResourceId::new::<V, R>(), holder)
    }

    fn give_back<H: Holder<V>>(self, _holder: &mut H) {
        self.spend();
    }

    fn reads(alloc: Global) -> Result<Vec<ResourceId>, AllocError> {
        one_id(alloc, ResourceId::new::<V, R>())
    }

    fn writes(alloc: Global) -> Result<Vec<ResourceId>, AllocError> {
        Ok(Vec::new(alloc))
    }
}

/// The list of one id.
pub(crate) fn one_id(alloc: Global, id: ResourceId) -> Result<Vec<ResourceId>, AllocError>
    ensures { IfOk result (λ ids. ids.items ≡ id ∷ []) }
{
    let mut ids = Vec::new(alloc);
    ids.push(id)?;
    Ok(ids)
}
