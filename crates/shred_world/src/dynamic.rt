//! Bundles whose ids are told by a value.
ghost use Rattle.std.specs.Prelude.{◌≡◌, Bool, Option, Some, None, List, [], ◌∷◌, OnOk, OnErr, IfOk, IfErr, IsSome};
ghost use Rattle.std.specs.Prelude.{is_ok};
ghost use Rattle.std.specs.Option.{option_and_then};
ghost use Rattle.shred_world.specs.declared.resource_id.ResourceId.{ResourceId as Id};
ghost use Rattle.shred_world.specs.Worlds.{Slots};
ghost use Rattle.shred_world.specs.Bundles.{Holding, readable, with_slot, out, owned};
ghost use Rattle.shred_world.specs.Bundles.{lack_reading, lack_writing, UnitSetsUp};
ghost use Rattle.shred_world.specs.BundleLaws.{IsLawful, lawful_reading, lawful_writing};

mod optional;
mod tuples;

use crate::data::read::one_id;
use crate::{Holder, Missing, Read, Resource, ResourceId, SetupHandler, World, Write};
use std::alloc::{AllocError, Global};
use std::marker::PhantomData;

/// Tells the ids that a bundle reads and writes.
pub trait Accessor {
    /// The ids that are read, in order.
    ghost read_list: { Self → List Id };

    /// The ids that are written, in order.
    ghost write_list: { Self → List Id };

    /// The ids that are read.
    fn reads(&self, alloc: Global) -> Result<Vec<ResourceId>, AllocError>
        ensures { IfOk result (λ ids. ids.items ≡ read_list self.now) };

    /// The ids that are written.
    fn writes(&self, alloc: Global) -> Result<Vec<ResourceId>, AllocError>
        ensures { IfOk result (λ ids. ids.items ≡ write_list self.now) };
}

/// No id.
impl Accessor for () {
    ghost read_list = { λ _. [] };

    ghost write_list = { λ _. [] };

    fn reads(&self, alloc: Global) -> Result<Vec<ResourceId>, AllocError> {
        Ok(Vec::new(alloc))
    }

    fn writes(&self, alloc: Global) -> Result<Vec<ResourceId>, AllocError> {
        Ok(Vec::new(alloc))
    }
}

/// No id.
impl<T> Accessor for PhantomData<T> {
    ghost read_list = { λ _. [] };

    ghost write_list = { λ _. [] };

    fn reads(&self, alloc: Global) -> Result<Vec<ResourceId>, AllocError> {
        Ok(Vec::new(alloc))
    }

    fn writes(&self, alloc: Global) -> Result<Vec<ResourceId>, AllocError> {
        Ok(Vec::new(alloc))
    }
}

/// Reads one id.
#[derive(Clone, Copy, Debug, PartialEq, Eq)]
pub struct ReadAccessor {
    /// The id.
    pub id: ResourceId,
}

impl Accessor for ReadAccessor {
    ghost read_list = { λ access. access.id ∷ [] };

    ghost write_list = { λ _. [] };

    fn reads(&self, alloc: Global) -> Result<Vec<ResourceId>, AllocError> {
        one_id(alloc, self.id)
    }

    fn writes(&self, alloc: Global) -> Result<Vec<ResourceId>, AllocError> {
        Ok(Vec::new(alloc))
    }
}

/// Writes one id.
#[derive(Clone, Copy, Debug, PartialEq, Eq)]
pub struct WriteAccessor {
    /// The id.
    pub id: ResourceId,
}

impl Accessor for WriteAccessor {
    ghost read_list = { λ _. [] };

    ghost write_list = { λ access. access.id ∷ [] };

    fn reads(&self, alloc: Global) -> Result<Vec<ResourceId>, AllocError> {
        Ok(Vec::new(alloc))
    }

    fn writes(&self, alloc: Global) -> Result<Vec<ResourceId>, AllocError> {
        one_id(alloc, self.id)
    }
}

/// A bundle that is fetched under the ids that an accessor tells.
pub trait DynamicSystemData<V>: Sized {
    /// What tells the ids.
    type Access: Accessor;

    /// What `setup` makes of a world, where it is accepted and where memory is wanting.
    ghost sets_up: { Self.Access → Bool → Slots V → Slots V → Type 0 };

    /// The first id whose resource is wanting.
    ghost lack: { Self.Access → Holding V → Option Id };

    /// What an accepted `fetch` leaves in the holder.
    ghost left: { Self.Access → Holding V → Holding V };

    /// What is known of a bundle by the slots from which it was fetched.
    ghost fits: { Self → Self.Access → Holding V → Type 0 };

    /// What giving the bundle back makes of the holder.
    ghost given: { Self → Self.Access → Holding V → Holding V };

    /// Whether what the bundle took out is still out.
    ghost can_give: { Self → Self.Access → Holding V → Type 0 };

    /// Whether the second bundle may be given back in the place of the first: what was there is there.
    ghost alike: { Self → Self → Type 0 };

    /// Sets up each resource in turn. Errors: want of memory; the resources before the refused one are set up.
    fn setup(access: &Self::Access, world: &mut World<V>) -> Result<(), AllocError>
        ensures { sets_up access.now (is_ok result) world.old world.new };

    /// Fetches the bundle. Errors: `Missing`, with the first id whose resource is wanting; the holder is as it was.
    fn fetch<H: Holder<V>>(access: &Self::Access, holder: &mut H) -> Result<Self, Missing>
        ensures found { OnOk result (lack access.now (H.slots holder.old) ≡ None) }
        ensures missing { IfErr result (λ refused. lack access.now (H.slots holder.old) ≡ Some refused.id) }
        ensures ok { OnOk result (H.slots holder.new ≡ left access.now (H.slots holder.old)) }
        ensures err { OnErr result (H.slots holder.new ≡ H.slots holder.old) }

        // The bundle is what stood there: given back at once it leaves all as it was.
        ensures fits { IfOk result (λ bundle. fits bundle access.now (H.slots holder.old)) }
        ensures has { IfOk result (λ bundle. given bundle access.now (H.slots holder.new) ≡ H.slots holder.old) }
        ensures can { IfOk result (λ bundle. can_give bundle access.now (H.slots holder.new)) };

    /// Spends the bundle: the holder then has what it wrote.
    fn give_back<H: Holder<V>>(self, access: &Self::Access, holder: &mut H)
        requires can { can_give self access.now (H.slots holder.old) }
        ensures { H.slots holder.new ≡ given self access.now (H.slots holder.old) };

    /// Fetching and giving back leave each id that isn't told as written. A bundle that was fetched and then changed may
    /// be given back, and each value that was taken out has then come back, or another in its place.
    ghost lawful: { (access : Self.Access) → IsLawful
        (Self.Access.write_list access) (left access) (λ bundle. fits bundle access)
        (λ bundle. given bundle access) (λ bundle. can_give bundle access) alike };
}

/// Reads the resource under an id of any dynamic number; `Read::get_under` lends it. `setup` does nothing.
impl<V, R: Resource<V>, F: SetupHandler<V, R>> DynamicSystemData<V> for Read<R, F> {
    type Access = ReadAccessor;

    ghost sets_up = { λ _. UnitSetsUp };

    ghost lack = { λ access. lack_reading R.part access.id };

    ghost left = { λ _ w. w };

    ghost fits = { λ _ access w. IsSome (option_and_then R.part (readable (w access.id))) };

    ghost given = { λ _ _ w. w };

    ghost can_give = { λ _ _ _. Unit {0} };

    ghost alike = { λ _ _. Unit {0} };

    ghost lawful = { λ _. lawful_reading };

    fn setup(_access: &ReadAccessor, _world: &mut World<V>) -> Result<(), AllocError> {
        Ok(())
    }

    fn fetch<H: Holder<V>>(access: &ReadAccessor, holder: &mut H) -> Result<Self, Missing> {
        Read::look_in(access.id, holder)
    }

    fn give_back<H: Holder<V>>(self, _access: &ReadAccessor, _holder: &mut H) {
        self.spend();
    }
}

/// Writes the resource under an id of any dynamic number. `setup` does nothing.
impl<V, R: Resource<V>, F: SetupHandler<V, R>> DynamicSystemData<V> for Write<R, F> {
    type Access = WriteAccessor;

    ghost sets_up = { λ _. UnitSetsUp };

    ghost lack = { λ access. lack_writing R.part access.id };

    ghost left = { λ access w. with_slot w access.id out };

    ghost fits = { λ bundle access w. w access.id ≡ owned (R.wrapped bundle.value) };

    ghost given = { λ bundle access w. with_slot w access.id (owned (R.wrapped bundle.value)) };

    ghost can_give = { λ _ access w. w access.id ≡ out };

    ghost alike = { λ _ _. Unit {0} };

    ghost lawful = { λ access. lawful_writing access.id (λ bundle. R.wrapped bundle.value) };

    fn setup(_access: &WriteAccessor, _world: &mut World<V>) -> Result<(), AllocError> {
        Ok(())
    }

    fn fetch<H: Holder<V>>(access: &WriteAccessor, holder: &mut H) -> Result<Self, Missing> {
        Write::take_from(access.id, holder)
    }

    fn give_back<H: Holder<V>>(self, access: &WriteAccessor, holder: &mut H) {
        holder.put(access.id, self.into_inner().wrap());
    }
}
