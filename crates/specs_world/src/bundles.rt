//! What systems over storages fetch: the parts of a kind, beside the entities, which they declare.
ghost use Rattle.std.specs.Prelude.{◌≡◌, Some, None, [], ◌∷◌, IsSome};
ghost use Rattle.std.specs.Option.{option_and_then};
ghost use Rattle.shred_world.specs.ResourceIds.{id_of};
ghost use Rattle.shred_world.specs.Bundles.{HandlerSetsUp, UnitSetsUp, lack_reading, lack_writing, out, owned, readable};
ghost use Rattle.shred_world.specs.Bundles.{with_slot};
ghost use Rattle.shred_world.specs.BundleLaws.{lawful_reading, lawful_writing};
ghost use Rattle.specs_world.specs.Resources.{place, IsNew, SetsUpStorage};

use crate::held::Held;
use crate::registering::{put_default, register_default};
use crate::registrable::Registrable;
use shred_world::{
    Holder, MetaTable, Missing, Read, Resource, ResourceId, SetupHandler, SystemData, World, Write,
};
use specs_entity::EntitiesRes;
use specs_layouts::{AnyStorage, Component, MaskedStorage, TryDefault, UnprotectedStorage};
use std::alloc::{AllocError, Global};
use std::marker::PhantomData;
use std::ops::{Deref, DerefMut};

/// Reads the parts of one kind, which `get` lends from the holder that the bundle was fetched from, and declares that the
/// entities are read. `setup` registers the kind.
pub struct ReadStorage<T: Component> {
    parts: Read<MaskedStorage<T>, Registers>,
}

impl<T: Component> ReadStorage<T> {
    /// The parts, in the holder that the bundle was fetched from.
    pub fn get<'h, V: 'h, H: Holder<V>>(&self, holder: &'h H) -> &'h MaskedStorage<T>
    where
        MaskedStorage<T>: Resource<V>,
        requires there { IsSome (option_and_then ⟦<MaskedStorage<T> as Resource<V>>⟧.part
            (readable (H.slots holder.now (id_of ⟦<MaskedStorage<T> as Resource<V>>⟧.kind_number 0)))) }
        ensures { Some result.now ≡ option_and_then ⟦<MaskedStorage<T> as Resource<V>>⟧.part
            (readable (H.slots holder.now (id_of ⟦<MaskedStorage<T> as Resource<V>>⟧.kind_number 0))) }
    {
        self.parts.get(holder)
    }
}

impl<V: AnyStorage + Drop, T: Registrable<V>> SystemData<V> for ReadStorage<T>
where
    MetaTable: Resource<V>,
    EntitiesRes: Resource<V>,
    MaskedStorage<T>: Resource<V>,
{
    ghost read_ids = { id_of ⟦<MaskedStorage<T> as Resource<V>>⟧.kind_number 0
        ∷ id_of ⟦<EntitiesRes as Resource<V>>⟧.kind_number 0 ∷ [] };

    ghost write_ids = { [] };

    ghost sets_up = { HandlerSetsUp ⟦<Registers as SetupHandler<V, MaskedStorage<T>>>⟧.sets_up };

    ghost lack = { lack_reading ⟦<MaskedStorage<T> as Resource<V>>⟧.part
        (id_of ⟦<MaskedStorage<T> as Resource<V>>⟧.kind_number 0) };

    ghost left = { λ w. w };

    ghost fits = { λ _ w. IsSome (option_and_then ⟦<MaskedStorage<T> as Resource<V>>⟧.part
        (readable (w (id_of ⟦<MaskedStorage<T> as Resource<V>>⟧.kind_number 0)))) };

    ghost given = { λ _ w. w };

    ghost can_give = { λ _ _. Unit {0} };

    ghost alike = { λ _ _. Unit {0} };

    ghost lawful = { lawful_reading };

    fn setup(world: &mut World<V>) -> Result<(), AllocError> {
        <Read<MaskedStorage<T>, Registers> as SystemData<V>>::setup(world)
    }

    fn fetch<H: Holder<V>>(holder: &mut H) -> Result<Self, Missing> {
        let parts = <Read<MaskedStorage<T>, Registers> as SystemData<V>>::fetch(holder)?;
        Ok(ReadStorage { parts })
    }

    fn give_back<H: Holder<V>>(self, holder: &mut H) {
        let ReadStorage { parts } = self;
        <Read<MaskedStorage<T>, Registers> as SystemData<V>>::give_back(parts, holder);
    }

    fn reads(alloc: Global) -> Result<Vec<ResourceId>, AllocError> {
        let mut ids = <Read<MaskedStorage<T>, Registers> as SystemData<V>>::reads(alloc)?;
        ids.push(ResourceId::new::<V, EntitiesRes>())?;
        Ok(ids)
    }

    fn writes(alloc: Global) -> Result<Vec<ResourceId>, AllocError> {
        Ok(Vec::new(alloc))
    }
}

/// Writes the parts of one kind, which are out of the holder until the bundle is given back, and declares that the entities are
/// read. `setup` registers the kind.
pub struct WriteStorage<T: Component> {
    /// The parts.
    pub parts: Write<MaskedStorage<T>, Registers>,
}

impl<T: Component> Deref for WriteStorage<T> {
    type Target = MaskedStorage<T>;

    ghost deref_gives = { λ bundle parts. parts ≡ bundle.parts.value };

    fn deref(&self) -> &MaskedStorage<T> {
        &self.parts.value
    }
}

impl<T: Component> DerefMut for WriteStorage<T> {
    ghost deref_mut_gives = { λ bundle parts. parts ≡ bundle.parts.value };

    fn deref_mut(&mut self) -> &mut MaskedStorage<T> {
        &mut self.parts.value
    }
}

impl<V: AnyStorage + Drop, T: Registrable<V>> SystemData<V> for WriteStorage<T>
where
    MetaTable: Resource<V>,
    EntitiesRes: Resource<V>,
    MaskedStorage<T>: Resource<V>,
{
    ghost read_ids = { id_of ⟦<EntitiesRes as Resource<V>>⟧.kind_number 0 ∷ [] };

    ghost write_ids = { id_of ⟦<MaskedStorage<T> as Resource<V>>⟧.kind_number 0 ∷ [] };

    ghost sets_up = { HandlerSetsUp ⟦<Registers as SetupHandler<V, MaskedStorage<T>>>⟧.sets_up };

    ghost lack = { lack_writing ⟦<MaskedStorage<T> as Resource<V>>⟧.part
        (id_of ⟦<MaskedStorage<T> as Resource<V>>⟧.kind_number 0) };

    ghost left = { λ w. with_slot w (id_of ⟦<MaskedStorage<T> as Resource<V>>⟧.kind_number 0) out };

    ghost fits = { λ bundle w. w (id_of ⟦<MaskedStorage<T> as Resource<V>>⟧.kind_number 0)
        ≡ owned (⟦<MaskedStorage<T> as Resource<V>>⟧.wrapped bundle.parts.value) };

    ghost given = { λ bundle w. with_slot w (id_of ⟦<MaskedStorage<T> as Resource<V>>⟧.kind_number 0)
        (owned (⟦<MaskedStorage<T> as Resource<V>>⟧.wrapped bundle.parts.value)) };

    ghost can_give = { λ _ w. w (id_of ⟦<MaskedStorage<T> as Resource<V>>⟧.kind_number 0) ≡ out };

    ghost alike = { λ _ _. Unit {0} };

    ghost lawful = { lawful_writing (id_of ⟦<MaskedStorage<T> as Resource<V>>⟧.kind_number 0)
        (λ bundle. ⟦<MaskedStorage<T> as Resource<V>>⟧.wrapped bundle.parts.value) };

    fn setup(world: &mut World<V>) -> Result<(), AllocError> {
        <Write<MaskedStorage<T>, Registers> as SystemData<V>>::setup(world)
    }

    fn fetch<H: Holder<V>>(holder: &mut H) -> Result<Self, Missing> {
        let parts = <Write<MaskedStorage<T>, Registers> as SystemData<V>>::fetch(holder)?;
        Ok(WriteStorage { parts })
    }

    fn give_back<H: Holder<V>>(self, holder: &mut H) {
        let WriteStorage { parts } = self;
        <Write<MaskedStorage<T>, Registers> as SystemData<V>>::give_back(parts, holder);
    }

    fn reads(alloc: Global) -> Result<Vec<ResourceId>, AllocError> {
        let mut ids = Vec::new(alloc);
        ids.push(ResourceId::new::<V, EntitiesRes>())?;
        Ok(ids)
    }

    fn writes(alloc: Global) -> Result<Vec<ResourceId>, AllocError> {
        <Write<MaskedStorage<T>, Registers> as SystemData<V>>::writes(alloc)
    }
}

/// Registers a kind of parts, as `WorldExt::register` does; in a world without a table of kinds the storage is put in alone.
#[derive(Drop)]
pub struct Registers;

impl<V: AnyStorage + Drop, T: Registrable<V>> SetupHandler<V, MaskedStorage<T>> for Registers
where
    MetaTable: Resource<V>,
    MaskedStorage<T>: Resource<V>,
{
    ghost sets_up = { SetsUpStorage
        ⟦<MetaTable as Held<V>>⟧.stands_at
        ⟦<MaskedStorage<T> as Held<V>>⟧.stands_at
        (IsNew T.Storage.TryDefault.is_default T.Storage.part_at) };

    /// Registers the kind. Errors: want of memory, or of a default of the layout; both leave the world as it was.
    fn setup(world: &mut World<V>) -> Result<(), AllocError> {
        if world.try_fetch::<MetaTable>().is_none() {
            return put_default::<V, T>(world);
        }
        register_default::<V, T>(world)
    }
}

/// Declares that a resource is read, and looks for nothing: a system that has the resource by other means says so to the planner.
#[derive(Drop)]
pub struct Declared<R> {
    resource: PhantomData<R>,
}

impl<V, R: Resource<V>> SystemData<V> for Declared<R> {
    ghost read_ids = { id_of R.kind_number 0 ∷ [] };

    ghost write_ids = { [] };

    ghost sets_up = { UnitSetsUp };

    ghost lack = { λ _. None };

    ghost left = { λ w. w };

    ghost fits = { λ _ _. Unit {0} };

    ghost given = { λ _ w. w };

    ghost can_give = { λ _ _. Unit {0} };

    ghost alike = { λ _ _. Unit {0} };

    ghost lawful = { lawful_reading };

    fn setup(_world: &mut World<V>) -> Result<(), AllocError> {
        Ok(())
    }

    fn fetch<H: Holder<V>>(_holder: &mut H) -> Result<Self, Missing> {
        Ok(Declared {
            resource: PhantomData,
        })
    }

    fn give_back<H: Holder<V>>(self, _holder: &mut H) {
        let Declared { resource: _ } = self;
    }

    fn reads(alloc: Global) -> Result<Vec<ResourceId>, AllocError> {
        let mut ids = Vec::new(alloc);
        ids.push(ResourceId::new::<V, R>())?;
        Ok(ids)
    }

    fn writes(alloc: Global) -> Result<Vec<ResourceId>, AllocError> {
        Ok(Vec::new(alloc))
    }
}
