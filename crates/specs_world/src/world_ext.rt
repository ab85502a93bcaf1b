//! What a world of entities does: the calls that users of worlds look for.
ghost use Rattle.std.specs.Prelude.{◌≡◌, ◌↔◌, ◌<◌, IsTrue, Some, None, [], ◌∷◌, true, ℕ, List, Option};
ghost use Rattle.std.specs.Prelude.{IsOk, OnOk, OnErr, IfOk, IfErr, IsErrOf, ◌⊎◌};
ghost use Rattle.std.specs.Borrow.{sem, RestsIfErr};
ghost use Rattle.std.specs.FinMap as map;
ghost use Rattle.shred_world.specs.Worlds.{Slots};
ghost use Rattle.specs_entity.specs.Births.{IsAlive, Births, allocated, deleted, newborn, none_born};
ghost use Rattle.specs_entity.specs.declared.errors.Error.TheVariants as refusal;
ghost use Rattle.specs_layouts.specs.Parts.{HasNone};
ghost use Rattle.specs_world.specs.Resources.{Allocates, AllocatesAll, Place, place, held, Becomes, IsNew, Registers};
ghost use Rattle.specs_world.specs.Resources.{IsPersistent};
ghost use Rattle.specs_world.specs.Resources.{RefusesBirthIn, RefusesBirthsIn, DeletesLater, IsTakenOut};
ghost use Rattle.specs_world.specs.Dropping.{Rests, ClosesIn, DeletesIn, DeletesAll, MergesIn, DropsComponents};
ghost use Rattle.specs_world.specs.Dropping.{RefusesClosureIn, RefusesDeletion, RefusesMerge};
ghost use Rattle.specs_world.specs.Lending.{LendsIn};
ghost use Rattle.specs_world.specs.Phases.{OpensPhase, ClosesPhase};
ghost use Rattle.specs_entity.specs.PhaseSeats.{view_at};
ghost use Rattle.specs_world.specs.Inserting.{PutsPart, KeepsStorage, RefusesPart, AcceptsPart};

use crate::builder::EntityBuilder;
use crate::bundles::WriteStorage;
use crate::deleting::{
    close_registered, drop_registered, kill_living, kill_registered, merge_registered,
};
use crate::held::Held;
use crate::inserting::{lives, put_part, refusal_of};
use crate::registering::{enter_there, put_and_enter, register_default};
use crate::registrable::Registrable;
use crate::taking::{put_in, take_out};
use shred_world::{MetaTable, Resource, SystemData, World};
use specs_entity::{CreateIter, EntitiesRes, Entity, Error, PhaseSeat, SeatsOut};
use specs_layouts::{AnyStorage, Component, MaskedStorage, TryDefault, UnprotectedStorage};
use specs_storage::LentStorage;
use std::alloc::Global;
use std::marker::PhantomData;

/// The calls of a world of entities: a world of resources that holds the entities, a table of registered kinds, and a storage
/// for each of these.
pub trait WorldExt<V: AnyStorage + Drop>: Sized
where
    EntitiesRes: Resource<V>,
    MetaTable: Resource<V>,
{
    ghost use Rattle.std.specs.Prelude.{ℕ, List};
    ghost use Rattle.shred_world.specs.Worlds.{Slots};
    ghost use Rattle.specs_entity.specs.Births.{Births};
    ghost use Rattle.specs_world.specs.Resources.{Place};

    /// The world, as a finite map from ids to slots.
    ghost slots: { Self → Slots V };

    /// Where the entities stand.
    ghost entities_at: { Place V Births };

    /// Where the table of registered kinds stands.
    ghost table_at: { Place V (List ℕ) };

    /// A world without entities in which no kind is registered.
    ///
    /// Errors: `Memory`.
    fn new(alloc: Global) -> Result<Self, Error>
        ensures ok { IfOk result (λ one. slots one ≡ map.insert
            (map.insert map.empty entities_at.id (Some (entities_at.wrapped (none_born 16777216 2147483647))))
            table_at.id (Some (table_at.wrapped []))) }
        ensures memory { IfErr result (λ error. error ≡ refusal.Memory) };

    /// Registers a kind of parts whose layout always has a default, by `register_with_storage`.
    ///
    /// Errors: those of `register_with_storage`.
    fn register<T: Registrable<V>>(&mut self) -> Result<(), Error>
    where
        MaskedStorage<T>: Resource<V>,
        requires default { T.Storage.TryDefault.always ≡ true }
        ensures ok { OnOk result (Registers table_at
            ⟦<MaskedStorage<T> as Held<V>>⟧.stands_at
            (IsNew T.Storage.TryDefault.is_default T.Storage.part_at) (slots self.old) (slots self.new)) }
        ensures err { OnErr result (slots self.new ≡ slots self.old) }
        ensures not_registered { IsErrOf result refusal.NotRegistered ↔ (held table_at (slots self.old) ≡ None) }
        ensures refused { IfErr result (λ error. (error ≡ refusal.NotRegistered) ⊎ (error ≡ refusal.Memory)) };

    /// Registers a kind of parts: a storage of it, made by `make` where the world holds none, is in the world and in its table of kinds.
    ///
    /// Of a kind that is registered nothing changes. One that is registered late has no part, whatever entities were made before.
    ///
    /// Errors: `NotRegistered`, exactly where the world has no table of kinds; `Memory`. Both leave the world as it was.
    fn register_with_storage<T: Registrable<V>, F: FnOnce() -> T::Storage + Drop>(
        &mut self,
        make: F,
    ) -> Result<(), Error>
    where
        MaskedStorage<T>: Resource<V>,
        requires callable { F.IsAlwaysCallable make }
        requires empty { (layout : T.Storage) → F.post make layout → HasNone (T.Storage.part_at layout) }
        ensures ok { OnOk result (Registers table_at
            ⟦<MaskedStorage<T> as Held<V>>⟧.stands_at
            (IsNew (F.post make) T.Storage.part_at) (slots self.old) (slots self.new)) }
        ensures err { OnErr result (slots self.new ≡ slots self.old) }
        ensures not_registered { IsErrOf result refusal.NotRegistered ↔ (held table_at (slots self.old) ≡ None) }
        ensures refused { IfErr result (λ error. (error ≡ refusal.NotRegistered) ⊎ (error ≡ refusal.Memory)) };

    /// Whether an entity is alive and its birth persistent: false of one that `EntitiesRes::create` made since the last merge, and
    /// of all where the world has no entities.
    fn is_alive(&self, entity: Entity) -> bool
        ensures { IsTrue result ↔ IsPersistent (held entities_at (slots self.now)) entity };

    /// Brings the next entity to life, and answers it. Its birth is persistent at once.
    ///
    /// Errors: those of `EntitiesRes::allocate`; `NotRegistered`, where the world has no entities. All leave the world as it was.
    fn allocate(&mut self) -> Result<Entity, Error>
        ensures ok { IfOk result (λ entity. Allocates entities_at entity (slots self.old) (slots self.new)) }
        ensures range { IfOk result (λ entity. entity.id < 16777216) }
        ensures refused { IfErr result (RefusesBirthIn (held entities_at (slots self.old))) }
        ensures err { OnErr result (slots self.new ≡ slots self.old) };

    /// Brings so many entities to life, or none, and answers them to be walked in the order of their births, which are persistent at once.
    ///
    /// Errors: those of `EntitiesRes::allocate_iter`; `NotRegistered`, where the world has no entities. All leave the world as it was.
    fn create_iter(&mut self, count: usize) -> Result<CreateIter, Error>
        ensures ok { IfOk result (λ entities. AllocatesAll entities_at count entities
            (slots self.old) (slots self.new)) }
        ensures refused { IfErr result (RefusesBirthsIn count (held entities_at (slots self.old))) }
        ensures err { OnErr result (slots self.new ≡ slots self.old) };

    /// Brings the next entity to life, as `allocate` does, and answers it as one that is being built.
    ///
    /// Errors: those of `allocate`, and the world is as it was.
    fn create_entity(&mut self) -> Result<EntityBuilder<'_, V, Self>, Error>
        ensures* rests { sem 𝓛 (RestsIfErr Self.row self.entry (λ builder. builder.world.ghost_name) result
            (λ after. slots after ≡ slots self.entry.now)) }
        ensures ok { IfOk result (λ builder. Allocates entities_at builder.entity (slots self.old)
            (slots builder.world.now)) }
        ensures range { IfOk result (λ builder. builder.entity.id < 16777216) }
        ensures same_reference { IfOk result (λ builder. builder.world.ghost_name ≡ self.entry.ghost_name) }
        ensures refused { IfErr result (RefusesBirthIn (held entities_at (slots self.old))) };

    /// Accepts the deletion of an entity that is alive, which comes true at the next merge; of another nothing changes.
    fn delete_later(&mut self, entity: Entity)
        ensures { DeletesLater entities_at entity (slots self.old) (slots self.new) };

    /// Puts `part` at an entity, and answers the part that it had.
    ///
    /// A storage that emits writes `Modified` where a part was, else `Inserted`.
    ///
    /// Errors: `NotRegistered`, where the world has no storage of the kind, or no entities; `WrongGeneration`, with the generation
    /// of the entity that `EntitiesRes::entity` gives for the index, if the entity isn't alive; `Memory`. All hand `part` back, and
    /// each index has the part that it had.
    fn insert_part<T: Component>(
        &mut self,
        entity: Entity,
        part: T,
    ) -> Result<Option<T>, (Error, T)>
    where
        MaskedStorage<T>: Resource<V>,
        ensures ok { IfOk result (λ had. PutsPart
            ⟦<MaskedStorage<T> as Held<V>>⟧.stands_at
            T.Storage.part_at T.Storage.events T.Storage.emits entity part had
            (held entities_at (slots self.old)) (slots self.old) (slots self.new)) }
        ensures err { OnErr result (KeepsStorage
            ⟦<MaskedStorage<T> as Held<V>>⟧.stands_at
            T.Storage.part_at T.Storage.events T.Storage.emits (slots self.old) (slots self.new)) }
        ensures handed_back { IfErr result (λ refused. refused.1 ≡ part) }
        ensures refused { IfErr result (λ refused. RefusesPart (held entities_at (slots self.old))
            (held ⟦<MaskedStorage<T> as Held<V>>⟧.stands_at (slots self.old))
            entity refused.0) }
        ensures succeeds { AcceptsPart T.Storage.part_at T.Storage.emits (held entities_at (slots self.old))
            (held ⟦<MaskedStorage<T> as Held<V>>⟧.stands_at (slots self.old)) entity → IsOk result };

    /// Lets an entity die, with its parts in each registered storage: `delete_entities` of it alone.
    ///
    /// Errors: those of `delete_entities`.
    fn delete_entity(&mut self, entity: Entity) -> Result<(), Error>
        ensures ok { OnOk result (DeletesIn entities_at table_at V.drops (entity ∷ [])
            (slots self.old) (slots self.new)) }
        ensures rests { OnErr result (Rests V.drops (slots self.old) (slots self.new)) }
        ensures refused { IfErr result (RefusesDeletion entities_at table_at (entity ∷ []) (slots self.old)) };

    /// Lets all entities of a list die at once, with their parts in each registered storage.
    ///
    /// All are tested first, and room is made in every storage before the first change.
    ///
    /// Errors: `NotRegistered`, where the world has no entities or no table of kinds; `WrongGeneration` with the first entity of the
    /// list that isn't alive or stands in it before; `Memory`. All leave parts and births as they were; storages may have more room.
    fn delete_entities(&mut self, entities: &[Entity]) -> Result<(), Error>
        ensures ok { OnOk result (DeletesIn entities_at table_at V.drops entities.now
            (slots self.old) (slots self.new)) }
        ensures rests { OnErr result (Rests V.drops (slots self.old) (slots self.new)) }
        ensures refused { IfErr result (RefusesDeletion entities_at table_at entities.now (slots self.old)) };

    /// Lets all entities die that live, fresh ones too, with their parts in each registered storage: `delete_entities` of their list.
    ///
    /// Errors: `NotRegistered`, exactly where the world has no entities or no table of kinds; `Memory`. Both leave parts and births
    /// as they were; storages may have more room.
    fn delete_all(&mut self) -> Result<(), Error>
        ensures ok { OnOk result (DeletesAll entities_at table_at V.drops (slots self.old) (slots self.new)) }
        ensures rests { OnErr result (Rests V.drops (slots self.old) (slots self.new)) }
        ensures refused { IfErr result (RefusesMerge entities_at table_at (slots self.old)) };

    /// Lets the entities die that fall with some roots, with their parts in each registered storage, and answers them, ascending by
    /// index: the least set of living entities that has the roots and, with each target, its living holders. Each pair is a holder
    /// and its target; one with an end that isn't alive, by index and generation, counts for nothing.
    ///
    /// It costs a look at each pair and what `delete_entities` of the answer costs.
    ///
    /// Errors: `NotRegistered`, where the world has no entities or no table of kinds; `WrongGeneration` with the first root that isn't
    /// alive; `Memory`. All leave parts and births as they were; storages may have more room.
    fn delete_closure(
        &mut self,
        roots: &[Entity],
        pairs: &[(Entity, Entity)],
    ) -> Result<Vec<Entity>, Error>
        ensures ok { IfOk result (λ entities. ClosesIn entities_at table_at V.drops roots.now pairs.now entities.items
            (slots self.old) (slots self.new)) }
        ensures rests { OnErr result (Rests V.drops (slots self.old) (slots self.new)) }
        ensures refused { IfErr result (RefusesClosureIn entities_at table_at roots.now (slots self.old)) };

    /// Makes fresh births persistent, lets the entities die whose deletion was accepted, with their parts in each registered storage,
    /// and answers these, ascending by index. Room is made in every storage before the first change.
    ///
    /// Errors: `NotRegistered`, exactly where the world has no entities or no table of kinds; `Memory`. Both leave parts and births
    /// as they were; storages may have more room.
    fn merge(&mut self) -> Result<Vec<Entity>, Error>
        ensures ok { IfOk result (λ deleted. MergesIn entities_at table_at V.drops deleted.items
            (slots self.old) (slots self.new)) }
        ensures rests { OnErr result (Rests V.drops (slots self.old) (slots self.new)) }
        ensures refused { IfErr result (RefusesMerge entities_at table_at (slots self.old)) };

    /// The entities.
    ///
    /// Errors: `NotRegistered`, exactly where the world has none.
    fn entities(&self) -> Result<&EntitiesRes, Error>
        ensures ok { IfOk result (λ entities. held entities_at (slots self.now) ≡ Some entities.now) }
        ensures named { IfErr result (λ error. error ≡ refusal.NotRegistered) }
        ensures not_registered { OnErr result (held entities_at (slots self.now) ≡ None) };

    /// Takes the entities out of the world and shares them, as `EntitiesRes::open_phase` does. The seat and those split off from
    /// it create and delete, each in a system of its own, until `close_phase` brings the entities back; for the while the world has
    /// none, and their slot stays.
    ///
    /// Errors: `NotRegistered`, where the world has no entities; those of `EntitiesRes::open_phase`. All leave the world as it was.
    fn open_phase(&mut self, reserve: u32) -> Result<PhaseSeat, Error>
        ensures ok { IfOk result (λ seat. OpensPhase entities_at reserve seat (slots self.old) (slots self.new)) }
        ensures refused { IfErr result (RefusesBirthsIn reserve (held entities_at (slots self.old))) }
        ensures err { OnErr result (slots self.new ≡ slots self.old) };

    /// Ends a phase: what its entities settle to, by `PhaseSeat::settle`, is put into the slot that `open_phase` left. Births are
    /// fresh and deletions accepted until the next merge, as those of `EntitiesRes::create` and `delete` are. Takes no memory.
    ///
    /// Errors: `SeatsOut`, that of `settle`: the seat comes back, and the world is as it was.
    fn close_phase(&mut self, seat: PhaseSeat) -> Result<(), (SeatsOut, PhaseSeat)>
        requires is_out { map.get (slots self.old) entities_at.id ≡ Some None }
        ensures ok { OnOk result (ClosesPhase entities_at seat (slots self.old) (slots self.new)) }
        ensures all { OnOk result ((view_at seat).parts ≡ 65536) }
        ensures err { OnErr result (slots self.new ≡ slots self.old) }
        ensures handed_back { IfErr result (λ refused. refused.1 ≡ seat) };

    /// The parts of one kind, lent for reading together with the entities.
    ///
    /// Errors: `NotRegistered`, exactly where the world has no storage of the kind, or no entities.
    fn read_storage<'w, T: Component + 'w>(&'w self) -> Result<LentStorage<'w, T>, Error>
    where
        MaskedStorage<T>: Resource<V>,
        T::Storage: 'w,
        ensures entities { IfOk result (λ storage. held entities_at (slots self.now) ≡ Some storage.entities.now) }
        ensures parts { IfOk result (λ storage. held ⟦<MaskedStorage<T> as Held<V>>⟧.stands_at (slots self.now)
            ≡ Some storage.store.now) }
        ensures named { IfErr result (λ error. error ≡ refusal.NotRegistered) }
        ensures not_registered { OnErr result ((held entities_at (slots self.now) ≡ None)
            ⊎ (held ⟦<MaskedStorage<T> as Held<V>>⟧.stands_at (slots self.now) ≡ None)) };

    /// The same as `read_storage`.
    ///
    /// Errors: those of `read_storage`.
    final fn read_component<'w, T: Component + 'w>(&'w self) -> Result<LentStorage<'w, T>, Error>
    where
        MaskedStorage<T>: Resource<V>,
        T::Storage: 'w,
        ensures entities { IfOk result (λ storage. held entities_at (slots self.now) ≡ Some storage.entities.now) }
        ensures parts { IfOk result (λ storage. held ⟦<MaskedStorage<T> as Held<V>>⟧.stands_at (slots self.now)
            ≡ Some storage.store.now) }
        ensures named { IfErr result (λ error. error ≡ refusal.NotRegistered) }
        ensures not_registered { OnErr result ((held entities_at (slots self.now) ≡ None)
            ⊎ (held ⟦<MaskedStorage<T> as Held<V>>⟧.stands_at (slots self.now) ≡ None)) }
    {
        self.read_storage::<T>()
    }

    /// The parts of one kind, taken out of the world for writing: `SystemData::give_back` puts them in again. Until then the slot
    /// is there without them. Takes no memory.
    ///
    /// Errors: `NotRegistered`, exactly where the world has no storage of the kind, and the world is as it was.
    fn write_storage<T: Registrable<V>>(&mut self) -> Result<WriteStorage<T>, Error>
    where
        MaskedStorage<T>: Resource<V>,
        ensures parts { IfOk result (λ bundle. held ⟦<MaskedStorage<T> as Held<V>>⟧.stands_at (slots self.old)
            ≡ Some bundle.parts.value) }
        ensures out { OnOk result (IsTakenOut ⟦<MaskedStorage<T> as Held<V>>⟧.stands_at.id
            (slots self.old) (slots self.new)) }
        ensures named { IfErr result (λ error. error ≡ refusal.NotRegistered) }
        ensures not_registered { OnErr result (held ⟦<MaskedStorage<T> as Held<V>>⟧.stands_at (slots self.old) ≡ None) }
        ensures err { OnErr result (slots self.new ≡ slots self.old) };

    /// The same as `write_storage`.
    ///
    /// Errors: those of `write_storage`.
    final fn write_component<T: Registrable<V>>(&mut self) -> Result<WriteStorage<T>, Error>
    where
        MaskedStorage<T>: Resource<V>,
        ensures parts { IfOk result (λ bundle. held ⟦<MaskedStorage<T> as Held<V>>⟧.stands_at (slots self.old)
            ≡ Some bundle.parts.value) }
        ensures out { OnOk result (IsTakenOut ⟦<MaskedStorage<T> as Held<V>>⟧.stands_at.id
            (slots self.old) (slots self.new)) }
        ensures named { IfErr result (λ error. error ≡ refusal.NotRegistered) }
        ensures not_registered { OnErr result (held ⟦<MaskedStorage<T> as Held<V>>⟧.stands_at (slots self.old) ≡ None) }
        ensures err { OnErr result (slots self.new ≡ slots self.old) }
    {
        self.write_storage::<T>()
    }

    /// The resource under its type's id.
    ///
    /// Errors: `NotRegistered`, exactly where the world has none.
    fn read_resource<R: Resource<V>>(&self) -> Result<&R, Error>
        ensures ok { IfOk result (λ resource. held ⟦<R as Held<V>>⟧.stands_at (slots self.now) ≡ Some resource.now) }
        ensures named { IfErr result (λ error. error ≡ refusal.NotRegistered) }
        ensures not_registered { OnErr result (held ⟦<R as Held<V>>⟧.stands_at (slots self.now) ≡ None) };

    /// The resource under its type's id, for writing.
    ///
    /// Errors: `NotRegistered`, exactly where the world has none.
    fn write_resource<R: Resource<V>>(&mut self) -> Result<&mut R, Error>
        ensures* writes_back { sem 𝓛 (LendsIn Self.row R.row slots ⟦<R as Held<V>>⟧.stands_at.wrapped self.entry
            ⟦<R as Held<V>>⟧.stands_at.id result) }
        ensures ok { IfOk result (λ resource. held ⟦<R as Held<V>>⟧.stands_at (slots self.old) ≡ Some resource.now) }
        ensures named { IfErr result (λ error. error ≡ refusal.NotRegistered) }
        ensures not_registered { OnErr result (held ⟦<R as Held<V>>⟧.stands_at (slots self.old) ≡ None) };

    /// Drops the parts at the indices of entities from each registered storage, whether they are alive or not.
    ///
    /// Errors: `NotRegistered`, where the world has no table of kinds; `Memory`. Both leave all parts as they were; storages may have more room.
    fn delete_components(&mut self, entities: &[Entity]) -> Result<(), Error>
        ensures ok { OnOk result (DropsComponents table_at V.drops entities.now (slots self.old) (slots self.new)) }
        ensures rests { OnErr result (Rests V.drops (slots self.old) (slots self.new)) }
        ensures not_registered { IsErrOf result refusal.NotRegistered ↔ (held table_at (slots self.old) ≡ None) }
        ensures refused { IfErr result (λ error. (error ≡ refusal.NotRegistered) ⊎ (error ≡ refusal.Memory)) };
}

impl<V: AnyStorage + Drop> WorldExt<V> for World<V>
where
    EntitiesRes: Resource<V>,
    MetaTable: Resource<V>,
{
    ghost slots = { λ w. w };

    ghost entities_at = { ⟦<EntitiesRes as Held<V>>⟧.stands_at };

    ghost table_at = { ⟦<MetaTable as Held<V>>⟧.stands_at };

    fn new(alloc: Global) -> Result<World<V>, Error> {
        let mut world = World::empty(alloc);
        if world.insert(EntitiesRes::new(alloc)).is_err() {
            return Err(Error::Memory);
        }
        if world.insert(MetaTable::new(alloc)).is_err() {
            return Err(Error::Memory);
        }
        Ok(world)
    }

    fn register<T: Registrable<V>>(&mut self) -> Result<(), Error>
    where
        MaskedStorage<T>: Resource<V>,
    {
        if self.try_fetch::<MetaTable>().is_none() {
            return Err(Error::NotRegistered);
        }
        register_default::<V, T>(self)?;
        Ok(())
    }

    fn register_with_storage<T: Registrable<V>, F: FnOnce() -> T::Storage + Drop>(
        &mut self,
        make: F,
    ) -> Result<(), Error>
    where
        MaskedStorage<T>: Resource<V>,
    {
        if self.try_fetch::<MetaTable>().is_none() {
            return Err(Error::NotRegistered);
        }
        if self.has_value::<MaskedStorage<T>>() {
            return enter_there::<V, MaskedStorage<T>>(self);
        }
        let alloc = self.alloc();
        put_and_enter::<V, T>(self, alloc, make())?;
        Ok(())
    }

    fn is_alive(&self, entity: Entity) -> bool {
        match self.try_fetch::<EntitiesRes>() {
            Some(entities) => {
                entities.generation(entity.id()) == Some(entity.generation())
                    && entity.generation().is_alive()
            }
            None => false,
        }
    }

    fn allocate(&mut self) -> Result<Entity, Error> {
        match self.get_mut::<EntitiesRes>() {
            Some(entities) => match entities.allocate() {
                Ok(entity) => Ok(entity),
                Err(error) => Err(error),
            },
            None => Err(Error::NotRegistered),
        }
    }

    fn create_iter(&mut self, count: usize) -> Result<CreateIter, Error> {
        match self.get_mut::<EntitiesRes>() {
            Some(entities) => match entities.allocate_iter(count) {
                Ok(entities) => Ok(entities),
                Err(error) => Err(error),
            },
            None => Err(Error::NotRegistered),
        }
    }

    fn create_entity(&mut self) -> Result<EntityBuilder<'_, V, World<V>>, Error> {
        let entity = self.allocate()?;
        Ok(EntityBuilder {
            entity,
            world: self,
            values: PhantomData,
        })
    }

    fn delete_later(&mut self, entity: Entity) {
        if let Some(entities) = self.get_mut::<EntitiesRes>() {
            let _ = entities.delete(entity);
        }
    }

    fn insert_part<T: Component>(
        &mut self,
        entity: Entity,
        part: T,
    ) -> Result<Option<T>, (Error, T)>
    where
        MaskedStorage<T>: Resource<V>,
    {
        if lives(self, entity) {
            put_part::<V, T>(self, entity.id(), part)
        } else {
            Err((refusal_of::<V, T>(self, entity), part))
        }
    }

    fn delete_entity(&mut self, entity: Entity) -> Result<(), Error> {
        self.delete_entities(&[entity])
    }

    fn delete_entities(&mut self, entities: &[Entity]) -> Result<(), Error> {
        let Some(mut births) = take_out::<V, EntitiesRes>(self) else {
            return Err(Error::NotRegistered);
        };
        let result = kill_registered(self, &mut births, entities);
        put_in(self, births);
        result
    }

    fn delete_all(&mut self) -> Result<(), Error> {
        let Some(mut births) = take_out::<V, EntitiesRes>(self) else {
            return Err(Error::NotRegistered);
        };
        let result = kill_living(self, &mut births);
        put_in(self, births);
        result
    }

    fn delete_closure(
        &mut self,
        roots: &[Entity],
        pairs: &[(Entity, Entity)],
    ) -> Result<Vec<Entity>, Error> {
        let Some(mut births) = take_out::<V, EntitiesRes>(self) else {
            return Err(Error::NotRegistered);
        };
        let result = close_registered(self, &mut births, roots, pairs);
        put_in(self, births);
        result
    }

    fn merge(&mut self) -> Result<Vec<Entity>, Error> {
        let Some(mut births) = take_out::<V, EntitiesRes>(self) else {
            return Err(Error::NotRegistered);
        };
        let result = merge_registered(self, &mut births);
        put_in(self, births);
        result
    }

    fn entities(&self) -> Result<&EntitiesRes, Error> {
        match self.try_fetch::<EntitiesRes>() {
            Some(entities) => Ok(entities),
            None => Err(Error::NotRegistered),
        }
    }

    fn open_phase(&mut self, reserve: u32) -> Result<PhaseSeat, Error> {
        let Some(entities) = take_out::<V, EntitiesRes>(self) else {
            return Err(Error::NotRegistered);
        };
        match entities.open_phase(reserve) {
            Ok(seat) => Ok(seat),
            Err((error, entities)) => {
                put_in(self, entities);
                Err(error)
            }
        }
    }

    fn close_phase(&mut self, seat: PhaseSeat) -> Result<(), (SeatsOut, PhaseSeat)> {
        let entities = seat.settle()?;
        put_in(self, entities);
        Ok(())
    }

    fn read_storage<'w, T: Component + 'w>(&'w self) -> Result<LentStorage<'w, T>, Error>
    where
        MaskedStorage<T>: Resource<V>,
        T::Storage: 'w,
    {
        let Some(entities) = self.try_fetch::<EntitiesRes>() else {
            return Err(Error::NotRegistered);
        };
        match self.try_fetch::<MaskedStorage<T>>() {
            Some(parts) => Ok(LentStorage::new(entities, parts)),
            None => Err(Error::NotRegistered),
        }
    }

    fn write_storage<T: Registrable<V>>(&mut self) -> Result<WriteStorage<T>, Error>
    where
        MaskedStorage<T>: Resource<V>,
    {
        match <WriteStorage<T> as SystemData<V>>::fetch(self) {
            Ok(bundle) => Ok(bundle),
            Err(_) => Err(Error::NotRegistered),
        }
    }

    fn read_resource<R: Resource<V>>(&self) -> Result<&R, Error> {
        match self.try_fetch::<R>() {
            Some(resource) => Ok(resource),
            None => Err(Error::NotRegistered),
        }
    }

    fn write_resource<R: Resource<V>>(&mut self) -> Result<&mut R, Error> {
        match self.get_mut::<R>() {
            Some(resource) => Ok(resource),
            None => Err(Error::NotRegistered),
        }
    }

    fn delete_components(&mut self, entities: &[Entity]) -> Result<(), Error> {
        drop_registered(self, entities)
    }
}
