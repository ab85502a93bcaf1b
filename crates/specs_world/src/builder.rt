//! Entities of a world in the making.
ghost use Rattle.std.specs.Prelude.{◌≡◌, IsOk, IfOk, IfErr, OnErr, Option, Some, None};
ghost use Rattle.std.specs.Option.{MatchOption};
ghost use Rattle.specs_world.specs.Resources.{place, held, DeletesLater};
ghost use Rattle.specs_world.specs.Inserting.{PutsPart, KeepsStorage, RefusesPart, AcceptsPart};

use crate::held::Held;
use crate::world_ext::WorldExt;
use shred_world::{MetaTable, Resource};
use specs_entity::{EntitiesRes, Entity, Error};
use specs_layouts::{AnyStorage, Component, MaskedStorage, UnprotectedStorage};
use std::marker::PhantomData;

/// An entity of a world that was created and is being built. Dropped without `build` it has its deletion accepted, and
/// is gone at the next merge.
pub struct EntityBuilder<'a, V: AnyStorage + Drop, W: WorldExt<V>>
where
    EntitiesRes: Resource<V>,
    MetaTable: Resource<V>,
{
    /// The entity.
    pub entity: Entity,
    /// The world that it is in.
    pub world: &'a mut W,
    pub(crate) values: PhantomData<V>,
}

impl<'a, V: AnyStorage + Drop, W: WorldExt<V>> EntityBuilder<'a, V, W>
where
    EntitiesRes: Resource<V>,
    MetaTable: Resource<V>,
{
    /// Puts `part` at the entity, in the place of the one that it has, and answers the builder.
    ///
    /// A storage that emits writes `Modified` where a part was, else `Inserted`.
    ///
    /// Errors: those of `WorldExt::insert_part`. All hand builder and `part` back, and each index has the part that it
    /// had.
    pub fn with<T: Component>(self, part: T) -> Result<Self, (Error, Self, T)>
    where
        MaskedStorage<T>: Resource<V>,
        ensures entity { IfOk result (λ builder. builder.entity ≡ self.entry.entity) }
        ensures same_reference { IfOk result (λ builder. builder.world.ghost_name ≡ self.entry.world.ghost_name) }
        ensures ok { IfOk result (λ builder. (had : Option T) × PutsPart
            ⟦<MaskedStorage<T> as Held<V>>⟧.stands_at
            T.Storage.part_at T.Storage.events T.Storage.emits self.entry.entity part had
            (held W.entities_at (W.slots self.entry.world.now))
            (W.slots self.entry.world.now) (W.slots builder.world.now)) }
        ensures refused { IfErr result (λ refused. RefusesPart (held W.entities_at (W.slots self.entry.world.now))
            (held ⟦<MaskedStorage<T> as Held<V>>⟧.stands_at (W.slots self.entry.world.now))
            self.entry.entity refused.0) }
        ensures err { IfErr result (λ why. KeepsStorage
            ⟦<MaskedStorage<T> as Held<V>>⟧.stands_at
            T.Storage.part_at T.Storage.events T.Storage.emits (W.slots self.entry.world.now)
            (W.slots why.1.world.now)) }
        ensures succeeds { AcceptsPart T.Storage.part_at T.Storage.emits
            (held W.entities_at (W.slots self.entry.world.now))
            (held ⟦<MaskedStorage<T> as Held<V>>⟧.stands_at (W.slots self.entry.world.now))
            self.entry.entity → IsOk result }
        ensures handed_back { IfErr result (λ refused. refused.2 ≡ part) }
        ensures same_entity { IfErr result (λ refused. refused.1.entity ≡ self.entry.entity) }
        ensures same_world { IfErr result (λ refused. refused.1.world.ghost_name ≡ self.entry.world.ghost_name) }
    {
        let EntityBuilder {
            entity,
            world,
            values,
        } = self;
        match world.insert_part(entity, part) {
            Ok(_) => Ok(EntityBuilder {
                entity,
                world,
                values,
            }),
            Err((error, part)) => Err((
                error,
                EntityBuilder {
                    entity,
                    world,
                    values,
                },
                part,
            )),
        }
    }

    /// Puts `part` at the entity, as `with` does, and answers the part that it had. The builder stays where it is, so
    /// that what the world has become is known at each step.
    ///
    /// Errors: those of `WorldExt::insert_part`. All hand `part` back, and each index has the part that it had.
    pub fn put<T: Component>(&mut self, part: T) -> Result<Option<T>, (Error, T)>
    where
        MaskedStorage<T>: Resource<V>,
        ensures same_entity { self.new.entity ≡ self.old.entity }
        ensures same_reference { self.new.world.ghost_name ≡ self.old.world.ghost_name }
        ensures ok { IfOk result (λ had. PutsPart
            ⟦<MaskedStorage<T> as Held<V>>⟧.stands_at
            T.Storage.part_at T.Storage.events T.Storage.emits self.old.entity part had
            (held W.entities_at (W.slots self.old.world.now))
            (W.slots self.old.world.now) (W.slots self.new.world.now)) }
        ensures err { OnErr result (KeepsStorage
            ⟦<MaskedStorage<T> as Held<V>>⟧.stands_at
            T.Storage.part_at T.Storage.events T.Storage.emits (W.slots self.old.world.now)
            (W.slots self.new.world.now)) }
        ensures handed_back { IfErr result (λ refused. refused.1 ≡ part) }
        ensures refused { IfErr result (λ refused. RefusesPart (held W.entities_at (W.slots self.old.world.now))
            (held ⟦<MaskedStorage<T> as Held<V>>⟧.stands_at (W.slots self.old.world.now))
            self.old.entity refused.0) }
        ensures succeeds { AcceptsPart T.Storage.part_at T.Storage.emits
            (held W.entities_at (W.slots self.old.world.now))
            (held ⟦<MaskedStorage<T> as Held<V>>⟧.stands_at (W.slots self.old.world.now))
            self.old.entity → IsOk result }
    {
        let entity = self.entity;
        self.world.insert_part(entity, part)
    }

    /// Puts `part` at the entity, where there is one, and answers the builder.
    ///
    /// Errors: those of `with`.
    pub fn maybe_with<T: Component>(self, part: Option<T>) -> Result<Self, (Error, Self, Option<T>)>
    where
        MaskedStorage<T>: Resource<V>,
        ensures entity { IfOk result (λ builder. builder.entity ≡ self.entry.entity) }
        ensures same_reference { IfOk result (λ builder. builder.world.ghost_name ≡ self.entry.world.ghost_name) }
        ensures ok { IfOk result (λ builder. MatchOption part
            (W.slots builder.world.now ≡ W.slots self.entry.world.now)
            (λ given. (had : Option T) × PutsPart
            ⟦<MaskedStorage<T> as Held<V>>⟧.stands_at
            T.Storage.part_at T.Storage.events T.Storage.emits self.entry.entity given had
            (held W.entities_at (W.slots self.entry.world.now))
            (W.slots self.entry.world.now) (W.slots builder.world.now))) }
        ensures refused { IfErr result (λ refused. RefusesPart (held W.entities_at (W.slots self.entry.world.now))
            (held ⟦<MaskedStorage<T> as Held<V>>⟧.stands_at (W.slots self.entry.world.now))
            self.entry.entity refused.0) }
        ensures err { IfErr result (λ why. KeepsStorage
            ⟦<MaskedStorage<T> as Held<V>>⟧.stands_at
            T.Storage.part_at T.Storage.events T.Storage.emits (W.slots self.entry.world.now)
            (W.slots why.1.world.now)) }
        ensures succeeds { part ≡ None → IsOk result }
        ensures handed_back { IfErr result (λ refused. refused.2 ≡ part) }
        ensures same_entity { IfErr result (λ refused. refused.1.entity ≡ self.entry.entity) }
        ensures same_world { IfErr result (λ refused. refused.1.world.ghost_name ≡ self.entry.world.ghost_name) }
    {
        match part {
            None => Ok(self),
            Some(part) => match self.with(part) {
                Ok(builder) => Ok(builder),
                Err((error, builder, part)) => Err((error, builder, Some(part))),
            },
        }
    }

    /// Ends the building, and answers the entity.
    pub fn build(self) -> Entity
        ensures value { result ≡ self.entry.entity }
        ensures world { self.exit.1.0.now ≡ self.entry.world.now }
    {
        let EntityBuilder {
            entity: built,
            world: _,
            values: _,
        } = self;
        built
    }
}

impl<V: AnyStorage + Drop, W: WorldExt<V>> Drop for EntityBuilder<'_, V, W>
where
    EntitiesRes: Resource<V>,
    MetaTable: Resource<V>,
{
    /// Accepts the deletion of the entity, if it is alive. Takes no memory.
    fn drop(self)
        ensures { DeletesLater W.entities_at self.entry.entity (W.slots self.entry.world.now)
            (W.slots self.exit.1.0.now) }
    {
        let entity = self.entity;
        self.world.delete_later(entity);
        let EntityBuilder {
            entity: _,
            world: _,
            values: _,
        } = self;
    }
}
