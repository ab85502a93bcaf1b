//! Entities whose parts wait in a queue.
ghost use Rattle.std.specs.Prelude.{◌≡◌, ◌<◌, ◌↔◌, IfOk, IfErr, OnOk, OnErr, IsErrOf, Some, None};
ghost use Rattle.std.specs.Option.{MatchOption};
ghost use Rattle.std.specs.Borrow.{sem};
ghost use Rattle.specs_entity.specs.Births.{newborn, created, RefusesBirth};
ghost use Rattle.specs_entity.specs.declared.errors.Error.TheVariants as refusal;
ghost use Rattle.specs_world.specs.Queues.{Adds};

use crate::job::Insert;
use crate::lazy::LazyUpdate;
use specs_entity::{EntitiesRes, Entity, Error};
use specs_layouts::Component;

/// An entity that was created, and whose parts are queued: it has them once the world is maintained.
pub struct LazyBuilder<'a, J> {
    /// The entity.
    pub entity: Entity,
    /// The queue in which its parts wait.
    pub lazy: &'a mut LazyUpdate<J>,
}

impl<'a, J> LazyBuilder<'a, J> {
    /// Queues the job that puts `part` at the entity, and answers the builder.
    ///
    /// Errors: `Memory`, which hands builder and `part` back and leaves the queue as it was.
    pub fn with<C: Component>(self, part: C) -> Result<Self, (Error, Self, C)>
    where
        J: From<Insert<C>>,
        ensures entity { IfOk result (λ builder. builder.entity ≡ self.entry.entity) }
        ensures same_reference { IfOk result (λ builder. builder.lazy.ghost_name ≡ self.entry.lazy.ghost_name) }
        ensures ok { IfOk result (λ builder. Adds
            (J.from_gives (record { entity = self.entry.entity; part = part })) self.entry.lazy.now builder.lazy.now) }
        ensures memory { IfErr result (λ refused. refused.0 ≡ refusal.Memory) }
        ensures err { IfErr result (λ refused. refused.1.lazy.now ≡ self.entry.lazy.now) }
        ensures handed_back { IfErr result (λ refused. refused.2 ≡ part) }
        ensures same_entity { IfErr result (λ refused. refused.1.entity ≡ self.entry.entity) }
        ensures same_queue { IfErr result (λ refused. refused.1.lazy.ghost_name ≡ self.entry.lazy.ghost_name) }
    {
        let LazyBuilder { entity, lazy } = self;
        match lazy.insert(entity, part) {
            Ok(()) => Ok(LazyBuilder { entity, lazy }),
            Err(refused) => Err((Error::Memory, LazyBuilder { entity, lazy }, refused.value)),
        }
    }

    /// Queues the job that puts `part` at the entity, as `with` does. The builder stays where it is, so that what the
    /// queue has become is known at each step.
    ///
    /// Errors: `Memory`, which hands `part` back and leaves the queue as it was.
    pub fn put<C: Component>(&mut self, part: C) -> Result<(), (Error, C)>
    where
        J: From<Insert<C>>,
        ensures same_entity { self.new.entity ≡ self.old.entity }
        ensures same_reference { self.new.lazy.ghost_name ≡ self.old.lazy.ghost_name }
        ensures ok { OnOk result (Adds (J.from_gives (record { entity = self.old.entity; part = part }))
            self.old.lazy.now self.new.lazy.now) }
        ensures memory { IfErr result (λ refused. refused.0 ≡ refusal.Memory) }
        ensures err { OnErr result (self.new.lazy.now ≡ self.old.lazy.now) }
        ensures handed_back { IfErr result (λ refused. refused.1 ≡ part) }
    {
        let entity = self.entity;
        match self.lazy.insert(entity, part) {
            Ok(()) => Ok(()),
            Err(refused) => Err((Error::Memory, refused.value)),
        }
    }

    /// Queues the job that puts `part` at the entity, where there is one, and answers the builder.
    ///
    /// Errors: those of `with`.
    pub fn maybe_with<C: Component>(self, part: Option<C>) -> Result<Self, (Error, Self, Option<C>)>
    where
        J: From<Insert<C>>,
        ensures entity { IfOk result (λ builder. builder.entity ≡ self.entry.entity) }
        ensures same_reference { IfOk result (λ builder. builder.lazy.ghost_name ≡ self.entry.lazy.ghost_name) }
        ensures ok { IfOk result (λ builder. MatchOption part
            (builder.lazy.now ≡ self.entry.lazy.now)
            (λ given. Adds (J.from_gives (record { entity = self.entry.entity; part = given }))
            self.entry.lazy.now builder.lazy.now)) }
        ensures memory { IfErr result (λ refused. refused.0 ≡ refusal.Memory) }
        ensures err { IfErr result (λ refused. refused.1.lazy.now ≡ self.entry.lazy.now) }
        ensures handed_back { IfErr result (λ refused. refused.2 ≡ part) }
        ensures same_entity { IfErr result (λ refused. refused.1.entity ≡ self.entry.entity) }
        ensures same_queue { IfErr result (λ refused. refused.1.lazy.ghost_name ≡ self.entry.lazy.ghost_name) }
    {
        match part {
            None => Ok(self),
            Some(part) => match self.with(part) {
                Ok(builder) => Ok(builder),
                Err((error, builder, part)) => Err((error, builder, Some(part))),
            },
        }
    }

    /// Ends the building, and answers the entity.
    pub fn build(self) -> Entity
        ensures value { result ≡ self.entry.entity }
        ensures queue { self.exit.1.0.now ≡ self.entry.lazy.now }
    {
        let LazyBuilder {
            entity: built,
            lazy: _,
        } = self;
        built
    }
}

impl<J> Drop for LazyBuilder<'_, J> {
    /// Ends the building: entity and queue are as they were.
    fn drop(self)
        ensures { self.exit.1.0.now ≡ self.entry.lazy.now }
    {
        let LazyBuilder { entity: _, lazy: _ } = self;
    }
}

impl<J> LazyUpdate<J> {
    ghost use Rattle.specs_world.specs.Building.{rests_if_refused};

    /// Creates an entity, and answers it as one whose parts are queued here.
    ///
    /// Errors: those of `EntitiesRes::create`; entities and queue are as they were.
    pub fn create_entity(&mut self, entities: &mut EntitiesRes) -> Result<LazyBuilder<'_, J>, Error>
        ensures* rests { sem 𝓛 (rests_if_refused J.row self.entry result) }
        ensures queue { IfOk result (λ builder. builder.lazy.now ≡ self.old) }
        ensures same_reference { IfOk result (λ builder. builder.lazy.ghost_name ≡ self.entry.ghost_name) }
        ensures value { IfOk result (λ builder. builder.entity ≡ newborn entities.old) }
        ensures range { IfOk result (λ builder. builder.entity.id < 16777216) }
        ensures ok { OnOk result (entities.new ≡ created entities.old) }
        ensures err { OnErr result (entities.new ≡ entities.old) }
        ensures refused { IfErr result (RefusesBirth entities.old) }
    {
        let entity = entities.create()?;
        Ok(LazyBuilder { entity, lazy: self })
    }
}
