//! Entities in the making.
ghost use Rattle.std.specs.Prelude.{◌≡◌, ◌<◌, IfOk, IfErr, IsErrOf, ◌↔◌};

use crate::entities_res::EntitiesRes;
use crate::errors::Error;
use crate::ids::Entity;

/// An entity that was created and is being built. Dropped without `build` it has its deletion
/// accepted, and is gone at the next merge.
pub struct EntityResBuilder<'a> {
    /// The entity.
    pub entity: Entity,
    /// The entities that it is one of.
    pub entities: &'a mut EntitiesRes,
}

impl<'a> EntityResBuilder<'a> {
    /// Ends the building, and answers the entity.
    pub fn build(self) -> Entity
        ensures value { result ≡ self.entry.entity }
        ensures entities { self.exit.1.0.now ≡ self.entry.entities.now }
    {
        let EntityResBuilder {
            entity: built,
            entities: _,
        } = self;
        built
    }
}

impl Drop for EntityResBuilder<'_> {
    ghost use Rattle.specs_entity.specs.Births.{DeletesIfAlive};

    /// Takes the deletion of the entity on, if it is alive. Takes no memory.
    fn drop(self)
        ensures { DeletesIfAlive self.entry.entities.now self.entry.entity self.exit.1.0.now }
    {
        let entity = self.entity;
        let _ = self.entities.delete(entity);
        let EntityResBuilder {
            entity: _,
            entities: _,
        } = self;
    }
}

impl EntitiesRes {
    ghost use Rattle.std.specs.Borrow.{sem};
    ghost use Rattle.specs_entity.specs.Births.{newborn, created, IsBorn, IsAlive, Continues, IndicesAreSpent};
    ghost use Rattle.specs_entity.specs.Births.{GenerationsAreSpent, RefusesBirth, LivesOn};
    ghost use Rattle.specs_entity.specs.Building.{rests_if_refused};
    ghost use Rattle.specs_entity.specs.declared.errors.Error.TheVariants as refusal;

    /// Creates an entity, and answers it as one that is being built.
    ///
    /// Errors: those of `create`, and the entities are as they were.
    pub fn build_entity(&mut self) -> Result<EntityResBuilder<'_>, Error>
        ensures* rests { sem 𝓛 (rests_if_refused self.entry result) }
        ensures value { IfOk result (λ builder. builder.entity ≡ newborn self.old) }
        ensures range { IfOk result (λ builder. builder.entity.id < 16777216) }
        ensures ok { IfOk result (λ builder. builder.entities.now ≡ created self.old) }
        ensures new { IfOk result (λ builder. ¬ (IsBorn self.old builder.entity)) }
        ensures alive { IfOk result (λ builder. IsAlive builder.entities.now builder.entity) }
        ensures live_on { IfOk result (λ builder. LivesOn self.old builder.entities.now) }
        ensures continues { IfOk result (λ builder. Continues self.old builder.entities.now) }
        ensures same_reference { IfOk result (λ builder. builder.entities.ghost_name ≡ self.entry.ghost_name) }
        ensures refused { IfErr result (RefusesBirth self.old) }
        ensures indices_spent { IsErrOf result refusal.IndicesSpent ↔ IndicesAreSpent self.old }
        ensures generations_spent { IsErrOf result refusal.GenerationsSpent ↔ GenerationsAreSpent self.old }
    {
        let entity = self.create()?;
        Ok(EntityResBuilder {
            entity,
            entities: self,
        })
    }
}
