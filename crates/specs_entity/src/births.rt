//! Births and deaths, one at a time.
ghost use Rattle.std.specs.Prelude.{◌≡◌, ◌≢◌, ℕ, ◌+◌, ◌<◌, ◌≤◌, ◌↔◌, IsOk, OnOk, OnErr, IfOk, IfErr, IsErrOf, None};
ghost use Rattle.std.specs.Prelude.{Some, [], length, true};
ghost use Rattle.std.specs.FinSet as set;

use crate::entities_res::EntitiesRes;
use crate::errors::{Error, WrongGeneration};
use crate::ids::{Entity, Generation};
use crate::parts::{following, number};
use hibitset::Index;
use std::alloc::AllocError;

/// Room is made for twice as many indices at first.
const FIRST_ROOM: usize = 32;

impl EntitiesRes {
    ghost use Rattle.specs_entity.specs.Births.{IsBorn, Continues, newborn, next_index, IndicesAreSpent};
    ghost use Rattle.specs_entity.specs.Births.{GenerationsAreSpent, RefusesBirth, with_next_taken, allocated};
    ghost use Rattle.specs_entity.specs.Births.{created, deleted, buried, settled, living, IsAlive};
    ghost use Rattle.specs_entity.specs.Births.{wrong_generation, number_of, persistent_at, LivesOn, BringsToLife};
    ghost use Rattle.specs_entity.specs.Layout.{IsFree};
    ghost use Rattle.specs_entity.specs.declared.errors.Error.TheVariants as refusal;

    /// Brings the next entity to life, and answers it. Its birth is persistent at once.
    ///
    /// It gets the index that was put into the cache last, else the next one that was never used.
    ///
    /// Errors: `IndicesSpent` if neither is left, `GenerationsSpent` if that index has had as many
    /// entities as it may have, which leaves it the next, and `Memory`, which is wanted only for an
    /// index that was never used. All leave the entities as they were.
    pub fn allocate(&mut self) -> Result<Entity, Error>
        ensures value { IfOk result (λ entity. entity ≡ newborn self.old) }
        ensures range { IfOk result (λ entity. entity.id < 16777216) }
        ensures ok { OnOk result (self.new ≡ allocated self.old) }
        ensures new { IfOk result (λ entity. ¬ (IsBorn self.old entity)) }
        ensures alive { IfOk result (IsAlive self.new) }
        ensures lives { IfOk result (λ entity. BringsToLife self.old entity self.new) }
        ensures live_on { OnOk result (LivesOn self.old self.new) }
        ensures continues { OnOk result (Continues self.old self.new) }
        ensures refused { IfErr result (RefusesBirth self.old) }
        ensures indices_spent { IsErrOf result refusal.IndicesSpent ↔ IndicesAreSpent self.old }
        ensures generations_spent { IsErrOf result refusal.GenerationsSpent ↔ GenerationsAreSpent self.old }
        ensures err { OnErr result (self.new ≡ self.old) }
    {
        let entity = self.next_entity()?;
        self.take_next()?;
        self.generations[entity.id as usize] = Some(entity.generation);
        let _ = self.alive.add(entity.id);
        Ok(entity)
    }

    /// Brings the next entity to life, and answers it. It is alive at once, and its birth is
    /// persistent after the next merge.
    ///
    /// Index and errors are those of `allocate`.
    pub fn create(&mut self) -> Result<Entity, Error>
        ensures value { IfOk result (λ entity. entity ≡ newborn self.old) }
        ensures range { IfOk result (λ entity. entity.id < 16777216) }
        ensures ok { OnOk result (self.new ≡ created self.old) }
        ensures new { IfOk result (λ entity. ¬ (IsBorn self.old entity)) }
        ensures alive { IfOk result (IsAlive self.new) }
        ensures lives { IfOk result (λ entity. BringsToLife self.old entity self.new) }
        ensures live_on { OnOk result (LivesOn self.old self.new) }
        ensures continues { OnOk result (Continues self.old self.new) }
        ensures refused { IfErr result (RefusesBirth self.old) }
        ensures indices_spent { IsErrOf result refusal.IndicesSpent ↔ IndicesAreSpent self.old }
        ensures generations_spent { IsErrOf result refusal.GenerationsSpent ↔ GenerationsAreSpent self.old }
        ensures err { OnErr result (self.new ≡ self.old) }
    {
        let entity = self.next_entity()?;
        self.take_next()?;
        let _ = self.raised.add(entity.id);
        let _ = self.alive.add(entity.id);
        Ok(entity)
    }

    /// The entity that is born next.
    fn next_entity(&self) -> Result<Entity, Error>
        ensures ok { IfOk result (λ entity. entity ≡ newborn self.now) }
        ensures indices_spent { IsErrOf result refusal.IndicesSpent ↔ IndicesAreSpent self.now }
        ensures generations_spent { IsErrOf result refusal.GenerationsSpent ↔ GenerationsAreSpent self.now }
        ensures refused { IfErr result (RefusesBirth self.now) }
        ensures left { OnOk result (IndicesAreSpent self.now → ⊥) }
        ensures room { OnOk result (number_of (persistent_at self.now (next_index self.now)) < self.now.generations) }
        ensures range { IfOk result (λ entity. entity.id < 16777216) }
        ensures lives { OnOk result (IsAlive (created self.now) (newborn self.now)) }
        ensures brings { OnOk result (BringsToLife self.now (newborn self.now) (created self.now)) }
        ensures live_on { OnOk result (LivesOn self.now (created self.now)) }
        ensures continues { OnOk result (Continues self.now (created self.now)) }
    {
        let used = self.generations.len() as Index;
        let id = match self.cache.last() {
            Some(id) => *id,
            None if used < self.indices => used,
            None => return Err(Error::IndicesSpent),
        };
        if number(self.generation(id)) >= self.highest {
            return Err(Error::GenerationsSpent);
        }
        Ok(Entity::new(id, following(self.generation(id))))
    }

    /// Takes the next index out of the cache, or into use.
    fn take_next(&mut self) -> Result<(), AllocError>
        requires { IndicesAreSpent self.old → ⊥ }
        ensures ok { OnOk result (self.new ≡ with_next_taken self.old) }
        ensures free { OnOk result (IsFree self.new (next_index self.old)) }
        ensures same { OnOk result (persistent_at self.new (next_index self.old)
            ≡ persistent_at self.old (next_index self.old)) }
        ensures succeeds { self.old.cache ≢ [] → IsOk result }
        ensures err { OnErr result (self.new ≡ self.old) }
    {
        if self.cache.pop().is_some() {
            return Ok(());
        }
        if self.generations.len() < self.room as usize {
            let _ = self.generations.push(None);
            return Ok(());
        }
        self.grow()
    }

    /// Takes an index into use that there is no room for. Room is made for twice as many as are in use.
    #[cold]
    fn grow(&mut self) -> Result<(), AllocError>
        requires empty { self.old.cache ≡ [] }
        requires left { length self.old.persistent < self.old.indices }
        ensures ok { OnOk result (self.new ≡ with_next_taken self.old) }
        ensures err { OnErr result (self.new ≡ self.old) }
    {
        let used = self.generations.len();
        let wanted = (used.max(FIRST_ROOM) * 2).min(self.indices as usize);
        self.raised.reserve(wanted as Index)?;
        self.killed.reserve(wanted as Index)?;
        self.marked.reserve(wanted as Index)?;
        self.alive.reserve(wanted as Index)?;
        self.cache.reserve(wanted)?;
        self.generations.reserve(wanted - used)?;
        self.room = wanted as Index;
        let _ = self.generations.push(None);
        Ok(())
    }

    /// Takes the deletion of a living entity on: it stays alive until the next merge. Takes no memory.
    ///
    /// Errors: `WrongGeneration` if the entity isn't alive, and nothing changed.
    pub fn delete(&mut self, entity: Entity) -> Result<(), WrongGeneration>
        ensures ok { OnOk result (self.new ≡ deleted self.old entity.id) }
        ensures continues { OnOk result (Continues self.old self.new) }
        ensures succeeds { IsOk result ↔ IsAlive self.old entity }
        ensures wrong_generation { IfErr result (wrong_generation self.old entity) }
        ensures err { OnErr result (self.new ≡ self.old) }
    {
        if !self.is_alive(entity) {
            return Err(self.refusal(entity));
        }
        let _ = self.killed.add(entity.id);
        Ok(())
    }

    /// The refusal that an entity isn't alive.
    pub(crate) fn refusal(&self, entity: Entity) -> WrongGeneration
        ensures { wrong_generation self.now entity result }
    {
        let actual_gen = self.generation(entity.id).unwrap_or(Generation::one());
        WrongGeneration {
            action: "delete",
            actual_gen,
            entity,
        }
    }

    /// Buries an entity that is alive.
    pub(crate) fn bury(&mut self, entity: Entity)
        requires { IsAlive self.old entity }
        ensures value { self.new ≡ buried self.old entity.id }
        ensures continues { Continues self.old self.new }
    {
        self.generations[entity.id as usize] = Some(entity.generation.died());
        let _ = self.raised.remove(entity.id);
        let _ = self.killed.remove(entity.id);
        let _ = self.alive.remove(entity.id);
        let _ = self.cache.push(entity.id);
    }

    /// Makes the fresh birth at an index persistent.
    pub(crate) fn settle(&mut self, id: Index)
        requires { set.contains self.old.fresh id ≡ true }
        ensures value { self.new ≡ settled self.old id }
        ensures lives { (index : ℕ) → living self.new index ≡ living self.old index }
        ensures continues { Continues self.old self.new }
    {
        let last = self.generation(id);
        self.generations[id as usize] = Some(following(last));
        let _ = self.raised.remove(id);
    }
}
