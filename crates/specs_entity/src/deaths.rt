//! Deaths: lists of entities that die at once, and merges.
ghost use Rattle.std.specs.Prelude.{◌≡◌, ◌≢◌, ◌==◌, ℕ, ◌+◌, ◌<◌, ◌≤◌, ◌↔◌, IsOk, OnOk, OnErr, IfOk, IfErr, IfSome};
ghost use Rattle.std.specs.Prelude.{IsErrOf, MatchOption, None, Some, [], ◌∷◌, length, true, slice_index_or};
ghost use Rattle.std.specs.List.{list_any};
ghost use Rattle.std.specs.FinSet as set;
ghost use Rattle.hibitset_sets.specs.Walk.{walk};
ghost use Rattle.specs_entity.specs.Births.{living_in, indices_of, AreDead, AreIndicesOf, AreNumbered, CanKill};
ghost use Rattle.specs_entity.specs.Births.{IsFirstFault};

use crate::emptying::Emptying;
use crate::entities_res::EntitiesRes;
use crate::errors::Error;
use crate::ids::{Entity, Generation};
use crate::parts::is_living;
use hibitset::{AtomicBitSet, BitSetLike};
use std::alloc::AllocError;

impl EntitiesRes {
    ghost use Rattle.specs_entity.specs.Births.{Continues, living, all_buried, all_settled, all_deleted, all_living};
    ghost use Rattle.specs_entity.specs.Births.{merged};
    ghost use Rattle.specs_entity.specs.Births.{RefusesKill, LivesBut, is_named};

    /// Lets all entities of a list die, in its order. After its test it takes no memory.
    ///
    /// Their births are persistent, their indices come into the cache in the list's order, and a
    /// deletion that was accepted of one is done with.
    ///
    /// Errors: `WrongGeneration` with the first entity of the list that isn't alive or stands in it
    /// before. Then nothing changed.
    pub fn kill(&mut self, entities: &[Entity]) -> Result<(), Error>
        ensures ok { OnOk result (self.new ≡ all_buried self.old (indices_of entities.now)) }
        ensures lives { OnOk result (LivesBut (is_named entities.now) self.old self.new) }
        ensures continues { OnOk result (Continues self.old self.new) }
        ensures succeeds { IsOk result ↔ CanKill (living self.old) entities.now }
        ensures wrong_generation { IfErr result (RefusesKill self.old entities.now) }
        ensures err { OnErr result (self.new ≡ self.old) }
    {
        match self.test_kill(entities) {
            Ok(()) => {
                self.bury_each(entities);
                Ok(())
            }
            Err(error) => Err(error),
        }
    }

    /// Tests whether all entities of a list can die at once: then `kill` of it isn't refused, and `bury_each` may be
    /// called. Takes no memory.
    ///
    /// Errors: `WrongGeneration` with the first entity of the list that isn't alive or stands in it before.
    pub fn test_kill(&mut self, entities: &[Entity]) -> Result<(), Error>
        ensures same { self.new ≡ self.old }
        ensures succeeds { IsOk result ↔ CanKill (living self.old) entities.now }
        ensures wrong_generation { IfErr result (RefusesKill self.old entities.now) }
    {
        match self.first_fault(entities) {
            None => Ok(()),
            Some(place) => Err(Error::WrongGeneration(self.refusal(entities[place]))),
        }
    }

    /// Lets all entities of a list die that `test_kill` accepted, in its order: what `kill` does after its test. Takes
    /// no memory.
    pub fn bury_each(&mut self, entities: &[Entity])
        requires killable { CanKill (living self.old) entities.now }
        ensures value { self.new ≡ all_buried self.old (indices_of entities.now) }
        ensures lives { LivesBut (is_named entities.now) self.old self.new }
        ensures continues { Continues self.old self.new }
    {
        for entity in entities {
            self.bury(*entity);
        }
    }

    /// The place of the first entity that can't be killed after those before it.
    fn first_fault(&mut self, entities: &[Entity]) -> Option<usize>
        ensures same { self.new ≡ self.old }
        ensures value { MatchOption result (CanKill (living self.old) entities.now)
            (IsFirstFault (living self.old) entities.now) }
    {
        let fault = mark_all(&self.generations, &self.raised, &mut self.marked, entities);
        unmark_all(&mut self.marked, entities);
        fault
    }

    /// The entities that are alive, ascending by index. It costs a walk over them.
    ///
    /// Errors: `AllocError`.
    pub fn living_entities(&self) -> Result<Vec<Entity>, AllocError>
        ensures value { IfOk result (λ entities. entities.items ≡ all_living self.now) }
        ensures killable { IfOk result (λ entities. CanKill (living self.now) entities.items) }
    {
        let mask = self.mask();
        let mut entities = Vec::new(self.alloc);
        for id in mask.iter() {
            entities.push(self.entity(id))?;
        }
        Ok(entities)
    }

    /// How many deletions were accepted that the next merge makes come true. It costs a walk over them.
    pub fn accepted(&self) -> usize
        ensures { result ≡ length (walk (set.contains self.now.deletions)) }
    {
        (&self.killed).iter().count()
    }

    /// Makes the fresh births persistent, then lets the entities die whose deletion was accepted, and
    /// answers these, ascending by index.
    ///
    /// Their indices come into the cache in that order.
    ///
    /// Errors: `AllocError`, and nothing changed.
    pub fn merge(&mut self) -> Result<Vec<Entity>, AllocError>
        ensures value { IfOk result (λ deleted. deleted.items ≡ all_deleted self.old) }
        ensures named { IfOk result (λ deleted. (index : ℕ) → is_named deleted.items index
            ≡ set.contains self.old.deletions index) }
        ensures ok { OnOk result (self.new ≡ merged self.old) }
        ensures lives { OnOk result (LivesBut (set.contains self.old.deletions) self.old self.new) }
        ensures done { OnOk result (self.new.deletions ≡ set.empty) }
        ensures continues { OnOk result (Continues self.old self.new) }
        ensures err { OnErr result (self.new ≡ self.old) }
    {
        let deleted = self.deleted()?;
        self.settle_all();
        self.bury_each(&deleted);
        Ok(deleted)
    }

    /// The entities whose deletion was accepted, ascending by index.
    fn deleted(&self) -> Result<Vec<Entity>, AllocError>
        ensures killable { IfOk result (λ deleted. CanKill (living self.now) deleted.items) }
        ensures value { IfOk result (λ deleted. deleted.items ≡ all_deleted self.now) }
        ensures named { IfOk result (λ deleted. (index : ℕ) → is_named deleted.items index
            ≡ set.contains self.now.deletions index) }
    {
        let mut deleted = Vec::new(self.alloc);
        for id in (&self.killed).iter() {
            deleted.push(self.entity(id))?;
        }
        Ok(deleted)
    }

    /// Makes all fresh births persistent.
    fn settle_all(&mut self)
        ensures value { self.new ≡ all_settled self.old (walk (set.contains self.old.fresh)) }
        ensures lives { (index : ℕ) → living self.new index ≡ living self.old index }
        ensures continues { Continues self.old self.new }
    {
        let mut emptying = Emptying::new(&self.raised);
        while let Some(id) = emptying.first_of(&self.raised) {
            self.settle(id);
        }
    }
}

/// Marks the indices of a list up to the first entity that isn't alive or is marked already, and
/// answers its place.
fn mark_all(
    generations: &[Option<Generation>],
    raised: &AtomicBitSet,
    marked: &mut AtomicBitSet,
    entities: &[Entity],
) -> Option<usize>
    requires dead { AreDead generations.now raised.now.members }
    requires numbers { AreNumbered generations.now raised.now.members }
    requires indices { (index : ℕ) → living_in generations.now raised.now.members index ≢ None → index < 16777216 }
    requires room { (index : ℕ) → living_in generations.now raised.now.members index ≢ None → index < marked.old.room }
    requires unmarked { marked.old.members ≡ set.empty }
    ensures value { MatchOption result (CanKill (living_in generations.now raised.now.members) entities.now)
        (IsFirstFault (living_in generations.now raised.now.members) entities.now) }
    ensures marks { AreIndicesOf entities.now marked.new.members }
    ensures kept { marked.old.room ≤ marked.new.room }
{
    for (place, entity) in entities.iter().enumerate() {
        if !is_living(generations, raised, *entity) {
            return Some(place);
        }
        if marked.contains(entity.id) {
            return Some(place);
        }
        let _ = marked.add(entity.id);
    }
    None
}

/// Unmarks the indices of a list, which has all that are marked.
fn unmark_all(marked: &mut AtomicBitSet, entities: &[Entity])
    requires { AreIndicesOf entities.now marked.old.members }
    ensures members { marked.new.members ≡ set.empty }
    ensures room { marked.new.room ≡ marked.old.room }
{
    for entity in entities {
        let _ = marked.remove(entity.id);
    }
}
