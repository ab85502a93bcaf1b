//! Entities created in a row.
ghost use Rattle.std.specs.Prelude.{◌≡◌, ◌<◌, ◌≤◌, ℕ, List, [], length, IfOk, OnOk, OnErr, IfErr};
ghost use Rattle.std.specs.Vec.{vec_capacity};
ghost use Rattle.specs_entity.specs.Births.{Births};

use crate::entities_res::EntitiesRes;
use crate::errors::Error;
use crate::ids::Entity;
use crate::parts::last_at;
use hibitset::Index;
use std::marker::Model;
use std::vec::IntoIter;

/// Entities that were created together, to be walked in the order of their births.
#[derive(Drop)]
pub struct CreateIter {
    entities: IntoIter<Entity>,
}

/// Specs' name of the entities that are created in a row through a shared reference; here they are the same list.
pub type CreateIterAtomic = CreateIter;

impl Model for CreateIter {
    ghost use Rattle.std.specs.Prelude.{List};
    ghost use Rattle.std.specs.Vec.Iter.{into_iter_items};
    ghost use Rattle.specs_entity.specs.Life.{LifeAt};

    ghost Value = { List LifeAt };

    ghost view = { λ a. into_iter_items a.entities };
}

impl Iterator for CreateIter {
    type Item = Entity;

    ghost use Rattle.std.specs.Iterator.{YieldsFirst, item_count};

    ghost next_gives = { YieldsFirst (λ it. it) };

    ghost remaining = { item_count (λ it. it) };

    fn next(&mut self) -> Option<Entity> {
        self.entities.next()
    }
}

impl EntitiesRes {
    ghost use Rattle.specs_entity.specs.Births.{AreNew, Continues, all_created, newborns, CanCreate, RefusesBirth};
    ghost use Rattle.specs_entity.specs.Births.{RefusesBirths, LivesOn, AreFresh, all_allocated, all_settled};
    ghost use Rattle.specs_entity.specs.Births.{indices_of, living};
    ghost use Rattle.specs_entity.specs.Layout.{IsCreated, AreMade};

    /// Creates so many entities, or none: each is alive at once, and its birth is persistent after the
    /// next merge.
    ///
    /// Errors: those of `create` for the first entity that is refused, and `Memory`. All leave the
    /// entities as they were.
    pub fn create_iter(&mut self, count: usize) -> Result<CreateIter, Error>
        ensures value { IfOk result (λ entities. entities ≡ newborns count self.old) }
        ensures ok { OnOk result (self.new ≡ all_created count self.old) }
        ensures new { IfOk result (λ entities. AreNew self.old entities self.new) }
        ensures live_on { OnOk result (LivesOn self.old self.new) }
        ensures continues { OnOk result (Continues self.old self.new) }
        ensures possible { OnOk result (CanCreate count self.old) }
        ensures refused { IfErr result (RefusesBirths count self.old) }
        ensures err { OnErr result (self.new ≡ self.old) }
    {
        let made = self.create_list(count)?;
        Ok(CreateIter {
            entities: made.into_iter(),
        })
    }

    /// Allocates so many entities, or none: each is alive, and its birth persistent, at once.
    ///
    /// Errors: those of `create_iter`. All leave the entities as they were.
    pub fn allocate_iter(&mut self, count: usize) -> Result<CreateIter, Error>
        ensures value { IfOk result (λ entities. entities ≡ newborns count self.old) }
        ensures ok { OnOk result (self.new ≡ all_allocated count self.old) }
        ensures new { IfOk result (λ entities. AreNew self.old entities self.new) }
        ensures live_on { OnOk result (LivesOn self.old self.new) }
        ensures continues { OnOk result (Continues self.old self.new) }
        ensures possible { OnOk result (CanCreate count self.old) }
        ensures refused { IfErr result (RefusesBirths count self.old) }
        ensures err { OnErr result (self.new ≡ self.old) }
    {
        let made = self.create_list(count)?;
        self.settle_each(&made);
        Ok(CreateIter {
            entities: made.into_iter(),
        })
    }

    /// Creates so many entities, or none, as a list.
    pub(crate) fn create_list(&mut self, count: usize) -> Result<Vec<Entity>, Error>
        ensures value { IfOk result (λ entities. entities.items ≡ newborns count self.old) }
        ensures ok { OnOk result (self.new ≡ all_created count self.old) }
        ensures new { IfOk result (λ entities. AreNew self.old entities.items self.new) }
        ensures fresh { IfOk result (λ entities. AreFresh self.new entities.items) }
        ensures live_on { OnOk result (LivesOn self.old self.new) }
        ensures continues { OnOk result (Continues self.old self.new) }
        ensures possible { OnOk result (CanCreate count self.old) }
        ensures refused { IfErr result (RefusesBirths count self.old) }
        ensures err { OnErr result (self.new ≡ self.old) }
    {
        let mut made = Vec::with_capacity(self.alloc, count)?;
        if let Err(error) = self.create_all(count, &mut made) {
            self.take_back(&mut made);
            return Err(error);
        }
        Ok(made)
    }

    /// Makes the fresh births of the entities of a list persistent.
    fn settle_each(&mut self, entities: &[Entity])
        requires { AreFresh self.old entities.now }
        ensures value { self.new ≡ all_settled self.old (indices_of entities.now) }
        ensures lives { (index : ℕ) → living self.new index ≡ living self.old index }
        ensures continues { Continues self.old self.new }
    {
        for entity in entities {
            self.settle(entity.id);
        }
    }

    /// Creates so many entities, and puts each into `made`, up to the first that is refused.
    fn create_all(&mut self, count: usize, made: &mut Vec<Entity>) -> Result<(), Error>
        requires empty { made.old.items ≡ [] }
        requires room { count ≤ vec_capacity made.old }
        ensures made { AreMade self.old made.new.items self.new }
        ensures ok { OnOk result (length made.new.items ≡ count) }
        ensures few { OnErr result (length made.new.items < count) }
        ensures refused { IfErr result (RefusesBirth self.new) }
    {
        let _ = &self.generations;
        for _ in 0..count {
            let entity = self.create()?;
            let _ = made.push(entity);
        }
        Ok(())
    }

    /// Undoes the births of the entities in `made`, which were the last by `create`.
    fn take_back(&mut self, made: &mut Vec<Entity>)
        requires { (before : Births) × AreMade before made.old.items self.old }
        ensures { (before : Births) → AreMade before made.old.items self.old → self.new ≡ before }
    {
        while let Some(entity) = made.pop() {
            self.uncreate(entity.id);
        }
    }

    /// Undoes the last birth, which was by `create` and at that index.
    pub(crate) fn uncreate(&mut self, id: Index)
        requires { (before : Births) × IsCreated before id self.old }
        ensures { (before : Births) → IsCreated before id self.old → self.new ≡ before }
    {
        let _ = self.raised.remove(id);
        let _ = self.alive.remove(id);
        if last_at(&self.generations, id).is_none() {
            let _ = self.generations.pop();
        } else {
            let _ = self.cache.push(id);
        }
    }
}
