//! The entities: births, deletions, and which index comes next.
ghost use Rattle.std.specs.Prelude.{◌≡◌, ℕ, ◌+◌, ◌<◌, ◌≤◌, ◌↔◌, min, IsTrue, IsOk, OnOk, OnErr, IfOk, None, [], true};
ghost use Rattle.std.specs.FinSet as set;

use crate::ids::{Entity, Generation};
use crate::parts::{is_living, last_at, living_at};
use hibitset::{AtomicBitSet, BitSet, Index};
use std::alloc::Global;
use std::marker::Model;

/// How many indices there are at most.
const MAX_INDICES: Index = 16777216;

/// How many entities an index has at most, one after the other.
const MAX_GENERATIONS: u32 = 2147483647;

/// The entities: which were born and which are alive.
#[derive(Drop)]
pub struct EntitiesRes {
    pub(crate) generations: Vec<Option<Generation>>,
    pub(crate) raised: AtomicBitSet,
    pub(crate) killed: AtomicBitSet,
    pub(crate) marked: AtomicBitSet,
    pub(crate) alive: BitSet,
    pub(crate) cache: Vec<Index>,
    pub(crate) room: Index,
    pub(crate) indices: Index,
    pub(crate) highest: u32,
    pub(crate) alloc: Global,
}

/// The entities, lent for reading.
pub type Entities<'a> = &'a EntitiesRes;

impl Model for EntitiesRes {
    ghost use Rattle.specs_entity.specs.Births.{Births, births_code};

    ghost Value = { Births };

    ghost coded = { births_code };

    ghost use Rattle.specs_entity.specs.Layout.{births_of, IsKept};

    ghost view = { births_of };

    ghost invariant = { IsKept };
}

impl EntitiesRes {
    ghost use Rattle.specs_entity.specs.Births.{none_born, persistent_at, living, IsAlive, MarksLiving, entity_at};

    /// No entity yet, up to 16,777,216 indices and 2,147,483,647 generations of each. Takes no memory.
    pub fn new(alloc: Global) -> EntitiesRes
        ensures { result ≡ none_born 16777216 2147483647 }
    {
        EntitiesRes::with_limits(alloc, MAX_INDICES, MAX_GENERATIONS)
    }

    /// No entity yet, and at most so many indices and so many entities of each, one after the other.
    /// Limits above those of `new` are those of `new`. Takes no memory.
    pub fn with_limits(alloc: Global, indices: Index, generations: u32) -> EntitiesRes
        ensures { result ≡ none_born (min indices 16777216) (min generations 2147483647) }
    {
        EntitiesRes {
            generations: Vec::new(alloc),
            raised: AtomicBitSet::new(alloc),
            killed: AtomicBitSet::new(alloc),
            marked: AtomicBitSet::new(alloc),
            alive: BitSet::new(alloc),
            cache: Vec::new(alloc),
            room: 0,
            indices: indices.min(MAX_INDICES),
            highest: generations.min(MAX_GENERATIONS),
            alloc,
        }
    }

    /// The generation of the last persistent birth at an index, negative where it is dead, or none
    /// where the index has no persistent birth.
    pub fn generation(&self, id: Index) -> Option<Generation>
        ensures { result ≡ persistent_at self.now id }
    {
        last_at(&self.generations, id)
    }

    /// The generation of the entity that lives at an index.
    pub(crate) fn living(&self, id: Index) -> Option<Generation>
        ensures { result ≡ living self.now id }
    {
        living_at(&self.generations, &self.raised, id)
    }

    /// The indices where an entity lives. Takes no memory.
    pub fn mask(&self) -> &BitSet
        ensures { MarksLiving result.now.members self.now }
    {
        &self.alive
    }

    /// Whether an entity is alive: born, and not dead.
    pub fn is_alive(&self, entity: Entity) -> bool
        ensures value { IsTrue result ↔ IsAlive self.now entity }
        ensures range { IsTrue result → entity.id < 16777216 }
    {
        is_living(&self.generations, &self.raised, entity)
    }

    /// The entity that lives at an index, else the one that died there last, with a negative
    /// generation, else the one that will be born there first.
    pub fn entity(&self, id: Index) -> Entity
        ensures { result ≡ entity_at self.now id }
    {
        let generation = match self.living(id) {
            Some(generation) => generation,
            None => self.generation(id).unwrap_or(Generation::one()),
        };
        Entity::new(id, generation)
    }
}
