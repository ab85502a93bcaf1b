//! Entities, and the generations that tell two entities of one index apart.
ghost use Rattle.std.specs.Prelude.{◌≡◌, ℕ, ◌+◌, ◌<◌, ◌≤◌, true, false, IsTrue, ◌↔◌};
ghost use Rattle.specs_entity.specs.Life.{id_of, first_life};

use hibitset::Index;
use std::marker::Model;

/// The generation of an index: its first entity has 1, and each further one has one more. Of a dead
/// entity it is negative. It is never zero.
#[derive(Clone, Copy, Debug, PartialEq, Eq, PartialOrd, Ord, Hash)]
pub struct Generation(i32);

impl Model for Generation {
    ghost use Rattle.std.specs.Prelude.{pos, ◌≢◌};
    ghost use Rattle.specs_entity.specs.Life.{Life, id_of, life_of, id-life};

    ghost Value = { Life };

    ghost view = { λ a. life_of a.0 };

    ghost invariant = { λ a. a.0 ≢ pos 0 };

    ghost inverse = { λ life. record { 0 = id_of life } };

    ghost inverse_ok = { λ a _ i. record { 0 = id-life a.0 i } };
}

impl Generation {
    /// The generation of an index's first entity.
    pub fn one() -> Generation
        ensures { result ≡ first_life }
    {
        Generation(1)
    }

    /// The number of the generation, negative where it is dead.
    pub fn id(self) -> i32
        ensures { result ≡ id_of self }
    {
        let Generation(signed) = self;
        signed
    }

    /// Whether entities of this generation are alive.
    pub fn is_alive(self) -> bool
        ensures { result ≡ self.lives }
    {
        self.0 > 0
    }

    /// Which birth of its index it counts, from 1.
    pub(crate) fn number(self) -> u32
        ensures value { result ≡ self.number }
        ensures limit { result < 2147483649 }
    {
        self.0.unsigned_abs()
    }

    /// The generation that comes after a dead one.
    pub(crate) fn raised(self) -> Generation
        requires dead { self.lives ≡ false }
        requires room { self.number < 2147483647 }
        ensures { result ≡ record { number = self.number + 1; lives = true } }
    {
        Generation(1 - self.0)
    }

    /// The generation of what was alive in this one and is dead.
    pub(crate) fn died(self) -> Generation
        requires { self.lives ≡ true }
        ensures { result ≡ record { number = self.number; lives = false } }
    {
        Generation(-self.0)
    }
}

/// An entity: an index, and the generation that it has there. Entities are ordered by index, then by
/// generation.
#[derive(Clone, Copy, Debug, PartialEq, Eq, PartialOrd, Ord, Hash)]
pub struct Entity {
    pub(crate) id: Index,
    pub(crate) generation: Generation,
}

impl Model for Entity {
    ghost use Rattle.std.specs.Prelude.{refl};
    ghost use Rattle.specs_entity.specs.Life.{LifeAt};

    ghost Value = { LifeAt };

    ghost view = { λ a. record { id = a.id; generation = a.generation } };

    ghost inverse = { λ e. record { id = e.id; generation = e.generation } };
}

impl Entity {
    pub(crate) fn new(id: Index, generation: Generation) -> Entity
        ensures { result ≡ record { id = id; generation = generation } }
    {
        Entity { id, generation }
    }

    /// The index of the entity.
    pub fn id(self) -> Index
        ensures { result ≡ self.id }
    {
        self.id
    }

    /// The generation of the entity.
    pub fn generation(self) -> Generation
        ensures { result ≡ self.generation }
    {
        self.generation
    }
}
