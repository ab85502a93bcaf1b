//! What the entities of a colony have, and how one is asked for.
use crate::values::Value;
use specs::saveload::{Mark, SimpleMarker};
use specs::*;

/// How far an entity has come, in steps.
#[derive(Clone, Copy, Debug, PartialEq, Eq)]
pub struct Position(pub u64);

/// How far an entity comes in one go, in steps.
#[derive(Clone, Copy, Debug, PartialEq, Eq)]
pub struct Velocity(pub u64);

/// How far an entity has to come, in steps; there it dies.
#[derive(Clone, Copy, Debug, PartialEq, Eq)]
pub struct Goal(pub u64);

/// An entity that is asked for: it begins at the start, has a velocity and a goal, and is marked, to be saved.
#[derive(Clone, Copy, Debug, PartialEq, Eq)]
pub struct Settler(pub Velocity, pub Goal);

impl Job<Value> for Settler {
    ghost use Rattle.std.specs.Prelude.{[], ◌∷◌};
    ghost use Rattle.specs.specs.ForWorlds.{BirthThen};

    ghost runs = { λ settler. BirthThen ⟦<EntitiesRes as Held<Value>>⟧.stands_at (λ entity.
        ⟦<Insert<Position> as Job<Value>>⟧.runs (record { entity = entity; part = record { 0 = 0 } })
        ∷ ⟦<Insert<Velocity> as Job<Value>>⟧.runs (record { entity = entity; part = settler.0 })
        ∷ ⟦<Insert<Goal> as Job<Value>>⟧.runs (record { entity = entity; part = settler.1 })
        ∷ ⟦<Mark<SimpleMarker<Settler>> as Job<Value>>⟧.runs (record { entity = entity; kind = record {} })
        ∷ []) };

    /// Errors: those of its steps; what came before the one that is refused stays.
    fn run(self, world: &mut World<Value>) -> Result<(), Error> {
        let entity = world.allocate()?;
        let (part, pace, goal) = (Position(0), self.0, self.1);
        (Insert { entity, part }).run(world)?;
        (Insert { entity, part: pace }).run(world)?;
        (Insert { entity, part: goal }).run(world)?;
        Mark::<SimpleMarker<Settler>>::new(entity).run(world)
    }
}
