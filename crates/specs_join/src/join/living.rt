//! Entities join by the indices where one lives.
use super::Join;
use hibitset::{BitSet, Index};
use specs_entity::{EntitiesRes, Entity};

/// The entities that live, each at its index.
impl<'a> Join for &'a EntitiesRes {
    type Type = Entity;

    type Shown = Entity;

    type Value = &'a EntitiesRes;

    type Mask = &'a BitSet;

    ghost use Rattle.std.specs.Prelude.{◌≡◌, false};
    ghost use Rattle.specs_entity.specs.Births.{MarksLiving};
    ghost use Rattle.specs_join.specs.Joins.{living_entity};

    ghost show = { λ entity. entity };

    ghost joins = { λ entities. living_entity entities.now };

    ghost opens = { λ entities mask. MarksLiving mask.now.members entities.now };

    ghost unconstrained = { false };

    ghost value_at = { λ entities. living_entity entities.now };

    fn open(self) -> (&'a BitSet, &'a EntitiesRes) {
        (self.mask(), self)
    }

    fn get(values: &&'a EntitiesRes, id: Index) -> Entity {
        let entities: &'a EntitiesRes = *values;
        entities.entity(id)
    }

    fn is_unconstrained() -> bool
        ensures { result ≡ false }
    {
        false
    }
}
