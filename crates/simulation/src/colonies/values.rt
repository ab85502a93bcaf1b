//! What a world of colonies holds: entities, a table of kinds, and seats of a phase.
ghost use Rattle.std.specs.Prelude.{◌≡◌, Some, None, refl};
ghost use Rattle.std.proofs.Common.{rules};
ghost use Rattle.simulation.specs.Colonies.{held_has_part, held_drops, held-parts, held-append};
ghost use Rattle.simulation.specs.declared.colonies.values.Held.TheVariants.{EntitiesHeld, TableHeld, SeatHeld};

use specs::{AnyStorage, EntitiesRes, Entity, MetaTable, PhaseSeat, Resource};
use std::alloc::AllocError;

/// What a world of colonies holds.
#[derive(Drop)]
pub enum Held {
    EntitiesHeld(EntitiesRes),
    TableHeld(MetaTable),
    SeatHeld(PhaseSeat),
}

impl Resource<Held> for EntitiesRes {
    ghost kind_number = { 0 };

    ghost wrapped = { EntitiesHeld };

    ghost part = { elim [
      | EntitiesHeld x ↦ Some x
      | TableHeld x ↦ None
      | SeatHeld x ↦ None
    ] };

    ghost seen = { λ _. refl };

    ghost only_wrapped = { Prim.search rules };

    fn kind() -> u32 {
        0
    }

    fn wrap(self) -> Held {
        Held::EntitiesHeld(self)
    }

    fn unwrap(value: Held) -> Result<Self, Held> {
        match value {
            Held::EntitiesHeld(resource) => Ok(resource),
            other => Err(other),
        }
    }

    fn view(value: &Held) -> Option<&Self> {
        match value {
            Held::EntitiesHeld(resource) => Some(resource),
            _ => None,
        }
    }

    fn view_mut(value: &mut Held) -> Option<&mut Self> {
        match value {
            Held::EntitiesHeld(resource) => Some(resource),
            _ => None,
        }
    }
}

impl Resource<Held> for MetaTable {
    ghost kind_number = { 1 };

    ghost wrapped = { TableHeld };

    ghost part = { elim [
      | EntitiesHeld x ↦ None
      | TableHeld x ↦ Some x
      | SeatHeld x ↦ None
    ] };

    ghost seen = { λ _. refl };

    ghost only_wrapped = { Prim.search rules };

    fn kind() -> u32 {
        1
    }

    fn wrap(self) -> Held {
        Held::TableHeld(self)
    }

    fn unwrap(value: Held) -> Result<Self, Held> {
        match value {
            Held::TableHeld(resource) => Ok(resource),
            other => Err(other),
        }
    }

    fn view(value: &Held) -> Option<&Self> {
        match value {
            Held::TableHeld(resource) => Some(resource),
            _ => None,
        }
    }

    fn view_mut(value: &mut Held) -> Option<&mut Self> {
        match value {
            Held::TableHeld(resource) => Some(resource),
            _ => None,
        }
    }
}

impl Resource<Held> for PhaseSeat {
    ghost kind_number = { 2 };

    ghost wrapped = { SeatHeld };

    ghost part = { elim [
      | EntitiesHeld x ↦ None
      | TableHeld x ↦ None
      | SeatHeld x ↦ Some x
    ] };

    ghost seen = { λ _. refl };

    ghost only_wrapped = { Prim.search rules };

    fn kind() -> u32 {
        2
    }

    fn wrap(self) -> Held {
        Held::SeatHeld(self)
    }

    fn unwrap(value: Held) -> Result<Self, Held> {
        match value {
            Held::SeatHeld(resource) => Ok(resource),
            other => Err(other),
        }
    }

    fn view(value: &Held) -> Option<&Self> {
        match value {
            Held::SeatHeld(resource) => Some(resource),
            _ => None,
        }
    }

    fn view_mut(value: &mut Held) -> Option<&mut Self> {
        match value {
            Held::SeatHeld(resource) => Some(resource),
            _ => None,
        }
    }
}

/// No value of a colony is a storage: none has a part, and a drop leaves each as it was.
impl AnyStorage for Held {
    ghost has_part = { held_has_part };

    ghost has_room = { λ _ _. Unit {0} };

    ghost drops = { held_drops };

    ghost drops_parts = { held-parts };

    ghost drops_none = { λ _. refl };

    ghost drops_append = { held-append };

    fn drop(&mut self, _entities: &[Entity]) -> Result<(), AllocError> {
        Ok(())
    }

    fn make_room(&mut self, _count: usize) -> Result<(), AllocError> {
        Ok(())
    }
}
