//! Two kinds of parts, of which one names an entity.
ghost use Rattle.std.specs.Prelude.{◌≡◌};

use specs_entity::{EntitiesRes, Entity, Error};
use specs_layouts::{Component, DenseVecStorage, MaskedStorage, VecStorage};
use specs_markers::MarkerAllocator;
use specs_saveload::{ConvertSaveload, Names, SavedMarker, plain_from, plain_into};
use std::alloc::{AllocError, Global};

/// Whose an entity is.
#[derive(Drop)]
pub struct Owner(pub Entity);

/// How well an entity is.
#[derive(Drop)]
pub struct Health(pub i64);

impl Component for Owner {
    type Storage = DenseVecStorage<Owner>;
}

impl Component for Health {
    type Storage = VecStorage<Health>;
}

/// An owner is saved as its marker.
impl<M: SavedMarker> ConvertSaveload<M> for Owner {
    type Data = M;

    ghost use Rattle.std.specs.Prelude.{[], ◌∷◌, option_map};
    ghost use Rattle.specs_saveload.specs.NamingLemmas.{one-named, one-stands};
    ghost use Rattle.world_cases.specs.OwnerLemmas.{owner-kept, owner-back};

    ghost refers_to = { λ owner. owner.0 ∷ [] };

    ghost markers_of = { λ marker. marker ∷ [] };

    ghost plain = { λ names owner. names owner.0 };

    ghost loaded = { λ bearers marker. option_map (λ entity. record { 0 = entity }) (bearers marker) };

    fn references(&self, list: &mut Vec<Entity>) -> Result<(), AllocError> {
        list.push(self.0)?;
        Ok(())
    }

    fn convert_into<N: Names<M>>(&self, alloc: Global, names: &N) -> Result<M, Error> {
        self.0.convert_into(alloc, names)
    }

    fn convert_from<A: MarkerAllocator<M>>(
        saved: M,
        alloc: Global,
        entities: &mut EntitiesRes,
        markers: &mut MaskedStorage<M>,
        allocator: &mut A,
    ) -> Result<Owner, Error> {
        let entity = Entity::convert_from(saved, alloc, entities, markers, allocator)?;
        Ok(Owner(entity))
    }

    ghost named = { λ names owner. one-named names owner.0 };

    ghost stands = { λ names owner saved marker is among. (owner.0, one-stands (names owner.0) saved marker is among) };

    ghost kept = { λ one other marker owner more. owner-kept (one marker) (other marker)
        (λ entity is. more marker entity is) owner };

    ghost back = { λ bearers names marker owner same. owner-back (bearers marker) names marker
        (λ entity is. same marker entity is) owner };
}

/// Health is saved as its number.
impl<M: SavedMarker> ConvertSaveload<M> for Health {
    type Data = i64;

    ghost use Rattle.std.specs.Prelude.{[], Some};
    ghost use Rattle.world_cases.specs.OwnerLemmas.{number-back, none-named};

    ghost refers_to = { λ health. [] };

    ghost markers_of = { λ number. [] };

    ghost plain = { λ names health. Some health.0 };

    ghost loaded = { λ bearers number. Some (record { 0 = number }) };

    fn references(&self, _list: &mut Vec<Entity>) -> Result<(), AllocError> {
        Ok(())
    }

    fn convert_into<N: Names<M>>(&self, _alloc: Global, _names: &N) -> Result<i64, Error> {
        plain_into(&self.0)
    }

    fn convert_from<A: MarkerAllocator<M>>(
        saved: i64,
        _alloc: Global,
        _entities: &mut EntitiesRes,
        _markers: &mut MaskedStorage<M>,
        _allocator: &mut A,
    ) -> Result<Health, Error> {
        let number = plain_from(saved)?;
        Ok(Health(number))
    }

    ghost named = { λ names health. none-named names health.0 };

    ghost stands = { λ names health saved marker is among. absurd among };

    ghost kept = { λ one other number health more is. is };

    ghost back = { λ bearers names number health same. number-back number health };
}
