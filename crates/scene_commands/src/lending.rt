//! What a world of a scene holds beside the parts and globals of its rules, lent for writing.
ghost use Rattle.std.specs.Prelude.{◌≡◌, Some};
ghost use Rattle.std.specs.Option.{OnSome, option_copied_mut};
ghost use Rattle.std.specs.Borrow.{sem};
ghost use Rattle.shred_world.specs.Lending.{LendsResource};
ghost use Rattle.shred_world.specs.Worlds.{resource_at};
ghost use Rattle.specs_entity.specs.Births.{Births};
ghost use Rattle.specs_entity.specs.contracts.entities_res.EntitiesRes.{the_row as entities_row};
ghost use Rattle.specs_markers.specs.Simple.{Noting};
ghost use Rattle.scene_world.specs.contracts.marker.SceneMarkerAllocator.{the_row as allocator_row};

use scene_world::{Rules, SceneMarkerAllocator, SceneValue};
use shred_world::{ResourceId, World};
use specs_entity::EntitiesRes;

/// The entities that a world has at an id, if it has some there.
pub(crate) fn entities_at<R: Rules>(
    world: &mut World<R::Value>,
    id: ResourceId,
) -> Option<&mut EntitiesRes>
    ensures* writes_back { sem 𝓛 (LendsResource R.Value.row entities_row R.Value.SceneValue.places.entities_value
        world.entry id result) }
    ensures value { option_copied_mut result ≡ resource_at R.Value.SceneValue.places.births world.old id }
    ensures seen { OnSome result ((entities : Births)
        → R.Value.SceneValue.places.births (R.Value.SceneValue.places.entities_value entities) ≡ Some entities) }
{
    <R::Value as SceneValue<R::Data>>::entities_mut(world.get_mut_raw(id)?)
}

/// The allocator of ids that a world has at an id, if it has one there.
pub(crate) fn allocator_at<R: Rules>(
    world: &mut World<R::Value>,
    id: ResourceId,
) -> Option<&mut SceneMarkerAllocator>
    ensures* writes_back { sem 𝓛 (LendsResource R.Value.row allocator_row R.Value.SceneValue.places.allocator_value
        world.entry id result) }
    ensures value { option_copied_mut result ≡ resource_at R.Value.SceneValue.places.noting world.old id }
    ensures seen { OnSome result ((noting : Noting)
        → R.Value.SceneValue.places.noting (R.Value.SceneValue.places.allocator_value noting) ≡ Some noting) }
{
    <R::Value as SceneValue<R::Data>>::allocator_mut(world.get_mut_raw(id)?)
}
