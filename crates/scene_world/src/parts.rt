//! The storages in which a scene keeps its parts.
ghost use Rattle.std.specs.Prelude.{◌≡◌, [], true};
ghost use Rattle.specs_layouts.specs.Parts.{HasNone};
ghost use Rattle.scene_world.specs.Stores.{store_of, store_part};

use crate::any_store::AnyStore;
use scene_model::Store;
use specs_layouts::FlaggedStorage;
use std::alloc::Global;

/// A storage in one of the four layouts that tells of each change of its parts.
///
/// A kind of part of a scene has it: `type Storage = SceneStorage<Self>;`, and a storage of that kind is made by
/// `MaskedStorage::new(alloc, scene_storage(alloc, store))`.
pub type SceneStorage<T> = FlaggedStorage<T, AnyStore<T>>;

/// A storage without parts in this layout, with emission on and no reader yet. Takes no memory.
pub fn scene_storage<T>(alloc: Global, store: Store) -> SceneStorage<T>
    ensures none { HasNone (store_part result.inner) }
    ensures store { store_of result.inner ≡ store }
    ensures held { result.channel.held ≡ [] }
    ensures places { result.channel.places ≡ [] }
    ensures emission { result.emission ≡ true }
{
    FlaggedStorage::over(alloc, AnyStore::new(alloc, store))
}
