//! What a world of a scene holds beside the parts and globals of its rules.
ghost use Rattle.std.specs.Prelude.{◌≡◌, ◌<◌, ℕ, false, Some, None, option_copied};
ghost use Rattle.std.specs.Prelude.{IfOk, IfErr, OnOk, OnErr, IfSome, IfNone};
ghost use Rattle.std.specs.Option.{option_and_then, option_copied_mut, option_map_or};
ghost use Rattle.std.specs.Borrow.{LendsIf, sem};
ghost use Rattle.shred_world.specs.ResourceIds.{id_of};
ghost use Rattle.specs_entity.specs.Births.{Births};
ghost use Rattle.specs_entity.specs.contracts.entities_res.EntitiesRes.{the_row as entities_row};
ghost use Rattle.specs_layouts.specs.Channels.{no_log};
ghost use Rattle.specs_layouts.specs.Parts.{Puts};
ghost use Rattle.specs_layouts.specs.Shows.{Shows};
ghost use Rattle.specs_markers.specs.Simple.{Noting};
ghost use Rattle.scene_world.specs.contracts.marker.SceneMarkerAllocator.{the_row as allocator_row};
ghost use Rattle.scene_world.specs.Markers.{marker_at, marker_log, marker_tells};

use crate::{SceneMarker, SceneMarkerAllocator};
use scene_model::Queue;
use shred_world::{Resource, ResourceId};
use specs_entity::EntitiesRes;
use specs_layouts::MaskedStorage;
use std::alloc::AllocError;

/// A type of values in one kind of which lies a queue of commands.
///
/// It is what `Resource` is to other types, without a way to write a queue in its place: a queue names the kinds of parts by
/// references, and those can't be lent for writing under a contract.
pub trait QueueValue<D: Drop>: Sized {
    ghost use Rattle.std.specs.Prelude.{ℕ, Option};
    ghost use Rattle.scene_model.specs.declared.command.Queue.{Queue as Waiting};

    /// The kind number.
    ghost kind_number: { ℕ };

    /// The value that holds a queue.
    ghost wrapped: { Waiting D → Self };

    /// The queue that a value holds, if it holds one.
    ghost part: { Self → Option (Waiting D) };

    /// The kind number, which no resource of these values has.
    fn kind() -> u32
        ensures { result ≡ kind_number };

    /// Makes the value that holds a queue.
    fn wrap_queue(queue: Queue<D>) -> Self
        ensures { result ≡ wrapped queue };

    /// Takes the queue out of a value, or hands back a value that holds none.
    fn unwrap_queue(value: Self) -> Result<Queue<D>, Self>
        ensures queue { IfOk result (λ queue. part value ≡ Some queue) }
        ensures handed_back { IfErr result (λ other. other ≡ value) };

    /// A queue that was put in is seen again.
    ghost seen: { (queue : Waiting D) → part (wrapped queue) ≡ Some queue };
}

/// A type of values that hold the entities of a scene, their markers, the allocator of ids, and a queue of commands
/// for each system.
///
/// A type of values is one where each of these is a resource of it; there is nothing else to write.
pub trait SceneValue<D: Drop>: Sized {
    ghost use Rattle.scene_world.specs.Places.{Places};

    /// Where they stand, and what is read of them.
    ghost places: { Places Self D };

    /// Where the entities stand.
    fn entities_id() -> ResourceId
        ensures { result ≡ places.entities_id };

    /// Where the markers stand.
    fn markers_id() -> ResourceId
        ensures { result ≡ places.markers_id };

    /// Where the allocator of ids stands.
    fn allocator_id() -> ResourceId
        ensures { result ≡ places.allocator_id };

    /// Where the queue of the system at a place stands.
    fn queue_id(position: u32) -> ResourceId
        ensures { result ≡ places.queue_id position };

    /// The value that holds a queue.
    fn wrap_queue(queue: Queue<D>) -> Self
        ensures value { result ≡ places.queue_value queue }
        ensures read { places.queue result ≡ Some queue };

    /// Takes the queue out of a value, or hands back a value that holds none.
    fn unwrap_queue(value: Self) -> Result<Queue<D>, Self>
        ensures queue { IfOk result (λ queue. places.queue value ≡ Some queue) }
        ensures handed_back { IfErr result (λ other. other ≡ value) };

    /// The entities that a value holds, if it holds them.
    fn entities(value: &Self) -> Option<&EntitiesRes>
        ensures { option_copied result ≡ places.births value.now };

    /// The value that holds entities.
    fn wrap_entities(entities: EntitiesRes) -> Self
        ensures { places.births result ≡ Some entities };

    /// The entities that a value holds, if it holds them, for writing: it holds what they are left as.
    fn entities_mut(value: &mut Self) -> Option<&mut EntitiesRes>
        ensures* writes_back { sem 𝓛 (LendsIf Self.row entities_row value.entry result places.entities_value
            value.old) }
        ensures value { option_copied_mut result ≡ places.births value.old }
        ensures seen { (entities : Births) → places.births (places.entities_value entities) ≡ Some entities };

    /// The markers that a value holds, if it holds them.
    fn markers(value: &Self) -> Option<&MaskedStorage<SceneMarker>>
        ensures some { IfSome result (λ markers. (index : ℕ)
            → places.marker value.now index ≡ marker_at markers.now index) }
        ensures none { IfNone result ((index : ℕ) → places.marker value.now index ≡ None) }
        ensures events { IfSome result (λ markers. places.marker_events value.now ≡ marker_log markers.now) }
        ensures emits { IfSome result (λ markers. places.marker_emits value.now ≡ marker_tells markers.now) };

    /// The value that holds markers.
    fn wrap_markers(markers: MaskedStorage<SceneMarker>) -> Self
        ensures markers { (index : ℕ) → places.marker result index ≡ marker_at markers index }
        ensures events { places.marker_events result ≡ marker_log markers }
        ensures emits { places.marker_emits result ≡ marker_tells markers };

    /// Takes the markers out of a value, or hands back a value that holds none.
    fn unwrap_markers(value: Self) -> Result<MaskedStorage<SceneMarker>, Self>
        ensures markers { IfOk result (λ markers. (index : ℕ)
            → places.marker value index ≡ marker_at markers index) }
        ensures events { IfOk result (λ markers. places.marker_events value ≡ marker_log markers) }
        ensures emits { IfOk result (λ markers. places.marker_emits value ≡ marker_tells markers) }
        ensures silent { OnErr result (places.marker_events value ≡ no_log) }
        ensures handed_back { IfErr result (λ other. other ≡ value) };

    /// Marks an index, in place of the marker that is there, where a value holds markers.
    ///
    /// Errors: want of memory, and where it holds none.
    fn insert_marker(value: &mut Self, index: u32, marker: SceneMarker) -> Result<(), AllocError>
        requires { index < 16777216 }
        ensures puts { OnOk result (Puts (places.marker value.old) index (Some marker) (places.marker value.new)) }
        ensures shown { OnOk result (Shows places.marker places.marker_events places.marker_emits value.old
            value.new) };

    /// Takes the marker at an index out, if there is one, where a value holds markers.
    ///
    /// Errors: want of memory, and where it holds none.
    fn drop_marker(value: &mut Self, index: u32) -> Result<(), AllocError>
        ensures takes { OnOk result (Puts (places.marker value.old) index None (places.marker value.new)) }
        ensures shown { OnOk result (Shows places.marker places.marker_events places.marker_emits value.old
            value.new) };

    /// The allocator of ids that a value holds, if it holds it.
    fn allocator(value: &Self) -> Option<&SceneMarkerAllocator>
        ensures { option_copied result ≡ places.noting value.now };

    /// The value that holds an allocator of ids.
    fn wrap_allocator(allocator: SceneMarkerAllocator) -> Self
        ensures { places.noting result ≡ Some allocator };

    /// The allocator of ids that a value holds, if it holds it, for writing: it holds what the allocator is left as.
    fn allocator_mut(value: &mut Self) -> Option<&mut SceneMarkerAllocator>
        ensures* writes_back { sem 𝓛 (LendsIf Self.row allocator_row value.entry result
            places.allocator_value value.old) }
        ensures value { option_copied_mut result ≡ places.noting value.old }
        ensures seen { (noting : Noting) → places.noting (places.allocator_value noting) ≡ Some noting };
}

impl<V: QueueValue<D> + Drop, D: Drop> SceneValue<D> for V
where
    EntitiesRes: Resource<V>,
    MaskedStorage<SceneMarker>: Resource<V>,
    SceneMarkerAllocator: Resource<V>,
{
    ghost places = { record {
      entities_id = id_of ⟦<EntitiesRes as Resource<V>>⟧.kind_number 0;
      markers_id = id_of ⟦<MaskedStorage<SceneMarker> as Resource<V>>⟧.kind_number 0;
      allocator_id = id_of ⟦<SceneMarkerAllocator as Resource<V>>⟧.kind_number 0;
      queue_id = λ position. id_of ⟦<V as QueueValue<D>>⟧.kind_number position;
      births = ⟦<EntitiesRes as Resource<V>>⟧.part;
      marker = λ v index. option_and_then (λ markers. marker_at markers index)
          (⟦<MaskedStorage<SceneMarker> as Resource<V>>⟧.part v);
      marker_events = λ v. option_map_or marker_log (⟦<MaskedStorage<SceneMarker> as Resource<V>>⟧.part v) no_log;
      marker_emits = λ v. option_map_or marker_tells (⟦<MaskedStorage<SceneMarker> as Resource<V>>⟧.part v) false;
      noting = ⟦<SceneMarkerAllocator as Resource<V>>⟧.part;
      queue = ⟦<V as QueueValue<D>>⟧.part;
      queue_value = ⟦<V as QueueValue<D>>⟧.wrapped;
      entities_value = ⟦<EntitiesRes as Resource<V>>⟧.wrapped;
      allocator_value = ⟦<SceneMarkerAllocator as Resource<V>>⟧.wrapped;
    } };

    fn entities_id() -> ResourceId {
        ResourceId::new::<V, EntitiesRes>()
    }

    fn markers_id() -> ResourceId {
        ResourceId::new::<V, MaskedStorage<SceneMarker>>()
    }

    fn allocator_id() -> ResourceId {
        ResourceId::new::<V, SceneMarkerAllocator>()
    }

    fn queue_id(position: u32) -> ResourceId {
        ResourceId::from_type_id_and_dynamic_id(<V as QueueValue<D>>::kind(), u64::from(position))
    }

    fn wrap_queue(queue: Queue<D>) -> V
        ensures value { result ≡ ⟦<V as QueueValue<D>>⟧.wrapped queue }
        ensures read { ⟦<V as QueueValue<D>>⟧.part result ≡ Some queue }
    {
        <V as QueueValue<D>>::wrap_queue(queue)
    }

    fn unwrap_queue(value: V) -> Result<Queue<D>, V> {
        <V as QueueValue<D>>::unwrap_queue(value)
    }

    fn entities(value: &V) -> Option<&EntitiesRes> {
        <EntitiesRes as Resource<V>>::view(value)
    }

    fn wrap_entities(entities: EntitiesRes) -> V {
        entities.wrap()
    }

    fn entities_mut(value: &mut V) -> Option<&mut EntitiesRes> {
        <EntitiesRes as Resource<V>>::view_mut(value)
    }

    fn markers(value: &V) -> Option<&MaskedStorage<SceneMarker>> {
        <MaskedStorage<SceneMarker> as Resource<V>>::view(value)
    }

    fn wrap_markers(markers: MaskedStorage<SceneMarker>) -> V {
        markers.wrap()
    }

    fn unwrap_markers(value: V) -> Result<MaskedStorage<SceneMarker>, V> {
        <MaskedStorage<SceneMarker> as Resource<V>>::unwrap(value)
    }

    fn insert_marker(value: &mut V, index: u32, marker: SceneMarker) -> Result<(), AllocError> {
        let Some(markers) = <MaskedStorage<SceneMarker> as Resource<V>>::view_mut(value) else {
            return Err(AllocError);
        };
        match markers.insert(index, marker) {
            Ok(_) => Ok(()),
            Err(_) => Err(AllocError),
        }
    }

    fn drop_marker(value: &mut V, index: u32) -> Result<(), AllocError> {
        let Some(markers) = <MaskedStorage<SceneMarker> as Resource<V>>::view_mut(value) else {
            return Err(AllocError);
        };
        markers.drop(index)?;
        Ok(())
    }

    fn allocator(value: &V) -> Option<&SceneMarkerAllocator> {
        <SceneMarkerAllocator as Resource<V>>::view(value)
    }

    fn wrap_allocator(allocator: SceneMarkerAllocator) -> V {
        allocator.wrap()
    }

    fn allocator_mut(value: &mut V) -> Option<&mut SceneMarkerAllocator> {
        <SceneMarkerAllocator as Resource<V>>::view_mut(value)
    }
}
