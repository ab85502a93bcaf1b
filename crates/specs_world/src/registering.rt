//! Kinds of parts that are registered in a world.
ghost use Rattle.std.specs.Prelude.{◌≡◌, ◌↔◌, None, Some, IsErrOf, OnOk, OnErr, IfErr, IsSome, true};
ghost use Rattle.std.specs.FinMap as map;
ghost use Rattle.shred_world.specs.Bundles.{DefaultsTo};
ghost use Rattle.shred_world.specs.Worlds.{resource_at, value_at, with_kind};
ghost use Rattle.shred_world.specs.ResourceIds.{id_of};
ghost use Rattle.specs_entity.specs.declared.errors.Error.TheVariants as refusal;
ghost use Rattle.specs_layouts.specs.Parts.{HasNone};
ghost use Rattle.specs_world.specs.Resources.{held, place, Becomes, IsNew, IsPutNew, Registers, without_put};

use crate::held::Held;
use shred_world::{MetaTable, Resource, ResourceId, World};
use specs_entity::Error;
use specs_layouts::{Component, MaskedStorage, TryDefault, UnprotectedStorage};
use std::alloc::{AllocError, AllocFailed, Global};

/// Enters the kind of a resource type in the world's table of kinds; one that is in it keeps its place.
///
/// Errors: want of memory, which leaves the world as it was.
fn enter<V, R: Resource<V>>(world: &mut World<V>) -> Result<(), AllocError>
where
    MetaTable: Resource<V>,
    requires table { IsSome (held ⟦<MetaTable as Held<V>>⟧.stands_at world.old) }
    ensures ok { OnOk result (Becomes
        ⟦<MetaTable as Held<V>>⟧.stands_at
        (λ was now. now ≡ with_kind was R.kind_number) world.old world.new) }
    ensures err { OnErr result (world.new ≡ world.old) }
{
    match world.get_mut::<MetaTable>() {
        Some(table) => match table.register::<V, R>() {
            Ok(()) => Ok(()),
            Err(refused) => Err(refused),
        },
        None => unreachable!(),
    }
}

/// Takes out the resource that was put under its type's id; a slot that was there before stays.
fn take_back<V: Drop, R: Resource<V> + Drop>(world: &mut World<V>, had_slot: bool)
    requires { IsSome (resource_at R.part world.old (id_of R.kind_number 0)) }
    ensures { world.new ≡ without_put world.old (id_of R.kind_number 0) had_slot }
{
    if had_slot {
        let _ = world.take_raw(ResourceId::new::<V, R>());
    } else {
        let _ = world.remove::<R>();
    }
}

/// Puts a storage without parts in, over that layout.
fn put<V: Drop, T: Component>(
    world: &mut World<V>,
    alloc: Global,
    layout: T::Storage,
) -> Result<(), AllocFailed<MaskedStorage<T>>>
where
    MaskedStorage<T>: Resource<V>,
    requires empty { HasNone (T.Storage.part_at layout) }
    ensures ok { OnOk result (IsPutNew
        ⟦<MaskedStorage<T> as Held<V>>⟧.stands_at
        (λ made. made ≡ layout) T.Storage.part_at world.old world.new) }
    ensures err { OnErr result (world.new ≡ world.old) }
{
    world.insert(MaskedStorage::<T>::new(alloc, layout))
}

/// Enters the kind of a resource that was just put, and takes it back where that is refused.
fn enter_or_take_back<V: Drop, R: Resource<V> + Drop>(
    world: &mut World<V>,
    had_slot: bool,
) -> Result<(), AllocError>
where
    MetaTable: Resource<V>,
    requires there { IsSome (resource_at R.part world.old (id_of R.kind_number 0)) }
    requires table { IsSome (held ⟦<MetaTable as Held<V>>⟧.stands_at world.old) }
    ensures ok { OnOk result (Becomes
        ⟦<MetaTable as Held<V>>⟧.stands_at
        (λ was now. now ≡ with_kind was R.kind_number) world.old world.new) }
    ensures err { OnErr result (world.new ≡ without_put world.old (id_of R.kind_number 0) had_slot) }
{
    match enter::<V, R>(world) {
        Ok(()) => Ok(()),
        Err(refused) => {
            take_back::<V, R>(world, had_slot);
            Err(refused)
        }
    }
}

/// Puts a storage without parts in, over that layout, and enters its kind in the world's table of kinds.
///
/// Errors: want of memory, which leaves the world as it was.
pub(crate) fn put_and_enter<V: Drop, T: Component>(
    world: &mut World<V>,
    alloc: Global,
    layout: T::Storage,
) -> Result<(), AllocError>
where
    MetaTable: Resource<V>,
    MaskedStorage<T>: Resource<V>,
    requires empty { HasNone (T.Storage.part_at layout) }
    requires absent { value_at world.old ⟦<MaskedStorage<T> as Held<V>>⟧.stands_at.id ≡ None }
    requires table { IsSome (held ⟦<MetaTable as Held<V>>⟧.stands_at world.old) }
    ensures ok { OnOk result (Registers
        ⟦<MetaTable as Held<V>>⟧.stands_at
        ⟦<MaskedStorage<T> as Held<V>>⟧.stands_at
        (IsNew (λ made. made ≡ layout) T.Storage.part_at) world.old world.new) }
    ensures err { OnErr result (world.new ≡ world.old) }
{
    let had_slot = world.has_slot(ResourceId::new::<V, MaskedStorage<T>>());
    put::<V, T>(world, alloc, layout)?;
    match enter_or_take_back::<V, MaskedStorage<T>>(world, had_slot) {
        Ok(()) => Ok(()),
        Err(refused) => Err(refused),
    }
}

/// Enters the kind of a resource that is there.
pub(crate) fn enter_there<V, R: Resource<V>>(world: &mut World<V>) -> Result<(), Error>
where
    MetaTable: Resource<V>,
    requires table { IsSome (held ⟦<MetaTable as Held<V>>⟧.stands_at world.old) }
    ensures ok { OnOk result (Becomes
        ⟦<MetaTable as Held<V>>⟧.stands_at
        (λ was now. now ≡ with_kind was R.kind_number) world.old world.new) }
    ensures err { OnErr result (world.new ≡ world.old) }
    ensures memory { IfErr result (λ error. error ≡ refusal.Memory) }
{
    enter::<V, R>(world)?;
    Ok(())
}

/// Registers a kind of parts over a default of its layout, in a world that has a table of kinds.
///
/// Errors: want of memory, or of a default; both leave the world as it was.
pub(crate) fn register_default<V: Drop, T: Component>(
    world: &mut World<V>,
) -> Result<(), AllocError>
where
    MetaTable: Resource<V>,
    MaskedStorage<T>: Resource<V>,
    requires table { IsSome (held ⟦<MetaTable as Held<V>>⟧.stands_at world.old) }
    ensures ok { OnOk result (Registers
        ⟦<MetaTable as Held<V>>⟧.stands_at
        ⟦<MaskedStorage<T> as Held<V>>⟧.stands_at
        (IsNew T.Storage.TryDefault.is_default T.Storage.part_at) world.old world.new) }
    ensures err { OnErr result (world.new ≡ world.old) }
{
    if world.has_value::<MaskedStorage<T>>() {
        return enter::<V, MaskedStorage<T>>(world);
    }
    let alloc = world.alloc();
    match <T::Storage as TryDefault>::try_default(alloc) {
        Ok(layout) => put_and_enter::<V, T>(world, alloc, layout),
        Err(_) => Err(AllocError),
    }
}

/// Puts a storage over a default of its layout in, where none stands.
///
/// Errors: want of memory, or of a default; both leave the world as it was.
pub(crate) fn put_default<V: Drop, T: Component>(world: &mut World<V>) -> Result<(), AllocError>
where
    MaskedStorage<T>: Resource<V>,
    ensures ok { OnOk result (DefaultsTo (IsNew T.Storage.TryDefault.is_default T.Storage.part_at)
        ⟦<MaskedStorage<T> as Held<V>>⟧.stands_at.wrapped ⟦<MaskedStorage<T> as Held<V>>⟧.stands_at.id
        world.old world.new) }
    ensures err { OnErr result (world.new ≡ world.old) }
{
    if world.has_value::<MaskedStorage<T>>() {
        return Ok(());
    }
    let alloc = world.alloc();
    match <T::Storage as TryDefault>::try_default(alloc) {
        Ok(layout) => {
            put::<V, T>(world, alloc, layout)?;
            Ok(())
        }
        Err(_) => Err(AllocError),
    }
}
