//! A caller of a scene's storages, whose contract is the same for each of the four stores.
ghost use Rattle.std.specs.Prelude.{◌≡◌, ◌≢◌, ◌<◌, ◌∷◌, [], true, None, Some, IsSome, IfOk, OnOk};
ghost use Rattle.specs_layouts.specs.Channels.{CaughtUp, log_of, with_more};
ghost use Rattle.specs_layouts.specs.Flagged.{tells};
ghost use Rattle.specs_layouts.specs.MaskedChanges.{PutsIn};
ghost use Rattle.specs_layouts.specs.Parts.{HasNone};
ghost use Rattle.specs_layouts.specs.declared.track.ComponentEvent.TheVariants as event;
ghost use Rattle.scene_world.specs.Stores.{store_of, store_part};

use hibitset_sets::Index;
use scene_world::{SceneStorage, Store, scene_storage};
use specs_layouts::{
    Component, ComponentEvent, MaskedStorage, ReaderId, Tracked, UnprotectedStorage,
};
use std::alloc::{AllocError, Global};

/// Puts a part where none is.
fn put<T: Component>(storage: &mut MaskedStorage<T>, id: Index, part: T) -> Result<(), AllocError>
    requires range { id < 16777216 }
    requires absent { T.Storage.part_at storage.old.inner id ≡ None }
    requires emits { T.Storage.emits storage.old.inner ≡ true }
    ensures parts { OnOk result (PutsIn T.Storage.part_at storage.old id (Some part) storage.new) }
    ensures told { OnOk result (T.Storage.events storage.new.inner
        ≡ with_more (T.Storage.events storage.old.inner) (event.Inserted id ∷ [])) }
    ensures emits { T.Storage.emits storage.new.inner ≡ true }
{
    match storage.insert(id, part) {
        Ok(_) => Ok(()),
        Err(_) => Err(AllocError),
    }
}

/// Writes a part over the one at an index, by what is lent for writing.
fn write<T: Component>(storage: &mut MaskedStorage<T>, id: Index, part: T) -> Result<(), AllocError>
    requires there { IsSome (T.Storage.part_at storage.old.inner id) }
    requires emits { T.Storage.emits storage.old.inner ≡ true }
    ensures parts { OnOk result (PutsIn T.Storage.part_at storage.old id (Some part) storage.new) }
    ensures told { OnOk result (T.Storage.events storage.new.inner
        ≡ with_more (T.Storage.events storage.old.inner) (event.Modified id ∷ [])) }
    ensures emits { OnOk result (T.Storage.emits storage.new.inner ≡ true) }
{
    *storage.get_mut(id)? = part;
    Ok(())
}

/// Puts a part over the one at an index.
fn replace<T: Component>(
    storage: &mut MaskedStorage<T>,
    id: Index,
    part: T,
) -> Result<(), AllocError>
    requires range { id < 16777216 }
    requires there { IsSome (T.Storage.part_at storage.old.inner id) }
    requires emits { T.Storage.emits storage.old.inner ≡ true }
    ensures parts { OnOk result (PutsIn T.Storage.part_at storage.old id (Some part) storage.new) }
    ensures told { OnOk result (T.Storage.events storage.new.inner
        ≡ with_more (T.Storage.events storage.old.inner) (event.Modified id ∷ [])) }
    ensures emits { T.Storage.emits storage.new.inner ≡ true }
{
    match storage.insert(id, part) {
        Ok(_) => Ok(()),
        Err(_) => Err(AllocError),
    }
}

/// Takes the part at an index out.
fn take<T: Component>(storage: &mut MaskedStorage<T>, id: Index) -> Result<Option<T>, AllocError>
    requires there { IsSome (T.Storage.part_at storage.old.inner id) }
    requires emits { T.Storage.emits storage.old.inner ≡ true }
    ensures value { IfOk result (λ part. part ≡ T.Storage.part_at storage.old.inner id) }
    ensures parts { OnOk result (PutsIn T.Storage.part_at storage.old id None storage.new) }
    ensures told { OnOk result (T.Storage.events storage.new.inner
        ≡ with_more (T.Storage.events storage.old.inner) (event.Removed id ∷ [])) }
{
    storage.remove(id)
}

/// Puts parts at 3 and 4, writes another at 3, puts a third over it, and takes that out.
///
/// Errors: `AllocError`, and what was done before is done.
pub fn put_change_and_take<T: Component>(
    storage: &mut MaskedStorage<T>,
    three: (T, T, T),
    four: T,
) -> Result<Option<T>, AllocError>
    requires none { HasNone (T.Storage.part_at storage.old.inner) }
    requires emits { T.Storage.emits storage.old.inner ≡ true }
    ensures taken { IfOk result (λ part. part ≡ Some three.2) }
    ensures three { OnOk result (T.Storage.part_at storage.new.inner 3 ≡ None) }
    ensures four { OnOk result (T.Storage.part_at storage.new.inner 4 ≡ Some four) }
    ensures events { OnOk result (T.Storage.events storage.new.inner ≡ with_more (T.Storage.events storage.old.inner)
        (event.Inserted 3 ∷ event.Inserted 4 ∷ event.Modified 3 ∷ event.Modified 3 ∷ event.Removed 3 ∷ [])) }
{
    let (first, second, third) = three;
    put(storage, 3, first)?;
    put(storage, 4, four)?;
    write(storage, 3, second)?;
    replace(storage, 3, third)?;
    take(storage, 3)
}

/// A part of a scene.
#[derive(Clone, Copy, Debug, PartialEq, Eq)]
pub struct Weight {
    /// Its number.
    pub number: u32,
}

impl Component for Weight {
    type Storage = SceneStorage<Weight>;
}

/// The weight with this number.
pub fn weighing(number: u32) -> Weight
    ensures { result ≡ record { number = number } }
{
    Weight { number }
}

/// A storage of weights in a store, without parts, and a reader of its events.
///
/// Errors: `AllocError`.
pub fn weights(alloc: Global, store: Store) -> Result<(MaskedStorage<Weight>, ReaderId), AllocError>
    ensures store { IfOk result (λ made. store_of made.0.inner.inner ≡ store) }
    ensures none { IfOk result (λ made. HasNone (store_part made.0.inner.inner)) }
    ensures emits { IfOk result (λ made. tells made.0.inner ≡ true) }
    ensures caught_up { IfOk result (λ made. CaughtUp (log_of made.0.inner.channel) made.1) }
{
    let mut storage = MaskedStorage::new(alloc, scene_storage(alloc, store));
    let reader = storage.register_reader()?;
    Ok((storage, reader))
}

/// What came of a course of changes: the part that was taken out, the one that stayed, and what a reader read.
#[derive(Debug, Drop)]
pub struct Course {
    /// The part that was taken out.
    pub taken: Option<Weight>,
    /// The part that stayed.
    pub kept: Weight,
    /// What the reader read.
    pub events: Vec<ComponentEvent>,
}

/// Weights put, written, replaced and taken out in a store: the same whichever it is.
///
/// Errors: `AllocError`.
pub fn run_course(alloc: Global, store: Store) -> Result<Course, AllocError>
    ensures taken { IfOk result (λ course. course.taken ≡ Some (record { number = 9 })) }
    ensures kept { IfOk result (λ course. course.kept ≡ record { number = 6 }) }
    ensures events { IfOk result (λ course. course.events.items ≡ event.Inserted 3 ∷ event.Inserted 4
        ∷ event.Modified 3 ∷ event.Modified 3 ∷ event.Removed 3 ∷ []) }
{
    let (mut storage, reader) = weights(alloc, store)?;
    let three = (weighing(5), weighing(8), weighing(9));
    let taken = put_change_and_take(&mut storage, three, weighing(6))?;
    let mut events = Vec::new(alloc);
    storage.channel_mut().read(&reader, &mut events)?;
    Ok(Course {
        taken,
        kept: *storage.get(4),
        events,
    })
}
