//! Readers of the events of a storage.
ghost use Rattle.std.specs.Prelude.{◌≡◌, IfOk, OnOk, OnErr};
ghost use Rattle.scene_world.specs.Telling.{GainsReader, CatchesUp, TakesTold, TakesSome};

use hibitset_sets::BitSet;
use specs_layouts::{Component, MaskedStorage, ReaderId, Tracked};
use std::alloc::AllocError;

/// Registers a reader of a storage's events, who is told of what becomes of its parts from now on, and turns emission
/// on.
///
/// Errors: want of memory; the storage is as it was.
pub fn gain_reader<T: Component>(storage: &mut MaskedStorage<T>) -> Result<ReaderId, AllocError>
where
    T::Storage: Tracked<T>,
    ensures ok { IfOk result (λ reader. GainsReader T.Storage.part_at T.Storage.events T.Storage.emits reader
        storage.old.inner storage.new.inner) }
    ensures err { OnErr result (storage.new ≡ storage.old) }
{
    let reader = storage.register_reader()?;
    storage.set_event_emission(true);
    Ok(reader)
}

/// Puts the indices below 16,777,216 of which a reader of a storage's events has yet to read events into a set. The
/// reader's place stays: `catch_up_reader` moves it. A reader of another storage whose number no reader of this one has
/// puts in none.
///
/// Errors: want of memory; some of the indices are in.
pub fn told_indices<T: Component>(
    storage: &MaskedStorage<T>,
    reader: &ReaderId,
    into: &mut BitSet,
) -> Result<(), AllocError>
where
    T::Storage: Tracked<T>,
    ensures ok { OnOk result (TakesTold (T.Storage.events storage.now.inner) reader.now into.old into.new) }
    ensures err { OnErr result (TakesSome (T.Storage.events storage.now.inner) reader.now into.old into.new) }
{
    storage.channel().unread_indices(reader, into)
}

/// A reader of a storage's events has read all of them. Takes no memory. No part is another, and each other reader has
/// what it had to read.
pub fn catch_up_reader<T: Component>(storage: &mut MaskedStorage<T>, reader: &ReaderId)
where
    T::Storage: Tracked<T>,
    ensures { CatchesUp T.Storage.part_at T.Storage.events T.Storage.emits reader.now storage.old.inner
        storage.new.inner }
{
    storage.catch_up(reader);
}
