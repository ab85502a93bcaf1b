//! What half of a tree needs to run by itself: its ids, and slots for what it writes.
ghost use Rattle.std.specs.Prelude.{◌≡◌, IfOk};
ghost use Rattle.shred.specs.Trees.{conflict, have_common};
ghost use Rattle.shred.specs.Rooms.{IsRoom};

use crate::trees::RunWithPool;
use shred_stages::make_seat;
use shred_world::laws::slices_share_an_item;
use shred_world::{ResourceId, World};
use std::alloc::{AllocError, Global};

/// The lists of a half's ids, and an empty slot for each value that it writes.
#[derive(Drop)]
pub(crate) struct Room<V> {
    pub(crate) reads: Vec<ResourceId>,
    pub(crate) writes: Vec<ResourceId>,
    pub(crate) seat: World<V>,
}

/// The rooms of both halves.
#[derive(Drop)]
pub(crate) struct Rooms<V> {
    pub(crate) head: Room<V>,
    pub(crate) tail: Room<V>,
}

/// The room of a tree.
///
/// Errors: want of memory.
pub(crate) fn make_room<V: Drop, T: RunWithPool<V>>(
    alloc: Global,
    tree: &T,
) -> Result<Room<V>, AllocError>
    ensures { IfOk result (IsRoom (T.read_list tree.now) (T.write_list tree.now)) }
{
    let mut reads = Vec::new(alloc);
    tree.reads(&mut reads)?;
    let mut writes = Vec::new(alloc);
    tree.writes(&mut writes)?;
    let seat = make_seat(alloc, &writes)?;
    Ok(Room {
        reads,
        writes,
        seat,
    })
}

/// Whether two lists have an id in common. Slices are walked without memory, so this is never refused.
fn have_common(ids: &[ResourceId], others: &[ResourceId]) -> bool
    ensures { result ≡ have_common ids.now others.now }
{
    slices_share_an_item(ids, others).unwrap_or(false)
}

/// Whether what one of two writes is used by the other.
pub(crate) fn conflict<V>(one: &Room<V>, other: &Room<V>) -> bool
    ensures { result ≡ conflict one.now.reads.items one.now.writes.items other.now.reads.items other.now.writes.items }
{
    have_common(&one.writes, &other.writes)
        || have_common(&one.writes, &other.reads)
        || have_common(&one.reads, &other.writes)
}
