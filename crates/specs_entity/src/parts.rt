//! What the lives of an index tell, in steps that need no entities around them.
ghost use Rattle.std.specs.Prelude.{◌≡◌, ◌<◌, ◌≤◌, None, Some, slice_index_or, true, IsTrue, ◌↔◌, ℕ};
ghost use Rattle.std.specs.FinSet as set;
ghost use Rattle.specs_entity.specs.Births.{number_of, next_life, alive_of, living_in, AreDead, AreNumbered};

use crate::ids::{Entity, Generation};
use hibitset::{AtomicBitSet, Index};

/// The last persistent birth of an index.
pub(crate) fn last_at(generations: &[Option<Generation>], id: Index) -> Option<Generation>
    ensures { result ≡ slice_index_or generations.now id None }
{
    let place = id as usize;
    if place < generations.len() {
        generations[place]
    } else {
        None
    }
}

/// How many births there were up to the last one.
pub(crate) fn number(last: Option<Generation>) -> u32
    ensures value { result ≡ number_of last }
    ensures limit { result < 2147483649 }
{
    match last {
        Some(generation) => generation.number(),
        None => 0,
    }
}

/// The generation of the birth after the last one, which is dead.
pub(crate) fn following(last: Option<Generation>) -> Generation
    requires dead { alive_of last ≡ None }
    requires room { number_of last < 2147483647 }
    ensures { result ≡ next_life last }
{
    match last {
        Some(generation) => generation.raised(),
        None => Generation::one(),
    }
}

/// What is alive of the last persistent birth.
pub(crate) fn alive(last: Option<Generation>) -> Option<Generation>
    ensures { result ≡ alive_of last }
{
    match last {
        Some(generation) if generation.is_alive() => Some(generation),
        _ => None,
    }
}

/// The generation of the entity that lives at an index.
pub(crate) fn living_at(
    generations: &[Option<Generation>],
    raised: &AtomicBitSet,
    id: Index,
) -> Option<Generation>
    requires dead { set.contains raised.now.members id ≡ true
        → alive_of (slice_index_or generations.now id None) ≡ None }
    requires room { set.contains raised.now.members id ≡ true
        → number_of (slice_index_or generations.now id None) < 2147483647 }
    ensures { result ≡ living_in generations.now raised.now.members id }
{
    let last = last_at(generations, id);
    if raised.contains(id) {
        Some(following(last))
    } else {
        alive(last)
    }
}

/// Whether an entity lives at its index.
pub(crate) fn is_living(
    generations: &[Option<Generation>],
    raised: &AtomicBitSet,
    entity: Entity,
) -> bool
    requires dead { AreDead generations.now raised.now.members }
    requires room { AreNumbered generations.now raised.now.members }
    ensures { IsTrue result ↔ (living_in generations.now raised.now.members entity.id ≡ Some entity.generation) }
{
    match living_at(generations, raised, entity.id) {
        Some(generation) => generation == entity.generation,
        None => false,
    }
}
