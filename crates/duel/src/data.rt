//! The parts of a duel, in documents and in a world.
use specs_entity::Entity;

/// How much an entity takes from its target in a turn.
#[derive(Clone, Copy, Debug, PartialEq, Eq)]
pub struct Attack(pub u64);

/// How much can be taken from an entity before it is buried.
#[derive(Clone, Copy, Debug, PartialEq, Eq)]
pub struct Hp(pub u64);

/// The entity from which an entity takes.
#[derive(Clone, Copy, Debug, PartialEq, Eq)]
pub struct Target(pub Entity);

/// A part in a document: a natural number of 64 bits, or a reference.
#[derive(Clone, Copy, Debug, PartialEq, Eq)]
pub enum Datum {
    /// The number of an `attack` or an `hp`.
    Number(u64),
    /// The id that a `target` refers to.
    Target(u64),
}

/// What `bury` asks for.
#[derive(Clone, Copy)]
pub enum Ask {
    /// The death of each whose hp is 0.
    Deaths,
    /// That each other whose target's hp is 0 has no target any more.
    Losses,
}
