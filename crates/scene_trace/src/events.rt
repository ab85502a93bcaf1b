//! What happens in a frame.
use crate::plain::{Part, Parts};
use serde_json::Value;

/// Who asked for a command.
#[derive(Clone, Copy, Debug, PartialEq, Eq)]
pub enum Actor {
    /// The document.
    Document,
    /// The system at this place among the entries, from 1.
    System(u32),
}

/// By which part somebody was bound to another: its kind, and the id of the other.
#[derive(Clone, Copy, Debug, PartialEq, Eq)]
pub struct Bound {
    pub kind: &'static str,
    pub to: u64,
}

/// Somebody who died by a kill: the one that it names, without a bound, or one who was bound to somebody who died by it.
#[derive(Clone, Copy, Debug, PartialEq, Eq)]
pub struct Death {
    pub id: u64,
    pub bound: Option<Bound>,
}

/// Why a command was skipped.
#[derive(Clone, Copy, Debug, PartialEq, Eq)]
pub enum Reason {
    /// Its object of this id isn't alive.
    NotAlive(u64),
    /// What it has for a part of this kind refers to an id that isn't alive.
    DeadReference(&'static str, u64),
}

/// What a command asks for that was skipped.
#[derive(Clone, Copy, Debug, PartialEq, Eq)]
pub enum Asked {
    Spawn,
    Kill(u64),
    Put(u64, &'static str),
    Take(u64, &'static str),
}

/// What a command did.
#[derive(Drop)]
pub enum Act {
    /// The entity of this id was born with these parts.
    Born(u64, Parts),
    /// These died, first the one that was named.
    Died(Vec<Death>),
    /// A part under a kind of an id took the place of another, if there was one.
    Put(u64, &'static str, Option<Part>, Part),
    /// The part under a kind of an id was taken, if there was one.
    Taken(u64, &'static str, Option<Part>),
    /// Nothing.
    Skipped(Asked, Reason),
}

/// A command of a frame: its place among all of the frame, from 1, who asked for it, and what it did.
#[derive(Drop)]
pub struct Deed {
    pub place: u32,
    pub actor: Actor,
    pub act: Act,
}

/// What the systems of a frame made of a part.
#[derive(Drop)]
pub struct Change {
    pub id: u64,
    pub kind: &'static str,
    pub before: Option<Part>,
    pub after: Option<Part>,
}

/// What the systems of a frame made of a global.
#[derive(Drop)]
pub struct GlobalChange {
    pub name: &'static str,
    pub before: Option<Value>,
    pub after: Option<Value>,
}

/// How somebody died in a frame: by the command at this place, for which this one asked, with the one that it named.
#[derive(Clone, Copy, Debug, PartialEq, Eq)]
pub struct Fall {
    pub place: u32,
    pub actor: Actor,
    pub with: u64,
}

/// What led to a refusal.
#[derive(Clone, Copy, Debug, PartialEq, Eq)]
pub enum Lead {
    /// A part of a kind of a holder refers to an id that is gone, and how that died.
    Gone(u64, &'static str, u64, Option<Fall>),
    /// The spawn at this place found no id left.
    Spawn(u32, Actor),
    /// The document has so many commands for the frame.
    Given(usize),
    /// The system at a place asked for so many commands.
    Queued(u32, usize),
    /// The system at this place refused.
    System(u32),
}

/// A refusal of a frame: its name with its numbers and its text, and what led there.
#[derive(Drop)]
pub struct Refusal {
    pub cause: String,
    pub leads: Vec<Lead>,
}

/// What happened in a frame, in order; nothing where it was refused.
#[derive(Drop)]
pub struct FrameTrace {
    /// The number of the frame, from 1.
    pub number: u32,
    /// What its systems made of parts, by id and kind.
    pub changes: Vec<Change>,
    /// What they made of globals, by name.
    pub globals: Vec<GlobalChange>,
    /// The commands in the order in which they ran.
    pub deeds: Vec<Deed>,
    pub refusal: Option<Refusal>,
}
