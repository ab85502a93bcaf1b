//! The parts of the simulation's entities.

/// How far along its way an entity is, in steps.
#[derive(Clone, Copy, Debug, PartialEq, Eq)]
pub struct Position(pub u64);

/// Steps a frame.
#[derive(Clone, Copy, Debug, PartialEq, Eq)]
pub struct Velocity(pub u64);
