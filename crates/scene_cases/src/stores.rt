//! Callers of a scene's storages and markers, the same in each layout, and rows of what they answer.

pub mod adding;
pub mod course;
