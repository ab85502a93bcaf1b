//! Whole documents that run in worlds of entities, under rules of four kinds.

mod alone;
#[cfg(test)]
mod documents;
#[cfg(test)]
mod gate;
mod gated;
#[cfg(test)]
mod memory;
#[cfg(test)]
pub mod rows;
mod watched;

pub use crate::whole_runs::alone::drift_in_memory;
pub use crate::whole_runs::gated::{Gate, Gated, Place};
pub use crate::whole_runs::watched::{Mover, Watched};
