//! Rows and examples of use of `shred` and the crates below it, which no contract says.
#![tactic(auto)]

pub mod apart;
#[cfg(test)]
mod asyncs;
#[cfg(test)]
mod builders;
pub mod bundled;
#[cfg(test)]
mod bundles;
#[cfg(test)]
mod cells;
pub mod chores;
#[cfg(test)]
mod crews;
#[cfg(test)]
mod dispatches;
#[cfg(test)]
mod meetings;
pub mod ones;
#[cfg(test)]
mod plans;
#[cfg(test)]
mod shared;
pub mod sides;
#[cfg(test)]
mod standing;
#[cfg(test)]
mod tables;
#[cfg(test)]
mod texts;
#[cfg(test)]
mod threads;
pub mod threes;
#[cfg(test)]
mod trees;
#[cfg(test)]
mod turns;
pub mod values;
#[cfg(test)]
mod workers;
#[cfg(test)]
mod worlds;
