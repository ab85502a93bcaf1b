//! Rows of documents, of devices and of rules, which no contract says.
#![tactic(auto)]

#[cfg(test)]
mod bonds;
#[cfg(test)]
mod carrier;
#[cfg(test)]
mod commands;
#[cfg(test)]
mod counts;
#[cfg(test)]
mod devices;
#[cfg(test)]
mod documents;
#[cfg(test)]
mod failures;
pub mod filling;
#[cfg(test)]
mod frames;
#[cfg(test)]
mod kept_rows;
#[cfg(test)]
mod laws;
#[cfg(test)]
mod leaver_rows;
mod leavers;
mod leaving;
#[cfg(test)]
mod limits;
#[cfg(test)]
mod memory;
#[cfg(test)]
mod pictures;
#[cfg(test)]
mod printed_values;
#[cfg(test)]
mod queues;
#[cfg(test)]
mod readings;
#[cfg(test)]
mod refusals;
#[cfg(test)]
mod resumed;
#[cfg(test)]
mod runs;
#[cfg(test)]
mod sights;
#[cfg(test)]
mod stores;
#[cfg(test)]
mod systems;
#[cfg(test)]
mod texts;
#[cfg(test)]
mod touches;
#[cfg(test)]
mod traces;
#[cfg(test)]
mod turns;
pub mod whole_runs;

pub use leavers::{Leave, Leavers};
