//! Rows and cases of the crates of entities, storages and joins, which no contract says.
#![tactic(auto)]

#[cfg(test)]
mod carried;
#[cfg(test)]
mod changes;
#[cfg(test)]
mod channels;
#[cfg(test)]
mod cursors;
pub mod drifting;
#[cfg(test)]
mod drifts;
#[cfg(test)]
mod entities;
#[cfg(test)]
mod entries;
pub mod flagging;
#[cfg(test)]
mod flags;
#[cfg(test)]
mod hashes;
#[cfg(test)]
mod joins;
#[cfg(test)]
mod lent;
#[cfg(test)]
mod parts;
#[cfg(test)]
mod placed;
pub mod placing;
pub mod pushing;
#[cfg(test)]
mod restricted;
#[cfg(test)]
mod sets;
#[cfg(test)]
mod shared;
#[cfg(test)]
mod storages;
