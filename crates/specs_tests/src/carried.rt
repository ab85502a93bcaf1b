//! The cases of the Rust crate's own tests of entities, storages and joins, written anew.
mod births;
mod flagged;
mod joined;
mod layouts;
