//! Worlds with queues of jobs, as callers use them.

pub mod asking;
pub mod building;
pub mod giving;
pub mod stories;
pub mod tasks;
pub mod values;
