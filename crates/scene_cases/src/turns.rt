//! Rules with one system over a world: entities drift, each position by the velocity beside it.

mod columns;
mod documents;
mod drift;
mod rules;
mod values;

pub use crate::turns::drift::drift_all;
pub use crate::turns::rules::{Drift, Drifting};
pub use crate::turns::values::{Position, Value, Velocity};
