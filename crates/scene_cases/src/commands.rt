//! Rules over a world whose parts refer to entities: an entity belongs to another, and has a rank.

mod columns;
pub mod course;
mod datum;
mod documents;
mod rules;
mod texts;
mod values;

pub use crate::commands::datum::Datum;
pub use crate::commands::rules::{Idle, Owning};
pub use crate::commands::texts::world_of;
pub use crate::commands::values::{Owner, Rank, Value};
