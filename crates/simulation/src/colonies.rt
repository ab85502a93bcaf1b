//! Colonies that grow in one phase: systems of one stage create and delete entities, each by a seat of its own.

pub mod growing;
pub mod runs;
pub mod values;
