//! Rows of documents with their faults, as `scene_sight` lists them.
mod crowd;
mod many;
mod refused;
mod rows;
