//! Rows of a scene's storages and markers, the same in each layout.

mod changes;
mod markers;
mod rows;
