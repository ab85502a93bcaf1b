//! What a run is started with, and what it leaves.
use crate::{DispatchError, StagesBuilder};
use shred_world::World;

/// Staged systems, how many workers run a stage of them, and the world that they run over.
#[derive(Drop)]
pub struct Errand<V, S> {
    /// The systems.
    pub stages: StagesBuilder<V, S>,
    /// How many workers run a stage.
    pub workers: usize,
    /// The world.
    pub world: World<V>,
}

/// What a run leaves, and how it ended.
#[derive(Drop)]
pub struct Done<V, S> {
    /// The systems, the workers and the world.
    pub errand: Errand<V, S>,
    /// How the run ended, as `StagesBuilder::execute` answers it.
    pub result: Result<(), DispatchError>,
}

/// Why no run was started.
#[derive(Drop)]
pub enum Unstarted<V, S> {
    /// There was no memory for it: nothing was begun, and all is handed back.
    Memory(Errand<V, S>),
    /// The thread couldn't be started: systems and world were let go with it.
    Thread,
}
