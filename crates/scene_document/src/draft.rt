//! A document as it reads, before it is tested: its shape is right, and the rules have read what is theirs.
use scene_model::{Store, SystemAccess};
use serde_json::Value;
use shred_plan::RunningTime;

/// An entity as a document says it: each part at the place of its kind among the rules' kinds, or none where the
/// kind is unknown.
#[derive(Drop)]
pub struct EntityDraft<D> {
    pub id: u64,
    pub parts: Vec<Option<(usize, D)>>,
}

/// A system of the rules, with what it declares and how long it is said to run.
#[derive(Drop)]
pub struct MadeDraft<S> {
    pub system: S,
    pub accessor: SystemAccess,
    pub time: RunningTime,
}

/// A system as a document says it; it is not made where its kind is unknown.
#[derive(Drop)]
pub struct SystemDraft<'a, S> {
    pub kind: &'a str,
    pub name: &'a str,
    pub after: Vec<&'a str>,
    pub config: Option<&'a Value>,
    pub local: bool,
    pub made: Option<MadeDraft<S>>,
}

/// An entry of the list of systems.
#[derive(Drop)]
pub enum EntryDraft<'a, S> {
    Barrier,
    System(SystemDraft<'a, S>),
}

/// A command as a document says it; a part or a kind is none where the kind is unknown.
#[derive(Drop)]
pub enum CommandDraft<D> {
    Spawn(Vec<Option<(&'static str, D)>>),
    Kill(u64),
    Put(u64, Option<(&'static str, D)>),
    Take(u64, Option<&'static str>),
}

/// A document as it reads. A global stands at the place of its name among the rules' globals, or is none where the name
/// is unknown.
#[derive(Drop)]
pub struct DocumentDraft<'a, D, G, S> {
    pub next: u64,
    pub entities: Vec<EntityDraft<D>>,
    pub globals: Vec<Option<(usize, G)>>,
    pub entries: Vec<EntryDraft<'a, S>>,
    pub frames: u32,
    pub commands: Vec<Vec<CommandDraft<D>>>,
    pub workers: u64,
    /// The kind of store, or none where its name is that of none.
    pub store: Option<Store>,
}
