//! A plan as it is drawn.

/// A system as a plan has it.
#[derive(Drop)]
pub struct PlanSystem {
    /// Its place among the entries of the document, from 1.
    pub place: u32,
    pub kind: String,
    /// Its name, which is empty where it has none.
    pub name: String,
    /// Its stage, from 0; local systems stand in one behind all others.
    pub stage: u32,
    /// Its group among those of the stage, from 0.
    pub group: u32,
    /// How long it is said to run.
    pub units: u32,
    /// Whether it runs alone, behind those of all stages.
    pub local: bool,
    /// What it reads, by words.
    pub reads: Vec<String>,
    /// What it writes, by words.
    pub writes: Vec<String>,
    /// The places of those that it comes after.
    pub after: Vec<u32>,
}

/// The systems of a document in the order in which they run: stage by stage, group by group, and then the local ones.
#[derive(Drop)]
pub struct Plan {
    pub systems: Vec<PlanSystem>,
}
