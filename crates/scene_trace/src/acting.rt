//! Commands, followed over a plain scene.
use crate::events::{Act, Actor, Asked, Bound, Death, Fall, Reason};
use crate::plain::{Part, Parts, Plain, part_of};
use scene_model::Command;
use scene_world::Rules;
use std::alloc::{AllocError, Global};
use std::collections::BTreeMap;

/// A plain scene on which commands act.
#[derive(Drop)]
pub(crate) struct Acting<'a, R: Rules> {
    alloc: Global,
    rules: &'a R,
    pub(crate) plain: Plain,
    /// Who was ever bound to an id, and by a part of which kind.
    bound: BTreeMap<u64, Vec<(u64, &'static str)>>,
    pub(crate) fallen: BTreeMap<u64, Fall>,
}

/// Notes who is bound by a part.
fn bind<R: Rules>(
    alloc: Global,
    bound: &mut BTreeMap<u64, Vec<(u64, &'static str)>>,
    holder: u64,
    kind: &'static str,
    part: &Part,
) -> Result<(), AllocError> {
    if !R::owning(kind) {
        return Ok(());
    }
    for id in &part.refs {
        match bound.get_mut(id) {
            Some(holders) => holders.push((holder, kind))?,
            None => {
                let mut holders = Vec::new(alloc);
                holders.push((holder, kind))?;
                drop(bound.insert(*id, holders)?);
            }
        }
    }
    Ok(())
}

impl<'a, R: Rules> Acting<'a, R> {
    pub(crate) fn new(
        alloc: Global,
        rules: &'a R,
        plain: Plain,
    ) -> Result<Acting<'a, R>, AllocError> {
        let mut bound = BTreeMap::new(alloc);
        for (id, parts) in &plain.entities {
            for (kind, part) in parts {
                bind::<R>(alloc, &mut bound, *id, *kind, part)?;
            }
        }
        Ok(Acting {
            alloc,
            rules,
            plain,
            bound,
            fallen: BTreeMap::new(alloc),
        })
    }

    /// What a command does, which stands at a place and was asked for by this one; none where a spawn finds no id left.
    pub(crate) fn act(
        &mut self,
        place: u32,
        actor: Actor,
        command: &Command<R::Data>,
    ) -> Result<Option<Act>, AllocError> {
        match command {
            Command::Spawn(parts) => self.spawn(parts),
            Command::Kill(id) => Ok(Some(self.kill(place, actor, *id)?)),
            Command::Put(id, kind, datum) => {
                let part = part_of(self.alloc, self.rules, datum)?;
                Ok(Some(self.put(*id, *kind, part)?))
            }
            Command::Take(id, kind) => Ok(Some(self.take(*id, *kind))),
        }
    }

    fn is_alive(&self, id: u64) -> bool {
        self.plain.entities.contains_key(&id)
    }

    /// The first id to which a part refers that isn't alive.
    pub(crate) fn dead_in(&self, part: &Part) -> Option<u64> {
        for id in &part.refs {
            if !self.is_alive(*id) {
                return Some(*id);
            }
        }
        None
    }

    fn spawn(&mut self, data: &[(&'static str, R::Data)]) -> Result<Option<Act>, AllocError> {
        let mut parts: Parts = BTreeMap::new(self.alloc);
        for (kind, datum) in data {
            let part = part_of(self.alloc, self.rules, datum)?;
            if let Some(dead) = self.dead_in(&part) {
                return Ok(Some(Act::Skipped(Asked::Spawn, Reason::DeadReference(*kind, dead))));
            }
            drop(parts.insert(*kind, part)?);
        }
        let id = self.plain.next;
        if id == u64::MAX {
            return Ok(None);
        }
        self.plain.next = id.saturating_add(1);
        for (kind, part) in &parts {
            bind::<R>(self.alloc, &mut self.bound, id, *kind, part)?;
        }
        drop(self.plain.entities.insert(id, parts.clone()?)?);
        Ok(Some(Act::Born(id, parts)))
    }

    /// Whether an entity has a part of a kind that refers to an id.
    fn is_bound(&self, holder: u64, kind: &'static str, to: u64) -> bool {
        let Some(parts) = self.plain.entities.get(&holder) else {
            return false;
        };
        match parts.get(kind) {
            Some(part) => part.refs.contains(&to),
            None => false,
        }
    }

    /// Those that are bound to one who died, and live.
    fn bound_to(&self, to: u64) -> Result<Vec<Death>, AllocError> {
        let mut deaths = Vec::new(self.alloc);
        let Some(holders) = self.bound.get(&to) else {
            return Ok(deaths);
        };
        for (holder, kind) in holders {
            if self.is_bound(*holder, *kind, to) {
                deaths.push(Death {
                    id: *holder,
                    bound: Some(Bound { kind: *kind, to }),
                })?;
            }
        }
        Ok(deaths)
    }

    /// Takes one out who dies, if it lives yet, and notes how.
    fn fall(
        &mut self,
        death: Death,
        fall: Fall,
        deaths: &mut Vec<Death>,
    ) -> Result<(), AllocError> {
        if self.plain.entities.remove(&death.id).is_some() {
            drop(self.fallen.insert(death.id, fall)?);
            deaths.push(death)?;
        }
        Ok(())
    }

    fn kill(&mut self, place: u32, actor: Actor, id: u64) -> Result<Act, AllocError> {
        if !self.is_alive(id) {
            return Ok(Act::Skipped(Asked::Kill(id), Reason::NotAlive(id)));
        }
        let fall = Fall {
            place,
            actor,
            with: id,
        };
        let most = self.plain.entities.len();
        let mut deaths = Vec::new(self.alloc);
        self.fall(Death { id, bound: None }, fall, &mut deaths)?;
        for next in 0..most {
            let Some(dead) = deaths.get(next) else {
                break;
            };
            let bound = self.bound_to(dead.id)?;
            for death in bound {
                self.fall(death, fall, &mut deaths)?;
            }
        }
        Ok(Act::Died(deaths))
    }

    fn put(&mut self, id: u64, kind: &'static str, part: Part) -> Result<Act, AllocError> {
        if !self.is_alive(id) {
            return Ok(Act::Skipped(Asked::Put(id, kind), Reason::NotAlive(id)));
        }
        if let Some(dead) = self.dead_in(&part) {
            return Ok(Act::Skipped(Asked::Put(id, kind), Reason::DeadReference(kind, dead)));
        }
        bind::<R>(self.alloc, &mut self.bound, id, kind, &part)?;
        let copy = part.clone()?;
        let before = match self.plain.entities.get_mut(&id) {
            Some(parts) => parts.insert(kind, copy)?,
            None => None,
        };
        Ok(Act::Put(id, kind, before, part))
    }

    fn take(&mut self, id: u64, kind: &'static str) -> Act {
        match self.plain.entities.get_mut(&id) {
            Some(parts) => Act::Taken(id, kind, parts.remove(kind)),
            None => Act::Skipped(Asked::Take(id, kind), Reason::NotAlive(id)),
        }
    }
}
