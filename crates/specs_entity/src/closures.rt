//! Entities that fall with others.
ghost use Rattle.std.specs.Prelude.{◌≡◌, ◌<◌, ◌⊎◌, ℕ, MatchOption, IfOk, IfErr, IsSome, OnOk, map};
ghost use Rattle.std.specs.List.{All};
ghost use Rattle.specs_entity.specs.Births.{IsAlive, CanKill, entity_at, indices_of, living};
ghost use Rattle.specs_entity.specs.Closures.{IsClosure, IsFirstDead, IsPaired, IsPairAt, RefusesClosure};
ghost use Rattle.specs_entity.specs.Holders.{AreLeast, AreLiving, Holds, IsChained, end_in};

use crate::entities_res::EntitiesRes;
use crate::errors::Error;
use crate::holders::Holders;
use crate::ids::Entity;
use crate::laws::the_living_are_below_the_limit;
use crate::least::{least_indices, unmark_each};
use hibitset::Index;
use std::alloc::{AllocError, Global};

impl EntitiesRes {
    /// The entities that fall with some roots: the least set of living entities that has the roots and, with each
    /// target, its living holders, ascending by index. Each pair is a holder and its target; one with an end that isn't
    /// alive counts for nothing. `kill` of the answer isn't refused.
    ///
    /// It costs a look at each pair and at each entity that falls.
    ///
    /// Errors: `WrongGeneration` with the first root that isn't alive; `Memory`. Nothing changes, whatever it answers.
    pub fn closure(
        &mut self,
        roots: &[Entity],
        pairs: &[(Entity, Entity)],
    ) -> Result<Vec<Entity>, Error>
        ensures same { self.new ≡ self.old }
        ensures value { IfOk result (λ entities. IsClosure self.old roots.now pairs.now entities.items) }
        ensures killable { IfOk result (λ entities. CanKill (living self.old) entities.items) }
        ensures refused { IfErr result (RefusesClosure self.old roots.now) }
    {
        if let Some(place) = self.first_dead(roots) {
            return Err(Error::WrongGeneration(self.refusal(roots[place])));
        }
        match self.fallen(roots, pairs) {
            Ok(entities) => Ok(entities),
            Err(AllocError) => Err(Error::Memory),
        }
    }

    /// The place of the first entity that isn't alive.
    fn first_dead(&self, entities: &[Entity]) -> Option<usize>
        ensures { MatchOption result (All (IsAlive self.now) entities.now) (IsFirstDead self.now entities.now) }
    {
        for (place, entity) in entities.iter().enumerate() {
            if !self.is_alive(*entity) {
                return Some(place);
            }
        }
        None
    }

    /// Notes a pair, where both its ends are alive.
    ///
    /// Errors: `AllocError`, and what was noted is of no more use.
    fn note_pair(&self, holders: &mut Holders, pair: (Entity, Entity)) -> Result<(), AllocError>
        requires chained { IsChained (end_in holders.old.ends) holders.old.links.items }
        requires lives { AreLiving self.now holders.old.links.items }
        ensures chained { OnOk result (IsChained (end_in holders.new.ends) holders.new.links.items) }
        ensures lives { OnOk result (AreLiving self.now holders.new.links.items) }
        ensures kept { OnOk result ((holder target : ℕ) → Holds holders.old.links.items holder target
            → Holds holders.new.links.items holder target) }
        ensures noted { OnOk result ((holder target : ℕ) → IsPairAt self.now holder target pair
            → Holds holders.new.links.items holder target) }
        ensures only { OnOk result ((holder target : ℕ) → Holds holders.new.links.items holder target
            → Holds holders.old.links.items holder target ⊎ IsPairAt self.now holder target pair) }
    {
        if self.is_alive(pair.0) && self.is_alive(pair.1) {
            holders.push(pair.0.id, pair.1.id)?;
        }
        Ok(())
    }

    /// The pairs of which both ends are alive, by their indices.
    ///
    /// Errors: `AllocError`.
    fn holders_among(&self, pairs: &[(Entity, Entity)]) -> Result<Holders, AllocError>
        ensures chained { IfOk result (λ holders. IsChained (end_in holders.ends) holders.links.items) }
        ensures lives { IfOk result (λ holders. AreLiving self.now holders.links.items) }
        ensures paired { IfOk result (λ holders. (holder target : ℕ) → Holds holders.links.items holder target
            → IsPaired self.now pairs.now holder target) }
        ensures all { IfOk result (λ holders. (holder target : ℕ) → IsPaired self.now pairs.now holder target
            → Holds holders.links.items holder target) }
    {
        let mut holders = Holders::new(self.alloc);
        for pair in pairs {
            self.note_pair(&mut holders, *pair)?;
        }
        Ok(holders)
    }

    /// The indices of those that fall with the roots, ascending.
    ///
    /// Errors: `AllocError`.
    fn fallen_indices(
        &mut self,
        roots: &[Index],
        holders: &Holders,
    ) -> Result<Vec<Index>, AllocError>
        requires roots { All (λ root. IsSome (living self.old root)) roots.now }
        requires chained { IsChained (end_in holders.now.ends) holders.now.links.items }
        requires lives { AreLiving self.old holders.now.links.items }
        ensures same { self.new ≡ self.old }
        ensures least { IfOk result (λ indices. AreLeast roots.now holders.now.links.items indices.items) }
    {
        let mut members = Vec::new(self.alloc);
        let indices = least_indices(roots, holders, &mut self.marked, &mut members, self.alloc);
        unmark_each(&mut self.marked, &members);
        indices
    }

    /// The entities that fall with roots that are alive.
    ///
    /// Errors: `AllocError`.
    fn fallen(
        &mut self,
        roots: &[Entity],
        pairs: &[(Entity, Entity)],
    ) -> Result<Vec<Entity>, AllocError>
        requires alive { All (IsAlive self.old) roots.now }
        ensures same { self.new ≡ self.old }
        ensures value { IfOk result (λ entities. IsClosure self.old roots.now pairs.now entities.items) }
        ensures killable { IfOk result (λ entities. CanKill (living self.old) entities.items) }
    {
        the_living_are_below_the_limit(self);
        let root_indices = indices_of(roots, self.alloc)?;
        let holders = self.holders_among(pairs)?;
        let indices = self.fallen_indices(&root_indices, &holders)?;
        let entities = self.entities_at(&indices)?;
        Ok(entities)
    }

    /// The entities at indices.
    ///
    /// Errors: `AllocError`.
    fn entities_at(&self, indices: &[Index]) -> Result<Vec<Entity>, AllocError>
        ensures { IfOk result (λ entities. entities.items ≡ map (entity_at self.now) indices.now) }
    {
        indices
            .iter()
            .map(|index| self.entity(*index))
            .collect(self.alloc)
    }
}

/// The indices of entities.
///
/// Errors: `AllocError`.
fn indices_of(entities: &[Entity], alloc: Global) -> Result<Vec<Index>, AllocError>
    ensures { IfOk result (λ indices. indices.items ≡ indices_of entities.now) }
{
    entities.iter().map(|entity| entity.id).collect(alloc)
}
