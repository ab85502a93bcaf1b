//! Entities that are reached from one by an index of holders: those that refer to it, those that refer to these, and so on.
ghost use Rattle.std.specs.Prelude.{◌≡◌, ◌<◌, true, IfOk, OnOk};
ghost use Rattle.specs_entity.specs.Births.{IsAlive, is_named};
ghost use Rattle.scene_model.specs.Declaring.{texts};
ghost use Rattle.scene_world.specs.Standing.{roll_of, column_of, owning_in};
ghost use Rattle.scene_world.specs.Putting.{named_in};
ghost use Rattle.scene_world.specs.Members.{kinds_by};
ghost use Rattle.scene_commands.specs.Acts.{seen_of, MayAct};
ghost use Rattle.scene_commands.specs.Owning.{PairAlike};
ghost use Rattle.scene_commands.specs.Links.{Covers};
ghost use Rattle.scene_commands.specs.Reaching.{any_at, names_at, HasUnder, HasReferring, AreReached, Tells, GoesOnBy};

use crate::gone::id_marked;
use crate::holders::Holders;
use crate::looking::entity_under;
use scene_world::Rules;
use shred_world::World;
use specs_entity::Entity;
use std::alloc::{AllocError, Global};
use std::collections::HashSet;

/// Entities that were reached, none at the same index as another, their indices, and a list for those that a part names.
#[derive(Drop)]
pub(crate) struct Reached {
    pub(crate) seen: HashSet<u32>,
    pub(crate) entities: Vec<Entity>,
    pub(crate) named: Vec<Entity>,
}

impl Reached {
    /// Takes an entity in, where none at its index is in yet.
    ///
    /// Errors: want of memory.
    fn reach(&mut self, entity: Entity) -> Result<(), AllocError>
        requires range { entity.id < 16777216 }
        requires tells { Tells self.old.seen self.old.entities.items }
        ensures tells { OnOk result (Tells self.new.seen self.new.entities.items) }
        ensures longer { OnOk result
            (GoesOnBy (λ one. one ≡ entity) self.old.entities.items self.new.entities.items) }
        ensures is_in { OnOk result (is_named self.new.entities.items entity.id ≡ true) }
    {
        let index = entity.id();
        if self.seen.contains(&index) {
            return Ok(());
        }
        self.seen.insert(index)?;
        self.entities.push(entity)?;
        Ok(())
    }
}

/// Whether the part of a kind at an index refers to an entity at another, alive or not. What the list held is forgotten.
///
/// Errors: want of memory.
fn kind_names<R: Rules>(
    world: &World<R::Value>,
    kind: &str,
    index: u32,
    target: u32,
    named: &mut Vec<Entity>,
) -> Result<bool, AllocError>
    ensures { IfOk result (λ names. names ≡ any_at target (named_in
        (column_of (kinds_by R.Rules R.Value.SceneValue) (seen_of world.now) kind.now index))) }
{
    let Some(value) = world.get_raw(R::part_id(kind)) else {
        return Ok(false);
    };
    named.clear();
    R::named_at(value, kind, index, named)?;
    for entity in named.as_slice() {
        if entity.id() == target {
            return Ok(true);
        }
    }
    Ok(false)
}

/// So of its parts of some kinds.
///
/// Errors: want of memory.
fn any_names<R: Rules>(
    world: &World<R::Value>,
    names: &[&'static str],
    index: u32,
    target: u32,
    named: &mut Vec<Entity>,
) -> Result<bool, AllocError>
    ensures { IfOk result (λ some. some ≡ names_at (kinds_by R.Rules R.Value.SceneValue) (seen_of world.now)
        (texts names.now) index target) }
{
    for kind in names {
        if kind_names::<R>(world, kind, index, target, named)? {
            return Ok(true);
        }
    }
    Ok(false)
}

/// Takes the entity under an id in, where it still refers to who lives at an index.
///
/// Errors: want of memory.
fn reach_holder<R: Rules>(
    world: &World<R::Value>,
    names: &[&'static str],
    holder: u64,
    target: u32,
    reached: &mut Reached,
) -> Result<(), AllocError>
    requires tells { Tells reached.old.seen reached.old.entities.items }
    ensures tells { OnOk result (Tells reached.new.seen reached.new.entities.items) }
    ensures longer { OnOk result (GoesOnBy
        (IsAlive (roll_of (kinds_by R.Rules R.Value.SceneValue) (seen_of world.now)).births)
        reached.old.entities.items reached.new.entities.items) }
    ensures is_in { OnOk result (HasUnder (kinds_by R.Rules R.Value.SceneValue) (seen_of world.now)
        (texts names.now) reached.new.entities.items target holder) }
{
    let Some(entity) = entity_under::<R>(world, holder) else {
        return Ok(());
    };
    if !any_names::<R>(world, names, entity.id(), target, &mut reached.named)? {
        return Ok(());
    }
    reached.reach(entity)
}

/// Takes all in that refer to an entity.
///
/// Errors: want of memory.
fn reach_holders<R: Rules>(
    world: &World<R::Value>,
    names: &[&'static str],
    holders: &Holders,
    target: Entity,
    reached: &mut Reached,
) -> Result<(), AllocError>
    requires may { MayAct (kinds_by R.Rules R.Value.SceneValue) world.now }
    requires alike { PairAlike (kinds_by R.Rules R.Value.SceneValue) (seen_of world.now) (texts names.now)
        (owning_in (kinds_by R.Rules R.Value.SceneValue)) }
    requires made { holders.now.made ≡ true }
    requires covers { Covers (kinds_by R.Rules R.Value.SceneValue) holders.now world.now }
    requires alive { IsAlive (roll_of (kinds_by R.Rules R.Value.SceneValue) (seen_of world.now)).births target }
    requires tells { Tells reached.old.seen reached.old.entities.items }
    ensures tells { OnOk result (Tells reached.new.seen reached.new.entities.items) }
    ensures longer { OnOk result (GoesOnBy
        (IsAlive (roll_of (kinds_by R.Rules R.Value.SceneValue) (seen_of world.now)).births)
        reached.old.entities.items reached.new.entities.items) }
    ensures all { OnOk result (HasReferring (kinds_by R.Rules R.Value.SceneValue) (seen_of world.now)
        (texts names.now) reached.new.entities.items target.id) }
{
    let Some(id) = id_marked::<R>(world, target.id()) else {
        return Err(AllocError);
    };
    let mut end = holders.end(id);
    while end > 0 {
        let link = holders.links[end - 1];
        reach_holder::<R>(world, names, link.holder, target.id(), reached)?;
        end = link.before;
    }
    Ok(())
}

/// An entity with all that refer to it by parts of some kinds, to these, and so on, where nobody hangs on another but by
/// parts of these kinds.
///
/// It looks at what the index has of those that it reaches, and at no other entity. Errors: want of memory.
pub(crate) fn reached_from<R: Rules>(
    world: &World<R::Value>,
    names: &[&'static str],
    holders: &Holders,
    root: Entity,
    alloc: Global,
) -> Result<Reached, AllocError>
    requires may { MayAct (kinds_by R.Rules R.Value.SceneValue) world.now }
    requires alike { PairAlike (kinds_by R.Rules R.Value.SceneValue) (seen_of world.now) (texts names.now)
        (owning_in (kinds_by R.Rules R.Value.SceneValue)) }
    requires made { holders.now.made ≡ true }
    requires covers { Covers (kinds_by R.Rules R.Value.SceneValue) holders.now world.now }
    requires alive { IsAlive (roll_of (kinds_by R.Rules R.Value.SceneValue) (seen_of world.now)).births root }
    requires range { root.id < 16777216 }
    ensures { IfOk result (λ reached. AreReached (kinds_by R.Rules R.Value.SceneValue) (seen_of world.now)
        (texts names.now) root reached.entities.items) }
{
    let mut reached = Reached {
        seen: HashSet::new(alloc),
        entities: Vec::new(alloc),
        named: Vec::new(alloc),
    };
    reached.reach(root)?;
    let mut at = 0;
    while at < reached.entities.len() {
        let target = reached.entities[at];
        reach_holders::<R>(world, names, holders, target, &mut reached)?;
        at += 1;
    }
    Ok(reached)
}
