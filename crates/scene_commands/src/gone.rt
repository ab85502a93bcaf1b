//! References that are gone in a world.
ghost use Rattle.std.specs.Prelude.{◌≡◌, ℕ, false, IfOk, option_map};
ghost use Rattle.scene_model.specs.Commands.{first_gone, holds_gone};
ghost use Rattle.scene_model.specs.Declaring.{texts};
ghost use Rattle.scene_world.specs.Rolls.{ref_to};
ghost use Rattle.scene_world.specs.Standing.{column_of, roll_of};
ghost use Rattle.scene_world.specs.Stored.{part_under};
ghost use Rattle.scene_world.specs.Members.{kinds_by};
ghost use Rattle.scene_commands.specs.Acts.{seen_of, MayAct};
ghost use Rattle.scene_commands.specs.Gone.{AreLiving, IsLesserIf, any_gone};
ghost use Rattle.scene_commands.specs.Members.{scene_in};

use crate::looking::is_living;
use crate::naming::holders_in;
use scene_model::DocumentRules;
use scene_world::{Rules, SceneValue};
use shred_world::World;
use specs_entity::Entity;
use specs_entity::laws::the_living_are_below_the_limit;
use specs_markers::Marker;
use std::alloc::{AllocError, Global};

/// The entities that live in a world. Errors: want of memory, and where the world has no entities.
pub fn living_in<R: Rules>(world: &World<R::Value>) -> Result<Vec<Entity>, AllocError>
    ensures { IfOk result (λ entities. AreLiving
        (roll_of (kinds_by R.Rules R.Value.SceneValue) (seen_of world.now)).births entities.items) }
{
    let Some(value) = world.get_raw(<R::Value as SceneValue<R::Data>>::entities_id()) else {
        return Err(AllocError);
    };
    match <R::Value as SceneValue<R::Data>>::entities(value) {
        Some(entities) => {
            the_living_are_below_the_limit(entities);
            let living = entities.living_entities()?;
            Ok(living)
        }
        None => Err(AllocError),
    }
}

/// The id with which an index is marked, if it is.
pub fn id_marked<R: Rules>(world: &World<R::Value>, index: u32) -> Option<u64>
    ensures { result ≡ (roll_of (kinds_by R.Rules R.Value.SceneValue) (seen_of world.now)).marker index }
{
    let value = world.get_raw(<R::Value as SceneValue<R::Data>>::markers_id())?;
    let markers = <R::Value as SceneValue<R::Data>>::markers(value)?;
    if markers.contains(index) {
        Some(markers.get(index).id())
    } else {
        None
    }
}

/// Whether the part at an index, if there is one, refers to somebody who is gone. What the list held is forgotten.
///
/// Errors: want of memory.
fn part_holds_gone<R: Rules>(
    world: &World<R::Value>,
    kind: &str,
    index: u32,
    named: &mut Vec<Entity>,
) -> Result<bool, AllocError>
    requires may { MayAct (kinds_by R.Rules R.Value.SceneValue) world.now }
    ensures { IfOk result (λ gone. gone ≡ holds_gone
        (option_map (part_under (ref_to (roll_of (kinds_by R.Rules R.Value.SceneValue) (seen_of world.now))))
        (column_of (kinds_by R.Rules R.Value.SceneValue) (seen_of world.now) kind.now index))) }
{
    let Some(value) = world.get_raw(R::part_id(kind)) else {
        return Ok(false);
    };
    named.clear();
    R::named_at(value, kind, index, named)?;
    for entity in named.as_slice() {
        if !is_living::<R>(world, *entity) {
            return Ok(true);
        }
    }
    Ok(false)
}

/// Whether a part at an index under one of some kinds refers to somebody who is gone.
///
/// Errors: want of memory.
fn any_holds_gone<R: Rules>(
    world: &World<R::Value>,
    names: &[&'static str],
    index: u32,
    named: &mut Vec<Entity>,
) -> Result<bool, AllocError>
    requires may { MayAct (kinds_by R.Rules R.Value.SceneValue) world.now }
    ensures { IfOk result (λ gone. gone ≡ any_gone (kinds_by R.Rules R.Value.SceneValue) (seen_of world.now)
        (texts names.now) index) }
{
    for kind in names {
        if part_holds_gone::<R>(world, kind, index, named)? {
            return Ok(true);
        }
    }
    Ok(false)
}

/// The lesser of what may be a number and another, where the other counts; else what it was.
fn lesser(counts: bool, least: Option<u64>, id: u64) -> Option<u64>
    ensures { IsLesserIf counts least id result }
{
    if !counts {
        return least;
    }
    match least {
        Some(other) if other <= id => Some(other),
        _ => Some(id),
    }
}

/// Whether a part of a kind may refer to an entity, as far as the rules tell at once.
fn may_name<R: Rules>(world: &World<R::Value>, kind: &str) -> bool
    ensures { result ≡ false → (index : ℕ) → holds_gone
        (option_map (part_under (ref_to (roll_of (kinds_by R.Rules R.Value.SceneValue) (seen_of world.now))))
        (column_of (kinds_by R.Rules R.Value.SceneValue) (seen_of world.now) kind.now index)) ≡ false }
{
    match world.get_raw(R::part_id(kind)) {
        Some(value) => !R::names_nobody(value, kind),
        None => false,
    }
}

/// Those of some kinds whose parts may refer to an entity: who holds a gone reference holds it under one of these.
///
/// Errors: want of memory.
fn naming_kinds<R: Rules>(
    world: &World<R::Value>,
    names: &[&'static str],
    alloc: Global,
) -> Result<Vec<&'static str>, AllocError>
    ensures { IfOk result (λ kinds. (index : ℕ) → any_gone (kinds_by R.Rules R.Value.SceneValue)
        (seen_of world.now) (texts kinds.items) index ≡ any_gone (kinds_by R.Rules R.Value.SceneValue)
        (seen_of world.now) (texts names.now) index) }
{
    let mut kinds = Vec::new(alloc);
    for kind in names {
        if may_name::<R>(world, kind) {
            kinds.push(*kind)?;
        }
    }
    Ok(kinds)
}

/// The least id whose parts refer to somebody who is gone, if there is one.
///
/// It looks at the parts of those under the kinds whose parts may refer to one, at the indices that the rules tell, and at
/// none where there are no such kinds. Errors: want of memory.
pub fn find_gone<R: Rules>(
    rules: &R,
    world: &World<R::Value>,
    alloc: Global,
) -> Result<Option<u64>, AllocError>
    requires may { MayAct (kinds_by R.Rules R.Value.SceneValue) world.now }
    ensures { IfOk result
        (λ gone. gone ≡ first_gone (R.book rules.now) (scene_in R.Rules R.Value.SceneValue world.now)) }
{
    let names = naming_kinds::<R>(world, rules.part_names(), alloc)?;
    if names.is_empty() {
        return Ok(None);
    }
    let kinds = names.as_slice();
    let entities = holders_in::<R>(world, kinds, alloc)?;
    let mut named = Vec::new(alloc);
    let mut least = None;
    for entity in entities.as_slice() {
        let Some(id) = id_marked::<R>(world, entity.id()) else {
            return Err(AllocError);
        };
        let gone = any_holds_gone::<R>(world, kinds, entity.id(), &mut named)?;
        least = lesser(gone, least, id);
    }
    Ok(least)
}
