//! Parts that are put in and taken out at the ids of a scene.
ghost use Rattle.std.specs.Prelude.{◌≡◌, ◌<◌, length, None, Some, IsTrue, IfOk, OnOk};
ghost use Rattle.scene_model.specs.Parts.{is_among};
ghost use Rattle.scene_model.specs.Rulebook.{put, take};
ghost use Rattle.scene_commands.specs.Acts.{seen_of, entity_under, MayAct, Acts};
ghost use Rattle.scene_commands.specs.Acts.{StaysElsewhere, GoesOn, PutsPart, SetsColumn};
ghost use Rattle.scene_world.specs.Standing.{roll_of};
ghost use Rattle.scene_world.specs.Members.{kinds_by};

use crate::looking::{entities_under, entity_under};
use scene_world::Rules;
use shred_world::World;
use specs_entity::Entity;
use std::alloc::{AllocError, Global};

/// Puts a part in at an index of a world. Errors: want of memory.
pub(crate) fn put_at<R: Rules>(
    world: &mut World<R::Value>,
    kind: &str,
    index: u32,
    datum: &R::Data,
    named: &[Entity],
) -> Result<(), AllocError>
    requires known { IsTrue (is_among kind.now R.columns.part_names) }
    requires within { index < 16777216 }
    requires as_many { length named.now ≡ length (R.part_of datum.now).refs }
    ensures { OnOk result (PutsPart (kinds_by R.Rules R.Value.SceneValue) kind.now index
        (R.part_of datum.now) named.now (seen_of world.old) (seen_of world.new)) }
{
    match world.get_mut_raw(R::part_id(kind)) {
        Some(value) => R::put(value, kind, index, datum, named),
        None => Err(AllocError),
    }
}

/// Takes the part at an index of a world out, if there is one. Errors: want of memory.
pub(crate) fn take_at<R: Rules>(
    world: &mut World<R::Value>,
    kind: &str,
    index: u32,
) -> Result<(), AllocError>
    requires known { IsTrue (is_among kind.now R.columns.part_names) }
    ensures { OnOk result (SetsColumn (kinds_by R.Rules R.Value.SceneValue) kind.now index None
        (seen_of world.old) (seen_of world.new)) }
{
    match world.get_mut_raw(R::part_id(kind)) {
        Some(value) => R::take(value, kind, index),
        None => Err(AllocError),
    }
}

/// Puts a part under a kind of the rules in at the entity that is known under an id, in place of the one that is there.
///
/// The answer is whether it was done. Where a reference of the part is to none that lives, it is skipped, and the world
/// is as it was. Either way the same entities are known under the same ids.
///
/// Errors: want of memory.
pub(crate) fn put_at_entity<R: Rules>(
    rules: &R,
    world: &mut World<R::Value>,
    known: (u64, Entity),
    kind: &str,
    datum: &R::Data,
    alloc: Global,
) -> Result<bool, AllocError>
    requires may { MayAct (kinds_by R.Rules R.Value.SceneValue) world.old }
    requires kind { IsTrue (is_among kind.now R.columns.part_names) }
    requires known { entity_under (roll_of (kinds_by R.Rules R.Value.SceneValue) (seen_of world.old)) known.0
        ≡ Some known.1 }
    requires within { known.1.id < 16777216 }
    ensures acts { IfOk result (λ done. Acts (kinds_by R.Rules R.Value.SceneValue)
        (put known.0 kind.now (R.part_of datum.now)) done world.old world.new) }
    ensures may { OnOk result (MayAct (kinds_by R.Rules R.Value.SceneValue) world.new) }
    ensures elsewhere { OnOk result (StaysElsewhere (kinds_by R.Rules R.Value.SceneValue) world.old world.new) }
    ensures goes_on { OnOk result (GoesOn (kinds_by R.Rules R.Value.SceneValue) world.old world.new) }
    ensures roll { OnOk result (roll_of (kinds_by R.Rules R.Value.SceneValue) (seen_of world.new)
        ≡ roll_of (kinds_by R.Rules R.Value.SceneValue) (seen_of world.old)) }
{
    let refs = rules.refs(alloc, datum)?;
    let Some(named) = entities_under::<R>(world, refs.as_slice(), alloc)? else {
        return Ok(false);
    };
    put_at::<R>(world, kind, known.1.id(), datum, named.as_slice())?;
    Ok(true)
}

/// Puts a part under a kind of the rules in at an id, in place of the one that is there: carries the command out that
/// asks for it.
///
/// The answer is whether it was done. Where nobody lives under the id, or a reference of the part is to none that
/// lives, it is skipped, and the world is as it was.
///
/// Errors: want of memory.
pub fn put_part<R: Rules>(
    rules: &R,
    world: &mut World<R::Value>,
    id: u64,
    kind: &str,
    datum: &R::Data,
    alloc: Global,
) -> Result<bool, AllocError>
    requires may { MayAct (kinds_by R.Rules R.Value.SceneValue) world.old }
    requires known { IsTrue (is_among kind.now R.columns.part_names) }
    ensures acts { IfOk result (λ done. Acts (kinds_by R.Rules R.Value.SceneValue)
        (put id kind.now (R.part_of datum.now)) done world.old world.new) }
    ensures may { OnOk result (MayAct (kinds_by R.Rules R.Value.SceneValue) world.new) }
    ensures elsewhere { OnOk result (StaysElsewhere (kinds_by R.Rules R.Value.SceneValue) world.old world.new) }
    ensures goes_on { OnOk result (GoesOn (kinds_by R.Rules R.Value.SceneValue) world.old world.new) }
{
    let Some(entity) = entity_under::<R>(world, id) else {
        return Ok(false);
    };
    put_at_entity(rules, world, (id, entity), kind, datum, alloc)
}

/// Takes the part of an id under a kind of the rules out, if there is one: carries the command out that asks for it.
///
/// The answer is whether it was done. Where nobody lives under the id it is skipped, and the world is as it was.
///
/// Errors: want of memory.
pub fn take_part<R: Rules>(
    world: &mut World<R::Value>,
    id: u64,
    kind: &str,
) -> Result<bool, AllocError>
    requires may { MayAct (kinds_by R.Rules R.Value.SceneValue) world.old }
    requires known { IsTrue (is_among kind.now R.columns.part_names) }
    ensures acts { IfOk result
        (λ done. Acts (kinds_by R.Rules R.Value.SceneValue) (take id kind.now) done world.old world.new) }
    ensures may { OnOk result (MayAct (kinds_by R.Rules R.Value.SceneValue) world.new) }
    ensures elsewhere { OnOk result (StaysElsewhere (kinds_by R.Rules R.Value.SceneValue) world.old world.new) }
    ensures goes_on { OnOk result (GoesOn (kinds_by R.Rules R.Value.SceneValue) world.old world.new) }
{
    let Some(entity) = entity_under::<R>(world, id) else {
        return Ok(false);
    };
    take_at::<R>(world, kind, entity.id())?;
    Ok(true)
}
