//! Parts that are put into a world as a document says them.
ghost use Rattle.std.specs.Prelude.{◌≡◌, ◌<◌, map, Some, OnOk};
ghost use Rattle.scene_model.specs.Declaring.{texts};
ghost use Rattle.scene_document.specs.DraftViews.{named, plain_entity};
ghost use Rattle.scene_commands.specs.Acts.{seen_of, entity_under, MayAct};
ghost use Rattle.scene_world.specs.Standing.{roll_of};
ghost use Rattle.scene_commands.specs.Becoming.{Becomes};
ghost use Rattle.scene_commands.specs.Entries.{with_one, with_list, with_parts};
ghost use Rattle.scene_world.specs.Members.{kinds_by};

use crate::looking::entity_under;
use crate::parts::put_at_entity;
use scene_document::EntityDraft;
use scene_world::Rules;
use shred_world::World;
use specs_entity::Entity;
use std::alloc::{AllocError, Global};

/// Puts a part in at the entity that is known under an id, where its kind is known.
///
/// Errors: want of memory, where its place is none of the names, and where one of its references is to none that lives.
fn put_one<R: Rules>(
    rules: &R,
    world: &mut World<R::Value>,
    known: (u64, Entity),
    part: &Option<(usize, R::Data)>,
    names: &[&'static str],
    alloc: Global,
) -> Result<(), AllocError>
    requires may { MayAct (kinds_by R.Rules R.Value.SceneValue) world.old }
    requires names { texts names.now ≡ R.columns.part_names }
    requires known { entity_under (roll_of (kinds_by R.Rules R.Value.SceneValue) (seen_of world.old)) known.0
        ≡ Some known.1 }
    requires within { known.1.id < 16777216 }
    ensures becomes { OnOk result (Becomes (kinds_by R.Rules R.Value.SceneValue)
        (with_one known.0 (named R.part_of (texts names.now) part.now)) world.old world.new) }
    ensures roll { OnOk result (roll_of (kinds_by R.Rules R.Value.SceneValue) (seen_of world.new)
        ≡ roll_of (kinds_by R.Rules R.Value.SceneValue) (seen_of world.old)) }
{
    let Some((place, datum)) = part else {
        return Ok(());
    };
    if *place >= names.len() {
        return Err(AllocError);
    }
    let done = put_at_entity(rules, world, known, names[*place], datum, alloc)?;
    if done { Ok(()) } else { Err(AllocError) }
}

/// Puts parts in at an id; of two under one kind the first stands.
///
/// Errors: those of each of them, and where nobody lives under the id.
fn put_list<R: Rules>(
    rules: &R,
    world: &mut World<R::Value>,
    id: u64,
    parts: &[Option<(usize, R::Data)>],
    names: &[&'static str],
    alloc: Global,
) -> Result<(), AllocError>
    requires may { MayAct (kinds_by R.Rules R.Value.SceneValue) world.old }
    requires names { texts names.now ≡ R.columns.part_names }
    ensures { OnOk result (Becomes (kinds_by R.Rules R.Value.SceneValue)
        (with_list id (map (named R.part_of (texts names.now)) parts.now)) world.old world.new) }
{
    let Some(entity) = entity_under::<R>(world, id) else {
        return Err(AllocError);
    };
    for index in (0..parts.len()).rev() {
        put_one(rules, world, (id, entity), &parts[index], names, alloc)?;
    }
    Ok(())
}

/// Puts the parts of entities in, each at the id of its entity. Errors: those of each part.
pub(crate) fn put_parts<R: Rules>(
    rules: &R,
    world: &mut World<R::Value>,
    entities: &[EntityDraft<R::Data>],
    names: &[&'static str],
    alloc: Global,
) -> Result<(), AllocError>
    requires may { MayAct (kinds_by R.Rules R.Value.SceneValue) world.old }
    requires names { texts names.now ≡ R.columns.part_names }
    ensures { OnOk result (Becomes (kinds_by R.Rules R.Value.SceneValue)
        (with_parts (map (plain_entity R.part_of (texts names.now)) entities.now)) world.old world.new) }
{
    for index in (0..entities.len()).rev() {
        let entity = &entities[index];
        put_list(
            rules,
            world,
            entity.id,
            entity.parts.as_slice(),
            names,
            alloc,
        )?;
    }
    Ok(())
}
