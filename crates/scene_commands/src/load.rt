//! The world in which the scene of a document stands.
ghost use Rattle.std.specs.Prelude.{◌≡◌, ℕ, min, None, OnOk, IfOk};
ghost use Rattle.scene_document.specs.Drafts.{Draft};
ghost use Rattle.scene_document.specs.DraftViews.{IsDraft};
ghost use Rattle.scene_document.specs.Documents.{refusal_of};
ghost use Rattle.scene_document.specs.Openings.{first_scene};
ghost use Rattle.scene_world.specs.Standing.{StandsFor, roll_of};
ghost use Rattle.scene_world.specs.Members.{kinds_by};
ghost use Rattle.scene_commands.specs.Acts.{seen_of, MayAct};
ghost use Rattle.scene_commands.specs.Bounds.{IsBounded, unlisted_in};
ghost use Rattle.scene_commands.specs.Fills.{filled_with};
ghost use Rattle.scene_commands.specs.Becoming.{Becomes, IsQuiet};

use crate::entering::enter_entities;
use crate::globals::put_globals;
use crate::opening::open_world;
use crate::part_lists::put_parts;
use scene_document::DocumentDraft;
use scene_world::{Rules, Store};
use shred_world::World;
use std::alloc::{AllocError, Global};

/// Puts the entities of a draft into a world, with their parts, and its globals.
///
/// Errors: those of each entity, part and global.
fn fill_world<R: Rules>(
    rules: &R,
    world: &mut World<R::Value>,
    draft: &DocumentDraft<'_, R::Data, R::Global, R::System>,
    alloc: Global,
) -> Result<(), AllocError>
where
    R::Value: Drop,
    requires may { MayAct (kinds_by R.Rules R.Value.SceneValue) world.old }
    ensures { OnOk result (Becomes (kinds_by R.Rules R.Value.SceneValue)
        (filled_with R.part_of R.global_of (R.book rules.now) draft.now) world.old world.new) }
{
    enter_entities::<R>(world, draft.entities.as_slice())?;
    put_parts(
        rules,
        world,
        draft.entities.as_slice(),
        rules.part_names(),
        alloc,
    )?;
    put_globals::<R>(world, draft.globals.as_slice(), rules.global_names())
}

/// The world in which the scene of a document stands, before any frame: with the parts in storages of this store, and
/// these limits of its entities, which are those of `EntitiesRes::with_limits`. An index had at most as many births as entities
/// are listed.
///
/// Errors: want of memory. So is told where the document is one that is refused, for an id that stands twice or a
/// reference to no listed id, and where it has more entities than the limit of indices.
pub fn load_world<R: Rules>(
    rules: &R,
    store: Store,
    limits: (u32, u32),
    draft: &DocumentDraft<'_, R::Data, R::Global, R::System>,
    alloc: Global,
) -> Result<World<R::Value>, AllocError>
where
    R::Value: Drop,
    ensures may { IfOk result (MayAct (kinds_by R.Rules R.Value.SceneValue)) }
    ensures quiet { IfOk result (IsQuiet (kinds_by R.Rules R.Value.SceneValue)) }
    ensures stands { IfOk result (λ world. (plain : Draft) → (indices : ℕ) → IsDraft R.part_of R.global_of
        R.kind_of R.config_of (R.book rules.now) plain draft.now → refusal_of indices plain ≡ None → StandsFor
        (kinds_by R.Rules R.Value.SceneValue) (R.book rules.now) (seen_of world) (first_scene plain)) }
    ensures bounded { IfOk result (λ world. (plain : Draft) → (indices : ℕ) → IsDraft R.part_of R.global_of
        R.kind_of R.config_of (R.book rules.now) plain draft.now → refusal_of indices plain ≡ None → IsBounded
        (min limits.0 16777216) (min limits.1 2147483647) (unlisted_in plain)
        (roll_of (kinds_by R.Rules R.Value.SceneValue) (seen_of world))) }
{
    let mut world = open_world::<R>(store, limits, draft.next, alloc)?;
    fill_world(rules, &mut world, draft, alloc)?;
    Ok(world)
}
