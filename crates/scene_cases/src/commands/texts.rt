//! Documents that are read of a JSON, and the worlds in which their scenes stand.
ghost use Rattle.std.specs.Prelude.{◌≡◌, Ok, IfOk, MatchResult};
ghost use Rattle.serde_json.specs.View.{view};
ghost use Rattle.scene_document.specs.Drafts.{Draft};
ghost use Rattle.scene_document.specs.Documents.{document_from};
ghost use Rattle.scene_document.specs.Loading.{IsNotLoaded};
ghost use Rattle.scene_document.specs.Openings.{first_scene};
ghost use Rattle.scene_world.specs.Standing.{StandsFor};
ghost use Rattle.scene_world.specs.Members.{kinds_by};
ghost use Rattle.scene_commands.specs.Acts.{seen_of, MayAct};

use scene_commands::load_world;
use scene_document::{Limits, LoadError, read_document};
use scene_world::{Rules, Store};
use serde_json::Value as Json;
use shred_world::World;
use std::alloc::Global;

/// The world of the document that a JSON is, in a store, as the layer above makes it.
///
/// Errors: `Document` with the least refusal that stands; `Memory`.
pub fn world_of<R: Rules>(
    rules: &R,
    limits: Limits,
    json: &Json,
    store: Store,
    alloc: Global,
) -> Result<World<R::Value>, LoadError>
where
    R::Value: Drop,
    ensures may { IfOk result (MayAct (kinds_by R.Rules R.Value.SceneValue)) }
    ensures stands { MatchResult result (λ world. (plain : Draft)
        × (document_from (R.book rules.now) limits.indices (view json.now) ≡ Ok plain) × StandsFor
        (kinds_by R.Rules R.Value.SceneValue) (R.book rules.now) (seen_of world) (first_scene plain))
        (IsNotLoaded (R.book rules.now) limits.indices (view json.now)) }
{
    let draft = match read_document(alloc, rules, limits, json) {
        Ok(draft) => draft,
        Err(error) => return Err(error),
    };
    match load_world(rules, store, (limits.indices, 2_147_483_647), &draft, alloc) {
        Ok(world) => Ok(world),
        Err(_) => Err(LoadError::Memory),
    }
}
