//! The dispatcher of a document's systems.
ghost use Rattle.std.specs.Prelude.{◌≡◌, ◌++◌, ◌∷◌, [], ℕ, suc, List, length, map, All, IfOk, OnOk, vec_len, ◌≤◌};
ghost use Rattle.shred.specs.Names.{texts};
ghost use Rattle.scene_document.specs.Drafts.{Draft, DraftEntry};
ghost use Rattle.scene_document.specs.DraftViews.{plain_draft, AreMade};
ghost use Rattle.scene_document.specs.DraftViews.{IsOfBook as IsSaidBy};
ghost use Rattle.scene_document.specs.Openings.{frames_of};
ghost use Rattle.scene_world.specs.Lent.{AreKnown};
ghost use Rattle.scene_world.specs.Turns.{IsOfBook};
ghost use Rattle.scene_world.specs.Members.{kinds_by, placed_by};
ghost use Rattle.scene_dispatch.specs.Orders.{turn_order};
ghost use Rattle.scene_dispatch.specs.Staged.{AreOfDocument, IsFit, HasSystems};
ghost use Rattle.scene_dispatch.specs.Building.{with_placed};

use crate::{SceneDispatcher, SceneDispatcherBuilder};
use scene_document::{EntryDraft, MadeDraft, SystemDraft};
use scene_world::{Placed, Rules};
use shred_stages::System;
use shred_world::ResourceId;
use std::alloc::{AllocError, Global};

/// The dispatcher of a document's systems, each at its place among the entries, from 1, with so many workers.
///
/// The entries are those of a document, and the rules made their systems. The dispatcher's systems are the rules' own, and
/// take their turns in the order of the document's frames: the staged ones in that of the plan, then the local ones.
///
/// Errors: want of memory.
pub fn stage_systems<R: Rules>(
    rules: &R,
    entries: Vec<EntryDraft<'_, R::System>>,
    workers: usize,
    alloc: Global,
) -> Result<SceneDispatcher<R>, AllocError>
where
    R::Value: Drop,
    requires document { AreOfDocument (R.book rules.now) (map plain_draft entries.items) }
    requires said { All (IsSaidBy R.kind_of R.config_of (R.book rules.now)) entries.items }
    requires made { AreMade R.declared R.said_time (R.made_by rules.now) entries.items }
    ensures order { IfOk result (λ made. (plain : Draft) (frame : ℕ) → plain.entries ≡ map plain_draft
        entries.entry.items → turn_order (placed_by R.Rules).plain made ≡ (frames_of plain frame).order) }
    ensures staged { IfOk result
        (λ dispatcher. All (IsOfBook (placed_by R.Rules) (R.book rules.now)) dispatcher.staging.systems) }
    ensures locals { IfOk result
        (λ dispatcher. All (IsOfBook (placed_by R.Rules) (R.book rules.now)) dispatcher.locals) }
    ensures workers { IfOk result (λ dispatcher. dispatcher.workers ≡ workers) }
{
    let mut builder = SceneDispatcherBuilder::new(alloc, workers);
    add_entries(rules, &mut builder, entries)?;
    Ok(builder.build())
}

/// Adds entries to a builder that has none. Errors: want of memory.
fn add_entries<R: Rules>(
    rules: &R,
    builder: &mut SceneDispatcherBuilder<R>,
    entries: Vec<EntryDraft<'_, R::System>>,
) -> Result<(), AllocError>
where
    R::Value: Drop,
    requires none { HasSystems (kinds_by R.Rules R.Value.SceneValue) ⟦<ResourceId as PartialEq>⟧.eq
        (placed_by R.Rules) (R.book rules.now) [] builder.old }
    requires few { vec_len entries ≤ 4096 }
    requires fit { All (IsFit (kinds_by R.Rules R.Value.SceneValue) R.kind_of R.config_of R.declared R.said_time
        (R.made_by rules.now) (R.book rules.now)) entries.items }
    ensures has { OnOk result (HasSystems (kinds_by R.Rules R.Value.SceneValue) ⟦<ResourceId as PartialEq>⟧.eq
        (placed_by R.Rules) (R.book rules.now) (map plain_draft entries.entry.items) builder.new) }
    ensures workers { OnOk result (builder.new.workers ≡ builder.old.workers) }
{
    let mut place = 1;
    for entry in entries {
        add_entry(rules, builder, place, entry)?;
        place += 1;
    }
    Ok(())
}

/// Adds the entry at a place to a builder that has those before it: a barrier, a local system, or a staged one under its
/// name and after those that it names.
///
/// Errors: want of memory.
fn add_entry<R: Rules>(
    rules: &R,
    builder: &mut SceneDispatcherBuilder<R>,
    place: u32,
    entry: EntryDraft<'_, R::System>,
) -> Result<(), AllocError>
where
    R::Value: Drop,
    requires fit { IsFit (kinds_by R.Rules R.Value.SceneValue) R.kind_of R.config_of R.declared R.said_time
        (R.made_by rules.now) (R.book rules.now) entry }
    ensures has { OnOk result ((early : List DraftEntry) → place ≡ suc (length early) → HasSystems (kinds_by
        R.Rules R.Value.SceneValue) ⟦<ResourceId as PartialEq>⟧.eq (placed_by R.Rules) (R.book rules.now) early
        builder.old → HasSystems (kinds_by R.Rules R.Value.SceneValue) ⟦<ResourceId as PartialEq>⟧.eq
        (placed_by R.Rules) (R.book rules.now) (early ++ plain_draft entry.entry ∷ []) builder.new) }
    ensures workers { OnOk result (builder.new.workers ≡ builder.old.workers) }
{
    let EntryDraft::System(draft) = entry else {
        builder.add_barrier();
        return Ok(());
    };
    let SystemDraft {
        kind: _,
        name,
        after,
        config: _,
        local,
        made,
    } = draft;
    let Some(made) = made else {
        return Err(AllocError);
    };
    if local {
        add_local(builder, place, made)
    } else {
        add_staged(builder, place, made, name, &after)
    }
}

/// Adds a made system as a local one at a place. Errors: want of memory.
fn add_local<R: Rules>(
    builder: &mut SceneDispatcherBuilder<R>,
    place: u32,
    made: MadeDraft<R::System>,
) -> Result<(), AllocError>
where
    R::Value: Drop,
    requires known { AreKnown (kinds_by R.Rules R.Value.SceneValue) (R.declared made.system) }
    ensures { OnOk result (builder.new ≡ record {
      building = builder.old.building;
      locals = builder.old.locals ++ record { position = place; system = made.system } ∷ [];
      workers = builder.old.workers;
    }) }
{
    builder
        .add_local(place, made.system)
        .map_err(|_| AllocError)
}

/// Adds a made system as a staged one at a place, under a name, after those of some names.
///
/// Errors: want of memory; so is told, too, what else stands against it, which no document has.
fn add_staged<R: Rules>(
    builder: &mut SceneDispatcherBuilder<R>,
    place: u32,
    made: MadeDraft<R::System>,
    name: &str,
    after: &[&str],
) -> Result<(), AllocError>
where
    R::Value: Drop,
    requires known { AreKnown (kinds_by R.Rules R.Value.SceneValue) (R.declared made.system) }
    ensures { OnOk result (builder.new ≡ with_placed ⟦<ResourceId as PartialEq>⟧.eq
        ⟦<Placed<R> as System<R::Value>>⟧.read_list ⟦<Placed<R> as System<R::Value>>⟧.write_list builder.old
        (record { position = place; system = made.system }) (R.said_time made.system) name.now (texts after.now)) }
{
    builder
        .add(place, made.system, name, after)
        .map_err(|_| AllocError)?;
    Ok(())
}
