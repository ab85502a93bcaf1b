//! The text of a scene that is kept.
ghost use Rattle.std.specs.Prelude.{◌≡◌, [], ◌∷◌, false, map, option_map, option_copied, IfOk, OnOk};
ghost use Rattle.std.specs.FinMap as finite;
ghost use Rattle.serde_json.specs.Data.{array};
ghost use Rattle.serde_json.specs.View.{view, items_of};
ghost use Rattle.serde_json.specs.Written.{has_float};
ghost use Rattle.scene_document.specs.Texts.{globals_json, entity_json, scene_json, text_of, ReadsBack};
ghost use Rattle.scene.specs.Rows.{seats_kept};
ghost use Rattle.scene.specs.KeptScenes.{bearers, kept_scene, part_kept, entity_with, parts_with};
ghost use Rattle.scene.specs.Printing.{AddsJson, AddsMembers, AddsFound};

use crate::snapshot::by_place::ByPlace;
use crate::snapshot::kept::KeptScene;
use json::{Reader, Scratch, Writer};
use scene_model::DocumentRules;
use serde_json::Value;
use std::alloc::{AllocError, Global};
use std::collections::BTreeMap;

/// The text of the scene that is kept: the compact text of its JSON, with its entities in the order of their ids and
/// only the parts and globals that are there.
///
/// The text reads as that JSON, and as no other.
///
/// Errors: memory was wanting.
pub fn kept_text<R: DocumentRules, V: ByPlace<R::Global>>(
    alloc: Global,
    rules: &R,
    kept: &KeptScene<R::Data, V>,
) -> Result<Vec<u8>, AllocError>
    ensures text { IfOk result (λ text. text.items ≡ text_of (R.book rules.now)
        (kept_scene R.part_of R.global_of V.at_place (R.book rules.now) kept.now)) }
    ensures reads { IfOk result (λ text. ReadsBack text.items (scene_json (R.book rules.now)
        (kept_scene R.part_of R.global_of V.at_place (R.book rules.now) kept.now))) }
{
    let mut out = Writer::new(Vec::with_capacity(alloc, 128)?);
    put_scene(alloc, rules, kept, &mut out)?;
    Ok(out.into_inner())
}

// Prints the scene that is kept.
fn put_scene<R: DocumentRules, V: ByPlace<R::Global>>(
    alloc: Global,
    rules: &R,
    kept: &KeptScene<R::Data, V>,
    out: &mut Writer,
) -> Result<(), AllocError>
    ensures { OnOk result (AddsJson (scene_json (R.book rules.now)
        (kept_scene R.part_of R.global_of V.at_place (R.book rules.now) kept.now)) out.old out.new) }
{
    out.begin_object()?;
    out.key("entities")?;
    put_entities(alloc, rules, kept, out)?;
    out.key("globals")?;
    put_globals(alloc, rules, kept, out)?;
    out.key("next")?;
    out.u64(kept.next())?;
    out.end_object()
}

// The index of each id that is borne.
fn bearers_of(alloc: Global, seats: &[Option<u64>]) -> Result<BTreeMap<u64, usize>, AllocError>
    ensures { IfOk result (λ found. found.entries ≡ finite.entries (bearers seats.now)) }
{
    let mut found = BTreeMap::new(alloc);
    for (index, seat) in seats.iter().enumerate() {
        if let Some(id) = seat {
            found.insert(*id, index)?;
        }
    }
    Ok(found)
}

// Prints each entity, in the order of the ids.
fn put_entities<R: DocumentRules, V: ByPlace<R::Global>>(
    alloc: Global,
    rules: &R,
    kept: &KeptScene<R::Data, V>,
    out: &mut Writer,
) -> Result<(), AllocError>
    ensures { OnOk result (AddsJson (array (items_of (map (entity_json (R.book rules.now)
        (kept_scene R.part_of R.global_of V.at_place (R.book rules.now) kept.now))
        (finite.keys (bearers (seats_kept kept.now)))))) out.old out.new) }
{
    let found = bearers_of(alloc, kept.seats())?;
    out.begin_array()?;
    for (id, index) in &found {
        put_entity(alloc, rules, kept, *id, *index, out)?;
    }
    out.end_array()
}

// Prints an entity, whose data stand at an index.
fn put_entity<R: DocumentRules, V>(
    alloc: Global,
    rules: &R,
    kept: &KeptScene<R::Data, V>,
    id: u64,
    index: usize,
    out: &mut Writer,
) -> Result<(), AllocError>
    ensures { OnOk result (AddsJson (entity_with (R.book rules.now)
        (part_kept R.part_of (R.book rules.now) kept.now index) id) out.old out.new) }
{
    out.begin_object()?;
    out.key("id")?;
    out.u64(id)?;
    out.key("parts")?;
    put_parts(alloc, rules, kept, index, out)?;
    out.end_object()
}

// Prints the parts at an index that are there, under their kinds.
fn put_parts<R: DocumentRules, V>(
    alloc: Global,
    rules: &R,
    kept: &KeptScene<R::Data, V>,
    index: usize,
    out: &mut Writer,
) -> Result<(), AllocError>
    ensures { OnOk result (AddsJson (parts_with (R.book rules.now)
        (part_kept R.part_of (R.book rules.now) kept.now index)) out.old out.new) }
{
    let names = rules.part_names();
    out.begin_object()?;
    for (place, kind) in names.iter().enumerate() {
        put_part(alloc, rules, kind, kept.datum(place, index), out)?;
    }
    out.end_object()
}

// Prints a datum under its kind, if there is one.
fn put_part<R: DocumentRules>(
    alloc: Global,
    rules: &R,
    kind: &str,
    datum: Option<&R::Data>,
    out: &mut Writer,
) -> Result<(), AllocError>
    ensures { OnOk result (AddsFound
        (option_map (λ part. (kind.now, part.json)) (option_map R.part_of (option_copied datum.entry)))
        out.old out.new) }
{
    if let Some(datum) = datum {
        put_member(alloc, kind, &rules.write_data(alloc, datum)?, out)?;
    }
    Ok(())
}

// Prints the globals that have a value, under their names.
fn put_globals<R: DocumentRules, V: ByPlace<R::Global>>(
    alloc: Global,
    rules: &R,
    kept: &KeptScene<R::Data, V>,
    out: &mut Writer,
) -> Result<(), AllocError>
    ensures { OnOk result (AddsJson (globals_json (R.book rules.now)
        (kept_scene R.part_of R.global_of V.at_place (R.book rules.now) kept.now)) out.old out.new) }
{
    let names = rules.global_names();
    out.begin_object()?;
    for (place, name) in names.iter().enumerate() {
        put_global(alloc, rules, name, kept.globals().at(place), out)?;
    }
    out.end_object()
}

// Prints a global's value under its name, if there is one.
fn put_global<R: DocumentRules>(
    alloc: Global,
    rules: &R,
    name: &str,
    global: Option<&R::Global>,
    out: &mut Writer,
) -> Result<(), AllocError>
    ensures { OnOk result (AddsFound
        (option_map (λ json. (name.now, json)) (option_map R.global_of (option_copied global.entry)))
        out.old out.new) }
{
    if let Some(global) = global {
        put_member(alloc, name, &rules.write_global(alloc, global)?, out)?;
    }
    Ok(())
}

// Prints a value that has no float under a name.
fn put_member(alloc: Global, name: &str, value: &Value, out: &mut Writer) -> Result<(), AllocError>
    requires { has_float (view value.now) ≡ false }
    ensures { OnOk result (AddsMembers [] ((name.now, view value.now) ∷ []) out.old out.new) }
{
    out.key(name)?;
    put_value(alloc, value, out)
}

/// Prints a value that has no float: a whole number by its digits, all else as its own text has it.
///
/// Errors: want of memory.
pub fn put_value(alloc: Global, value: &Value, out: &mut Writer) -> Result<(), AllocError>
    requires { has_float (view value.now) ≡ false }
    ensures { OnOk result (AddsJson (view value.now) out.old out.new) }
{
    if let Some(number) = value.as_u64() {
        return out.u64(number);
    }
    match value.as_i64() {
        Some(number) if number < 0 => out.i64(number),
        _ => put_tokens(alloc, value, out),
    }
}

// Prints a value that has no float, token by token as its own text has them.
fn put_tokens(alloc: Global, value: &Value, out: &mut Writer) -> Result<(), AllocError>
    requires { has_float (view value.now) ≡ false }
    ensures { OnOk result (AddsJson (view value.now) out.old out.new) }
{
    let text = value.to_string(alloc)?;
    let mut scratch = Scratch::new(alloc);
    let mut reader = Reader::new(text.as_str(), &mut scratch)?;
    while let Some(token) = reader.next() {
        out.token(token)?;
    }
    Ok(())
}
