//! What a written file imports.
use crate::bytes::put;
use crate::kind::Kind;
use crate::list::{List, Source};
use std::alloc::{AllocError, Global};

/// What may be imported, with its module in the crates below `specs`. Names of a module stand in their order.
const OF_CRATES: [(&str, &str); 27] = [
    ("shred_world", "MetaTable"),
    ("shred_world", "Resource"),
    ("specs_entity", "EntitiesRes"),
    ("specs_entity", "Entity"),
    ("specs_entity", "Error"),
    ("specs_layouts", "AnyStorage"),
    ("specs_layouts", "BTreeStorage"),
    ("specs_layouts", "Component"),
    ("specs_layouts", "DefaultVecStorage"),
    ("specs_layouts", "DenseVecStorage"),
    ("specs_layouts", "FlaggedStorage"),
    ("specs_layouts", "HashMapStorage"),
    ("specs_layouts", "MaskedStorage"),
    ("specs_layouts", "NullStorage"),
    ("specs_layouts", "VecStorage"),
    ("specs_markers", "MarkerAllocator"),
    ("specs_markers", "SimpleMarker"),
    ("specs_markers", "SimpleMarkerAllocator"),
    ("specs_markers", "UuidMarker"),
    ("specs_markers", "UuidMarkerAllocator"),
    ("specs_saveload", "ConvertSaveload"),
    ("specs_saveload", "Names"),
    ("specs_saveload", "SavedMarker"),
    ("specs_saveload", "plain_into"),
    ("specs_world", "LazyUpdate"),
    ("specs_world", "Registrable"),
    ("specs_world", "SharedLazy"),
];

/// The same, with its module in `specs`.
const OF_SPECS: [(&str, &str); 27] = [
    ("specs", "AnyStorage"),
    ("specs", "BTreeStorage"),
    ("specs", "Component"),
    ("specs", "DefaultVecStorage"),
    ("specs", "DenseVecStorage"),
    ("specs", "EntitiesRes"),
    ("specs", "Entity"),
    ("specs", "Error"),
    ("specs", "FlaggedStorage"),
    ("specs", "HashMapStorage"),
    ("specs", "LazyUpdate"),
    ("specs", "MaskedStorage"),
    ("specs", "MetaTable"),
    ("specs", "NullStorage"),
    ("specs", "Registrable"),
    ("specs", "Resource"),
    ("specs", "SharedLazy"),
    ("specs", "VecStorage"),
    ("specs::saveload", "ConvertSaveload"),
    ("specs::saveload", "MarkerAllocator"),
    ("specs::saveload", "Names"),
    ("specs::saveload", "SavedMarker"),
    ("specs::saveload", "SimpleMarker"),
    ("specs::saveload", "SimpleMarkerAllocator"),
    ("specs::saveload", "UuidMarker"),
    ("specs::saveload", "UuidMarkerAllocator"),
    ("specs::saveload", "plain_into"),
];

/// The same for the values of a scene.
const OF_SCENES: [(&str, &str); 15] = [
    ("scene_model", "Queue"),
    ("scene_world", "NumberPart"),
    ("scene_world", "PlainPart"),
    ("scene_world", "QueueValue"),
    ("scene_world", "ReferencePart"),
    ("scene_world", "SceneMarker"),
    ("scene_world", "SceneMarkerAllocator"),
    ("scene_world", "SceneStorage"),
    ("scene_world", "Store"),
    ("scene_world", "scene_storage"),
    ("shred_world", "Resource"),
    ("specs_entity", "EntitiesRes"),
    ("specs_entity", "Entity"),
    ("specs_layouts", "Component"),
    ("specs_layouts", "MaskedStorage"),
];

/// The modules of a scene's values.
const SCENE_MODULES: [&str; 5] = [
    "scene_model",
    "scene_world",
    "shred_world",
    "specs_entity",
    "specs_layouts",
];

/// The modules of these, in the order of their lines.
const MODULES: [&str; 8] = [
    "shred_world",
    "specs::saveload",
    "specs",
    "specs_entity",
    "specs_layouts",
    "specs_markers",
    "specs_saveload",
    "specs_world",
];

/// What each file of values names.
const ALWAYS: [&str; 7] = [
    "AnyStorage",
    "EntitiesRes",
    "Entity",
    "MaskedStorage",
    "MetaTable",
    "Registrable",
    "Resource",
];

/// What the lines of a kind name whose parts are saved.
const SAVING: [&str; 6] = [
    "ConvertSaveload",
    "Error",
    "MarkerAllocator",
    "Names",
    "SavedMarker",
    "plain_into",
];

/// Whether the lines of a kind name something of the library.
fn needs(kind: &Kind, name: &str) -> bool {
    if kind.form.head() == Some(name) {
        return true;
    }
    if kind.saved.is_some() && SAVING.iter().any(|one| *one == name) {
        return true;
    }
    if !kind.form.is_component() {
        return false;
    }
    match kind.form.layout() {
        Some(layout) if layout.name() == name => true,
        _ => name == "Component" || (name == "FlaggedStorage" && kind.form.is_flagged()),
    }
}

/// Whether something of the library is imported.
fn is_imported(list: &List, name: &str) -> bool {
    ALWAYS.iter().any(|one| *one == name) || list.kinds.iter().any(|kind| needs(kind, name))
}

/// How wide a line may be.
const WIDTH: usize = 100;

/// How wide names are, with what stands between them.
fn width_of(names: &[&str]) -> usize {
    let mut width = 0usize;
    for name in names {
        width = width.saturating_add(name.len()).saturating_add(2);
    }
    width
}

/// Puts names, with a comma between them.
fn put_names(out: &mut Vec<u8>, names: &[&str]) -> Result<(), AllocError> {
    let mut between = "";
    for name in names {
        put(out, between)?;
        put(out, *name)?;
        between = ", ";
    }
    Ok(())
}

/// Puts names in as many lines as they need, with a comma behind each.
fn put_lines(out: &mut Vec<u8>, names: &[&str]) -> Result<(), AllocError> {
    let mut column = WIDTH;
    for name in names {
        let width = name.len().saturating_add(2);
        if column.saturating_add(width) > WIDTH {
            put(out, "\n    ")?;
            column = 3;
        } else {
            put(out, " ")?;
        }
        put(out, *name)?;
        put(out, ",")?;
        column = column.saturating_add(width);
    }
    put(out, "\n")
}

/// Puts names between braces, in a line where they have room behind so many columns.
fn put_braces(out: &mut Vec<u8>, columns: usize, names: &[&str]) -> Result<(), AllocError> {
    put(out, "{")?;
    if columns.saturating_add(width_of(names)) <= WIDTH {
        put_names(out, names)?;
    } else {
        put_lines(out, names)?;
    }
    put(out, "}")
}

/// Puts the import of names of a module, which may come from the crate itself.
fn put_import(
    out: &mut Vec<u8>,
    root: &str,
    module: &str,
    names: &[&str],
) -> Result<(), AllocError> {
    let Some(first) = names.first() else {
        return Ok(());
    };
    put(out, "use ")?;
    put(out, root)?;
    put(out, module)?;
    put(out, "::")?;
    if names.len() == 1 {
        put(out, *first)?;
    } else {
        let columns = root.len().saturating_add(module.len()).saturating_add(7);
        put_braces(out, columns, names)?;
    }
    put(out, ";\n")
}

/// The types of the crate that the kinds name, in the order of their names.
fn parts_of<'a>(alloc: Global, list: &List<'a>) -> Result<Vec<&'a str>, AllocError> {
    let mut parts = Vec::new(alloc);
    for kind in &list.kinds {
        if let Some(part) = kind.part() {
            parts.push(part)?;
        }
    }
    parts.sort()?;
    Ok(parts)
}

/// Names that stand in their order, each once.
fn without_repeats<'a>(alloc: Global, names: &[&'a str]) -> Result<Vec<&'a str>, AllocError> {
    let mut once = Vec::new(alloc);
    let mut last = "";
    for name in names {
        if *name != last {
            once.push(*name)?;
        }
        last = *name;
    }
    Ok(once)
}

/// Puts the import of the types of the crate that the kinds name.
fn put_parts(out: &mut Vec<u8>, alloc: Global, list: &List) -> Result<(), AllocError> {
    let all = parts_of(alloc, list)?;
    let parts = without_repeats(alloc, &all)?;
    put_import(out, "crate::", list.parts, &parts)
}

/// The names of a module that are imported.
fn names_of(alloc: Global, list: &List, module: &str) -> Result<Vec<&'static str>, AllocError> {
    let lines = match list.source {
        Source::Specs => OF_SPECS,
        Source::Crates => OF_CRATES,
    };
    let mut names = Vec::new(alloc);
    for (place, name) in lines {
        if place == module && is_imported(list, name) {
            names.push(name)?;
        }
    }
    Ok(names)
}

/// Puts all imports.
pub(crate) fn put_imports(out: &mut Vec<u8>, alloc: Global, list: &List) -> Result<(), AllocError> {
    put_parts(out, alloc, list)?;
    for module in MODULES {
        let names = names_of(alloc, list, module)?;
        put_import(out, "", module, &names)?;
    }
    if list.kinds.iter().any(|kind| kind.saved.is_some()) {
        put(out, "use std::alloc::{AllocError, Global};\n\n")
    } else {
        put(out, "use std::alloc::AllocError;\n\n")
    }
}

/// Whether something is imported by the values of a scene.
fn is_of_scene(list: &List, name: &str) -> bool {
    match name {
        "NumberPart" => list.kinds.iter().any(|kind| kind.form.is_number()),
        "ReferencePart" => list.kinds.iter().any(|kind| kind.form.is_reference()),
        "PlainPart" | "Store" | "scene_storage" | "Entity" => {
            list.kinds.iter().any(|kind| kind.form.is_plain())
        }
        _ => true,
    }
}

/// The names of a module that the values of a scene import.
fn names_of_scene(
    alloc: Global,
    list: &List,
    module: &str,
) -> Result<Vec<&'static str>, AllocError> {
    let mut names = Vec::new(alloc);
    for (place, name) in OF_SCENES {
        if place == module && is_of_scene(list, name) {
            names.push(name)?;
        }
    }
    Ok(names)
}

/// Puts all imports of a scene's values.
pub(crate) fn put_scene_imports(
    out: &mut Vec<u8>,
    alloc: Global,
    list: &List,
) -> Result<(), AllocError> {
    put_parts(out, alloc, list)?;
    for module in SCENE_MODULES {
        let names = names_of_scene(alloc, list, module)?;
        put_import(out, "", module, &names)?;
    }
    if list.kinds.iter().any(|kind| kind.form.is_plain()) {
        put(out, "use std::alloc::Global;\n\n")
    } else {
        put(out, "\n")
    }
}

/// Puts all imports of the columns of a scene's rules.
pub(crate) fn put_column_imports(
    out: &mut Vec<u8>,
    alloc: Global,
    list: &List,
) -> Result<(), AllocError> {
    put_parts(out, alloc, list)?;
    put(out, "use crate::rules::")?;
    put(out, list.rules.unwrap_or(""))?;
    put(out, ";\nuse crate::")?;
    put(out, list.module)?;
    put(
        out,
        "::Value;
use hibitset_sets::BitSet;
use scene_world::{",
    )?;
    if list.kinds.iter().any(|kind| kind.form.is_global()) {
        put(out, "CountingRules, ")?;
    }
    put(
        out,
        "Store, WorldRules, columns};
use shred_world::{ResourceId, World};
use specs_entity::Entity;
use specs_layouts::{MaskedStorage, ReaderId};
use std::alloc::{AllocError, Global};

",
    )
}
