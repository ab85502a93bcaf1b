//! The names of systems: whether two have one, and whether each system comes after earlier ones.
ghost use Rattle.std.specs.Prelude.{◌≡◌, ◌||◌, [], IfOk, OnOk};
ghost use Rattle.std.specs.Str.{bytes_eq};
ghost use Rattle.scene_model.specs.Parts.{Name, is_among};
ghost use Rattle.scene_model.specs.Declaring.{texts};
ghost use Rattle.scene_document.specs.Documents.{has_taken_name, has_unknown_dependency};
ghost use Rattle.scene_document.specs.DraftViews.{systems_in};
ghost use Rattle.scene_document.specs.Names.{has_name, takes_name, lacks_one_of, comes_after_other};

use crate::EntryDraft;
use std::alloc::{AllocError, Global};
use std::collections::BTreeSet;

fn is_known(names: &BTreeSet<&str>, name: &str) -> bool
    ensures { result ≡ is_among name.now (texts names.now.keys) }
{
    names.contains(name)
}

fn learn<'a>(names: &mut BTreeSet<&'a str>, name: &'a str) -> Result<(), AllocError>
    ensures { OnOk result ((other : Name) → is_among other (texts names.new.keys)
        ≡ (bytes_eq other name.now || is_among other (texts names.old.keys))) }
{
    names.insert(name)?;
    Ok(())
}

/// Puts the name of an entry's system to the others.
fn learn_entry<'a, S: Drop>(
    names: &mut BTreeSet<&'a str>,
    entry: &EntryDraft<'a, S>,
) -> Result<(), AllocError>
    ensures { OnOk result ((other : Name) → is_among other (texts names.new.keys)
        ≡ (has_name other entry.now || is_among other (texts names.old.keys))) }
{
    match entry {
        EntryDraft::Barrier => Ok(()),
        EntryDraft::System(system) => learn(names, system.name),
    }
}

/// Whether an entry's system has one of these names, which is not empty.
fn takes_name<S: Drop>(names: &BTreeSet<&str>, entry: &EntryDraft<'_, S>) -> bool
    ensures { result ≡ takes_name (texts names.now.keys) entry.now }
{
    match entry {
        EntryDraft::Barrier => false,
        EntryDraft::System(system) => !system.name.is_empty() && is_known(names, system.name),
    }
}

/// Whether two systems have one name that is not empty.
///
/// Errors: for want of memory.
pub(crate) fn has_taken_name<S: Drop>(
    alloc: Global,
    entries: &[EntryDraft<'_, S>],
) -> Result<bool, AllocError>
    ensures { IfOk result (λ found. found ≡ has_taken_name (systems_in entries.now)) }
{
    let mut later = BTreeSet::new(alloc);
    for index in (0..entries.len()).rev() {
        let entry = &entries[index];
        if takes_name(&later, entry) {
            return Ok(true);
        }
        learn_entry(&mut later, entry)?;
    }
    Ok(false)
}

/// Whether one of the names is empty or none of those that are known.
fn lacks_one_of(names: &BTreeSet<&str>, wanted: &[&str]) -> bool
    ensures { result ≡ lacks_one_of (texts names.now.keys) (texts wanted.now) }
{
    for name in wanted {
        if name.is_empty() || !is_known(names, name) {
            return true;
        }
    }
    false
}

/// Whether an entry's system comes after another name than these, or after the empty one.
fn comes_after_other<S: Drop>(names: &BTreeSet<&str>, entry: &EntryDraft<'_, S>) -> bool
    ensures { result ≡ comes_after_other (texts names.now.keys) entry.now }
{
    match entry {
        EntryDraft::Barrier => false,
        EntryDraft::System(system) => lacks_one_of(names, &system.after),
    }
}

/// Whether a system comes after a name that is empty or that no earlier entry has.
///
/// Errors: for want of memory.
pub(crate) fn has_unknown_dependency<S: Drop>(
    alloc: Global,
    entries: &[EntryDraft<'_, S>],
) -> Result<bool, AllocError>
    ensures { IfOk result (λ found. found ≡ has_unknown_dependency [] (systems_in entries.now)) }
{
    let mut earlier = BTreeSet::new(alloc);
    for entry in entries {
        if comes_after_other(&earlier, entry) {
            return Ok(true);
        }
        learn_entry(&mut earlier, entry)?;
    }
    Ok(false)
}
