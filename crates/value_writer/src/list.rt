//! A list of kinds.
ghost use Rattle.std.specs.Bool.{OnFalse};
ghost use Rattle.std.specs.Prelude.{◌≡◌, ◌≢◌, ◌↔◌, IfOk, IsTrue, OnOk};
ghost use Rattle.std.specs.List.{All};
ghost use Rattle.value_writer.specs.Variants.{HaveOwnNames};

use crate::kind::{Form, Holds, Kind, LAYOUTS, Layout, PLAIN, System};
use crate::names::{is_module_name, is_path, is_type_name};
use crate::refusal::{Refusal, Stop};
use std::alloc::{AllocError, Global};

/// How long a name of a scene's kind may be, so that the lines that name it have room.
const LONGEST_OF_SCENE: usize = 24;

/// What a written file imports from.
#[derive(Clone, Copy)]
pub(crate) enum Source {
    /// From `specs` alone.
    Specs,
    /// From the crates that `specs` stands on.
    Crates,
}

/// A list of kinds, with the crate that has the values, their module, and the module of the types that the kinds name.
#[derive(Drop)]
pub(crate) struct List<'a> {
    pub(crate) crate_name: &'a str,
    pub(crate) module: &'a str,
    pub(crate) parts: &'a str,
    pub(crate) source: Source,
    /// The type of a scene's data, where the values are a scene's.
    pub(crate) scene: Option<&'a str>,
    /// The type of its rules, where the file of their columns is written too.
    pub(crate) rules: Option<&'a str>,
    pub(crate) kinds: Vec<Kind<'a>>,
    /// The systems of its rules, where the file of what they say of documents is written too.
    pub(crate) systems: Vec<System<'a>>,
}

/// The layout of a storage's name.
fn layout_of(name: &str) -> Option<Layout> {
    for layout in LAYOUTS {
        if layout.name() == name {
            return Some(layout);
        }
    }
    None
}

/// The form of a type of the library over a type.
fn over<'a>(head: &str, of: &'a str) -> Option<Form<'a>> {
    match head {
        "SimpleMarker" => Some(Form::Simple(of)),
        "UuidMarker" => Some(Form::Uuid(of)),
        "SimpleMarkerAllocator" => Some(Form::Over("SimpleMarkerAllocator", of)),
        "UuidMarkerAllocator" => Some(Form::Over("UuidMarkerAllocator", of)),
        "LazyUpdate" => Some(Form::Over("LazyUpdate", of)),
        "SharedLazy" => Some(Form::Over("SharedLazy", of)),
        _ => None,
    }
}

/// The form of a type with another between angle brackets.
fn generic_form<'a>(text: &'a str) -> Option<Form<'a>> {
    let (head, rest) = text.split_once('<')?;
    let of = rest.strip_suffix('>')?;
    if is_type_name(of) {
        over(head, of)
    } else {
        None
    }
}

/// The form that a text behind a colon names.
fn form_of<'a>(text: &'a str) -> Option<Form<'a>> {
    if text == "resource" {
        return Some(Form::Own);
    }
    match text.strip_prefix("flagged ") {
        Some(rest) => match layout_of(rest.trim()) {
            Some(layout) => Some(Form::Flagged(layout)),
            None => None,
        },
        None => match layout_of(text) {
            Some(layout) => Some(Form::Stored(layout)),
            None => generic_form(text),
        },
    }
}

/// What is plain, by its name.
fn plain_of(name: &str) -> Option<&'static str> {
    for plain in PLAIN {
        if plain == name {
            return Some(plain);
        }
    }
    None
}

/// The form that a text behind a colon names, and as what its parts are saved: those of components alone are.
fn saved_form_of<'a>(text: &'a str) -> Option<(Form<'a>, Option<&'static str>)> {
    let Some((text, saved)) = text.split_once(" saved as ") else {
        return Some((form_of(text)?, None));
    };
    let form = form_of(text.trim())?;
    let plain = plain_of(saved.trim())?;
    if form.is_component() {
        Some((form, Some(plain)))
    } else {
        None
    }
}

/// The form of a scene's kind that a text behind a colon names.
fn scene_form_of<'a>(text: &'a str) -> Option<Form<'a>> {
    match text {
        "column" => return Some(Form::Column(Holds::Parts)),
        "global" => return Some(Form::Global),
        _ => {}
    }
    let (head, variant) = text.split_once(' ')?;
    let variant = variant.trim();
    if !is_type_name(variant) {
        return None;
    }
    match head {
        "number" => Some(Form::Column(Holds::Number(variant))),
        "reference" => Some(Form::Column(Holds::Reference(variant))),
        _ => None,
    }
}

/// The words of a system behind the first, where a text is that of one.
fn access_of(text: &str) -> Option<&str> {
    if text == "system" {
        return Some("");
    }
    text.strip_prefix("system ")
}

/// What each world of a scene holds.
///
/// Errors: want of memory.
fn scene_kinds<'a>(alloc: Global, data: &'a str) -> Result<Vec<Kind<'a>>, AllocError>
    ensures { IfOk result (λ kinds. HaveOwnNames kinds.items) }
{
    let mut kinds = Vec::new(alloc);
    kinds.push(Kind {
        name: "Entities",
        form: Form::Library("EntitiesRes"),
        saved: None,
    })?;
    kinds.push(Kind {
        name: "Markers",
        form: Form::Markers,
        saved: None,
    })?;
    kinds.push(Kind {
        name: "Allocator",
        form: Form::Library("SceneMarkerAllocator"),
        saved: None,
    })?;
    kinds.push(Kind {
        name: "Queue",
        form: Form::Queue(data),
        saved: None,
    })?;
    Ok(kinds)
}

/// Whether a kind has this name.
fn is_named(kind: &Kind, name: &str) -> bool
    ensures { IsTrue result ↔ (kind.now.name.now ≡ name.now) }
{
    kind.name == name
}

/// Whether one of the kinds has this name.
fn has_name(kinds: &[Kind], name: &str) -> bool
    ensures { OnFalse result (All (λ kind. kind.name.now ≢ name.now) kinds.now) }
{
    for kind in kinds {
        if is_named(kind, name) {
            return true;
        }
    }
    false
}

/// Whether one of the systems has this name.
fn has_system(systems: &[System], name: &str) -> bool {
    systems.iter().any(|system| system.name == name)
}

/// Whether a name is that of a column or a global.
fn is_declared(kinds: &[Kind], name: &str) -> bool {
    kinds.iter().any(|kind| kind.name == name && (kind.form.is_column() || kind.form.is_global()))
}

/// Whether words say what a system reads and writes: columns and globals, behind `reads` or `writes`.
fn is_access(kinds: &[Kind], words: &str) -> bool {
    let mut is_begun = false;
    for word in words.split(' ') {
        if word == "reads" || word == "writes" {
            is_begun = true;
        } else if !word.is_empty() && !(is_begun && is_declared(kinds, word)) {
            return false;
        }
    }
    true
}

/// The variant of data that a column is, if it is of numbers, or else of references.
fn variant_of<'a>(kind: &Kind<'a>, is_number: bool) -> Option<&'a str> {
    if kind.form.is_number() == is_number {
        kind.form.variant()
    } else {
        None
    }
}

/// Whether two columns stand in data as one variant where both are of numbers or both of references, and else as two.
fn agree(kind: &Kind, other: &Kind) -> bool {
    match (
        kind.form.variant(),
        variant_of(other, kind.form.is_number()),
    ) {
        (Some(one), Some(same)) => one == same,
        (Some(one), None) => other.form.variant() != Some(one),
        (None, _) => true,
    }
}

/// Whether each two columns do.
fn all_agree(kinds: &[Kind]) -> bool {
    for kind in kinds {
        for other in kinds {
            if !agree(kind, other) {
                return false;
            }
        }
    }
    true
}

impl<'a> List<'a> {
    /// A list that names entities and the table of kinds alone.
    ///
    /// Errors: `AllocError`.
    fn new(alloc: Global) -> Result<List<'a>, AllocError>
        ensures { IfOk result (λ list. HaveOwnNames list.kinds.items) }
    {
        let mut kinds = Vec::new(alloc);
        kinds.push(Kind {
            name: "Entities",
            form: Form::Library("EntitiesRes"),
            saved: None,
        })?;
        kinds.push(Kind {
            name: "Table",
            form: Form::Library("MetaTable"),
            saved: None,
        })?;
        Ok(List {
            crate_name: "",
            module: "values",
            parts: "parts",
            source: Source::Specs,
            scene: None,
            rules: None,
            kinds,
            systems: Vec::new(alloc),
        })
    }

    /// The form that a text names in this list, and as what parts are saved.
    fn form_of(&self, text: &'a str) -> Option<(Form<'a>, Option<&'static str>)> {
        if self.scene.is_none() {
            return saved_form_of(text);
        }
        let form = scene_form_of(text)?;
        Some((form, None))
    }

    /// The list is a scene's, with this type of data.
    ///
    /// Errors: `LateScene`, `WrongSetting`, or want of memory; the list is as it was.
    fn begin_scene(&mut self, alloc: Global, data: &'a str) -> Result<(), Stopped>
        ensures { HaveOwnNames self.old.kinds.items → OnOk result (HaveOwnNames self.new.kinds.items) }
    {
        if !is_type_name(data) {
            return Err(Stopped::By(Refusal::WrongSetting));
        }
        if self.kinds.len() > 2 {
            return Err(Stopped::By(Refusal::LateScene));
        }
        match scene_kinds(alloc, data) {
            Ok(kinds) => {
                self.kinds = kinds;
                self.scene = Some(data);
                Ok(())
            }
            Err(_) => Err(Stopped::Memory),
        }
    }

    /// Takes in a kind.
    ///
    /// Errors: `WrongName`, `TakenName`, `UnknownForm`, or want of memory; the list is as it was.
    #[tactic(auto, using(crate::proofs::VariantLemmas::own_names_with))]
    fn add(&mut self, name: &'a str, text: &'a str) -> Result<(), Stopped>
        ensures { HaveOwnNames self.old.kinds.items → OnOk result (HaveOwnNames self.new.kinds.items) }
    {
        if !is_type_name(name) || (self.scene.is_some() && name.len() > LONGEST_OF_SCENE) {
            return Err(Stopped::By(Refusal::WrongName));
        }
        if has_name(&self.kinds, name) {
            return Err(Stopped::By(Refusal::TakenName));
        }
        let Some((form, saved)) = self.form_of(text) else {
            return Err(Stopped::By(Refusal::UnknownForm));
        };
        match self.kinds.push(Kind { name, form, saved }) {
            Ok(()) => Ok(()),
            Err(_) => Err(Stopped::Memory),
        }
    }

    /// Takes in a system of the rules.
    ///
    /// Errors: `WrongName`, `TakenName`, `UnknownForm`, or want of memory; the list is as it was.
    fn add_system(&mut self, name: &'a str, access: &'a str) -> Result<(), Stopped>
        ensures { self.new.kinds ≡ self.old.kinds }
    {
        if !is_type_name(name) || name.len() > LONGEST_OF_SCENE {
            return Err(Stopped::By(Refusal::WrongName));
        }
        if has_name(&self.kinds, name) || has_system(&self.systems, name) {
            return Err(Stopped::By(Refusal::TakenName));
        }
        if !is_access(&self.kinds, access) {
            return Err(Stopped::By(Refusal::UnknownForm));
        }
        match self.systems.push(System { name, access }) {
            Ok(()) => Ok(()),
            Err(_) => Err(Stopped::Memory),
        }
    }

    /// Whether the data of a scene are numbers of one variant, some at least, and references of one other.
    fn has_plain_data(&self) -> bool {
        self.kinds.iter().any(|kind| kind.form.is_number())
            && !self.kinds.iter().any(|kind| kind.form.is_parts())
            && all_agree(&self.kinds)
    }

    /// Sets what a setting names.
    ///
    /// Errors: `UnknownSetting`, `WrongSetting`; the list is as it was.
    fn set(&mut self, name: &str, text: &'a str) -> Result<(), Refusal>
        ensures { self.new.kinds ≡ self.old.kinds }
    {
        match name {
            "crate" => set_name(&mut self.crate_name, text, is_module_name(text)),
            "module" => set_name(&mut self.module, text, is_path(text)),
            "parts" => set_name(&mut self.parts, text, is_path(text)),
            "from" => set_source(&mut self.source, text),
            "rules" => set_rules(&mut self.rules, text),
            _ => Err(Refusal::UnknownSetting),
        }
    }

    /// Takes in a line.
    ///
    /// Errors: those of `add`, `add_system`, `begin_scene` and `set`, and `NoColon`; the list is as it was.
    fn take(&mut self, alloc: Global, line: &'a str) -> Result<(), Stopped>
        ensures { HaveOwnNames self.old.kinds.items → OnOk result (HaveOwnNames self.new.kinds.items) }
    {
        let line = line.trim();
        if line.is_empty() || line.starts_with('#') {
            return Ok(());
        }
        let Some((name, text)) = line.split_once(':') else {
            return Err(Stopped::By(Refusal::NoColon));
        };
        let (name, text) = (name.trim(), text.trim());
        if name == "scene" {
            return self.begin_scene(alloc, text);
        }
        if is_setting(name) {
            return match self.set(name, text) {
                Ok(()) => Ok(()),
                Err(refusal) => Err(Stopped::By(refusal)),
            };
        }
        match access_of(text) {
            Some(access) if self.scene.is_some() => self.add_system(name, access),
            _ => self.add(name, text),
        }
    }

    /// What the list as a whole lacks.
    fn lack(&self) -> Option<Refusal> {
        if self.crate_name.is_empty() {
            Some(Refusal::NoCrate)
        } else if self.rules.is_some() && self.scene.is_none() {
            Some(Refusal::NoScene)
        } else if !self
            .kinds
            .iter()
            .any(|kind| kind.form.is_storage() || kind.form.is_column())
        {
            Some(Refusal::NoStorage)
        } else if self.systems.is_empty() {
            None
        } else if self.rules.is_none() {
            Some(Refusal::NoRules)
        } else if !self.has_plain_data() {
            Some(Refusal::MixedData)
        } else {
            None
        }
    }
}

/// Why a line isn't taken in.
#[derive(Clone, Copy)]
enum Stopped {
    By(Refusal),
    Memory,
}

impl Stopped {
    fn at(self, line: u32) -> Stop {
        match self {
            Stopped::By(refusal) => Stop::Refused { line, refusal },
            Stopped::Memory => Stop::Memory,
        }
    }
}

/// Whether a name is one of a setting: it begins with no capital letter.
fn is_setting(name: &str) -> bool {
    match name.as_bytes().first() {
        Some(first) => !first.is_ascii_uppercase(),
        None => true,
    }
}

fn set_name<'a>(name: &mut &'a str, text: &'a str, fits: bool) -> Result<(), Refusal> {
    if !fits {
        return Err(Refusal::WrongSetting);
    }
    *name = text;
    Ok(())
}

fn set_rules<'a>(rules: &mut Option<&'a str>, text: &'a str) -> Result<(), Refusal> {
    if !is_type_name(text) {
        return Err(Refusal::WrongSetting);
    }
    *rules = Some(text);
    Ok(())
}

fn set_source(source: &mut Source, text: &str) -> Result<(), Refusal> {
    *source = match text {
        "specs" => Source::Specs,
        "crates" => Source::Crates,
        _ => return Err(Refusal::WrongSetting),
    };
    Ok(())
}

/// The list of a text.
///
/// Errors: the first refusal of a line, with its number; what the list lacks, with the number of its last line; want of
/// memory.
pub(crate) fn read_list<'a>(alloc: Global, text: &'a str) -> Result<List<'a>, Stop>
    ensures { IfOk result (λ list. HaveOwnNames list.kinds.items) }
{
    let mut list = match List::new(alloc) {
        Ok(list) => list,
        Err(_) => return Err(Stop::Memory),
    };
    let mut number = 0u32;
    for line in text.lines() {
        number = number.saturating_add(1);
        match list.take(alloc, line) {
            Ok(()) => {}
            Err(stopped) => return Err(stopped.at(number)),
        }
    }
    match list.lack() {
        None => Ok(list),
        Some(refusal) => Err(Stop::Refused {
            line: number,
            refusal,
        }),
    }
}
