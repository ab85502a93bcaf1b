//! Templates: texts in which words between `@` stand for what a kind or the list has.
ghost use Rattle.std.specs.Prelude.{◌≡◌, ◌++◌, OnOk, codes};
ghost use Rattle.value_writer.specs.Variants.{over_text, item_text, type_text};

use crate::bytes::{put, put_camel, put_path, put_plural, put_snake};
use crate::kind::{Form, Holds, Kind, System};
use crate::list::{List, Source};
use itoa::Buffer;
use std::alloc::AllocError;

/// What a word stands for is put for each storage of a list, by these templates.
const EACH: [(&str, &str); 19] = [
    ("each has", " has_@snake@"),
    ("each room", " room_@snake@"),
    ("each drops", " drops_@snake@"),
    ("each none", " none_@snake@"),
    ("each append", " append_@snake@"),
    ("each lost", " lost_@snake@"),
    ("has types", "(@plural@ → ℕ → Bool) → "),
    ("room types", "(@plural@ → ℕ → Type 0) → "),
    ("drops types", "(@plural@ → List ℕ → @plural@ → Type 0) → "),
    ("has given", " (has_@snake@ : @plural@ → ℕ → Bool)"),
    (
        "drops given",
        " (drops_@snake@ : @plural@ → List ℕ → @plural@ → Type 0)",
    ),
    (
        "members has_part",
        "\n        ⟦<MaskedStorage<@item@> as AnyStorage>⟧.has_part",
    ),
    (
        "members has_room",
        "\n        ⟦<MaskedStorage<@item@> as AnyStorage>⟧.has_room",
    ),
    (
        "members drops",
        "\n        ⟦<MaskedStorage<@item@> as AnyStorage>⟧.drops",
    ),
    (
        "law parts",
        "\n        (λ _ _ indices dropped. dropped-parts _ _ indices dropped.parts)",
    ),
    ("law none", "\n        (λ _. drops-none _ _ _)"),
    (
        "law append",
        "
        (λ _ _ _ indices others one other.
        drops-append _ _ _ _ _ _ _ _ _ indices others one other)",
    ),
    ("each hole", " _"),
    ("none types", "((s : @plural@) → drops_@snake@ s [] s) → "),
];

/// Of which something is put one behind the other.
#[derive(Clone, Copy)]
enum Which {
    Columns,
    References,
    Globals,
    Systems,
}

/// What is put one behind the other where a word stands: of which, by which template, and what stands between two.
const JOINED: [(&str, Which, &str, &str); 13] = [
    ("column names", Which::Columns, "\"@snake@\"", ", "),
    ("global names", Which::Globals, "\"@snake@\"", ", "),
    ("kinds", Which::Columns, "@snake@_kind", ", "),
    ("columns in", Which::Columns, "@snake@_in", ", "),
    ("columns at", Which::Columns, "@snake@_at", ", "),
    ("kinds listed", Which::Columns, "@snake@_kind ∷ ", ""),
    ("names", Which::Globals, "@snake@_name, ", ""),
    ("names listed", Which::Globals, "@snake@_name ∷ ", ""),
    (
        "references",
        Which::References,
        "bytes_eq kind @snake@_kind || ",
        "",
    ),
    ("systems", Which::Systems, "@name@", ", "),
    ("systems listed", Which::Systems, "@name@ ∷ ", ""),
    ("system kinds", Which::Systems, "@snake@_kind", ", "),
    ("does", Which::Systems, "Does@name@", ", "),
];

/// What a word stands for at a system: what it says of itself, whether of globals, and whether in code.
const ACCESS: [(&str, &str, bool, bool); 8] = [
    ("reads", "reads", false, true),
    ("writes", "writes", false, true),
    ("read globals", "reads", true, true),
    ("written globals", "writes", true, true),
    ("kinds read", "reads", false, false),
    ("kinds written", "writes", false, false),
    ("names read", "reads", true, false),
    ("names written", "writes", true, false),
];

/// Where the logic's words are: the word of a template, their module in the crates below `specs`, and in `specs`.
const PLACES: [(&str, &str, &str); 4] = [
    (
        "masked",
        "specs_layouts.specs.Masked",
        "specs.specs.ForStorages",
    ),
    (
        "drops",
        "specs_layouts.specs.Drops",
        "specs.specs.ForStorages",
    ),
    (
        "drop lemmas",
        "specs_layouts.specs.DropLemmas",
        "specs.specs.ForStorages",
    ),
    (
        "variants",
        "specs_world.specs.Variants",
        "specs.specs.ForWorlds",
    ),
];

/// The module that a word stands for.
fn place_of(source: Source, word: &str) -> Option<&'static str> {
    for (name, below, above) in PLACES {
        if name == word {
            return Some(match source {
                Source::Crates => below,
                Source::Specs => above,
            });
        }
    }
    None
}

/// The template that is filled for each storage where a word stands.
fn each_of(word: &str) -> Option<&'static str> {
    for (name, template) in EACH {
        if name == word {
            return Some(template);
        }
    }
    None
}

/// Puts a type over another.
pub(crate) fn put_over(out: &mut Vec<u8>, head: &str, of: &str) -> Result<(), AllocError>
    ensures { OnOk result (out.new.items ≡ out.old.items ++ over_text head.now of.now) }
{
    put(out, head)?;
    put(out, "<")?;
    put(out, of)?;
    put(out, ">")
}

/// Puts the type of what a storage has at an index, or of a resource.
fn put_item(out: &mut Vec<u8>, kind: &Kind) -> Result<(), AllocError>
    ensures { OnOk result (out.new.items ≡ out.old.items ++ item_text kind.now.name.now kind.now.form) }
{
    match kind.form {
        Form::Simple(of) => put_over(out, "SimpleMarker", of),
        Form::Uuid(of) => put_over(out, "UuidMarker", of),
        Form::Over(head, of) => put_over(out, head, of),
        Form::Library(head) => put(out, head),
        Form::Stored(_) | Form::Flagged(_) | Form::Own | Form::Column(_) => put(out, kind.name),
        Form::Markers => put(out, "SceneMarker"),
        Form::Queue(data) => put_over(out, "Queue", data),
        Form::Global => put(out, "u64"),
    }
}

/// Puts the type of a storage of the kind.
fn put_masked(out: &mut Vec<u8>, kind: &Kind) -> Result<(), AllocError>
    ensures { OnOk result (out.new.items
        ≡ out.old.items ++ over_text (codes "MaskedStorage") (item_text kind.now.name.now kind.now.form)) }
{
    put(out, "MaskedStorage")?;
    put(out, "<")?;
    put_item(out, kind)?;
    put(out, ">")
}

/// Puts the type of what values of a kind hold.
pub(crate) fn put_type(out: &mut Vec<u8>, kind: &Kind) -> Result<(), AllocError>
    ensures { OnOk result (out.new.items ≡ out.old.items ++ type_text kind.now.name.now kind.now.form) }
{
    match kind.form {
        Form::Stored(_)
        | Form::Flagged(_)
        | Form::Simple(_)
        | Form::Uuid(_)
        | Form::Markers
        | Form::Column(_) => put_masked(out, kind),
        Form::Own | Form::Library(_) | Form::Over(_, _) | Form::Queue(_) | Form::Global => {
            put_item(out, kind)
        }
    }
}

/// Puts a storage over the name of a kind.
fn put_storage(out: &mut Vec<u8>, kind: &Kind) -> Result<(), AllocError> {
    let Some(layout) = kind.form.layout() else {
        return Ok(());
    };
    if !kind.form.is_flagged() {
        return put_over(out, layout.name(), kind.name);
    }
    put(out, "FlaggedStorage<")?;
    put(out, kind.name)?;
    put(out, ", ")?;
    put_over(out, layout.name(), kind.name)?;
    put(out, ">")
}

/// What the logic sees of a storage's parts.
fn seen_of<'a>(kind: &Kind<'a>) -> &'a str {
    match kind.form {
        Form::Simple(_) => "ℕ",
        Form::Uuid(_) => "(List ℕ)",
        _ => kind.name,
    }
}

/// Puts what the logic sees of a storage.
fn put_seen(out: &mut Vec<u8>, kind: &Kind) -> Result<(), AllocError> {
    let Some(layout) = kind.form.layout() else {
        return Ok(());
    };
    if kind.form.is_flagged() {
        put(out, "FlaggedStorage ")?;
        put(out, seen_of(kind))?;
        put(out, " (")?;
    }
    put(out, layout.name())?;
    put(out, " ")?;
    put(out, seen_of(kind))?;
    if kind.form.is_flagged() {
        put(out, ")")?;
    }
    Ok(())
}

/// Puts what a word stands for at a kind.
fn put_kind_word(out: &mut Vec<u8>, kind: &Kind, word: &str) -> Result<(), AllocError> {
    match word {
        "name" => put(out, kind.name),
        "snake" => put_snake(out, kind.name),
        "plural" => put_plural(out, kind.name),
        "type" => put_type(out, kind),
        "item" => put_item(out, kind),
        "storage" => put_storage(out, kind),
        "seen" => put_seen(out, kind),
        "saved" => put(out, kind.saved.unwrap_or("")),
        "variant" => put(out, kind.form.variant().unwrap_or("")),
        _ => Ok(()),
    }
}

/// Puts a template for a kind alone.
fn put_kind(out: &mut Vec<u8>, kind: &Kind, template: &str) -> Result<(), AllocError> {
    let mut is_word = false;
    for piece in template.split('@') {
        if is_word {
            put_kind_word(out, kind, piece)?;
        } else {
            put(out, piece)?;
        }
        is_word = !is_word;
    }
    Ok(())
}

/// Puts a template for each storage of a list.
fn put_each(out: &mut Vec<u8>, list: &List, template: &str) -> Result<(), AllocError> {
    for kind in &list.kinds {
        if kind.form.is_storage() {
            put_kind(out, kind, template)?;
        }
    }
    Ok(())
}

/// Puts a template for each of the kinds that are so, with something between two.
fn put_joined_kinds(
    out: &mut Vec<u8>,
    list: &List,
    which: Which,
    template: &str,
    between: &str,
) -> Result<(), AllocError> {
    let mut is_first = true;
    for kind in &list.kinds {
        let is_so = match which {
            Which::Columns => kind.form.is_column(),
            Which::References => kind.form.is_reference(),
            Which::Globals => kind.form.is_global(),
            Which::Systems => false,
        };
        if is_so {
            put(out, if is_first { "" } else { between })?;
            put_kind(out, kind, template)?;
            is_first = false;
        }
    }
    Ok(())
}

/// Puts a template for each system, with something between two.
fn put_joined_systems(
    out: &mut Vec<u8>,
    systems: &[System],
    template: &str,
    between: &str,
) -> Result<(), AllocError> {
    let mut is_first = true;
    for system in systems {
        let named = Kind {
            name: system.name,
            form: Form::Own,
            saved: None,
        };
        put(out, if is_first { "" } else { between })?;
        put_kind(out, &named, template)?;
        is_first = false;
    }
    Ok(())
}

/// Puts what a word stands for that is put one behind the other, and says whether it is such a word.
fn put_joined(out: &mut Vec<u8>, list: &List, word: &str) -> Result<bool, AllocError> {
    for (name, which, template, between) in JOINED {
        if name == word {
            match which {
                Which::Systems => put_joined_systems(out, &list.systems, template, between)?,
                _ => put_joined_kinds(out, list, which, template, between)?,
            }
            return Ok(true);
        }
    }
    Ok(false)
}

/// Puts a template for each column, or each global, that a system names behind a verb, with something between two, and says
/// whether there was one.
fn put_declared(
    out: &mut Vec<u8>,
    list: &List,
    access: &str,
    verb: &str,
    of_globals: bool,
    template: &str,
    between: &str,
) -> Result<bool, AllocError> {
    let mut is_verb = false;
    let mut is_first = true;
    for word in access.split(' ') {
        if word == "reads" || word == "writes" {
            is_verb = word == verb;
        } else if is_verb {
            for kind in &list.kinds {
                if kind.name == word && kind.form.is_global() == of_globals {
                    put(out, if is_first { "" } else { between })?;
                    put_kind(out, kind, template)?;
                    is_first = false;
                }
            }
        }
    }
    Ok(!is_first)
}

/// Puts what a system says of itself in code: a vector of names.
fn put_access_in_code(
    out: &mut Vec<u8>,
    list: &List,
    access: &str,
    verb: &str,
    of_globals: bool,
) -> Result<(), AllocError> {
    let before = out.len();
    put(out, "vec![in alloc; ")?;
    if put_declared(out, list, access, verb, of_globals, "\"@snake@\"", ", ")? {
        return put(out, "]?");
    }
    out.truncate(before);
    put(out, "Vec::new(alloc)")
}

/// Puts what a word stands for at a system, and says whether it is such a word.
fn put_access(out: &mut Vec<u8>, list: &List, kind: &Kind, word: &str) -> Result<bool, AllocError> {
    for (name, verb, of_globals, in_code) in ACCESS {
        if name == word {
            for system in &list.systems {
                if system.name == kind.name {
                    if in_code {
                        put_access_in_code(out, list, system.access, verb, of_globals)?;
                    } else {
                        let template = if of_globals {
                            "@snake@_name ∷ "
                        } else {
                            "@snake@_kind ∷ "
                        };
                        put_declared(out, list, system.access, verb, of_globals, template, "")?;
                        put(out, "[]")?;
                    }
                }
            }
            return Ok(true);
        }
    }
    Ok(false)
}

/// The variant of data that the first column of numbers is, or the first of references.
fn variant_of<'a>(list: &List<'a>, is_number: bool) -> &'a str {
    for kind in &list.kinds {
        if kind.form.is_plain() && kind.form.is_number() == is_number {
            return kind.form.variant().unwrap_or("");
        }
    }
    ""
}

/// Puts the number of a kind: its place in the list.
fn put_number(out: &mut Vec<u8>, list: &List, kind: &Kind) -> Result<(), AllocError> {
    let mut number = 0u64;
    for other in &list.kinds {
        if other.name == kind.name {
            return put(out, Buffer::new().format(number));
        }
        number = number.saturating_add(1);
    }
    Ok(())
}

/// Puts what is seen of each value as one of a kind.
fn put_cases(out: &mut Vec<u8>, list: &List, kind: &Kind) -> Result<(), AllocError> {
    for other in &list.kinds {
        put(out, "      | ")?;
        put(out, other.name)?;
        if other.name == kind.name {
            put(out, "Value x ↦ Some x\n")?;
        } else {
            put(out, "Value x ↦ None\n")?;
        }
    }
    Ok(())
}

/// Puts which values hold the storage of a kind.
fn put_parts(out: &mut Vec<u8>, list: &List, kind: &Kind) -> Result<(), AllocError> {
    for other in &list.kinds {
        put_snake(out, kind.name)?;
        put(out, "_part (")?;
        put(out, other.name)?;
        if other.name == kind.name {
            put(out, "Value s) = Some s\n")?;
        } else {
            put(out, "Value x) = None\n")?;
        }
    }
    Ok(())
}

/// Puts how a proof names the call for a kind behind the name of the function: that of the first storage has no more.
fn put_call(out: &mut Vec<u8>, list: &List, kind: &Kind) -> Result<(), AllocError> {
    for other in &list.kinds {
        if other.form.is_storage() {
            if other.name == kind.name {
                return Ok(());
            }
            put(out, "-in-")?;
            put(out, kind.name)?;
            return put(out, "Value");
        }
    }
    Ok(())
}

/// Puts the columns behind a kind, and all for no kind, as a list of the logic.
fn put_columns_behind(out: &mut Vec<u8>, list: &List, kind: &Kind) -> Result<(), AllocError> {
    let mut is_behind = kind.name.is_empty();
    for other in &list.kinds {
        if is_behind && other.form.is_column() {
            put_snake(out, other.name)?;
            put(out, "_column ∷ ")?;
        }
        if other.name == kind.name {
            is_behind = true;
        }
    }
    put(out, "[]")
}

/// Puts the globals, as a list of the logic.
fn put_globals(out: &mut Vec<u8>, list: &List) -> Result<(), AllocError> {
    for other in &list.kinds {
        if other.form.is_global() {
            put_snake(out, other.name)?;
            put(out, "_global ∷ ")?;
        }
    }
    put(out, "[]")
}

/// Puts the name of what is the same for all kinds of a sort, where it isn't looked at if there is one of them at most.
fn put_looked_at(out: &mut Vec<u8>, name: &str, count: usize) -> Result<(), AllocError> {
    if count < 2 {
        put(out, "_")?;
    }
    put(out, name)
}

/// Puts how a proof names what stands in the branch of a kind: the place of its column, where that isn't the first.
fn put_place(out: &mut Vec<u8>, list: &List, kind: &Kind) -> Result<(), AllocError> {
    let mut place = 1u64;
    for other in &list.kinds {
        if other.name == kind.name {
            if place < 2 {
                return Ok(());
            }
            put(out, "-")?;
            return put(out, Buffer::new().format(place));
        }
        if other.form.is_column() {
            place = place.saturating_add(1);
        }
    }
    Ok(())
}

/// Puts how a proof names the call in the branch of a kind behind the name of the function.
fn put_branch(out: &mut Vec<u8>, list: &List, kind: &Kind) -> Result<(), AllocError> {
    for other in &list.kinds {
        if other.form.is_column() {
            if other.name == kind.name {
                return Ok(());
            }
            put(out, "-then-eq")?;
            return put_place(out, list, kind);
        }
    }
    Ok(())
}

/// How many columns a list has, and how many globals.
fn columns_of(list: &List) -> usize {
    list.kinds
        .iter()
        .filter(|kind| kind.form.is_column())
        .count()
}

fn globals_of(list: &List) -> usize {
    list.kinds
        .iter()
        .filter(|kind| kind.form.is_global())
        .count()
}

/// Puts how a proof names the call for the last column behind the name of the function.
fn put_last(out: &mut Vec<u8>, list: &List) -> Result<(), AllocError> {
    if columns_of(list) < 2 {
        Ok(())
    } else {
        put(out, "-2")
    }
}

/// Puts the lemma by which a name is that of a column or of one behind it, where one stands behind it.
fn put_guard(out: &mut Vec<u8>, list: &List, column: &Kind, is_it: bool) -> Result<(), AllocError> {
    let Some(next) = next_column(list, column) else {
        return Ok(());
    };
    put(out, if is_it { "first-kind" } else { "next-kind" })?;
    put(out, " Holds c.args.kind.now ")?;
    put_snake(out, column.name)?;
    put(out, "_column ")?;
    put_snake(out, next.name)?;
    put(out, "_column (")?;
    put_columns_behind(out, list, next)?;
    put(out, ") (sym c.eq")?;
    put_place(out, list, column)?;
    put(out, ".ensures ∙ c.if-eq")?;
    put_place(out, list, column)?;
    put(
        out,
        if is_it {
            ".true)\n    ("
        } else {
            ".false)\n    ("
        },
    )
}

/// The column behind another.
fn next_column<'a, 'b>(list: &'b List<'a>, column: &Kind) -> Option<&'b Kind<'a>> {
    let mut is_behind = false;
    for other in &list.kinds {
        if is_behind && other.form.is_column() {
            return Some(other);
        }
        if other.name == column.name {
            is_behind = true;
        }
    }
    None
}

/// Puts the lemmas by which a name is none of the columns before one, and that of it.
fn put_passing(out: &mut Vec<u8>, list: &List, kind: &Kind) -> Result<(), AllocError> {
    for other in &list.kinds {
        if other.form.is_column() {
            if other.name == kind.name {
                return put_guard(out, list, other, true);
            }
            put_guard(out, list, other, false)?;
        }
    }
    Ok(())
}

/// Puts the ends of these.
fn put_closing(out: &mut Vec<u8>, list: &List, kind: &Kind) -> Result<(), AllocError> {
    for other in &list.kinds {
        if other.form.is_column() {
            if next_column(list, other).is_some() {
                put(out, ")")?;
            }
            if other.name == kind.name {
                return Ok(());
            }
        }
    }
    Ok(())
}

/// Puts what is read of each value as one of a kind.
fn put_readings(out: &mut Vec<u8>, list: &List, kind: &Kind) -> Result<(), AllocError> {
    for other in &list.kinds {
        put_snake(out, kind.name)?;
        put(out, "_in (")?;
        put(out, other.name)?;
        if other.name == kind.name {
            put(out, "Value x) = Some x\n")?;
        } else {
            put(out, "Value x) = None\n")?;
        }
    }
    Ok(())
}

/// Puts the type of what the logic sees of a value of a scene.
fn put_seen_type(out: &mut Vec<u8>, kind: &Kind) -> Result<(), AllocError> {
    match kind.form {
        Form::Library("EntitiesRes") => put(out, "Births"),
        Form::Library(_) => put(out, "Noting"),
        Form::Markers => put(out, "(Masked (Flagged (VecStorage ℕ)))"),
        Form::Queue(data) => {
            put(out, "(Queue ")?;
            put(out, data)?;
            put(out, ")")
        }
        Form::Column(_) => {
            put(out, "(Storage ")?;
            put(out, kind.name)?;
            put(out, ")")
        }
        _ => put(out, "ℕ"),
    }
}

/// Puts what is stored for the parts of a column.
fn put_stored(out: &mut Vec<u8>, kind: &Kind) -> Result<(), AllocError> {
    let call = match kind.form {
        Form::Column(Holds::Number(_)) => "number_stored",
        Form::Column(Holds::Reference(_)) => "reference_stored",
        _ => {
            put_snake(out, kind.name)?;
            return put(out, "_stored");
        }
    };
    put(out, "(λ (part : ")?;
    put(out, kind.name)?;
    put(out, "). ")?;
    put(out, call)?;
    put(out, " part.0)")
}

/// Puts what a word stands for at a kind of a list.
fn put_word(out: &mut Vec<u8>, list: &List, kind: &Kind, word: &str) -> Result<(), AllocError> {
    if let Some(template) = each_of(word) {
        return put_each(out, list, template);
    }
    if let Some(place) = place_of(list.source, word) {
        return put(out, place);
    }
    if put_joined(out, list, word)? || put_access(out, list, kind, word)? {
        return Ok(());
    }
    match word {
        "number variant" => put(out, variant_of(list, true)),
        "reference variant" => put(out, variant_of(list, false)),
        "parts of" => put(
            out,
            if list.systems.is_empty() {
                "Rules"
            } else {
                "Names"
            },
        ),
        "crate" => put(out, list.crate_name),
        "module" => put_path(out, list.module, "."),
        "parts" => put_path(out, list.parts, "."),
        "path" => put_path(out, list.module, "/"),
        "specs" => put_camel(out, list.module),
        "list" => put_path(out, list.module, "_"),
        "number" => put_number(out, list, kind),
        "cases" => put_cases(out, list, kind),
        "parts cases" => put_parts(out, list, kind),
        "call" => put_call(out, list, kind),
        "data" => put(out, list.scene.unwrap_or("")),
        "rules" => put(out, list.rules.unwrap_or("")),
        "columns behind" => put_columns_behind(out, list, kind),
        "globals" => put_globals(out, list),
        "readings" => put_readings(out, list, kind),
        "kind" => put_looked_at(out, "kind", columns_of(list)),
        "global" => put_looked_at(out, "name", globals_of(list)),
        "global value" => put_looked_at(out, "global", globals_of(list).saturating_add(1)),
        "held" => put_looked_at(out, "value", globals_of(list).saturating_add(1)),
        "place" => put_place(out, list, kind),
        "branch" => put_branch(out, list, kind),
        "last" => put_last(out, list),
        "passing" => put_passing(out, list, kind),
        "closing" => put_closing(out, list, kind),
        "seen type" => put_seen_type(out, kind),
        "stored" => put_stored(out, kind),
        _ => put_kind_word(out, kind, word),
    }
}

/// Puts a template for a kind of a list.
pub(crate) fn put_filled(
    out: &mut Vec<u8>,
    list: &List,
    kind: &Kind,
    template: &str,
) -> Result<(), AllocError> {
    let mut is_word = false;
    for piece in template.split('@') {
        if is_word {
            put_word(out, list, kind, piece)?;
        } else {
            put(out, piece)?;
        }
        is_word = !is_word;
    }
    Ok(())
}
