//! The SVG of a plan.
ghost use Rattle.std.specs.Prelude.{◌≡◌, ◌++◌, IfOk, OnOk};
ghost use Rattle.scene_trace.specs.Boxes.{box_text, AreDrawn, IsDrawn};

use crate::pictures::boxes::{HEIGHT, LEFT, PlanBox, Reach, TOP};
use crate::pictures::bytes::{put, put_html, put_number};
use crate::pictures::plan::{Plan, PlanSystem};
use crate::pictures::sharing::shared_by;
use std::alloc::{AllocError, Global};

/// How many conflicts of a system are told at most.
const TOLD: usize = 12;

/// How wide a letter is, and what stands beside a text.
const LETTER: u64 = 8;

const MARGIN: u64 = 8;

const STYLE: &str = "<style>.plan{color:#1f2933;font:13px system-ui,sans-serif}
.plan rect{fill:#dce9f7;stroke:#5b86b5}.plan .local rect{fill:#f3e6cf;stroke:#b08a45}
.plan text{fill:currentColor}.plan .stage{opacity:.65}.plan path{fill:none;stroke:#a2562f;stroke-width:1.5}
@media(prefers-color-scheme:dark){.plan{color:#e4e8ee}.plan rect{fill:#243a53;stroke:#6f9fd0}
.plan .local rect{fill:#463a22;stroke:#c9a45c}.plan path{stroke:#e0936a}}</style>
";

/// The SVG of a plan: a column for each stage, a row for each group, a box for each system, and a line from each system to one that
/// comes after it. Each box and line has a title: what the system is, what it reads and writes, and what it conflicts on with others.
///
/// Errors: want of memory.
pub fn plan_svg(alloc: Global, plan: &Plan) -> Result<Vec<u8>, AllocError>
    ensures { IfOk result (λ svg. IsDrawn plan.now.systems.items svg.items) }
{
    let drawn = draw_systems(alloc, plan)?;
    let mut out = Vec::new(alloc);
    put_head(&mut out, &drawn.boxes)?;
    put_stages(&mut out, &plan.systems, &drawn.boxes)?;
    put_lines(&mut out, alloc, plan, &drawn.boxes)?;
    out.extend_from_slice(&drawn.text)?;
    put(&mut out, "</svg>\n")?;
    Ok(out)
}

/// The systems of a plan as they are drawn, and their boxes.
#[derive(Drop)]
struct Drawn {
    text: Vec<u8>,
    boxes: Vec<PlanBox>,
}

/// Draws the systems of a plan: the box of each between its title and its label.
fn draw_systems(alloc: Global, plan: &Plan) -> Result<Drawn, AllocError>
    ensures { IfOk result (λ drawn. AreDrawn plan.now.systems.items drawn.boxes.items drawn.text.items) }
{
    let mut text = Vec::new(alloc);
    let mut boxes = Vec::new(alloc);
    let mut reach = Reach::new();
    for system in &plan.systems {
        let area = reach.step(system);
        let title = title_of(alloc, plan, system)?;
        let label = label_of(alloc, system, area)?;
        text.extend_from_slice(&title)?;
        put_box(&mut text, area)?;
        text.extend_from_slice(&label)?;
        boxes.push(area)?;
    }
    Ok(Drawn { text, boxes })
}

/// Puts the rectangle of a box.
fn put_box(out: &mut Vec<u8>, area: PlanBox) -> Result<(), AllocError>
    ensures { OnOk result (out.new.items ≡ out.old.items ++ box_text area) }
{
    put(out, "<rect x=\"")?;
    put_number(out, area.x)?;
    put(out, "\" y=\"")?;
    put_number(out, area.y)?;
    put(out, "\" width=\"")?;
    put_number(out, area.width)?;
    put(out, "\" height=\"32\" rx=\"4\"/>")
}

/// Puts an attribute that is a number.
fn put_attribute(out: &mut Vec<u8>, name: &'static str, number: u64) -> Result<(), AllocError> {
    put(out, " ")?;
    put(out, name)?;
    put(out, "=\"")?;
    put_number(out, number)?;
    put(out, "\"")
}

/// Puts the begin of the SVG, which has room for these boxes.
fn put_head(out: &mut Vec<u8>, boxes: &[PlanBox]) -> Result<(), AllocError> {
    let mut width = LEFT;
    let mut height = TOP;
    for area in boxes {
        width = width.max(area.x.saturating_add(area.width));
        height = height.max(area.y.saturating_add(HEIGHT));
    }
    put(
        out,
        "<svg xmlns=\"http://www.w3.org/2000/svg\" class=\"plan\" role=\"img\" aria-label=\"plan\"",
    )?;
    put_attribute(out, "width", width.saturating_add(LEFT))?;
    put_attribute(out, "height", height.saturating_add(LEFT))?;
    put(out, ">\n")?;
    put(out, STYLE)
}

/// Puts a text at a place, of a class.
fn put_text_at(out: &mut Vec<u8>, class: &'static str, x: u64, y: u64) -> Result<(), AllocError> {
    put(out, "<text class=\"")?;
    put(out, class)?;
    put(out, "\"")?;
    put_attribute(out, "x", x)?;
    put_attribute(out, "y", y)?;
    put(out, ">")
}

/// Puts the number of each stage above its first box.
fn put_stages(
    out: &mut Vec<u8>,
    systems: &[PlanSystem],
    boxes: &[PlanBox],
) -> Result<(), AllocError> {
    let mut last = None;
    for (system, area) in systems.iter().zip(boxes.iter()) {
        if last != Some(system.stage) {
            put_text_at(out, "stage", area.x, TOP - 16)?;
            if system.local {
                put(out, "local")?;
            } else {
                put(out, "stage ")?;
                put_number(out, u64::from(system.stage).saturating_add(1))?;
            }
            put(out, "</text>\n")?;
        }
        last = Some(system.stage);
    }
    Ok(())
}

/// Puts how a system is called: its kind and place.
fn put_called(out: &mut Vec<u8>, system: &PlanSystem) -> Result<(), AllocError> {
    put_html(out, system.kind.as_str())?;
    put(out, " at place ")?;
    put_number(out, u64::from(system.place))
}

/// Puts words behind a head, if there are any.
fn put_words(out: &mut Vec<u8>, head: &'static str, words: &[&str]) -> Result<(), AllocError> {
    let mut before = head;
    for word in words {
        put(out, before)?;
        put_html(out, *word)?;
        before = ", ";
    }
    Ok(())
}

fn put_strings(out: &mut Vec<u8>, head: &'static str, words: &[String]) -> Result<(), AllocError> {
    let mut before = head;
    for word in words {
        put(out, before)?;
        put_html(out, word.as_str())?;
        before = ", ";
    }
    Ok(())
}

/// Puts with whom a system conflicts and on what, up to a number of others.
fn put_conflicts(
    out: &mut Vec<u8>,
    alloc: Global,
    plan: &Plan,
    system: &PlanSystem,
) -> Result<(), AllocError> {
    let mut count = 0;
    for other in &plan.systems {
        if other.place == system.place {
            continue;
        }
        let words = shared_by(alloc, system, other)?;
        if words.is_empty() {
            continue;
        }
        if count >= TOLD {
            return put(out, "\nconflicts with more");
        }
        count += 1;
        put(out, "\nconflicts with ")?;
        put_called(out, other)?;
        put_words(out, " on ", &words)?;
    }
    Ok(())
}

/// What stands before the box of a system: its title.
fn title_of(alloc: Global, plan: &Plan, system: &PlanSystem) -> Result<Vec<u8>, AllocError> {
    let mut out = Vec::new(alloc);
    put(
        &mut out,
        if system.local {
            "<g class=\"local\">"
        } else {
            "<g>"
        },
    )?;
    put(&mut out, "<title>")?;
    put_called(&mut out, system)?;
    if !system.name.is_empty() {
        put(&mut out, ", named ")?;
        put_html(&mut out, system.name.as_str())?;
    }
    put(&mut out, "\ntime ")?;
    put_number(&mut out, u64::from(system.units))?;
    put_strings(&mut out, "\nreads ", &system.reads)?;
    put_strings(&mut out, "\nwrites ", &system.writes)?;
    put_conflicts(&mut out, alloc, plan, system)?;
    put(&mut out, "</title>")?;
    Ok(out)
}

/// What stands behind the box of a system: its place and kind, as far as the box has room.
fn label_of(alloc: Global, system: &PlanSystem, area: PlanBox) -> Result<Vec<u8>, AllocError> {
    let kind = system.kind.as_str();
    let place = system.place;
    let label = format!(in alloc; "{place} {kind}")?;
    let mut out = Vec::new(alloc);
    let x = area.x.saturating_add(MARGIN);
    let y = area.y.saturating_add(21);
    put_text_at(&mut out, "kind", x, y)?;
    put_clipped(&mut out, label.as_str(), area.width)?;
    put(&mut out, "</text></g>\n")?;
    Ok(out)
}

/// Puts a text as far as it has room in a width.
fn put_clipped(out: &mut Vec<u8>, text: &str, width: u64) -> Result<(), AllocError> {
    let mut room = width.saturating_sub(MARGIN) / LETTER;
    let mut buffer = [0u8; 4];
    for letter in text.chars() {
        if room == 0 {
            return Ok(());
        }
        room -= 1;
        put_html(out, letter.encode_utf8(&mut buffer))?;
    }
    Ok(())
}

/// The system at a place, and its box.
fn at_place<'a>(
    plan: &'a Plan,
    boxes: &'a [PlanBox],
    place: u32,
) -> Option<(&'a PlanSystem, &'a PlanBox)> {
    for (system, area) in plan.systems.iter().zip(boxes.iter()) {
        if system.place == place {
            return Some((system, area));
        }
    }
    None
}

/// Puts a line to each system from those that it comes after.
fn put_lines(
    out: &mut Vec<u8>,
    alloc: Global,
    plan: &Plan,
    boxes: &[PlanBox],
) -> Result<(), AllocError> {
    for (system, area) in plan.systems.iter().zip(boxes.iter()) {
        for place in &system.after {
            if let Some((early, from)) = at_place(plan, boxes, *place) {
                put_line(out, alloc, early, from, system, area)?;
            }
        }
    }
    Ok(())
}

/// Puts a line from the box of a system to that of one that comes after it.
fn put_line(
    out: &mut Vec<u8>,
    alloc: Global,
    early: &PlanSystem,
    from: &PlanBox,
    late: &PlanSystem,
    to: &PlanBox,
) -> Result<(), AllocError> {
    put(out, "<g><title>")?;
    put_called(out, late)?;
    put(out, " comes after ")?;
    put_called(out, early)?;
    let words = shared_by(alloc, early, late)?;
    put_words(out, ", they conflict on ", &words)?;
    put(out, "</title><path d=\"M")?;
    put_curve(out, from, to)?;
    put(out, "\"/></g>\n")
}

/// Puts the points of a curve from the right of a box to the left of another.
fn put_curve(out: &mut Vec<u8>, from: &PlanBox, to: &PlanBox) -> Result<(), AllocError> {
    let x = from.x.saturating_add(from.width);
    let y = from.y.saturating_add(HEIGHT / 2);
    let end = to.y.saturating_add(HEIGHT / 2);
    put_point(out, x, y)?;
    put(out, " C")?;
    put_point(out, x.saturating_add(24), y)?;
    put(out, " ")?;
    put_point(out, to.x.saturating_sub(24), end)?;
    put(out, " ")?;
    put_point(out, to.x, end)
}

fn put_point(out: &mut Vec<u8>, x: u64, y: u64) -> Result<(), AllocError> {
    put_number(out, x)?;
    put(out, " ")?;
    put_number(out, y)
}
