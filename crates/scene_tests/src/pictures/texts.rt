//! The SVG of a plan, and what is escaped.
use crate::pictures::pages::run_in;
use scene::Limits;
use scene_basics::Basics;
use scene_trace::outline_of;
use scene_trace::pictures::{Plan, PlanSystem, Record, plan_svg, put_html, run_page};
use std::alloc::{AllocError, Global};

/// Two systems, the second behind the first, as a document has them.
const TWO: &str =
    "{\"next\":0,\"entities\":[],\"systems\":[{\"kind\":\"decay\",\"name\":\"a<b\"},{\"kind\":\"reap\",\"after\":[\"a<b\"]}]}";

/// What is drawn of them, behind the style.
const DRAWN: &str = "<text class=\"stage\" x=\"16\" y=\"24\">stage 1</text>
<text class=\"stage\" x=\"244\" y=\"24\">stage 2</text>
<g><title>reap at place 2 comes after decay at place 1, they conflict on hp</title><path d=\"M196 56 C220 56 220 56 244 56\"/></g>
<g><title>decay at place 1, named a&lt;b
time 3
writes hp
conflicts with reap at place 2 on hp</title><rect x=\"16\" y=\"40\" width=\"180\" height=\"32\" rx=\"4\"/><text class=\"kind\" x=\"24\" y=\"61\">1 decay</text></g>
<g><title>reap at place 2
time 3
reads hp
conflicts with decay at place 1 on hp</title><rect x=\"244\" y=\"40\" width=\"180\" height=\"32\" rx=\"4\"/><text class=\"kind\" x=\"252\" y=\"61\">2 reap</text></g>
</svg>
";

/// A text of all that HTML and JSON escape, and how each has it.
const RAW: &str = "</script><b>&\"'\\\n\u{1f}é";

const IN_HTML: &str = "&lt;/script&gt;&lt;b&gt;&amp;&quot;&#39;\\\n\u{1f}é";

const IN_JSON: &str = "\\u003c/script>\\u003cb>&\\\"'\\\\\\u000a\\u001fé";

/// Whether the two systems are drawn so.
fn is_drawn(alloc: Global) -> Result<bool, AllocError> {
    let Ok(outline) = outline_of(alloc, &Basics, Limits::FULL, TWO.as_bytes()) else {
        return Ok(false);
    };
    let drawn = plan_svg(alloc, &outline.plan)?;
    match String::from_utf8(drawn) {
        Ok(text) => match text.as_str().split_once("</style>\n") {
            Some((_, rest)) => Ok(rest == DRAWN),
            None => Ok(false),
        },
        Err(_) => Ok(false),
    }
}

/// Whether HTML has the text so.
fn is_escaped(alloc: Global) -> Result<bool, AllocError> {
    let mut out = Vec::new(alloc);
    put_html(&mut out, RAW)?;
    Ok(out.as_slice() == IN_HTML.as_bytes())
}

/// A system of this kind and name, alone in its stage.
fn system_named(alloc: Global, text: &str) -> Result<PlanSystem, AllocError> {
    Ok(PlanSystem {
        place: 1,
        kind: String::from_str(alloc, text)?,
        name: String::from_str(alloc, text)?,
        stage: 0,
        group: 0,
        units: 5,
        local: false,
        reads: Vec::new(alloc),
        writes: Vec::new(alloc),
        after: Vec::new(alloc),
    })
}

/// Whether a page in which the text stands everywhere has it escaped everywhere: its run is whole, and no other tag begins so.
fn page_is_safe(alloc: Global) -> Result<bool, AllocError> {
    let mut record = Record::new(alloc);
    record.note_birth(7, 0)?;
    record.note_part(7, RAW, 0, Some(RAW))?;
    record.note_global(RAW, 0, Some("3"))?;
    record.note_frame(1);
    record.note_part(7, RAW, 1, Some("2"))?;
    record.note_death(7, 1);
    record.tell(1, RAW)?;
    record.tell(1, RAW)?;
    record.note_refusal(2, RAW)?;
    let mut systems = Vec::new(alloc);
    systems.push(system_named(alloc, RAW)?)?;
    let page = run_page(alloc, RAW, &Plan { systems }, record, 9)?;
    let run = format!(in alloc;
        "{{\"frames\":1,\"asked\":9,\"refused\":[2,\"{IN_JSON}\"],\"entities\":[[\"7\",0,1,{{\"{IN_JSON}\":[0,\"{IN_JSON}\",1,2]}}]],\"globals\":{{\"{IN_JSON}\":[0,3]}},\"told\":[[1,\"{IN_JSON}\",\"{IN_JSON}\"]]}}"
    )?;
    match String::from_utf8(page) {
        Ok(page) => Ok(
            run_in(page.as_str()) == Some(run.as_str())
                && page.as_str().find("<b>").is_none()
                && page.as_str().find(IN_HTML).is_some(),
        ),
        Err(_) => Ok(false),
    }
}

#[test]
fn plans_are_drawn_and_texts_are_escaped(rt: HostRuntime) {
    let alloc = rt.alloc();
    assert_eq!(rt; is_drawn(alloc), Ok(true));
    assert_eq!(rt; is_escaped(alloc), Ok(true));
    assert_eq!(rt; page_is_safe(alloc), Ok(true));
}
