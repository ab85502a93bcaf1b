//! The page of a run.
use crate::pictures::bytes::{put, put_html};
use crate::pictures::drawing::plan_svg;
use crate::pictures::plan::Plan;
use crate::pictures::record::Record;
use crate::pictures::script::SCRIPT;
use crate::pictures::style::STYLE;
use std::alloc::{AllocError, Global};

const HEAD: &str = "<!doctype html>
<html lang=\"en\">
<meta charset=\"utf-8\">
<meta name=\"viewport\" content=\"width=device-width\">
<title>";

const BODY: &str = "</h1>
<p id=\"notice\"></p>
<div class=\"bar\"><button id=\"back\" title=\"left\">&lt;</button>
<div class=\"axis\"><canvas id=\"axis\"></canvas><input id=\"slider\" type=\"range\" min=\"0\" value=\"0\" aria-label=\"frame\"></div>
<button id=\"on\" title=\"right\">&gt;</button><output id=\"frame\"></output></div>
<p class=\"keys\">Keys: left and right, ten frames with shift; home and end. Green births and red deaths stand above the slider. <span id=\"rest\"></span></p>
<h2>Entities: <span id=\"count\"></span></h2>
<div id=\"head\" class=\"row head\"></div>
<div id=\"rows\"><div id=\"space\"></div></div>
<p id=\"globals\"></p>
<h2>In this frame</h2>
<ul id=\"told\"></ul>
<h2>Numbers over frames</h2>
<p id=\"kinds\"></p>
<div class=\"plot\"><canvas id=\"lines\"></canvas><div id=\"cursor\"></div></div>
<h2>The plan</h2>
<div class=\"scroll\">
";

/// Puts the page of a title, the picture of a plan, and the record of a run.
fn put_page(out: &mut Vec<u8>, title: &str, svg: &[u8], run: &[u8]) -> Result<(), AllocError> {
    put(out, HEAD)?;
    put_html(out, title)?;
    put(out, "</title>\n<style>\n")?;
    put(out, STYLE)?;
    put(out, "</style>\n<h1>")?;
    put_html(out, title)?;
    put(out, BODY)?;
    out.extend_from_slice(svg)?;
    put(out, "</div>\n<script type=\"application/json\" id=\"run\">")?;
    out.extend_from_slice(run)?;
    put(out, "</script>\n<script>\n")?;
    put(out, SCRIPT)?;
    put(out, "</script>\n</html>\n")
}

/// The page of a run: its title, its plan, what was recorded of it, and how many frames were asked for. It is one file of HTML, and
/// needs nothing beside it.
///
/// Errors: want of memory.
pub fn run_page(
    alloc: Global,
    title: &str,
    plan: &Plan,
    record: Record,
    asked: u32,
) -> Result<Vec<u8>, AllocError> {
    let svg = plan_svg(alloc, plan)?;
    let run = record.into_json(asked)?;
    let mut out = Vec::new(alloc);
    put_page(&mut out, title, svg.as_slice(), run.as_bytes())?;
    Ok(out)
}
