//! What a run did, as a page has it.
ghost use Rattle.scene_trace.specs.Texts.{HasNoTag};

use crate::pictures::json::Json;
use crate::pictures::series::Series;
use std::alloc::{AllocError, Global};
use std::collections::BTreeMap;

/// An entity: the frame of its birth, 0 where it was there at first, and of its death, and its parts under their kinds.
#[derive(Drop)]
struct Life {
    born: u32,
    died: Option<u32>,
    cells: BTreeMap<String, Series>,
}

/// What a run did, frame by frame: births, deaths, the values of parts and of globals, and what is told of commands.
///
/// Frame 0 is the scene before the first frame; it is noted first, and then frame by frame. Only what is new is noted, so that a
/// page has differences. After an `Err` no page is to be made of it.
#[derive(Drop)]
pub struct Record {
    alloc: Global,
    lives: BTreeMap<u64, Life>,
    globals: BTreeMap<String, Series>,
    told: Json,
    told_of: Option<u32>,
    frames: u32,
    refused: Json,
}

/// Notes a value under a name, which is begun where it is new.
fn note_under(
    alloc: Global,
    cells: &mut BTreeMap<String, Series>,
    name: &str,
    frame: u32,
    value: Option<&str>,
) -> Result<(), AllocError> {
    if let Some(series) = cells.get_mut(name) {
        return series.note(frame, value);
    }
    let mut series = Series::new(alloc);
    series.note(frame, value)?;
    let name = String::from_str(alloc, name)?;
    drop(cells.insert(name, series)?);
    Ok(())
}

/// Puts values under their names.
fn put_cells(out: &mut Json, cells: &mut BTreeMap<String, Series>) -> Result<(), AllocError> {
    out.put("{")?;
    let mut is_first = true;
    for (name, series) in cells.iter_mut() {
        if !is_first {
            out.put(",")?;
        }
        is_first = false;
        out.put_text(name.as_str())?;
        out.put(":")?;
        series.put_to(out)?;
    }
    out.put("}")
}

impl Life {
    /// Puts the entity as a list: its id as a text, the frames of its birth and its death, -1 where it lives, and its parts.
    fn put_to(&mut self, out: &mut Json, alloc: Global, id: u64) -> Result<(), AllocError> {
        let id = format!(in alloc; "{id}")?;
        out.put("[")?;
        out.put_text(id.as_str())?;
        out.put(",")?;
        out.put_number(i64::from(self.born))?;
        out.put(",")?;
        match self.died {
            Some(frame) => out.put_number(i64::from(frame))?,
            None => out.put("-1")?,
        }
        out.put(",")?;
        put_cells(out, &mut self.cells)?;
        out.put("]")
    }
}

impl Record {
    /// A run of which nothing is noted yet.
    pub fn new(alloc: Global) -> Record {
        Record {
            alloc,
            lives: BTreeMap::new(alloc),
            globals: BTreeMap::new(alloc),
            told: Json::new(alloc),
            told_of: None,
            frames: 0,
            refused: Json::new(alloc),
        }
    }

    /// Notes that a frame was done.
    pub fn note_frame(&mut self, frame: u32) {
        self.frames = frame;
    }

    /// Notes the birth of an entity in a frame.
    pub fn note_birth(&mut self, id: u64, frame: u32) -> Result<(), AllocError> {
        let life = Life {
            born: frame,
            died: None,
            cells: BTreeMap::new(self.alloc),
        };
        drop(self.lives.insert(id, life)?);
        Ok(())
    }

    /// Notes the death of an entity in a frame.
    pub fn note_death(&mut self, id: u64, frame: u32) {
        if let Some(life) = self.lives.get_mut(&id) {
            life.died = Some(frame);
        }
    }

    /// Notes what became of a part of an entity in a frame: its JSON, or none where it was taken.
    pub fn note_part(
        &mut self,
        id: u64,
        kind: &str,
        frame: u32,
        value: Option<&str>,
    ) -> Result<(), AllocError> {
        match self.lives.get_mut(&id) {
            Some(life) => note_under(self.alloc, &mut life.cells, kind, frame, value),
            None => Ok(()),
        }
    }

    /// Notes what became of a global in a frame.
    pub fn note_global(
        &mut self,
        name: &str,
        frame: u32,
        value: Option<&str>,
    ) -> Result<(), AllocError> {
        note_under(self.alloc, &mut self.globals, name, frame, value)
    }

    /// Tells something of a frame by a sentence. Frames ascend.
    pub fn tell(&mut self, frame: u32, sentence: &str) -> Result<(), AllocError> {
        if self.told_of != Some(frame) {
            let head = if self.told.is_empty() { "[" } else { "],[" };
            self.told.put(head)?;
            self.told.put_number(i64::from(frame))?;
            self.told_of = Some(frame);
        }
        self.told.put(",")?;
        self.told.put_text(sentence)
    }

    /// Notes that a frame was refused, and why.
    pub fn note_refusal(&mut self, frame: u32, cause: &str) -> Result<(), AllocError> {
        self.refused = Json::new(self.alloc);
        self.refused.put("[")?;
        self.refused.put_number(i64::from(frame))?;
        self.refused.put(",")?;
        self.refused.put_text(cause)?;
        self.refused.put("]")
    }

    /// The JSON of the run, of which so many frames were asked for.
    pub(crate) fn into_json(self, asked: u32) -> Result<Json, AllocError> {
        let Record {
            alloc,
            mut lives,
            mut globals,
            told,
            told_of: _,
            frames,
            refused,
        } = self;
        let mut out = Json::new(alloc);
        out.put("{\"frames\":")?;
        out.put_number(i64::from(frames))?;
        out.put(",\"asked\":")?;
        out.put_number(i64::from(asked))?;
        out.put(",\"refused\":")?;
        put_or(&mut out, &refused, "null")?;
        out.put(",\"entities\":[")?;
        put_lives(&mut out, alloc, &mut lives)?;
        out.put("],\"globals\":")?;
        put_cells(&mut out, &mut globals)?;
        out.put(",\"told\":[")?;
        put_told(&mut out, &told)?;
        out.put("]}")?;
        Ok(out)
    }
}

/// Puts a JSON, or this text where it is empty.
fn put_or(out: &mut Json, json: &Json, other: &'static str) -> Result<(), AllocError>
    requires { HasNoTag other.now }
{
    if json.is_empty() {
        out.put(other)
    } else {
        out.put_json(json)
    }
}

fn put_lives(
    out: &mut Json,
    alloc: Global,
    lives: &mut BTreeMap<u64, Life>,
) -> Result<(), AllocError> {
    let mut is_first = true;
    for (id, life) in lives.iter_mut() {
        if !is_first {
            out.put(",")?;
        }
        is_first = false;
        life.put_to(out, alloc, *id)?;
    }
    Ok(())
}

/// Puts what was told, and ends its last list.
fn put_told(out: &mut Json, told: &Json) -> Result<(), AllocError> {
    if told.is_empty() {
        return Ok(());
    }
    out.put_json(told)?;
    out.put("]")
}
