//! The record of a run, made of its scenes.
use crate::course::Kinds;
use crate::events::{FrameTrace, Refusal};
use crate::lines::{deed_sentences, lead_text};
use crate::pictures::Record;
use crate::plain::{Part, Parts, Plain};
use crate::tracing::{Halted, Watcher};
use serde_json::Value;
use std::alloc::{AllocError, Global};
use std::collections::BTreeMap;

/// Records the frames of a run for a page: it takes the scenes as the engine has them, and what is told of commands.
#[derive(Drop)]
pub struct Recorder {
    alloc: Global,
    record: Record,
    refused: Option<(u32, String)>,
}

impl Recorder {
    /// Nothing is recorded yet.
    pub fn new(alloc: Global) -> Recorder {
        Recorder {
            alloc,
            record: Record::new(alloc),
            refused: None,
        }
    }

    /// The frame that was refused, and why.
    pub fn refused(&self) -> Option<(u32, &str)> {
        match &self.refused {
            Some((number, cause)) => Some((*number, cause.as_str())),
            None => None,
        }
    }

    /// What was recorded.
    pub fn into_record(self) -> Record {
        self.record
    }

    /// Notes the parts of an entity that are not as they were.
    fn note_parts(
        &mut self,
        number: u32,
        id: u64,
        before: Option<&Parts>,
        after: &Parts,
    ) -> Result<(), AllocError> {
        for (kind, part) in after {
            let early = match before {
                Some(parts) => parts.get(kind),
                None => None,
            };
            if !is_written_as(early, part) {
                let text = part.value.to_string(self.alloc)?;
                self.record
                    .note_part(id, *kind, number, Some(text.as_str()))?;
            }
        }
        match before {
            Some(parts) => self.note_taken(number, id, parts, after),
            None => Ok(()),
        }
    }

    /// Notes the parts of an entity that are gone.
    fn note_taken(
        &mut self,
        number: u32,
        id: u64,
        before: &Parts,
        after: &Parts,
    ) -> Result<(), AllocError> {
        for (kind, _part) in before {
            if !after.contains_key(kind) {
                self.record.note_part(id, *kind, number, None)?;
            }
        }
        Ok(())
    }

    /// Notes who was born, what became of the others, and who died.
    fn note_entities(
        &mut self,
        number: u32,
        before: &BTreeMap<u64, Parts>,
        after: &BTreeMap<u64, Parts>,
    ) -> Result<(), AllocError> {
        for (id, parts) in after {
            let early = before.get(id);
            if early.is_none() {
                self.record.note_birth(*id, number)?;
            }
            self.note_parts(number, *id, early, parts)?;
        }
        for (id, _parts) in before {
            if !after.contains_key(id) {
                self.record.note_death(*id, number);
            }
        }
        Ok(())
    }

    fn note_globals(
        &mut self,
        number: u32,
        before: &BTreeMap<&'static str, Value>,
        after: &BTreeMap<&'static str, Value>,
    ) -> Result<(), AllocError> {
        for (name, value) in after {
            if before.get(name) != Some(value) {
                let text = value.to_string(self.alloc)?;
                self.record.note_global(*name, number, Some(text.as_str()))?;
            }
        }
        for (name, _value) in before {
            if !after.contains_key(name) {
                self.record.note_global(*name, number, None)?;
            }
        }
        Ok(())
    }

    /// Notes a frame that was refused, and what led there.
    fn note_refusal(
        &mut self,
        number: u32,
        refusal: &Refusal,
        kinds: &Kinds,
    ) -> Result<(), AllocError> {
        let cause = refusal.cause.as_str();
        self.refused = Some((number, String::from_str(self.alloc, cause)?));
        self.record.note_refusal(number, cause)?;
        for lead in &refusal.leads {
            let sentence = lead_text(self.alloc, lead, kinds)?;
            self.record.tell(number, sentence.as_str())?;
        }
        Ok(())
    }

    /// Notes a frame that was done.
    fn note_frame(
        &mut self,
        before: &Plain,
        frame: &FrameTrace,
        after: &Plain,
        kinds: &Kinds,
    ) -> Result<(), AllocError> {
        let number = frame.number;
        self.record.note_frame(number);
        self.note_entities(number, &before.entities, &after.entities)?;
        self.note_globals(number, &before.globals, &after.globals)?;
        for sentence in deed_sentences(self.alloc, frame, kinds)? {
            self.record.tell(number, sentence.as_str())?;
        }
        Ok(())
    }

    fn note_first(&mut self, first: &Plain) -> Result<(), AllocError> {
        let none = BTreeMap::new(self.alloc);
        self.note_entities(0, &none, &first.entities)?;
        let none = BTreeMap::new(self.alloc);
        self.note_globals(0, &none, &first.globals)
    }
}

/// Whether a part has the same JSON as this one.
fn is_written_as(one: Option<&Part>, other: &Part) -> bool {
    match one {
        Some(part) => part.value == other.value,
        None => false,
    }
}

impl Watcher for Recorder {
    fn begin(&mut self, first: &Plain) -> Result<(), Halted> {
        match self.note_first(first) {
            Ok(()) => Ok(()),
            Err(_) => Err(Halted),
        }
    }

    fn see(
        &mut self,
        before: &Plain,
        frame: &FrameTrace,
        after: &Plain,
        kinds: &Kinds,
    ) -> Result<(), Halted> {
        let noted = match &frame.refusal {
            Some(refusal) => self.note_refusal(frame.number, refusal, kinds),
            None => self.note_frame(before, frame, after, kinds),
        };
        match noted {
            Ok(()) => Ok(()),
            Err(_) => Err(Halted),
        }
    }
}
