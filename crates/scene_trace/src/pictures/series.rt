//! The values of a cell over frames.
//!
//! They are a list of JSON. A number begins: the frame in which a value came, and then the value, which is null where there is none,
//! and a text where it is no whole number that a script can count with. A text says what was added in each frame behind that one:
//! numbers, a space between them, and `D*N` where D was added in N frames.
use crate::pictures::json::Json;
use std::alloc::{AllocError, Global};

/// The greatest number with which a script counts without a loss.
const GREATEST: i64 = 9_007_199_254_740_991;

/// The whole number that a JSON is, where a script can count with it.
pub(crate) fn whole_in(text: &str) -> Option<i64> {
    let number: i64 = text.parse().ok()?;
    if number > GREATEST || number < -GREATEST {
        return None;
    }
    Some(number)
}

/// The values of a cell over frames, as a page has them.
#[derive(Drop)]
pub(crate) struct Series {
    written: Json,
    /// The frame of the last value, and the value if it can be counted with.
    frame: u32,
    number: Option<i64>,
    /// What was added in the last frames, in how many, and whether the text is open in which that is said.
    step: i64,
    steps: u32,
    is_open: bool,
}

impl Series {
    pub(crate) fn new(alloc: Global) -> Series {
        Series {
            written: Json::new(alloc),
            frame: 0,
            number: None,
            step: 0,
            steps: 0,
            is_open: false,
        }
    }

    /// Notes the value that came in a frame, as its JSON. Frames ascend.
    pub(crate) fn note(&mut self, frame: u32, value: Option<&str>) -> Result<(), AllocError> {
        let number = match value {
            Some(text) => whole_in(text),
            None => None,
        };
        match self.step_to(frame, number) {
            Some(step) => self.note_step(step)?,
            None => self.begin(frame, number, value)?,
        }
        self.frame = frame;
        self.number = number;
        Ok(())
    }

    /// What is to be added to the last value, where both are numbers and the frame is the next.
    fn step_to(&self, frame: u32, number: Option<i64>) -> Option<i64> {
        if self.frame.checked_add(1) != Some(frame) {
            return None;
        }
        match (self.number, number) {
            (Some(last), Some(number)) => number.checked_sub(last),
            _ => None,
        }
    }

    fn note_step(&mut self, step: i64) -> Result<(), AllocError> {
        if self.steps > 0 && self.step == step {
            self.steps = self.steps.saturating_add(1);
            return Ok(());
        }
        self.write_steps()?;
        self.step = step;
        self.steps = 1;
        Ok(())
    }

    /// Writes what was added in the last frames, if there are any.
    fn write_steps(&mut self) -> Result<(), AllocError> {
        if self.steps == 0 {
            return Ok(());
        }
        self.written.put(if self.is_open { " " } else { ",\"" })?;
        self.is_open = true;
        self.written.put_number(self.step)?;
        if self.steps > 1 {
            self.written.put("*")?;
            self.written.put_number(i64::from(self.steps))?;
        }
        self.steps = 0;
        Ok(())
    }

    /// Ends the text of what was added, if it is open.
    fn close(&mut self) -> Result<(), AllocError> {
        self.write_steps()?;
        if self.is_open {
            self.written.put("\"")?;
            self.is_open = false;
        }
        Ok(())
    }

    fn begin(
        &mut self,
        frame: u32,
        number: Option<i64>,
        value: Option<&str>,
    ) -> Result<(), AllocError> {
        self.close()?;
        if !self.written.is_empty() {
            self.written.put(",")?;
        }
        self.written.put_number(i64::from(frame))?;
        self.written.put(",")?;
        match (number, value) {
            (Some(number), _) => self.written.put_number(number),
            (None, Some(text)) => self.written.put_text(text),
            (None, None) => self.written.put("null"),
        }
    }

    /// Puts the list behind other JSON.
    pub(crate) fn put_to(&mut self, out: &mut Json) -> Result<(), AllocError> {
        self.close()?;
        out.put("[")?;
        out.put_json(&self.written)?;
        out.put("]")
    }
}
