//! JSON that is put together piece by piece, in which no tag begins.
ghost use Rattle.std.specs.Prelude.{◌≡◌, OnOk};
ghost use Rattle.scene_trace.specs.Texts.{HasNoTag};

use itoa::Buffer;
use std::alloc::{AllocError, Global};

/// A piece of JSON in which no tag begins, so that it may stand in a script of a page.
#[derive(Drop)]
pub(crate) struct Json {
    bytes: Vec<u8>,
    ghost no_tag: { HasNoTag bytes.items },
}

impl Json {
    pub(crate) fn new(alloc: Global) -> Json {
        Json {
            bytes: Vec::new(alloc),
        }
    }

    pub(crate) fn as_bytes(&self) -> &[u8]
        ensures { HasNoTag result.now }
    {
        self.bytes.as_slice()
    }

    pub(crate) fn is_empty(&self) -> bool {
        self.bytes.is_empty()
    }

    /// Puts what has no tag behind it.
    pub(crate) fn put(&mut self, text: &str) -> Result<(), AllocError>
        requires { HasNoTag text.now }
    {
        self.bytes.extend_from_slice(text.as_bytes())
    }

    /// Puts another piece behind it.
    pub(crate) fn put_json(&mut self, other: &Json) -> Result<(), AllocError> {
        self.bytes.extend_from_slice(other.as_bytes())
    }

    pub(crate) fn put_number(&mut self, number: i64) -> Result<(), AllocError> {
        self.put_plain(Buffer::new().format(number))
    }

    /// Puts digits and a sign behind it.
    fn put_plain(&mut self, text: &str) -> Result<(), AllocError> {
        for byte in text.as_bytes() {
            self.put_byte(*byte)?;
        }
        Ok(())
    }

    /// Puts a text behind it as a JSON of its own.
    pub(crate) fn put_text(&mut self, text: &str) -> Result<(), AllocError> {
        self.put("\"")?;
        self.put_plain(text)?;
        self.put("\"")
    }

    /// Puts a byte of a text behind it as a JSON text has it.
    fn put_byte(&mut self, byte: u8) -> Result<(), AllocError> {
        match byte {
            b'<' => self.put("\\u003c"),
            b'"' => self.put("\\\""),
            b'\\' => self.put("\\\\"),
            0..=31 => self.put_control(byte),
            _ => {
                self.bytes.push(byte)?;
                Ok(())
            }
        }
    }

    /// Puts a byte below a space behind it, by its number.
    fn put_control(&mut self, byte: u8) -> Result<(), AllocError> {
        self.put(if byte < 16 { "\\u000" } else { "\\u001" })?;
        self.put(match byte % 16 {
            0 => "0",
            1 => "1",
            2 => "2",
            3 => "3",
            4 => "4",
            5 => "5",
            6 => "6",
            7 => "7",
            8 => "8",
            9 => "9",
            10 => "a",
            11 => "b",
            12 => "c",
            13 => "d",
            14 => "e",
            _ => "f",
        })
    }
}
