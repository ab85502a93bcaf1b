//! Small owned values that contracts see as lists.
ghost use Rattle.std.specs.Prelude.{◌≡◌, ℕ, [], List, Some, IfOk, string_bytes};

use crate::refusals::Skip;
use std::alloc::{AllocError, Global};
use std::fmt;
use std::marker::Model;

/// An owned text, which contracts see as its bytes.
#[derive(Debug, Drop)]
pub struct Text {
    text: String,
}

impl Model for Text {
    ghost Value = { List ℕ };

    ghost view = { λ a. string_bytes a.text };
}

impl Text {
    /// The text of a string, which takes no memory.
    pub fn from_string(text: String) -> Text
        ensures { result ≡ string_bytes text }
    {
        Text { text }
    }

    /// The text as it is.
    pub fn as_str(&self) -> &str
        ensures { result.now ≡ self.now }
    {
        self.text.as_str()
    }

    /// The string, which takes no memory.
    pub fn into_string(self) -> String
        ensures { string_bytes result ≡ self }
    {
        self.text
    }
}

impl fmt::Display for Text {
    ghost output = { λ text. Some text };

    fn fmt<W: fmt::Write>(&self, f: &mut fmt::Formatter<W>) -> fmt::Result {
        f.write_str(self.as_str())
    }
}

/// The commands that were skipped in a run, in order, which contracts see as a list.
#[derive(Debug, Drop)]
pub struct Skips {
    skips: Vec<Skip>,
}

impl Model for Skips {
    ghost use Rattle.std.specs.Prelude.{List};
    ghost use Rattle.scene_model.specs.declared.refusals.Skip.{Skip};

    ghost Value = { List Skip };

    ghost view = { λ a. a.skips.items };
}

impl Skips {
    /// The list of a vector, which takes no memory.
    pub fn from_vec(skips: Vec<Skip>) -> Skips
        ensures { result ≡ skips.items }
    {
        Skips { skips }
    }

    /// The skips as a slice.
    pub fn as_slice(&self) -> &[Skip]
        ensures { result.now ≡ self.now }
    {
        self.skips.as_slice()
    }

    /// The vector, which takes no memory.
    pub fn into_vec(self) -> Vec<Skip>
        ensures { result.items ≡ self }
    {
        self.skips
    }
}
