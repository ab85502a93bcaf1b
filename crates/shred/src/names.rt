//! The numbers of systems by their names.
ghost use Rattle.std.specs.Prelude.{◌≡◌, [], ◌∷◌, ◌++◌, ℕ, List, None, IfOk, OnOk, OnErr};
ghost use Rattle.std.specs.List.{cons_option};
ghost use Rattle.shred.specs.Names.{Named, texts, number_under, lacks_one, numbers_under, with_name};

use indexmap::IndexMap;
use smallvec::SmallVec;
use std::alloc::{AllocError, Global};
use std::marker::Model;
use std::string::String;

/// Names, each with the number of a system, in the order in which they were entered.
#[derive(Drop)]
pub(crate) struct Names {
    alloc: Global,
    numbers: IndexMap<String, u32>,
}

impl Model for Names {
    ghost use Rattle.std.specs.Prelude.{ℕ, List, map, string_bytes};

    ghost Value = { List (List ℕ × ℕ) };

    ghost view = { λ names. map (λ entry. (string_bytes entry.0, entry.1)) names.numbers.entries };
}

impl Names {
    /// No name.
    pub(crate) fn new(alloc: Global) -> Names
        ensures { result ≡ [] }
    {
        Names {
            alloc,
            numbers: IndexMap::new(alloc),
        }
    }

    /// The number under a name.
    pub(crate) fn number(&self, name: &str) -> Option<u32>
        ensures { result ≡ number_under self.now name.now }
    {
        self.numbers.get(name).copied()
    }

    /// Whether one of some names isn't known.
    pub(crate) fn lacks_one(&self, wanted: &[&str]) -> bool
        ensures { result ≡ lacks_one self.now (texts wanted.now) }
    {
        for name in wanted {
            if self.number(name).is_none() {
                return true;
            }
        }
        false
    }

    /// The numbers under those of some names that are known, in their order.
    ///
    /// Errors: want of memory.
    pub(crate) fn numbers(&self, wanted: &[&str]) -> Result<SmallVec<u32, 4>, AllocError>
        ensures { IfOk result (λ list. list.items ≡ numbers_under self.now (texts wanted.now)) }
    {
        let mut list = SmallVec::new(self.alloc);
        for name in wanted {
            push_found(&mut list, self.number(name))?;
        }
        Ok(list)
    }

    /// Enters a name with its number; the empty name isn't entered.
    ///
    /// Errors: want of memory, which leaves the names as they were.
    pub(crate) fn enter(&mut self, name: &str, number: u32) -> Result<(), AllocError>
        requires is_new { number_under self.old name.now ≡ None }
        ensures ok { OnOk result (self.new ≡ with_name self.old name.now number) }
        ensures err { OnErr result (self.new ≡ self.old) }
    {
        if name.is_empty() {
            return Ok(());
        }
        let key = String::from_str(self.alloc, name)?;
        self.numbers.insert(key, number)?;
        Ok(())
    }

    /// Takes the name that was entered last out again.
    pub(crate) fn strike(&mut self, name: &str)
        ensures { (before : List Named) (number : ℕ) → self.old ≡ with_name before name.now number → self.new ≡ before }
    {
        if !name.is_empty() {
            let _ = self.numbers.pop();
        }
    }
}

/// Puts a number that was found behind the others.
fn push_found(list: &mut SmallVec<u32, 4>, found: Option<u32>) -> Result<(), AllocError>
    ensures { OnOk result (list.new.items ≡ list.old.items ++ cons_option found []) }
{
    if let Some(number) = found {
        list.push(number)?;
    }
    Ok(())
}
