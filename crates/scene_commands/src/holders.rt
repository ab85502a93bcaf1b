//! Who may hold on to whom by a reference that owns its holder, found by the id of the one that is held.
ghost use Rattle.std.specs.Prelude.{◌≡◌, ℕ, true, false, OnOk};
ghost use Rattle.scene_model.specs.Scenes.{lives};
ghost use Rattle.scene_commands.specs.Links.{IsChained, IsNone, Grows, Holds, end_in};

use std::alloc::{AllocError, Global};
use std::collections::HashMap;

/// The id of a holder and that of its target, and the place behind the last pair before it that has this target.
#[derive(Clone, Copy)]
pub(crate) struct Link {
    pub(crate) holder: u64,
    pub(crate) target: u64,
    pub(crate) before: usize,
}

/// An index of holders, for the commands of one frame: who may hold on to whom by a reference that owns its holder.
///
/// It is empty until a kill needs it, and has each such reference from then on. What is in it stays, so each is tested
/// when it is used.
#[derive(Drop)]
pub struct Holders {
    pub(crate) made: bool,
    pub(crate) ends: HashMap<u64, usize>,
    pub(crate) links: Vec<Link>,
}

impl Holders {
    /// An index that nobody has needed yet. Takes no memory.
    pub fn new(alloc: Global) -> Holders
        ensures { IsNone result }
    {
        Holders {
            made: false,
            ends: HashMap::new(alloc),
            links: Vec::new(alloc),
        }
    }

    /// The place behind the last pair of a target, 0 where it has none.
    pub(crate) fn end(&self, target: u64) -> usize
        ensures { result ≡ end_in self.now.ends target }
    {
        match self.ends.get(&target) {
            Some(end) => *end,
            None => 0,
        }
    }

    /// Puts a pair behind the others.
    ///
    /// Errors: `AllocError`, and the pairs are of no more use.
    pub(crate) fn push(&mut self, holder: u64, target: u64) -> Result<(), AllocError>
        requires { IsChained (end_in self.old.ends) self.old.links.items }
        ensures grows { OnOk result (Grows self.old self.new) }
        ensures noted { OnOk result (Holds self.new.links.items holder target) }
    {
        let before = self.end(target);
        self.links.push(Link {
            holder,
            target,
            before,
        })?;
        self.ends.insert(target, self.links.len())?;
        Ok(())
    }

    /// Puts pairs of a holder with each of some targets behind the others.
    ///
    /// Errors: `AllocError`, and the pairs are of no more use.
    pub(crate) fn push_all(&mut self, holder: u64, targets: &[u64]) -> Result<(), AllocError>
        requires { IsChained (end_in self.old.ends) self.old.links.items }
        ensures grows { OnOk result (Grows self.old self.new) }
        ensures noted { OnOk result ((target : ℕ) → lives target targets.now ≡ true
            → Holds self.new.links.items holder target) }
    {
        for target in targets {
            self.push(holder, *target)?;
        }
        Ok(())
    }
}
