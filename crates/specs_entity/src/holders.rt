//! Pairs of indices, a holder and its target, found by the target.
ghost use Rattle.std.specs.Prelude.{◌≡◌, ◌∷◌, ◌++◌, [], ℕ, OnOk};
ghost use Rattle.specs_entity.specs.Holders.{IsChained, end_in};

use hibitset::Index;
use std::alloc::{AllocError, Global};
use std::collections::HashMap;

/// A pair of a holder and its target, and the place behind the last pair before it that has this target.
#[derive(Clone, Copy)]
pub(crate) struct Link {
    pub(crate) holder: Index,
    pub(crate) target: Index,
    pub(crate) before: usize,
}

/// Pairs of a holder and its target, chained by their targets, and the place behind each target's last.
#[derive(Drop)]
pub(crate) struct Holders {
    pub(crate) ends: HashMap<Index, usize>,
    pub(crate) links: Vec<Link>,
}

impl Holders {
    /// No pair. Takes no memory.
    pub(crate) fn new(alloc: Global) -> Holders
        ensures chained { IsChained (end_in result.ends) result.links.items }
        ensures none { result.links.items ≡ [] }
    {
        Holders {
            ends: HashMap::new(alloc),
            links: Vec::new(alloc),
        }
    }

    /// The place behind the last pair of a target, 0 where it has none.
    pub(crate) fn end(&self, target: Index) -> usize
        ensures { result ≡ end_in self.now.ends target }
    {
        match self.ends.get(&target) {
            Some(end) => *end,
            None => 0,
        }
    }

    /// Puts a pair behind the others.
    ///
    /// Errors: `AllocError`, and the pairs are of no more use.
    pub(crate) fn push(&mut self, holder: Index, target: Index) -> Result<(), AllocError>
        requires { IsChained (end_in self.old.ends) self.old.links.items }
        ensures chained { OnOk result (IsChained (end_in self.new.ends) self.new.links.items) }
        ensures ok { OnOk result ((before : ℕ) × (self.new.links.items ≡ self.old.links.items
            ++ record { holder = holder; target = target; before = before } ∷ [])) }
    {
        let before = self.end(target);
        self.links.push(Link {
            holder,
            target,
            before,
        })?;
        self.ends.insert(target, self.links.len())?;
        Ok(())
    }
}
