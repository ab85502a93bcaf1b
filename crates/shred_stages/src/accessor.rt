//! The ids that a system or a batch reads and writes.
ghost use Rattle.std.specs.Prelude.{◌≡◌};

use shred_world::{Accessor, ResourceId};
use std::alloc::{AllocError, Global};
use std::marker::Model;

/// Lists of the ids that are read and written.
#[derive(Debug, Drop)]
pub struct BatchAccessor {
    reads: Vec<ResourceId>,
    writes: Vec<ResourceId>,
}

impl Model for BatchAccessor {
    ghost use Rattle.shred_stages.specs.Accesses.{Accesses};

    ghost Value = { Accesses };

    ghost view = { λ access. record { reads = access.reads.items; writes = access.writes.items } };
}

impl BatchAccessor {
    /// Reads and writes these ids.
    pub fn new(reads: Vec<ResourceId>, writes: Vec<ResourceId>) -> BatchAccessor
        ensures { result ≡ record { reads = reads.items; writes = writes.items } }
    {
        BatchAccessor { reads, writes }
    }

    /// The list of ids that are read, and the list of those that are written.
    pub fn into_lists(self) -> (Vec<ResourceId>, Vec<ResourceId>)
        ensures reads { result.0.items ≡ self.reads }
        ensures writes { result.1.items ≡ self.writes }
    {
        let BatchAccessor { reads, writes } = self;
        (reads, writes)
    }
}

impl Accessor for BatchAccessor {
    ghost read_list = { λ access. access.reads };

    ghost write_list = { λ access. access.writes };

    fn reads(&self, alloc: Global) -> Result<Vec<ResourceId>, AllocError> {
        Vec::from_slice(alloc, &self.reads)
    }

    fn writes(&self, alloc: Global) -> Result<Vec<ResourceId>, AllocError> {
        Vec::from_slice(alloc, &self.writes)
    }
}
