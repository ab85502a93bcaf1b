//! Entities in the making that are marked.
ghost use Rattle.std.specs.Prelude.{◌≡◌, Bool, Some, IfOk, IfErr, OnOk, OnErr};
ghost use Rattle.specs_entity.specs.Births.{Births, IsAlive};
ghost use Rattle.specs_entity.specs.declared.ids.Entity.{Entity};
ghost use Rattle.specs_markers.specs.Marking.{IsUntold, Marks, RefusesMark};
ghost use Rattle.specs_saveload.specs.Builders.{IsMarkedBy, RefusesMarked};

use specs_entity::{EntityResBuilder, Error, WrongGeneration};
use specs_layouts::{Component, MaskedStorage, UnprotectedStorage};
use specs_markers::{Marker, MarkerAllocator};

/// Entities in the making that can be marked.
///
/// The name and the call are those of `specs`.
pub trait MarkedBuilder: Sized {
    /// The entity that is being built.
    ghost entity: { Self → Entity };

    /// The births of the entities that it is one of.
    ghost births: { Self → Births };

    /// Marks the entity, and answers the builder. An entity that is marked keeps its marker.
    ///
    /// Errors: `WrongGeneration` if the entity isn't alive, as where it was killed through the builder's entities;
    /// those of `mark`. Both hand the builder back, and each index has the marker that it had.
    fn marked<M: Marker, A: MarkerAllocator<M>>(
        self,
        storage: &mut MaskedStorage<M>,
        allocator: &mut A,
    ) -> Result<Self, (Error, Self)>
        ensures builder { IfOk result (λ builder. builder ≡ self) }
        ensures ok { OnOk result (IsMarkedBy A.noted A.allocates M.id_of M.Storage.UnprotectedStorage (births self)
            (entity self) allocator.old allocator.new storage.old storage.new) }
        ensures untold { OnErr result (IsUntold M.Storage.UnprotectedStorage storage.old storage.new) }
        ensures refused { IfErr result (λ refused. RefusesMarked A.noted A.allocates M.id_of A.refuses (births self)
            (entity self) allocator.old allocator.new refused.0) }
        ensures handed_back { IfErr result (λ refused. refused.1 ≡ self) };
}

impl<'a> MarkedBuilder for EntityResBuilder<'a> {
    ghost entity = { λ builder. builder.entity };

    ghost births = { λ builder. builder.entities.now };

    fn marked<M: Marker, A: MarkerAllocator<M>>(
        self,
        storage: &mut MaskedStorage<M>,
        allocator: &mut A,
    ) -> Result<EntityResBuilder<'a>, (Error, EntityResBuilder<'a>)>
        ensures builder { IfOk result (λ builder. builder ≡ self.entry) }
        ensures ok { OnOk result (IsMarkedBy A.noted A.allocates M.id_of M.Storage.UnprotectedStorage
            self.entry.entities.now self.entry.entity allocator.old allocator.new storage.old storage.new) }
        ensures untold { OnErr result (IsUntold M.Storage.UnprotectedStorage storage.old storage.new) }
        ensures refused { IfErr result (λ refused. RefusesMarked A.noted A.allocates M.id_of A.refuses
            self.entry.entities.now self.entry.entity allocator.old allocator.new refused.0) }
        ensures handed_back { IfErr result (λ refused. refused.1 ≡ self.entry) }
    {
        match mark(&self, storage, allocator) {
            Ok(()) => Ok(self),
            Err(error) => Err((error, self)),
        }
    }
}

/// Marks the entity that is built.
fn mark<M: Marker, A: MarkerAllocator<M>>(
    builder: &EntityResBuilder<'_>,
    storage: &mut MaskedStorage<M>,
    allocator: &mut A,
) -> Result<(), Error>
    ensures ok { OnOk result (IsMarkedBy A.noted A.allocates M.id_of M.Storage.UnprotectedStorage
        builder.now.entities.now builder.now.entity allocator.old allocator.new storage.old storage.new) }
    ensures untold { OnErr result (IsUntold M.Storage.UnprotectedStorage storage.old storage.new) }
    ensures refused { IfErr result (RefusesMarked A.noted A.allocates M.id_of A.refuses
        builder.now.entities.now builder.now.entity allocator.old allocator.new) }
{
    let entity = builder.entity;
    match allocator.mark(entity, storage, builder.entities) {
        Ok(Some(_)) => Ok(()),
        Ok(None) => Err(Error::WrongGeneration(WrongGeneration {
            action: "mark",
            actual_gen: builder.entities.entity(entity.id()).generation(),
            entity,
        })),
        Err(error) => Err(error),
    }
}
