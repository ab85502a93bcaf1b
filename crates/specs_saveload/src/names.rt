//! The markers by which entities are named in what is saved.
ghost use Rattle.std.specs.Prelude.{◌≡◌, ◌≢◌, ◌⊎◌, Bool, true, false, Option, IfOk};
ghost use Rattle.specs_entity.specs.declared.ids.Entity.{Entity};

use crate::JsonForm;
use rand_core::Rng;
use specs_entity::{EntitiesRes, Entity};
use specs_layouts::{Component, MaskedStorage, UnprotectedStorage};
use specs_markers::{Marker, SimpleMarker, UuidMarker};
use std::alloc::AllocError;

/// A marker that is saved. It stands for `Clone` and `Serialize` in `specs`.
pub trait SavedMarker: Marker + JsonForm {
    /// Whether two ids are the same.
    ghost same_id: { Self.Identifier → Self.Identifier → Bool };

    /// The same marker once more.
    ///
    /// Errors: `AllocError`.
    fn copy(&self) -> Result<Self, AllocError>
        ensures { IfOk result (λ same. same ≡ self.now) };

    /// Ids that are told to be the same are one.
    ghost ids: { (one other : Self.Identifier)
        → ((same_id one other ≡ true) × (one ≡ other)) ⊎ ((same_id one other ≡ false) × (one ≢ other)) };

    /// Markers with one id are the same.
    ghost by_id: { (one other : Self) → Self.id_of one ≡ Self.id_of other → one ≡ other };
}

impl<T> SavedMarker for SimpleMarker<T> {
    ghost use Rattle.std.specs.Prelude.{nat_eq};
    ghost use Rattle.std.proofs.lemmas.Bool.Decides.{eqb_tells};

    ghost same_id = { nat_eq };

    fn copy(&self) -> Result<SimpleMarker<T>, AllocError> {
        Ok(SimpleMarker::new(self.id()))
    }

    ghost ids = { eqb_tells };

    ghost by_id = { λ one other is. is };
}

impl<R: Rng> SavedMarker for UuidMarker<R> {
    ghost use Rattle.std.specs.Str.{bytes_eq};
    ghost use Rattle.specs_saveload.specs.NamingLemmas.{bytes-tell};

    ghost same_id = { bytes_eq };

    fn copy(&self) -> Result<UuidMarker<R>, AllocError> {
        Ok(UuidMarker::new(self.id()))
    }

    ghost ids = { bytes-tell };

    ghost by_id = { λ one other is. is };
}

/// A map from entities to the markers that stand for them in what is saved.
pub trait Names<M> {
    /// The marker of an entity, where it has one.
    ghost name: { Self → Entity → Option M };

    /// The marker of an entity, or none where it has none.
    ///
    /// Errors: `AllocError`.
    fn name(&self, entity: Entity) -> Result<Option<M>, AllocError>
        ensures { IfOk result (λ found. found ≡ name self.now entity) };
}

/// The markers that living entities bear.
#[derive(Clone, Copy)]
pub struct Marks<'a, M: Marker> {
    /// The entities.
    pub entities: &'a EntitiesRes,
    /// Their markers.
    pub markers: &'a MaskedStorage<M>,
}

impl<'a, M: SavedMarker> Names<M> for Marks<'a, M> {
    ghost use Rattle.specs_saveload.specs.Saved.{name_of};

    ghost name = { λ marks. name_of marks.entities.now (M.Storage.part_at marks.markers.now.inner) };

    fn name(&self, entity: Entity) -> Result<Option<M>, AllocError> {
        if self.entities.is_alive(entity) && self.markers.contains(entity.id()) {
            Ok(Some(self.markers.get(entity.id()).copy()?))
        } else {
            Ok(None)
        }
    }
}
