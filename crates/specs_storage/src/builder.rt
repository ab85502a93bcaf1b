//! Parts for an entity that is being built.
ghost use Rattle.std.specs.Prelude.{◌≡◌, Some, IfOk, IfErr, OnOk, OnErr, IsOk, IsSome, is_some, false, if◌then◌else◌};
ghost use Rattle.specs_entity.specs.Births.{Births, IsAlive};
ghost use Rattle.specs_entity.specs.declared.ids.Entity.{Entity};
ghost use Rattle.specs_layouts.specs.MaskedChanges.{PutsIn, KeepsParts, told_put};
ghost use Rattle.specs_layouts.specs.declared.track.ComponentEvent.TheVariants as event;
ghost use Rattle.specs_storage.specs.Found.{RefusesInsert};

use crate::storage::not_alive;
use specs_entity::{EntityResBuilder, Error};
use specs_layouts::{Component, MaskedStorage, UnprotectedStorage};

/// Entities in the making that can be given parts.
pub trait BuildWith: Sized {
    /// The entity that is being built.
    ghost entity: { Self → Entity };

    /// The births of the entities that it is one of.
    ghost births: { Self → Births };

    /// Puts `part` at the entity, in the place of the one that it has, and answers the builder.
    ///
    /// A storage that emits writes `Modified` where a part was, else `Inserted`.
    ///
    /// Errors: `WrongGeneration`, with the generation of the entity that `EntitiesRes::entity` gives for the index, if the
    /// entity isn't alive, as where it was killed through the builder's entities; `Memory`. Both hand builder and `part`
    /// back, and each index has the part that it had.
    fn with<T: Component>(
        self,
        part: T,
        storage: &mut MaskedStorage<T>,
    ) -> Result<Self, (Error, Self, T)>
        ensures builder { IfOk result (λ builder. builder ≡ self) }
        ensures alive { OnOk result (IsAlive (births self) (entity self)) }
        ensures ok { OnOk result (PutsIn T.Storage.part_at storage.old (entity self).id (Some part) storage.new) }
        ensures err { OnErr result (KeepsParts T.Storage.part_at storage.old storage.new) }
        ensures refused { IfErr result (λ refused. RefusesInsert (births self) (entity self) refused.0) }
        ensures handed_back { IfErr result (λ refused. (refused.1 ≡ self) × (refused.2 ≡ part)) }
        ensures succeeds { IsAlive (births self) (entity self)
            → IsSome (T.Storage.part_at storage.old.inner (entity self).id)
            → T.Storage.emits storage.old.inner ≡ false → IsOk result }

        // One event tells of it, and a refusal writes none.
        ensures events { OnOk result (T.Storage.events storage.new.inner
            ≡ told_put T.Storage.part_at T.Storage.emits T.Storage.events storage.old (entity self).id) }
        ensures silent { OnErr result (T.Storage.events storage.new.inner ≡ T.Storage.events storage.old.inner) }
        ensures emission { T.Storage.emits storage.new.inner ≡ T.Storage.emits storage.old.inner };
}

impl<'a> BuildWith for EntityResBuilder<'a> {
    ghost entity = { λ builder. builder.entity };

    ghost births = { λ builder. builder.entities.now };

    fn with<T: Component>(
        self,
        part: T,
        storage: &mut MaskedStorage<T>,
    ) -> Result<EntityResBuilder<'a>, (Error, EntityResBuilder<'a>, T)>
        ensures builder { IfOk result (λ builder. builder ≡ self.entry) }
        ensures alive { OnOk result (IsAlive self.entry.entities.now self.entry.entity) }
        ensures ok { OnOk result (PutsIn T.Storage.part_at storage.old self.entry.entity.id (Some part) storage.new) }
        ensures err { OnErr result (KeepsParts T.Storage.part_at storage.old storage.new) }
        ensures refused { IfErr result (λ refused. RefusesInsert self.entry.entities.now self.entry.entity refused.0) }
        ensures handed_back { IfErr result (λ refused. (refused.1 ≡ self.entry) × (refused.2 ≡ part)) }
        ensures succeeds { IsAlive self.entry.entities.now self.entry.entity
            → IsSome (T.Storage.part_at storage.old.inner self.entry.entity.id)
            → T.Storage.emits storage.old.inner ≡ false → IsOk result }

        // One event tells of it, and a refusal writes none.
        ensures events { OnOk result (T.Storage.events storage.new.inner
            ≡ told_put T.Storage.part_at T.Storage.emits T.Storage.events storage.old self.entry.entity.id) }
        ensures silent { OnErr result (T.Storage.events storage.new.inner ≡ T.Storage.events storage.old.inner) }
        ensures emission { T.Storage.emits storage.new.inner ≡ T.Storage.emits storage.old.inner }
    {
        match put(&self, storage, part) {
            Ok(()) => Ok(self),
            Err((error, part)) => Err((error, self, part)),
        }
    }
}

/// Puts a part at the entity that is built.
fn put<T: Component>(
    builder: &EntityResBuilder<'_>,
    storage: &mut MaskedStorage<T>,
    part: T,
) -> Result<(), (Error, T)>
    ensures alive { OnOk result (IsAlive builder.now.entities.now builder.now.entity) }
    ensures ok { OnOk result (PutsIn T.Storage.part_at storage.old builder.now.entity.id (Some part) storage.new) }
    ensures err { OnErr result (KeepsParts T.Storage.part_at storage.old storage.new) }
    ensures refused { IfErr result (λ refused. RefusesInsert builder.now.entities.now builder.now.entity refused.0) }
    ensures handed_back { IfErr result (λ refused. refused.1 ≡ part) }
    ensures succeeds { IsAlive builder.now.entities.now builder.now.entity
        → IsSome (T.Storage.part_at storage.old.inner builder.now.entity.id)
        → T.Storage.emits storage.old.inner ≡ false → IsOk result }
    ensures events { OnOk result (T.Storage.events storage.new.inner
        ≡ told_put T.Storage.part_at T.Storage.emits T.Storage.events storage.old builder.now.entity.id) }
    ensures silent { OnErr result (T.Storage.events storage.new.inner ≡ T.Storage.events storage.old.inner) }
    ensures emission { T.Storage.emits storage.new.inner ≡ T.Storage.emits storage.old.inner }
{
    let entity = builder.entity;
    if !builder.entities.is_alive(entity) {
        let refusal = not_alive(builder.entities, entity);
        return Err((Error::WrongGeneration(refusal), part));
    }
    match storage.insert(entity.id(), part) {
        Ok(_) => Ok(()),
        Err(refused) => Err((Error::Memory, refused.value)),
    }
}
