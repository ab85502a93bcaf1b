//! What builders of entities have in common: a world's own, and that whose parts are queued.
ghost use Rattle.std.specs.Prelude.{◌≡◌, IsOk, IfOk, IfErr, Option, None};
ghost use Rattle.std.specs.Option.{MatchOption};
ghost use Rattle.specs_entity.specs.declared.errors.Error.TheVariants as refusal;
ghost use Rattle.specs_world.specs.Inserting.{PutsPart, KeepsStorage, RefusesPart};
ghost use Rattle.specs_world.specs.Queues.{Adds};
ghost use Rattle.specs_world.specs.Resources.{held};

use crate::builder::EntityBuilder;
use crate::held::Held;
use crate::job::Insert;
use crate::lazy_builder::LazyBuilder;
use crate::world_ext::WorldExt;
use shred_world::{MetaTable, Resource};
use specs_entity::{EntitiesRes, Entity, Error};
use specs_layouts::{AnyStorage, Component, MaskedStorage, UnprotectedStorage};

/// An entity in the making that takes parts of one kind.
///
/// Code that builds entities by it builds them in a world or in a queue. The entity is alive; its parts are there at
/// once, or once the world is maintained. Of a builder's own calls of these names the contracts say more: what is lent
/// to it when it is done.
pub trait Builder<C: Component>: Sized {
    ghost use Rattle.specs_entity.specs.declared.ids.Entity.{Entity};
    ghost use Rattle.specs_entity.specs.declared.errors.Error.{Error};

    /// The entity.
    ghost built: { Self → Entity };

    /// What a part that was taken makes of where the entity is built.
    ghost takes: { Self → C → Self → Type 0 };

    /// What a refusal leaves of it.
    ghost keeps: { Self → Self → Type 0 };

    /// What a part is refused for.
    ghost refuses: { Self → Error → Type 0 };

    /// Puts `part` at the entity, now or when the world is maintained, in the place of the one that it has then, and
    /// answers the builder.
    ///
    /// Errors: those of the builder's own `with`. All hand builder and `part` back.
    fn with(self, part: C) -> Result<Self, (Error, Self, C)>
        ensures entity { IfOk result (λ builder. built builder ≡ built self) }
        ensures ok { IfOk result (λ builder. takes self part builder) }
        ensures refused { IfErr result (λ refused. refuses self refused.0) }
        ensures err { IfErr result (λ refused. keeps self refused.1) }
        ensures same_entity { IfErr result (λ refused. built refused.1 ≡ built self) }
        ensures handed_back { IfErr result (λ refused. refused.2 ≡ part) };

    /// Puts `part` at the entity, as `with` does, where there is one.
    ///
    /// Errors: those of `with`.
    final fn maybe_with(self, part: Option<C>) -> Result<Self, (Error, Self, Option<C>)>
        ensures entity { IfOk result (λ builder. built builder ≡ built self) }
        ensures ok { IfOk result (λ builder. MatchOption part (builder ≡ self) (λ given. takes self given builder)) }
        ensures refused { IfErr result (λ refused. refuses self refused.0) }
        ensures err { IfErr result (λ refused. keeps self refused.1) }
        ensures same_entity { IfErr result (λ refused. built refused.1 ≡ built self) }
        ensures handed_back { IfErr result (λ refused. refused.2 ≡ part) }
        ensures succeeds { part ≡ None → IsOk result }
    {
        match part {
            None => Ok(self),
            Some(part) => match self.with(part) {
                Ok(builder) => Ok(builder),
                Err((error, builder, part)) => Err((error, builder, Some(part))),
            },
        }
    }

    /// Ends the building, and answers the entity.
    fn build(self) -> Entity
        ensures { result ≡ built self };
}

impl<'a, V: AnyStorage + Drop, W: WorldExt<V>, C: Component> Builder<C> for EntityBuilder<'a, V, W>
where
    EntitiesRes: Resource<V>,
    MetaTable: Resource<V>,
    MaskedStorage<C>: Resource<V>,
{
    ghost built = { λ builder. builder.entity };

    ghost takes = { λ builder part after. (had : Option C) × PutsPart
        ⟦<MaskedStorage<C> as Held<V>>⟧.stands_at C.Storage.part_at C.Storage.events C.Storage.emits builder.entity
        part had (held W.entities_at (W.slots builder.world.now)) (W.slots builder.world.now)
        (W.slots after.world.now) };

    ghost keeps = { λ builder after. KeepsStorage
        ⟦<MaskedStorage<C> as Held<V>>⟧.stands_at C.Storage.part_at C.Storage.events C.Storage.emits
        (W.slots builder.world.now) (W.slots after.world.now) };

    ghost refuses = { λ builder. RefusesPart (held W.entities_at (W.slots builder.world.now))
        (held ⟦<MaskedStorage<C> as Held<V>>⟧.stands_at (W.slots builder.world.now)) builder.entity };

    fn with(self, part: C) -> Result<EntityBuilder<'a, V, W>, (Error, EntityBuilder<'a, V, W>, C)> {
        EntityBuilder::with(self, part)
    }

    fn build(self) -> Entity {
        EntityBuilder::build(self)
    }
}

impl<'a, J: From<Insert<C>>, C: Component> Builder<C> for LazyBuilder<'a, J> {
    ghost built = { λ builder. builder.entity };

    ghost takes = { λ builder part after. Adds
        (J.from_gives (record { entity = builder.entity; part = part })) builder.lazy.now after.lazy.now };

    ghost keeps = { λ builder after. after.lazy.now ≡ builder.lazy.now };

    ghost refuses = { λ _ error. error ≡ refusal.Memory };

    fn with(self, part: C) -> Result<LazyBuilder<'a, J>, (Error, LazyBuilder<'a, J>, C)> {
        LazyBuilder::with(self, part)
    }

    fn build(self) -> Entity {
        LazyBuilder::build(self)
    }
}
