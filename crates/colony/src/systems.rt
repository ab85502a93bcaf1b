//! The systems of a colony: three that are dispatched one after the other, and a local one.
ghost use Rattle.std.specs.Prelude.{◌≡◌, ◌++◌, None, [], ◌∷◌, IfOk};
ghost use Rattle.colony.specs.Frames.{IsColony};
ghost use Rattle.colony.specs.Systems.{Ends, Moves, moved, newcomer};

use crate::parts::*;
use crate::values::Value;
use specs::*;
use std::alloc::Global;

/// Each position gains the velocity of its entity; all changes are told.
#[derive(Drop)]
pub struct Moving;

type Moved = (ReadStorage<Velocity>, WriteStorage<Position>);

impl<'a> Change<Position, &'a MaskedStorage<Velocity>> for Moving {
    type Refusal = ();

    ghost changed = { λ _. moved };

    fn change(&self, position: &mut Position, velocity: &'a Velocity) -> Result<(), ()> {
        position.0 = position.0.wrapping_add(velocity.0);
        Ok(())
    }
}

impl BundleChange<Value, Moved> for Moving {
    ghost becomes = { λ _ bundle held refused _ after. refused ≡ None
        → Moves bundle.1.parts.value held after.1.parts.value };

    fn change<W: Holder<Value>>(&mut self, bundle: &mut Moved, view: &W) -> Result<(), Stop> {
        change_each(&mut bundle.1.parts.value, bundle.0.get(view), self).map_err(|_| Stop::Full)
    }
}

/// One entity more is asked for, in the world's queue.
#[derive(Drop)]
pub struct Asking;

type Asked = (WriteExpect<LazyUpdate<Settler>>,);

impl BundleChange<Value, Asked> for Asking {
    ghost becomes = { λ _ bundle _ refused _ after. refused ≡ None
        → after.0.value ≡ bundle.0.value ++ newcomer ∷ [] };

    fn change<W: Holder<Value>>(&mut self, bundle: &mut Asked, _view: &W) -> Result<(), Stop> {
        let newcomer = Settler(Velocity(1), Goal(4));
        bundle.0.value.exec(newcomer).map_err(|_| Stop::Full)
    }
}

/// The deletion of each entity that has come to its goal is accepted: it dies at the next merge.
#[derive(Drop)]
pub struct Ending;

type Come = (ReadStorage<Position>, ReadStorage<Goal>);

type Ended = (WriteExpect<EntitiesRes>, Come);

impl BundleChange<Value, Ended> for Ending {
    ghost becomes = { λ _ bundle held refused _ after. (refused ≡ None)
        × Ends bundle.0.value held after.0.value };

    fn change<W: Holder<Value>>(&mut self, bundle: &mut Ended, view: &W) -> Result<(), Stop> {
        let (places, goals) = (bundle.1.0.get(view), bundle.1.1.get(view));
        for id in places.mask().iter() {
            if places.contains(id) && goals.contains(id) && places.get(id).0 >= goals.get(id).0 {
                let _ = bundle.0.value.delete(bundle.0.value.entity(id));
            }
        }
        Ok(())
    }
}

type Staged = Either<Bundled<Moved, Moving>, Bundled<Asked, Asking>>;

type Local = Bundled<Ended, Ending>;

/// What dispatches the systems of a colony.
pub type Systems = Dispatcher<Value, Work<Staged, Batch<Value, Staged, NoBatch>>, Local>;

/// A dispatcher of all, for so many workers: each moves, one is asked for, and each moves once more. Errors: `Memory`.
pub fn dispatcher(alloc: Global, workers: usize) -> Result<Systems, Error>
    ensures { IfOk result (λ dispatcher. IsColony dispatcher) }
{
    let mut builder = DispatcherBuilder::<Value, Staged, NoBatch, Local>::new(alloc);
    builder.add_pool(workers);
    let (Ok(_), Ok(_), Ok(_), Ok(())) = (
        builder.add(Either::Left(Bundled::new(Moving)), "moving", &[]),
        builder.add(Either::Right(Bundled::new(Asking)), "asking", &["moving"]),
        builder.add(Either::Left(Bundled::new(Moving)), "moving on", &["asking"]),
        builder.add_thread_local(Bundled::new(Ending)),
    ) else {
        return Err(Error::Memory);
    };
    Ok(builder.build())
}
