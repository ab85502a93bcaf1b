//! Runs of stages on threads: the groups of a stage apart from one another.
ghost use Rattle.std.specs.Prelude.{◌≡◌, ◌≢◌, ◌≤◌, [], None, Err, length, vec_capacity, IfOk, OnOk, OnErr, IfNone, IfSome};
ghost use Rattle.std.specs.List.{All};
ghost use Rattle.shred_world.specs.Bundles.{holding_of};
ghost use Rattle.shred_stages.specs.Runs.{StagesRun};
ghost use Rattle.shred_stages.specs.Seats.{StagesAreSeated, SeatsKept, state_of, refusal_of};
ghost use Rattle.shred_stages.specs.Staging.{Tells};
ghost use Rattle.shred_stages.specs.Free.{AreFree};
ghost use Rattle.shred_stages.specs.declared.error.DispatchError.TheVariants.{Threads};
ghost use Rattle.shred_stages.specs.Ends.{EndsAs, IsWanting};

use crate::berth::Berth;
use crate::pack::Pack;
use crate::slots::{empty_slots, fill_slots};
use crate::tour::Tour;
use crate::turn::Staged;
use crate::{DispatchError, Refusal, System};
use shred_crew::{Crew, Shift, Unmanned, Want, with_crew};
use shred_world::World;
use std::alloc::{AllocError, Global};
use std::mem;
use std::sync::Wait;
use std::thread::Threads;

/// As many slots as there is room for, and room for as many systems.
///
/// Errors: want of memory.
fn make_slots<A: Drop>(alloc: Global, count: usize) -> Result<(Vec<Option<A>>, Vec<A>), AllocError>
    ensures slots { IfOk result (λ made. made.0.items ≡ []) }
    ensures systems { IfOk result (λ made. made.1.items ≡ []) }
    ensures slots_room { IfOk result (λ made. vec_capacity made.0 ≡ count) }
    ensures systems_room { IfOk result (λ made. vec_capacity made.1 ≡ count) }
{
    let slots = Vec::with_capacity(alloc, count)?;
    let systems = Vec::with_capacity(alloc, count)?;
    Ok((slots, systems))
}

/// The answer that tells how a run ended, or what was wanting for it.
fn answer(outcome: Result<(), Refusal>, want: Option<Want>) -> Result<(), DispatchError>
    ensures told { IfNone want (Tells result (refusal_of outcome)) }
    ensures wanted { IfSome want (λ _. IsWanting result) }
    ensures threads { IfNone want (result ≢ Err Threads) }
{
    match want {
        Some(Want::Memory) => Err(DispatchError::Memory),
        Some(Want::Threads) => Err(DispatchError::Threads),
        None => match outcome {
            Ok(()) => Ok(()),
            Err(Refusal { system, stop }) => Err(DispatchError::System(system, stop)),
        },
    }
}

/// Makes a tour while so many workers stand by, or tells why none did.
fn tour_manned<
    V: Drop + Send + Sync,
    S: System<V> + Drop + Send,
    R: AllocGlobal + Threads + Wait + Sync,
>(rt: &R, workers: usize, tour: Tour<V, S>) -> (Tour<V, S>, Option<Want>)
    ensures stages { result.0.stages ≡ tour.stages }
    ensures seats { SeatsKept tour.staged result.0.staged }
    ensures count { length result.0.staged ≡ length tour.staged }
    ensures ran { IfNone result.1 (StagesRun S.meets tour.stages (state_of tour.staged (holding_of tour.world))
        result.0.refused (state_of result.0.staged (holding_of result.0.world))) }
    ensures still { IfSome result.1 (λ _. state_of result.0.staged (holding_of result.0.world)
        ≡ state_of tour.staged (holding_of tour.world)) }
{
    match with_crew(rt, workers, tour) {
        Ok(after) => (after, None),
        Err(Unmanned { want, shift }) => (shift, Some(want)),
    }
}

/// Takes a world, systems and what their stages are run with on a tour, and leaves room for the systems.
///
/// Errors: want of memory, which leaves all as it was.
fn embark<V: Drop, S: Drop>(
    alloc: Global,
    world: &mut World<V>,
    staged: &mut Vec<Staged<V, S>>,
    berths: &mut Vec<Berth<V, S>>,
) -> Result<Tour<V, S>, AllocError>
    requires free { All AreFree berths.old.items }
    requires seated { StagesAreSeated berths.old.items staged.old.items }
    ensures ok { IfOk result (λ tour. tour
        ≡ record { stages = berths.old.items; staged = staged.old.items; world = world.old; refused = None }) }
    ensures none { OnOk result (staged.new.items ≡ []) }
    ensures room { OnOk result (length staged.old.items ≤ vec_capacity staged.new) }
    ensures world { OnErr result (world.new ≡ world.old) }
    ensures staged { OnErr result (staged.new.items ≡ staged.old.items) }
    ensures berths { OnErr result (berths.new.items ≡ berths.old.items) }
{
    let (mut slots, room) = make_slots(alloc, staged.len())?;
    fill_slots(mem::replace(staged, room), &mut slots);
    Ok(Tour {
        world: mem::replace(world, World::empty(alloc)),
        slots,
        berths: mem::replace(berths, Vec::new(alloc)),
        outcome: Ok(()),
    })
}

/// Puts back what was taken on a tour, and tells how it ended.
fn disembark<V: Drop, S: Drop>(
    tour: Tour<V, S>,
    world: &mut World<V>,
    staged: &mut Vec<Staged<V, S>>,
    berths: &mut Vec<Berth<V, S>>,
) -> Result<(), Refusal>
    requires none { staged.old.items ≡ [] }
    requires room { length tour.staged ≤ vec_capacity staged.old }
    ensures world { world.new ≡ tour.world }
    ensures staged { staged.new.items ≡ tour.staged }
    ensures berths { berths.new.items ≡ tour.stages }
    ensures told { refusal_of result ≡ tour.refused }
{
    let Tour {
        world: back,
        slots,
        berths: kept,
        outcome,
    } = tour;
    *world = back;
    *berths = kept;
    empty_slots(slots, staged);
    outcome
}

/// Runs some stages by so many workers, one stage after the other, up to the first in which a system refuses.
pub(crate) fn run_apart<
    V: Drop + Send + Sync,
    S: System<V> + Drop + Send,
    R: AllocGlobal + Threads + Wait + Sync,
>(
    rt: &R,
    workers: usize,
    world: &mut World<V>,
    staged: &mut Vec<Staged<V, S>>,
    berths: &mut Vec<Berth<V, S>>,
) -> Result<(), DispatchError>
    requires free { All AreFree berths.old.items }
    requires seated { StagesAreSeated berths.old.items staged.old.items }
    ensures ends { EndsAs S.meets berths.old.items (state_of staged.old.items (holding_of world.old)) result
        (state_of staged.new.items (holding_of world.new)) }
    ensures seats { SeatsKept staged.old.items staged.new.items }
    ensures count { length staged.new.items ≡ length staged.old.items }
    ensures berths { berths.new.items ≡ berths.old.items }
{
    let Ok(tour) = embark(rt.alloc(), world, staged, berths) else {
        return Err(DispatchError::Memory);
    };
    let (tour, want) = tour_manned(rt, workers, tour);
    let outcome = disembark(tour, world, staged, berths);
    answer(outcome, want)
}

/// Makes a tour while a crew stands by.
fn tour_standing<V: Drop, S: System<V> + Drop, R: AllocGlobal + Wait>(
    rt: &R,
    crew: &mut Crew<World<V>, Pack<V, S>>,
    tour: Tour<V, S>,
) -> Tour<V, S>
    ensures stages { result.stages ≡ tour.stages }
    ensures seats { SeatsKept tour.staged result.staged }
    ensures count { length result.staged ≡ length tour.staged }
    ensures ran { StagesRun S.meets tour.stages (state_of tour.staged (holding_of tour.world))
        result.refused (state_of result.staged (holding_of result.world)) }
{
    let mut tour = tour;
    tour.run(rt, crew);
    tour
}

/// Runs some stages as `run_apart` does, by a crew that stands by.
pub(crate) fn run_standing<V: Drop, S: System<V> + Drop, R: AllocGlobal + Wait>(
    rt: &R,
    crew: &mut Crew<World<V>, Pack<V, S>>,
    world: &mut World<V>,
    staged: &mut Vec<Staged<V, S>>,
    berths: &mut Vec<Berth<V, S>>,
) -> Result<(), DispatchError>
    requires free { All AreFree berths.old.items }
    requires seated { StagesAreSeated berths.old.items staged.old.items }
    ensures ends { EndsAs S.meets berths.old.items (state_of staged.old.items (holding_of world.old)) result
        (state_of staged.new.items (holding_of world.new)) }
    ensures seats { SeatsKept staged.old.items staged.new.items }
    ensures count { length staged.new.items ≡ length staged.old.items }
    ensures berths { berths.new.items ≡ berths.old.items }
    ensures threads { result ≢ Err Threads }
{
    let Ok(tour) = embark(rt.alloc(), world, staged, berths) else {
        return Err(DispatchError::Memory);
    };
    let tour = tour_standing(rt, crew, tour);
    let outcome = disembark(tour, world, staged, berths);
    answer(outcome, None)
}
