//! Builders: plans under names, what is refused, and what is added by calls that give the builder back.
ghost use Rattle.std.specs.Prelude.{◌≡◌, [], ◌∷◌};

use crate::values::Value;
use crate::workers::{
    Does, FIRST, FOURTH, IDLE, Plain, SECOND, THIRD, Worker, average, number_at, set_up, timed,
    work,
};
use RunningTime::{Average, Short, VeryLong, VeryShort};
use shred::{
    AddError, Batch, BatchAccessor, BatchController, Dispatcher, DispatcherBuilder,
    MultiDispatchController, MultiDispatcher, ResourceId, RunNow, RunningTime, StagesBuilder, Stop,
    System, SystemsBuilder, Work, World,
};
use shred_world::Holder;
use std::alloc::{AllocError, Global};

/// A local system that does what a worker does.
#[derive(Clone, Copy)]
pub(crate) struct Local {
    worker: Worker,
}

impl RunNow<Value> for Local {
    ghost meets = { λ _ _ _ _ _. Unit {0} };

    ghost sets_up = { λ _ _ _ _ _. Unit {0} };

    ghost disposes = { λ _ _ _ _. Unit {0} };

    fn run_now<H: AllocGlobal, W: Holder<Value>>(
        &mut self,
        _rt: &H,
        world: &mut W,
    ) -> Result<(), Stop> {
        work(&self.worker, world)
    }

    fn setup(&mut self, world: &mut World<Value>) -> Result<(), AllocError> {
        set_up(&self.worker, world)
    }

    fn dispose(self, world: &mut World<Value>) -> Result<(), Stop> {
        work(&self.worker, world)
    }
}

/// Plans as many runs as the number says that it reads.
#[derive(Clone, Copy)]
pub(crate) struct Often {
    id: ResourceId,
}

impl MultiDispatchController<Value> for Often {
    ghost plans = { λ _ _ _ _ _. Unit {0} };

    ghost read_list = { λ often. often.id ∷ [] };

    ghost write_list = { λ _. [] };

    ghost sets_up = { λ _ _ _ _ _. Unit {0} };

    fn plan<W: Holder<Value>>(&mut self, view: &mut W) -> usize {
        number_at(view, Some(self.id)) as usize
    }

    fn accessor(&self, alloc: Global) -> Result<BatchAccessor, AllocError> {
        let reads = Vec::from_slice(alloc, &[self.id])?;
        Ok(BatchAccessor::new(reads, Vec::new(alloc)))
    }

    fn setup(&mut self, _world: &mut World<Value>) -> Result<(), AllocError> {
        Ok(())
    }
}

pub(crate) type Builder<S> = DispatcherBuilder<Value, S, MultiDispatcher<Often>, Local>;

/// A builder of nothing.
pub(crate) fn new_builder<
    S: System<Value> + Drop,
    C: BatchController<Value, S> + Drop,
    L: RunNow<Value> + Drop,
>(alloc: Global) -> DispatcherBuilder<Value, S, C, L> {
    DispatcherBuilder::new(alloc)
}

/// Adds a system, and tells its number, or why it isn't taken.
pub(crate) fn add_system<
    S: System<Value> + Drop,
    C: BatchController<Value, S> + Drop,
    L: RunNow<Value> + Drop,
>(
    builder: &mut DispatcherBuilder<Value, S, C, L>,
    system: S,
    name: &str,
    after: &[&str],
) -> Result<u32, AddError> {
    match builder.add(system, name, after) {
        Ok(id) => Ok(id.0),
        Err((error, _)) => Err(error),
    }
}

/// Adds a batch, and tells whether it was taken.
fn add_batch<S: System<Value> + Drop, C: BatchController<Value, S> + Drop, L: RunNow<Value> + Drop>(
    builder: &mut DispatcherBuilder<Value, S, C, L>,
    controller: C,
    stages: StagesBuilder<Value, S>,
) -> bool {
    match builder.add_batch(controller, stages, "batch", &[]) {
        Ok(_) => true,
        Err(_) => false,
    }
}

/// Adds a local system, and tells whether it was taken.
fn add_local<S: System<Value> + Drop, C: BatchController<Value, S> + Drop, L: RunNow<Value> + Drop>(
    builder: &mut DispatcherBuilder<Value, S, C, L>,
    local: L,
) -> bool {
    match builder.add_thread_local(local) {
        Ok(()) => true,
        Err(_) => false,
    }
}

/// Adds a barrier.
fn add_barrier<
    S: System<Value> + Drop,
    C: BatchController<Value, S> + Drop,
    L: RunNow<Value> + Drop,
>(builder: &mut DispatcherBuilder<Value, S, C, L>) -> bool {
    builder.add_barrier();
    true
}

/// Whether the plan of a builder is printed as this text.
fn is_printed<
    S: System<Value> + Drop,
    C: BatchController<Value, S> + Drop,
    L: RunNow<Value> + Drop,
>(alloc: Global, builder: &DispatcherBuilder<Value, S, C, L>, text: &str) -> bool {
    match builder.print_par_seq(alloc) {
        Ok(printed) => printed.as_str() == text,
        Err(_) => false,
    }
}

/// The dispatcher of a builder.
pub(crate) fn built<
    S: System<Value> + Drop,
    C: BatchController<Value, S> + Drop,
    L: RunNow<Value> + Drop,
>(builder: DispatcherBuilder<Value, S, C, L>) -> Dispatcher<Value, Work<S, Batch<Value, S, C>>, L> {
    builder.build()
}

/// The greatest number of groups in a stage.
fn groups_of<S: System<Value> + Drop, L: RunNow<Value> + Drop>(
    dispatcher: Dispatcher<Value, S, L>,
) -> usize {
    dispatcher.max_threads()
}

/// Whether the plan of a builder is printed as this text, and has so many groups in a stage at most.
fn is_planned<
    S: System<Value> + Drop,
    C: BatchController<Value, S> + Drop,
    L: RunNow<Value> + Drop,
>(alloc: Global, builder: DispatcherBuilder<Value, S, C, L>, text: &str, groups: usize) -> bool {
    is_printed(alloc, &builder, text) && groups_of(built(builder)) == groups
}

/// A builder with a number of workers.
pub(crate) fn with_workers<
    S: System<Value> + Drop,
    C: BatchController<Value, S> + Drop,
    L: RunNow<Value> + Drop,
>(builder: DispatcherBuilder<Value, S, C, L>, workers: usize) -> DispatcherBuilder<Value, S, C, L> {
    builder.with_pool(workers)
}

/// What a builder is asked.
pub(crate) enum Added {
    /// A worker under a name, after those of other names, and for how long it is said to run.
    System(&'static str, &'static [&'static str], RunningTime, Plain),
    /// A batch of workers, which runs as often as the third number says.
    Batch(&'static [Plain]),
    /// A local system.
    Local(Plain),
    /// A barrier.
    Barrier,
}

/// Adds a system to stages, and tells whether it was taken.
fn add_to_stages<S: System<Value> + Drop>(
    systems: &mut SystemsBuilder<Value, S>,
    system: S,
) -> bool {
    match systems.add(system, "", &[]) {
        Ok(_) => true,
        Err(_) => false,
    }
}

/// The stages of some workers; none for want of memory.
fn stages_of(alloc: Global, workers: &[Plain]) -> Option<StagesBuilder<Value, Worker>> {
    let mut systems = SystemsBuilder::new(alloc);
    let mut is_whole = true;
    for worker in workers {
        is_whole = add_to_stages(&mut systems, average(*worker)) && is_whole;
    }
    if is_whole {
        Some(systems.build())
    } else {
        None
    }
}

/// The controller of the batches.
fn controller() -> MultiDispatcher<Often> {
    MultiDispatcher::new(Often {
        id: ResourceId {
            kind: 1,
            dynamic: 2,
        },
    })
}

/// Asks a builder, and tells whether what was added was taken.
fn add(alloc: Global, builder: &mut Builder<Worker>, added: &Added) -> bool {
    match added {
        Added::System(name, after, time, plain) => {
            add_system(builder, timed(*time, *plain), name, after).is_ok()
        }
        Added::Batch(workers) => match stages_of(alloc, workers) {
            Some(stages) => add_batch(builder, controller(), stages),
            None => false,
        },
        Added::Local(plain) => add_local(
            builder,
            Local {
                worker: average(*plain),
            },
        ),
        Added::Barrier => add_barrier(builder),
    }
}

/// Asks a builder in turn, and tells whether all was taken.
fn add_all(alloc: Global, builder: &mut Builder<Worker>, adds: &[Added]) -> bool {
    let mut is_whole = true;
    for added in adds {
        is_whole = add(alloc, builder, added) && is_whole;
    }
    is_whole
}

/// Local systems that want 5 and then 15, and a system that makes 5 of nothing.
pub(crate) const TWO_LOCALS: [Added; 3] = [
    Added::Local((None, FIRST, Does::AddAt(5, 10))),
    Added::Local((None, FIRST, Does::AddAt(15, 20))),
    Added::System("", &[], Average, (None, FIRST, Does::Add(5))),
];

/// A builder that is asked all of that, and whether all was taken.
pub(crate) fn builder_of(alloc: Global, adds: &[Added]) -> (Builder<Worker>, bool) {
    let mut builder = new_builder(alloc);
    let is_whole = add_all(alloc, &mut builder, adds);
    (builder, is_whole)
}

/// A worker that writes the first number, and does nothing to it.
const WRITES: Plain = (None, FIRST, Does::Nothing);

/// What a builder is asked, its printed plan, and the greatest number of groups in a stage.
struct Plan {
    adds: &'static [Added],
    text: &'static str,
    groups: usize,
}

static PLANS: [Plan; 8] = [
    Plan {
        adds: &[
            Added::System("", &[], VeryLong, IDLE),
            Added::System("a", &[], VeryShort, IDLE),
            Added::System("", &["a"], VeryShort, IDLE),
        ],
        text: "0 | 1, 2\n",
        groups: 2,
    },
    Plan {
        adds: &[
            Added::System("", &[], VeryLong, IDLE),
            Added::System("a", &[], VeryShort, IDLE),
            Added::System("", &["a", "a"], VeryShort, IDLE),
        ],
        text: "0 | 1\n2\n",
        groups: 2,
    },
    Plan {
        adds: &[
            Added::System("", &[], VeryLong, IDLE),
            Added::System("", &[], VeryShort, WRITES),
            Added::System("", &[], VeryShort, WRITES),
            Added::System("", &[], VeryShort, WRITES),
            Added::System("", &[], VeryShort, WRITES),
            Added::System("", &[], VeryShort, WRITES),
        ],
        text: "0 | 1, 2, 3, 4\n5\n",
        groups: 2,
    },
    Plan {
        adds: &[
            Added::System("", &[], Short, IDLE),
            Added::System("", &[], VeryShort, WRITES),
            Added::System("", &[], Short, WRITES),
        ],
        text: "0 | 1\n2\n",
        groups: 2,
    },
    Plan {
        adds: &[
            Added::System("", &[], Average, (SECOND, None, Does::Nothing)),
            Added::System("", &[], VeryShort, WRITES),
            Added::System("", &[], Short, (FIRST, None, Does::Nothing)),
        ],
        text: "0 | 1, 2\n",
        groups: 2,
    },
    Plan {
        adds: &[
            Added::System("0", &[], Average, IDLE),
            Added::System("1", &["0"], Average, IDLE),
            Added::System("2", &["1"], Average, IDLE),
        ],
        text: "0\n1\n2\n",
        groups: 1,
    },
    Plan {
        adds: &[
            Added::Batch(&[
                (SECOND, FIRST, Does::AddRead),
                (FIRST, FOURTH, Does::AddRead),
            ]),
            Added::System("", &[], Average, (None, SECOND, Does::Add(1))),
            Added::System("", &[], Average, (THIRD, None, Does::Nothing)),
        ],
        text: "0\n1 | 2\n",
        groups: 2,
    },
    Plan {
        adds: &[
            Added::System("", &[], Average, (SECOND, FIRST, Does::AddRead)),
            Added::System("", &[], Average, (None, THIRD, Does::Refuse)),
            Added::System("", &[], Average, (SECOND, FOURTH, Does::AddRead)),
            Added::System("", &[], Average, (SECOND, None, Does::Refuse)),
        ],
        text: "0 | 1 | 2 | 3\n",
        groups: 4,
    },
];

/// Whether what a builder is asked comes to this plan.
fn holds(alloc: Global, plan: &Plan) -> bool {
    let (builder, is_whole) = builder_of(alloc, plan.adds);
    is_whole && is_planned(alloc, builder, plan.text, plan.groups)
}

#[test]
fn plans_are_printed(rt: HostRuntime) {
    let mut wrong = None;
    for plan in PLANS.as_slice() {
        if !holds(rt.alloc(), plan) {
            wrong = Some(plan.text);
        }
    }
    assert_eq!(rt; wrong, None);
}

/// The name of a system, those that it comes after, and its number, or why it isn't taken.
type Named = (&'static str, &'static [&'static str], Result<u32, AddError>);

/// Systems that are added one after another.
static NAMES: [Named; 8] = [
    ("a", &[], Ok(0)),
    ("a", &["b"], Err(AddError::NoSuchSystem)),
    ("b", &["b"], Err(AddError::NoSuchSystem)),
    ("b", &[""], Err(AddError::NoSuchSystem)),
    ("a", &["a"], Err(AddError::NameTaken)),
    ("b", &["a"], Ok(1)),
    ("", &["b", "a"], Ok(2)),
    ("", &[], Ok(3)),
];

/// A worker that reads the first number and adds 7 to the second.
const SEVEN: Plain = (FIRST, SECOND, Does::Add(7));

/// The last of the names that is answered otherwise.
fn name_wrong(builder: &mut Builder<Worker>, names: &[Named]) -> Option<usize> {
    let mut wrong = None;
    for (at, (name, after, wanted)) in names.iter().enumerate() {
        if add_system(builder, average(SEVEN), name, after) != *wanted {
            wrong = Some(at);
        }
    }
    wrong
}

/// The last name of the table that is answered otherwise, and the greatest number of groups in a stage of those that were taken.
fn named(alloc: Global) -> (Option<usize>, usize) {
    let mut builder = new_builder(alloc);
    let wrong = name_wrong(&mut builder, &NAMES);
    (wrong, groups_of(built(builder)))
}

#[test]
fn adds_are_refused_by_name(rt: HostRuntime) {
    assert_eq!(rt; named(rt.alloc()), (None, 1));
}

/// How many systems are taken, and why the next isn't.
fn filled(alloc: Global) -> (u32, Option<AddError>) {
    let mut builder: Builder<Worker> = new_builder(alloc);
    for taken in 0..70_000 {
        if let Err(error) = add_system(&mut builder, average(IDLE), "", &[]) {
            return (taken, Some(error));
        }
    }
    (70_000, None)
}

#[test]
fn no_more_systems_are_taken_than_have_numbers(rt: HostRuntime) {
    assert_eq!(rt; filled(rt.alloc()), (65_536, Some(AddError::SystemsFull)));
}

/// A builder of three systems and a number of workers, and whether all were taken.
pub(crate) fn builder_of_three<
    S: System<Value> + Drop,
    C: BatchController<Value, S> + Drop,
    L: RunNow<Value> + Drop,
>(alloc: Global, workers: usize, systems: [S; 3]) -> (DispatcherBuilder<Value, S, C, L>, bool) {
    let [first, second, third] = systems;
    let mut builder = new_builder(alloc);
    builder.add_pool(workers);
    let has_first = add_system(&mut builder, first, "", &[]).is_ok();
    let has_second = add_system(&mut builder, second, "", &[]).is_ok();
    let has_third = add_system(&mut builder, third, "", &[]).is_ok();
    (builder, has_first && has_second && has_third)
}

/// A builder with one more system, by the call that gives it back.
fn with_system<
    S: System<Value> + Drop,
    C: BatchController<Value, S> + Drop,
    L: RunNow<Value> + Drop,
>(
    builder: DispatcherBuilder<Value, S, C, L>,
    system: S,
) -> Option<DispatcherBuilder<Value, S, C, L>> {
    match builder.with(system, "", &[]) {
        Ok(builder) => Some(builder),
        Err(_) => None,
    }
}

/// A builder with a barrier.
fn with_barrier<
    S: System<Value> + Drop,
    C: BatchController<Value, S> + Drop,
    L: RunNow<Value> + Drop,
>(builder: DispatcherBuilder<Value, S, C, L>) -> DispatcherBuilder<Value, S, C, L> {
    builder.with_barrier()
}

/// A builder with one more batch, by the call that gives it back.
fn with_batch<
    S: System<Value> + Drop,
    C: BatchController<Value, S> + Drop,
    L: RunNow<Value> + Drop,
>(
    builder: DispatcherBuilder<Value, S, C, L>,
    controller: C,
    stages: StagesBuilder<Value, S>,
) -> Option<DispatcherBuilder<Value, S, C, L>> {
    match builder.with_batch(controller, stages, "", &[]) {
        Ok(builder) => Some(builder),
        Err(_) => None,
    }
}

/// A builder with one more local system, by the call that gives it back.
fn with_local<
    S: System<Value> + Drop,
    C: BatchController<Value, S> + Drop,
    L: RunNow<Value> + Drop,
>(
    builder: DispatcherBuilder<Value, S, C, L>,
    local: L,
) -> Option<DispatcherBuilder<Value, S, C, L>> {
    match builder.with_thread_local(local) {
        Ok(builder) => Some(builder),
        Err(_) => None,
    }
}

/// A builder with a system, a batch behind a barrier and a local system; none for want of memory.
fn chained<S: System<Value> + Drop, C: BatchController<Value, S> + Drop, L: RunNow<Value> + Drop>(
    alloc: Global,
    system: S,
    controller: C,
    stages: StagesBuilder<Value, S>,
    local: L,
) -> Option<DispatcherBuilder<Value, S, C, L>> {
    let Some(builder) = with_system(new_builder(alloc), system) else {
        return None;
    };
    let Some(builder) = with_batch(with_barrier(builder), controller, stages) else {
        return None;
    };
    with_local(builder, local)
}

/// A builder that is given back with a system that adds 1 to the second number, a batch that adds it to the first one, and a local
/// system that adds that to the fourth; none for want of memory.
pub(crate) fn chain(alloc: Global) -> Option<Builder<Worker>> {
    let Some(stages) = stages_of(alloc, &[(SECOND, FIRST, Does::AddRead)]) else {
        return None;
    };
    let system = average((None, SECOND, Does::Add(1)));
    let local = Local {
        worker: average((FIRST, FOURTH, Does::AddRead)),
    };
    chained(alloc, system, controller(), stages, local)
}
