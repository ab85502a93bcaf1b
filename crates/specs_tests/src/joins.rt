//! Joins of storages at the borders of words and layers, of tuples that nest, walked and collected by threads.
ghost use Rattle.std.specs.Prelude.{◌≡◌, ◌<◌};

use crate::parts::{Mass, Mood, Numbered, Speed};
use hibitset::{BitSet, Counter, Steps};
use specs_entity::{EntitiesRes, Entity};
use specs_join::laws::two_storages_cost_what_the_smaller_has;
use specs_join::{AntiStorage, Join, JoinIter, JoinParIter, MaybeJoin, ParJoin};
use specs_layouts::{BTreeStorage, DenseVecStorage, HashMapStorage, MaskedStorage, TryDefault};
use std::alloc::Global;
use std::marker::Brand;
use std::sync::atomic::{AtomicU64, Ordering};
use std::sync::ledger::{Blank, Ledger};
use std::thread::Threads;

/// The indices before and after which a word of some layer ends, the last index, and two more.
pub const SOME: [u32; 10] = [16777215, 64, 5, 4095, 0, 262144, 63, 262143, 4096, 70000];

/// The same borders, and two other indices.
pub const OTHERS: [u32; 10] = [7, 0, 63, 64, 4095, 4096, 262143, 262144, 16777215, 70001];

/// The indices at which there are parts, and those in a set.
#[derive(Drop)]
pub struct Parts {
    /// Those that have a mass, which is one more than the index.
    pub masses: &'static [u32],
    /// Those that have a mood, which is twice the index.
    pub moods: &'static [u32],
    /// Those that have a speed, which is 100 more than the index.
    pub speeds: &'static [u32],
    /// Those in the set.
    pub set: &'static [u32],
}

/// No index.
pub const NOTHING: Parts = Parts {
    masses: &[],
    moods: &[],
    speeds: &[],
    set: &[],
};

/// Three storages and a set.
#[derive(Drop)]
pub struct Scene {
    pub masses: MaskedStorage<Mass>,
    pub moods: MaskedStorage<Mood>,
    pub speeds: MaskedStorage<Speed>,
    set: BitSet,
}

/// What is joined, and the items that this has.
pub enum Joins {
    /// Masses and moods.
    Both(&'static [(u32, u32)]),
    /// Masses, and moods that may be there.
    Maybe(&'static [(u32, Option<u32>)]),
    /// Masses where no mood is.
    Absent(&'static [u32]),
    /// Masses, moods and speeds.
    Three(&'static [[u32; 3]]),
    /// Masses, moods, speeds and the set.
    Four(&'static [[u32; 4]]),
    /// The same in tuples that nest.
    Nested(&'static [[u32; 4]]),
}

/// How the items of a join are come by.
#[derive(Clone, Copy)]
enum How {
    Walked,
    /// Collected by so many workers.
    Collected(usize),
}

/// What there is, and how it joins.
pub struct Row {
    pub name: &'static str,
    pub parts: Parts,
    pub joins: Joins,
}

/// Whether a part is put at each of these indices: so many times the index, and so many more.
fn fills<C: Numbered>(
    storage: &mut MaskedStorage<C>,
    indices: &[u32],
    times: u32,
    more: u32,
) -> bool {
    for index in indices {
        let number = index.wrapping_mul(times).wrapping_add(more);
        if *index >= 16777216 || storage.insert(*index, C::made(number)).is_err() {
            return false;
        }
    }
    true
}

/// Whether each of these indices is put into a set.
pub fn gathers(set: &mut BitSet, indices: &[u32]) -> bool {
    for index in indices {
        if *index >= 16777216 || set.add(*index).is_err() {
            return false;
        }
    }
    true
}

/// Whether a join walks items that show these values.
pub fn walks<J: Join, T: PartialEq + Drop, F: Fn(J::Type) -> T + Drop>(
    join: J,
    shows: F,
    wanted: &[T],
) -> bool
where
    J::Type: Drop,
    requires { F.IsAlwaysCallable shows }
{
    let mut left = wanted;
    for item in join.join() {
        let shown = shows(item);
        match left.split_first() {
            Some((first, rest)) if shown == *first => left = rest,
            _ => return false,
        }
    }
    left.is_empty()
}

/// Whether threads collect these values.
fn collects<
    R: Threads + Sync,
    J: Join + Sync,
    T: PartialEq + Send + Drop,
    F: Fn(J::Type) -> T + Sync,
>(rt: &R, alloc: Global, workers: usize, join: J, shows: F, wanted: &[T]) -> bool
where
    J::Mask: Sync,
    J::Value: Sync,
    requires { F.IsAlwaysCallable shows }
{
    match join.par_join().collect(rt, alloc, workers, shows) {
        Ok(list) => list.as_slice() == wanted,
        Err(_) => false,
    }
}

/// Whether a join has items that show these values.
fn gives<
    R: Threads + Sync,
    J: Join + Sync + Drop,
    T: PartialEq + Send + Drop,
    F: Fn(J::Type) -> T + Sync + Drop,
>(rt: &R, alloc: Global, how: How, join: J, shows: F, wanted: &[T]) -> bool
where
    J::Type: Drop,
    J::Mask: Sync,
    J::Value: Sync,
    requires { F.IsAlwaysCallable shows }
{
    match how {
        How::Walked => walks(join, shows, wanted),
        How::Collected(workers) => collects(rt, alloc, workers, join, shows, wanted),
    }
}

impl Scene {
    /// Nothing.
    pub fn new(alloc: Global) -> Scene {
        Scene {
            masses: MaskedStorage::new(alloc, BTreeStorage::unwrap_default(alloc)),
            moods: MaskedStorage::new(alloc, HashMapStorage::unwrap_default(alloc)),
            speeds: MaskedStorage::new(alloc, DenseVecStorage::unwrap_default(alloc)),
            set: BitSet::new(alloc),
        }
    }

    /// Whether these parts and indices are put.
    pub fn takes(&mut self, parts: &Parts) -> bool {
        fills(&mut self.masses, parts.masses, 1, 1)
            && fills(&mut self.moods, parts.moods, 2, 0)
            && fills(&mut self.speeds, parts.speeds, 1, 100)
            && gathers(&mut self.set, parts.set)
    }

    /// Whether it joins as it has to.
    fn joins<R: Threads + Sync>(&self, rt: &R, alloc: Global, how: How, joins: &Joins) -> bool {
        match joins {
            Joins::Both(wanted) => self.both(rt, alloc, how, wanted),
            Joins::Maybe(wanted) => self.maybe(rt, alloc, how, wanted),
            Joins::Absent(wanted) => self.absent(rt, alloc, how, wanted),
            Joins::Three(wanted) => self.three(rt, alloc, how, wanted),
            Joins::Four(wanted) => self.four(rt, alloc, how, wanted),
            Joins::Nested(wanted) => self.nested(rt, alloc, how, wanted),
        }
    }

    fn both<R: Threads + Sync>(
        &self,
        rt: &R,
        alloc: Global,
        how: How,
        wanted: &[(u32, u32)],
    ) -> bool {
        gives(
            rt,
            alloc,
            how,
            (&self.masses, &self.moods),
            |(mass, mood): (&Mass, &Mood)| (mass.0, mood.number()),
            wanted,
        )
    }

    fn maybe<R: Threads + Sync>(
        &self,
        rt: &R,
        alloc: Global,
        how: How,
        wanted: &[(u32, Option<u32>)],
    ) -> bool {
        gives(
            rt,
            alloc,
            how,
            (&self.masses, (&self.moods).maybe()),
            |(mass, mood): (&Mass, Option<&Mood>)| (mass.0, mood.map(|mood: &Mood| mood.number())),
            wanted,
        )
    }

    fn absent<R: Threads + Sync>(&self, rt: &R, alloc: Global, how: How, wanted: &[u32]) -> bool {
        gives(
            rt,
            alloc,
            how,
            (&self.masses, AntiStorage(self.moods.mask())),
            |(mass, ()): (&Mass, ())| mass.0,
            wanted,
        )
    }

    fn three<R: Threads + Sync>(
        &self,
        rt: &R,
        alloc: Global,
        how: How,
        wanted: &[[u32; 3]],
    ) -> bool {
        gives(
            rt,
            alloc,
            how,
            (&self.masses, &self.moods, &self.speeds),
            |(mass, mood, speed): (&Mass, &Mood, &Speed)| [mass.0, mood.number(), speed.0],
            wanted,
        )
    }

    fn four<R: Threads + Sync>(
        &self,
        rt: &R,
        alloc: Global,
        how: How,
        wanted: &[[u32; 4]],
    ) -> bool {
        gives(
            rt,
            alloc,
            how,
            (&self.masses, &self.moods, &self.speeds, &self.set),
            |(mass, mood, speed, index): (&Mass, &Mood, &Speed, u32)| {
                [mass.0, mood.number(), speed.0, index]
            },
            wanted,
        )
    }

    fn nested<R: Threads + Sync>(
        &self,
        rt: &R,
        alloc: Global,
        how: How,
        wanted: &[[u32; 4]],
    ) -> bool {
        gives(
            rt,
            alloc,
            how,
            ((&self.masses, &self.moods), (&self.speeds, &self.set)),
            |((mass, mood), (speed, index)): ((&Mass, &Mood), (&Speed, u32))| {
                [mass.0, mood.number(), speed.0, index]
            },
            wanted,
        )
    }

    /// Whether it joins as it has to, whoever goes through it.
    fn joins_always<R: Threads + Sync>(&self, rt: &R, alloc: Global, joins: &Joins) -> bool {
        for how in HOW {
            if !self.joins(rt, alloc, how, joins) {
                return false;
            }
        }
        true
    }
}

/// Each way in which a list is come by.
const HOW: [How; 5] = [
    How::Walked,
    How::Collected(0),
    How::Collected(1),
    How::Collected(2),
    How::Collected(8),
];

/// Whether a row joins as it has to.
fn holds<R: Threads + Sync>(rt: &R, alloc: Global, row: &Row) -> bool {
    let mut scene = Scene::new(alloc);
    scene.takes(&row.parts) && scene.joins_always(rt, alloc, &row.joins)
}

/// The first of some rows that doesn't hold.
pub fn wrong<R: Threads + Sync>(rt: &R, alloc: Global, rows: &[Row]) -> Option<&'static str> {
    for row in rows {
        if !holds(rt, alloc, row) {
            return Some(row.name);
        }
    }
    None
}

const ROWS: [Row; 9] = [
    Row {
        name: "a join has the shared indices at each border",
        parts: Parts {
            masses: &SOME,
            moods: &OTHERS,
            ..NOTHING
        },
        joins: Joins::Both(&[
            (1, 0),
            (64, 126),
            (65, 128),
            (4096, 8190),
            (4097, 8192),
            (262144, 524286),
            (262145, 524288),
            (16777216, 33554430),
        ]),
    },
    Row {
        name: "a join with an empty storage is empty",
        parts: Parts {
            masses: &SOME,
            ..NOTHING
        },
        joins: Joins::Both(&[]),
    },
    Row {
        name: "a join of masks that share nothing is empty",
        parts: Parts {
            masses: &[1, 64],
            moods: &[2, 65],
            ..NOTHING
        },
        joins: Joins::Both(&[]),
    },
    Row {
        name: "a join that may have a part leaves no index out",
        parts: Parts {
            masses: &[0, 1],
            moods: &[1, 2],
            ..NOTHING
        },
        joins: Joins::Maybe(&[(1, None), (2, Some(2))]),
    },
    Row {
        name: "a join that may have a part, in words far apart",
        parts: Parts {
            masses: &[0, 1, 4096, 70000],
            moods: &[1, 2, 70000],
            ..NOTHING
        },
        joins: Joins::Maybe(&[(1, None), (2, Some(2)), (4097, None), (70001, Some(140000))]),
    },
    Row {
        name: "a join with an absent part has the other indices",
        parts: Parts {
            masses: &SOME,
            moods: &[63, 4096, 262143, 6],
            ..NOTHING
        },
        joins: Joins::Absent(&[1, 6, 65, 4096, 70001, 262145, 16777216]),
    },
    Row {
        name: "tuples of three join",
        parts: Parts {
            masses: &[1, 4095, 4096],
            moods: &[0, 4096, 4095],
            speeds: &[4095, 1, 4096, 0],
            ..NOTHING
        },
        joins: Joins::Three(&[[4096, 8190, 4195], [4097, 8192, 4196]]),
    },
    Row {
        name: "tuples of four join",
        parts: Parts {
            masses: &[1, 2, 3, 64, 4096, 262144],
            moods: &[2, 3, 64, 4096, 262144, 300000],
            speeds: &[0, 1, 2, 64, 65, 4096],
            set: &[2, 64, 262144, 4096, 9999],
        },
        joins: Joins::Four(&[[3, 4, 102, 2], [65, 128, 164, 64], [4097, 8192, 4196, 4096]]),
    },
    Row {
        name: "tuples that nest are one join",
        parts: Parts {
            masses: &[1, 2, 3, 64, 4096, 262144],
            moods: &[2, 3, 64, 4096, 262144, 300000],
            speeds: &[0, 1, 2, 64, 65, 4096],
            set: &[2, 64, 262144, 4096, 9999],
        },
        joins: Joins::Nested(&[[3, 4, 102, 2], [65, 128, 164, 64], [4097, 8192, 4196, 4096]]),
    },
];

#[test]
fn joins_have_what_is_shared(rt: HostRuntime) {
    assert_eq!(rt; wrong(&rt, rt.alloc(), &ROWS), None);
}

/// How many items threads collect, where they are those of the walk.
fn agrees<R: Threads + Sync>(
    rt: &R,
    alloc: Global,
    workers: usize,
    storage: &MaskedStorage<Speed>,
) -> Option<usize> {
    let list = JoinParIter(storage)
        .collect(rt, alloc, workers, |speed: &Speed| speed.0)
        .ok()?;
    if walks(storage, |speed: &Speed| speed.0, list.as_slice()) {
        Some(list.len())
    } else {
        None
    }
}

/// Whether these numbers of workers, each of them, collect so many items as they are walked. The parts are at every third
/// index.
fn all_agree<R: Threads + Sync>(
    rt: &R,
    alloc: Global,
    workers: &[usize],
    count: u32,
    storage: &mut MaskedStorage<Speed>,
) -> bool {
    for place in 0..count {
        let index = place.wrapping_mul(3);
        if index < 16777216 {
            let _ = storage.insert(index, Speed(index)).is_ok();
        }
    }
    for number in workers {
        if agrees(rt, alloc, *number, storage) != Some(count as usize) {
            return false;
        }
    }
    true
}

#[test]
fn threads_collect_the_list_of_join(rt: HostRuntime) {
    let mut storage = MaskedStorage::new(rt.alloc(), DenseVecStorage::unwrap_default(rt.alloc()));
    let workers = [0, 1, 2, 3, 7, 8, 64];
    let is_same = all_agree(&rt, rt.alloc(), &workers, 10000, &mut storage);
    assert!(rt; is_same);
}

/// How many items a copy of a walk has.
fn left_in<J: Join>(walk: &JoinIter<J>) -> usize
where
    J::Type: Drop,
    J::Mask: Copy,
    J::Value: Copy,
{
    let mut count: usize = 0;
    if let Ok(copy) = walk.clone() {
        for _item in copy {
            count = count.wrapping_add(1);
        }
    }
    count
}

/// How many items copies have of walks over what may be there, over what is absent, and of one that gave its first item, and
/// how many that one gives then.
fn copied(scene: &Scene) -> [usize; 4] {
    let maybe = left_in(&(&scene.masses, (&scene.moods).maybe()).join());
    let absent = left_in(&(&scene.masses, AntiStorage(scene.moods.mask())).join());
    let mut walk = (&scene.masses, &scene.moods).join();
    let _ = walk.next().is_some();
    let copy = left_in(&walk);
    let mut own: usize = 0;
    for _item in walk {
        own = own.wrapping_add(1);
    }
    [maybe, absent, copy, own]
}

/// Three masses with a mood, and one without.
const FOUR: Parts = Parts {
    masses: &[1, 2, 64, 4096],
    moods: &[1, 64, 4096, 5000],
    ..NOTHING
};

#[test]
fn a_copied_walk_goes_on_from_where_it_stands(rt: HostRuntime) {
    let mut scene = Scene::new(rt.alloc());
    let is_made = scene.takes(&FOUR);
    assert_eq!(rt; (is_made, copied(&scene)), (true, [4, 1, 2, 2]));
}

/// How many words were told of.
#[derive(Drop)]
struct Told(u32);

impl Counter for Told {
    ghost ticked = { λ _ _ _. Unit {0} };

    ghost ticked_none = { λ _. tt };

    ghost ticked_both = { λ _ _ _ _ _ _ _. tt };

    fn tick(&mut self) {
        self.0 = self.0.saturating_add(1);
    }
}

/// How many words a join of masses and moods reads.
fn words_told(scene: &Scene) -> u32 {
    let mut told = Told(0);
    let mut walk = (&scene.masses, &scene.moods).join_counted(&mut told);
    for _ in 0..9u32 {
        let _ = walk.next_counted(&mut told);
    }
    told.0
}

/// Goes through a join with a ledger that counts.
fn count<L: Ledger>(blank: Blank, scene: &Scene)
    requires name { blank.name ≡ L.name }
    requires parts { blank.parts ≡ L.parts }
    requires some { 0 < blank.parts }
{
    let mut steps = Steps::<L>::new(blank);
    two_storages_cost_what_the_smaller_has(&scene.masses, &scene.moods, &mut steps);
}

/// Two members far apart, and three near ones.
const FAR: Parts = Parts {
    masses: &[0, 262144],
    moods: &[0, 1, 63],
    ..NOTHING
};

#[test]
fn a_join_reads_a_word_of_each_mask_and_layer(rt: HostRuntime) {
    let mut scene = Scene::new(rt.alloc());
    let is_made = scene.takes(&FAR);
    let words = words_told(&scene);
    count::<Brand>(Blank::new(1), &scene);
    assert_eq!(rt; (is_made, words), (true, 8));
}

/// Whether the living are walked: of four indices, where the second died and the third died and was born again.
fn walks_living(entities: &mut EntitiesRes, wanted: &[(u32, i32)]) -> bool {
    for _ in 0..4u32 {
        let _ = entities.allocate().is_ok();
    }
    let dead = [entities.entity(1), entities.entity(2)];
    let _ = entities.kill(&dead).is_ok() && entities.allocate().is_ok();
    walks(
        ((), &*entities),
        |((), entity): ((), Entity)| (entity.id(), entity.generation().id()),
        wanted,
    )
}

#[test]
fn a_join_of_entities_has_the_living(rt: HostRuntime) {
    let mut entities = EntitiesRes::new(rt.alloc());
    let is_walked = walks_living(&mut entities, &[(0, 1), (2, 2), (3, 1)]);
    let constraints = [
        <((), MaybeJoin<&BitSet>) as Join>::is_unconstrained(),
        <((), &EntitiesRes) as Join>::is_unconstrained(),
    ];
    assert_eq!(rt; (is_walked, constraints), (true, [true, false]));
}

/// How often an item looks for the others at most.
const LOOKS: u32 = 1_000_000_000;

/// Comes to a meeting, and tells whether it sees that so many came.
fn sees_all(came: &AtomicU64, expected: u64) -> bool {
    came.fetch_add(1, Ordering::SeqCst);
    for _look in 0..LOOKS {
        if came.load(Ordering::SeqCst) >= expected {
            return true;
        }
    }
    false
}

/// Which items of so many, each collected by a worker of its own, see that all others are being collected.
fn items_that_meet<R: Threads + Sync>(rt: &R, alloc: Global, items: u32) -> Option<Vec<bool>> {
    let mut storage = MaskedStorage::new(alloc, DenseVecStorage::unwrap_default(alloc));
    for place in 0..items {
        let index = place.wrapping_mul(64);
        if index < 16777216 {
            let _ = storage.insert(index, Speed(index)).is_ok();
        }
    }
    let came = AtomicU64::new(0);
    JoinParIter(&storage)
        .collect(rt, alloc, items as usize, |_speed: &Speed| {
            sees_all(&came, items as u64)
        })
        .ok()
}

// A join that is cut into fewer parts than there are workers is caught here: an item then waits for one that comes after it in
// its own part.
#[test]
fn gate_join(rt: HostRuntime) {
    for items in [2u32, 4, 8] {
        match items_that_meet(&rt, rt.alloc(), items) {
            Some(met) => {
                assert_eq!(rt; met.len(), items as usize, "{items} items");
                assert!(rt; met.iter().all(|met| *met), "{items} items");
            }
            None => assert!(rt; false, "{items} items: want of memory"),
        }
    }
}
