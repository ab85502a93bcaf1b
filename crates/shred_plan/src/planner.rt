//! The plan of the systems that were added.
ghost use Rattle.std.specs.Prelude.{◌≡◌, ◌==◌, ◌-◌, ◌/◌, ◌%◌, ◌≤◌, ◌<◌, ℕ, true, false, min, [], ◌∷◌, ◌++◌, length};
ghost use Rattle.std.specs.Prelude.{map, nat_eq, OnOk, OnErr, IfOk, IfErr, if◌then◌else◌, Some, None};
ghost use Rattle.std.specs.List.{IsDistinct};
ghost use Rattle.std.specs.Option.{IfSome};
ghost use Rattle.shred_plan.specs.Plan.{Planning, added, fence, placing, placed, admitted, plan_order, most_groups};
ghost use Rattle.shred_plan.specs.Places.{IsPlace, placed_at};
ghost use Rattle.shred_plan.specs.Index.{stage_at, rest_at, is_loose, is_blocked, way_at};
ghost use Rattle.shred_plan.specs.Seats.{KeepsSeats, HitsSeats, group_of};

use crate::id_table::IdTable;
use crate::index::Index;
use crate::stage_set::StageSet;
use crate::{Adding, Stage, Way};
use std::alloc::{AllocError, AllocFailed, Global};
use std::marker::Model;

/// How many seats a stage has.
const SEATS: usize = 16;

/// How many stages have seats.
const SEATED_STAGES: usize = 65_536;

/// A stage, and the way in which it takes a system in.
#[derive(Clone, Copy)]
struct Place {
    stage: usize,
    way: Way,
}

/// Puts systems into stages of groups, each as it is added.
///
/// An index of the stages finds the place of a system without a look at each. Where memory was refused to it, it is given up,
/// and each stage is looked at from then on; where an `after` has a number twice, so it is for that system.
#[derive(Drop)]
pub struct Planner<K: Ord> {
    alloc: Global,
    first: usize,
    stages: Vec<Stage<K>>,
    index: Option<Index<K>>,
}

impl<K: Ord> Model for Planner<K> {
    ghost use Rattle.std.specs.Option.{IfSome};
    ghost use Rattle.shred_plan.specs.Plan.{Planning};
    ghost use Rattle.shred_plan.specs.Kept.{Keeps};

    ghost Value = { Planning K };

    ghost view = { λ planner. record { first = planner.first; stages = planner.stages.items } };

    ghost invariant = { λ planner. IfSome planner.index (λ index. Keeps K.cmp K.eq index planner.stages.items) };
}

impl<K: Ord + Clone + Drop> Planner<K> {
    ghost use Rattle.shred_plan.specs.Kept.{Keeps, Readies, Blocks, IsFirst, stage_of};

    /// A plan without systems, which takes its memory from `alloc`.
    pub fn new(alloc: Global) -> Planner<K>
        ensures { result ≡ record { first = 0; stages = [] } }
    {
        Planner {
            alloc,
            first: 0,
            stages: Vec::new(alloc),
            index: Some(Index::new(alloc)),
        }
    }

    /// Puts a system into the first stage since the last barrier that admits it, else into a new one at the end.
    ///
    /// Errors: want of memory, which leaves the plan as it was and hands the system back.
    pub fn add(&mut self, adding: Adding<K>) -> Result<(), AllocFailed<Adding<K>>>
        ensures ok { OnOk result (self.new ≡ added K.eq self.old (placing adding)) }
        ensures err { OnErr result (self.new ≡ self.old) }
        ensures handed_back { IfErr result (λ refused. refused.value ≡ adding) }
    {
        let place = self.place(&adding);
        let index = match place {
            Ok(place) => self.noted(&adding, place),
            Err(AllocError) => None,
        };
        let added = match place {
            Ok(Some(place)) => self.take(place, adding),
            Ok(None) => self.open(adding),
            Err(AllocError) => Err(AllocFailed { value: adding }),
        };
        if added.is_ok() {
            self.index = index;
            if let Ok(Some(place)) = place {
                self.settle(place);
            }
        }
        added
    }

    /// Keeps in the index what a place has made of its stage.
    fn settle(&mut self, place: Place)
        ensures { self.new ≡ self.old }
    {
        if let Way::Behind(_) = place.way {
            self.tighten(place.stage);
        }
    }

    /// Keeps in the index that a stage lets no system join a group, if it is so.
    fn tighten(&mut self, stage: usize)
        ensures { self.new ≡ self.old }
    {
        if self.may_be_joined(stage) {
            return;
        }
        if let Some(mut index) = self.index.take() {
            index.note_tight(stage);
            self.index = Some(index);
        }
    }

    /// Whether a stage may let a system join a group.
    fn may_be_joined(&self, stage: usize) -> bool
        ensures { result ≡ is_loose (stage_at self.now.stages stage) }
    {
        match self.stages.get(stage) {
            Some(stage) => stage.is_loose(),
            None => false,
        }
    }

    /// Closes the stages so far: what is added from now on stands in later ones.
    pub fn add_barrier(&mut self)
        ensures { self.new ≡ added K.eq self.old fence }
    {
        self.first = self.stages.len();
    }

    /// The stages.
    pub fn stages(&self) -> &[Stage<K>]
        ensures { result.now ≡ self.now.stages }
    {
        self.stages.as_slice()
    }

    /// How many stages it has.
    pub fn stage_count(&self) -> usize
        ensures { result ≡ length self.now.stages }
    {
        self.stages.len()
    }

    /// The greatest number of groups in a stage.
    pub fn max_groups(&self) -> usize
        ensures { result ≡ most_groups self.now.stages }
    {
        let mut most = 0;
        for stage in self.stages() {
            most = most.max(stage.len());
        }
        most
    }

    /// The numbers of the systems in the order in which they run: stage by stage, group by group.
    ///
    /// Errors: want of memory.
    pub fn order(&self, alloc: Global) -> Result<Vec<u32>, AllocError>
        ensures { IfOk result (λ list. list.items ≡ map (λ system. system.number) (plan_order self.now.stages)) }
    {
        let mut list = Vec::new(alloc);
        for stage in self.stages() {
            stage.list_numbers(&mut list)?;
        }
        Ok(list)
    }

    /// The place of a system among the stages that there are; none where it needs a new one.
    fn place(&self, adding: &Adding<K>) -> Result<Option<Place>, AllocError>
        ensures value { IfOk result (λ place. placed K.eq self.now.first adding.now adding.now.after self.now.stages
            ≡ placed_at adding.now self.now.stages place) }
        ensures fits { IfOk result (λ place. IsPlace self.now.stages place) }
    {
        if let Some(index) = &self.index {
            if are_distinct(self.alloc, adding.after())? {
                let place = self.indexed_place(index, adding)?;
                return Ok(place);
            }
        }
        self.walked_place(adding)
    }

    /// The place of a system, found by a look at each stage.
    fn walked_place(&self, adding: &Adding<K>) -> Result<Option<Place>, AllocError>
        ensures value { IfOk result (λ place. placed K.eq self.now.first adding.now adding.now.after self.now.stages
            ≡ placed_at adding.now self.now.stages place) }
        ensures fits { IfOk result (λ place. IsPlace self.now.stages place) }
    {
        let mut rest = Vec::from_slice(self.alloc, adding.after())?;
        for (index, stage) in self.stages().iter().enumerate() {
            if let Some(way) = self.way(index, stage, adding, &rest)? {
                return Ok(Some(Place { stage: index, way }));
            }
            stage.strike(&mut rest);
        }
        Ok(None)
    }

    /// The place of a system that names each that it comes after once, found by the index.
    fn indexed_place(
        &self,
        index: &Index<K>,
        adding: &Adding<K>,
    ) -> Result<Option<Place>, AllocError>
        requires keeps { Keeps K.cmp K.eq index.now self.now.stages }
        requires distinct { IsDistinct nat_eq adding.now.after }
        ensures { IfOk result (λ place. IsFirst K.eq self.now.first adding.now self.now.stages
            0 (length self.now.stages) place) }
    {
        let count = self.stages.len();
        let Some(ready) = index.firsts().ready(adding.after()) else {
            return Ok(None);
        };
        let blocked = index.blocked(adding)?;
        if let Some(place) = self.place_behind(index, &blocked, ready, adding)? {
            return Ok(Some(place));
        }
        let start = ready.max(self.first);
        if start >= count {
            return Ok(None);
        }
        let found = self.place_from(index, &blocked, start, adding)?;
        Ok(found)
    }

    /// The place of a system in the stage in which the last of those stand that it comes after, the one before a number of stages.
    fn place_behind(
        &self,
        index: &Index<K>,
        blocked: &StageSet,
        ready: usize,
        adding: &Adding<K>,
    ) -> Result<Option<Place>, AllocError>
        requires keeps { Keeps K.cmp K.eq index.now self.now.stages }
        requires blocks { Blocks K.eq adding.now self.now.stages blocked.now }
        requires readies { Readies adding.now self.now.stages (Some ready) }
        requires distinct { IsDistinct nat_eq adding.now.after }
        ensures { IfOk result (λ place. IsFirst K.eq self.now.first adding.now self.now.stages
            0 (min ready (length self.now.stages)) place) }
    {
        if ready <= self.first || ready > self.stages.len() {
            return Ok(None);
        }
        let last = ready - 1;
        if blocked.contains(last) || !index.is_loose(last) {
            return Ok(None);
        }
        let rest = index.firsts().rest_of(adding.after(), last)?;
        let stage = &self.stages[last];
        match stage.place_of_wanted(self.alloc, adding, &rest)? {
            Some(group) => Ok(Some(Place {
                stage: last,
                way: Way::Behind(group),
            })),
            None => Ok(None),
        }
    }

    /// The place of a system from a stage on, where those that it comes after stand before that.
    fn place_from(
        &self,
        index: &Index<K>,
        blocked: &StageSet,
        start: usize,
        adding: &Adding<K>,
    ) -> Result<Option<Place>, AllocError>
        requires keeps { Keeps K.cmp K.eq index.now self.now.stages }
        requires blocks { Blocks K.eq adding.now self.now.stages blocked.now }
        requires reached { self.now.first ≤ start }
        requires within { start ≤ length self.now.stages }
        requires ready { (place : ℕ) → start ≤ place → place < length self.now.stages
            → (length (rest_at adding.now self.now.stages place) == 0) ≡ true }
        ensures { IfOk result (λ place. IsFirst K.eq self.now.first adding.now self.now.stages
            start (length self.now.stages) place) }
    {
        let end = self.stages.len();
        let free = blocked.first_outside(start, end);
        if let Some(place) = self.place_joined(index, start, free, adding)? {
            return Ok(Some(place));
        }
        if free >= end {
            return Ok(None);
        }
        Ok(Some(Place {
            stage: free,
            way: Way::Alone,
        }))
    }

    /// The place of a system in a group of one of some stages with each of which it conflicts, where those that it comes after
    /// stand before them.
    fn place_joined(
        &self,
        index: &Index<K>,
        start: usize,
        end: usize,
        adding: &Adding<K>,
    ) -> Result<Option<Place>, AllocError>
        requires keeps { Keeps K.cmp K.eq index.now self.now.stages }
        requires reached { self.now.first ≤ start }
        requires order { start ≤ end }
        requires within { end ≤ length self.now.stages }
        requires blocked { (place : ℕ) → start ≤ place → place < end
            → is_blocked K.eq adding.now (stage_at self.now.stages place) ≡ true }
        requires ready { (place : ℕ) → start ≤ place → place < end
            → (length (rest_at adding.now self.now.stages place) == 0) ≡ true }
        ensures { IfOk result (λ place. IsFirst K.eq self.now.first adding.now self.now.stages start end place) }
    {
        let mut place = index.next_loose(start, end);
        if place >= end {
            return Ok(None);
        }
        let seats = index.hit(adding)?;
        while place < end {
            if let Some(way) = self.joined_way(&seats, place, adding) {
                return Ok(Some(Place { stage: place, way }));
            }
            place = index.next_loose(place + 1, end);
        }
        Ok(None)
    }

    /// The way in which a stage admits a system that conflicts with one of its systems, and comes after nothing that is left.
    ///
    /// It is looked into only where no two seats show that the system conflicts with two groups.
    fn joined_way(&self, seats: &StageSet, place: usize, adding: &Adding<K>) -> Option<Way>
        requires reached { self.now.first ≤ place }
        requires within { place < length self.now.stages }
        requires hits { HitsSeats K.eq adding.now self.now.stages seats.now }
        requires blocked { is_blocked K.eq adding.now (stage_at self.now.stages place) ≡ true }
        requires ready { (length (rest_at adding.now self.now.stages place) == 0) ≡ true }
        ensures { way_at K.eq self.now.first adding.now self.now.stages place ≡ result }
    {
        if seats.has_two(place) {
            return None;
        }
        let stage = &self.stages[place];
        stage.joined_way(adding)
    }

    /// Takes the index out, and keeps in it that a system goes to a place; none where memory was refused to it.
    fn noted(&mut self, adding: &Adding<K>, place: Option<Place>) -> Option<Index<K>>
        requires { IsPlace self.old.stages place }
        ensures same { self.new ≡ self.old }
        ensures keeps { IfSome result (λ index. Keeps K.cmp K.eq index (placed_at adding.now self.old.stages place)) }
    {
        let mut index = self.index.take()?;
        let stage = self.stage_of(place);
        if let Err(AllocError) = index.note(adding, stage) {
            return None;
        }
        if let Err(AllocError) = self.note_seats(&mut index.seats, adding, place) {
            return None;
        }
        if !self.loosens(adding, place) {
            return Some(index);
        }
        if let Err(AllocError) = index.note_loose(stage) {
            return None;
        }
        Some(index)
    }

    /// Marks the seat of a system that goes to a place, where its stage has two groups then, and those of the first group where
    /// it opens the second.
    ///
    /// Errors: want of memory.
    fn note_seats(
        &self,
        seats: &mut IdTable<K>,
        adding: &Adding<K>,
        place: Option<Place>,
    ) -> Result<(), AllocError>
        requires fits { IsPlace self.now.stages place }
        requires keeps { KeepsSeats K.cmp K.eq seats.old self.now.stages }
        ensures { OnOk result (KeepsSeats K.cmp K.eq seats.new (placed_at adding.now self.now.stages place)) }
    {
        let Some(place) = place else {
            return Ok(());
        };
        let count = self.stages[place.stage].len();
        let group = self.group_of(place);
        if place.stage >= SEATED_STAGES || count == 1 && group == 0 {
            return Ok(());
        }
        self.note_first(seats, place.stage)?;
        seats.mark(adding, seat_of(place.stage, group))?;
        Ok(())
    }

    /// The place of the group in which a system stands once it has been taken in.
    fn group_of(&self, place: Place) -> usize
        requires { place.stage < length self.now.stages }
        ensures { result ≡ group_of (stage_at self.now.stages place.stage) place.way }
    {
        match place.way {
            Way::Alone => self.stages[place.stage].len(),
            Way::Behind(group) => group,
        }
    }

    /// Marks the seats of the systems of the group of a stage, if it has no other.
    ///
    /// Errors: want of memory.
    fn note_first(&self, seats: &mut IdTable<K>, stage: usize) -> Result<(), AllocError>
        requires few { stage < 65536 }
        requires within { stage < length self.now.stages }
        requires keeps { KeepsSeats K.cmp K.eq seats.old self.now.stages }
        ensures { OnOk result (KeepsSeats K.cmp K.eq seats.new self.now.stages) }
    {
        let groups = self.stages[stage].groups();
        if groups.len() != 1 {
            return Ok(());
        }
        for system in groups[0].systems() {
            seats.mark(system, seat_of(stage, 0))?;
        }
        Ok(())
    }

    /// The stage of a place.
    fn stage_of(&self, place: Option<Place>) -> usize
        ensures { result ≡ stage_of self.now.stages place }
    {
        match place {
            Some(place) => place.stage,
            None => self.stages.len(),
        }
    }

    /// Whether the stage of a place may let a system join a group once it has taken one in there.
    fn loosens(&self, adding: &Adding<K>, place: Option<Place>) -> bool
        requires { IsPlace self.now.stages place }
        ensures { result ≡ false → (at : ℕ) → is_loose (stage_at self.now.stages at) ≡ false
            → is_loose (stage_at (placed_at adding.now self.now.stages place) at) ≡ false }
    {
        match place {
            None => false,
            Some(
                Place {
                    stage,
                    way: Way::Alone,
                },
            ) => {
                let stage = &self.stages[stage];
                stage.longest() != adding.units()
            }
            Some(
                Place {
                    way: Way::Behind(_),
                    ..
                },
            ) => true,
        }
    }

    /// The way in which a stage admits a system, if it isn't closed by a barrier.
    fn way(
        &self,
        index: usize,
        stage: &Stage<K>,
        adding: &Adding<K>,
        rest: &[u32],
    ) -> Result<Option<Way>, AllocError>
        ensures { IfOk result (λ way. way ≡ (if self.now.first - index == 0
            then admitted K.eq adding.now rest.now stage.now else None)) }
    {
        if index < self.first {
            Ok(None)
        } else {
            stage.way(self.alloc, adding, rest)
        }
    }

    /// Lets a stage take a system in. The index is given up.
    fn take(&mut self, place: Place, adding: Adding<K>) -> Result<(), AllocFailed<Adding<K>>>
        requires { IsPlace self.old.stages (Some place) }
        ensures ok { OnOk result (self.new ≡ record {
          first = self.old.first;
          stages = placed_at adding self.old.stages (Some place);
        }) }
        ensures err { OnErr result (self.new ≡ self.old) }
        ensures handed_back { IfErr result (λ refused. refused.value ≡ adding) }
    {
        let Place { stage, way } = place;
        self.index = None;
        let stage = &mut self.stages[stage];
        stage.take(self.alloc, adding, way)
    }

    /// Puts a system into a new stage. The index is given up.
    fn open(&mut self, adding: Adding<K>) -> Result<(), AllocFailed<Adding<K>>>
        ensures ok { OnOk result (self.new ≡ record {
          first = self.old.first;
          stages = self.old.stages ++ ((adding ∷ []) ∷ []) ∷ [];
        }) }
        ensures err { OnErr result (self.new ≡ self.old) }
        ensures handed_back { IfErr result (λ refused. refused.value ≡ adding) }
    {
        self.index = None;
        if self.stages.reserve(1).is_err() {
            return Err(AllocFailed { value: adding });
        }
        let stage = match Stage::of(self.alloc, adding) {
            Ok(stage) => stage,
            Err(refused) => return Err(refused),
        };
        self.stages.push_reserved(stage);
        Ok(())
    }
}

/// The seat of a group at a place of a stage.
fn seat_of(stage: usize, place: usize) -> usize
    requires { stage < 65536 }
    ensures stage { result / 16 ≡ stage }
    ensures place { result % 16 ≡ place % 16 }
{
    SEATS * stage + place % SEATS
}

/// Whether no number of a list stands in it twice.
///
/// Errors: want of memory.
fn are_distinct(alloc: Global, numbers: &[u32]) -> Result<bool, AllocError>
    ensures { IfOk result (λ answer. answer ≡ true → IsDistinct nat_eq numbers.now) }
{
    let mut sorted = Vec::from_slice(alloc, numbers)?;
    sorted.sort_unstable();
    for place in 1..sorted.len() {
        if sorted[place - 1] >= sorted[place] {
            return Ok(false);
        }
    }
    Ok(true)
}
