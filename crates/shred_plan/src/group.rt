//! Systems that run one after another.
ghost use Rattle.std.specs.Prelude.{◌≡◌, ◌==◌, false, ◌≤◌, ◌<◌, ℕ, [], ◌∷◌, ◌++◌, length, map, OnOk, OnErr, IfOk};
ghost use Rattle.std.specs.Prelude.{IfErr};
ghost use Rattle.std.specs.List.{remove, list_any};
ghost use Rattle.std.specs.Option.{MatchOption};
ghost use Rattle.shred_plan.specs.Plan.{hits, time_of, rest_after, without, completes};

use crate::Adding;
use std::alloc::{AllocError, AllocFailed, Global};
use std::marker::Model;

/// One to four systems that run one after another.
#[derive(Drop)]
pub struct Group<K> {
    systems: Vec<Adding<K>>,
    time: u32,
}

impl<K> Model for Group<K> {
    ghost use Rattle.std.specs.Prelude.{◌≡◌, ◌≤◌, ◌*◌, ℕ, List, length};
    ghost use Rattle.shred_plan.specs.Plan.{Placing, time_of};

    ghost Value = { List (Placing K) };

    ghost view = { λ group. group.systems.items };

    ghost invariant = { λ group. (group.time ≡ time_of group.systems.items) × (length group.systems.items ≤ 4)
        × (group.time ≤ 5 * length group.systems.items) };
}

impl<K: PartialEq + Drop> Group<K> {
    /// A group of one system.
    pub(crate) fn of(alloc: Global, adding: Adding<K>) -> Result<Group<K>, AllocFailed<Adding<K>>>
        ensures ok { IfOk result (λ group. group ≡ adding ∷ []) }
        ensures handed_back { IfErr result (λ refused. refused.value ≡ adding) }
    {
        let time = adding.units();
        let mut systems = Vec::new(alloc);
        if let Err(refused) = systems.push(adding) {
            return Err(refused);
        }
        Ok(Group { systems, time })
    }

    /// Puts a system at the end.
    ///
    /// Errors: want of memory, which leaves the group as it was and hands the system back.
    pub(crate) fn push(&mut self, adding: Adding<K>) -> Result<(), AllocFailed<Adding<K>>>
        requires { length self.old < 4 }
        ensures ok { OnOk result (self.new ≡ self.old ++ adding ∷ []) }
        ensures err { OnErr result (self.new ≡ self.old) }
        ensures handed_back { IfErr result (λ refused. refused.value ≡ adding) }
    {
        let time = adding.units();
        if let Err(refused) = self.systems.push(adding) {
            return Err(refused);
        }
        self.time += time;
        Ok(())
    }

    /// The systems, in the order in which they run.
    pub fn systems(&self) -> &[Adding<K>]
        ensures { result.now ≡ self.now }
    {
        self.systems.as_slice()
    }

    /// How many systems it has.
    pub fn len(&self) -> usize
        ensures { result ≡ length self.now }
    {
        self.systems.len()
    }

    /// Puts the numbers of its systems at the end of a list, in the order in which they run.
    ///
    /// Errors: want of memory, after some numbers.
    pub(crate) fn list_numbers(&self, list: &mut Vec<u32>) -> Result<(), AllocError>
        ensures { OnOk result (list.new.items ≡ list.old.items ++ map (λ system. system.number) self.now) }
    {
        for system in self.systems() {
            list.push(system.number())?;
        }
        Ok(())
    }

    /// How many units of time its systems take together, at most 20.
    pub fn time(&self) -> u32
        ensures value { result ≡ time_of self.now }
        ensures range { result ≤ 20 }
    {
        self.time
    }

    /// Whether a system conflicts with one of the group.
    pub(crate) fn is_hit_by(&self, adding: &Adding<K>) -> bool
        ensures { result ≡ hits K.eq adding.now self.now }
    {
        self.systems
            .iter()
            .any(|system| adding.conflicts_with(system))
    }

    /// Takes one occurrence of each system's number out of the list.
    pub(crate) fn strike(&self, rest: &mut Vec<u32>)
        ensures { rest.new.items ≡ rest_after rest.old.items self.now }
    {
        for system in self.systems() {
            strike_one(rest, system.number());
        }
    }

    /// Whether it has the first number of a list.
    fn has_first(&self, rest: &[u32]) -> bool
        ensures { result ≡ false → completes rest.now self.now ≡ false }
    {
        match rest.first() {
            Some(first) => self.has_number(*first),
            None => false,
        }
    }

    /// Whether one of its systems has a number.
    fn has_number(&self, number: u32) -> bool
        ensures { result ≡ list_any (λ system. system.number == number) self.now }
    {
        self.systems.iter().any(|system| system.number() == number)
    }

    /// Whether the list isn't empty and is so without one occurrence of each system's number.
    pub(crate) fn completes(&self, alloc: Global, rest: &[u32]) -> Result<bool, AllocError>
        ensures { IfOk result (λ answer. answer ≡ completes rest.now self.now) }
    {
        if rest.len() > self.len() {
            return Ok(false);
        }
        if !self.has_first(rest) {
            return Ok(false);
        }
        let mut left = Vec::from_slice(alloc, rest)?;
        self.strike(&mut left);
        Ok(left.is_empty() && left.len() < rest.len())
    }
}

/// Takes the first occurrence of a number out of the list.
fn strike_one(numbers: &mut Vec<u32>, number: u32)
    ensures { numbers.new.items ≡ without numbers.old.items number }
{
    if let Some(place) = place_of(numbers, number) {
        let _ = numbers.remove(place);
    }
}

/// The first place of a number in the list.
fn place_of(numbers: &[u32], number: u32) -> Option<usize>
    ensures { MatchOption result (without numbers.now number ≡ numbers.now)
        (λ place. (place < length numbers.now) × (without numbers.now number ≡ remove numbers.now place)) }
{
    for (place, other) in numbers.iter().enumerate() {
        if *other == number {
            return Some(place);
        }
    }
    None
}
