//! Groups that may run at the same time, and the ways in which a stage takes a system in.
ghost use Rattle.std.specs.Prelude.{◌≡◌, true, ◌==◌, ◌≤◌, ◌<◌, ◌&&◌, ℕ, [], ◌∷◌, ◌++◌, length, map, count_by, OnOk};
ghost use Rattle.std.specs.Prelude.{OnErr, IfOk, IfErr, IfSome, OnSome, if◌then◌else◌, None};
ghost use Rattle.std.specs.List.{position};
ghost use Rattle.std.specs.Option.{option_map};
ghost use Rattle.shred_plan.specs.Plan.{hits, joins, completes, longest, rest_after, systems_of, admitted, taken};
ghost use Rattle.shred_plan.specs.Places.{HasRoom};
ghost use Rattle.shred_plan.specs.Index.{is_blocked, is_loose};

use crate::{Adding, Group};
use std::alloc::{AllocError, AllocFailed, Global};
use std::marker::Model;

/// The greatest number of systems in a group.
const GROUP_SYSTEMS: usize = 4;

/// How a stage takes a system in.
#[derive(Clone, Copy, Debug, PartialEq, Eq)]
pub enum Way {
    /// As a group of its own, after the others.
    Alone,
    /// At the end of the group at this place.
    Behind(usize),
}

/// Groups that may run at the same time.
#[derive(Drop)]
pub struct Stage<K> {
    groups: Vec<Group<K>>,
    longest_time: u32,
}

impl<K> Model for Stage<K> {
    ghost use Rattle.std.specs.Prelude.{◌≡◌, ◌≤◌, List};
    ghost use Rattle.shred_plan.specs.Plan.{Placing, longest};

    ghost Value = { List (List (Placing K)) };

    ghost view = { λ stage. stage.groups.items };

    ghost invariant = { λ stage. (stage.longest_time ≡ longest stage.groups.items) × (stage.longest_time ≤ 20) };
}

impl<K: PartialEq + Drop> Stage<K> {
    /// A stage of one group of one system.
    pub(crate) fn of(alloc: Global, adding: Adding<K>) -> Result<Stage<K>, AllocFailed<Adding<K>>>
        ensures ok { IfOk result (λ stage. stage ≡ (adding ∷ []) ∷ []) }
        ensures handed_back { IfErr result (λ refused. refused.value ≡ adding) }
    {
        let mut stage = Stage {
            groups: Vec::new(alloc),
            longest_time: 0,
        };
        match stage.take(alloc, adding, Way::Alone) {
            Ok(()) => Ok(stage),
            Err(refused) => Err(refused),
        }
    }

    /// The groups.
    pub fn groups(&self) -> &[Group<K>]
        ensures { result.now ≡ self.now }
    {
        self.groups.as_slice()
    }

    /// How many groups it has.
    pub fn len(&self) -> usize
        ensures { result ≡ length self.now }
    {
        self.groups.len()
    }

    /// How many units of time its longest group takes, at most 20.
    pub fn longest(&self) -> u32
        ensures value { result ≡ longest self.now }
        ensures range { result ≤ 20 }
    {
        self.longest_time
    }

    /// Whether one of its groups has room, and is shorter than the longest.
    pub(crate) fn is_loose(&self) -> bool
        ensures { result ≡ is_loose self.now }
    {
        self.groups.iter().any(|group| group.len() < GROUP_SYSTEMS && group.time() < self.longest())
    }

    /// Puts the numbers of its systems at the end of a list, group by group.
    ///
    /// Errors: want of memory, after some numbers.
    pub(crate) fn list_numbers(&self, list: &mut Vec<u32>) -> Result<(), AllocError>
        ensures { OnOk result (list.new.items ≡ list.old.items ++ map (λ system. system.number) (systems_of self.now)) }
    {
        for group in self.groups() {
            group.list_numbers(list)?;
        }
        Ok(())
    }

    /// Takes one occurrence of the number of each of its systems out of the list.
    pub(crate) fn strike(&self, rest: &mut Vec<u32>)
        ensures { rest.new.items ≡ rest_after rest.old.items (systems_of self.now) }
    {
        for group in self.groups() {
            group.strike(rest);
        }
    }

    /// The way in which it admits a system, where those that the system comes after that stand in no earlier stage are the rest.
    ///
    /// Errors: want of memory.
    pub(crate) fn way(
        &self,
        alloc: Global,
        adding: &Adding<K>,
        rest: &[u32],
    ) -> Result<Option<Way>, AllocError>
        ensures value { IfOk result (λ way. way ≡ admitted K.eq adding.now rest.now self.now) }
    {
        let hits = self.count_hit(adding);
        if hits == 0 {
            if rest.is_empty() {
                Ok(Some(Way::Alone))
            } else {
                Ok(self.place_of_wanted(alloc, adding, rest)?.map(Way::Behind))
            }
        } else if hits == 1 && rest.is_empty() {
            Ok(self.place_of_hit(adding).map(Way::Behind))
        } else {
            Ok(None)
        }
    }

    /// The way in which it admits a system that conflicts with one of its systems, and comes after nothing that is left.
    ///
    /// The groups are counted only where one of them may be joined.
    pub(crate) fn joined_way(&self, adding: &Adding<K>) -> Option<Way>
        requires { is_blocked K.eq adding.now self.now ≡ true }
        ensures { result ≡ admitted K.eq adding.now [] self.now }
    {
        let place = self.place_of_hit(adding)?;
        if self.count_hit(adding) == 1 {
            Some(Way::Behind(place))
        } else {
            None
        }
    }

    /// With how many groups a system conflicts.
    fn count_hit(&self, adding: &Adding<K>) -> usize
        ensures { result ≡ count_by (hits K.eq adding.now) self.now }
    {
        self.groups
            .iter()
            .filter(|group| group.is_hit_by(adding))
            .count()
    }

    /// The place of the first group with which a system conflicts and that it may join.
    fn place_of_hit(&self, adding: &Adding<K>) -> Option<usize>
        ensures { result ≡ position (λ group. hits K.eq adding.now group && joins adding.now self.now group) self.now }
    {
        self.groups.iter().position(|group| self.may_join(adding, group) && group.is_hit_by(adding))
    }

    /// The place of the first group that has all that is left of those that a system comes after, and that it may join.
    pub(crate) fn place_of_wanted(
        &self,
        alloc: Global,
        adding: &Adding<K>,
        rest: &[u32],
    ) -> Result<Option<usize>, AllocError>
        ensures { IfOk result (λ place. place
            ≡ position (λ group. completes rest.now group && joins adding.now self.now group) self.now) }
    {
        for (place, group) in self.groups().iter().enumerate() {
            if self.may_complete(alloc, adding, rest, group)? {
                return Ok(Some(place));
            }
        }
        Ok(None)
    }

    /// Whether a group has all that is left of those that a system comes after, and the system may join it.
    fn may_complete(
        &self,
        alloc: Global,
        adding: &Adding<K>,
        rest: &[u32],
        group: &Group<K>,
    ) -> Result<bool, AllocError>
        ensures { IfOk result (λ answer. answer
            ≡ (completes rest.now group.now && joins adding.now self.now group.now)) }
    {
        if !self.may_join(adding, group) {
            return Ok(false);
        }
        group.completes(alloc, rest)
    }

    /// Whether a system may go to the end of a group, by the number of the group's systems and by its time.
    fn may_join(&self, adding: &Adding<K>, group: &Group<K>) -> bool
        ensures { result ≡ joins adding.now self.now group.now }
    {
        group.len() < GROUP_SYSTEMS
            && adding.units() < 2 * self.longest().saturating_sub(group.time())
    }

    /// Takes a system in.
    ///
    /// Errors: want of memory, which leaves the stage as it was and hands the system back.
    pub(crate) fn take(
        &mut self,
        alloc: Global,
        adding: Adding<K>,
        way: Way,
    ) -> Result<(), AllocFailed<Adding<K>>>
        requires { HasRoom self.old way }
        ensures ok { OnOk result (self.new ≡ taken adding self.old way) }
        ensures err { OnErr result (self.new ≡ self.old) }
        ensures handed_back { IfErr result (λ refused. refused.value ≡ adding) }
    {
        match way {
            Way::Alone => self.open(alloc, adding),
            Way::Behind(place) => {
                let group = &mut self.groups[place];
                if let Err(refused) = group.push(adding) {
                    return Err(refused);
                }
                let time = group.time();
                self.longest_time = self.longest_time.max(time);
                Ok(())
            }
        }
    }

    /// Takes a system in as a group of its own.
    fn open(&mut self, alloc: Global, adding: Adding<K>) -> Result<(), AllocFailed<Adding<K>>>
        ensures ok { OnOk result (self.new ≡ self.old ++ (adding ∷ []) ∷ []) }
        ensures err { OnErr result (self.new ≡ self.old) }
        ensures handed_back { IfErr result (λ refused. refused.value ≡ adding) }
    {
        if self.groups.reserve(1).is_err() {
            return Err(AllocFailed { value: adding });
        }
        let units = adding.units();
        let group = match Group::of(alloc, adding) {
            Ok(group) => group,
            Err(refused) => return Err(refused),
        };
        self.groups.push_reserved(group);
        self.longest_time = self.longest_time.max(units);
        Ok(())
    }
}
