//! The walk of a join.
ghost use Rattle.std.specs.Prelude.{◌≡◌, ℕ, ◌+◌, ◌-◌, ◌<◌, ◌≤◌, None, IfNone};
ghost use Rattle.std.specs.Iterator.{YieldsFirstBy};
ghost use Rattle.hibitset_sets.specs.Walk.{words_walked};
ghost use Rattle.specs_entity.specs.Births.{IsAlive};
ghost use Rattle.specs_join.specs.Joins.{join_list, shown_of};
ghost use Rattle.specs_join.specs.Joining.{items_left, found};

use super::Join;
use hibitset::{BitIter, BitSetLike, Counter, Index, MAX_EID, Uncounted};
use specs_entity::{EntitiesRes, Entity};
use std::alloc::AllocError;
use std::marker::Model;

/// A walk over the items of a join, ascending by index. Items can be looked up by index too.
#[derive(Drop)]
pub struct JoinIter<J: Join> {
    keys: BitIter<J::Mask>,
    values: J::Value,
}

impl<J: Join> Model for JoinIter<J> {
    ghost use Rattle.hibitset_sets.specs.Iter.{left_of, unread, walked_set};
    ghost use Rattle.specs_join.specs.Joining.{Joining, joining_code, IsJoining};

    ghost Value = { Joining J.Mask J.Value };

    ghost coded = { joining_code J.Mask.code J.Value.code };

    ghost view = { λ it. record {
      indices = left_of J.Mask.members it.keys;
      mask = walked_set it.keys;
      values = it.values;
      unread = unread J.Mask.reads J.Mask.words it.keys;
    } };

    ghost invariant = { λ it. IsJoining (J.Mask.members (walked_set it.keys)) (J.value_at it.values)
        (left_of J.Mask.members it.keys) };
}

impl<J: Join> JoinIter<J> {
    /// A walk over the items of a join, as `Join::join` gives it.
    pub fn new(join: J) -> Self
        ensures items { items_left J.value_at result ≡ join_list (J.joins join) }
        ensures found { (index : ℕ) → index < 16777216
            → found J.Mask.members J.value_at result index ≡ J.joins join index }
    {
        JoinIter::new_counted(join, &mut Uncounted)
    }

    /// The same walk, telling of the words that making it reads from the mask.
    pub fn new_counted<C: Counter>(join: J, count: &mut C) -> Self
        ensures items { items_left J.value_at result ≡ join_list (J.joins join) }
        ensures found { (index : ℕ) → index < 16777216
            → found J.Mask.members J.value_at result index ≡ J.joins join index }
        ensures mask { J.opens join result.mask }
        ensures unread { J.Mask.reads result.mask 3 + result.unread
            ≡ words_walked (J.Mask.reads result.mask) (J.Mask.words result.mask) }
        ensures counted { C.ticked count.old (J.Mask.reads result.mask 3) count.new }
    {
        let (mask, values) = join.open();
        JoinIter {
            keys: mask.iter_counted(count),
            values,
        }
    }

    /// The item at the index of an entity that is alive, or none where the join has none there.
    ///
    /// An entity that isn't alive has no item, whatever its index has.
    pub fn get(&self, entity: Entity, entities: &EntitiesRes) -> Option<J::Type>
        ensures alive { IsAlive entities.now entity
            → shown_of J.show result ≡ found J.Mask.members J.value_at self.now entity.id }
        ensures dead { ¬ (IsAlive entities.now entity) → result ≡ None }
    {
        if entities.is_alive(entity) {
            self.get_unchecked(entity.id())
        } else {
            None
        }
    }

    /// The item at an index, or none where the join has none there. No entity is asked whether it is
    /// alive. From `MAX_EID` on there is none.
    pub fn get_unchecked(&self, index: Index) -> Option<J::Type>
        ensures { shown_of J.show result ≡ found J.Mask.members J.value_at self.now index }
    {
        if (index as usize) < MAX_EID && self.keys.contains(index) {
            Some(J::get(&self.values, index))
        } else {
            None
        }
    }

    /// The next item, telling of each word that is read from the mask.
    pub fn next_counted<C: Counter>(&mut self, count: &mut C) -> Option<J::Type>
        ensures item { YieldsFirstBy J.show (items_left J.value_at) self.old result self.new }
        ensures mask { self.new.mask ≡ self.old.mask }
        ensures values { self.new.values ≡ self.old.values }
        ensures fewer { self.new.unread ≤ self.old.unread }
        ensures ended { IfNone result (self.new.unread ≡ 0) }
        ensures counted { C.ticked count.old (self.old.unread - self.new.unread) count.new }
    {
        match self.keys.next_counted(count) {
            Some(id) => Some(J::get(&self.values, id)),
            None => None,
        }
    }
}

impl<J: Join> Clone for JoinIter<J>
where
    J::Mask: Copy,
    J::Value: Copy,
{
    ghost use Rattle.std.specs.Prelude.{◌≡◌, ⊤};

    ghost is_clone = { λ one other. other ≡ one };

    ghost is_infallible = { λ _. ⊤ };

    /// The same walk, from where this one stands. Takes no memory.
    fn clone(&self) -> Result<JoinIter<J>, AllocError> {
        Ok(JoinIter {
            keys: self.keys.clone()?,
            values: self.values,
        })
    }
}

impl<J: Join> Iterator for JoinIter<J> {
    type Item = J::Type;

    ghost use Rattle.std.specs.Iterator.{YieldsFirstBy, item_count};
    ghost use Rattle.specs_join.specs.Joining.{items_left};

    ghost next_gives = { YieldsFirstBy J.show (items_left J.value_at) };

    ghost remaining = { item_count (items_left J.value_at) };

    fn next(&mut self) -> Option<J::Type> {
        self.next_counted(&mut Uncounted)
    }
}
