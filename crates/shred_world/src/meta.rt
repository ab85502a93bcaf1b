//! A table of kinds whose values are walked in order of registration.
ghost use Rattle.std.specs.Prelude.{◌≡◌, ◌==◌, true, false, ℕ, List, [], ◌∷◌, Some, None, OnOk, OnErr, IfNone};
ghost use Rattle.std.specs.Prelude.{IfSome, IsSome, is_some, unwrap_or, option_copied, if◌then◌else◌};
ghost use Rattle.std.specs.Option.{option_copied_mut};
ghost use Rattle.std.specs.List.{list_any};
ghost use Rattle.std.specs.Borrow.{sem};
ghost use Rattle.shred_world.specs.Lending.{LendsValue};
ghost use Rattle.std.specs.Iterator.{YieldsFirstRef, item_count};
ghost use Rattle.shred_world.specs.Worlds.{values_of_kinds, with_kind, value_at, from_first_held, AreDistinct};
ghost use Rattle.shred_world.specs.ResourceIds.{id_of};

use crate::{Resource, ResourceId, World};
use std::alloc::{AllocError, Global};
use std::marker::Model;

/// The kinds that were registered, in order of their first registration.
#[derive(Drop)]
pub struct MetaTable {
    kinds: Vec<u32>,
}

impl Model for MetaTable {
    ghost use Rattle.std.specs.Prelude.{ℕ, List};

    ghost Value = { List ℕ };

    ghost view = { λ table. table.kinds.items };

    ghost use Rattle.shred_world.specs.Worlds.{AreDistinct};

    ghost invariant = { λ table. AreDistinct table.kinds.items };
}

impl MetaTable {
    /// A table without kinds.
    pub fn new(alloc: Global) -> MetaTable
        ensures { result ≡ [] }
    {
        MetaTable {
            kinds: Vec::new(alloc),
        }
    }

    /// Registers the kind of a resource type; one that is registered keeps its place.
    ///
    /// Errors: want of memory, which leaves the table as it was.
    pub fn register<V, R: Resource<V>>(&mut self) -> Result<(), AllocError>
        ensures ok { OnOk result (self.new ≡ with_kind self.old R.kind_number) }
        ensures err { OnErr result (self.new ≡ self.old) }
    {
        let kind = R::kind();
        if !self.has(kind) {
            self.kinds.push(kind)?;
        }
        Ok(())
    }

    /// Whether the kind of a resource type is registered.
    pub fn is_registered<V, R: Resource<V>>(&self) -> bool
        ensures { result ≡ list_any (λ k. k == R.kind_number) self.now }
    {
        self.has(R::kind())
    }

    /// Whether the kind is registered.
    fn has(&self, kind: u32) -> bool
        ensures { result ≡ list_any (λ k. k == kind) self.now }
    {
        self.kinds.iter().any(|k| *k == kind)
    }

    /// The value of a resource type that is registered, where the world holds it under the dynamic number 0.
    pub fn get<'w, V, R: Resource<V>>(&self, world: &'w World<V>) -> Option<&'w V>
        ensures registered { list_any (λ k. k == R.kind_number) self.now ≡ true
            → option_copied result ≡ value_at world.now (id_of R.kind_number 0) }
        ensures other { list_any (λ k. k == R.kind_number) self.now ≡ false → result ≡ None }
    {
        if self.has(R::kind()) {
            world.get_raw(ResourceId::new::<V, R>())
        } else {
            None
        }
    }

    /// The value of a resource type that is registered in the table, for writing.
    pub fn get_mut<'w, V, R: Resource<V>>(
        world: &'w mut World<V>,
        table: &MetaTable,
    ) -> Option<&'w mut V>
        requires registered { list_any (λ k. k == R.kind_number) table.now ≡ true }
        ensures* writes_back { sem 𝓛 (LendsValue V.row world.entry (id_of R.kind_number 0) result) }
        ensures value { option_copied_mut result ≡ value_at world.old (id_of R.kind_number 0) }
    {
        world.get_mut_raw(ResourceId::new::<V, R>())
    }

    /// Walks the same values as `iter`, and lends one at a time for writing.
    pub fn iter_mut(&self) -> MetaIterMut<'_>
        ensures kinds { result.kinds.now ≡ self.now }
        ensures start { result.current ≡ None }
        ensures once { AreDistinct self.now }
    {
        MetaIterMut {
            kinds: self.kinds.as_slice(),
            current: None,
        }
    }

    /// The values of the registered kinds that the world holds under the dynamic number 0, in order of registration.
    pub fn iter<'w, V>(&'w self, world: &'w World<V>) -> MetaIter<'w, V>
        ensures world { result.world.now ≡ world.now }
        ensures kinds { result.kinds.now ≡ self.now }
        ensures once { AreDistinct self.now }
    {
        MetaIter {
            world,
            kinds: self.kinds.as_slice(),
        }
    }
}

/// Walks the values of a table's kinds that a world holds.
#[derive(Drop)]
pub struct MetaIter<'w, V> {
    /// The world.
    pub world: &'w World<V>,
    /// The kinds that are left.
    pub kinds: &'w [u32],
}

impl<'w, V> Iterator for MetaIter<'w, V> {
    type Item = &'w V;

    ghost next_gives = { YieldsFirstRef (λ walk. values_of_kinds walk.world.now walk.kinds.now) };

    ghost remaining = { item_count (λ walk. values_of_kinds walk.world.now walk.kinds.now) };

    fn next(&mut self) -> Option<&'w V> {
        while let Some((kind, others)) = self.kinds.split_first() {
            self.kinds = others;
            if let Some(value) = self.world.get_raw(ResourceId::from_type_id(*kind)) {
                return Some(value);
            }
        }
        None
    }
}

/// Walks the kinds of a table, and lends one value at a time for writing.
#[derive(Drop)]
pub struct MetaIterMut<'t> {
    /// The kinds that are left.
    pub kinds: &'t [u32],
    /// The kind that the walk stands on: none before the first `advance`, and after the last value.
    pub current: Option<u32>,
}

impl MetaIterMut<'_> {
    /// Goes to the next kind whose value the world holds under the dynamic number 0; false where none is left.
    pub fn advance<V>(&mut self, world: &World<V>) -> bool
        ensures moved { result ≡ is_some self.new.current }
        ensures found { IfSome self.new.current (λ kind.
            from_first_held world.now self.old.kinds.now ≡ kind ∷ self.new.kinds.now) }
        ensures end { IfNone self.new.current (from_first_held world.now self.old.kinds.now ≡ []) }
    {
        while let Some((kind, left)) = self.kinds.split_first() {
            self.kinds = left;
            if world.has_value_raw(ResourceId::from_type_id(*kind)) {
                self.current = Some(*kind);
                return true;
            }
        }
        self.current = None;
        false
    }

    /// The value of the kind that the walk stands on.
    pub fn value<'w, V>(world: &'w mut World<V>, walk: &MetaIterMut<'_>) -> Option<&'w mut V>
        requires stands { IsSome walk.now.current }
        ensures* writes_back { sem 𝓛 (LendsValue V.row world.entry (id_of (unwrap_or walk.now.current 0) 0) result) }
        ensures value { option_copied_mut result ≡ value_at world.old (id_of (unwrap_or walk.now.current 0) 0) }
    {
        let kind = walk.current.unwrap_or(0);
        world.get_mut_raw(ResourceId::from_type_id(kind))
    }
}
