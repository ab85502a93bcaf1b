//! A finite map from resource ids to values.
ghost use Rattle.std.specs.Prelude.{◌≡◌, ◌≢◌, ◌&&◌, OnOk, OnErr, IfOk, IfErr, Some, None, option_copied, is_some};
ghost use Rattle.std.specs.Prelude.{IsSome, IfSome, IfNone, OnSome, unwrap_or, ℕ, MatchOption, is_ok, false};
ghost use Rattle.std.specs.Option.{option_copied_mut};
ghost use Rattle.std.specs.Borrow.{sem};
ghost use Rattle.std.specs.FinMap as map;
ghost use Rattle.shred_world.specs.Worlds.{value_at, resource_at, resource_or, HasKind, IsThereOr, PutsUnless};
ghost use Rattle.shred_world.specs.Worlds.{IsLeastFrom};
ghost use Rattle.shred_world.specs.Bundles.{holding_of, DefaultsTo};
ghost use Rattle.shred_world.specs.Execs.{ChangesTwo, ChangesBy, CallsWithBundle, CallableWithBundle, IsExecError};
ghost use Rattle.shred_world.specs.ResourceIds.{id_of};
ghost use Rattle.shred_world.specs.Places.{AreSorted, IsPlaceOf, IsGapFor, IsStartOf, first_valued};
ghost use Rattle.shred_world.specs.Lending.{LendsSlot, LendsValue, LendsResource, LendsPresent, LendsInserted};

use crate::{Entry, ExecError, Missing, Resource, ResourceId, SystemData};
use std::alloc::{AllocError, AllocFailed, Global};
use std::marker::{Model, PhantomData};

/// A resource that a world or a view lends.
pub type Fetch<'a, R> = &'a R;

/// A resource that a world or a view lends for writing.
pub type FetchMut<'a, R> = &'a mut R;

/// The resources: a finite map from ids to values of the caller's type.
///
/// A value that is taken out for a while leaves its slot behind, so that it is put back without memory. A slot is found
/// in the logarithm of their number, and at once where the world holds one resource of each lesser kind; a new one
/// costs the moves of those with greater ids.
pub struct World<V> {
    slots: Vec<(ResourceId, Option<V>)>,
}

impl<V> Model for World<V> {
    ghost use Rattle.std.specs.Prelude.{Option};
    ghost use Rattle.std.specs.Coded.{coded_option};
    ghost use Rattle.std.specs.FinMap as map;
    ghost use Rattle.shred_world.specs.ResourceIds.{id_cmp, coded_id};
    ghost use Rattle.shred_world.specs.Places.{AreSorted};

    ghost Value = { map.FinMap id_cmp (Option V) };

    ghost coded = { map.code coded_id (coded_option V.code) };

    ghost view = { λ w. map.from_entries w.slots.items };

    ghost invariant = { λ w. AreSorted w.slots.items };
}

impl<V: Drop> Drop for World<V> {
    fn drop(self) {
        let World { slots } = self;
        drop(slots);
    }
}

impl<V> World<V> {
    /// A world without resources, which takes its memory from `alloc`.
    pub fn empty(alloc: Global) -> World<V>
        ensures { result ≡ map.empty }
    {
        World {
            slots: Vec::new(alloc),
        }
    }

    /// Where the world takes its memory from.
    pub fn alloc(&self) -> Global {
        *self.slots.allocator()
    }

    /// Puts the resource under its type's id; a value that stood there is dropped.
    ///
    /// Errors: want of memory, which hands `resource` back and leaves the world as it was.
    pub fn insert<R: Resource<V>>(&mut self, resource: R) -> Result<(), AllocFailed<R>>
    where
        V: Drop,
        ensures ok { OnOk result (self.new ≡ map.insert self.old (id_of R.kind_number 0) (Some (R.wrapped resource))) }
        ensures err { OnErr result (self.new ≡ self.old) }
        ensures handed_back { IfErr result (λ refused. refused.value ≡ resource) }
    {
        self.insert_by_id(ResourceId::new::<V, R>(), resource)
    }

    /// Puts the resource under `id`; a value that stood there is dropped.
    ///
    /// Errors: want of memory, which hands `resource` back and leaves the world as it was.
    pub fn insert_by_id<R: Resource<V>>(
        &mut self,
        id: ResourceId,
        resource: R,
    ) -> Result<(), AllocFailed<R>>
    where
        V: Drop,
        requires kind { id.kind ≡ R.kind_number }
        ensures ok { OnOk result (self.new ≡ map.insert self.old id (Some (R.wrapped resource))) }
        ensures err { OnErr result (self.new ≡ self.old) }
        ensures handed_back { IfErr result (λ refused. refused.value ≡ resource) }
    {
        match self.insert_raw(id, resource.wrap()) {
            Ok(_was) => Ok(()),
            Err(AllocFailed { value }) => match R::unwrap(value) {
                Ok(resource) => Err(AllocFailed { value: resource }),
                Err(_) => unreachable!(),
            },
        }
    }

    /// Takes the resource out from under its type's id.
    pub fn remove<R: Resource<V>>(&mut self) -> Option<R>
        ensures value { result ≡ resource_at R.part self.old (id_of R.kind_number 0) }
        ensures removed { IfSome result (λ _. self.new ≡ map.remove self.old (id_of R.kind_number 0)) }
        ensures none { IfNone result (self.new ≡ self.old) }
    {
        self.remove_by_id(ResourceId::new::<V, R>())
    }

    /// Takes the resource out from under `id`. A value of another kind stays.
    pub fn remove_by_id<R: Resource<V>>(&mut self, id: ResourceId) -> Option<R>
        requires kind { id.kind ≡ R.kind_number }
        ensures value { result ≡ resource_at R.part self.old id }
        ensures removed { IfSome result (λ _. self.new ≡ map.remove self.old id) }
        ensures none { IfNone result (self.new ≡ self.old) }
    {
        if self.try_fetch_by_id::<R>(id).is_none() {
            return None;
        }
        match self.remove_raw(id) {
            Some(value) => match R::unwrap(value) {
                Ok(resource) => Some(resource),
                Err(_) => unreachable!(),
            },
            None => unreachable!(),
        }
    }

    /// Whether a value stands under the type's id.
    pub fn has_value<R: Resource<V>>(&self) -> bool
        ensures { result ≡ is_some (value_at self.now (id_of R.kind_number 0)) }
    {
        self.has_value_raw(ResourceId::new::<V, R>())
    }

    /// Whether a value stands under `id`.
    pub fn has_value_raw(&self, id: ResourceId) -> bool
        ensures { result ≡ is_some (value_at self.now id) }
    {
        self.get_raw(id).is_some()
    }

    /// Whether the world has a slot under `id`, also one whose value is out.
    pub fn has_slot(&self, id: ResourceId) -> bool
        ensures { result ≡ is_some (map.get self.now id) }
    {
        self.slot(id).is_some()
    }

    /// The resource under its type's id, which is there.
    pub fn fetch<R: Resource<V>>(&self) -> &R
        requires there { IsSome (resource_at R.part self.now (id_of R.kind_number 0)) }
        ensures { Some result.now ≡ resource_at R.part self.now (id_of R.kind_number 0) }
    {
        self.try_fetch::<R>().unwrap()
    }

    /// The resource under its type's id.
    pub fn try_fetch<R: Resource<V>>(&self) -> Option<&R>
        ensures { option_copied result ≡ resource_at R.part self.now (id_of R.kind_number 0) }
    {
        self.try_fetch_by_id::<R>(ResourceId::new::<V, R>())
    }

    /// The resource under `id`.
    pub fn try_fetch_by_id<R: Resource<V>>(&self, id: ResourceId) -> Option<&R>
        requires kind { id.kind ≡ R.kind_number }
        ensures { option_copied result ≡ resource_at R.part self.now id }
    {
        R::view(self.get_raw(id)?)
    }

    /// The resource under its type's id, which is there, for writing.
    pub fn fetch_mut<R: Resource<V>>(&mut self) -> &mut R
        requires there { IsSome (resource_at R.part self.old (id_of R.kind_number 0)) }
        ensures* writes_back { sem 𝓛 (LendsPresent V.row R.row R.wrapped self.entry (id_of R.kind_number 0) result) }
        ensures value { Some result.now ≡ resource_at R.part self.old (id_of R.kind_number 0) }
    {
        self.get_mut::<R>().unwrap()
    }

    /// The resource under its type's id, for writing.
    pub fn try_fetch_mut<R: Resource<V>>(&mut self) -> Option<&mut R>
        ensures* writes_back { sem 𝓛 (LendsResource V.row R.row R.wrapped self.entry (id_of R.kind_number 0) result) }
        ensures value { option_copied_mut result ≡ resource_at R.part self.old (id_of R.kind_number 0) }
    {
        self.try_fetch_mut_by_id::<R>(ResourceId::new::<V, R>())
    }

    /// The resource under `id`, for writing.
    pub fn try_fetch_mut_by_id<R: Resource<V>>(&mut self, id: ResourceId) -> Option<&mut R>
        requires kind { id.kind ≡ R.kind_number }
        ensures* writes_back { sem 𝓛 (LendsResource V.row R.row R.wrapped self.entry id result) }
        ensures value { option_copied_mut result ≡ resource_at R.part self.old id }
    {
        R::view_mut(self.get_mut_raw(id)?)
    }

    /// The resource under its type's id, for writing.
    pub fn get_mut<R: Resource<V>>(&mut self) -> Option<&mut R>
        ensures* writes_back { sem 𝓛 (LendsResource V.row R.row R.wrapped self.entry (id_of R.kind_number 0) result) }
        ensures value { option_copied_mut result ≡ resource_at R.part self.old (id_of R.kind_number 0) }
    {
        self.try_fetch_mut::<R>()
    }

    /// The value under `id`.
    pub fn get_raw(&self, id: ResourceId) -> Option<&V>
        ensures { option_copied result ≡ value_at self.now id }
    {
        self.slot(id)?.as_ref()
    }

    /// The value under `id`, for writing. The caller may leave a value of another kind.
    pub fn get_mut_raw(&mut self, id: ResourceId) -> Option<&mut V>
        ensures* writes_back { sem 𝓛 (LendsValue V.row self.entry id result) }
        ensures value { option_copied_mut result ≡ value_at self.old id }
    {
        self.slot_mut(id)?.as_mut()
    }

    /// Lends the values under two ids to `change` at once, both for writing, where both are there; else `change` isn't called.
    ///
    /// They are out of the world for the while, and come back as they were left; it takes no memory.
    pub fn change_two<T, F: FnOnce(&mut V, &mut V) -> T + Drop>(
        &mut self,
        one: ResourceId,
        other: ResourceId,
        change: F,
    ) -> Option<T>
        requires apart { one ≢ other }
        requires callable { F.IsAlwaysCallable change }
        ensures changed { IfSome result (λ answer. ChangesTwo (F.post change) self.old one other self.new answer) }
        ensures none { IfNone result (self.new ≡ self.old) }
        ensures both { is_some result ≡ (is_some (value_at self.old one) && is_some (value_at self.old other)) }
    {
        if !self.has_value_raw(one) || !self.has_value_raw(other) {
            return None;
        }
        let Some(mut first) = self.take_raw(one) else {
            unreachable!()
        };
        let Some(mut second) = self.take_raw(other) else {
            unreachable!()
        };
        let answer = change(&mut first, &mut second);
        self.put_back(one, first);
        self.put_back(other, second);
        Some(answer)
    }

    /// Lends the values under two ids to `change` at once, the first for reading and the second for writing, where both are there; else
    /// `change` isn't called.
    ///
    /// The second is out of the world for the while, and comes back as it was left; it takes no memory.
    pub fn change_by<T, F: FnOnce(&V, &mut V) -> T + Drop>(
        &mut self,
        read: ResourceId,
        written: ResourceId,
        change: F,
    ) -> Option<T>
        requires apart { read ≢ written }
        requires callable { F.IsAlwaysCallable change }
        ensures changed { IfSome result (λ answer. ChangesBy (F.post change) self.old read written self.new answer) }
        ensures none { IfNone result (self.new ≡ self.old) }
        ensures both { is_some result ≡ (is_some (value_at self.old read) && is_some (value_at self.old written)) }
    {
        if !self.has_value_raw(read) || !self.has_value_raw(written) {
            return None;
        }
        let Some(mut value) = self.take_raw(written) else {
            unreachable!()
        };
        let answer = match self.get_raw(read) {
            Some(seen) => change(seen, &mut value),
            None => unreachable!(),
        };
        self.put_back(written, value);
        Some(answer)
    }

    /// Takes the value under `id` out for a while; its slot stays.
    pub fn take_raw(&mut self, id: ResourceId) -> Option<V>
        ensures value { result ≡ value_at self.old id }
        ensures out { IfSome result (λ _. self.new ≡ map.insert self.old id None) }
        ensures none { IfNone result (self.new ≡ self.old) }
    {
        self.slot_mut(id)?.take()
    }

    /// Makes an empty slot under `id`, where there is none: `put_back` then takes no memory.
    ///
    /// Errors: want of memory, which leaves the world as it was.
    pub fn make_slot(&mut self, id: ResourceId) -> Result<(), AllocError>
    where
        V: Drop,
        ensures ok { OnOk result (PutsUnless (map.get self.old id) self.old id None self.new) }
        ensures err { OnErr result (self.new ≡ self.old) }
    {
        if self.slot(id).is_some() {
            return Ok(());
        }
        self.open_slot(id)
    }

    /// Puts a value back into the slot that was left under `id`.
    pub fn put_back(&mut self, id: ResourceId, value: V)
        requires is_out { map.get self.old id ≡ Some None }
        ensures { self.new ≡ map.insert self.old id (Some value) }
    {
        match self.slot_mut(id) {
            Some(slot) => match slot.replace(value) {
                None => {}
                Some(_) => unreachable!(),
            },
            None => unreachable!(),
        }
    }

    /// Puts the resource under `id`, where no value stands.
    pub(crate) fn insert_absent<R: Resource<V>>(
        &mut self,
        id: ResourceId,
        resource: R,
    ) -> Result<(), AllocFailed<R>>
        requires absent { value_at self.old id ≡ None }
        ensures ok { OnOk result (self.new ≡ map.insert self.old id (Some (R.wrapped resource))) }
        ensures err { OnErr result (self.new ≡ self.old) }
        ensures handed_back { IfErr result (λ refused. refused.value ≡ resource) }
    {
        match self.insert_raw(id, resource.wrap()) {
            Ok(was) => match was {
                None => Ok(()),
                Some(_) => unreachable!(),
            },
            Err(AllocFailed { value }) => match R::unwrap(value) {
                Ok(resource) => Err(AllocFailed { value: resource }),
                Err(_) => unreachable!(),
            },
        }
    }

    /// Puts the resource under its type's id where no value stands, and lends what stands there then.
    pub(crate) fn or_insert<R: Resource<V> + Drop>(
        &mut self,
        resource: R,
    ) -> Result<&mut R, AllocFailed<R>>
        requires kind { HasKind R.part self.old (id_of R.kind_number 0) }
        ensures* writes_back { sem 𝓛 (LendsInserted V.row R.row R.wrapped self.entry (id_of R.kind_number 0) result) }
        ensures value { IfOk result (λ lent. lent.now ≡ resource_or R.part self.old (id_of R.kind_number 0) resource) }
        ensures handed_back { IfErr result (λ refused. refused.value ≡ resource) }
    {
        self.ensure_there(resource)?;
        Ok(self.fetch_mut::<R>())
    }

    /// Puts the resource under its type's id where no value stands.
    fn ensure_there<R: Resource<V> + Drop>(&mut self, resource: R) -> Result<(), AllocFailed<R>>
        ensures ok { OnOk result (PutsUnless (value_at self.old (id_of R.kind_number 0)) self.old
            (id_of R.kind_number 0)
            (Some (R.wrapped resource)) self.new) }
        ensures err { OnErr result (self.new ≡ self.old) }
        ensures handed_back { IfErr result (λ refused. refused.value ≡ resource) }
    {
        if self.has_value::<R>() {
            return Ok(());
        }
        self.insert_absent(ResourceId::new::<V, R>(), resource)
    }

    /// Puts in what `make` gives under the type's id where no value stands, and lends what stands there then.
    pub(crate) fn or_insert_with<R: Resource<V> + Drop, F: FnOnce() -> R + Drop>(
        &mut self,
        make: F,
    ) -> Result<&mut R, AllocError>
        requires kind { HasKind R.part self.old (id_of R.kind_number 0) }
        requires callable { is_some (value_at self.old (id_of R.kind_number 0)) ≡ false → F.pre make }
        ensures* writes_back { sem 𝓛 (LendsInserted V.row R.row R.wrapped self.entry (id_of R.kind_number 0) result) }
        ensures value { IfOk result (λ lent. IsThereOr (F.post make) R.part self.old (id_of R.kind_number 0) lent.now) }
    {
        self.ensure_made(make)?;
        Ok(self.fetch_mut::<R>())
    }

    /// Puts in what `make` gives under the type's id where no value stands.
    fn ensure_made<R: Resource<V> + Drop, F: FnOnce() -> R + Drop>(
        &mut self,
        make: F,
    ) -> Result<(), AllocError>
        requires callable { is_some (value_at self.old (id_of R.kind_number 0)) ≡ false → F.pre make }
        ensures ok { OnOk result (DefaultsTo (F.post make) R.wrapped (id_of R.kind_number 0) self.old self.new) }
        ensures err { OnErr result (self.new ≡ self.old) }
    {
        if !self.has_value::<R>() {
            self.insert_absent(ResourceId::new::<V, R>(), make())?;
        }
        Ok(())
    }

    /// The least dynamic number from `from` on under which the world holds a value of the kind.
    ///
    /// One search, and then a step for each slot of that kind from there on whose value is out, up to the first that
    /// has one.
    pub fn least_id(&self, kind: u32, from: u64) -> Option<u64>
        ensures { IsLeastFrom self.now kind from result }
    {
        let start = start_of(
            &self.slots,
            ResourceId::from_type_id_and_dynamic_id(kind, from),
        );
        first_with_value(&self.slots[start..], kind)
    }

    /// The place under a resource type's id.
    pub fn entry<R: Resource<V>>(&mut self) -> Entry<'_, V, R>
        requires kind { HasKind R.part self.old (id_of R.kind_number 0) }
        ensures same_reference { result.world.ghost_name ≡ self.entry.ghost_name }
        ensures world { result.world.now ≡ self.old }
    {
        Entry {
            world: self,
            resource: PhantomData,
        }
    }

    /// Sets up the resources of a bundle. Errors: want of memory; the resources before the refused one are set up.
    pub fn setup<D: SystemData<V>>(&mut self) -> Result<(), AllocError>
        ensures { D.sets_up (is_ok result) self.old self.new }
    {
        D::setup(self)
    }

    /// Fetches a bundle. Errors: `Missing`, with the first id whose resource is wanting; the world is as it was.
    pub fn system_data<D: SystemData<V>>(&mut self) -> Result<D, Missing>
        ensures found { OnOk result (D.lack (holding_of self.old) ≡ None) }
        ensures missing { IfErr result (λ refused. D.lack (holding_of self.old) ≡ Some refused.id) }
        ensures ok { OnOk result (holding_of self.new ≡ D.left (holding_of self.old)) }
        ensures err { OnErr result (holding_of self.new ≡ holding_of self.old) }
        ensures fits { IfOk result (λ bundle. D.fits bundle (holding_of self.old)) }
        ensures has { IfOk result (λ bundle. D.given bundle (holding_of self.new) ≡ holding_of self.old) }
        ensures can { IfOk result (λ bundle. D.can_give bundle (holding_of self.new)) }
    {
        D::fetch(self)
    }

    /// Sets a bundle up, fetches it, and calls `use_bundle` with it and with this world, to which it gives the bundle back.
    ///
    /// Errors: `Memory`, where the setup was refused; `Missing`, where a resource is still wanting. The closure isn't called.
    pub fn exec<D: SystemData<V>, T, F: FnOnce(D, &mut World<V>) -> T + Drop>(
        &mut self,
        use_bundle: F,
    ) -> Result<T, ExecError>
        requires callable { CallableWithBundle D.can_give (F.pre use_bundle) }
        ensures ok { IfOk result (λ answer.
            CallsWithBundle D.sets_up D.left D.fits (F.post use_bundle) self.old self.new answer) }
        ensures err { IfErr result (λ refused. IsExecError D.sets_up D.lack self.old self.new refused) }
    {
        if self.setup::<D>().is_err() {
            return Err(ExecError::Memory);
        }
        match self.system_data::<D>() {
            Ok(bundle) => Ok(use_bundle(bundle, self)),
            Err(missing) => Err(ExecError::Missing(missing)),
        }
    }

    /// The slot under `id`.
    fn slot(&self, id: ResourceId) -> Option<&Option<V>>
        ensures { option_copied result ≡ map.get self.now id }
    {
        match place_of(&self.slots, id) {
            Ok(place) => Some(&self.slots[place].1),
            Err(_) => None,
        }
    }

    /// The slot under `id`, for writing.
    fn slot_mut(&mut self, id: ResourceId) -> Option<&mut Option<V>>
        ensures* writes_back { sem 𝓛 (LendsSlot V.row self.entry id result) }
        ensures value { option_copied_mut result ≡ map.get self.old id }
    {
        match place_of(&self.slots, id) {
            Ok(place) => Some(&mut self.slots[place].1),
            Err(_) => None,
        }
    }

    /// Puts the value under `id`, and gives back what stood there.
    ///
    /// A value of any kind may stand there: `insert_by_id` puts a resource under an id of its own kind. Values that hold no resource,
    /// such as queues whose content can't be lent for writing, are put in so.
    ///
    /// Errors: want of memory, where the world has no slot for the id; the value is handed back, and the world is as it was.
    pub fn insert_raw(&mut self, id: ResourceId, value: V) -> Result<Option<V>, AllocFailed<V>>
        ensures was_there { IfOk result (λ was. was ≡ value_at self.old id) }
        ensures ok { OnOk result (self.new ≡ map.insert self.old id (Some value)) }
        ensures err { OnErr result (self.new ≡ self.old) }
        ensures handed_back { IfErr result (λ refused. refused.value ≡ value) }
    {
        if let Some(slot) = self.slot_mut(id) {
            return Ok(slot.replace(value));
        }
        match self.add_slot(id, Some(value)) {
            Ok(()) => Ok(None),
            Err(AllocFailed { value: Some(value) }) => Err(AllocFailed { value }),
            Err(_) => unreachable!(),
        }
    }

    /// Puts an empty slot under `id`, where there is none.
    fn open_slot(&mut self, id: ResourceId) -> Result<(), AllocError>
    where
        V: Drop,
        requires absent { map.get self.old id ≡ None }
        ensures ok { OnOk result (self.new ≡ map.insert self.old id None) }
        ensures err { OnErr result (self.new ≡ self.old) }
    {
        match self.add_slot(id, None) {
            Ok(()) => Ok(()),
            Err(_) => Err(AllocError),
        }
    }

    /// Puts a slot under `id`, where there is none: between those with lesser and those with greater ids.
    fn add_slot(&mut self, id: ResourceId, slot: Option<V>) -> Result<(), AllocFailed<Option<V>>>
        requires absent { map.get self.old id ≡ None }
        ensures ok { OnOk result (self.new ≡ map.insert self.old id slot) }
        ensures err { OnErr result (self.new ≡ self.old) }
        ensures handed_back { IfErr result (λ refused. refused.value ≡ slot) }
    {
        match place_of(&self.slots, id) {
            Ok(_) => unreachable!(),
            Err(place) => match self.slots.insert(place, (id, slot)) {
                Ok(()) => Ok(()),
                Err(AllocFailed { value: (_, slot) }) => Err(AllocFailed { value: slot }),
            },
        }
    }

    /// Takes slot and value out.
    fn remove_raw(&mut self, id: ResourceId) -> Option<V>
        ensures value { result ≡ value_at self.old id }
        ensures removed { self.new ≡ map.remove self.old id }
    {
        match place_of(&self.slots, id) {
            Ok(place) => self.slots.remove(place).1,
            Err(_) => None,
        }
    }
}

/// Where the slot of `id` stands, or would stand. The place that is its kind's number is looked at first: in a world
/// that holds each lesser kind under one number the slot stands there.
fn place_of<V>(slots: &[(ResourceId, Option<V>)], id: ResourceId) -> Result<usize, usize>
    requires sorted { AreSorted slots.now }
    ensures found { IfOk result (IsPlaceOf slots.now id) }
    ensures absent { IfErr result (IsGapFor slots.now id) }
{
    let likely = id.kind as usize;
    if likely < slots.len() && slots[likely].0 == id {
        return Ok(likely);
    }
    slots.binary_search_by_key(&id, |slot| slot.0)
}

/// Where the slots of `id` and of greater ids begin.
fn start_of<V>(slots: &[(ResourceId, Option<V>)], id: ResourceId) -> usize
    requires sorted { AreSorted slots.now }
    ensures { IsStartOf slots.now id result }
{
    match place_of(slots, id) {
        Ok(place) => place,
        Err(place) => place,
    }
}

/// The dynamic number of the first slot that has a value, where no slot of another kind stands before it.
fn first_with_value<V>(slots: &[(ResourceId, Option<V>)], kind: u32) -> Option<u64>
    ensures { result ≡ first_valued kind slots.now }
{
    for (id, slot) in slots {
        if id.kind != kind {
            return None;
        }
        if slot.is_some() {
            return Some(id.dynamic);
        }
    }
    None
}
