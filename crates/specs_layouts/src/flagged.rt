//! A storage that tells of each change of its parts through a channel.
ghost use Rattle.std.specs.Prelude.{◌≡◌};
ghost use Rattle.specs_layouts.specs.Flagged.{tells};

use crate::{
    ComponentEvent, DenseVecStorage, DistinctStorage, EventChannel, Tracked, TryDefault,
    UnprotectedStorage,
};
use hibitset_sets::{BitSetLike, Index};
use std::alloc::{AllocError, AllocFailed, Global};
use std::marker::{Model, PhantomData};

/// A layout of parts with a channel that is told of each change of a part: `Inserted` where a part is put at an index
/// that has none, `Modified` where one is lent for writing or written over, `Removed` where one is taken out or dropped.
/// `clean` tells of nothing.
///
/// Changes are told while emission is on, as it is at first, and the channel has a reader: without readers nobody
/// could miss an event, and the channel takes no memory. The layout below tells of nothing itself.
///
/// A component is tracked by its storage: `type Storage = FlaggedStorage<Self, VecStorage<Self>>;`. The name and
/// the events are those of `specs`.
#[derive(Drop)]
pub struct FlaggedStorage<T, S = DenseVecStorage<T>> {
    channel: EventChannel<ComponentEvent>,
    inner: S,
    emission: bool,
    part: PhantomData<T>,
}

impl<T, S> Model for FlaggedStorage<T, S> {
    ghost use Rattle.specs_layouts.specs.Flagged.{Flagged};

    ghost Value = { Flagged S };

    ghost view = { λ s. record { inner = s.inner; channel = s.channel; emission = s.emission } };
}

impl<T, S> FlaggedStorage<T, S> {
    ghost use Rattle.std.specs.Prelude.{[], true};

    /// A storage over a layout, with emission on and no reader. Takes no memory.
    ///
    /// Where the layout has a default, `try_default` makes one over that.
    pub fn over(alloc: Global, inner: S) -> Self
        ensures inner { result.inner ≡ inner }
        ensures held { result.channel.held ≡ [] }
        ensures places { result.channel.places ≡ [] }
        ensures emission { result.emission ≡ true }
    {
        FlaggedStorage {
            channel: EventChannel::new(alloc),
            inner,
            emission: true,
            part: PhantomData,
        }
    }

    /// The layout that holds the parts.
    pub fn inner(&self) -> &S
        ensures { result.now ≡ self.now.inner }
    {
        &self.inner
    }

    /// A storage of these: the layout that holds the parts, the channel, and whether emission is on. What was changed in
    /// the layout while it was apart is told by no event.
    pub fn from_parts(inner: S, channel: EventChannel<ComponentEvent>, emission: bool) -> Self
        ensures inner { result.inner ≡ inner }
        ensures channel { result.channel ≡ channel }
        ensures emission { result.emission ≡ emission }
    {
        FlaggedStorage {
            channel,
            inner,
            emission,
            part: PhantomData,
        }
    }

    /// The layout that holds the parts, the channel, and whether emission is on. Changes of the layout are told to nobody:
    /// who makes some where someone reads (`is_telling`) has to write the events itself.
    pub fn into_parts(self) -> (S, EventChannel<ComponentEvent>, bool)
        ensures inner { result.0 ≡ self.inner }
        ensures channel { result.1 ≡ self.channel }
        ensures emission { result.2 ≡ self.emission }
    {
        (self.inner, self.channel, self.emission)
    }

    /// Whether a change is told: emission is on, and the channel has a reader.
    pub fn is_telling(&self) -> bool
        ensures { result ≡ tells self.now }
    {
        self.emission && self.channel.has_readers()
    }
}

impl<T, S: TryDefault> TryDefault for FlaggedStorage<T, S> {
    ghost use Rattle.std.specs.Prelude.{[], true};
    ghost use Rattle.specs_layouts.specs.Flagged.{IsFresh};

    ghost is_default = { IsFresh S.is_default };

    ghost always = { S.always };

    fn try_default(alloc: Global) -> Result<Self, &'static str> {
        match S::try_default(alloc) {
            Ok(inner) => Ok(FlaggedStorage::over(alloc, inner)),
            Err(text) => Err(text),
        }
    }
}

impl<T: Drop, S: DistinctStorage<T>> UnprotectedStorage<T> for FlaggedStorage<T, S> {
    ghost use Rattle.std.specs.Prelude.{refl};
    ghost use Rattle.specs_layouts.specs.Channels.{log_of};
    ghost use Rattle.specs_layouts.specs.Flagged.{tells, written_flagged, has_room_for};
    ghost use Rattle.specs_layouts.specs.FlaggedLemmas.{written-room, written-tells, room-fewer};

    ghost part_at = { λ s. S.part_at s.inner };

    ghost written = { written_flagged S.written };

    ghost events = { λ s. log_of s.channel };

    ghost emits = { tells };

    ghost has_room = { has_room_for };

    ghost written_puts = { λ s. S.written_puts s.inner };

    ghost written_tells = { written-tells S.written };

    ghost written_emits = { λ _ _ _. refl };

    ghost written_room = { written-room S.written };

    ghost room_for_fewer = { room-fewer };

    ghost starts_empty = { λ s fresh. S.starts_empty s.inner fresh.inner };

    fn clean<B: BitSetLike + Drop>(&mut self, has: B) {
        self.inner.clean(has);
    }

    fn get(&self, id: Index) -> &T {
        self.inner.get(id)
    }

    fn get_mut(&mut self, id: Index) -> Result<&mut T, AllocError> {
        if self.is_telling() {
            self.channel.single_write(ComponentEvent::Modified(id))?;
        }
        self.inner.get_mut(id)
    }

    fn insert(&mut self, id: Index, part: T) -> Result<(), AllocFailed<T>> {
        let telling = self.is_telling();
        if telling && self.channel.reserve_one().is_err() {
            return Err(AllocFailed { value: part });
        }
        self.inner.insert(id, part)?;
        if telling {
            self.channel.write_reserved(ComponentEvent::Inserted(id));
        }
        Ok(())
    }

    fn remove(&mut self, id: Index) -> Result<T, AllocError> {
        let telling = self.is_telling();
        if telling {
            self.channel.reserve_one()?;
        }
        let part = self.inner.remove(id)?;
        if telling {
            self.channel.write_reserved(ComponentEvent::Removed(id));
        }
        Ok(part)
    }

    fn make_room(&mut self, count: usize) -> Result<(), AllocError> {
        if self.is_telling() {
            self.channel.reserve(count)?;
        }
        Ok(())
    }
}

impl<T: Drop, S: DistinctStorage<T>> Tracked<T> for FlaggedStorage<T, S> {
    ghost use Rattle.std.specs.Prelude.{refl};

    ghost channel_of = { λ s. s.channel };

    ghost emission_of = { λ s. s.emission };

    ghost with_channel = { λ s c. record { inner = s.inner; channel = c; emission = s.emission } };

    ghost with_emission = { λ s on. record { inner = s.inner; channel = s.channel; emission = on } };

    ghost holds = { λ _. refl };

    ghost tells = { λ _. refl };

    ghost channel_parts = { λ _ _ _. refl };

    ghost channel_put = { λ _ _. refl };

    ghost channel_emission = { λ _ _. refl };

    ghost channel_kept = { λ _. refl };

    ghost emission_parts = { λ _ _ _. refl };

    ghost emission_put = { λ _ _. refl };

    ghost emission_channel = { λ _ _. refl };

    fn channel(&self) -> &EventChannel<ComponentEvent> {
        &self.channel
    }

    fn channel_mut(&mut self) -> &mut EventChannel<ComponentEvent> {
        &mut self.channel
    }

    fn event_emission(&self) -> bool {
        self.emission
    }

    fn set_event_emission(&mut self, emission: bool) {
        self.emission = emission;
    }
}
