//! Where bundles are fetched from: a world, or a view that a system is lent.
ghost use Rattle.std.specs.Prelude.{◌≡◌, IfSome, IfNone, option_copied};
ghost use Rattle.shred_world.specs.Bundles.{Holding, readable, takable, with_slot, out, owned, holding_of};

use crate::{ResourceId, World};

/// What holds values under ids, each for reading alone or for taking out.
pub trait Holder<V> {
    ghost use Rattle.shred_world.specs.Bundles.{Holding};

    /// Each id's slot.
    ghost slots: { Self → Holding V };

    /// The value under `id`.
    fn value(&self, id: ResourceId) -> Option<&V>
        ensures { option_copied result ≡ readable (slots self.now id) };

    /// Takes the value under `id` out; its slot stays.
    fn take(&mut self, id: ResourceId) -> Option<V>
        ensures value { result ≡ takable (slots self.old id) }
        ensures ok { IfSome result (λ _. slots self.new ≡ with_slot (slots self.old) id out) }
        ensures none { IfNone result (slots self.new ≡ slots self.old) };

    /// Puts a value back into the slot that was left under `id`.
    fn put(&mut self, id: ResourceId, value: V)
        requires is_out { slots self.old id ≡ out }
        ensures { slots self.new ≡ with_slot (slots self.old) id (owned value) };
}

impl<V> Holder<V> for World<V> {
    ghost slots = { holding_of };

    fn value(&self, id: ResourceId) -> Option<&V> {
        self.get_raw(id)
    }

    fn take(&mut self, id: ResourceId) -> Option<V> {
        self.take_raw(id)
    }

    fn put(&mut self, id: ResourceId, value: V) {
        self.put_back(id, value)
    }
}
