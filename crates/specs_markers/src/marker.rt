//! What a marker is.
ghost use Rattle.std.specs.Prelude.{◌≡◌};

use crate::allocator::MarkerAllocator;
use specs_layouts::Component;

/// A part by which an entity is known across worlds: its id stays when the entity is saved and loaded.
///
/// The name and the calls are those of `specs`.
pub trait Marker: Component + Sized {
    /// What tells markers apart.
    type Identifier: Drop;

    /// What gives markers of this kind.
    type Allocator: MarkerAllocator<Self>;

    /// The id of a marker.
    ghost id_of: { Self → Self.Identifier };

    /// The id of the marker.
    fn id(&self) -> Self::Identifier
        ensures { result ≡ id_of self.now };

    /// Takes up what a marker says that was loaded for the same entity. By default the new marker takes the
    /// place of this one.
    fn update(&mut self, new: Self)
        ensures { id_of self.new ≡ id_of new }
    {
        *self = new;
    }
}
