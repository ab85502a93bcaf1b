//! Storages that show their layout as a slice.

/// A storage whose layout can be read as a slice.
pub trait SliceAccess<T> {
    ghost use Rattle.std.specs.Prelude.{List, ◌≡◌};

    /// What the slice has for a part.
    type Element;

    /// The elements of the slice.
    ghost shown: { Self → List Self.Element };

    /// The layout, as a slice.
    fn as_slice(&self) -> &[Self::Element]
        ensures { result.now ≡ shown self.now };
}
