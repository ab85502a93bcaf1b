//! Masked storages that are lent, for reading or for writing.
use specs_layouts::{Component, MaskedStorage};

/// A masked storage that is lent, in whatever way.
pub trait Loan<T: Component> {
    ghost use Rattle.std.specs.Prelude.{◌≡◌};
    ghost use Rattle.specs_layouts.specs.Masked.{Masked};

    /// The storage that is lent.
    ghost lent: { Self → Masked T.Storage };

    /// The storage, for reading.
    fn storage(&self) -> &MaskedStorage<T>
        ensures { result.now ≡ lent self.now };
}

impl<'e, T: Component + 'e> Loan<T> for &'e MaskedStorage<T>
where
    T::Storage: 'e,
{
    ghost lent = { λ storage. storage.now };

    fn storage(&self) -> &MaskedStorage<T> {
        self
    }
}

impl<'e, T: Component + 'e> Loan<T> for &'e mut MaskedStorage<T>
where
    T::Storage: 'e,
{
    ghost lent = { λ storage. storage.now };

    fn storage(&self) -> &MaskedStorage<T> {
        self
    }
}
