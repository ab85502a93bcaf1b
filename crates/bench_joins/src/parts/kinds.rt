//! The parts that are measured, a kind for each storage.
ghost use Rattle.std.specs.Prelude.{refl};

use specs_layouts::{
    BTreeStorage, Component, DefaultVecStorage, DenseVecStorage, HashMapStorage, MaskedStorage,
    NullStorage, Single, TryDefault, VecStorage,
};
use std::alloc::{AllocError, Global};

/// A part that is made of a number, and shows it.
pub trait Numbered: Component {
    /// The part of a number.
    fn made(number: u32) -> Self;

    /// The number that it was made of, where its kind keeps one.
    fn number(&self) -> u32;
}

/// A part in a `VecStorage`.
#[derive(Drop)]
pub struct Mass(u32);

impl Component for Mass {
    type Storage = VecStorage<Mass>;
}

impl Numbered for Mass {
    fn made(number: u32) -> Mass {
        Mass(number)
    }

    fn number(&self) -> u32 {
        self.0
    }
}

/// A part in a `DenseVecStorage`.
#[derive(Drop)]
pub struct Speed(u32);

impl Component for Speed {
    type Storage = DenseVecStorage<Speed>;
}

impl Numbered for Speed {
    fn made(number: u32) -> Speed {
        Speed(number)
    }

    fn number(&self) -> u32 {
        self.0
    }
}

/// A second kind of part in a `DenseVecStorage`.
#[derive(Drop)]
pub struct Fuel(u32);

impl Component for Fuel {
    type Storage = DenseVecStorage<Fuel>;
}

impl Numbered for Fuel {
    fn made(number: u32) -> Fuel {
        Fuel(number)
    }

    fn number(&self) -> u32 {
        self.0
    }
}

/// A part in a `DefaultVecStorage`.
#[derive(Default, Drop)]
pub struct Heat(u32);

impl Component for Heat {
    type Storage = DefaultVecStorage<Heat>;
}

impl Numbered for Heat {
    fn made(number: u32) -> Heat {
        Heat(number)
    }

    fn number(&self) -> u32 {
        self.0
    }
}

/// A part in a `HashMapStorage`.
#[derive(Drop)]
pub struct Name(u32);

impl Component for Name {
    type Storage = HashMapStorage<Name>;
}

impl Numbered for Name {
    fn made(number: u32) -> Name {
        Name(number)
    }

    fn number(&self) -> u32 {
        self.0
    }
}

/// A part in a `BTreeStorage`.
#[derive(Drop)]
pub struct Rank(u32);

impl Component for Rank {
    type Storage = BTreeStorage<Rank>;
}

impl Numbered for Rank {
    fn made(number: u32) -> Rank {
        Rank(number)
    }

    fn number(&self) -> u32 {
        self.0
    }
}

/// A part in a `NullStorage`, of which each shows 1.
#[derive(Default, Drop)]
pub struct Frozen;

impl Single for Frozen {
    ghost same = { λ _ _. refl };
}

impl Component for Frozen {
    type Storage = NullStorage<Frozen>;
}

impl Numbered for Frozen {
    fn made(_number: u32) -> Frozen {
        Frozen
    }

    fn number(&self) -> u32 {
        1
    }
}

/// A storage without parts.
///
/// Errors: `AllocError`, also where the layout has no default.
pub fn empty<C: Numbered>(alloc: Global) -> Result<MaskedStorage<C>, AllocError> {
    match C::Storage::try_default(alloc) {
        Ok(inner) => Ok(MaskedStorage::new(alloc, inner)),
        Err(_) => Err(AllocError),
    }
}

/// Puts a part at every `step`-th index below `end`, and answers how many had none there.
///
/// Errors: `AllocError`, and the parts before are in.
pub fn fill<C: Numbered>(
    storage: &mut MaskedStorage<C>,
    end: u32,
    step: u32,
) -> Result<u32, AllocError> {
    let mut new = 0u32;
    for id in 0..end {
        if step != 0 && id % step == 0 && id < 16_777_216 {
            match storage.insert(id, C::made(id)) {
                Ok(None) => new = new.wrapping_add(1),
                Ok(Some(_)) => {}
                Err(_) => return Err(AllocError),
            }
        }
    }
    Ok(new)
}
