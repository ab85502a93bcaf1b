//! Components that the tests put into storages, one for each layout.
use specs_layouts::{
    BTreeStorage, Component, DefaultVecStorage, DenseVecStorage, HashMapStorage, MaskedStorage,
    NullStorage, Single, TryDefault, VecStorage,
};
use std::alloc::Global;

/// A part that is made of a number, or by default.
pub trait Numbered: Component + Default {
    fn made(number: u32) -> Self;

    fn number(&self) -> u32;

    fn set(&mut self, number: u32);
}

#[derive(Default, Drop)]
pub struct Level(pub u32);

impl Component for Level {
    type Storage = VecStorage<Level>;
}

impl Numbered for Level {
    fn made(number: u32) -> Level {
        Level(number)
    }

    fn number(&self) -> u32 {
        self.0
    }

    fn set(&mut self, number: u32) {
        self.0 = number;
    }
}

#[derive(Default, Drop)]
pub struct Speed(pub u32);

impl Component for Speed {
    type Storage = DenseVecStorage<Speed>;
}

impl Numbered for Speed {
    fn made(number: u32) -> Speed {
        Speed(number)
    }

    fn number(&self) -> u32 {
        self.0
    }

    fn set(&mut self, number: u32) {
        self.0 = number;
    }
}

#[derive(Default, Drop)]
pub struct Heat(pub u32);

impl Component for Heat {
    type Storage = DefaultVecStorage<Heat>;
}

impl Numbered for Heat {
    fn made(number: u32) -> Heat {
        Heat(number)
    }

    fn number(&self) -> u32 {
        self.0
    }

    fn set(&mut self, number: u32) {
        self.0 = number;
    }
}

#[derive(Drop)]
pub enum Mood {
    Calm,
    Angry(u32),
}

impl Default for Mood {
    fn default() -> Mood {
        Mood::Calm
    }
}

impl Component for Mood {
    type Storage = HashMapStorage<Mood>;
}

impl Numbered for Mood {
    fn made(number: u32) -> Mood {
        if number == 0 {
            Mood::Calm
        } else {
            Mood::Angry(number)
        }
    }

    fn number(&self) -> u32 {
        match self {
            Mood::Calm => 0,
            Mood::Angry(number) => *number,
        }
    }

    fn set(&mut self, number: u32) {
        *self = Mood::made(number);
    }
}

#[derive(Default, Drop)]
pub struct Mass(pub u32);

impl Component for Mass {
    type Storage = BTreeStorage<Mass>;
}

impl Numbered for Mass {
    fn made(number: u32) -> Mass {
        Mass(number)
    }

    fn number(&self) -> u32 {
        self.0
    }

    fn set(&mut self, number: u32) {
        self.0 = number;
    }
}

/// A flag, whose number is 1.
#[derive(Default, Drop)]
pub struct Frozen;

impl Single for Frozen {
    ghost use Rattle.std.specs.Prelude.{refl};

    ghost same = { λ _ _. refl };
}

impl Component for Frozen {
    type Storage = NullStorage<Frozen>;
}

impl Numbered for Frozen {
    fn made(_number: u32) -> Frozen {
        Frozen
    }

    fn number(&self) -> u32 {
        1
    }

    fn set(&mut self, _number: u32) {}
}

/// A storage without parts.
pub fn made<C: Component>(alloc: Global) -> Option<MaskedStorage<C>> {
    match C::Storage::try_default(alloc) {
        Ok(inner) => Some(MaskedStorage::new(alloc, inner)),
        Err(_) => None,
    }
}

/// The layouts of storages.
#[derive(Clone, Copy)]
pub enum Layout {
    Vec,
    DenseVec,
    DefaultVec,
    HashMap,
    BTree,
    Null,
}
