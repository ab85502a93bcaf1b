//! Values to which others can be added.
ghost use Rattle.std.specs.Prelude.{◌≡◌, OnOk, OnErr};

use thiserror::Error;

/// A sum that has no place in its type.
#[derive(Debug, Drop, Error)]
#[error("the sum has no place in its type")]
pub struct Overflow;

/// A value to which others can be added.
pub trait Accumulate {
    /// What comes of a value with another added in, where that has a place in the type.
    ghost sum: { Self → Self → Self };

    /// Whether that has a place in the type.
    ghost fits: { Self → Self → Type 0 };

    /// Adds another value in.
    ///
    /// Errors: `Overflow`, where the sum has no place in the type, and the value is as it was.
    fn add_in(&mut self, other: Self) -> Result<(), Overflow>
    where
        Self: Sized,
        ensures ok { OnOk result (self.new ≡ sum self.old other) }
        ensures fits { OnOk result (fits self.old other) }
        ensures err { OnErr result (self.new ≡ self.old) }
        ensures overflow { OnErr result (¬ (fits self.old other)) };
}

impl Accumulate for u8 {
    ghost use Rattle.std.specs.Prelude.{◌+◌, ◌<◌, ◌^◌};

    ghost sum = { λ one other. one + other };

    ghost fits = { λ one other. one + other < 2 ^ 8 };

    fn add_in(&mut self, other: u8) -> Result<(), Overflow> {
        match self.checked_add(other) {
            Some(sum) => {
                *self = sum;
                Ok(())
            }
            None => Err(Overflow),
        }
    }
}

impl Accumulate for u16 {
    ghost use Rattle.std.specs.Prelude.{◌+◌, ◌<◌, ◌^◌};

    ghost sum = { λ one other. one + other };

    ghost fits = { λ one other. one + other < 2 ^ 16 };

    fn add_in(&mut self, other: u16) -> Result<(), Overflow> {
        match self.checked_add(other) {
            Some(sum) => {
                *self = sum;
                Ok(())
            }
            None => Err(Overflow),
        }
    }
}

impl Accumulate for u32 {
    ghost use Rattle.std.specs.Prelude.{◌+◌, ◌<◌, ◌^◌};

    ghost sum = { λ one other. one + other };

    ghost fits = { λ one other. one + other < 2 ^ 32 };

    fn add_in(&mut self, other: u32) -> Result<(), Overflow> {
        match self.checked_add(other) {
            Some(sum) => {
                *self = sum;
                Ok(())
            }
            None => Err(Overflow),
        }
    }
}

impl Accumulate for u64 {
    ghost use Rattle.std.specs.Prelude.{◌+◌, ◌<◌, ◌^◌};

    ghost sum = { λ one other. one + other };

    ghost fits = { λ one other. one + other < 2 ^ 64 };

    fn add_in(&mut self, other: u64) -> Result<(), Overflow> {
        match self.checked_add(other) {
            Some(sum) => {
                *self = sum;
                Ok(())
            }
            None => Err(Overflow),
        }
    }
}

impl Accumulate for u128 {
    ghost use Rattle.std.specs.Prelude.{◌+◌, ◌<◌, ◌^◌};

    ghost sum = { λ one other. one + other };

    ghost fits = { λ one other. one + other < 2 ^ 128 };

    fn add_in(&mut self, other: u128) -> Result<(), Overflow> {
        match self.checked_add(other) {
            Some(sum) => {
                *self = sum;
                Ok(())
            }
            None => Err(Overflow),
        }
    }
}

impl Accumulate for usize {
    ghost use Rattle.std.specs.Prelude.{◌+◌, ◌<◌, ◌^◌};

    ghost sum = { λ one other. one + other };

    ghost fits = { λ one other. one + other < 2 ^ 64 };

    fn add_in(&mut self, other: usize) -> Result<(), Overflow> {
        match self.checked_add(other) {
            Some(sum) => {
                *self = sum;
                Ok(())
            }
            None => Err(Overflow),
        }
    }
}

impl Accumulate for i8 {
    ghost use Rattle.std.specs.Prelude.{◌+ℤ◌, FitsSigned};
    ghost use Rattle.std.specs.Int.{w8};

    ghost sum = { λ one other. one +ℤ other };

    ghost fits = { λ one other. FitsSigned w8 (one +ℤ other) };

    fn add_in(&mut self, other: i8) -> Result<(), Overflow> {
        match self.checked_add(other) {
            Some(sum) => {
                *self = sum;
                Ok(())
            }
            None => Err(Overflow),
        }
    }
}

impl Accumulate for i16 {
    ghost use Rattle.std.specs.Prelude.{◌+ℤ◌, FitsSigned};
    ghost use Rattle.std.specs.Int.{w16};

    ghost sum = { λ one other. one +ℤ other };

    ghost fits = { λ one other. FitsSigned w16 (one +ℤ other) };

    fn add_in(&mut self, other: i16) -> Result<(), Overflow> {
        match self.checked_add(other) {
            Some(sum) => {
                *self = sum;
                Ok(())
            }
            None => Err(Overflow),
        }
    }
}

impl Accumulate for i32 {
    ghost use Rattle.std.specs.Prelude.{◌+ℤ◌, FitsSigned};
    ghost use Rattle.std.specs.Int.{w32};

    ghost sum = { λ one other. one +ℤ other };

    ghost fits = { λ one other. FitsSigned w32 (one +ℤ other) };

    fn add_in(&mut self, other: i32) -> Result<(), Overflow> {
        match self.checked_add(other) {
            Some(sum) => {
                *self = sum;
                Ok(())
            }
            None => Err(Overflow),
        }
    }
}

impl Accumulate for i64 {
    ghost use Rattle.std.specs.Prelude.{◌+ℤ◌, FitsSigned};
    ghost use Rattle.std.specs.Int.{w64};

    ghost sum = { λ one other. one +ℤ other };

    ghost fits = { λ one other. FitsSigned w64 (one +ℤ other) };

    fn add_in(&mut self, other: i64) -> Result<(), Overflow> {
        match self.checked_add(other) {
            Some(sum) => {
                *self = sum;
                Ok(())
            }
            None => Err(Overflow),
        }
    }
}

impl Accumulate for i128 {
    ghost use Rattle.std.specs.Prelude.{◌+ℤ◌, FitsSigned};
    ghost use Rattle.std.specs.Int.{w128};

    ghost sum = { λ one other. one +ℤ other };

    ghost fits = { λ one other. FitsSigned w128 (one +ℤ other) };

    fn add_in(&mut self, other: i128) -> Result<(), Overflow> {
        match self.checked_add(other) {
            Some(sum) => {
                *self = sum;
                Ok(())
            }
            None => Err(Overflow),
        }
    }
}

impl Accumulate for isize {
    ghost use Rattle.std.specs.Prelude.{◌+ℤ◌, FitsSigned};
    ghost use Rattle.std.specs.Int.{w64};

    ghost sum = { λ one other. one +ℤ other };

    ghost fits = { λ one other. FitsSigned w64 (one +ℤ other) };

    fn add_in(&mut self, other: isize) -> Result<(), Overflow> {
        match self.checked_add(other) {
            Some(sum) => {
                *self = sum;
                Ok(())
            }
            None => Err(Overflow),
        }
    }
}
