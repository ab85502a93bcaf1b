//! Loads that carry their numbers.
use crate::Load;

/// A load, with its number among all, from 0.
#[derive(Drop)]
pub(crate) struct Numbered<T> {
    pub(crate) number: usize,
    pub(crate) load: T,
}

impl<C, T: Load<C>> Load<C> for Numbered<T> {
    ghost use Rattle.std.specs.Prelude.{◌≡◌};

    ghost does = { λ shared before after. (after.number ≡ before.number) × T.does shared before.load after.load };

    fn work<H: AllocGlobal>(&mut self, rt: &H, shared: &C) {
        self.load.work(rt, shared);
    }
}
