//! The way to the place that is looked at, and the faults that were found.
use crate::faults::Fault;
use crate::paths::Step;
use scene_model::DocRefusal;
use std::alloc::{AllocError, Global};

/// A step of the way, by the document's own keys.
#[derive(Clone, Copy, Debug)]
pub(crate) enum Mark<'a> {
    Key(&'a str),
    Item(usize),
}

/// The way to the place that is looked at, and the faults that were found so far.
#[derive(Drop)]
pub(crate) struct Trail<'a> {
    pub(crate) alloc: Global,
    marks: Vec<Mark<'a>>,
    faults: Vec<Fault>,
}

impl<'a> Trail<'a> {
    pub(crate) fn new(alloc: Global) -> Trail<'a> {
        Trail {
            alloc,
            marks: Vec::new(alloc),
            faults: Vec::new(alloc),
        }
    }

    /// Goes to what stands under a key.
    pub(crate) fn enter(&mut self, key: &'a str) -> Result<(), AllocError> {
        self.marks.push(Mark::Key(key))?;
        Ok(())
    }

    /// Goes to an item of a list.
    pub(crate) fn enter_item(&mut self, place: usize) -> Result<(), AllocError> {
        self.marks.push(Mark::Item(place))?;
        Ok(())
    }

    /// Goes one step back.
    pub(crate) fn leave(&mut self) {
        let _ = self.marks.pop();
    }

    /// Tells a fault of the place that is looked at.
    pub(crate) fn tell(&mut self, refusal: DocRefusal, sentence: String) -> Result<(), AllocError> {
        let mut path = Vec::with_capacity(self.alloc, self.marks.len())?;
        for mark in &self.marks {
            path.push(step_of(self.alloc, *mark)?)?;
        }
        self.faults.push(Fault {
            refusal,
            path,
            sentence,
        })?;
        Ok(())
    }

    /// Tells a fault of what stands under a key.
    pub(crate) fn tell_at(
        &mut self,
        key: &'a str,
        refusal: DocRefusal,
        sentence: String,
    ) -> Result<(), AllocError> {
        self.enter(key)?;
        self.tell(refusal, sentence)?;
        self.leave();
        Ok(())
    }

    /// Tells a fault of an item.
    pub(crate) fn tell_item(
        &mut self,
        place: usize,
        refusal: DocRefusal,
        sentence: String,
    ) -> Result<(), AllocError> {
        self.enter_item(place)?;
        self.tell(refusal, sentence)?;
        self.leave();
        Ok(())
    }

    /// The faults that were found.
    pub(crate) fn into_faults(self) -> Vec<Fault> {
        let Trail { faults, .. } = self;
        faults
    }
}

fn step_of(alloc: Global, mark: Mark<'_>) -> Result<Step, AllocError> {
    match mark {
        Mark::Key(key) => Ok(Step::Key(String::from_str(alloc, key)?)),
        Mark::Item(place) => Ok(Step::Item(place)),
    }
}
