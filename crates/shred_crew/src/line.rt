//! Lines: along each the caller asks a worker for work, and the worker answers with what became of it.

use crate::Load;
use crossbeam_queue::protocol::{Lesson, Outcome, Protocol, Split};
use crossbeam_queue::{Pass, RuledArrayQueue};
use std::sync::Arc;

/// What lies on a line.
#[derive(Drop)]
pub(crate) enum Packet<C, T> {
    /// Loads to be worked on, over what all workers share.
    Ask(Arc<C>, Vec<T>),
    /// Loads that were worked on.
    Answer(Vec<T>),
}

/// Work that was asked for. No value of it is made: proofs alone speak of it.
pub(crate) struct Errand<C, T> {
    pub(crate) shared: C,
    pub(crate) row: Vec<T>,
}

/// What one of the two at a line has in hand. No value of it is made: proofs alone speak of it.
pub(crate) enum Hand<C, T> {
    /// The caller, before there is a worker.
    Alone,
    /// The caller, and what it asked for.
    Caller(Option<Errand<C, T>>),
    /// The worker, and what it works on.
    Worker(Option<Errand<C, T>>),
}

/// The rule of a line.
pub(crate) struct Agreed;

impl<C, T: Load<C>> Protocol<Packet<C, T>, Hand<C, T>> for Agreed {
    ghost use Rattle.shred_crew.specs.Lines.{Agree};
    ghost use Rattle.shred_crew.specs.declared.line.Hand.TheVariants.{Alone};

    ghost holds = { Agree T.does };

    ghost first = { Alone };
}

/// One at a line becomes two.
pub(crate) struct Roles;

impl<C, T> Split<Hand<C, T>> for Roles {
    ghost use Rattle.std.specs.Prelude.{None};
    ghost use Rattle.shred_crew.specs.declared.line.Hand.TheVariants.{Caller, Worker};

    ghost left = { λ _. Caller None };

    ghost right = { λ _. Worker None };
}

/// The caller asks.
pub(crate) struct Asked;

impl<C, T> Outcome<Packet<C, T>, Hand<C, T>> for Asked {
    ghost use Rattle.std.specs.Prelude.{◌≡◌};
    ghost use Rattle.shred_crew.specs.Lines.{hand_after};

    ghost then = { λ before packet after. after ≡ hand_after packet };
}

impl<C, T> Lesson<Packet<C, T>, Hand<C, T>> for Asked {
    ghost use Rattle.std.specs.Prelude.{◌≡◌, []};

    ghost fact = { λ _ items. items ≡ [] };
}

/// The worker takes what was asked for, or what it has answered and the caller has not taken yet.
pub(crate) struct Taken;

impl<C, T: Load<C>> Outcome<Packet<C, T>, Hand<C, T>> for Taken {
    ghost use Rattle.std.specs.Prelude.{◌≡◌, Some};
    ghost use Rattle.shred_crew.specs.Lines.{Serves};
    ghost use Rattle.shred_crew.specs.declared.line.Errand.{Errand};
    ghost use Rattle.shred_crew.specs.declared.line.Hand.TheVariants.{Worker};

    ghost then = { λ before packet after. (errand : Errand _ _) × (after ≡ Worker (Some errand))
        × Serves T.does errand packet };
}

/// The worker answers.
pub(crate) struct Answered;

impl<C, T> Outcome<Packet<C, T>, Hand<C, T>> for Answered {
    ghost use Rattle.std.specs.Prelude.{◌≡◌, None};
    ghost use Rattle.shred_crew.specs.declared.line.Hand.TheVariants.{Worker};

    ghost then = { λ before packet after. after ≡ Worker None };
}

impl<C, T> Lesson<Packet<C, T>, Hand<C, T>> for Answered {
    ghost use Rattle.std.specs.Prelude.{◌≡◌, []};

    ghost fact = { λ _ items. items ≡ [] };
}

/// The caller takes an answer, or what it asked for and the worker has not taken yet.
pub(crate) struct Settled;

impl<C, T: Load<C>> Outcome<Packet<C, T>, Hand<C, T>> for Settled {
    ghost use Rattle.std.specs.Prelude.{◌≡◌, None, Some};
    ghost use Rattle.shred_crew.specs.Lines.{Serves};
    ghost use Rattle.shred_crew.specs.declared.line.Errand.{Errand};
    ghost use Rattle.shred_crew.specs.declared.line.Hand.TheVariants.{Caller};

    ghost then = { λ before packet after. (after ≡ Caller None)
        × ((errand : Errand _ _) × (before ≡ Caller (Some errand)) × Serves T.does errand packet) };
}

/// A line between the caller and a worker.
pub(crate) type Line<C, T> = RuledArrayQueue<Packet<C, T>, Hand<C, T>, Agreed>;

/// What lets one of the two act on a line.
pub(crate) type Grip<C, T> = Pass<Packet<C, T>, Hand<C, T>>;
