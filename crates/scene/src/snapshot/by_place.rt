//! What stands at places.
ghost use Rattle.std.specs.Prelude.{◌≡◌, ℕ, Option, option_copied};

/// Values at places, at each of which there may be one: the data of an entity by the places of their kinds among the
/// rules' names, or the globals' values by those of their names.
pub trait ByPlace<X> {
    /// The value at each place.
    ghost at_place: { Self → ℕ → Option X };

    /// The value at a place, if there is one.
    fn at(&self, place: usize) -> Option<&X>
        ensures { option_copied result ≡ at_place self.now place };
}

impl<X> ByPlace<X> for Vec<Option<X>> {
    ghost use Rattle.std.specs.Prelude.{slice_get};
    ghost use Rattle.scene_model.specs.Slots.{filled};

    ghost at_place = { λ list place. filled (slice_get list.items place) };

    fn at(&self, place: usize) -> Option<&X> {
        self.get(place)?.as_ref()
    }
}
