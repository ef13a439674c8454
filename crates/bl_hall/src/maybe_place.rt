//! A place of the order, or none.
ghost use Rattle.std.specs.Prelude.{◌≡◌, ◌<◌, ◌+◌, ◌^◌, ℕ, Option, None, Some};
ghost use Rattle.bl_hall.specs.MaybePlaces.{number_of, place_of, same_number};

use std::marker::Model;

/// The number that no place has.
const NO_PLACE: u32 = u32::MAX;

/// A place of the order, or none: an `Option<u32>` in half its memory, since no place has the greatest number.
#[derive(Clone, Copy)]
pub(crate) struct MaybePlace {
    number: u32,
}

impl Model for MaybePlace {
    ghost Value = { Option ℕ };

    ghost view = { λ kept. place_of kept.number };

    ghost inverse = { λ place. record { number = number_of place } };

    ghost inverse_ok = { λ kept _ i. record { number = same_number kept.number i } };
}

impl MaybePlace {
    /// No place.
    pub(crate) fn none() -> MaybePlace
        ensures { result ≡ None }
    {
        MaybePlace { number: NO_PLACE }
    }

    /// This place.
    pub(crate) fn some(place: u32) -> MaybePlace
        requires { place + 1 < 2 ^ 32 }
        ensures { result ≡ Some place }
    {
        MaybePlace { number: place }
    }

    /// The place, unless it is none.
    pub(crate) fn get(self) -> Option<u32>
        ensures { result ≡ self }
    {
        if self.number == NO_PLACE {
            None
        } else {
            Some(self.number)
        }
    }
}
