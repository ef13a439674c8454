//! A claim as it is kept, with the place of the next claim of its cown.
ghost use Rattle.std.specs.Prelude.{◌≡◌, ◌<◌};
ghost use Rattle.bl_queue.specs.Links.{claim_of, next_of, fresh_link};

use crate::cown::Held;

/// The place of no claim.
const NO_PLACE: u32 = u32::MAX;

/// A claim: the number of its entry, the place of the next claim of its cown, the cown, whether it is shared, and
/// whether it is over. It takes twelve bytes. Only clauses read whether it is over; the byte would else be padding.
#[derive(Clone, Copy)]
pub(crate) struct Link {
    pub(crate) entry: u32,
    pub(crate) next: u32,
    pub(crate) cown: u16,
    pub(crate) shared: bool,
    pub(crate) over: bool,
}

impl Link {
    /// The last claim of its cown, which is not over.
    pub(crate) fn new(claim: Held) -> Link
        requires { claim.cown < 65536 }
        ensures { result ≡ fresh_link claim }
    {
        Link {
            entry: claim.entry,
            next: NO_PLACE,
            cown: claim.cown as u16,
            shared: claim.shared,
            over: false,
        }
    }

    /// The claim itself.
    pub(crate) fn claim(self) -> Held
        ensures { result ≡ claim_of self }
    {
        Held {
            cown: u32::from(self.cown),
            shared: self.shared,
            entry: self.entry,
        }
    }

    /// The place of the next claim of its cown.
    pub(crate) fn next(self) -> Option<u32>
        ensures { result ≡ next_of self }
    {
        if self.next == NO_PLACE {
            None
        } else {
            Some(self.next)
        }
    }
}
