//! Where the entries of the order come from.
ghost use Rattle.std.specs.Prelude.{◌≡◌, ℕ};
ghost use Rattle.bl_place.specs.Places.{entry_by};
ghost use Rattle.bl_core.specs.Origins.{origin_of};

use crate::session::SessionNo;
use bl_place::place::Descent;

/// Where an entry comes from.
#[derive(Clone, Copy, Debug, PartialEq, Eq)]
pub enum Origin {
    /// The line of a session with this ordinal.
    Line { session: SessionNo, ordinal: u32 },
    /// A parent, by its place in the order; its children are counted from 1.
    Child { parent: u32, which: u32 },
}

impl Origin {
    /// The descent of an entry without the work of a line.
    pub(crate) fn of(descent: &Descent) -> Origin
        ensures { (subject : ℕ) → result ≡ origin_of (entry_by subject descent.now) }
    {
        match descent {
            Descent::Line {
                session,
                ordinal,
                ..
            } => Origin::Line {
                session: *session,
                ordinal: *ordinal,
            },
            Descent::Child { parent, which } => Origin::Child {
                parent: *parent,
                which: *which,
            },
        }
    }
}
