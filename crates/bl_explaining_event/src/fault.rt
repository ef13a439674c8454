//! Why a run of `explain` of an event explains nothing, or not all of it.
ghost use Rattle.std.specs.Prelude.{◌≡◌};

use bl_status::fault::ProgramFault;

/// Why nothing is explained of an event, or not all.
#[derive(Clone, Copy)]
pub enum EventFault {
    /// The trail is accepted, and has no event of this number; none has number 0.
    NoEvent(u64),
    /// The event of this number is no start.
    StartsNothing(u64),
    /// Any other fault of the run: of the setup, of the trail, of memory or of the output.
    Program(ProgramFault),
}

/// That a growth was refused.
pub(crate) fn no_memory() -> EventFault
    ensures { result ≡ EventFault.Program ProgramFault.NoMemory }
{
    EventFault::Program(ProgramFault::NoMemory)
}
