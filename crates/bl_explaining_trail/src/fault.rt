//! Why a run of `explain` over a trail explains nothing, or not all of it.
ghost use Rattle.std.specs.Prelude.{◌≡◌};

use bl_question::fault::ExplainFault;
use bl_status::fault::ProgramFault;

/// Why nothing is explained of a trail, or not all of it.
#[derive(Clone, Copy)]
pub enum TrailFault {
    /// The trail is accepted, and has no event of this number.
    NoEvent(u64),
    /// Any other fault of the run: of the setup, of the trail, of memory or of the output.
    Program(ProgramFault),
}

/// Why nothing is explained of what is asked where a trail leads.
#[derive(Drop)]
pub enum AskedFault {
    /// For what the setup, the trail, memory or the output is.
    Trail(TrailFault),
    /// For what is asked there, or for memory.
    Question(ExplainFault),
}

/// That a growth was refused.
pub(crate) fn no_memory() -> TrailFault
    ensures { result ≡ TrailFault.Program ProgramFault.NoMemory }
{
    TrailFault::Program(ProgramFault::NoMemory)
}
