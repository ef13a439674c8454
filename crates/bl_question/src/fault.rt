//! Why a run of `explain` explains nothing, or not all of it.
ghost use Rattle.std.specs.Prelude.{◌≡◌};

use bl_status::fault::ProgramFault;
use bl_work::asked::LineFault;

/// Why a run of `explain` explains nothing, or not all of it.
#[derive(Drop)]
pub enum ExplainFault {
    /// The setup has no subject of this name.
    NoSubject,
    /// The text of the level that is carried is none of the setup's.
    NoLevel,
    /// What is asked for has this fault, as a line of a session; a place of a byte is one in its words.
    Unsaid(LineFault),
    /// Any other fault of the run: of the setup, of memory or of the output.
    Program(ProgramFault),
}

/// That a growth was refused.
pub fn no_memory() -> ExplainFault
    ensures { result ≡ ExplainFault.Program ProgramFault.NoMemory }
{
    ExplainFault::Program(ProgramFault::NoMemory)
}
