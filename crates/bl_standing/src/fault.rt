//! Why a run of `state` writes no setup, or not all of its text.
use bl_status::fault::ProgramFault;

/// Why a run of `state` writes no setup, or not all of its text.
#[derive(Drop)]
pub enum StateFault {
    /// The trail is rejected: the number of its first line that is not right, from 1.
    Rejected(u64),
    /// The trail is of version 1, and a run over what it left would be judged by version 2.
    OldVersion,
    /// Something that was admitted has not ended.
    NotEnded,
    /// The text of the setup has so many bytes, more than a setup file may have.
    TooLarge(usize),
    /// Any other fault of the run: of the setup that it began with, of memory or of the output.
    Program(ProgramFault),
}
