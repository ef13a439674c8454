//! Why there is no log.
ghost use Rattle.std.specs.Prelude.{◌≡◌, ◌≢◌};
ghost use Rattle.std.specs.IoError.{error_kind};

use std::io;
use std::io::ErrorKind;

/// Why there is no log.
#[derive(Clone, Copy, Debug, PartialEq, Eq)]
pub enum LogFault {
    /// The system refuses its file, or a write to it.
    CannotWrite,
    /// Memory was refused.
    Memory,
}

/// What a failure of the system is to who opens a log.
pub(crate) fn of_system(error: &io::Error) -> LogFault
    ensures memory { error_kind error.now ≡ ErrorKind.OutOfMemory → result ≡ LogFault.Memory }
    ensures other { error_kind error.now ≢ ErrorKind.OutOfMemory → result ≡ LogFault.CannotWrite }
{
    if error.kind() == ErrorKind::OutOfMemory {
        LogFault::Memory
    } else {
        LogFault::CannotWrite
    }
}
