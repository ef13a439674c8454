//! Why a trail is not kept.
ghost use Rattle.std.specs.Prelude.{◌≡◌, ◌≢◌};
ghost use Rattle.std.specs.IoError.{error_kind};
ghost use Rattle.bl_trail_file.specs.Telling.{unkept_fault};

use bl_status::fault::ProgramFault;
use std::io;
use std::io::ErrorKind;

/// Why a trail is not kept.
#[derive(Clone, Copy, Debug, PartialEq, Eq)]
pub enum KeepFault {
    /// Its file cannot be made or written, or cannot take its name.
    Unwritable,
    /// A growth was refused.
    Memory,
}

/// What a failure at a file, or at its name, is to the trail that is kept in it: out of memory, or that it is unwritable.
pub fn of_file(error: &io::Error) -> KeepFault
    ensures memory { error_kind error.now ≡ ErrorKind.OutOfMemory → result ≡ KeepFault.Memory }
    ensures other { error_kind error.now ≢ ErrorKind.OutOfMemory → result ≡ KeepFault.Unwritable }
{
    if error.kind() == ErrorKind::OutOfMemory {
        KeepFault::Memory
    } else {
        KeepFault::Unwritable
    }
}

/// What a fault of a trail that is not kept is to the program.
pub fn of_keep(fault: KeepFault) -> ProgramFault
    ensures { result ≡ unkept_fault fault }
{
    match fault {
        KeepFault::Unwritable => ProgramFault::CannotWriteTrail,
        KeepFault::Memory => ProgramFault::NoMemory,
    }
}
