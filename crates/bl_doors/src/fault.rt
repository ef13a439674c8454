//! Why no doors are opened.
ghost use Rattle.std.specs.Prelude.{◌≡◌, ◌≢◌};
ghost use Rattle.std.specs.IoError.{error_kind};

use std::alloc::AllocError;
use std::io;
use std::io::ErrorKind;

/// Why no doors are opened.
#[derive(Debug, PartialEq, Eq, Drop)]
pub enum DoorFault {
    /// There is no folder of a subject.
    NoDoor,
    /// A folder has this name, and no subject has it.
    NoSuchDoor(String),
    /// The system refused the folder or the socket of this name, or somebody listens there.
    CannotListen(String),
    /// Memory was refused.
    Memory,
}

impl From<AllocError> for DoorFault {
    ghost use Rattle.std.specs.Prelude.{◌≡◌};
    ghost use Rattle.bl_doors.specs.declared.fault.DoorFault.TheVariants.{Memory};

    ghost from_gives = { λ _ fault. fault ≡ Memory };

    fn from(_: AllocError) -> DoorFault {
        DoorFault::Memory
    }
}

/// What a failure of the system is to who opens the door of this name: out of memory, or that it cannot be listened
/// there.
pub(crate) fn of_system(error: &io::Error, name: String) -> DoorFault
    ensures memory { error_kind error.now ≡ ErrorKind.OutOfMemory → result ≡ DoorFault.Memory }
    ensures other { error_kind error.now ≢ ErrorKind.OutOfMemory → result ≡ DoorFault.CannotListen name }
{
    if error.kind() == ErrorKind::OutOfMemory {
        DoorFault::Memory
    } else {
        DoorFault::CannotListen(name)
    }
}
