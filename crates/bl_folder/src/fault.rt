//! Why a call of a folder failed.
ghost use Rattle.std.specs.Prelude.{◌≡◌, ◌≢◌};
ghost use Rattle.std.specs.IoError.{error_kind};

use bl_file::open::OpenFault;
use std::alloc::AllocError;
use std::io;
use std::io::ErrorKind;

/// Why a call of a folder failed.
#[derive(Clone, Copy, Debug, PartialEq, Eq, Drop)]
pub enum FolderFault {
    /// Nothing stands there: no folder, or no file of the name.
    Missing,
    /// Something stands under the name that a file was to have.
    Taken,
    /// Another program works in the folder, or has the file.
    InUse,
    /// The file has more bytes than were to be read.
    TooLong,
    /// A growth was refused.
    Memory,
    /// The system refused anything else.
    Refused,
}

impl From<AllocError> for FolderFault {
    ghost use Rattle.bl_folder.specs.declared.fault.FolderFault.TheVariants.{Memory};

    ghost from_gives = { λ _ fault. fault ≡ Memory };

    fn from(_error: AllocError) -> FolderFault {
        FolderFault::Memory
    }
}

/// What a failure of the system is to a folder.
pub(crate) fn of_system(error: &io::Error) -> FolderFault
    ensures missing { error_kind error.now ≡ ErrorKind.NotFound → result ≡ FolderFault.Missing }
    ensures taken { error_kind error.now ≡ ErrorKind.AlreadyExists → result ≡ FolderFault.Taken }
    ensures memory { error_kind error.now ≡ ErrorKind.OutOfMemory → result ≡ FolderFault.Memory }
    ensures other { error_kind error.now ≢ ErrorKind.NotFound → error_kind error.now ≢ ErrorKind.AlreadyExists
        → error_kind error.now ≢ ErrorKind.OutOfMemory → result ≡ FolderFault.Refused }
{
    match error.kind() {
        ErrorKind::NotFound => FolderFault::Missing,
        ErrorKind::AlreadyExists => FolderFault::Taken,
        ErrorKind::OutOfMemory => FolderFault::Memory,
        _ => FolderFault::Refused,
    }
}

/// What it is to a folder that a file is not opened.
pub(crate) fn of_open(fault: OpenFault) -> FolderFault
    ensures missing { fault ≡ OpenFault.Missing → result ≡ FolderFault.Missing }
    ensures taken { fault ≡ OpenFault.Taken → result ≡ FolderFault.Taken }
    ensures in_use { fault ≡ OpenFault.InUse → result ≡ FolderFault.InUse }
    ensures memory { fault ≡ OpenFault.Memory → result ≡ FolderFault.Memory }
    ensures refused { fault ≡ OpenFault.Refused → result ≡ FolderFault.Refused }
{
    match fault {
        OpenFault::Missing => FolderFault::Missing,
        OpenFault::Taken => FolderFault::Taken,
        OpenFault::InUse => FolderFault::InUse,
        OpenFault::Memory => FolderFault::Memory,
        OpenFault::Refused => FolderFault::Refused,
    }
}
