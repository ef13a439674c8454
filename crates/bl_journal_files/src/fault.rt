//! What faults of a journal in a file are to the program.
ghost use Rattle.std.specs.Prelude.{◌≡◌};
ghost use Rattle.bl_journal_files.specs.Telling.{recover_fault, resume_fault};

use bl_disk::device::DeviceError;
use bl_file::open::OpenFault;
use bl_record::fault::{RecoverFault, ResumeFault};
use bl_status::fault::ProgramFault;

/// What a fault of a recovery is to its run.
pub fn of_recover(fault: RecoverFault) -> ProgramFault
    ensures { result ≡ recover_fault fault }
{
    match fault {
        RecoverFault::Head(line) => ProgramFault::WrongAt(line),
        RecoverFault::OldVersion => ProgramFault::OldVersion,
        RecoverFault::Memory | RecoverFault::Device(DeviceError::Memory) => ProgramFault::NoMemory,
        RecoverFault::Device(DeviceError::Full | DeviceError::Failed) => {
            ProgramFault::CannotWriteTrail
        }
    }
}

/// What it is to the run that a journal is not gone on with.
pub fn of_resume(fault: ResumeFault) -> ProgramFault
    ensures { result ≡ resume_fault fault }
{
    match fault {
        ResumeFault::Unrecovered(fault) => of_recover(fault),
        ResumeFault::Over => ProgramFault::Over,
        ResumeFault::Wrong(line) => ProgramFault::WrongAt(line),
    }
}

/// What is told of a file that a run left and that cannot be opened.
pub fn of_open(fault: OpenFault) -> ProgramFault
    ensures missing { fault ≡ OpenFault.Missing → result ≡ ProgramFault.NoTrail }
    ensures in_use { fault ≡ OpenFault.InUse → result ≡ ProgramFault.InUse }
    ensures memory { fault ≡ OpenFault.Memory → result ≡ ProgramFault.NoMemory }
    ensures taken { fault ≡ OpenFault.Taken → result ≡ ProgramFault.TrailIsThere }
    ensures refused { fault ≡ OpenFault.Refused → result ≡ ProgramFault.CannotReadTrail }
{
    match fault {
        OpenFault::Missing => ProgramFault::NoTrail,
        OpenFault::InUse => ProgramFault::InUse,
        OpenFault::Taken => ProgramFault::TrailIsThere,
        OpenFault::Memory => ProgramFault::NoMemory,
        OpenFault::Refused => ProgramFault::CannotReadTrail,
    }
}
