//! Why a journal goes no further, and why a file is not gone on with.
use bl_disk::device::DeviceError;
use bl_rebuild::fault::RebuildFault;
use std::alloc::AllocError;

/// Why a journal did not keep up.
#[derive(Clone, Copy, Debug, PartialEq, Eq, Drop)]
pub enum JournalFault {
    /// A growth was refused, before anything was written: the next call goes on.
    Memory,
    /// The device failed, in this call or before: the journal stays failed.
    Device(DeviceError),
}

impl From<AllocError> for JournalFault {
    ghost use Rattle.std.specs.Prelude.{◌≡◌};
    ghost use Rattle.bl_record.specs.declared.fault.JournalFault.TheVariants.{Memory};

    ghost from_gives = { λ _ fault. fault ≡ Memory };

    fn from(_error: AllocError) -> JournalFault {
        JournalFault::Memory
    }
}

/// Why a journal was not recovered of a file.
#[derive(Clone, Copy, Debug, PartialEq, Eq, Drop)]
pub enum RecoverFault {
    /// The head of the file is torn or wrong: this line of the file, counted from 1, is the first that is not right.
    Head(u64),
    /// The head is right, and the trail is of version 1: no journal of that version is gone on with.
    OldVersion,
    /// A growth was refused.
    Memory,
    /// The device failed.
    Device(DeviceError),
}

impl From<AllocError> for RecoverFault {
    ghost use Rattle.std.specs.Prelude.{◌≡◌};
    ghost use Rattle.bl_record.specs.declared.fault.RecoverFault.TheVariants.{Memory};

    ghost from_gives = { λ _ fault. fault ≡ Memory };

    fn from(_error: AllocError) -> RecoverFault {
        RecoverFault::Memory
    }
}

impl From<RebuildFault> for RecoverFault {
    ghost use Rattle.std.specs.Prelude.{◌≡◌};
    ghost use Rattle.bl_record.specs.Faults.{of_rebuilding};

    ghost from_gives = { λ rebuilding fault. fault ≡ of_rebuilding rebuilding };

    fn from(fault: RebuildFault) -> RecoverFault {
        match fault {
            RebuildFault::Head(line) => RecoverFault::Head(line),
            RebuildFault::OldVersion => RecoverFault::OldVersion,
            RebuildFault::Memory => RecoverFault::Memory,
        }
    }
}

impl From<JournalFault> for RecoverFault {
    ghost use Rattle.std.specs.Prelude.{◌≡◌};
    ghost use Rattle.bl_record.specs.Faults.{of_keeping};

    ghost from_gives = { λ keeping fault. fault ≡ of_keeping keeping };

    fn from(fault: JournalFault) -> RecoverFault {
        match fault {
            JournalFault::Memory => RecoverFault::Memory,
            JournalFault::Device(error) => RecoverFault::Device(error),
        }
    }
}

/// Why a run does not go on from a file.
#[derive(Clone, Copy, Debug, PartialEq, Eq, Drop)]
pub enum ResumeFault {
    /// No journal was recovered of the file.
    Unrecovered(RecoverFault),
    /// The trail is over: after its events stands `stop`, and nothing else. The file is as it was.
    Over,
    /// More would have to be cut off than one whole line: this line of the file, counted from 1, is the first that is
    /// not right, and at least one whole line comes after it. The file is as it was.
    Wrong(u64),
}

impl From<RecoverFault> for ResumeFault {
    ghost use Rattle.std.specs.Prelude.{◌≡◌};
    ghost use Rattle.bl_record.specs.declared.fault.ResumeFault.TheVariants.{Unrecovered};

    ghost from_gives = { λ recovering fault. fault ≡ Unrecovered recovering };

    fn from(fault: RecoverFault) -> ResumeFault {
        ResumeFault::Unrecovered(fault)
    }
}
