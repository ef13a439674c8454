//! Why a session ends early.
ghost use Rattle.std.specs.Prelude.{◌≡◌};
ghost use Rattle.bl_wire.specs.declared.fault.SessionFault.TheVariants.{Memory};
ghost use Rattle.bl_wire.specs.Faults.{is_read};

use std::alloc::AllocError;

/// What ended a session before its input did.
#[derive(Clone, Copy, Debug, PartialEq, Eq)]
pub enum SessionFault {
    /// The reader failed.
    Read,
    /// The writer failed, or took nothing.
    Write,
    /// The session read as many bytes as it may, and another one is there.
    TooLong,
    /// Memory was refused.
    Memory,
    /// Another pass spoke for this session, of those that share a gate. A session with one worker never has it.
    Clash,
}

impl SessionFault {
    /// Whether it is the reader's.
    pub fn is_read(self) -> bool
        ensures { result ≡ is_read self }
    {
        match self {
            SessionFault::Read => true,
            SessionFault::Write
            | SessionFault::TooLong
            | SessionFault::Memory
            | SessionFault::Clash => false,
        }
    }
}

impl From<AllocError> for SessionFault {
    ghost from_gives = { λ _ fault. fault ≡ Memory };

    fn from(_: AllocError) -> SessionFault {
        SessionFault::Memory
    }
}
