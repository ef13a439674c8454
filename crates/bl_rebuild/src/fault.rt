//! Why no hall is rebuilt.
use std::alloc::AllocError;

/// Why no hall is rebuilt of a text.
#[derive(Clone, Copy, Debug, PartialEq, Eq)]
pub enum RebuildFault {
    /// The head is torn or wrong: this line of the text, counted from 1, is the first that is not right. It is 1 or 2,
    /// and no journal is recovered of the text.
    Head(u64),
    /// The head is right, and the trail is of version 1: no hall is of that version.
    OldVersion,
    /// A growth was refused.
    Memory,
}

impl From<AllocError> for RebuildFault {
    ghost use Rattle.std.specs.Prelude.{◌≡◌};
    ghost use Rattle.bl_rebuild.specs.declared.fault.RebuildFault.TheVariants.{Memory};

    ghost from_gives = { λ _ fault. fault ≡ Memory };

    fn from(_error: AllocError) -> RebuildFault {
        RebuildFault::Memory
    }
}
