// The modes in which a document is used, sets of them, and one access.
//
// Read observes and does not alter, append alters and does not observe, and write does both
// (Bell and La Padula 1976, access attributes).
ghost use Rattle.std.specs.Prelude.{⊤, ◌≡◌, [], ◌∷◌, codes};
ghost use Rattle.bl_policy.specs.Mode.{flag_of};

use crate::id::DocId;
use bitflags::{Flag, Flags, bitflag_items};

/// What an access does with its document.
#[derive(Clone, Copy, PartialEq, Eq, Debug)]
pub enum Mode {
    /// Observes the document and does not alter it.
    Read,
    /// Alters the document and does not observe it.
    Append,
    /// Observes and alters the document.
    Write,
}

/// A set of modes: one cell of the matrix. Bits that are no flag name no mode.
#[derive(Clone, Copy, PartialEq, Eq, Debug)]
pub struct ModeSet(u8);

bitflag_items! {
    impl ModeSet: u8 {
        const READ = 1;
        const APPEND = 2;
        const WRITE = 4;
    }
}

impl Flags for ModeSet {
    type Bits = u8;

    ghost exact = { ⊤ };

    ghost table = { (codes "READ", 1) ∷ (codes "APPEND", 2) ∷ (codes "WRITE", 4) ∷ [] };

    ghost set_of = { λ set. set.0 };

    fn flags<'a>() -> &'a [Flag<ModeSet>] {
        ModeSet::FLAGS
    }

    fn bits(&self) -> u8 {
        self.0
    }

    fn from_bits_retain(bits: u8) -> ModeSet {
        ModeSet(bits)
    }
}

impl From<Mode> for ModeSet {
    ghost from_gives = { λ mode set. set.0 ≡ flag_of mode };

    fn from(mode: Mode) -> ModeSet {
        match mode {
            Mode::Read => ModeSet::READ,
            Mode::Append => ModeSet::APPEND,
            Mode::Write => ModeSet::WRITE,
        }
    }
}

/// One access that a behaviour declares: a document and what is done with it.
#[derive(Clone, Copy, PartialEq, Eq, Debug)]
pub struct Access {
    pub mode: Mode,
    pub doc: DocId,
}
