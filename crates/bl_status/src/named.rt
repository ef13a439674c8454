//! A fault that ends a run, and what it is about.
ghost use Rattle.std.specs.Prelude.{◌≡◌};
ghost use Rattle.bl_status.specs.Named.{about_at, fault_at};

use crate::fault::ProgramFault;

/// What a fault is about, beside what its words say.
#[derive(Debug, PartialEq, Eq, Drop)]
pub enum About {
    /// Nothing that has a name.
    Nothing,
    /// The file of this name.
    File(String),
    /// The port of this number.
    Port(u32),
    /// The trail of this name, whose journal was named in its place.
    Trail(String),
}

/// A fault that ends a run, and what it is about.
#[derive(Debug, PartialEq, Eq, Drop)]
pub struct NamedFault {
    /// What ends the run.
    pub fault: ProgramFault,
    /// What that is about.
    pub about: About,
}

impl From<ProgramFault> for NamedFault {
    ghost use Rattle.std.specs.Prelude.{◌≡◌};
    ghost use Rattle.bl_status.specs.Named.{unnamed};

    ghost from_gives = { λ fault named. named ≡ unnamed fault };

    fn from(fault: ProgramFault) -> NamedFault {
        NamedFault {
            fault,
            about: About::Nothing,
        }
    }
}

/// What this fault is about, where its file has this name: a trail that cannot be read or written is that in the file, and
/// any other is about nothing.
fn about_file(fault: &ProgramFault, name: String) -> About
    ensures { result ≡ about_at fault.now name }
{
    match fault {
        ProgramFault::CannotReadTrail | ProgramFault::CannotWriteTrail => About::File(name),
        ProgramFault::CannotReadSetup
        | ProgramFault::Setup { .. }
        | ProgramFault::NoTrail
        | ProgramFault::TrailIsThere
        | ProgramFault::InUse
        | ProgramFault::OtherSetup
        | ProgramFault::TornSetup
        | ProgramFault::OldVersion
        | ProgramFault::WrongAt(_)
        | ProgramFault::NotBegun
        | ProgramFault::Over
        | ProgramFault::NoMoreSessions
        | ProgramFault::NotKept
        | ProgramFault::CutShort
        | ProgramFault::CannotListen
        | ProgramFault::Read
        | ProgramFault::Write
        | ProgramFault::TooLong
        | ProgramFault::NoMemory => About::Nothing,
    }
}

impl ProgramFault {
    /// The fault at the file of this name, where that cannot be read or written; any other is about nothing.
    pub fn at(self, name: String) -> NamedFault
        ensures { result ≡ fault_at self name }
    {
        let about = about_file(&self, name);
        NamedFault { fault: self, about }
    }
}
