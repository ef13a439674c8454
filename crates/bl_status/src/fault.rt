//! What the program says on standard error, and the status that it then ends with.
ghost use Rattle.std.specs.Prelude.{◌≡◌, ◌≢◌, ◌⊎◌};
ghost use Rattle.std.specs.IoError.{error_kind};
ghost use Rattle.bl_status.specs.Message.{words_of};
ghost use Rattle.bl_status.specs.Failure.{IsOfSetup, IsOfSession};
ghost use Rattle.bl_status.specs.Status.{status_of};
ghost use Rattle.bl_wire.specs.declared.fault.SessionFault.TheVariants as failing;

use bl_setup::fault::{SetupFault, SetupFaultKind};
use bl_wire::fault::SessionFault;
use std::io::ErrorKind;
use std::{fmt, io};
use thiserror::Error;

/// A fault that ends a run. Its display is what the run says of it on standard error.
#[derive(Clone, Copy, Debug, PartialEq, Eq, Drop, Error)]
pub enum ProgramFault {
    /// The setup file cannot be opened or read.
    CannotReadSetup,
    /// The text of the setup file is no setup.
    Setup {
        /// The line at fault, from 1; line 0 stands for the file as a whole.
        line: u32,
        /// The words for what is wrong with it.
        kind: &'static str,
    },
    /// The trail file cannot be opened or read, or has more bytes than one may have.
    CannotReadTrail,
    /// The trail file cannot be written, or cannot be moved to its name.
    CannotWriteTrail,
    /// No file is there that a run left.
    NoTrail,
    /// Something stands under the name that the trail is to have.
    TrailIsThere,
    /// Another program has the trail's file.
    InUse,
    /// The run began with another setup, or it does not stand beside the file with which it began.
    OtherSetup,
    /// What stands beside the file with which the run began is a first part of its setup, and ends within a line.
    TornSetup,
    /// The trail is of version 1.
    OldVersion,
    /// The head of the trail is torn or wrong: the number of its first line that is not right.
    WrongAt(u64),
    /// The head of the trail is torn: the run that wrote it was cut off before it told anything.
    NotBegun,
    /// The trail that was to be gone on with is over: it ends by `stop`.
    Over,
    /// The trail has 1,000 sessions, and a run that opens another one was to go on from it.
    NoMoreSessions,
    /// The session ended since its trail was not kept.
    NotKept,
    /// The trail is not whole: its file took no more.
    CutShort,
    /// The port cannot be listened on.
    CannotListen,
    /// The session's input failed.
    Read,
    /// The output failed.
    Write,
    /// The session's input has more bytes than a session may read.
    TooLong,
    /// A growth was refused.
    NoMemory,
}

impl fmt::Display for ProgramFault {
    ghost use Rattle.std.specs.Prelude.{Some};
    ghost use Rattle.bl_status.specs.Message.{message_of};

    ghost output = { λ fault. Some (message_of fault) };

    fn fmt<W: fmt::Write>(&self, f: &mut fmt::Formatter<W>) -> fmt::Result {
        match self {
            ProgramFault::Setup { line, kind } => write!(f, "setup {line}: {kind}"),
            ProgramFault::WrongAt(line) => write!(f, "trail wrong at line {line}"),
            ProgramFault::CannotReadSetup
            | ProgramFault::CannotReadTrail
            | ProgramFault::CannotWriteTrail
            | ProgramFault::NoTrail
            | ProgramFault::TrailIsThere
            | ProgramFault::InUse
            | ProgramFault::OtherSetup
            | ProgramFault::TornSetup
            | ProgramFault::OldVersion
            | ProgramFault::NotBegun
            | ProgramFault::Over
            | ProgramFault::NoMoreSessions
            | ProgramFault::NotKept
            | ProgramFault::CutShort
            | ProgramFault::CannotListen
            | ProgramFault::Read
            | ProgramFault::Write
            | ProgramFault::TooLong
            | ProgramFault::NoMemory => {
                let words = self.words();
                write!(f, "{words}")
            }
        }
    }
}

impl ProgramFault {
    /// The words for the fault; of a setup's those for what is wrong with its line.
    pub fn words(&self) -> &'static str
        ensures { result.now ≡ words_of self.now }
    {
        match self {
            ProgramFault::CannotReadSetup => "cannot read setup",
            ProgramFault::Setup { kind, .. } => kind,
            ProgramFault::CannotReadTrail => "cannot read trail",
            ProgramFault::CannotWriteTrail => "cannot write trail",
            ProgramFault::NoTrail => "no trail to resume",
            ProgramFault::TrailIsThere => "trail is there",
            ProgramFault::InUse => "trail is in use",
            ProgramFault::OtherSetup => "not this setup's trail",
            ProgramFault::TornSetup => "trail's setup is torn",
            ProgramFault::OldVersion => "trail of version 1",
            ProgramFault::WrongAt(_) => "trail wrong",
            ProgramFault::NotBegun => "trail not begun",
            ProgramFault::Over => "trail is over",
            ProgramFault::NoMoreSessions => "no more sessions",
            ProgramFault::NotKept => "session 1: not kept",
            ProgramFault::CutShort => "trail cut short",
            ProgramFault::CannotListen => "cannot listen",
            ProgramFault::Read => "read fault",
            ProgramFault::Write => "write fault",
            ProgramFault::TooLong => "too long",
            ProgramFault::NoMemory => "no memory",
        }
    }

    /// The status that a run ends with: 4 when out of memory, and 3 for anything else.
    pub fn status(&self) -> u8
        ensures status { result ≡ status_of self.now }
        ensures range { (result ≡ 3) ⊎ (result ≡ 4) }
    {
        match self {
            ProgramFault::NoMemory => 4,
            ProgramFault::CannotReadSetup
            | ProgramFault::Setup { .. }
            | ProgramFault::CannotReadTrail
            | ProgramFault::CannotWriteTrail
            | ProgramFault::NoTrail
            | ProgramFault::TrailIsThere
            | ProgramFault::InUse
            | ProgramFault::OtherSetup
            | ProgramFault::TornSetup
            | ProgramFault::OldVersion
            | ProgramFault::WrongAt(_)
            | ProgramFault::NotBegun
            | ProgramFault::Over
            | ProgramFault::NoMoreSessions
            | ProgramFault::NotKept
            | ProgramFault::CutShort
            | ProgramFault::CannotListen
            | ProgramFault::Read
            | ProgramFault::Write
            | ProgramFault::TooLong => 3,
        }
    }
}

/// What a fault of the setup file is to the program: out of memory is `NoMemory`, and any other
/// fault is told with its line and the words for its kind.
pub fn of_setup(fault: SetupFault) -> ProgramFault
    ensures { IsOfSetup fault result }
{
    let kind = match fault.kind {
        SetupFaultKind::Syntax => "syntax",
        SetupFaultKind::Unknown => "unknown",
        SetupFaultKind::Repeated => "repeated",
        SetupFaultKind::CurrentAboveGreatest => "current above greatest",
        SetupFaultKind::TooMany => "too many",
        SetupFaultKind::Memory => return ProgramFault::NoMemory,
    };
    ProgramFault::Setup {
        line: fault.line,
        kind,
    }
}

/// What a fault of a session with one worker is to the program, which never answers `Clash`.
pub fn of_session(fault: SessionFault) -> ProgramFault
    requires { fault ≢ failing.Clash }
    ensures { IsOfSession fault result }
{
    match fault {
        SessionFault::Read => ProgramFault::Read,
        SessionFault::Write => ProgramFault::Write,
        SessionFault::TooLong => ProgramFault::TooLong,
        SessionFault::Memory => ProgramFault::NoMemory,
        SessionFault::Clash => unreachable!(),
    }
}

/// What a failure to read or to write a file is to the program: out of memory, or `other`.
pub fn of_file(error: &io::Error, other: ProgramFault) -> ProgramFault
    ensures memory { error_kind error.now ≡ ErrorKind.OutOfMemory → result ≡ ProgramFault.NoMemory }
    ensures other { error_kind error.now ≢ ErrorKind.OutOfMemory → result ≡ other }
    ensures either { (result ≡ other) ⊎ (result ≡ ProgramFault.NoMemory) }
{
    if error.kind() == ErrorKind::OutOfMemory {
        ProgramFault::NoMemory
    } else {
        other
    }
}
