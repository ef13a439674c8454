//! How a session ended that was not served to its end.
ghost use Rattle.std.specs.Prelude.{◌≡◌};
ghost use Rattle.bl_entrance.specs.Ends.{early_end, end_by, ended_of, ended_words as words_for, why_by};

use bl_record::fault::JournalFault;
use bl_wire::fault::SessionFault;

/// Why a session ended early.
#[derive(Clone, Copy, Debug, PartialEq, Eq)]
pub enum Why {
    /// Its connection could not be taken.
    Accept,
    /// What had happened could not be kept, so it was told no more.
    NotKept,
    /// It sent nothing, or took nothing, for too long.
    Idle,
    /// Its line would never have fitted in the trail.
    TrailFull,
    /// Its service ended with this fault.
    Session(SessionFault),
}

/// A session that ended early: the number of its connection, from 1, and why.
#[derive(Clone, Copy, Debug, PartialEq, Eq)]
pub struct Ended {
    pub session: u32,
    pub why: Why,
}

/// A session that ended early and was not told of. It cannot be let go: `Acceptor::tell` and `Acceptor::part` take it.
pub struct Ending {
    pub(crate) ended: Ended,
}

impl Ending {
    /// The session of this connection ended so.
    pub fn new(session: u32, why: Why) -> Ending
        ensures { result.ended ≡ record { session = session; why = why } }
    {
        Ending {
            ended: Ended { session, why },
        }
    }

    /// Why it ended.
    pub fn why(&self) -> Why
        ensures { result ≡ self.now.ended.why }
    {
        self.ended.why
    }
}

/// How the session of a connection ended that leaves, if that was early: it was idle for too long, its service ended
/// with this fault, or its line would never have fitted in the trail.
pub fn ending_of(
    session: u32,
    is_idle: bool,
    is_full: bool,
    fault: Option<SessionFault>,
    refused: Option<JournalFault>,
) -> Option<Ending>
    ensures { ended_of result ≡ early_end session (end_by is_idle is_full fault refused) }
{
    if is_idle {
        return Some(Ending::new(session, Why::Idle));
    }
    match fault {
        Some(fault) => Some(Ending::new(session, why_refused(fault, refused))),
        None if is_full => Some(Ending::new(session, Why::TrailFull)),
        None => None,
    }
}

/// Why a session ended early whose service ended with this fault.
pub fn why_of(fault: SessionFault) -> Why
    ensures { result ≡ Why.Session fault }
{
    Why::Session(fault)
}

/// Why a session ended early whose service ended with this fault: where that is its output's, by what was refused
/// there, if it was.
pub fn why_refused(fault: SessionFault, refused: Option<JournalFault>) -> Why
    ensures { result ≡ why_by fault refused }
{
    match (fault, refused) {
        (SessionFault::Write, Some(JournalFault::Device(_))) => Why::NotKept,
        (SessionFault::Write, Some(JournalFault::Memory)) => why_of(SessionFault::Memory),
        (fault, _) => why_of(fault),
    }
}

/// The words for why a session ended early.
pub fn ended_words(why: Why) -> &'static str
    ensures { result.now ≡ words_for why }
{
    match why {
        Why::Accept => "accept fault",
        Why::NotKept => "not kept",
        Why::Idle => "idle",
        Why::TrailFull => "trail full",
        Why::Session(SessionFault::Read) => "read fault",
        Why::Session(SessionFault::Write) => "write fault",
        Why::Session(SessionFault::TooLong) => "too long",
        Why::Session(SessionFault::Memory) => "no memory",
        Why::Session(SessionFault::Clash) => "clash",
    }
}
