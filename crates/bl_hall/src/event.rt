//! The events of a trail, as a hall keeps them.
use bl_policy::id::SubjectId;

/// What has happened. The work of a line is that of its entry in the core.
#[derive(Clone, Copy, Debug, PartialEq, Eq)]
pub enum Event {
    /// A session was opened for this subject; its number is the count of those before it.
    Open(SubjectId),
    /// The line of the session of this number was admitted with this ordinal; its entry is the next of the order. There
    /// are at most 1,000 sessions, so two bytes hold the number.
    Line { session: u16, ordinal: u32 },
    /// An entry was started: it runs, or it has ended as a rule or as denied.
    Start(u32),
    /// A running entry has ended, and its children have entered.
    End(u32),
    /// An entry was lost, out of memory, before it started or while it ran.
    Lost(u32),
}

const _: () = prove!(size_of::<Event>() == 8);
