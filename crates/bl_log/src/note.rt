//! What a line of a log says.
use jiff_core::Timestamp;

/// What has become of a connection.
#[derive(Clone, Copy, Debug)]
pub enum Event<'a> {
    /// It was taken.
    Came,
    /// It was greeted.
    Greeted {
        /// The subject for whom it speaks.
        subject: &'a str,
        /// The number of its session in the trail.
        session: u32,
    },
    /// Its greeting was refused.
    Refused {
        /// The name that it gave; `-` where it gave none that is a name.
        name: &'a str,
    },
    /// It ended.
    Ended {
        /// How many lines of it were numbered.
        lines: u64,
        /// How many of these were refused: they were not admitted.
        refused: u64,
        /// How many events the trail had when its thread last saw it.
        events: u64,
        /// `bye`, or the words for why it ended early.
        how: &'a str,
    },
}

/// A line of a log: when it was, the number of the connection, where that came from, and what has become of it.
#[derive(Clone, Copy, Debug)]
pub struct Note<'a> {
    /// When it was.
    pub time: Timestamp,
    /// The number of the connection, from 1 on.
    pub connection: u32,
    /// The address that it came from, or the name of the subject by whose door it came.
    pub from: &'a str,
    /// What has become of it.
    pub event: Event<'a>,
}

/// What is full.
#[derive(Clone, Copy, Debug, PartialEq, Eq)]
pub enum Bound {
    /// The lines' weights: a line was refused as `full`.
    Limit,
    /// The trail: no line fits any more, and no further connection is taken.
    Trail,
}

/// What has become of a server.
#[derive(Clone, Copy, Debug)]
pub enum ServerEvent<'a> {
    /// It listens.
    Started {
        /// The version of the program.
        version: &'a str,
        /// The weight of the lines that are admitted at most.
        limit: u32,
        /// How many connections are taken.
        sessions: u32,
        /// How many are open at once at most.
        clients: u32,
        /// How many bytes the trail may have.
        trail_limit: u32,
    },
    /// It goes on from a run that was cut off.
    Resumed {
        /// How many events the trail has, with those of what was admitted then and has ended since.
        events: u64,
        /// How many bytes were cut off the journal.
        cut: u64,
    },
    /// A bound of the run is reached.
    Full(Bound),
    /// The trail's file took no more: nothing more is kept, and no further connection is taken.
    CutShort,
    /// It has ended.
    Ended {
        /// `done`, or by which kind of fault.
        why: &'a str,
    },
}

/// A line of a log about the server: when it was, and what has become of it.
#[derive(Clone, Copy, Debug)]
pub struct ServerNote<'a> {
    /// When it was.
    pub time: Timestamp,
    /// What has become of it.
    pub event: ServerEvent<'a>,
}
