//! The report of a trail.
use crate::item::ReportItem;
use bl_hall::hall::Hall;

/// How a trail ends behind the events that are right.
#[derive(Clone, Copy, PartialEq, Eq, Debug)]
pub enum ReportEnd {
    /// With the line `stop`, and nothing behind it: the trail is accepted.
    Closed,
    /// With no further line: it is still written, or was cut off. What stands behind the last line, without its LF, has
    /// so many bytes.
    Open(usize),
    /// With a further line that is not right: its number in the file, from 1.
    Wrong(u64),
}

/// What a trail tells.
#[derive(Drop)]
pub struct Report {
    /// The hall in which the events that are right have happened, and no other: it has the setup, the limit, the events,
    /// and of each entry its label, its work, its subject and where it stands at the end.
    pub hall: Hall,
    /// What is told, in the order of the events.
    pub items: Vec<ReportItem>,
    /// How many bytes of the trail these events have with its head.
    pub right: usize,
    /// How the trail ends behind them.
    pub end: ReportEnd,
}
