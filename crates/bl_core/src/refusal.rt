//! Why a call changed nothing.
use bl_work::work::Work;
use std::marker::Model;

/// Why a session was not opened.
#[derive(Clone, Copy, Debug, PartialEq, Eq)]
pub enum OpenRefused {
    /// The setup has no such subject.
    Stranger,
    /// There are 1,000 sessions.
    SessionsFull,
}

/// Why a line was not admitted.
#[derive(Clone, Copy, Debug, PartialEq, Eq)]
pub enum Cause {
    /// No text reads as its work under the setup's names.
    Stranger,
    /// The session is not open.
    Session,
    /// Its ordinal is not above the last one of its session.
    Ordinal,
    /// With its weight the core would pass its limit.
    Full,
}

/// A line that was not admitted: why, and its work.
#[derive(Drop)]
pub struct Refused {
    pub cause: Cause,
    pub work: Work,
}

/// An entry that might have started, had memory not been refused.
#[derive(Drop)]
pub struct Starved {
    pub(crate) entry: u32,
}

impl Model for Starved {
    ghost use Rattle.std.specs.Prelude.{ℕ};

    ghost Value = { ℕ };

    ghost view = { λ starved. starved.entry };
}

impl Starved {
    ghost use Rattle.std.specs.Prelude.{◌≡◌};

    /// The number of the entry.
    pub fn entry(&self) -> u32
        ensures { result ≡ self.now }
    {
        self.entry
    }
}

/// Why nothing was started.
#[derive(Drop)]
pub enum StartFault {
    /// The entry may not start.
    NotReady,
    /// A growth was refused.
    Memory(Starved),
}

/// The entry may not start.
#[derive(Clone, Copy, Debug, PartialEq, Eq)]
pub struct NotReady;
