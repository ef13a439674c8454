//! How many events the trail had at a thread's last turn at the gate: its connections tell of no others.
//!
//! A turn gives the number (`TurnEvents`), the thread notes it (`Noted`), and only then its connections go on; what they
//! write waits until so many are kept (`Extent`). Each of these values is given by one step alone, and taken by the one
//! that has to come after it. What a horizon holds no contract says.
ghost use Rattle.std.specs.Prelude.{◌≡◌, length};

use bl_gate::turn::Turn;
use std::marker::Model;
use std::sync::atomic::{AtomicU64, Ordering};

/// How many events the trail had at a turn at the gate, which is its value. Only a turn gives it; it has to be noted,
/// and cannot be let go otherwise.
pub struct TurnEvents {
    count: usize,
}

impl Model for TurnEvents {
    ghost use Rattle.std.specs.Prelude.{ℕ};

    ghost Value = { ℕ };

    ghost view = { λ events. events.count };
}

impl TurnEvents {
    /// How many events the trail has in this turn.
    pub fn of(turn: &Turn<'_>) -> TurnEvents
        ensures { result ≡ length turn.now.seen }
    {
        TurnEvents {
            count: turn.hall().trail().len(),
        }
    }
}

/// That it was noted how many events the trail had at a turn, which is its value: what came of the turn may be told.
#[derive(Drop)]
pub struct Noted {
    count: usize,
}

impl Model for Noted {
    ghost use Rattle.std.specs.Prelude.{ℕ};

    ghost Value = { ℕ };

    ghost view = { λ noted. noted.count };
}

impl Noted {
    /// How many events the trail had.
    pub fn events(&self) -> usize
        ensures { result ≡ self.now }
    {
        self.count
    }
}

/// Of how many events a thread's connections may tell at most, which is its value. Only a horizon gives it.
#[derive(Drop)]
pub struct Extent {
    events: u64,
}

impl Model for Extent {
    ghost use Rattle.std.specs.Prelude.{ℕ};

    ghost Value = { ℕ };

    ghost view = { λ extent. extent.events };
}

impl Extent {
    /// How many events those are.
    pub fn events(&self) -> u64
        ensures { result ≡ self.now }
    {
        self.events
    }
}

/// Where a thread notes how many events the trail had at its last turn at the gate.
#[derive(Drop)]
pub struct Horizon {
    events: AtomicU64,
}

impl Horizon {
    /// Nothing is noted: there may be any number of events.
    pub fn new() -> Horizon {
        Horizon {
            events: AtomicU64::new(u64::MAX),
        }
    }

    /// Notes how many events the trail had at a turn of the thread.
    pub fn note(&self, events: TurnEvents) -> Noted
        ensures { result ≡ events }
    {
        let TurnEvents { count } = events;
        self.events.store(count as u64, Ordering::SeqCst);
        Noted { count }
    }

    /// The events that were noted last; as many as there may be, as long as none were.
    pub fn extent(&self) -> Extent {
        Extent {
            events: self.events.load(Ordering::SeqCst),
        }
    }
}
