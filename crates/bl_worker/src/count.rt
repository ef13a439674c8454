//! How often something came that threads wait for, and what they hand on from step to step, so that nobody is left to
//! sleep. Each of these values is given by one step alone, and taken by the one that has to come after it.
//!
//! Who waits reads the count (`Seen`), looks in a turn at the gate (`Looked`), raises a flag, and sees then whether
//! something was counted since; if nothing was, it may sleep (`Quiet`). Who has something new counts it (`Counted`),
//! and sees then whose flag is raised, whom it wakes (`Woken`). So one of the two sees the other. Which count it is,
//! whom it wakes, and when who is woken goes on, is not proved.
ghost use Rattle.std.specs.Prelude.{◌↔◌, ◌⊎◌, IsSome, IsTrue};

use bl_gate::turn::Turn as AtGate;
use std::sync::atomic::{AtomicBool, AtomicU64, Ordering};

/// That an entry has ended, which somebody may wait for: it has to be counted, and cannot be let go otherwise.
pub struct EndToRing {
    _ended: (),
}

impl EndToRing {
    /// An end.
    pub fn new() -> EndToRing {
        EndToRing { _ended: () }
    }

    /// An end, if there was any.
    pub fn if_any(any: bool) -> Option<EndToRing>
        ensures { IsSome result ↔ IsTrue any }
    {
        if any { Some(EndToRing::new()) } else { None }
    }

    /// One end for two, if there was any: who is woken for one looks for both.
    pub fn either(one: Option<EndToRing>, other: Option<EndToRing>) -> Option<EndToRing>
        ensures { IsSome result ↔ (IsSome one ⊎ IsSome other) }
    {
        match one {
            Some(end) => Some(end.with(other)),
            None => other,
        }
    }

    /// This end for both.
    fn with(self, other: Option<EndToRing>) -> EndToRing {
        match other {
            Some(end) => {
                let EndToRing { _ended } = end;
            }
            None => {}
        }
        self
    }
}

/// Those who wait for the same with one flag, and how they are woken.
pub trait Sleeper {
    /// Their flag.
    fn flag(&self) -> &Flag;

    /// Wakes them.
    fn wake(&self);
}

/// That something was counted: then those who wait for it have to be woken, and it cannot be let go otherwise.
pub struct Counted {
    before: u64,
}

impl Counted {
    /// Wakes those of these whose flag is raised, and lowers it. Where none is it makes no call of the system.
    pub fn wake<S: Sleeper>(self, sleepers: &[S]) -> Woken {
        let Counted { before } = self;
        for sleeper in sleepers {
            if sleeper.flag().lower() {
                sleeper.wake();
            }
        }
        Woken { _before: before }
    }
}

/// That those were woken who waited for what was counted.
#[derive(Drop)]
pub struct Woken {
    _before: u64,
}

/// A count as it was read.
#[derive(Drop)]
pub struct Seen {
    count: u64,
}

impl Seen {
    /// Looks in a turn at the gate, which finds all that was counted before.
    pub fn look(self, turn: &AtGate<'_>) -> Looked {
        let _ = turn;
        Looked { count: self.count }
    }

    /// How often it was.
    pub fn count(&self) -> u64 {
        self.count
    }
}

/// A count as it was read before a turn at the gate was left, in which a thread has looked. Only a turn gives it.
#[derive(Drop)]
pub struct Looked {
    count: u64,
}

impl Looked {
    /// The same with an end of that turn, if there is one, which was before the look and is yet to be counted: it is no
    /// news to who has looked.
    pub fn and(self, end: &Option<EndToRing>) -> Looked {
        let own = u64::from(end.is_some());
        Looked {
            count: self.count.wrapping_add(own),
        }
    }

    /// Whether something was counted since, by a count that was read later.
    pub fn is_behind(&self, now: &Seen) -> bool {
        self.count != now.count
    }
}

/// That nothing had come since a thread has looked, as its flag was raised already: it may sleep, for who counts what
/// comes now finds the flag.
#[derive(Drop)]
pub struct Quiet {
    _raised: (),
}

/// That somebody is to be woken, who may sleep.
#[derive(Drop)]
pub struct Flag {
    raised: AtomicBool,
}

impl Flag {
    /// It is not raised.
    pub fn new() -> Flag {
        Flag {
            raised: AtomicBool::new(false),
        }
    }

    /// Raises it.
    fn raise(&self) {
        self.raised.store(true, Ordering::SeqCst);
    }

    /// Lowers it, and says whether it was raised.
    fn lower(&self) -> bool {
        self.raised.load(Ordering::SeqCst) && self.raised.swap(false, Ordering::SeqCst)
    }
}

/// How often something came. The count wraps.
#[derive(Drop)]
pub struct Count {
    count: AtomicU64,
}

impl Count {
    /// It never came.
    pub fn new() -> Count {
        Count {
            count: AtomicU64::new(0),
        }
    }

    /// Reads the count.
    pub fn read(&self) -> Seen {
        Seen {
            count: self.count.load(Ordering::SeqCst),
        }
    }

    /// Counts that it came.
    pub fn add(&self) -> Counted {
        Counted {
            before: self.count.fetch_add(1, Ordering::SeqCst),
        }
    }

    /// Counts an end.
    pub fn add_end(&self, end: EndToRing) -> Counted {
        let EndToRing { _ended } = end;
        self.add()
    }

    /// Raises a flag, and says then whether nothing has come since a thread has looked.
    pub fn rest(&self, looked: &Looked, flag: &Flag) -> Option<Quiet> {
        flag.raise();
        if looked.is_behind(&self.read()) {
            None
        } else {
            Some(Quiet { _raised: () })
        }
    }
}
