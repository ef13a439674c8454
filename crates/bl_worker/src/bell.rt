//! How threads that have nothing to do are woken.

use crate::count::{Count, Counted, EndToRing, Flag, Looked, Seen, Sleeper, Woken};
use crate::wake_up::WakeUp;
use bl_gate::turn::Turn as AtGate;
use std::sync::{Mutex, Wait};

/// That a bell is closed, as its owner knows who has closed it, and who was told so where it waited. Nobody else has
/// one.
#[derive(Clone, Copy, Debug)]
pub struct Closed {
    _told: (),
}

impl Closed {
    /// Who waits is told so.
    fn told() -> Closed {
        Closed { _told: () }
    }

    /// Its owner has woken those who wait for work, and those who wait for an end.
    fn woken(work: Woken, ends: Woken) -> Closed {
        let _ = (work, ends);
        Closed::told()
    }

    /// Looks in a turn at the gate, which finds all that was admitted before the bell was closed.
    pub fn look(self, turn: &AtGate<'_>) -> LastLook {
        let _ = turn;
        LastLook { _closed: self }
    }
}

/// That who was told that a bell is closed has looked in a turn at the gate since. Only a turn gives it.
#[derive(Drop)]
pub struct LastLook {
    _closed: Closed,
}

/// What a worker asks of a bell. Who is woken beside the threads that wait at one, as threads that sleep elsewhere, has
/// a bell of its own.
pub trait WorkerBell {
    /// How often workers were called; the count may wrap.
    fn calls(&self) -> Seen;

    /// Wakes those who wait for an entry to end, since one has ended.
    fn ring_end<R: Wait>(&self, rt: &R, end: EndToRing);

    /// Waits for a call to work, until workers were called since a look or the bell is closed, and says whether it is
    /// closed.
    fn wait_work<R: Wait>(&self, rt: &R, looked: Looked) -> Option<Closed>;
}

/// Threads that wait for the same: how often it came, whether some may wait, and how they are woken.
#[derive(Drop)]
struct Bench {
    rings: Count,
    taken: Flag,
    wake_up: WakeUp,
}

impl Bench {
    fn new() -> Bench {
        Bench {
            rings: Count::new(),
            taken: Flag::new(),
            wake_up: WakeUp::new(),
        }
    }

    /// Wakes all that wait here, since something was counted. Where nobody does it makes no call of the system.
    fn wake<R: Wait>(&self, rt: &R, closed: &Mutex<bool>, counted: Counted) -> Woken {
        counted.wake(&[Waiting {
            rt,
            closed,
            bench: self,
        }])
    }

    /// Waits until it has come since a look or the bell is closed, and says whether it is closed.
    fn wait<R: Wait>(&self, rt: &R, closed: &Mutex<bool>, looked: Looked) -> Option<Closed> {
        let mut closed = closed.lock(rt);
        for _ in rt.forever() {
            if *closed {
                return Some(Closed::told());
            }
            let quiet = self.rings.rest(&looked, &self.taken)?;
            closed = self.wake_up.wait(rt, closed, quiet);
        }
        unreachable!()
    }
}

/// Those who wait at a bench of a bell, as who rings it finds them.
#[derive(Drop)]
struct Waiting<'a, R> {
    rt: &'a R,
    closed: &'a Mutex<bool>,
    bench: &'a Bench,
}

impl<R: Wait> Sleeper for Waiting<'_, R> {
    fn flag(&self) -> &Flag {
        &self.bench.taken
    }

    fn wake(&self) {
        // who has raised the flag holds the lock until it sleeps
        let _closed = self.closed.lock(self.rt);
        self.bench.wake_up.send();
    }
}

/// A bell that is rung where there is something new: for workers, that they are called to work, and for who waits for
/// replies, that an entry has ended. Who waits reads the count of rings before it looks, so that it misses no ring.
/// Whom a ring wakes, and when, is not proved.
#[derive(Drop)]
pub struct Bell {
    closed: Mutex<bool>,
    work: Bench,
    ends: Bench,
}

impl Bell {
    /// A bell that was not rung.
    pub fn new() -> Bell {
        Bell {
            closed: Mutex::new(false),
            work: Bench::new(),
            ends: Bench::new(),
        }
    }

    /// How often workers were called, to work or since the bell was closed; the count wraps.
    pub fn calls(&self) -> Seen {
        self.work.rings.read()
    }

    /// How often an entry has ended, or the bell was closed; the count wraps.
    pub fn ends(&self) -> Seen {
        self.ends.rings.read()
    }

    /// Calls workers to work. Where none waits it makes no call of the system.
    pub fn ring_work<R: Wait>(&self, rt: &R) {
        let counted = self.work.rings.add();
        self.work.wake(rt, &self.closed, counted);
    }

    /// Rings since an entry has ended. Where nobody waits for that it makes no call of the system.
    pub fn ring_end<R: Wait>(&self, rt: &R, end: EndToRing) {
        let counted = self.ends.rings.add_end(end);
        self.ends.wake(rt, &self.closed, counted);
    }

    /// Closes the bell: from now on nobody waits. It counts as a ring of both kinds.
    pub fn close<R: Wait>(&self, rt: &R) -> Closed {
        *self.closed.lock(rt) = true;
        let work = self.work.wake(rt, &self.closed, self.work.rings.add());
        let ends = self.ends.wake(rt, &self.closed, self.ends.rings.add());
        Closed::woken(work, ends)
    }

    /// Waits for a call to work, until workers were called since a look or the bell is closed, and says whether it is
    /// closed.
    pub fn wait_work<R: Wait>(&self, rt: &R, looked: Looked) -> Option<Closed> {
        self.work.wait(rt, &self.closed, looked)
    }

    /// Waits for an entry to end, until one has ended since a look or the bell is closed, and says whether it is
    /// closed.
    pub fn wait_end<R: Wait>(&self, rt: &R, looked: Looked) -> Option<Closed> {
        self.ends.wait(rt, &self.closed, looked)
    }
}

impl WorkerBell for Bell {
    fn calls(&self) -> Seen {
        Bell::calls(self)
    }

    fn ring_end<R: Wait>(&self, rt: &R, end: EndToRing) {
        Bell::ring_end(self, rt, end);
    }

    fn wait_work<R: Wait>(&self, rt: &R, looked: Looked) -> Option<Closed> {
        Bell::wait_work(self, rt, looked)
    }
}
