//! How session threads that sleep are woken.
use bl_worker::count::{Count, EndToRing, Flag, Looked, Quiet, Seen, Sleeper};
use mio::Waker;
use std::alloc::{AllocError, Global};

/// What wakes one thread, and whether the end of an entry is to.
#[derive(Drop)]
struct Alarm {
    armed: Flag,
    waker: Waker,
}

impl Sleeper for Alarm {
    fn flag(&self) -> &Flag {
        &self.armed
    }

    fn wake(&self) {
        let _ = self.waker.wake();
    }
}

/// The alarms of all session threads, each by the number of its thread, and how many entries have ended.
///
/// A thread that waits for an entry to end reads the count of ends, looks for the end in a turn at the gate, and sleeps
/// only if `arm` finds the same count still. Who ends an entry counts first and looks for armed alarms after; who
/// sleeps arms first and looks at the count after. So one of the two sees the other, and no end is missed. An alarm
/// that is rung before its thread sleeps ends that sleep at once. Whom a ring wakes, and when, is not proved.
#[derive(Drop)]
pub struct Alarms {
    ends: Count,
    alarms: Vec<Alarm>,
}

impl Alarms {
    /// No alarm.
    pub fn new(alloc: Global) -> Alarms {
        Alarms {
            ends: Count::new(),
            alarms: Vec::new(alloc),
        }
    }

    /// Takes in the alarm of one more thread, which gets the next number. An error comes where memory was refused.
    pub fn add(&mut self, waker: Waker) -> Result<(), AllocError> {
        let armed = Flag::new();
        self.alarms.push(Alarm { armed, waker })?;
        Ok(())
    }

    /// How many entries have ended; the count wraps.
    pub fn ends(&self) -> Seen {
        self.ends.read()
    }

    /// Says that an entry has ended, and wakes each thread that is to know. Where none is it makes no call of the
    /// system.
    pub fn ring_end(&self, end: EndToRing) {
        let counted = self.ends.add_end(end);
        counted.wake(&self.alarms);
    }

    /// Has the next end wake a thread, which may sleep if none has come since it has looked.
    pub fn arm(&self, thread: usize, looked: &Looked) -> Option<Quiet> {
        let alarm = self.alarms.get(thread)?;
        self.ends.rest(looked, &alarm.armed)
    }

    /// Wakes a thread, whatever it waits for.
    pub fn wake(&self, thread: usize) {
        if let Some(alarm) = self.alarms.get(thread) {
            alarm.wake();
        }
    }

    /// Wakes all threads.
    pub fn wake_all(&self) {
        for alarm in &self.alarms {
            alarm.wake();
        }
    }
}
