//! Where the connections of a thread wait for a journal.
ghost use Rattle.std.specs.Prelude.{◌≡◌, ◌+◌, IfSome, OnOk, vec_len};
ghost use Rattle.bl_keeper.specs.Desks.{AreNumbered};

use std::alloc::{AllocError, Global};
use std::collections::VecDeque;
use std::sync::atomic::{AtomicBool, Ordering};
use std::sync::{Mutex, Wait};

/// A connection that waits, and the number with which it has asked.
#[derive(Clone, Copy, Debug)]
struct Waiting {
    asked: u64,
    connection: u32,
}

/// The number of a thread, which is there for proofs alone; its connections that wait for a journal, by the numbers with
/// which they have asked, which rise; and whether the thread has no other connection, so that it may wait itself.
#[derive(Drop)]
pub struct Desk {
    thread: usize,
    waiting: Mutex<VecDeque<Waiting>>,
    alone: AtomicBool,
}

impl Desk {
    /// A desk of this thread, at which nobody waits.
    fn new(alloc: Global, thread: usize) -> Desk
        ensures { result.thread ≡ thread }
    {
        Desk {
            thread,
            waiting: Mutex::new(VecDeque::new(alloc)),
            alone: AtomicBool::new(false),
        }
    }

    /// Whether the thread has no other connection.
    pub(crate) fn is_alone(&self) -> bool {
        self.alone.load(Ordering::SeqCst)
    }

    /// Says whether the thread has at most one connection.
    pub fn set_alone(&self, alone: bool) {
        self.alone.store(alone, Ordering::SeqCst);
    }

    /// Has a connection wait that has asked with this number. An error comes where memory was refused.
    pub(crate) fn add<R: Wait>(
        &self,
        rt: &R,
        asked: u64,
        connection: u32,
    ) -> Result<(), AllocError> {
        let mut waiting = self.waiting.lock(rt);
        waiting.reserve(1)?;
        waiting.push_back_reserved(Waiting { asked, connection });
        Ok(())
    }

    /// The next connection that waits no more, where all that have asked with a smaller number than this know what
    /// came of it; none where each that waits has asked later.
    pub fn next<R: Wait>(&self, rt: &R, decided: u64) -> Option<u32> {
        let mut waiting = self.waiting.lock(rt);
        if waiting.front()?.asked >= decided {
            return None;
        }
        let first = waiting.pop_front()?;
        Some(first.connection)
    }

    /// The connection that waits with so many before it, if there is one.
    pub fn get<R: Wait>(&self, rt: &R, before: usize) -> Option<u32> {
        let waiting = self.waiting.lock(rt);
        let found = waiting.get(before)?;
        Some(found.connection)
    }

    /// Whether a connection waits no more, where all that have asked with a smaller number than this know what came of
    /// it.
    pub fn has_next<R: Wait>(&self, rt: &R, decided: u64) -> bool {
        match self.waiting.lock(rt).front() {
            Some(first) => first.asked < decided,
            None => false,
        }
    }
}

/// The desks of session threads, each by the number of its thread, and whether connections wait there: else their
/// threads do.
#[derive(Drop)]
pub struct Desks {
    desks: Vec<Desk>,
    go_on: bool,
    ghost numbered: { AreNumbered desks.items },
}

impl Desks {
    /// Desks for so many threads, or for the first of them where memory was refused. The threads go on while their
    /// connections wait there, or wait themselves.
    pub fn new(alloc: Global, threads: u32, go_on: bool) -> Desks {
        let mut desks = Desks {
            desks: Vec::new(alloc),
            go_on,
        };
        for _ in 0..threads {
            if desks.add(alloc).is_err() {
                break;
            }
        }
        desks
    }

    /// One desk more, of the thread with the next number. An error comes where memory was refused, and leaves the
    /// others as they were.
    #[tactic(auto, using(crate::proofs::Desks::numbered_more))]
    fn add(&mut self, alloc: Global) -> Result<(), AllocError>
        ensures { OnOk result (vec_len self.new.desks ≡ vec_len self.old.desks + 1) }
    {
        self.desks.reserve(1)?;
        let thread = self.desks.len();
        self.desks.push_reserved(Desk::new(alloc, thread));
        Ok(())
    }

    /// The desk of a thread, if its connections wait at one.
    pub fn get(&self, thread: usize) -> Option<&Desk>
        ensures { IfSome result (λ desk. desk.now.thread ≡ thread) }
    {
        if self.go_on {
            self.desks.get(thread)
        } else {
            None
        }
    }
}

/// A connection of a thread, by their numbers: it waits at the desk of the thread, if that has one.
#[derive(Clone, Copy, Debug)]
pub struct Place {
    pub thread: usize,
    pub connection: u32,
}
