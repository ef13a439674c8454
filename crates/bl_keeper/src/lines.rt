//! The lines of a session thread, through which its connections are written to.
ghost use Rattle.std.specs.Prelude.{◌≡◌, IfSome, None};

use crate::desk::{Desk, Place};
use crate::keep::Keep;
use crate::stream::KeptStream;
use bl_connection::stream::Stream;
use bl_horizon::horizon::Horizon;
use std::alloc::Global;
use std::sync::Wait;

/// What makes the streams of a session thread, and no other: its number, what keeps its events, and where its rounds
/// note how many there were. So no stream tells of the events of another thread, or waits at another's desk.
#[derive(Drop)]
pub struct ThreadLines<'a, K, T> {
    rt: &'a T,
    alloc: Global,
    keep: &'a K,
    thread: usize,
    horizon: Horizon,
}

impl<'a, K: Keep, T: Wait> ThreadLines<'a, K, T> {
    /// The lines of the thread with this number, which has noted nothing yet.
    pub fn new(rt: &'a T, alloc: Global, keep: &'a K, thread: usize) -> ThreadLines<'a, K, T>
        ensures { result.thread ≡ thread }
    {
        ThreadLines {
            rt,
            alloc,
            keep,
            thread,
            horizon: Horizon::new(),
        }
    }

    /// The number of the thread.
    pub fn thread(&self) -> usize
        ensures { result ≡ self.now.thread }
    {
        self.thread
    }

    /// Where the thread notes how many events the trail had at its last turn at the gate.
    pub fn horizon(&self) -> &Horizon {
        &self.horizon
    }

    /// The desk of the thread, if its connections wait at one.
    pub fn desk(&self) -> Option<&Desk>
        ensures { IfSome result (λ desk. desk.now.thread ≡ self.now.thread) }
    {
        self.keep.desk(self.thread)
    }

    /// A stream over this one, which nobody else has, of a connection of the thread.
    pub fn line<S: Stream>(&self, connection: u32, end: S) -> KeptStream<'_, S, K, T>
        ensures place { result.place ≡ record { thread = self.now.thread; connection = connection } }
        ensures end { result.end.inner ≡ end }
        ensures fine { result.refused ≡ None }
    {
        let place = Place {
            thread: self.thread,
            connection,
        };
        KeptStream::new(self.rt, self.alloc, self.keep, &self.horizon, place, end)
    }
}
