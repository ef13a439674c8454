//! Where a session thread waits.
ghost use Rattle.std.specs.Prelude.{◌<◌};

use crate::wait_counts::WaitCounts;
use mio::event::{Event, Iter, Source};
use mio::unix::SourceFd;
use mio::{Events, Interest, Poll, Token, Waker};
use std::alloc::{AllocError, Global};
use std::io;
use std::io::ErrorKind;
use std::net::Net;
use std::os::fd::AsRawFd;
use std::time::Duration;

/// How many events a wait of many connections gives at most.
const MOST_EVENTS: usize = 256;

/// So many connections are few.
const FEW_CONNECTIONS: usize = 16;

/// How many events a wait of few connections gives at most: those are answered before others are read, so that who asks
/// next does not wait for all of them.
const FEW_EVENTS: usize = 4;

/// The token of the thread's alarm and of the listeners. Connections have the tokens from 1 on.
const CALL: usize = 0;

/// What was found ready.
#[derive(Clone, Copy, Debug, PartialEq, Eq)]
pub enum Found {
    /// The alarm was rung, or a connection waits at a listener.
    Call,
    /// The socket of this connection is ready, is closed or has failed.
    Ready(u32),
}

/// The sockets of a thread, its alarm and the listeners, of which it waits for the first that is ready.
///
/// A change is told once. So a socket is used until it would block, and the listeners asked until nobody waits there,
/// before the next wait.
#[derive(Drop)]
pub struct Watch {
    poll: Poll,
    few: Events,
    many: Events,
    /// Whether the last wait was one of few connections.
    was_of_few: bool,
    counts: WaitCounts,
}

impl Watch {
    /// Watches nothing yet. An error comes where memory or a descriptor was refused.
    pub fn new<R: Net>(rt: &R, alloc: Global) -> io::Result<Watch> {
        let few = events_of(alloc, FEW_EVENTS)?;
        let many = events_of(alloc, MOST_EVENTS)?;
        let Ok(counts) = WaitCounts::new(alloc) else {
            return Err(io::Error::from(ErrorKind::OutOfMemory));
        };
        let poll = Poll::new(rt)?;
        Ok(Watch {
            poll,
            few,
            many,
            was_of_few: false,
            counts,
        })
    }

    /// Watches a listener, which is not to wait. An error comes where the system refuses that.
    pub fn watch_listener<L: AsRawFd>(&self, listener: &L) -> io::Result<()> {
        let fd = listener.as_raw_fd();
        let token = Token(CALL);
        self.poll
            .registry()
            .register(&mut SourceFd(&fd), token, Interest::READABLE)
    }

    /// What wakes who waits here. An error comes where a descriptor was refused.
    pub fn waker(&self) -> io::Result<Waker> {
        Waker::new(self.poll.registry(), Token(CALL))
    }

    /// Watches the stream of a connection, with its number. An error comes where the system refuses that.
    /// The token 0 is the alarm's.
    pub(crate) fn add<S: Source>(&self, stream: &mut S, number: u32) -> io::Result<()>
        requires { 0 < number }
        ensures { S.keeps stream.old stream.new }
    {
        let token = Token(number as usize);
        let all = Interest::READABLE | Interest::WRITABLE | Interest::PRIORITY;
        self.poll.registry().register(stream, token, all)
    }

    /// Waits until something is ready of so many connections, of the listeners or the alarm, for so long at most where
    /// that is said, and says whether the system could be asked. Of 16 connections or fewer it gives four events at
    /// most, the oldest first, and the next wait gives the others.
    pub fn wait(&mut self, connections: usize, most: Option<Duration>) -> bool {
        self.was_of_few = connections <= FEW_CONNECTIONS;
        let told = if self.was_of_few {
            self.poll.poll(&mut self.few, most)
        } else {
            self.poll.poll(&mut self.many, most)
        };
        let asked = told.is_ok();
        let exceptional = self.events().any(is_exceptional);
        self.counts.add(exceptional || !asked);
        asked
    }

    /// The counts of its waits, for a socket. An error comes where there are too many sockets.
    pub(crate) fn counts(&self) -> Result<WaitCounts, AllocError> {
        self.counts.share()
    }

    /// What the last wait gave.
    pub fn events(&self) -> Iter<'_> {
        if self.was_of_few {
            self.few.iter()
        } else {
            self.many.iter()
        }
    }
}

/// Room for so many events. An error comes where memory was refused.
fn events_of(alloc: Global, most: usize) -> io::Result<Events> {
    match Events::with_capacity(alloc, most) {
        Ok(events) => Ok(events),
        Err(_) => Err(io::Error::from(ErrorKind::OutOfMemory)),
    }
}

/// Whether an event tells that a peer has ended its output, that a socket has failed, or that urgent data has come.
fn is_exceptional(event: &Event) -> bool {
    event.is_read_closed() || event.is_error() || event.is_priority()
}

/// What an event is of.
pub fn found_by(event: &Event) -> Found {
    let Token(token) = event.token();
    match u32::try_from(token) {
        Ok(number) if number > 0 => Found::Ready(number),
        Ok(_) | Err(_) => Found::Call,
    }
}
