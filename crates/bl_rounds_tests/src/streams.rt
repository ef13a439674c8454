//! Readers and writers in memory that block, fail, and give and take little at a time.
use bl_connection::stream::Ends;
use std::alloc::Global;
use std::io;
use std::io::{ErrorKind, Read, Write};

/// How an end answers: at most so many bytes at a call, and by an error at the calls with these numbers, from 1 on.
#[derive(Clone, Copy)]
pub(crate) struct Manner {
    pub(crate) most: usize,
    pub(crate) blocks_at: usize,
    pub(crate) fails_at: usize,
}

impl Manner {
    /// It gives and takes all that it can.
    pub(crate) const PLAIN: Manner = Manner {
        most: 1_000_000,
        blocks_at: 0,
        fails_at: 0,
    };

    /// It goes a byte at a time.
    pub(crate) const SLOW: Manner = Manner {
        most: 1,
        blocks_at: 0,
        fails_at: 0,
    };
}

/// A byte at a time, and it would block at a call.
pub(crate) fn stalling_at(call: usize) -> Manner {
    Manner {
        most: 1,
        blocks_at: call,
        fails_at: 0,
    }
}

/// A byte at a time, and it fails at a call.
pub(crate) fn failing_at(call: usize) -> Manner {
    Manner {
        most: 1,
        blocks_at: 0,
        fails_at: call,
    }
}

/// The calls of an end that have been made, and how it answers.
#[derive(Clone, Copy)]
pub(crate) struct Calls {
    manner: Manner,
    made: usize,
}

impl Calls {
    pub(crate) fn new(manner: Manner) -> Calls {
        Calls { manner, made: 0 }
    }

    /// How many bytes the next call moves at most, or its error.
    fn next(&mut self) -> io::Result<usize> {
        self.made = self.made.saturating_add(1);
        if self.made == self.manner.blocks_at {
            return Err(io::Error::from(ErrorKind::WouldBlock));
        }
        if self.made == self.manner.fails_at {
            return Err(io::Error::from(ErrorKind::Interrupted));
        }
        Ok(self.manner.most)
    }
}

/// A reader of these bytes.
#[derive(Drop)]
pub(crate) struct Giver<'a> {
    pub(crate) bytes: &'a [u8],
    pub(crate) calls: Calls,
}

impl Read for Giver<'_> {
    fn read(&mut self, room: &mut [u8]) -> io::Result<usize> {
        let most = self.calls.next()?;
        let count = room.len().min(most);
        self.bytes.read(&mut room[..count])
    }
}

/// A writer that keeps what it takes.
#[derive(Drop)]
pub(crate) struct Taker {
    pub(crate) taken: Vec<u8>,
    pub(crate) calls: Calls,
}

impl Write for Taker {
    fn write(&mut self, bytes: &[u8]) -> io::Result<usize> {
        let most = self.calls.next()?;
        let count = bytes.len().min(most);
        self.taken.extend_from_slice(&bytes[..count])?;
        Ok(count)
    }

    fn flush(&mut self) -> io::Result<()> {
        Ok(())
    }
}

/// A stream that gives these bytes, and keeps what it takes.
pub(crate) fn ends_of(
    alloc: Global,
    bytes: &[u8],
    reads: Manner,
    writes: Manner,
) -> Ends<Giver<'_>, Taker> {
    Ends {
        reader: Giver {
            bytes,
            calls: Calls::new(reads),
        },
        writer: Taker {
            taken: Vec::new(alloc),
            calls: Calls::new(writes),
        },
    }
}
