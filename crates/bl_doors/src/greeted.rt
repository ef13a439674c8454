//! A stream that gives a greeting first.
ghost use Rattle.std.specs.Prelude.{◌≡◌, ◌≤◌, [], IfOk, drop, length, min, take};

use bl_connection::stream::{Answer, Stream};
use std::alloc::{AllocError, Global};

/// A stream that gives its greeting first, and then what the stream in it gives. Writes go through.
#[derive(Drop)]
pub struct Greeted<S> {
    inner: S,
    greeting: Vec<u8>,
    given: usize,
    ghost within: { given ≤ length greeting.items },
}

impl<S> Greeted<S> {
    ghost use Rattle.bl_doors.specs.Greetings.{greeting_of, ungiven};

    /// A stream with no greeting.
    pub fn plain(alloc: Global, inner: S) -> Greeted<S>
        ensures inner { result.inner ≡ inner }
        ensures greeting { ungiven result ≡ [] }
    {
        Greeted {
            inner,
            greeting: Vec::new(alloc),
            given: 0,
        }
    }

    /// A stream of which `hello NAME` is heard before all that it gives. An error comes where memory was refused.
    pub(crate) fn by(alloc: Global, name: &[u8], inner: S) -> Result<Greeted<S>, AllocError>
    where
        S: Drop,
        ensures inner { IfOk result (λ stream. stream.inner ≡ inner) }
        ensures greeting { IfOk result (λ stream. ungiven stream ≡ greeting_of name.now) }
    {
        let mut greeting = Vec::new(alloc);
        greeting.extend_from_slice(b"hello ")?;
        greeting.extend_from_slice(name)?;
        greeting.push(b'\n')?;
        Ok(Greeted {
            inner,
            greeting,
            given: 0,
        })
    }

    /// What is still to be given of the greeting.
    fn left(&self) -> &[u8]
        ensures { result.now ≡ ungiven self.now }
    {
        self.greeting.split_at(self.given).1
    }

    /// Gives the next part of the greeting, as much as there is room for, and says how many bytes that are.
    fn give(&mut self, room: &mut [u8]) -> usize
        ensures count { result ≡ min (length (ungiven self.old)) (length room.old) }
        ensures given { take result room.new ≡ take result (ungiven self.old) }
        ensures room { length room.new ≡ length room.old }
        ensures rest { ungiven self.new ≡ drop result (ungiven self.old) }
        ensures inner { self.new.inner ≡ self.old.inner }
    {
        let left = self.left();
        let count = left.len().min(room.len());
        room[..count].copy_from_slice(&left[..count]);
        self.given += count;
        count
    }

    /// The stream in it.
    pub fn inner(&self) -> &S
        ensures { result.now ≡ self.now.inner }
    {
        &self.inner
    }
}

impl<S: Stream> Stream for Greeted<S> {
    ghost use Rattle.bl_doors.specs.Greetings.{GivesFirst, WritesThrough, yet_to_come};

    ghost remaining = { yet_to_come S.remaining };

    ghost contents = { λ stream. S.contents stream.inner };

    ghost reads = { GivesFirst S.reads };

    ghost writes = { WritesThrough S.writes };

    fn read(&mut self, room: &mut [u8]) -> Answer {
        if self.left().is_empty() {
            self.inner.read(room)
        } else {
            Answer::Moved(self.give(room))
        }
    }

    fn write(&mut self, bytes: &[u8]) -> Answer {
        self.inner.write(bytes)
    }
}
