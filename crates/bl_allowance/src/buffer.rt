//! Bytes that are held, of which a front is due.
ghost use Rattle.std.specs.Prelude.{◌≡◌, ◌+◌, ◌≤◌, length};

use std::alloc::{AllocError, Global};

/// Bytes that are held: so many were given, and so many of those behind are due.
#[derive(Drop)]
pub(crate) struct Buffer {
    bytes: Vec<u8>,
    given: usize,
    due: usize,
    ghost within: { given + due ≤ length bytes.items },
}

impl Buffer {
    ghost use Rattle.std.specs.Prelude.{[], ◌++◌, IfOk, OnErr, OnOk, drop, min, nat_lt, take};
    ghost use Rattle.bl_allowance.specs.Buffers.{due_of, pending};

    /// No bytes.
    pub(crate) fn new(alloc: Global) -> Buffer
        ensures pending { pending result ≡ [] }
        ensures due { due_of result ≡ [] }
    {
        Buffer {
            bytes: Vec::new(alloc),
            given: 0,
            due: 0,
        }
    }

    /// What is held and was not given.
    pub(crate) fn pending(&self) -> &[u8]
        ensures { result.now ≡ pending self.now }
    {
        self.bytes.split_at(self.given).1
    }

    /// Whether something is due.
    pub(crate) fn is_due(&self) -> bool
        ensures { result ≡ nat_lt 0 (length (due_of self.now)) }
    {
        self.due > 0
    }

    /// Holds these bytes too. Where memory is refused nothing changes.
    pub(crate) fn add(&mut self, bytes: &[u8]) -> Result<(), AllocError>
        ensures pending { OnOk result (pending self.new ≡ pending self.old ++ bytes.now) }
        ensures due { due_of self.new ≡ due_of self.old }
        ensures refused { OnErr result (pending self.new ≡ pending self.old) }
    {
        self.bytes.extend_from_slice(bytes)
    }

    /// Has so many bytes due of those that were not given.
    pub(crate) fn have_due(&mut self, count: usize)
        requires { count ≤ length (pending self.old) }
        ensures pending { pending self.new ≡ pending self.old }
        ensures due { due_of self.new ≡ take count (pending self.old) }
    {
        self.due = count;
    }

    /// Gives the next of what is due, as much as there is room for, and says how many bytes that are.
    pub(crate) fn give(&mut self, room: &mut [u8]) -> usize
        ensures count { result ≡ min (length (due_of self.old)) (length room.old) }
        ensures given { take result room.new ≡ take result (due_of self.old) }
        ensures room { length room.new ≡ length room.old }
        ensures due { due_of self.new ≡ drop result (due_of self.old) }
        ensures pending { pending self.new ≡ drop result (pending self.old) }
    {
        let count = self.due.min(room.len());
        let next = self.pending();
        room[..count].copy_from_slice(&next[..count]);
        self.given += count;
        self.due -= count;
        count
    }

    /// Gives back the room of what was given, where that is all.
    pub(crate) fn forget_given(&mut self, alloc: Global)
        ensures pending { pending self.new ≡ pending self.old }
        ensures due { due_of self.new ≡ due_of self.old }
    {
        if self.given == self.bytes.len() {
            self.bytes = Vec::new(alloc);
            self.given = 0;
        }
    }

    /// Gives back the room of what was given. Where memory is refused nothing changes.
    pub(crate) fn keep_rest(&mut self, alloc: Global) -> Result<(), AllocError>
        ensures pending { pending self.new ≡ pending self.old }
        ensures due { due_of self.new ≡ due_of self.old }
    {
        if self.given > 0 {
            let mut rest = Vec::new(alloc);
            rest.extend_from_slice(self.pending())?;
            self.bytes = rest;
            self.given = 0;
        }
        Ok(())
    }
}
