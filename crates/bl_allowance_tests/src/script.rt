//! A stream that answers as a script says.
ghost use Rattle.std.specs.Prelude.{◌≤◌, length};

use bl_connection::stream::{Answer, Stream};

/// A read would block.
const BLOCKS: u8 = b'|';

/// A read fails.
const FAILS: u8 = b'!';

/// A read gives no more than what stands before this.
const CUTS: u8 = b'/';

/// A stream that answers its reads by a script: it gives the bytes there, up to one of these marks, answers as that
/// says, and is at its end behind all. It takes all that is written, and counts it.
#[derive(Drop)]
pub(crate) struct Script<'a> {
    script: &'a [u8],
    /// So far it has come in its script.
    pub(crate) at: usize,
    /// So many bytes were written.
    pub(crate) written: u64,
}

/// How many bytes stand before the first mark.
fn part_len(script: &[u8]) -> usize {
    script
        .iter()
        .position(|byte| *byte == BLOCKS || *byte == FAILS || *byte == CUTS)
        .unwrap_or(script.len())
}

/// How a read is answered that moves nothing.
#[derive(Clone, Copy)]
enum Mark {
    Blocks,
    Fails,
}

/// The mark at the front of what is left of the script; none where bytes stand there, or nothing.
fn mark_at(script: &[u8]) -> Option<Mark> {
    match script.first().copied() {
        Some(BLOCKS) => Some(Mark::Blocks),
        Some(FAILS) => Some(Mark::Fails),
        Some(_) | None => None,
    }
}

/// How many bytes of the script a read with so much room takes, and whether a cut behind them is passed.
fn part_of(script: &[u8], room: usize) -> (usize, bool) {
    let part = part_len(script).min(script.len());
    let count = part.min(room);
    let is_cut = count == part && script.get(count).copied() == Some(CUTS);
    (count, is_cut)
}

impl<'a> Script<'a> {
    /// A stream that answers so.
    pub(crate) fn new(script: &'a [u8]) -> Script<'a> {
        Script {
            script,
            at: 0,
            written: 0,
        }
    }

    /// What is left of the script.
    fn rest(&self) -> &[u8] {
        self.script.split_at(self.at.min(self.script.len())).1
    }

    /// Passes the mark that comes next, if one does.
    fn mark(&mut self) -> Option<Mark> {
        let mark = mark_at(self.rest());
        if mark.is_some() {
            self.at = self.at.saturating_add(1);
        }
        mark
    }

    /// Gives what comes next, as much as there is room for.
    fn give(&mut self, room: &mut [u8]) -> usize
        ensures { result ≤ length room.new }
    {
        let rest = self.rest();
        let (part, is_cut) = part_of(rest, room.len());
        let count = part.min(rest.len()).min(room.len());
        room[..count].copy_from_slice(&rest[..count]);
        self.at = self
            .at
            .saturating_add(count)
            .saturating_add(usize::from(is_cut));
        count
    }
}

impl Stream for Script<'_> {
    ghost use Rattle.std.specs.Prelude.{None, ⊤};

    ghost remaining = { λ _. None };

    ghost contents = { λ _. None };

    ghost reads = { λ _ _ _. ⊤ };

    ghost writes = { λ _ _ _ _. ⊤ };

    fn read(&mut self, room: &mut [u8]) -> Answer {
        match self.mark() {
            Some(Mark::Blocks) => Answer::WouldBlock,
            Some(Mark::Fails) => Answer::Failed,
            None => Answer::Moved(self.give(room)),
        }
    }

    fn write(&mut self, bytes: &[u8]) -> Answer {
        self.written = self.written.saturating_add(bytes.len() as u64);
        Answer::Moved(bytes.len())
    }
}
