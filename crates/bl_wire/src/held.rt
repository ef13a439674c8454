//! A line while it comes. Only its first 8,193 bytes are kept, which is enough to tell what the
//! line is: a line has at most 8,192 bytes, and a CR may stand behind it.
ghost use Rattle.std.specs.Prelude.{◌≡◌, ◌++◌, [], List, ℕ, IfOk, fold, nat_lt, length, take, ◌≤◌, ◌+◌, ◌||◌};
ghost use Rattle.std.specs.Prelude.{vec_capacity};

use std::alloc::{AllocError, Global};

/// How many bytes of a line are kept: as many as a line may have, and the CR behind it.
const KEPT: usize = 8193;

/// Whether there was anything but blanks, and a CR behind them.
#[derive(Clone, Copy, Debug, PartialEq, Eq)]
pub enum Look {
    /// Blanks alone.
    Blank,
    /// Blanks and then one CR.
    BlankThenCr,
    /// Anything else.
    Filled,
}

/// The first 8,193 bytes of a line, and what all of it looks like.
#[derive(Drop)]
pub struct Held {
    pub bytes: Vec<u8>,
    pub look: Look,
    pub over: bool,
    ghost room: { 8193 ≤ vec_capacity bytes },
}

ghost use Rattle.bl_wire.specs.Look.{look_after};

fn next_look(look: Look, byte: u8) -> Look
    ensures { result ≡ look_after look byte }
{
    match look {
        Look::Blank => match byte {
            b' ' | b'\t' => Look::Blank,
            b'\r' => Look::BlankThenCr,
            _ => Look::Filled,
        },
        Look::BlankThenCr | Look::Filled => Look::Filled,
    }
}

pub(crate) fn look_on(look: Look, part: &[u8]) -> Look
    ensures { result ≡ fold look_after look part.now }
{
    let mut now = look;
    for byte in part {
        match now {
            // no byte changes it any more
            Look::Filled => return Look::Filled,
            Look::Blank | Look::BlankThenCr => now = next_look(now, *byte),
        }
    }
    now
}

impl Held {
    ghost use Rattle.bl_wire.specs.HoldsLine.{HoldsLine};

    /// Room for a line; no line has begun.
    pub fn new(alloc: Global) -> Result<Held, AllocError>
        ensures { IfOk result (λ held. HoldsLine held []) }
    {
        Ok(Held {
            bytes: Vec::with_capacity(alloc, KEPT)?,
            look: Look::Blank,
            over: false,
        })
    }

    /// Begins the next line.
    pub fn clear(&mut self)
        ensures { HoldsLine self.new [] }
    {
        self.bytes.clear();
        self.look = Look::Blank;
        self.over = false;
    }

    /// Keeps of the part what there is room for.
    fn keep(&mut self, part: &[u8])
        ensures bytes { length self.old.bytes.items ≤ 8193
            → self.new.bytes.items ≡ take 8193 (self.old.bytes.items ++ part.now) }
        ensures over { length self.old.bytes.items ≤ 8193
            → self.new.over ≡ (self.old.over || nat_lt 8193 (length self.old.bytes.items + length part.now)) }
        ensures look { self.new.look ≡ self.old.look }
    {
        let room = KEPT.saturating_sub(self.bytes.len());
        if part.len() <= room {
            self.bytes.extend_from_slice(part).unwrap();
        } else {
            self.bytes.extend_from_slice(&part[..room]).unwrap();
            self.over = true;
        }
    }

    /// Adds the next part of the line.
    pub fn add(&mut self, part: &[u8])
        ensures { (line : List ℕ) → HoldsLine self.old line → HoldsLine self.new (line ++ part.now) }
    {
        self.keep(part);
        self.look = look_on(self.look, part);
    }
}
