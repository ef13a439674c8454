//! What a stream gave and was not given on yet.
ghost use Rattle.std.specs.Prelude.{◌≡◌, false, true};
ghost use Rattle.bl_allowance.specs.Buffers.{pending};
ghost use Rattle.bl_allowance.specs.Lines.{lines_in};

use crate::buffer::Buffer;
use crate::offer::{Offer, is_part, offer_of};
use bl_connection::stream::{Answer, Stream};
use std::alloc::Global;

/// Why there is nothing to be given.
#[derive(Clone, Copy, Debug, PartialEq, Eq)]
pub(crate) enum Stop {
    /// The stream would block.
    Blocks,
    /// The stream failed, or memory was refused.
    Fails,
}

/// A stream, and what it gave and was not given on yet.
#[derive(Drop)]
pub(crate) struct Intake<S> {
    pub(crate) inner: S,
    alloc: Global,
    pub(crate) buffer: Buffer,
    /// Whether what is held goes on with a line that is too long to be one.
    long: bool,
    /// Whether all that is held was looked at, and nothing of it may be given.
    part: bool,
    /// Whether the stream is at its end.
    ended: bool,
    ghost no_end: { part ≡ true → lines_in (pending buffer) ≡ 0 },
    ghost goes_on: { part ≡ true → ended ≡ false },
}

impl<S> Intake<S> {
    ghost use Rattle.std.specs.Prelude.{◌<◌, ◌≤◌, [], drop, length, min, take};
    ghost use Rattle.bl_allowance.specs.Buffers.{due_of};
    ghost use Rattle.bl_allowance.specs.Intakes.{GoesOnAlike};
    ghost use Rattle.bl_allowance.specs.Lines.{HasNoMore, MayGive};

    /// A stream of which nothing was read.
    pub(crate) fn new(alloc: Global, inner: S) -> Intake<S>
        ensures inner { result.inner ≡ inner }
        ensures pending { pending result.buffer ≡ [] }
        ensures due { due_of result.buffer ≡ [] }
        ensures whole { (result.long ≡ false) × (result.ended ≡ false) }
    {
        Intake {
            inner,
            alloc,
            buffer: Buffer::new(alloc),
            long: false,
            part: false,
            ended: false,
        }
    }

    /// Gives the stream.
    pub(crate) fn into_inner(self) -> S
        ensures { result ≡ self.inner }
    {
        let Intake {
            inner,
            alloc: _,
            buffer,
            long: _,
            part: _,
            ended: _,
        } = self;
        drop(buffer);
        inner
    }

    /// What may be given at once of what is held.
    fn offer(&self) -> Offer
        ensures within { result.bytes ≤ length (pending self.now.buffer) }
        ensures given { 0 < result.bytes → MayGive self.now.ended self.now.long result.long result.lines
            (take result.bytes (pending self.now.buffer)) }
        ensures none { result.bytes ≡ 0 → HasNoMore self.now.ended self.now.long (pending self.now.buffer)
            × (result.lines ≡ 0) }
    {
        offer_of(self.buffer.pending(), self.long, self.ended)
    }

    /// Has what is offered due.
    pub(crate) fn take_up(&mut self, offer: Offer)
        requires { offer.bytes ≤ length (pending self.old.buffer) }
        ensures pending { pending self.new.buffer ≡ pending self.old.buffer }
        ensures due { due_of self.new.buffer ≡ take offer.bytes (pending self.old.buffer) }
        ensures long { self.new.long ≡ offer.long }
        ensures stream { (self.new.inner ≡ self.old.inner) × (self.new.ended ≡ self.old.ended) }
    {
        self.part = false;
        self.long = offer.long;
        self.buffer.have_due(offer.bytes);
    }

    /// Gives the next of what is due, as much as there is room for, and says how many bytes that are.
    pub(crate) fn give(&mut self, room: &mut [u8]) -> usize
        ensures count { result ≡ min (length (due_of self.old.buffer)) (length room.old) }
        ensures given { take result room.new ≡ take result (due_of self.old.buffer) }
        ensures room { length room.new ≡ length room.old }
        ensures due { due_of self.new.buffer ≡ drop result (due_of self.old.buffer) }
        ensures pending { pending self.new.buffer ≡ drop result (pending self.old.buffer) }
        ensures same { GoesOnAlike self.old self.new }
    {
        let count = self.buffer.give(room);
        self.buffer.forget_given(self.alloc);
        count
    }

    /// Drops all that is held.
    pub(crate) fn drop_held(&mut self)
        ensures pending { pending self.new.buffer ≡ [] }
        ensures due { due_of self.new.buffer ≡ [] }
        ensures stream { (self.new.inner ≡ self.old.inner) × (self.new.ended ≡ self.old.ended) }
    {
        self.part = false;
        self.buffer = Buffer::new(self.alloc);
    }
}

impl<S: Stream> Intake<S> {
    ghost use Rattle.std.specs.Prelude.{◌<◌, ◌≤◌, ◌++◌, [], length, take, IfErr, IfOk, OnErr, OnOk};
    ghost use Rattle.std.specs.Io.KnownBytes.{Keeps};
    ghost use Rattle.bl_connection.specs.Answers.{Gives, Takes};
    ghost use Rattle.bl_allowance.specs.Buffers.{due_of};
    ghost use Rattle.bl_allowance.specs.Intakes.{EndsWithStream, GivesOrEnds, GoesOnAlike, OrFails, StaysInOrder};
    ghost use Rattle.bl_allowance.specs.Intakes.{WaitsForMore, waits_left};
    ghost use Rattle.bl_allowance.specs.Lines.{MayGive};
    ghost use Rattle.bl_allowance.specs.declared.intake.Stop.TheVariants.{Blocks, Fails};

    /// Holds what came, and looks at it. `Fails` comes where memory was refused; then nothing changes.
    fn take_in(&mut self, came: &[u8]) -> Result<(), Stop>
        requires some { 0 < length came.now }
        requires part { self.old.part ≡ true }
        ensures pending { OnOk result (pending self.new.buffer ≡ pending self.old.buffer ++ came.now) }
        ensures refused { OnErr result (pending self.new.buffer ≡ pending self.old.buffer) }
        ensures err { IfErr result (λ stop. stop ≡ Fails) }
        ensures due { due_of self.new.buffer ≡ due_of self.old.buffer }
        ensures same { GoesOnAlike self.old self.new }
        ensures next { OnOk result (self.new.part ≡ false → GivesOrEnds self.new) }
        ensures nearer { OnOk result (waits_left self.new < waits_left self.old) }
    {
        match self.buffer.add(came) {
            Ok(()) => {
                self.part = is_part(self.buffer.pending(), came, self.long);
                Ok(())
            }
            Err(_refused) => Err(Stop::Fails),
        }
    }

    /// Reads the stream, past all that is held.
    pub(crate) fn read_through(&mut self, room: &mut [u8]) -> Answer
        ensures bytes { Gives (S.remaining self.old.inner) (S.remaining self.new.inner) result room.new }
        ensures others { Keeps (S.contents self.old.inner) (S.contents self.new.inner) }
        ensures answer { S.reads self.old.inner result self.new.inner }
        ensures same { self.new ≡ record self.old { inner = self.new.inner } }
    {
        self.inner.read(room)
    }

    /// Writes to the stream.
    pub(crate) fn write(&mut self, bytes: &[u8]) -> Answer
        ensures bytes { Takes (S.contents self.old.inner) (S.contents self.new.inner) result bytes.now }
        ensures others { Keeps (S.remaining self.old.inner) (S.remaining self.new.inner) }
        ensures answer { S.writes self.old.inner bytes.now result self.new.inner }
        ensures same { self.new ≡ record self.old { inner = self.new.inner } }
    {
        self.inner.write(bytes)
    }

    /// Reads the stream once, into `room`. `Fails` comes where it failed or memory was refused.
    fn read_once(&mut self, room: &mut [u8]) -> Result<(), Stop>
        requires room { 0 < length room.old }
        requires part { self.old.part ≡ true }
        ensures order { OrFails result (StaysInOrder S.remaining self.old self.new) }
        ensures ended { EndsWithStream S.remaining self.old self.new }
        ensures others { Keeps (S.contents self.old.inner) (S.contents self.new.inner) }
        ensures blocked { IfErr result (λ stop. stop ≡ Blocks → WaitsForMore S.reads self.new) }
        ensures next { OnOk result (self.new.part ≡ false → GivesOrEnds self.new) }
        ensures nearer { OnOk result (waits_left self.new < waits_left self.old) }
    {
        match self.inner.read(room) {
            Answer::Moved(0) => {
                self.ended = true;
                self.part = false;
                Ok(())
            }
            Answer::Moved(count) => self.take_in(&room[..count]),
            Answer::WouldBlock => Err(Stop::Blocks),
            Answer::Failed => Err(Stop::Fails),
        }
    }

    /// Reads the stream until something of what is held may be given, or it has ended, or would block: whoever waits
    /// for it is only told again after that. `Fails` comes where it failed or memory was refused.
    fn fill(&mut self, room: &mut [u8]) -> Result<(), Stop>
        requires room { 0 < length room.old }
        requires part { self.old.part ≡ true }
        ensures order { OrFails result (StaysInOrder S.remaining self.old self.new) }
        ensures ended { EndsWithStream S.remaining self.old self.new }
        ensures others { Keeps (S.contents self.old.inner) (S.contents self.new.inner) }
        ensures blocked { IfErr result (λ stop. stop ≡ Blocks → WaitsForMore S.reads self.new) }
        ensures next { OnOk result (GivesOrEnds self.new) }
    {
        while self.part {
            self.read_once(room)?;
        }
        Ok(())
    }

    /// What may be given next, where nothing is due: of what is held, or else of what the stream gives now. Nothing is
    /// offered at its end alone. `Fails` comes where it failed or memory was refused.
    pub(crate) fn find(&mut self, room: &mut [u8]) -> Result<Offer, Stop>
        requires room { 0 < length room.old }
        ensures within { IfOk result (λ offer. offer.bytes ≤ length (pending self.new.buffer)) }
        ensures given { IfOk result (λ offer. 0 < offer.bytes → MayGive self.new.ended self.new.long offer.long
            offer.lines (take offer.bytes (pending self.new.buffer))) }
        ensures none { IfOk result (λ offer. offer.bytes ≡ 0 → (self.new.ended ≡ true)
            × (pending self.new.buffer ≡ [])) }
        ensures order { OrFails result (StaysInOrder S.remaining self.old self.new) }
        ensures ended { EndsWithStream S.remaining self.old self.new }
        ensures others { Keeps (S.contents self.old.inner) (S.contents self.new.inner) }
        ensures blocked { IfErr result (λ stop. stop ≡ Blocks → WaitsForMore S.reads self.new) }
    {
        if !self.part {
            let offer = self.offer();
            if offer.bytes > 0 || self.ended {
                return Ok(offer);
            }
            if self.buffer.keep_rest(self.alloc).is_err() {
                return Err(Stop::Fails);
            }
            self.part = true;
        }
        self.fill(room)?;
        Ok(self.offer())
    }
}
