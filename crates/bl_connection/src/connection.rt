//! A session over a stream that may say that it would block. Each call reads, hears, tells or writes once, and waits
//! for nothing: what is to come next is asked by `state`. What is asked of the machine is met by whoever owns the
//! connection.
//!
//! A read has room for 120 bytes, 512 or 16 KB, by how many came last without a pause, and no more is read before all of
//! that was heard. Nothing is heard before all that was told is written, and no more is told once 64 KB wait. So a
//! client that takes nothing costs a block, 16 KB and less than 64 KB and one part of a reply, and after a fault of
//! reading all that was told is written.
ghost use Rattle.std.specs.Prelude.{◌≡◌, ◌<◌, ◌≤◌, length};

use crate::known::Known;
use crate::stream::{Answer, Stream};
use crate::telling::tell_parts;
use bl_engine::block::Replies;
use bl_engine::conversation::{Conversation, Need, Opening};
use bl_engine::request::Request;
use bl_wire::fault::SessionFault;
use bl_work::names::Names;
use std::alloc::{AllocError, Global};

/// How many bytes a read takes at most.
const MOST_READ: usize = 16_384;

/// How many it takes at most where fewer came last: a long line, or some.
const SOME_READ: usize = 512;

/// How many it takes at most where fewer came last: a short line and `wait`.
const FEW_READ: usize = 120;

/// How many bytes have room at first of what is told: a short line's reply, and `ok`.
const FEW_TOLD: usize = 64;

/// Where a connection is: what is to be done next.
#[derive(Clone, Copy, Debug, PartialEq, Eq)]
pub enum State {
    /// The stream is to be read.
    Reads,
    /// What was read is to be heard, or the end of the input.
    Hears,
    /// The session is to be opened.
    Opens,
    /// The block is to be answered.
    Settles,
    /// The replies to the block, or other words, are to be told.
    Tells,
    /// What was told is to be written.
    Writes,
    /// Nothing: all was said and written.
    Over,
}

/// Whether a read or a write moved something.
#[derive(Clone, Copy, Debug, PartialEq, Eq)]
pub enum Progress {
    /// Bytes went through, or the input was found at its end.
    Moved,
    /// The stream would block.
    Blocked,
}

/// A session over a stream: the stream, and what was known of its bytes at first; the conversation; the bytes that were
/// read last, how many of them were heard, whether they filled their room, how many came with those that did before
/// without a pause, and whether the stream's input is at its end; the bytes that were told last, and how many of them
/// were written.
#[derive(Drop)]
pub struct Connection<S> {
    stream: S,
    first: Known,
    alloc: Global,
    conv: Conversation,
    input: Vec<u8>,
    heard: usize,
    filled: bool,
    came: usize,
    ended: bool,
    output: Vec<u8>,
    written: usize,
    ghost heard_within: { heard ≤ length input.items },
    ghost written_within: { written ≤ length output.items },
}

/// How many bytes a read is to take at most, by how many came last without a pause.
fn room_for(came: usize) -> usize
    ensures some { 0 < result }
    ensures most { result ≤ 16384 }
{
    if came < FEW_READ {
        FEW_READ
    } else if came < SOME_READ {
        SOME_READ
    } else {
        MOST_READ
    }
}

/// How many bytes came without a pause, with so many that have just come, where those before filled their room or not.
fn came_with(before: usize, filled: bool, count: usize) -> usize {
    if filled {
        before.saturating_add(count)
    } else {
        count
    }
}

impl<S: Stream> Connection<S> {
    ghost use Rattle.std.specs.Prelude.{◌⊎◌, ◌+◌, [], true, false, ℕ, List, IfOk, IfErr, OnOk, drop};
    ghost use Rattle.bl_wire.specs.declared.fault.SessionFault.TheVariants.{Read, Write, TooLong, Memory};
    ghost use Rattle.bl_engine.specs.Conversations.{GoesOnAlone, SameBlock, last_ordinal, need_of, waits_left};
    ghost use Rattle.bl_engine.specs.Parts.{MayTake};
    ghost use Rattle.bl_engine.specs.declared.conversation.Need.TheVariants as needs;
    ghost use Rattle.bl_connection.specs.Connections.{BeginsText, Finishes, HearsMore, IsAnswered, IsHeard, IsNew};
    ghost use Rattle.bl_connection.specs.Connections.{OpensAs, SameBytes, StaysConnected, StopsAs, TellsMore, state_of};
    ghost use Rattle.bl_connection.specs.Connections.{unheard, unwritten};
    ghost use Rattle.bl_connection.specs.declared.connection.Progress.TheVariants.{Moved, Blocked};
    ghost use Rattle.bl_connection.specs.declared.connection.State.TheVariants as states;
    ghost use Rattle.bl_connection.specs.declared.stream.Answer.TheVariants as answers;

    /// A connection over a stream of which nothing was read and to which nothing was written. An error comes where
    /// memory was refused.
    pub fn new(alloc: Global, stream: S) -> Result<Connection<S>, AllocError>
    where
        S: Drop,
        ensures new { IfOk result (IsNew S.remaining S.contents stream) }
        ensures state { IfOk result (λ conn. state_of conn ≡ states.Reads) }
    {
        let conv = Conversation::new(alloc)?;
        Ok(Connection {
            first: Known::of(&stream),
            stream,
            alloc,
            conv,
            input: Vec::new(alloc),
            heard: 0,
            filled: false,
            came: 0,
            ended: false,
            output: Vec::new(alloc),
            written: 0,
        })
    }

    /// Where it is.
    pub fn state(&self) -> State
        ensures { result ≡ state_of self.now }
    {
        if self.written < self.output.len() {
            return State::Writes;
        }
        match self.conv.need() {
            Need::Input => {
                if self.heard < self.input.len() || self.ended {
                    State::Hears
                } else {
                    State::Reads
                }
            }
            Need::End => State::Hears,
            Need::Opening => State::Opens,
            Need::Replies => State::Settles,
            Need::Room => State::Tells,
            Need::Over => State::Over,
        }
    }

    /// The last ordinal before the block.
    pub fn after(&self) -> u32
        ensures { result ≡ self.now.conv.after }
    {
        self.conv.after()
    }

    /// The last ordinal of the block.
    pub fn ordinal(&self) -> u32
        ensures { result ≡ last_ordinal self.now.conv }
    {
        self.conv.ordinal()
    }

    /// Reads the stream once. `Read` comes where the stream failed, and `Memory` where memory was refused; then nothing
    /// was read.
    pub fn read(&mut self) -> Result<Progress, SessionFault>
        requires { state_of self.old ≡ states.Reads }
        ensures stays { StaysConnected S.remaining S.contents self.old self.new }
        ensures block { self.new.conv ≡ self.old.conv }
        ensures moved { IfOk result (λ progress. progress ≡ Moved
            → S.reads self.old.stream (answers.Moved (length (unheard self.new))) self.new.stream) }
        ensures blocked { IfOk result (λ progress. progress ≡ Blocked
            → S.reads self.old.stream answers.WouldBlock self.new.stream) }
        ensures hears { IfOk result (λ progress. progress ≡ Moved → state_of self.new ≡ states.Hears) }
        ensures fault { IfErr result (λ fault. (fault ≡ Memory) ⊎ ((fault ≡ Read)
            × S.reads self.old.stream answers.Failed self.new.stream)) }
        ensures err { IfErr result (λ fault. (left : ℕ → List ℕ)
            → StopsAs S.remaining S.contents fault left self.old self.new) }
    {
        let most = room_for(self.came);
        let mut room = vec![in self.alloc; 0u8; most]?;
        let count = match self.stream.read(room.as_mut_slice()) {
            Answer::Moved(count) => count,
            Answer::WouldBlock => return Ok(Progress::Blocked),
            Answer::Failed => return Err(SessionFault::Read),
        };
        room.truncate(count);
        self.input = room;
        self.heard = 0;
        self.came = came_with(self.came, self.filled, count);
        self.filled = count == most;
        self.ended = count == 0;
        Ok(Progress::Moved)
    }

    /// Hears one line more of what was read, or a part of one, or the end of the input, and says what is asked then.
    /// `TooLong` comes where more was read than a session may hear, and `Memory` where memory was refused; then the
    /// connection is to be dropped.
    pub fn hear(&mut self, names: &Names) -> Result<Option<Request>, SessionFault>
        requires { state_of self.old ≡ states.Hears }
        ensures heard { IfOk result (HearsMore S.remaining S.contents names.now self.old self.new) }
        ensures nearer { OnOk result (waits_left self.new.conv < waits_left self.old.conv) }
        ensures written { OnOk result ((self.new.stream ≡ self.old.stream)
            × (unwritten self.new ≡ unwritten self.old)) }
        ensures fault { IfErr result (λ fault. (fault ≡ Memory) ⊎ (fault ≡ TooLong)) }
        ensures err { IfErr result (λ fault. (left : ℕ → List ℕ)
            → StopsAs S.remaining S.contents fault left self.old self.new) }
    {
        if self.is_heard() {
            return Ok(self.conv.end(self.alloc, names)?);
        }
        let heard = self
            .conv
            .hear(self.alloc, names, &self.input[self.heard..])?;
        self.heard += heard.taken;
        self.forget_heard();
        Ok(heard.request)
    }

    /// Whether all that was read was heard, and the end of the input is to be.
    fn is_heard(&self) -> bool
        requires { state_of self.now ≡ states.Hears }
        ensures all { result ≡ true → IsHeard self.now }
        ensures some { result ≡ false → (need_of self.now.conv ≡ needs.Input)
            × (self.now.heard < length self.now.input.items) }
    {
        match self.conv.need() {
            Need::Input => self.heard == self.input.len(),
            _ => true,
        }
    }

    /// Gives the room back of what was read, once all of it was heard.
    fn forget_heard(&mut self)
        ensures { SameBytes self.old self.new }
    {
        if self.heard == self.input.len() {
            self.input = Vec::new(self.alloc);
            self.heard = 0;
        }
    }

    /// Hears how the machine takes the subject.
    pub fn opened(&mut self, opening: Opening)
        requires { state_of self.old ≡ states.Opens }
        ensures opened { OpensAs S.remaining S.contents opening self.old self.new }
        ensures block { SameBlock self.old.conv self.new.conv }
        ensures state { state_of self.new ≡ states.Tells }
    {
        self.conv.opened(opening);
    }

    /// Hears that the replies to its block are there.
    pub fn answered(&mut self)
        requires { state_of self.old ≡ states.Settles }
        ensures answered { IsAnswered S.remaining S.contents self.old self.new }
        ensures block { SameBlock self.old.conv self.new.conv }
        ensures state { state_of self.new ≡ states.Tells }
    {
        self.conv.answered();
    }

    /// Tells the next parts of what it has to say, until 64 KB or more wait to be written, or it has told all. `Memory`
    /// comes where memory was refused; then the connection is to be dropped.
    pub fn tell<B: Replies>(&mut self, block: &mut B) -> Result<(), SessionFault>
        requires state { state_of self.old ≡ states.Tells }
        requires stands { MayTake (B.stands block.old) (self.old.conv.after + self.old.conv.line + 1) }
        ensures told { OnOk result (TellsMore S.remaining S.contents (B.left block.old) (B.left block.new) self.old
            self.new) }
        ensures stands { need_of self.new.conv ≡ needs.Room
            → MayTake (B.stands block.new) (self.new.conv.after + self.new.conv.line + 1) }
        ensures last { OnOk result (last_ordinal self.new.conv ≡ last_ordinal self.old.conv) }
        ensures done { OnOk result ((need_of self.new.conv ≡ needs.Room → ⊥) → (self.new.conv.pending.items ≡ [])
            × GoesOnAlone 0 self.new.conv.stage) }
        ensures most { OnOk result (need_of self.new.conv ≡ needs.Room → 65536 ≤ length (unwritten self.new)) }
        ensures fault { IfErr result (λ fault. fault ≡ Memory) }
        ensures err { IfErr result (λ fault. StopsAs S.remaining S.contents Write (B.left block.old) self.old
            self.new) }
    {
        self.output.clear();
        self.written = 0;
        self.output.reserve(FEW_TOLD)?;
        tell_parts(self.alloc, block, &mut self.conv, &mut self.output)?;
        Ok(())
    }

    /// Writes to the stream once. `Write` comes where it failed, or took nothing.
    pub fn write(&mut self) -> Result<Progress, SessionFault>
        requires { state_of self.old ≡ states.Writes }
        ensures stays { StaysConnected S.remaining S.contents self.old self.new }
        ensures block { self.new.conv ≡ self.old.conv }
        ensures moved { IfOk result (λ progress. progress ≡ Moved → (n : ℕ)
            × S.writes self.old.stream (unwritten self.old) (answers.Moved n) self.new.stream × (0 < n)
            × (unwritten self.new ≡ drop n (unwritten self.old))) }
        ensures blocked { IfOk result (λ progress. progress ≡ Blocked
            → S.writes self.old.stream (unwritten self.old) answers.WouldBlock self.new.stream) }
        ensures fault { IfErr result (λ fault. (fault ≡ Write)
            × (S.writes self.old.stream (unwritten self.old) answers.Failed self.new.stream
            ⊎ S.writes self.old.stream (unwritten self.old) (answers.Moved 0) self.new.stream)) }
        ensures err { IfErr result (λ fault. (left : ℕ → List ℕ)
            → StopsAs S.remaining S.contents fault left self.old self.new) }
    {
        let count = match self.stream.write(&self.output[self.written..]) {
            Answer::Moved(count) => count,
            Answer::WouldBlock => return Ok(Progress::Blocked),
            Answer::Failed => return Err(SessionFault::Write),
        };
        if count == 0 {
            return Err(SessionFault::Write);
        }
        self.written += count;
        self.forget_written();
        Ok(Progress::Moved)
    }

    /// Gives the room back of what was told, once all of it was written.
    fn forget_written(&mut self)
        ensures { SameBytes self.old self.new }
    {
        if self.written == self.output.len() {
            self.output = Vec::new(self.alloc);
            self.written = 0;
        }
    }

    /// Gives the stream of a session that is over, for its owner to shut.
    pub fn finish(self) -> S
        requires { state_of self ≡ states.Over }
        ensures stream { result ≡ self.stream }
        ensures finishes { Finishes S.remaining S.contents self }
    {
        self.into_stream()
    }

    /// Gives the stream at any moment, after a fault of it too.
    pub fn leave(self) -> S
        ensures stream { result ≡ self.stream }
        ensures begins { BeginsText S.remaining S.contents self }
    {
        self.into_stream()
    }

    fn into_stream(self) -> S
        ensures { result ≡ self.stream }
    {
        let Connection {
            stream,
            first: _,
            alloc: _,
            conv: _,
            input: _,
            heard: _,
            filled: _,
            came: _,
            ended: _,
            output: _,
            written: _,
        } = self;
        stream
    }
}
