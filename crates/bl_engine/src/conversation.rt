//! A conversation of a session as a value: it is handed bytes as they come and replies as they are there, says what it
//! asks of the machine behind it, and tells what it has to say. It calls no reader and no machine, so it can be left at
//! any moment, and many of them can share a thread.
ghost use Rattle.std.specs.Prelude.{◌≡◌, ◌+◌, ◌≤◌, ◌<◌, ◌^◌, ◌++◌, ◌∷◌, [], ◌⊎◌, ℕ, List, Bool, true, false, Option};
ghost use Rattle.std.specs.Prelude.{Some, None, IfOk, OnOk, IfErr, IfNone, IfSome, length, take, drop};
ghost use Rattle.bl_engine.specs.Unopened.{is_unopened};

use crate::block::{Replies, greeting, put_reply};
use crate::request::Request;
use bl_wire::fault::SessionFault;
use bl_wire::held::Held;
use bl_wire::part::{Part, scan, whole_line};
use bl_wire::put::put;
use bl_wire::turn::{Pending, Turn, turn_held, turn_shown};
use bl_wire::watched::Watched;
use bl_work::names::Names;
use std::alloc::{AllocError, Global};
use std::io::Write;

/// How many bytes a session may read.
const MOST: usize = 16_777_216;

/// What a conversation waits for.
#[derive(Clone, Copy, Debug, PartialEq, Eq)]
pub enum Need {
    /// More bytes, to be heard, or the end of the input.
    Input,
    /// Nothing but to be told once more that the input is at its end.
    End,
    /// How the machine takes the subject.
    Opening,
    /// The replies to its block.
    Replies,
    /// Room for what it has to tell.
    Room,
    /// Nothing: all was said.
    Over,
}

/// How the machine takes a subject who asks for a session.
#[derive(Clone, Copy, Debug, PartialEq, Eq)]
pub enum Opening {
    /// The session is open.
    Open,
    /// There are as many sessions as there may be, and none was opened.
    Full,
}

/// What closes that which is told.
#[derive(Clone, Copy, Debug, PartialEq, Eq)]
pub enum Closing {
    /// `ok`, and the session goes on.
    GoesOn,
    /// `bye`, since the input is at its end.
    Ends,
    /// `refused hello` and `bye`.
    RefusesHello,
    /// `refused sessions` and `bye`.
    FindsFull,
}

/// How far a conversation has come.
#[derive(Clone, Copy, Debug, PartialEq, Eq)]
pub enum Stage {
    /// It hears its first lines, up to one that is not skipped.
    Greets,
    /// It has asked that its session be opened.
    Opens,
    /// It hears the lines of its session.
    Listens,
    /// It has asked that its block be answered.
    Settles(Closing),
    /// It tells the replies to its block, and then what closes them.
    Tells(Closing),
    /// All was said.
    Over,
}

/// What was heard: of the bytes that were handed over so many, and what is asked at them.
#[derive(Drop)]
pub struct Heard {
    pub taken: usize,
    pub request: Option<Request>,
}

/// A session: what is held of the line that has begun, if one has, how many bytes may still be heard, whether the input
/// is at its end, the last ordinal before the block, the block's lines, and how many of them were told. So one whose
/// lines have all ended holds no room for a line.
#[derive(Drop)]
pub struct Conversation {
    pub held: Option<Held>,
    pub left: usize,
    pub ended: bool,
    pub after: u32,
    pub pending: Vec<Pending>,
    pub line: usize,
    pub stage: Stage,
    ghost few: { after + length pending.items + left ≤ 16777217 },
    ghost fewer: { ended ≡ false → after + length pending.items + left ≤ 16777216 },
    ghost within: { line ≤ length pending.items },
    ghost unopened: { is_unopened stage ≡ true → after + length pending.items ≡ 0 },
}

impl Closing {
    ghost use Rattle.bl_engine.specs.Conversations.{words_of, stage_behind};

    /// Its words.
    fn words(self) -> &'static [u8]
        ensures { result.now ≡ words_of self }
    {
        match self {
            Closing::GoesOn => b"ok\n",
            Closing::Ends => b"bye\n",
            Closing::RefusesHello => b"refused hello\nbye\n",
            Closing::FindsFull => b"refused sessions\nbye\n",
        }
    }

    /// What comes after them.
    fn next(self) -> Stage
        ensures { result ≡ stage_behind self }
    {
        match self {
            Closing::GoesOn => Stage::Listens,
            Closing::Ends | Closing::RefusesHello | Closing::FindsFull => Stage::Over,
        }
    }
}

impl Conversation {
    ghost use Rattle.bl_wire.specs.Watch.{end_state, Puts};
    ghost use Rattle.bl_wire.specs.declared.fault.SessionFault.TheVariants.{TooLong, Memory};
    ghost use Rattle.bl_wire.specs.HoldsLine.{HoldsLine};
    ghost use Rattle.bl_wire.specs.Lines.{HasNoLf};
    ghost use Rattle.bl_wire.specs.Reads.{IsWholeLine};
    ghost use Rattle.bl_work.specs.Names.{KnownNames};
    ghost use Rattle.bl_engine.specs.Parts.{MayTake};
    ghost use Rattle.bl_engine.specs.Conversations.{Given, Spoke, Hears, Says, IsOpenedAs, IsAnswered, TakesTurn};
    ghost use Rattle.bl_engine.specs.Conversations.{TakesLine, HoldsBegun, LetsGo, TellsPart, Closes, Keeps};
    ghost use Rattle.bl_engine.specs.Conversations.{KeepsBlock, SameBlock, GoesOnAlone, last_ordinal, need_of};
    ghost use Rattle.bl_engine.specs.Conversations.{words_of, is_hearing, parts_left, waits_left, HasRoom};
    ghost use Rattle.bl_engine.specs.declared.conversation.Need.TheVariants as needs;
    ghost use Rattle.bl_engine.specs.declared.conversation.Stage.TheVariants as stages;

    /// A conversation of which nothing was heard yet.
    pub fn new(alloc: Global) -> Result<Conversation, AllocError>
        ensures spoke { IfOk result (λ conv. (names : KnownNames) (given : Given) (left : ℕ → List ℕ)
            → Spoke names given left conv [] [] [] []) }
        ensures need { IfOk result (λ conv. need_of conv ≡ needs.Input) }
    {
        Ok(Conversation {
            held: None,
            left: MOST,
            ended: false,
            after: 0,
            pending: Vec::new(alloc),
            line: 0,
            stage: Stage::Greets,
        })
    }

    /// What it waits for.
    pub fn need(&self) -> Need
        ensures { result ≡ need_of self.now }
    {
        match self.stage {
            Stage::Greets | Stage::Listens => { if self.ended { Need::End } else { Need::Input } }
            Stage::Opens => Need::Opening,
            Stage::Settles(_) => Need::Replies,
            Stage::Tells(_) => Need::Room,
            Stage::Over => Need::Over,
        }
    }

    /// The last ordinal before the block.
    pub fn after(&self) -> u32
        ensures { result ≡ self.now.after }
    {
        self.after
    }

    /// The last ordinal of the block.
    pub fn ordinal(&self) -> u32
        ensures { result ≡ last_ordinal self.now }
    {
        self.after + self.pending.len() as u32
    }

    /// Keeps a line of the block.
    fn keep(&mut self, line: Pending) -> Result<(), AllocError>
        requires stage { self.old.stage ≡ stages.Listens }
        requires room { HasRoom self.old }
        ensures { OnOk result (Keeps self.old self.new line) }
    {
        self.pending.push(line)?;
        Ok(())
    }

    /// Takes a line before the session is open: a `hello` asks that it be opened, and any other one that is not skipped
    /// is refused.
    fn greet(&mut self, turn: &Turn) -> Option<Request>
        requires { self.old.stage ≡ stages.Greets }
        ensures takes { TakesTurn self.old self.new turn.now result }
        ensures block { KeepsBlock self.old self.new result }
    {
        if turn.is_skip() {
            return None;
        }
        match turn.greeted() {
            Some(subject) => {
                self.stage = Stage::Opens;
                Some(Request::Opens(subject))
            }
            None => {
                self.stage = Stage::Tells(Closing::RefusesHello);
                None
            }
        }
    }

    /// Takes a line of the session that is open.
    fn join(&mut self, turn: Turn) -> Result<Option<Request>, AllocError>
        requires stage { self.old.stage ≡ stages.Listens }
        requires room { HasRoom self.old }
        ensures takes { IfOk result (TakesTurn self.old self.new turn) }
        ensures block { IfOk result (KeepsBlock self.old self.new) }
    {
        match turn {
            Turn::Skip => Ok(None),
            Turn::Wait => {
                self.stage = Stage::Settles(Closing::GoesOn);
                Ok(Some(Request::Settles))
            }
            Turn::Greets(_) => {
                self.keep(Pending::Again)?;
                Ok(None)
            }
            Turn::Bad(fault) => {
                self.keep(Pending::Refused(fault))?;
                Ok(None)
            }
            Turn::Ask(work) => {
                self.keep(Pending::Asked)?;
                let ordinal = self.ordinal();
                Ok(Some(Request::Admits { ordinal, work }))
            }
        }
    }

    /// Takes a line that is this turn.
    fn take_turn(&mut self, turn: Turn) -> Result<Option<Request>, AllocError>
        requires stage { is_hearing self.old.stage ≡ true }
        requires room { HasRoom self.old }
        ensures takes { IfOk result (TakesTurn self.old self.new turn) }
        ensures block { IfOk result (KeepsBlock self.old self.new) }
    {
        match self.stage {
            Stage::Greets => Ok(self.greet(&turn)),
            Stage::Listens => self.join(turn),
            Stage::Opens | Stage::Settles(_) | Stage::Tells(_) | Stage::Over => unreachable!(),
        }
    }

    /// Takes the line that was held.
    fn take_line(
        &mut self,
        alloc: Global,
        names: &Names,
        held: &Held,
    ) -> Result<Option<Request>, AllocError>
        requires stage { is_hearing self.old.stage ≡ true }
        requires room { HasRoom self.old }
        ensures takes { IfOk result (TakesLine names.now held.now self.old self.new) }
        ensures block { IfOk result (KeepsBlock self.old self.new) }
    {
        let turn = turn_held(alloc, names, held)?;
        self.take_turn(turn)
    }

    /// Lets go of what is held of the line that has begun, or of room for a new one, made here.
    fn let_go(&mut self, alloc: Global) -> Result<Held, AllocError>
        ensures held { IfOk result (λ held. (line : List ℕ) → HoldsBegun self.old.held line → HoldsLine held line) }
        ensures same { LetsGo self.old self.new }
    {
        match self.held.take() {
            Some(held) => Ok(held),
            None => Held::new(alloc),
        }
    }

    /// Where the line ends that stands whole at the front of these bytes, where none had begun before them.
    fn whole_at(&self, bytes: &[u8]) -> Option<usize>
        ensures some { IfSome result (λ at. (self.now.held ≡ None) × IsWholeLine at bytes.now self.now.left) }
        ensures none { IfNone result (self.now.held ≡ None → HasNoLf (take self.now.left bytes.now)) }
    {
        match &self.held {
            Some(_) => None,
            None => whole_line(bytes, self.left),
        }
    }

    /// Hears of these bytes up to the end of one line, and at most what may still be heard, and says how many they were
    /// and what is asked at them. `TooLong` comes where nothing more may be heard, and `Memory` where memory was
    /// refused; then nothing is said of the conversation any more, and it is to be dropped.
    pub fn hear(
        &mut self,
        alloc: Global,
        names: &Names,
        bytes: &[u8],
    ) -> Result<Heard, SessionFault>
        requires need { need_of self.old ≡ needs.Input }
        requires some { 0 < length bytes.now }
        ensures ok { IfOk result (λ heard. Hears names.now self.old self.new
            (take heard.taken bytes.now) heard.request) }
        ensures block { IfOk result (λ heard. KeepsBlock self.old self.new heard.request) }
        ensures more { OnOk result (self.new.ended ≡ false) }
        ensures within { IfOk result (λ heard. heard.taken ≤ length bytes.now) }
        ensures nearer { OnOk result (waits_left self.new < waits_left self.old) }
        ensures long { IfErr result (λ fault. (fault ≡ Memory) ⊎ ((fault ≡ TooLong) × (self.old.left ≡ 0))) }
    {
        if let Some(at) = self.whole_at(bytes) {
            let turn = turn_shown(alloc, names, &bytes[..at])?;
            self.left -= at + 1;
            let request = self.take_turn(turn)?;
            let taken = at + 1;
            return Ok(Heard { taken, request });
        }
        let mut held = self.let_go(alloc)?;
        let Some(found) = scan(bytes, &mut held, self.left) else {
            return Err(SessionFault::TooLong);
        };
        self.left -= found.bytes;
        let taken = found.bytes;
        match found.part {
            Part::Ends => {
                let request = self.take_line(alloc, names, &held)?;
                Ok(Heard { taken, request })
            }
            Part::More => {
                self.held = Some(held);
                Ok(Heard {
                    taken,
                    request: None,
                })
            }
        }
    }

    /// Lets go of what is held of a line that has begun and is heard no further.
    fn let_go_begun(&mut self) -> Option<Held>
        ensures some { IfSome result (λ held. (self.old.ended ≡ false) × (self.old.held ≡ Some held)) }
        ensures none { result ≡ None → (self.new.ended ≡ true) ⊎ (self.new.held ≡ None) }
        ensures same { IfSome result (λ held. LetsGo self.old self.new) }
        ensures kept { result ≡ None → self.new ≡ self.old }
    {
        if self.ended {
            return None;
        }
        self.held.take()
    }

    /// Hears that the input is at its end, and what is asked then. A line that has begun is a line. It is told so until
    /// it waits for something else. An error comes where memory was refused, as `Memory` of `hear` does.
    pub fn end(&mut self, alloc: Global, names: &Names) -> Result<Option<Request>, AllocError>
        requires { (need_of self.old ≡ needs.Input) ⊎ (need_of self.old ≡ needs.End) }
        ensures ok { IfOk result (Hears names.now self.old self.new []) }
        ensures block { IfOk result (KeepsBlock self.old self.new) }
        ensures nearer { OnOk result (waits_left self.new < waits_left self.old) }
        ensures ended { OnOk result (self.new.ended ≡ true) }
    {
        if let Some(held) = self.let_go_begun() {
            self.ended = true;
            return self.take_line(alloc, names, &held);
        }
        self.ended = true;
        match self.stage {
            Stage::Greets => {
                self.stage = Stage::Tells(Closing::Ends);
                Ok(None)
            }
            Stage::Listens => {
                self.stage = Stage::Settles(Closing::Ends);
                Ok(Some(Request::Settles))
            }
            Stage::Opens | Stage::Settles(_) | Stage::Tells(_) | Stage::Over => unreachable!(),
        }
    }

    /// Hears how the machine takes the subject: the session goes on, or tells that there are as many as there may be.
    pub fn opened(&mut self, opening: Opening)
        requires { need_of self.old ≡ needs.Opening }
        ensures opened { IsOpenedAs opening self.old self.new }
        ensures block { SameBlock self.old self.new }
        ensures first { last_ordinal self.new ≡ 0 }
        ensures need { need_of self.new ≡ needs.Room }
        ensures nearer { waits_left self.new < waits_left self.old }
    {
        self.stage = Stage::Tells(greeting(opening));
    }

    /// Hears that the replies to its block are there.
    pub fn answered(&mut self)
        requires { need_of self.old ≡ needs.Replies }
        ensures answered { IsAnswered self.old self.new }
        ensures block { SameBlock self.old self.new }
        ensures need { need_of self.new ≡ needs.Room }
        ensures nearer { waits_left self.new < waits_left self.old }
    {
        match self.stage {
            Stage::Settles(closing) => self.stage = Stage::Tells(closing),
            Stage::Greets | Stage::Opens | Stage::Listens | Stage::Tells(_) | Stage::Over =>
                unreachable!(),
        }
    }

    /// Tells the next part of the replies to the next line of the block.
    fn tell_line<B: Replies, W: Write>(&mut self, block: &mut B, writer: &mut Watched<W>)
        requires line { self.old.line < length self.old.pending.items }
        requires stands { MayTake (B.stands block.old) (self.old.after + self.old.line + 1) }
        ensures told { TellsPart (B.left block.old) (B.left block.new) self.old self.new
            (end_state W.contents writer.old) (end_state W.contents writer.new) }
        ensures stands { MayTake (B.stands block.new) (self.new.after + self.new.line + 1) }
    {
        let ordinal = self.after + self.line as u32 + 1;
        let last = put_reply(block, writer, ordinal, &self.pending[self.line]);
        if last {
            self.line += 1;
        }
    }

    /// Tells what closes the block, and goes on.
    fn close<W: Write>(&mut self, writer: &mut Watched<W>, closing: Closing)
        ensures puts { Puts (words_of closing) (end_state W.contents writer.old) (end_state W.contents writer.new) }
        ensures closes { Closes self.old self.new closing }
    {
        put(writer, closing.words());
        self.after += self.pending.len() as u32;
        self.pending.clear();
        self.line = 0;
        self.stage = closing.next();
    }

    /// Tells the next part of what it has to say, unless the writer has failed: of the replies to a line, or what
    /// closes them.
    pub fn tell<B: Replies, W: Write>(&mut self, block: &mut B, writer: &mut Watched<W>)
        requires need { need_of self.old ≡ needs.Room }
        requires stands { MayTake (B.stands block.old) (self.old.after + self.old.line + 1) }
        ensures said { (more : List ℕ) × Puts more (end_state W.contents writer.old) (end_state W.contents writer.new) × Says (B.left block.old) (B.left block.new) self.old self.new more }
        ensures nearer { parts_left (B.left block.new) self.new < parts_left (B.left block.old) self.old }
        ensures last { last_ordinal self.new ≡ last_ordinal self.old }
        ensures done { (need_of self.new ≡ needs.Room → ⊥) → (self.new.pending.items ≡ []) × GoesOnAlone 0 self.new.stage }
        ensures ended { self.new.ended ≡ self.old.ended }
        ensures stands { need_of self.new ≡ needs.Room → MayTake (B.stands block.new) (self.new.after + self.new.line + 1) }
        ensures on { ((need_of self.new ≡ needs.Room) × (waits_left self.new ≡ waits_left self.old)) ⊎ (waits_left self.new < waits_left self.old) }
    {
        match self.stage {
            Stage::Tells(closing) => {
                if self.line < self.pending.len() {
                    self.tell_line(block, writer);
                } else {
                    self.close(writer, closing);
                }
            }
            Stage::Greets | Stage::Opens | Stage::Listens | Stage::Settles(_) | Stage::Over => {
                unreachable!()
            }
        }
    }
}
