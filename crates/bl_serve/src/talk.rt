//! The conversation of a session over a gate: it hears what the reader shows, what it asks is done through the gate,
//! and what it tells is written. What was written is handed on before a read that may wait.
ghost use Rattle.std.specs.Prelude.{◌≡◌, ◌≢◌, ◌≤◌, [], false, OnOk, IfErr};
ghost use Rattle.bl_wire.specs.Watch.{end_state, used};
ghost use Rattle.bl_wire.specs.declared.fault.SessionFault.TheVariants.{Clash};
ghost use Rattle.bl_engine.specs.Conversations.{waits_left};
ghost use Rattle.bl_serve.specs.Outcome.{AreFine};
ghost use Rattle.bl_serve.specs.Talks.{Asks, BreaksFrom, IsBroken, IsOver, Meets, point_of, settling};
ghost use Rattle.bl_serve.specs.Visits.{HasCome, IsSpokenFor, home};

use crate::told::put_next;
use crate::visit::{Visit, Visitor};
use bl_engine::block::{NoReplies, Replies};
use bl_engine::conversation::{Conversation, Need};
use bl_engine::driver::{Listener, listen, tell_all};
use bl_engine::request::Request;
use bl_hall::reply::Reply;
use bl_wire::fault::SessionFault;
use bl_wire::watched::Watched;
use bl_work::names::Names;
use bl_worker::pause::Pause;
use std::io::{BufRead, Write};
use std::sync::Wait;

/// The replies to a block of the session, which are told one by one, and let go as they are: those to lines up to an
/// ordinal were, and the others stand from a place on.
#[derive(Drop)]
pub struct Told<'a> {
    pub names: &'a Names,
    pub replies: Vec<Reply>,
    pub next: usize,
    pub upto: u32,
}

impl Replies for Told<'_> {
    ghost use Rattle.bl_serve.specs.Telling.{left_of, Stands};

    ghost left = { left_of };

    ghost stands = { Stands };

    fn put_part<W: Write>(&mut self, ordinal: u32, writer: &mut Watched<W>) -> bool {
        let (next, last) = put_next(writer, self.names, ordinal, &mut self.replies, self.next);
        self.next = next;
        if last {
            self.upto = ordinal;
        }
        last
    }
}

/// Has the block answered, and tells it.
fn settle<P: Pause, T: Wait, W: Write>(
    visitor: &Visitor<'_, P, T>,
    visit: &mut Visit,
    conv: &mut Conversation,
    writer: &mut Watched<W>,
) -> Result<(), SessionFault>
    requires writer { writer.old.failed ≡ false }
    requires asks { Asks (home visitor.now) (settling conv.old visit.old (end_state W.contents writer.old)) }
    ensures ok { OnOk result (Meets (home visitor.now) (settling conv.old visit.old (end_state W.contents writer.old))
        conv.new visit.new (end_state W.contents writer.new)) }
    ensures fine { OnOk result (writer.new.failed ≡ false) }
    ensures nearer { OnOk result (waits_left conv.new ≤ waits_left conv.old) }
    ensures err { IfErr result (λ fault. BreaksFrom fault (home visitor.now)
        (settling conv.old visit.old (end_state W.contents writer.old)) visit.new (end_state W.contents writer.new)) }
    ensures never { IfErr result (λ fault. fault ≢ Clash) }
{
    let upto = conv.after();
    let replies = visitor.settle(visit, conv.ordinal())?;
    conv.answered();
    let mut told = Told {
        names: visitor.gate.names(),
        replies,
        next: 0,
        upto,
    };
    tell_all(conv, &mut told, writer)
}

/// Has done what was asked at the last line.
fn meet<P: Pause, T: Wait, W: Write>(
    visitor: &Visitor<'_, P, T>,
    visit: &mut Visit,
    talk: &mut Listener<'_>,
    writer: &mut Watched<W>,
) -> Result<(), SessionFault>
    requires writer { writer.old.failed ≡ false }
    requires asks { Asks (home visitor.now) (point_of talk.old visit.old (end_state W.contents writer.old)) }
    ensures ok { OnOk result (Meets (home visitor.now) (point_of talk.old visit.old (end_state W.contents writer.old))
        talk.new.conv visit.new (end_state W.contents writer.new)) }
    ensures fine { OnOk result (writer.new.failed ≡ false) }
    ensures names { talk.new.names ≡ talk.old.names }
    ensures nearer { OnOk result (waits_left talk.new.conv ≤ waits_left talk.old.conv) }
    ensures err { IfErr result (λ fault. BreaksFrom fault (home visitor.now)
        (point_of talk.old visit.old (end_state W.contents writer.old)) visit.new (end_state W.contents writer.new)) }
    ensures clash { IfErr result (λ fault. fault ≡ Clash → IsSpokenFor visitor.now.first.value visit.new.pass) }
{
    let Some(request) = talk.request.take() else {
        return Ok(());
    };
    match request {
        Request::Opens(subject) => {
            let opening = visitor.open(visit, subject);
            talk.conv.opened(opening);
            Ok(())
        }
        Request::Admits { ordinal, work } => visitor.ask(visit, ordinal, work),
        Request::Settles => settle(visitor, visit, &mut talk.conv, writer),
    }
}

/// A whole session over a gate. Where there are as many sessions as there may be, it tells so, and the rest stays
/// unread.
pub(crate) fn converse<R: BufRead, P: Pause, T: Wait, W: Write>(
    visitor: &Visitor<'_, P, T>,
    visit: &mut Visit,
    names: &Names,
    reader: &mut Watched<R>,
    writer: &mut Watched<W>,
) -> Result<(), SessionFault>
    requires names { names.now ≡ visitor.now.gate.now.base.setup.names }
    requires fine { (reader.old.failed ≡ false) × (writer.old.failed ≡ false) }
    requires come { HasCome visitor.now.gate.now visitor.now.first.value visit.old [] [] }
    ensures ok { OnOk result (IsOver (home visitor.now) visit.new
        (used R.remaining reader.old reader.new) (used W.contents writer.old writer.new)) }
    ensures fine { OnOk result (AreFine reader.new writer.new) }
    ensures err { IfErr result (λ fault. IsBroken fault (home visitor.now) visit.new
        (used R.remaining reader.old reader.new) (used W.contents writer.old writer.new)) }
    ensures clash { IfErr result (λ fault. fault ≡ Clash → IsSpokenFor visitor.now.first.value visit.new.pass) }
{
    let mut talk = Listener {
        alloc: visitor.alloc,
        names,
        conv: Conversation::new(visitor.alloc)?,
        request: None,
    };
    'waits: loop {
        match talk.conv.need() {
            Need::Input => {
                listen(&mut talk, reader, writer)?;
                meet(visitor, visit, &mut talk, writer)?;
            }
            Need::End => {
                talk.request = talk.conv.end(visitor.alloc, names)?;
                meet(visitor, visit, &mut talk, writer)?;
            }
            Need::Room => {
                let mut none = NoReplies;
                tell_all(&mut talk.conv, &mut none, writer)?;
            }
            Need::Opening | Need::Replies => unreachable!(),
            Need::Over => break,
        }
    }
    if writer.flush() {
        Ok(())
    } else {
        Err(SessionFault::Write)
    }
}
