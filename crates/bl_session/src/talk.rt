//! The conversation of a session with one worker: it hears what the reader shows, what it asks is done by the hall, and
//! what it tells is written. What was written is handed on before a read that may wait.
ghost use Rattle.std.specs.Prelude.{◌≡◌, ◌≤◌, false, OnOk, IfErr, Err};
ghost use Rattle.bl_setup.specs.Agreement.{Agree};
ghost use Rattle.bl_wire.specs.Watch.{end_state, used};
ghost use Rattle.bl_engine.specs.Conversations.{waits_left};
ghost use Rattle.bl_session.specs.Keeping.{IsHeld, MayStop};
ghost use Rattle.bl_session.specs.Meeting.{AreFine, Asks, IsOver, IsStopped, Meets, StopsFrom, point_of, settling};
ghost use Rattle.bl_session.specs.Pages.{IsAtStart};

use crate::block::Block;
use crate::entries::{Alone, Pages};
use crate::keep::{Keep, Stop};
use bl_engine::block::{NoReplies, Replies};
use bl_engine::conversation::{Conversation, Need, Opening};
use bl_engine::driver::{Listener, listen, tell_all};
use bl_engine::request::Request;
use bl_wire::fault::SessionFault;
use bl_wire::watched::Watched;
use std::io::{BufRead, Write};

/// The replies to a block of the session, which are told line by line; those up to an ordinal were.
#[derive(Drop)]
pub struct Told<'a> {
    pub behind: &'a Alone,
    pub pages: &'a Pages,
    pub block: Block,
    pub upto: u32,
}

impl Replies for Told<'_> {
    ghost use Rattle.bl_session.specs.Telling.{left_of, Stands};

    ghost left = { left_of };

    ghost stands = { Stands };

    fn put_part<W: Write>(&mut self, ordinal: u32, writer: &mut Watched<W>) -> bool {
        self.behind
            .answer(self.pages, &mut self.block, ordinal, writer);
        self.upto = ordinal;
        true
    }
}

/// Has the block answered, and tells it once that is kept.
fn settle<K: Keep, W: Write>(
    behind: &Alone,
    pages: &mut Pages,
    conv: &mut Conversation,
    keep: &mut K,
    writer: &mut Watched<W>,
) -> Result<(), Stop>
    requires asks { Asks behind.now (settling K.reached W.contents conv.old pages.old keep.old writer.old) }
    ensures ok { OnOk result (Meets behind.now (settling K.reached W.contents conv.old pages.old keep.old writer.old)
        conv.new pages.new (K.reached keep.new) (end_state W.contents writer.new)) }
    ensures nearer { OnOk result (waits_left conv.new ≤ waits_left conv.old) }
    ensures err { IfErr result (λ stop. StopsFrom stop behind.now
        (settling K.reached W.contents conv.old pages.old keep.old writer.old)
        (IsHeld (K.reached keep.new) (K.has_kept keep.new) (Err stop)) pages.new (end_state W.contents writer.new)) }
    ensures never { IfErr result (MayStop K.may_fail) }
{
    let after = conv.after();
    let block = behind.settle(pages, after)?;
    keep.reach(&pages.hall)?;
    conv.answered();
    let mut told = Told {
        behind,
        pages,
        block,
        upto: after,
    };
    tell_all(conv, &mut told, writer)?;
    Ok(())
}

/// Has done what was asked at the last line.
fn meet<K: Keep, W: Write>(
    behind: &Alone,
    pages: &mut Pages,
    talk: &mut Listener<'_>,
    keep: &mut K,
    writer: &mut Watched<W>,
) -> Result<(), Stop>
    requires agree { Agree behind.now.setup }
    requires asks { Asks behind.now (point_of K.reached W.contents talk.old pages.old keep.old writer.old) }
    ensures ok { OnOk result (Meets behind.now (point_of K.reached W.contents talk.old pages.old keep.old writer.old)
        talk.new.conv pages.new (K.reached keep.new) (end_state W.contents writer.new)) }
    ensures names { talk.new.names ≡ talk.old.names }
    ensures nearer { OnOk result (waits_left talk.new.conv ≤ waits_left talk.old.conv) }
    ensures err { IfErr result (λ stop. StopsFrom stop behind.now
        (point_of K.reached W.contents talk.old pages.old keep.old writer.old)
        (IsHeld (K.reached keep.new) (K.has_kept keep.new) (Err stop)) pages.new (end_state W.contents writer.new)) }
    ensures never { IfErr result (MayStop K.may_fail) }
{
    let Some(request) = talk.request.take() else {
        return Ok(());
    };
    match request {
        Request::Opens(subject) => {
            behind.open(pages, subject);
            keep.reach(&pages.hall)?;
            talk.conv.opened(Opening::Open);
            Ok(())
        }
        Request::Admits { ordinal, work } => {
            behind.ask(pages, ordinal, work);
            Ok(())
        }
        Request::Settles => settle(behind, pages, &mut talk.conv, keep, writer),
    }
}

/// A whole session over the hall of one worker. That the session is open, and the replies to each block, are told
/// once they are kept.
pub fn converse_alone<K: Keep, R: BufRead, W: Write>(
    behind: &Alone,
    pages: &mut Pages,
    keep: &mut K,
    reader: &mut Watched<R>,
    writer: &mut Watched<W>,
) -> Result<(), Stop>
    requires fine { (reader.old.failed ≡ false) × (writer.old.failed ≡ false) }
    requires start { IsAtStart behind.now.setup pages.old }
    requires reached { K.reached keep.old pages.old.hall }
    ensures ok { OnOk result (IsOver (K.reached keep.new) behind.now.setup pages.old.hall pages.new
        (used R.remaining reader.old reader.new) (used W.contents writer.old writer.new)) }
    ensures fine { OnOk result (AreFine reader.new writer.new) }
    ensures err { IfErr result (λ stop. IsStopped (IsHeld (K.reached keep.new) (K.has_kept keep.new) (Err stop))
        behind.now.setup pages.old.hall stop pages.new
        (used R.remaining reader.old reader.new) (used W.contents writer.old writer.new)) }
    ensures never { IfErr result (MayStop K.may_fail) }
{
    let names = behind.setup.names();
    let mut talk = Listener {
        alloc: behind.alloc,
        names,
        conv: Conversation::new(behind.alloc)?,
        request: None,
    };
    'waits: loop {
        match talk.conv.need() {
            Need::Input => {
                listen(&mut talk, reader, writer)?;
                meet(behind, pages, &mut talk, keep, writer)?;
            }
            Need::End => {
                talk.request = talk.conv.end(behind.alloc, names)?;
                meet(behind, pages, &mut talk, keep, writer)?;
            }
            Need::Room => {
                let mut none = NoReplies;
                tell_all(&mut talk.conv, &mut none, writer)?;
            }
            Need::Opening | Need::Replies => unreachable!(),
            Need::Over => break,
        }
    }
    if writer.flush() {
        Ok(())
    } else {
        Err(Stop::Fault(SessionFault::Write))
    }
}
