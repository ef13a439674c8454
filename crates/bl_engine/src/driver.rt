//! What a driver that may wait does with one conversation: it has heard what a reader shows, and writes what is told.
//! What was written is handed on before a read that may wait.
ghost use Rattle.std.specs.Prelude.{◌≡◌, ◌+◌, ◌<◌, false, true, not, IfErr, OnOk};
ghost use Rattle.std.specs.Io.KnownBytes.{Keeps};
ghost use Rattle.bl_wire.specs.declared.fault.SessionFault.TheVariants.{Write};
ghost use Rattle.bl_engine.specs.Driving.{HearsAs, IsUnheard, Listened, ToldAll, ToldPart};
ghost use Rattle.bl_engine.specs.Parts.{MayTake};
ghost use Rattle.bl_engine.specs.Conversations.{need_of};
ghost use Rattle.bl_engine.specs.declared.conversation.Need.TheVariants as needs;

use crate::block::Replies;
use crate::conversation::{Conversation, Need};
use crate::request::Request;
use bl_wire::ear::Ear;
use bl_wire::fault::SessionFault;
use bl_wire::watched::Watched;
use bl_work::names::Names;
use std::alloc::Global;
use std::io::{BufRead, Write};

/// A conversation that listens to a reader, and what it asked last.
#[derive(Drop)]
pub struct Listener<'a> {
    pub alloc: Global,
    pub names: &'a Names,
    pub conv: Conversation,
    pub request: Option<Request>,
}

impl Ear for Listener<'_> {
    ghost listens = { λ listener. need_of listener.conv ≡ needs.Input };

    ghost hears = { HearsAs };

    fn hear(&mut self, bytes: &[u8]) -> Result<usize, SessionFault> {
        match self.conv.hear(self.alloc, self.names, bytes) {
            Ok(heard) => {
                self.request = heard.request;
                Ok(heard.taken)
            }
            Err(fault) => Err(fault),
        }
    }
}

/// Hands on what was written, unless the reader has bytes at hand, so that no reply stays back while the next read
/// waits. It says whether that was done; otherwise the writer is marked.
fn hand_on<R: BufRead, W: Write>(reader: &Watched<R>, writer: &mut Watched<W>) -> bool
    requires { writer.old.failed ≡ false }
    ensures handed_on { result ≡ true → reader.now.at_hand ≡ false → writer.new.unflushed ≡ false }
    ensures bytes { Keeps (W.contents writer.old.inner) (W.contents writer.new.inner) }
    ensures failed { writer.new.failed ≡ not result }
{
    reader.at_hand() || !writer.unflushed() || writer.flush()
}

/// Has heard what the reader shows, or that its input is at its end. After a fault nothing is taken from the reader,
/// and the conversation is to be dropped.
pub fn listen<R: BufRead, W: Write>(
    listener: &mut Listener<'_>,
    reader: &mut Watched<R>,
    writer: &mut Watched<W>,
) -> Result<(), SessionFault>
    requires reader { reader.old.failed ≡ false }
    requires writer { writer.old.failed ≡ false }
    requires need { need_of listener.old.conv ≡ needs.Input }
    ensures ok { OnOk result (Listened listener.old.names.now (R.remaining reader.old.inner) (R.remaining reader.new.inner) listener.old.conv listener.new.conv listener.new.request) }
    ensures fine { OnOk result ((reader.new.failed ≡ false) × (writer.new.failed ≡ false)) }
    ensures names { OnOk result (listener.new.names ≡ listener.old.names) }
    ensures kept { IfErr result (λ fault. Keeps (R.remaining reader.old.inner) (R.remaining reader.new.inner)) }
    ensures why { IfErr result (λ fault. IsUnheard fault reader.new.failed writer.new.failed listener.old.conv.left (R.remaining reader.old.inner) (R.remaining reader.new.inner)) }
    ensures written { Keeps (W.contents writer.old.inner) (W.contents writer.new.inner) }
    ensures handed_on { reader.old.at_hand ≡ false → writer.new.failed ≡ false → writer.new.unflushed ≡ false }
{
    if !hand_on(reader, writer) {
        return Err(SessionFault::Write);
    }
    let handed = match reader.hand_over(listener) {
        Ok(handed) => handed,
        Err(fault) => return Err(fault),
    };
    if handed.ended {
        listener.request = listener.conv.end(listener.alloc, listener.names)?;
    }
    Ok(())
}

/// Tells all that the conversation has to say of a block, until it waits for something else. `Write` comes where the
/// writer failed.
pub fn tell_all<B: Replies, W: Write>(
    conv: &mut Conversation,
    block: &mut B,
    writer: &mut Watched<W>,
) -> Result<(), SessionFault>
    requires writer { writer.old.failed ≡ false }
    requires need { need_of conv.old ≡ needs.Room }
    requires stands { MayTake (B.stands block.old) (conv.old.after + conv.old.line + 1) }
    ensures ok { OnOk result (ToldAll (B.left block.old) (B.left block.new) conv.old conv.new
        (W.contents writer.old.inner) (W.contents writer.new.inner)) }
    ensures fine { OnOk result (writer.new.failed ≡ false) }
    ensures part { IfErr result (λ fault. ToldPart (B.left block.old) conv.old (W.contents writer.old.inner)
        (W.contents writer.new.inner)) }
    ensures write { IfErr result (λ fault. (fault ≡ Write) × (writer.new.failed ≡ true)) }
{
    'parts: loop {
        conv.tell(block, writer);
        if writer.failed() {
            return Err(SessionFault::Write);
        }
        match conv.need() {
            Need::Room => {}
            _ => return Ok(()),
        }
    }
}
