//! Tells a block into a list of bytes, part by part.
ghost use Rattle.std.specs.Prelude.{◌≡◌, ◌+◌, ◌<◌, ◌≤◌, ◌⊎◌, [], OnOk, OnErr, length};
ghost use Rattle.bl_engine.specs.Conversations.{GoesOnAlone, need_of, parts_left, waits_left};
ghost use Rattle.bl_engine.specs.Parts.{MayTake};
ghost use Rattle.bl_engine.specs.declared.conversation.Need.TheVariants as needs;
ghost use Rattle.bl_connection.specs.Tellings.{ToldOn, ToldShort};

use bl_engine::block::Replies;
use bl_engine::conversation::{Conversation, Need};
use bl_wire::watched::Watched;
use std::alloc::{AllocError, Global};
use std::mem;

/// Once so many bytes were told, they are to be written before more is told.
const MOST_TOLD: usize = 65_536;

/// Tells the next part of what a conversation has to say after the bytes. An error comes where memory was refused; then
/// a first part of it stands there.
pub(crate) fn tell_part<B: Replies>(
    alloc: Global,
    block: &mut B,
    conv: &mut Conversation,
    output: &mut Vec<u8>,
) -> Result<(), AllocError>
    requires need { need_of conv.old ≡ needs.Room }
    requires stands { MayTake (B.stands block.old) (conv.old.after + conv.old.line + 1) }
    ensures ok { OnOk result (ToldOn (B.left block.old)
        (B.left block.new) conv.old conv.new output.old.items output.new.items) }
    ensures err { OnErr result (ToldShort (B.left block.old) conv.old conv.new output.old.items output.new.items) }
    ensures nearer { parts_left (B.left block.new) conv.new < parts_left (B.left block.old) conv.old }
    ensures done { (need_of conv.new ≡ needs.Room → ⊥) → (conv.new.pending.items ≡ []) × GoesOnAlone 0 conv.new.stage }
    ensures stands { need_of conv.new ≡ needs.Room → MayTake (B.stands block.new) (conv.new.after + conv.new.line + 1) }
    ensures on { ((need_of conv.new ≡ needs.Room) × (waits_left conv.new ≡ waits_left conv.old))
        ⊎ (waits_left conv.new < waits_left conv.old) }
{
    let mut writer = Watched::new(mem::replace(output, Vec::new(alloc)));
    conv.tell(block, &mut writer);
    let failed = writer.failed();
    *output = writer.into_inner();
    if failed { Err(AllocError) } else { Ok(()) }
}

/// Tells the next parts after the bytes, until they are 64 KB or more, or all was told. An error comes where memory was
/// refused, as `tell_part` has it.
pub(crate) fn tell_parts<B: Replies>(
    alloc: Global,
    block: &mut B,
    conv: &mut Conversation,
    output: &mut Vec<u8>,
) -> Result<(), AllocError>
    requires need { need_of conv.old ≡ needs.Room }
    requires stands { MayTake (B.stands block.old) (conv.old.after + conv.old.line + 1) }
    ensures ok { OnOk result (ToldOn (B.left block.old)
        (B.left block.new) conv.old conv.new output.old.items output.new.items) }
    ensures err { OnErr result (ToldShort (B.left block.old) conv.old conv.new output.old.items output.new.items) }
    ensures done { OnOk result ((need_of conv.new ≡ needs.Room → ⊥) → (conv.new.pending.items ≡ [])
        × GoesOnAlone 0 conv.new.stage) }
    ensures stands { need_of conv.new ≡ needs.Room → MayTake (B.stands block.new) (conv.new.after + conv.new.line + 1) }
    ensures most { OnOk result (need_of conv.new ≡ needs.Room → 65536 ≤ length output.new.items) }
    ensures nearer { OnOk result (waits_left conv.new ≤ waits_left conv.old) }
    ensures fewer { parts_left (B.left block.new) conv.new < parts_left (B.left block.old) conv.old }
{
    'parts: loop {
        tell_part(alloc, block, conv, output)?;
        match conv.need() {
            Need::Room => {
                if output.len() >= MOST_TOLD {
                    return Ok(());
                }
            }
            _ => return Ok(()),
        }
    }
}
