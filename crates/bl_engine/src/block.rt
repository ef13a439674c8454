//! The replies of a block, which are told part by part.
ghost use Rattle.std.specs.Prelude.{◌≡◌, [], ℕ, List, ⊤};
ghost use Rattle.bl_wire.specs.Watch.{end_state};
ghost use Rattle.bl_engine.specs.Parts.{MayTake, PutsPart, SameAbove, next_behind, rest_of};
ghost use Rattle.bl_engine.specs.BlockText.{reply_to};
ghost use Rattle.bl_engine.specs.declared.conversation.Closing.{Closing};
ghost use Rattle.bl_engine.specs.Greetings.{greeting_of};

use crate::conversation::{Closing, Opening};
use bl_wire::put::put;
use bl_wire::reply::{put_bad, put_refused};
use bl_wire::turn::Pending;
use bl_wire::watched::Watched;
use std::io::Write;

/// The replies to the lines of a block. They are taken line by line, by rising ordinal, and those to a line part by
/// part.
pub trait Replies {
    // what is still to be taken of the replies to each ordinal
    ghost left: { Self → ℕ → List ℕ };

    // the replies above this ordinal may still be taken
    ghost stands: { Self → ℕ → Type 0 };

    /// Writes the next part of the replies to an ordinal, unless the writer has failed, and says whether it is the last
    /// one. Each part but the last has a byte at least.
    fn put_part<W: Write>(&mut self, ordinal: u32, writer: &mut Watched<W>) -> bool
        requires { MayTake (stands self.old) ordinal }
        ensures part { PutsPart (left self.old ordinal) (left self.new ordinal) result (end_state W.contents writer.old)
            (end_state W.contents writer.new) }
        ensures others { SameAbove ordinal (left self.old) (left self.new) }
        ensures stands { MayTake (stands self.new) (next_behind result ordinal) };
}

/// The replies of a block that has no lines.
#[derive(Clone, Copy, Debug)]
pub struct NoReplies;

impl Replies for NoReplies {
    ghost left = { λ _ _. [] };

    ghost stands = { λ _ _. ⊤ };

    fn put_part<W: Write>(&mut self, ordinal: u32, writer: &mut Watched<W>) -> bool {
        // the contract alone speaks of the ordinal
        let _ = ordinal;
        put(writer, b"");
        true
    }
}

/// Writes the next part of the replies to a line, unless the writer has failed, and says whether it is the last one.
pub(crate) fn put_reply<B: Replies, W: Write>(
    block: &mut B,
    writer: &mut Watched<W>,
    ordinal: u32,
    line: &Pending,
) -> bool
    requires { MayTake (B.stands block.old) ordinal }
    ensures part { PutsPart (reply_to (B.left block.old) ordinal line.now)
        (rest_of result (reply_to (B.left block.new) ordinal line.now)) result (end_state W.contents writer.old)
        (end_state W.contents writer.new) }
    ensures others { SameAbove ordinal (B.left block.old) (B.left block.new) }
    ensures stands { MayTake (B.stands block.new) (next_behind result ordinal) }
{
    match line {
        Pending::Again => {
            put_refused(writer, ordinal, b"hello");
            true
        }
        Pending::Refused(fault) => {
            put_bad(writer, ordinal, fault);
            true
        }
        Pending::Asked => block.put_part(ordinal, writer),
    }
}

/// What is told first, by how the machine takes the subject.
pub(crate) fn greeting(opening: Opening) -> Closing
    ensures { result ≡ greeting_of opening }
{
    match opening {
        Opening::Open => Closing::GoesOn,
        Opening::Full => Closing::FindsFull,
    }
}
