//! What a condition asks of a plain text.
ghost use Rattle.std.specs.Prelude.{◌≡◌};
ghost use Rattle.bl_work.specs.Effects.{holds_of};
ghost use Rattle.bl_work.specs.Piece.{has_piece};

use bl_work::script::Condition;
use bstr::ByteSlice;

/// Whether the piece stands somewhere in the content. The library's search takes time proportional to both.
fn contains(content: &[u8], piece: &[u8]) -> bool
    ensures { result ≡ has_piece content.now piece.now }
{
    content.contains_str(piece)
}

/// Whether a condition holds of a content.
pub(crate) fn holds(test: Condition, content: &[u8], text: &[u8]) -> bool
    ensures { result ≡ holds_of test content.now text.now }
{
    match test {
        Condition::Is => content == text,
        Condition::Has => contains(content, text),
    }
}
