//! The line of a test.
ghost use Rattle.std.specs.Prelude.{◌≡◌, OnOk};
ghost use Rattle.bl_explain_text.specs.Reasons.{behind};
ghost use Rattle.bl_explaining.specs.Shown.{row_pieces, with_line};

use bl_explain::tests::Tested;
use bl_explain_text::telling::row;
use std::alloc::{AllocError, Global};

/// Puts a line of its own behind a text.
pub(crate) fn put_line(text: &mut Vec<u8>, line: &[u8]) -> Result<(), AllocError>
    ensures { OnOk result (text.new.items ≡ with_line text.old.items line.now) }
{
    text.extend_from_slice(line)?;
    text.extend_from_slice(b"\n")
}

/// Puts the line of a test behind a text: its answer, why, and what made it so, at this width.
pub(crate) fn put_row(
    text: &mut Vec<u8>,
    alloc: Global,
    tested: Tested,
    why: &[u8],
    source: &[u8],
    width: usize,
) -> Result<(), AllocError>
    ensures { OnOk result (text.new.items ≡ behind text.old.items (row_pieces tested why.now source.now width)) }
{
    match source {
        [] => {
            let line = row(alloc, tested, why, 0)?;
            text.extend_from_slice(&line)?;
            text.extend_from_slice(b"\n")
        }
        [_, ..] => {
            let line = row(alloc, tested, why, width)?;
            text.extend_from_slice(&line)?;
            text.extend_from_slice(b"  ")?;
            text.extend_from_slice(source)?;
            text.extend_from_slice(b"\n")
        }
    }
}
