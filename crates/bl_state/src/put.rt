//! The text of a setup, put line by line, so that it is never whole in memory.
ghost use Rattle.std.specs.Prelude.{◌≡◌, ◌++◌, ◌∷◌, [], ℕ, List, IfOk, OnErr, not, true};
ghost use Rattle.std.specs.Io.KnownBytes.{Appends};
ghost use Rattle.bl_wire.specs.Watch.{Puts, end_state};
ghost use Rattle.bl_state.specs.Texts.{setup_text};
ghost use Rattle.bl_state.specs.Whole.{IsWhole};

use crate::line::{Line, line_behind};
use crate::text::write_line;
use bl_setup::setup::Setup;
use bl_wire::put::put_between;
use bl_wire::watched::Watched;
use bl_write::write::Text;
use std::alloc::{AllocError, Global};
use std::io::Write;

/// Puts a line with its LF, and says whether it was all taken; otherwise the writer is marked.
fn put_with_lf<W: Write>(writer: &mut Watched<W>, line: &[u8]) -> bool
    ensures puts { Puts (line.now ++ 10 ∷ []) (end_state W.contents writer.old) (end_state W.contents writer.new) }
    ensures failed { writer.new.failed ≡ not result }
{
    put_between(writer, b"", line, b"\n");
    !writer.failed()
}

/// Puts the text of a setup line by line, and says whether it was all taken; otherwise the writer is marked, and of the
/// text a first part was put, nothing where the writer was marked before. The room of one line is taken. An error comes
/// only where a growth is refused; then whole lines at the front were put.
pub fn put_setup<W: Write>(
    alloc: Global,
    writer: &mut Watched<W>,
    setup: &Setup,
) -> Result<bool, AllocError>
    requires { IsWhole setup.now }
    ensures puts { IfOk result (λ _. Puts (setup_text setup.now)
        (end_state W.contents writer.old) (end_state W.contents writer.new)) }
    ensures all { IfOk result (λ all. all ≡ true
        → Appends (W.contents writer.old.inner) (W.contents writer.new.inner) (setup_text setup.now)) }
    ensures failed { IfOk result (λ all. writer.new.failed ≡ not all) }
    ensures front { OnErr result ((front : List ℕ) × (rest : List ℕ) × (setup_text setup.now ≡ front ++ rest)
        × Puts front (end_state W.contents writer.old) (end_state W.contents writer.new)) }
{
    if writer.failed() {
        return Ok(false);
    }
    let mut text = Text::new(alloc);
    let mut next = Some(Line::Ranks);
    'lines: while let Some(line) = next {
        write_line(&mut text, setup, &line)?;
        next = line_behind(setup, &line);
        if !put_with_lf(writer, text.bytes()) {
            return Ok(false);
        }
    }
    Ok(true)
}
