//! The text of a setup that lines can declare: each of its lines is canonical, has an LF, and stands behind those of what
//! it names.
ghost use Rattle.std.specs.Prelude.{◌≡◌, ◌≤◌, ◌++◌, ◌∷◌, [], IfOk, OnOk, length, min};
ghost use Rattle.bl_state.specs.Lines.{IsLineOf, declared_by};
ghost use Rattle.bl_state.specs.Texts.{line_text, most_text_bytes, setup_text};
ghost use Rattle.bl_state.specs.Whole.{IsWhole};

use crate::count::Length;
pub use crate::count::MOST_TEXT_BYTES;
use crate::laws::whole_setups_are_short;
use crate::line::{Line, line_behind};
use crate::spell::put_line;
use bl_setup::setup::Setup;
use bl_write::write::Text;
use std::alloc::{AllocError, Global};

/// How long a line is without its LF, counted up to as many bytes as a text has.
fn line_len(setup: &Setup, line: &Line) -> usize
    requires whole { IsWhole setup.now }
    requires there { IsLineOf setup.now line.now }
    ensures { result ≡ min (length (line_text (declared_by setup.now line.now))) most_text_bytes }
{
    let mut length = Length::new();
    match put_line(&mut length, setup, *line) {
        Ok(()) => length.bytes(),
        Err(never) => match never {},
    }
}

/// Writes a line, without its LF, in place of what was written before. An error comes only where a growth is refused.
pub(crate) fn write_line(text: &mut Text, setup: &Setup, line: &Line) -> Result<(), AllocError>
    requires whole { IsWhole setup.now }
    requires there { IsLineOf setup.now line.now }
    ensures { OnOk result (text.new.bytes ≡ line_text (declared_by setup.now line.now)) }
{
    text.begin()?;
    put_line(text, setup, *line)
}

/// Adds a line with its LF.
fn add_line(bytes: &mut Vec<u8>, line: &[u8]) -> Result<(), AllocError>
    ensures { OnOk result (bytes.new.items ≡ bytes.old.items ++ (line.now ++ 10 ∷ [])) }
{
    bytes.extend_from_slice(line)?;
    bytes.push(b'\n')?;
    Ok(())
}

/// How many bytes the text of a setup has, at most 134,217,728. It takes no memory.
pub fn setup_len(setup: &Setup) -> usize
    requires { IsWhole setup.now }
    ensures len { result ≡ length (setup_text setup.now) }
    ensures within { result ≤ most_text_bytes }
{
    whole_setups_are_short();
    let mut bytes = 0;
    let mut next = Some(Line::Ranks);
    'lines: while let Some(line) = next {
        let more = line_len(setup, &line) + 1;
        bytes += more;
        next = line_behind(setup, &line);
    }
    bytes
}

/// The text of a setup. Its bytes are taken at once, and besides them the room of one line. An error comes only where a
/// growth is refused.
pub fn write_setup(alloc: Global, setup: &Setup) -> Result<Vec<u8>, AllocError>
    requires { IsWhole setup.now }
    ensures { IfOk result (λ text. text.items ≡ setup_text setup.now) }
{
    let mut bytes = Vec::with_capacity(alloc, setup_len(setup))?;
    let mut text = Text::new(alloc);
    let mut next = Some(Line::Ranks);
    'lines: while let Some(line) = next {
        write_line(&mut text, setup, &line)?;
        add_line(&mut bytes, text.bytes())?;
        next = line_behind(setup, &line);
    }
    Ok(bytes)
}
