//! What is said on standard error of where a trail is left. Nothing of it needs memory, and once standard error has
//! failed nothing more is said.
ghost use Rattle.std.specs.Prelude.{◌≡◌};
ghost use Rattle.bl_trail_file.specs.Telling.{left_text, left_words as words_left};
ghost use Rattle.bl_wire.specs.Watch.{Puts, end_state};

use bl_wire::put::{put, put_out};
use bl_wire::watched::Watched;
use std::io::Write;

/// The words for what is left of a trail, whole or not.
fn left_words(whole: bool) -> &'static str
    ensures { result.now ≡ words_left whole }
{
    if whole {
        "the whole trail is in "
    } else {
        "the trail is cut short in "
    }
}

/// Tells that what is left of a trail, whole or not, is in the file of this name, on a line of its own. Where `errors`
/// failed it is marked, and only a part was said.
pub fn tell_rest<E: Write>(errors: &mut Watched<E>, whole: bool, name: &str)
    ensures puts { Puts (left_text whole name.now) (end_state E.contents errors.old) (end_state E.contents errors.new) }
{
    put(errors, left_words(whole).as_bytes());
    put(errors, name.as_bytes());
    put_out(errors, b"\n");
}
