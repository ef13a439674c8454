//! What is said on standard error of what is left of a trail. Nothing of it needs memory, and once standard error has
//! failed nothing more is said.
ghost use Rattle.bl_keep.specs.Unkept.{left_line};
ghost use Rattle.bl_wire.specs.Watch.{Puts, end_state};

use crate::whole::Left;
use bl_trail_file::told::tell_rest;
use bl_wire::watched::Watched;
use std::io::Write;

/// Tells where what is left of a trail is that was not kept, on a line of its own; nothing where nothing is left. Where
/// `errors` failed it is marked, and only a part was said.
pub fn tell_left<E: Write>(errors: &mut Watched<E>, left: &Option<Left>)
    ensures puts { Puts (left_line left.now) (end_state E.contents errors.old) (end_state E.contents errors.new) }
{
    let Some(left) = left else {
        return;
    };
    tell_rest(errors, left.whole, left.name.as_str());
}
