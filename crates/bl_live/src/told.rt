//! What a run of `serve` says of its sessions on standard error. Nothing of it needs memory, and once standard error
//! has failed nothing more is said.
ghost use Rattle.bl_wire.specs.Watch.{Puts, end_state};
ghost use Rattle.bl_live.specs.Telling.{count_line, ended_line};

use bl_entrance::ended::{Ended, Why, ended_words};
use bl_wire::put::{put, put_number, put_out};
use bl_wire::watched::Watched;
use std::io::Write;

/// Tells how a session of `serve` ended early, on a line of its own. Where `errors` failed it is marked, and only a
/// part was said.
pub fn tell_ended<E: Write>(errors: &mut Watched<E>, ended: &Ended)
    ensures puts { Puts (ended_line ended.now) (end_state E.contents errors.old) (end_state E.contents errors.new) }
{
    put(errors, b"session ");
    put_number(errors, ended.session);
    put(errors, b": ");
    put(errors, ended_words(ended.why).as_bytes());
    put_out(errors, b"\n");
}

/// Tells how many sessions more ended early for the same cause since that was told last, on a line of its own.
pub fn tell_count<E: Write>(errors: &mut Watched<E>, why: Why, count: u32)
    ensures puts { Puts (count_line why count) (end_state E.contents errors.old) (end_state E.contents errors.new) }
{
    put(errors, ended_words(why).as_bytes());
    put(errors, b": ");
    put_number(errors, count);
    put_out(errors, b" more\n");
}
