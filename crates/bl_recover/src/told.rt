//! What a recovery says. Nothing of it needs memory, and once an end has failed nothing more is said there.
ghost use Rattle.std.specs.Prelude.{◌≡◌, false, true};
ghost use Rattle.bl_wire.specs.Watch.{Puts, end_state};
ghost use Rattle.bl_recover.specs.Telling.{recovered_line};

use bl_status::told::put_count;
use bl_wire::put::{put, put_out};
use bl_wire::watched::Watched;
use std::io::Write;

/// Tells how many events a trail has, and says whether all of it was taken.
pub fn tell_recovered<W: Write>(writer: &mut Watched<W>, events: usize) -> bool
    ensures puts { Puts (recovered_line events) (end_state W.contents writer.old) (end_state W.contents writer.new) }
    ensures handed_on { result ≡ true → writer.new.unflushed ≡ false }
    ensures failed { result ≡ false → writer.new.failed ≡ true }
    ensures fine { result ≡ true → writer.new.failed ≡ false }
{
    put(writer, b"recovered ");
    put_count(writer, events as u64);
    put_out(writer, b"\n")
}
